//! What the book has for a ticket.
ghost use Rattle.std.specs.Prelude.{◌≡◌};

use std::marker::Model;
use triple_arena_ord::SimpleOrdItem;
use triple_arena_ptr::PtrCore;

/// What an item is.
#[derive(Clone, Copy, Debug, PartialEq, Eq)]
pub enum Kind {
    /// A place.
    Place,
    /// A stop of a route.
    Stop,
    /// A mark.
    Mark,
}

/// A living ticket: the kind of its item, and the pointer to it.
#[derive(Drop)]
pub struct Entry<P: PtrCore> {
    ticket: u64,
    pub(crate) kind: Kind,
    pub(crate) at: P,
}

impl<P: PtrCore> Model for Entry<P> {
    ghost use Rattle.ticket_book.specs.Tickets.{Entry as View};

    ghost Value = { View };

    ghost view = { λ e. record {
      ticket = e.ticket;
      kind = e.kind;
      index = P.index e.at;
      generation = P.generation e.at;
    } };
}

impl<P: PtrCore> Entry<P> {
    /// An entry of this ticket.
    pub fn new(ticket: u64, kind: Kind, at: P) -> Self
        ensures { result ≡ record
            { ticket = ticket; kind = kind; index = P.index at; generation = P.generation at } }
    {
        Entry { ticket, kind, at }
    }

    /// The ticket.
    pub fn ticket(&self) -> u64
        ensures { result ≡ self.now.ticket }
    {
        self.ticket
    }

    /// The kind of the item.
    pub fn kind(&self) -> Kind
        ensures { result ≡ self.now.kind }
    {
        self.kind
    }

    /// The pointer to the item.
    pub fn at(&self) -> P
        ensures index { P.index result ≡ self.now.index }
        ensures generation { P.generation result ≡ self.now.generation }
    {
        self.at
    }
}

impl<P: PtrCore> SimpleOrdItem for Entry<P> {
    type Key = u64;

    ghost key_of = { λ e. e.ticket };

    fn key(&self) -> &u64 {
        &self.ticket
    }
}
