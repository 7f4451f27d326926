//! What the arenas of a store hold: places, stops and marks, and references between them.
ghost use Rattle.std.specs.Prelude.{◌≡◌};
ghost use Rattle.route_book.specs.Item.{reference_of};

use route_lines::Word;
use std::marker::Model;
use std::mem;
use triple_arena_ord::SimpleOrdItem;
use triple_arena_ptr::PtrCore;

/// A reference to an item: a pointer, or nothing if the item is gone.
///
/// A pointer that finds nothing in its arena is a reference to an item that has ended.
#[derive(Clone, Copy)]
pub enum Ref<P> {
    /// A reference to the item that the pointer finds, if it finds one.
    To(P),
    /// A reference to an item that is gone.
    Gone,
}

/// The key of a place in its arena: its number and, for places of one number, their tickets.
#[derive(Clone, Copy, Debug, PartialEq, Eq, PartialOrd, Ord, Hash)]
pub struct PlaceKey {
    /// The key as a number.
    pub key: u64,
    /// The ticket.
    pub ticket: u64,
}

/// A living place.
#[derive(Drop)]
pub struct Place {
    key: PlaceKey,
    word: Word,
}

impl Model for Place {
    ghost use Rattle.route_lines.specs.State.{Place as View};

    ghost Value = { View };

    ghost view = { λ p. record { ticket = p.key.ticket; key = p.key.key; word = p.word } };
}

impl Place {
    pub(crate) fn new(ticket: u64, key: u64, word: Word) -> Self
        ensures { result ≡ record { ticket = ticket; key = key; word = word } }
    {
        Place {
            key: PlaceKey { key, ticket },
            word,
        }
    }

    /// The ticket.
    pub fn ticket(&self) -> u64
        ensures { result ≡ self.now.ticket }
    {
        self.key.ticket
    }

    /// The key as a number. `key` borrows the key as the arena orders it, with the ticket.
    pub fn key_number(&self) -> u64
        ensures { result ≡ self.now.key }
    {
        self.key.key
    }

    /// The word.
    pub fn word(&self) -> &Word
        ensures { result.now ≡ self.now.word }
    {
        &self.word
    }

    // Another word, and the one that stood there.
    pub(crate) fn replace_word(&mut self, word: Word) -> Word
        ensures word { result ≡ self.old.word }
        ensures place { self.new ≡ record self.old { word = word } }
    {
        mem::replace(&mut self.word, word)
    }
}

impl SimpleOrdItem for Place {
    ghost use Rattle.route_book.specs.Keys.{key_of};

    type Key = PlaceKey;

    ghost key_of = { key_of };

    fn key(&self) -> &PlaceKey {
        &self.key
    }
}

/// A living stop of a route.
#[derive(Drop)]
pub struct Stop<P: PtrCore> {
    ticket: u64,
    pub(crate) place: Ref<P>,
}

impl<P: PtrCore> Model for Stop<P> {
    ghost use Rattle.route_book.specs.Item.{StopView, reference_of};

    ghost Value = { StopView };

    ghost view = { λ t. record {
      ticket = t.ticket;
      place = reference_of P.index P.generation t.place;
    } };
}

impl<P: PtrCore> Stop<P> {
    pub(crate) fn new(ticket: u64, place: Ref<P>) -> Self
        ensures ticket { result.ticket ≡ ticket }
        ensures place { result.place ≡ reference_of P.index P.generation place }
    {
        Stop { ticket, place }
    }

    /// The ticket.
    pub fn ticket(&self) -> u64
        ensures { result ≡ self.now.ticket }
    {
        self.ticket
    }

    /// The place that it stands for.
    pub fn place(&self) -> Ref<P>
        ensures { reference_of P.index P.generation result ≡ self.now.place }
    {
        self.place
    }
}

/// A living mark.
#[derive(Drop)]
pub struct Mark<P: PtrCore> {
    ticket: u64,
    pub(crate) place: Ref<P>,
    pub(crate) stop: Ref<P>,
}

impl<P: PtrCore> Model for Mark<P> {
    ghost use Rattle.route_book.specs.Item.{MarkView, reference_of};

    ghost Value = { MarkView };

    ghost view = { λ m. record {
      ticket = m.ticket;
      place = reference_of P.index P.generation m.place;
      stop = reference_of P.index P.generation m.stop;
    } };
}

impl<P: PtrCore> Mark<P> {
    pub(crate) fn new(ticket: u64, place: Ref<P>, stop: Ref<P>) -> Self
        ensures ticket { result.ticket ≡ ticket }
        ensures place { result.place ≡ reference_of P.index P.generation place }
        ensures stop { result.stop ≡ reference_of P.index P.generation stop }
    {
        Mark {
            ticket,
            place,
            stop,
        }
    }

    /// The ticket.
    pub fn ticket(&self) -> u64
        ensures { result ≡ self.now.ticket }
    {
        self.ticket
    }

    /// The place that it names.
    pub fn place(&self) -> Ref<P>
        ensures { reference_of P.index P.generation result ≡ self.now.place }
    {
        self.place
    }

    /// The stop that it names.
    pub fn stop(&self) -> Ref<P>
        ensures { reference_of P.index P.generation result ≡ self.now.stop }
    {
        self.stop
    }
}
