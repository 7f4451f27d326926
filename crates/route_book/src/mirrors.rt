//! Mirrors, which lead from old pointers to new ones: how a pack fills them by tickets.
ghost use Rattle.std.specs.Prelude.{◌≡◌, ℕ, ◌+◌, Some, ⊤};
ghost use Rattle.triple_arena.specs.Content.{entry_at as mark_at};
ghost use Rattle.triple_arena.specs.DirectContent.{entry_at, arena_capacity, IsPlace};
ghost use Rattle.triple_arena.specs.Entries.{generation_at, with_entry};
ghost use Rattle.triple_arena_chain.specs.Links.{values_in};
ghost use Rattle.triple_arena_ord.specs.Ordered.{entry_in};
ghost use Rattle.ticket_book.specs.Mirrors.{numbers};
ghost use Rattle.route_lines.specs.State.{Place as PlaceView};
ghost use Rattle.route_book.specs.Item.{MarkView, StopView};
ghost use Rattle.route_book.specs.Packing.{AreMirrored, IsBooked, IsMirrored};

use crate::items::{Mark, Place, Stop};
use proof_marks::unreached;
use ticket_book::{Entry, TicketBook};
use triple_arena::{
    Advancer, Arena, ArenaDirectInsertEntryTrait, ArenaDirectInsertTrait, ArenaSlots, ArenaTrait,
    DirectArena, DirectSlots,
};
use triple_arena_chain::{ChainArena, ChainSlots};
use triple_arena_ord::{OrdSlots, SimpleOrdArena};
use triple_arena_ptr::{Probes, PtrCore};

/// What holds its ticket.
pub(crate) trait Ticketed {
    ghost ticket_of: { Self → ℕ };

    /// The ticket.
    fn own_ticket(&self) -> u64
        ensures { result ≡ ticket_of self.now };
}

impl Ticketed for Place {
    ghost ticket_of = { λ p. p.ticket };

    fn own_ticket(&self) -> u64 {
        self.ticket()
    }
}

impl<P: PtrCore> Ticketed for Stop<P> {
    ghost ticket_of = { λ t. t.ticket };

    fn own_ticket(&self) -> u64 {
        self.ticket()
    }
}

impl<P: PtrCore> Ticketed for Mark<P> {
    ghost ticket_of = { λ m. m.ticket };

    fn own_ticket(&self) -> u64 {
        self.ticket()
    }
}

// One pointer more in a mirror, under a pointer whose index is free there.
fn put<P: PtrCore, S: DirectSlots<P, P>>(mirror: &mut DirectArena<P, P, S>, from: P, to: P)
    requires vacant { IsPlace mirror.old (P.index from) }
    requires no_more { ⊤ }
    ensures entries { (j : ℕ) → entry_at mirror.new j
        ≡ with_entry (entry_at mirror.old) (P.index from) (P.generation from, to) j }
    ensures room { mirror.new.room ≡ mirror.old.room }
{
    match mirror.direct_insert_within_capacity(from) {
        Ok(place) => place.insert(to),
        Err(_) => unreached!(),
    }
}

// Notes the pointer to an item under the pointer that the book has for its ticket.
fn note<
    P: PtrCore,
    T: Ticketed + Drop,
    A: ArenaTrait<P, T>,
    B: OrdSlots<P, Entry<P>>,
    S: DirectSlots<P, P>,
>(arena: &A, book: &TicketBook<P, B>, mirror: &mut DirectArena<P, P, S>, p: P)
    requires live { generation_at (A.entry_at arena.now) (P.index p) ≡ Some (P.generation p) }
    requires booked { IsBooked T.ticket_of book.now.entries (A.entry_at arena.now)
        (arena_capacity mirror.old) }
    requires mirrored { IsMirrored T.ticket_of book.now.entries (A.entry_at arena.now) (P.index p)
        (numbers P.index P.generation (entry_at mirror.old)) }
    ensures mirrored { IsMirrored T.ticket_of book.now.entries (A.entry_at arena.now)
        (P.index p + 1)
        (numbers P.index P.generation (entry_at mirror.new)) }
    ensures room { mirror.new.room ≡ mirror.old.room }
{
    let Some(item) = arena.get(p) else {
        unreached!()
    };
    let Some(entry) = book.find_counted(item.own_ticket(), &mut Probes::new()) else {
        unreached!()
    };
    put(mirror, entry.at(), p);
}

// Notes the pointers to all items of an arena, each under the pointer that the book has for its
// ticket.
fn mirror_by_tickets<
    P: PtrCore,
    T: Ticketed + Drop,
    A: ArenaTrait<P, T>,
    B: OrdSlots<P, Entry<P>>,
    S: DirectSlots<P, P>,
>(arena: &A, book: &TicketBook<P, B>, mirror: &mut DirectArena<P, P, S>)
    requires booked { IsBooked T.ticket_of book.now.entries (A.entry_at arena.now)
        (arena_capacity mirror.old) }
    ensures mirrored { AreMirrored T.ticket_of book.now.entries (A.entry_at arena.now)
        (numbers P.index P.generation (entry_at mirror.new)) }
    ensures room { mirror.new.room ≡ mirror.old.room }
{
    let _ = mirror.clear();
    let mut walk = arena.advancer();
    while let Some(p) = walk.advance(arena) {
        note(arena, book, mirror, p);
    }
}

// Notes the pointers to all places.
pub(crate) fn mirror_places<
    P: PtrCore,
    S: OrdSlots<P, Place>,
    B: OrdSlots<P, Entry<P>>,
    R: DirectSlots<P, P>,
>(places: &SimpleOrdArena<P, Place, S>, book: &TicketBook<P, B>, mirror: &mut DirectArena<P, P, R>)
    requires booked { IsBooked (λ (x : PlaceView). x.ticket) book.now.entries (entry_in places.now)
        (arena_capacity mirror.old) }
    requires no_more { ⊤ }
    ensures mirrored { AreMirrored (λ (x : PlaceView). x.ticket) book.now.entries
        (entry_in places.now) (numbers P.index P.generation (entry_at mirror.new)) }
    ensures room { mirror.new.room ≡ mirror.old.room }
{
    mirror_by_tickets(places, book, mirror);
}

// Notes the pointers to all stops.
pub(crate) fn mirror_stops<
    P: PtrCore,
    S: ChainSlots<P, Stop<P>>,
    B: OrdSlots<P, Entry<P>>,
    R: DirectSlots<P, P>,
>(stops: &ChainArena<P, Stop<P>, S>, book: &TicketBook<P, B>, mirror: &mut DirectArena<P, P, R>)
    requires booked { IsBooked (λ (x : StopView). x.ticket) book.now.entries (values_in stops.now)
        (arena_capacity mirror.old) }
    requires no_more { ⊤ }
    ensures mirrored { AreMirrored (λ (x : StopView). x.ticket) book.now.entries
        (values_in stops.now) (numbers P.index P.generation (entry_at mirror.new)) }
    ensures room { mirror.new.room ≡ mirror.old.room }
{
    mirror_by_tickets(stops, book, mirror);
}

// Notes the pointers to all marks.
pub(crate) fn mirror_marks<
    P: PtrCore,
    S: ArenaSlots<P, Mark<P>>,
    B: OrdSlots<P, Entry<P>>,
    R: DirectSlots<P, P>,
>(marks: &Arena<P, Mark<P>, S>, book: &TicketBook<P, B>, mirror: &mut DirectArena<P, P, R>)
    requires booked { IsBooked (λ (x : MarkView). x.ticket) book.now.entries (mark_at marks.now)
        (arena_capacity mirror.old) }
    requires no_more { ⊤ }
    ensures mirrored { AreMirrored (λ (x : MarkView). x.ticket) book.now.entries
        (mark_at marks.now) (numbers P.index P.generation (entry_at mirror.new)) }
    ensures room { mirror.new.room ≡ mirror.old.room }
{
    mirror_by_tickets(marks, book, mirror);
}
