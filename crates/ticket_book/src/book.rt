//! The book of living tickets.
ghost use Rattle.std.specs.Prelude.{◌≡◌, ◌≢◌, ℕ, ◌+◌, ◌-◌, ◌^◌, ◌<◌, ◌≤◌, ◌↔◌, ◌⊎◌, ◌++◌, []};
ghost use Rattle.std.specs.Prelude.{◌∷◌, length, map, Some, None, IsTrue, IsOk, IfOk};
ghost use Rattle.std.specs.Prelude.{IfSome, IfNone, IsSome, ⊤};
ghost use Rattle.std.specs.Option.{option_map};
ghost use Rattle.triple_arena_ptr.specs.Errors.{IsBeyondMaxCapacity, IsAllocError};
ghost use Rattle.rank_tree.specs.Comparisons.{most_comparisons};
ghost use Rattle.ticket_book.specs.Mirrors.{renewed_by};
ghost use Rattle.ticket_book.specs.InArena.{entries_of};
ghost use Rattle.ticket_book.specs.Tickets.{AreBelow, Entry as EntryView, IsLocated, asked};
ghost use Rattle.ticket_book.specs.Tickets.{asked_among, elsewhere_after, entry_at, new_entry};
ghost use Rattle.ticket_book.specs.Tickets.{look_count, lookup, without_ticket};
ghost use Rattle.triple_arena.specs.ArenaRoom.{room_of};
ghost use Rattle.triple_arena.specs.Content.{arena_capacity};
ghost use Rattle.triple_arena_ord.specs.Inserted.{IsAdded};
ghost use Rattle.triple_arena_ord.specs.Ordered.{IsOrdered, size_in};
ghost use Rattle.triple_arena_stack.specs.Room.{capacity as capacity_of, IsBeyond};

use crate::entry::{Entry, Kind};
use crate::renewal::renew_entries;
use proof_marks::{recall, unreached};
use std::cmp::Ordering;
use std::marker::Model;
use std::num::NonZeroUsize;
use triple_arena::{ArenaSlot, ArenaTrait};
use triple_arena_chain::LinkNoGen;
use triple_arena_ord::laws::{entries_stand_in_the_list, the_list_has_as_many_entries_as_are_live};
use triple_arena_ord::{OrdSlots, SimpleOrdArena, SimpleOrdArenaNode};
use triple_arena_ptr::{Probes, PtrCore, PtrInxCore, ReallocationError};

/// A slot of a ticket book.
pub type TicketSlot<P> = ArenaSlot<P, LinkNoGen<P, SimpleOrdArenaNode<P, Entry<P>>>>;

/// The living tickets, in their order.
#[derive(Drop)]
pub struct TicketBook<P: PtrCore, S: OrdSlots<P, Entry<P>>> {
    pub(crate) arena: SimpleOrdArena<P, Entry<P>, S>,
    // Each living ticket below this one stands at the index of its own number.
    pub(crate) first_elsewhere: u64,
}

impl<P: PtrCore, S: OrdSlots<P, Entry<P>>> Model for TicketBook<P, S> {
    ghost use Rattle.ticket_book.specs.Tickets.{Tickets};

    ghost Value = { Tickets };

    ghost use Rattle.ticket_book.specs.InArena.{entries_of, standing_in, asked_in, asked_beside};
    ghost use Rattle.ticket_book.specs.InArena.{StandByNumber};
    ghost use Rattle.ticket_book.specs.Tickets.{TicketsRise};
    ghost use Rattle.triple_arena.specs.Content.{arena_capacity, next_index as index_of_next};
    ghost use Rattle.triple_arena_ord.specs.Ordered.{entry_in};

    ghost view = { λ b. record {
      entries = entries_of b.arena;
      standing = standing_in b.arena;
      capacity = arena_capacity b.arena.chains;
      next_index = index_of_next b.arena.chains;
      first_elsewhere = b.first_elsewhere;
      asked_below = asked_in b.arena 0;
      asked_along = asked_beside b.arena;
    } };

    ghost invariant = { λ b. TicketsRise (entries_of b.arena)
        × StandByNumber b.first_elsewhere (entry_in b.arena) };
}

// The index with this number, if the type has it.
fn index_of<I: PtrInxCore>(number: u64) -> Option<I>
    ensures same { IfSome result (λ i. I.number i ≡ number) }
    ensures none { IfNone result ((number ≡ 0) ⊎ (I.greatest < number)) }
{
    match NonZeroUsize::new(number as usize) {
        Some(number) => I::try_from_usize(number),
        None => None,
    }
}

// The first ticket that may stand elsewhere, once one more has gone in at an index.
fn elsewhere_after<I: PtrInxCore>(first: u64, at: I, ticket: u64) -> u64
    ensures { result ≡ elsewhere_after first (I.number at) ticket }
{
    match at.try_into_usize() {
        Some(number) => {
            if number.get() as u64 == ticket {
                first
            } else {
                first.min(ticket)
            }
        }
        None => first.min(ticket),
    }
}

// An entry more behind the last one, for which there is room.
fn put_last<P: PtrCore, S: OrdSlots<P, Entry<P>>>(
    arena: &mut SimpleOrdArena<P, Entry<P>, S>,
    entry: Entry<P>,
) -> P
    requires { size_in arena.old < arena_capacity arena.old.chains }
    ensures added { IsAdded (P.index result) (P.generation result) entry arena.old arena.new }
    ensures entries { entries_of arena.new ≡ entries_of arena.old ++ entry ∷ [] }
    ensures room { arena.new.chains.room ≡ arena.old.chains.room }
    ensures ordered { IsOrdered arena.new }
{
    // The list is as it must be.
    recall!(arena.len());
    match arena.last() {
        Some(last) => {
            let behind = Some((last.inx(), Ordering::Greater));
            arena.insert_inx_manual_within_capacity(behind, entry)
        }
        None => arena.insert_inx_manual_within_capacity(None, entry),
    }
}

impl<P: PtrCore, S: OrdSlots<P, Entry<P>>> TicketBook<P, S> {
    /// A book without a ticket, with room for so many. It returns `BeyondMaxCapacity` if no book of
    /// this type has so much room, and `AllocError` if the memory was refused.
    pub fn with_room(alloc: S::Alloc, room: usize) -> Result<Self, ReallocationError>
        ensures empty { IfOk result (λ book. book.entries ≡ []) }
        ensures fits { IfOk result (λ book. room ≤ book.capacity) }
        ensures exact { IfOk result (λ book. book.capacity
            ≡ capacity_of (room_of P.Inx.greatest (S.room_at room))) }
        ensures succeeds { room ≤ capacity_of (room_of P.Inx.greatest (S.room_at 0)) → IsOk result }
        ensures beyond { IsBeyondMaxCapacity result
            ↔ IsBeyond (room_of P.Inx.greatest (S.room_at room)).limit room }
        ensures memory { IsAllocError result → IsTrue S.takes_memory }
        ensures by_number { IfOk result (λ book. book.first_elsewhere ≡ 2 ^ 64 - 1) }
    {
        Ok(TicketBook {
            arena: SimpleOrdArena::with_min_capacity(alloc, room)?,
            first_elsewhere: u64::MAX,
        })
    }

    /// Where the entry of a ticket stands. A ticket below the first that may stand elsewhere is
    /// compared with the entry at the index of its own number, if one stands there, and with no
    /// other; each other ticket is searched for. Each comparison is a tick. The index serves
    /// [`entry`](TicketBook::entry) and [`take`](TicketBook::take) until a ticket is added or taken
    /// out; a renewal leaves it.
    pub fn locate(&self, ticket: u64, probes: &mut Probes) -> Option<P::Inx>
        ensures found { IfSome result (λ at. IsLocated self.now ticket (P.Inx.number at)) }
        ensures none { IfNone result (lookup self.now.entries ticket ≡ None) }
        ensures ticks { probes.new ≡ probes.old + asked self.now ticket }
        ensures bound { asked self.now ticket ≤ most_comparisons (length self.now.entries) }
    {
        if ticket < self.first_elsewhere {
            self.look(ticket, probes)
        } else {
            self.search(ticket, probes)
        }
    }

    // The index with the ticket's own number, if the entry there has the ticket.
    fn look(&self, ticket: u64, probes: &mut Probes) -> Option<P::Inx>
        ensures found { IfSome result (λ at. IsLocated self.now ticket (P.Inx.number at)) }
        ensures none { IfNone result
            (ticket < self.now.first_elsewhere → lookup self.now.entries ticket ≡ None) }
        ensures ticks { probes.new ≡ probes.old + look_count (entry_at self.now ticket) }
        ensures bound { look_count (entry_at self.now ticket)
            ≤ most_comparisons (length self.now.entries) }
    {
        entries_stand_in_the_list::<P, Entry<P>>();
        // The list is as it must be, and its indexes are within the capacity.
        recall!(self.arena.len());
        recall!(self.arena.capacity());
        match index_of::<P::Inx>(ticket) {
            Some(at) => match self.arena.get_inx(at) {
                Some(found) => {
                    probes.tick();
                    if found.1.ticket() == ticket {
                        Some(at)
                    } else {
                        None
                    }
                }
                None => None,
            },
            None => None,
        }
    }

    // Where the entry of a ticket stands, by a search.
    fn search(&self, ticket: u64, probes: &mut Probes) -> Option<P::Inx>
        ensures found { IfSome result (λ at. IsLocated self.now ticket (P.Inx.number at)) }
        ensures none { IfNone result (lookup self.now.entries ticket ≡ None) }
        ensures ticks { probes.new ≡ probes.old
            + asked_among self.now.asked_below self.now.entries self.now.asked_along ticket }
        ensures bound { asked_among self.now.asked_below self.now.entries
            self.now.asked_along ticket
            ≤ most_comparisons (length self.now.entries) }
    {
        entries_stand_in_the_list::<P, Entry<P>>();
        the_list_has_as_many_entries_as_are_live::<P, Entry<P>>();
        // The list is as it must be.
        recall!(self.arena.len());
        match self.arena.find_key_counted(&ticket, probes) {
            Some(p) => Some(p.inx()),
            None => None,
        }
    }

    /// The entry at an index that `locate` gave. No ticket is compared.
    pub fn entry(&self, at: P::Inx) -> &Entry<P>
        requires stands { IsSome (entry_at self.now (P.Inx.number at)) }
        requires no_more { ⊤ }
        ensures { entry_at self.now (P.Inx.number at) ≡ Some result.now }
    {
        entries_stand_in_the_list::<P, Entry<P>>();
        // The list is as it must be.
        recall!(self.arena.len());
        match self.arena.get_inx(at) {
            Some(found) => found.1,
            None => unreached!(),
        }
    }

    /// The entry of a ticket, or `None` if the book does not have the ticket. It is found as by
    /// [`locate`](TicketBook::locate), and each comparison is a tick.
    pub fn find_counted(&self, ticket: u64, probes: &mut Probes) -> Option<&Entry<P>>
        ensures found { option_map (λ e. e.now) result ≡ lookup self.now.entries ticket }
        ensures ticks { probes.new ≡ probes.old + asked self.now ticket }
        ensures bound { asked self.now ticket ≤ most_comparisons (length self.now.entries) }
    {
        match self.locate(ticket, probes) {
            Some(at) => Some(self.entry(at)),
            None => None,
        }
    }

    /// Adds a ticket above all others, with the kind of its item and the pointer to it. The caller
    /// owes that it is above them and that there is room. The ticket is compared with none, and its
    /// entry stands at the next index.
    pub fn add(&mut self, ticket: u64, kind: Kind, at: P)
        requires above { AreBelow self.old.entries ticket }
        requires room { length self.old.entries < self.old.capacity }
        ensures stands { entry_at self.new self.old.next_index
            ≡ Some (new_entry ticket kind (P.index at) (P.generation at)) }
        ensures stay { (i : ℕ) (e : EntryView) → entry_at self.old i ≡ Some e
            → entry_at self.new i ≡ Some e }
        ensures entries { self.new.entries ≡ self.old.entries
            ++ new_entry ticket kind (P.index at) (P.generation at) ∷ [] }
        ensures capacity { self.new.capacity ≡ self.old.capacity }
        ensures elsewhere { self.new.first_elsewhere
            ≡ elsewhere_after self.old.first_elsewhere self.old.next_index ticket }
    {
        entries_stand_in_the_list::<P, Entry<P>>();
        the_list_has_as_many_entries_as_are_live::<P, Entry<P>>();
        // The list is as it must be.
        recall!(self.arena.len());
        let entry = Entry::new(ticket, kind, at);
        let p = put_last(&mut self.arena, entry);
        self.first_elsewhere = elsewhere_after(self.first_elsewhere, p.inx(), ticket);
    }

    /// Takes out the entry at an index that `locate` gave, with its ticket. No ticket is compared.
    pub fn take(&mut self, at: P::Inx) -> Entry<P>
        requires stands { IsSome (entry_at self.old (P.Inx.number at)) }
        requires no_more { ⊤ }
        ensures entry { entry_at self.old (P.Inx.number at) ≡ Some result }
        ensures found { lookup self.old.entries result.ticket ≡ Some result }
        ensures out { self.new.entries ≡ without_ticket result.ticket self.old.entries }
        ensures stay { (i : ℕ) → i ≢ P.Inx.number at → entry_at self.new i ≡ entry_at self.old i }
        ensures capacity { self.new.capacity ≡ self.old.capacity }
        ensures elsewhere { self.new.first_elsewhere ≡ self.old.first_elsewhere }
    {
        entries_stand_in_the_list::<P, Entry<P>>();
        // The list is as it must be.
        recall!(self.arena.len());
        match self.arena.remove_inx(at).allow() {
            Some(taken) => taken.1,
            None => unreached!(),
        }
    }

    /// Replaces the pointer of each entry by the one that the mirror of its kind has under it. A
    /// pointer that the mirror does not have stays, and each entry stays at its index.
    pub fn renew<M: ArenaTrait<P, P>, N: ArenaTrait<P, P>, O: ArenaTrait<P, P>>(
        &mut self,
        places: &M,
        stops: &N,
        marks: &O,
    )
        ensures entries { self.new.entries
            ≡ map (renewed_by P.index P.generation (M.entry_at places.now) (N.entry_at stops.now)
            (O.entry_at marks.now)) self.old.entries }
        ensures stands { (i : ℕ) → entry_at self.new i
            ≡ option_map (renewed_by P.index P.generation (M.entry_at places.now)
            (N.entry_at stops.now) (O.entry_at marks.now)) (entry_at self.old i) }
        ensures capacity { self.new.capacity ≡ self.old.capacity }
        ensures elsewhere { self.new.first_elsewhere ≡ self.old.first_elsewhere }
    {
        entries_stand_in_the_list::<P, Entry<P>>();
        // The list is as it must be, before and after.
        recall!(self.arena.len());
        renew_entries(&mut self.arena, places, stops, marks);
        recall!(self.arena.len());
    }
}
