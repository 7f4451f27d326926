//! Removals, which leave stored references as they are.
ghost use Rattle.std.specs.Prelude.{◌≡◌, ℕ, Some, false};
ghost use Rattle.triple_arena_ptr.specs.Generation.{next_wraps};
ghost use Rattle.ticket_book.specs.Tickets.{Entry as EntryView, entry_at};
ghost use Rattle.route_lines.specs.Calls.{removed, after_removed};
ghost use Rattle.route_lines.specs.Searches.{ComparesWithin, most_for};
ghost use Rattle.route_lines.specs.Sound.{IsSound};
ghost use Rattle.route_lines.specs.State.{holder};
ghost use Rattle.route_book.specs.Book.{as_book, IsBook, KeepsRooms};
ghost use Rattle.route_book.specs.Removals.{EndsUnder, Removes, removal_wraps};
ghost use Rattle.route_book.specs.Rooms.{counts_short};

use crate::backing::BookBacking;
use crate::book::RouteBook;
use crate::book::packing::pack_if;
use crate::items::{Mark, Place, Stop};
use proof_marks::recall;
use route_lines::laws::{
    changes_keep_states_sound, removed_marks_leave_all_else, removed_places_leave_no_reference,
    removed_stops_join_their_neighbors,
};
use route_lines::{Change, Counts, Held, Refusal};
use ticket_book::{Kind, TicketBook};
use triple_arena::{Arena, ArenaTrait};
use triple_arena_chain::{ChainArena, ChainArenaTrait};
use triple_arena_ord::SimpleOrdArena;
use triple_arena_ptr::{PtrCore, PtrGenCore};

// Whether a counter wraps at its next step.
fn wraps<P: PtrCore>(counter: P::Gen) -> bool
    ensures { result ≡ next_wraps P.Gen.last (P.Gen.number counter) }
{
    counter.generational_inc().1
}

// Ends the item whose entry stands at an index of the ticket book. No counter wraps that a
// reference may be under.
fn end_at<P: PtrCore, B: BookBacking<P>>(
    held: &mut Held,
    places: &mut SimpleOrdArena<P, Place, B::Places>,
    stops: &mut ChainArena<P, Stop<P>, B::Stops>,
    marks: &mut Arena<P, Mark<P>, B::Marks>,
    tickets: &mut TicketBook<P, B::Book>,
    at: P::Inx,
)
    requires book { IsBook held.old.state.rooms held.old.state.last held.old.state
        places.old stops.old marks.old tickets.old.entries }
    requires sound { IsSound held.old.state }
    requires counts { counts_short P.Gen.last ≡ false }
    requires stands { (e : EntryView) × (entry_at tickets.old (P.Inx.number at) ≡ Some e)
        × (removal_wraps P.Gen.last (as_book held.old.state places.old stops.old marks.old) e.kind
        ≡ false) }
    ensures book { IsBook held.old.state.rooms held.old.state.last held.new.state
        places.new stops.new marks.new tickets.new.entries }
    ensures sound { IsSound held.new.state }
    ensures ends { EndsUnder P.Gen.last (entry_at tickets.old (P.Inx.number at))
        (as_book held.old.state places.old stops.old marks.old)
        (as_book held.new.state places.new stops.new marks.new) }
    ensures rooms { KeepsRooms (as_book held.old.state places.old stops.old marks.old)
        (as_book held.new.state places.new stops.new marks.new) }
    ensures book_room { tickets.new.capacity ≡ tickets.old.capacity }
{
    changes_keep_states_sound();
    let entry = tickets.take(at);
    let kind = entry.kind();
    let item = entry.at();
    *held = held.changed(&Change::Remove(entry.ticket()));
    drop(entry);
    match kind {
        Kind::Place => {
            removed_places_leave_no_reference();
            // The list is as it must be.
            recall!(places.len());
            let _ = places.remove(item);
        }
        Kind::Stop => {
            removed_stops_join_their_neighbors();
            // The links are as they must be.
            recall!(stops.len());
            let _ = stops.remove_link_no_gen(item);
        }
        Kind::Mark => {
            removed_marks_leave_all_else();
            let _ = marks.remove(item);
        }
    }
}

impl<P: PtrCore, B: BookBacking<P>> RouteBook<P, B> {
    /// Removes a living place, stop or mark. Its ticket never comes again, and each stored
    /// reference to it is gone.
    ///
    /// `Unknown` if the ticket was never given, and `Gone` if its item has ended; then nothing
    /// changes.
    pub fn remove(&mut self, ticket: u64) -> Result<(), Refusal>
        ensures result { result ≡ removed self.old.state ticket }
        ensures state { self.new.state ≡ after_removed self.old.state ticket }
        ensures removes { (looks : ℕ)
            × Removes P.Gen.last ticket 0 looks self.old self.new (holder self.old.state ticket) }
    {
        self.remove_counted(ticket, &mut Counts::new())
    }

    /// Removes a living place, stop or mark. Its ticket never comes again, and each stored
    /// reference to it is gone. The comparisons of the search for the ticket are counted in
    /// `counts.first`, and the looks at stored references in `counts.looks`.
    ///
    /// `Unknown` if the ticket was never given, and `Gone` if its item has ended; then nothing
    /// changes.
    ///
    /// A reference to the removed item stays as it is and finds nothing, so no reference is looked
    /// at. If that cannot be, since the arena's counter would wrap, the store is packed first. The
    /// searches by ticket of a pack are not counted.
    pub fn remove_counted(&mut self, ticket: u64, counts: &mut Counts) -> Result<(), Refusal>
        ensures result { result ≡ removed self.old.state ticket }
        ensures state { self.new.state ≡ after_removed self.old.state ticket }
        ensures removes { Removes P.Gen.last ticket counts.old.looks counts.new.looks
            self.old self.new
            (holder self.old.state ticket) }
        ensures counts { ComparesWithin counts.old counts.new 0 (most_for self.old.state ticket) 0 }
    {
        if ticket == 0 || ticket > self.last {
            return Err(Refusal::Unknown);
        }
        let Some(at) = self.tickets.locate(ticket, &mut counts.first) else {
            return Err(Refusal::Gone);
        };
        let needed = self.removal_wraps(self.tickets.entry(at).kind());
        pack_if::<P, B>(
            needed,
            &self.held,
            &mut self.places,
            &mut self.stops,
            &mut self.marks,
            &mut self.tickets,
            &mut self.mirrors,
            &mut counts.looks,
        );
        end_at::<P, B>(
            &mut self.held,
            &mut self.places,
            &mut self.stops,
            &mut self.marks,
            &mut self.tickets,
            at,
        );
        Ok(())
    }

    // Whether the removal of an item of a kind would wrap a counter that references may be under.
    fn removal_wraps(&self, kind: Kind) -> bool
        ensures { result ≡ removal_wraps P.Gen.last self.now kind }
    {
        match kind {
            Kind::Place => wraps::<P>(self.places.generation()),
            Kind::Stop => wraps::<P>(self.stops.generation()),
            Kind::Mark => false,
        }
    }
}
