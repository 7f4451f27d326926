//! A pack: all items at the first indexes, and no dead reference.
ghost use Rattle.std.specs.Prelude.{◌≡◌, ℕ};
ghost use Rattle.triple_arena.specs.Content.{arena_capacity};
ghost use Rattle.triple_arena.specs.DirectContent.{arena_capacity as mirror_capacity};
ghost use Rattle.ticket_book.specs.Tickets.{entry_at};
ghost use Rattle.route_lines.specs.Searches.{ComparesWithin};
ghost use Rattle.route_book.specs.Compressed.{IsAllCompressed};
ghost use Rattle.route_book.specs.Book.{as_book, IsBook, KeepsRooms};
ghost use Rattle.route_book.specs.Packing.{StandAs};
ghost use Rattle.route_book.specs.Removals.{IsPacked, IsReady};

use crate::backing::BookBacking;
use crate::book::RouteBook;
use crate::items::{Mark, Place, Stop};
use crate::mirrors::{mirror_marks, mirror_places, mirror_stops};
use crate::parts::Mirrors;
use crate::recasts::{recast_all_marks, recast_all_stops};
use proof_marks::recall;
use route_lines::{Counts, Held};
use ticket_book::TicketBook;
use triple_arena::{Arena, ArenaSlots, ArenaTrait, CompactArenaTrait};
use triple_arena_chain::{ChainArena, ChainSlots};
use triple_arena_ord::laws::entries_stand_in_the_list;
use triple_arena_ord::{OrdSlots, SimpleOrdArena};
use triple_arena_ptr::{Probes, PtrCore};

// Moves the items of the three arenas to the first indexes, places and stops in the order of their
// lists. All counters are reset.
fn compress_all<
    P: PtrCore,
    S: OrdSlots<P, Place>,
    R: ChainSlots<P, Stop<P>>,
    Q: ArenaSlots<P, Mark<P>>,
>(
    places: &mut SimpleOrdArena<P, Place, S>,
    stops: &mut ChainArena<P, Stop<P>, R>,
    marks: &mut Arena<P, Mark<P>, Q>,
)
    ensures { IsAllCompressed P.Gen.last places.old places.new stops.old stops.new
        marks.old marks.new }
{
    // The lists are as they must be, and each live index is within the room.
    recall!(places.len());
    recall!(stops.len());
    recall!(places.capacity());
    recall!(stops.capacity());
    recall!(marks.capacity());

    // The work. That a counter is reset is no error here.
    let _ = places.compress_canonical(true);
    let _ = stops.compress_canonical(true);
    let _ = marks.compress(true);

    // Each live index still is within the room.
    recall!(places.capacity());
    recall!(stops.capacity());
    recall!(marks.capacity());
}

// Packs the parts of a store of this state, if that is needed. Each entry of the ticket book stays
// where it stands.
pub(crate) fn pack_if<P: PtrCore, B: BookBacking<P>>(
    needed: bool,
    held: &Held,
    places: &mut SimpleOrdArena<P, Place, B::Places>,
    stops: &mut ChainArena<P, Stop<P>, B::Stops>,
    marks: &mut Arena<P, Mark<P>, B::Marks>,
    tickets: &mut TicketBook<P, B::Book>,
    mirrors: &mut Mirrors<P, B::Mirror>,
    looks: &mut Probes,
)
    requires book { IsBook held.now.state.rooms held.now.state.last held.now.state
        places.old stops.old marks.old tickets.old.entries }
    requires place_mirror { arena_capacity places.old.chains ≡ mirror_capacity mirrors.old.places }
    requires stop_mirror { arena_capacity stops.old ≡ mirror_capacity mirrors.old.stops }
    requires mark_mirror { arena_capacity marks.old ≡ mirror_capacity mirrors.old.marks }
    ensures book { IsBook held.now.state.rooms held.now.state.last held.now.state
        places.new stops.new marks.new tickets.new.entries }
    ensures ready { IsReady P.Gen.last needed looks.old looks.new
        (as_book held.now.state places.old stops.old marks.old)
        (as_book held.now.state places.new stops.new marks.new) }
    ensures stand { StandAs (entry_at tickets.old) (entry_at tickets.new) }
    ensures rooms { KeepsRooms (as_book held.now.state places.old stops.old marks.old)
        (as_book held.now.state places.new stops.new marks.new) }
    ensures book_room { tickets.new.capacity ≡ tickets.old.capacity }
    ensures place_mirror { mirrors.new.places.room ≡ mirrors.old.places.room }
    ensures stop_mirror { mirrors.new.stops.room ≡ mirrors.old.stops.room }
    ensures mark_mirror { mirrors.new.marks.room ≡ mirrors.old.marks.room }
{
    if !needed {
        return;
    }
    // `held` stands for the contract alone.
    let _ = held;
    entries_stand_in_the_list::<P, Place>();
    compress_all(places, stops, marks);
    mirror_places(places, tickets, &mut mirrors.places);
    mirror_stops(stops, tickets, &mut mirrors.stops);
    mirror_marks(marks, tickets, &mut mirrors.marks);
    recast_all_stops(stops, &mirrors.places, looks);
    recast_all_marks(marks, &mirrors.places, &mirrors.stops, looks);
    tickets.renew(&mirrors.places, &mirrors.stops, &mirrors.marks);
}

impl<P: PtrCore, B: BookBacking<P>> RouteBook<P, B> {
    /// Moves all items to the first indexes: places in the order of their keys, the stops of a
    /// route one after another. No index is free then.
    ///
    /// Each stored reference is looked at once; one to an item that has ended is `Gone` from then
    /// on. All items have the second generation then, and pointers into the arenas may find
    /// other items, or none. No memory is taken, and the state and the rooms stay.
    pub fn pack(&mut self)
        ensures state { self.new.state ≡ self.old.state }
        ensures packed { (looks : ℕ) × IsPacked P.Gen.last 0 looks self.old self.new }
    {
        self.pack_counted(&mut Counts::new());
    }

    /// Moves all items to the first indexes: places in the order of their keys, the stops of a
    /// route one after another. No index is free then. The looks at stored references are counted
    /// in `counts.looks`; the searches by ticket are not counted.
    ///
    /// Each stored reference is looked at once; one to an item that has ended is `Gone` from then
    /// on. All items have the second generation then, and pointers into the arenas may find other
    /// items, or none. No memory is taken, and the state and the rooms stay.
    pub fn pack_counted(&mut self, counts: &mut Counts)
        ensures state { self.new.state ≡ self.old.state }
        ensures packed { IsPacked P.Gen.last counts.old.looks counts.new.looks self.old self.new }
        ensures counts { ComparesWithin counts.old counts.new 0 0 0 }
    {
        pack_if::<P, B>(
            true,
            &self.held,
            &mut self.places,
            &mut self.stops,
            &mut self.marks,
            &mut self.tickets,
            &mut self.mirrors,
            &mut counts.looks,
        );
    }
}
