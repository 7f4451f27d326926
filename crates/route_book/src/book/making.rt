//! A new store.
ghost use Rattle.std.specs.Prelude.{◌≡◌, ◌+◌, Some, None, Err, IfOk, IfErr};
ghost use Rattle.triple_arena_ptr.specs.Generation.{second_generation};
ghost use Rattle.route_lines.specs.State.{empty};
ghost use Rattle.route_lines.specs.declared.refusal.RoomError.{RoomError as Refused};
ghost use Rattle.route_book.specs.Rooms.{HasRooms, IsShortOfMemory, refusal_of, rooms_for};

use crate::backing::BookBacking;
use crate::book::RouteBook;
use crate::parts::{make_arenas, make_book, make_mirrors, room_sum};
use route_lines::laws::states_are_sound;
use route_lines::{Change, Held, RoomError};
use triple_arena_ptr::PtrCore;

impl<P: PtrCore, B: BookBacking<P>> RouteBook<P, B> {
    /// A store with nothing in it, with room for so many places, stops and marks. Its first ticket
    /// is 1.
    ///
    /// `Generation` if the pointers' generations do not count to 3; else `Index` if the rooms
    /// together are past what an index can count; else `Stack` if they are past what a stack of the
    /// backing holds; else `Memory` if the memory was refused. A backing that takes no memory is
    /// never refused it.
    pub fn new(backing: &B, places: usize, stops: usize, marks: usize) -> Result<Self, RoomError>
        ensures made { IfOk result (λ book. book.state ≡ empty (rooms_for places stops marks) 0) }
        ensures counters { IfOk result (λ book.
            (book.places.chains.counter ≡ second_generation P.Gen.last)
            × (book.stops.counter ≡ second_generation P.Gen.last)) }
        ensures mark_counter { IfOk result (λ book.
            book.marks.counter ≡ second_generation P.Gen.last) }
        ensures rooms { IfOk result
            (λ book. HasRooms P.Inx.greatest B.room (rooms_for places stops marks) book) }
        ensures refused { (e : Refused)
            → refusal_of P.Gen.last P.Inx.greatest B.limit (places + stops + marks) ≡ Some e
            → result ≡ Err e }
        ensures accepted { refusal_of P.Gen.last P.Inx.greatest B.limit
            (places + stops + marks) ≡ None
            → IfErr result (λ e. IsShortOfMemory e B.takes_memory (places + stops + marks)) }
    {
        Self::new_after(backing, places, stops, marks, 0)
    }

    /// A store with nothing in it, with room for so many places, stops and marks, in which the
    /// tickets 1 to `last` count as given and their items as ended.
    ///
    /// `Generation` if the pointers' generations do not count to 3; else `Index` if the rooms
    /// together are past what an index can count; else `Stack` if they are past what a stack of the
    /// backing holds; else `Memory` if the memory was refused. A backing that takes no memory is
    /// never refused it.
    pub fn new_after(
        backing: &B,
        places: usize,
        stops: usize,
        marks: usize,
        last: u64,
    ) -> Result<Self, RoomError>
        ensures made { IfOk result
            (λ book. book.state ≡ empty (rooms_for places stops marks) last) }
        ensures counters { IfOk result (λ book.
            (book.places.chains.counter ≡ second_generation P.Gen.last)
            × (book.stops.counter ≡ second_generation P.Gen.last)) }
        ensures mark_counter { IfOk result (λ book.
            book.marks.counter ≡ second_generation P.Gen.last) }
        ensures rooms { IfOk result
            (λ book. HasRooms P.Inx.greatest B.room (rooms_for places stops marks) book) }
        ensures refused { (e : Refused)
            → refusal_of P.Gen.last P.Inx.greatest B.limit (places + stops + marks) ≡ Some e
            → result ≡ Err e }
        ensures accepted { refusal_of P.Gen.last P.Inx.greatest B.limit
            (places + stops + marks) ≡ None
            → IfErr result (λ e. IsShortOfMemory e B.takes_memory (places + stops + marks)) }
    {
        let sum = room_sum::<P, B>(places, stops, marks)?;
        Self::open(backing, places, stops, marks, sum, last)
    }

    // A store in rooms that are accepted, and that are so many in all.
    pub(crate) fn open(
        backing: &B,
        places: usize,
        stops: usize,
        marks: usize,
        sum: usize,
        last: u64,
    ) -> Result<Self, RoomError>
        requires sum { sum ≡ places + stops + marks }
        requires accepted { refusal_of P.Gen.last P.Inx.greatest B.limit sum ≡ None }
        ensures made { IfOk result
            (λ book. book.state ≡ empty (rooms_for places stops marks) last) }
        ensures counters { IfOk result (λ book.
            (book.places.chains.counter ≡ second_generation P.Gen.last)
            × (book.stops.counter ≡ second_generation P.Gen.last)) }
        ensures mark_counter { IfOk result (λ book.
            book.marks.counter ≡ second_generation P.Gen.last) }
        ensures rooms { IfOk result
            (λ book. HasRooms P.Inx.greatest B.room (rooms_for places stops marks) book) }
        ensures memory { IfErr result
            (λ e. IsShortOfMemory e B.takes_memory (places + stops + marks)) }
    {
        states_are_sound();
        let arenas = make_arenas(backing, places, stops, marks)?;
        let tickets = make_book(backing.book_memory(), sum)?;
        let mirrors = make_mirrors(backing, places, stops, marks)?;
        Ok(RouteBook {
            place_room: places,
            stop_room: stops,
            mark_room: marks,
            last,
            places: arenas.places,
            stops: arenas.stops,
            marks: arenas.marks,
            tickets,
            mirrors,
            held: Held::new().changed(&Change::Open(places, stops, marks, last)),
        })
    }
}
