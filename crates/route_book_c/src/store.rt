//! The store behind a holder, over pointers of 64 bits on the heap.
ghost use Rattle.std.specs.Prelude.{◌≡◌, ◌⊎◌, ◌+◌, ◌-◌, ◌<◌, ◌≤◌, ◌↔◌, ℕ, Some, [], length};
ghost use Rattle.std.specs.Prelude.{IfOk, OnErr, IsErr, IsErrOf, IsTrue, false, take, drop, map};
ghost use Rattle.std.specs.Int.NonZero.{non_zero_u32_get};
ghost use Rattle.route_lines.specs.State.{stop_list};
ghost use Rattle.route_lines.specs.Text.{after, lines, rest_of, text, whole, whole_lines};
ghost use Rattle.route_lines.specs.Unfinished.{HasNoLineEnd};
ghost use Rattle.route_book.specs.Book.{KeepsRooms};
ghost use Rattle.route_book.specs.Removals.{IsPacked};
ghost use Rattle.route_book.specs.Rooms.{HasRooms};
ghost use Rattle.route_book_c.specs.Lines.{Answers, Lacks, opened};
ghost use Rattle.route_book_c.specs.Numbers.{greatest, growing};

use crate::answering::{Progress, answer_anew, answer_lines, mark_count, place_count, stop_count};
use route_book::{OnHeap, RoomError, RouteBook};
use std::alloc::Global;
use triple_arena_ptr::P3;

/// A store over `P3` on the heap. (Over `P0` the checker takes no store by its name.)
#[derive(Drop)]
pub struct Store {
    book: RouteBook<P3, OnHeap<Global>>,
}

impl Store {
    // A store with nothing in it.
    pub(crate) fn new(
        alloc: Global,
        places: usize,
        stops: usize,
        marks: usize,
    ) -> Result<Box<Store>, RoomError>
        ensures made { IfOk result (λ b. b.value.book.state ≡ opened places stops marks) }
        ensures rooms { IfOk result (λ b. HasRooms greatest growing
            (record { places = places; stops = stops; marks = marks }) b.value.book) }
        ensures index { IsErrOf result RoomError.Index ↔ greatest < places + stops + marks }
        ensures refusals { OnErr result
            (IsErrOf result RoomError.Index ⊎ IsErrOf result RoomError.Memory) }
    {
        let book = RouteBook::<P3, OnHeap<Global>>::new(&OnHeap(alloc), places, stops, marks)?;
        match Box::new(alloc, Store { book }) {
            Ok(own) => Ok(own),
            Err(_) => Err(RoomError::Memory),
        }
    }

    // Answers the whole lines of the input, as far as the room is enough.
    pub(crate) fn run(&mut self, input: &[u8], room: &mut [u8]) -> Progress
        ensures answers { Answers self.old.book.state input.now result.taken self.new.book.state
            (take result.written room.new) }
        ensures rooms { KeepsRooms self.old.book self.new.book }
        ensures within { result.written ≤ length room.old }
        ensures length { length room.new ≡ length room.old }
        ensures all { result.is_short ≡ false → HasNoLineEnd (drop result.taken input.now) }
        ensures rest { result.is_short ≡ false
            → drop result.written room.new ≡ drop result.written room.old }
        ensures short { IsTrue result.is_short
            → Lacks self.new.book.state (map whole (whole_lines (drop result.taken input.now)))
            (length room.old - result.written) }
    {
        answer_lines(&mut self.book, input, room)
    }

    // Moves all items to the first indexes.
    pub(crate) fn pack(&mut self)
        ensures state { self.new.book.state ≡ self.old.book.state }
        ensures packed { (looks : ℕ) × IsPacked (Some greatest) 0 looks
            self.old.book self.new.book }
    {
        self.book.pack();
    }

    // How many places live.
    pub(crate) fn place_count(&self) -> usize
        ensures { result ≡ length self.now.book.state.places }
    {
        place_count(&self.book)
    }

    // How many stops live.
    pub(crate) fn stop_count(&self) -> usize
        ensures { result ≡ length (stop_list self.now.book.state.routes) }
    {
        stop_count(&self.book)
    }

    // How many marks live.
    pub(crate) fn mark_count(&self) -> usize
        ensures { result ≡ length self.now.book.state.marks }
    {
        mark_count(&self.book)
    }
}

// A new store answers the whole input, and is gone.
pub(crate) fn answer(
    alloc: Global,
    places: usize,
    stops: usize,
    marks: usize,
    input: &[u8],
    room: &mut [u8],
) -> Result<Progress, RoomError>
    ensures index { IsErrOf result RoomError.Index ↔ greatest < places + stops + marks }
    ensures refusals { OnErr result
        (IsErrOf result RoomError.Index ⊎ IsErrOf result RoomError.Memory) }
    ensures replies { IfOk result (λ p. take p.written room.new
        ≡ text (opened places stops marks) (take p.taken input.now)) }
    ensures within { IfOk result
        (λ p. (p.taken ≤ length input.now) × (p.written ≤ length room.old)) }
    ensures length { length room.new ≡ length room.old }
    ensures all { IfOk result (λ p. p.is_short ≡ false → p.taken ≡ length input.now) }
    ensures rest { IfOk result (λ p. p.is_short ≡ false
        → drop p.written room.new ≡ drop p.written room.old) }
    ensures ends { IfOk result (λ p. IsTrue p.is_short → rest_of (take p.taken input.now) ≡ []) }
    ensures short { IfOk result (λ p. IsTrue p.is_short
        → Lacks (after (opened places stops marks) (take p.taken input.now))
        (lines (drop p.taken input.now)) (length room.old - p.written)) }
    ensures unwritten { IsErr result → room.new ≡ room.old }
{
    answer_anew::<P3>(alloc, places, stops, marks, input, room)
}
