//! Callers who move a store to other pointers, stacks and rooms.
ghost use Rattle.std.specs.Prelude.{◌≡◌, ◌≤◌, Err, IfOk, IfErr, IfSome, IsOk, length};
ghost use Rattle.triple_arena_ptr.specs.Generation.{second_generation};
ghost use Rattle.route_lines.specs.Calls.{after_start, started};
ghost use Rattle.route_lines.specs.State.{in_rooms, stop_list};
ghost use Rattle.route_lines.specs.declared.refusal.Refusal.TheVariants.{Full};
ghost use Rattle.route_book.specs.Rooms.{HasRooms};
ghost use Rattle.promise_route_book_users.specs.Moving.{grown};

use route_book::{BookBacking, OnArray, OnHeap, PtrCore, Refusal, RoomError, RouteBook, Word};
use std::alloc::Allocator;
use triple_arena_ptr::P1;

/// Over every two pointer types and backings: what a caller knows of a new store, and that nothing
/// is lost.
pub fn move_store<P: PtrCore, Q: PtrCore, B: BookBacking<P>, C: BookBacking<Q>>(
    book: RouteBook<P, B>,
    backing: &C,
    places: usize,
    stops: usize,
    marks: usize,
) -> Result<RouteBook<Q, C>, (RoomError, RouteBook<P, B>)>
    ensures items { IfOk result (λ moved. (moved.state.places ≡ book.state.places)
        × (moved.state.routes ≡ book.state.routes)
        × (moved.state.marks ≡ book.state.marks)
        × (moved.state.last ≡ book.state.last)) }
    ensures counters { IfOk result (λ moved.
        (moved.places.chains.counter ≡ second_generation Q.Gen.last)
        × (moved.stops.counter ≡ second_generation Q.Gen.last)) }
    ensures rooms { IfOk result (λ moved. HasRooms Q.Inx.greatest C.room
        (record { places = places; stops = stops; marks = marks }) moved) }
    ensures err { IfErr result (λ refused. refused.1 ≡ book) }
{
    book.into_room(backing, places, stops, marks)
}

/// Into arrays of four, over narrow pointers. A store that fits goes there, since no memory is
/// asked for.
pub fn move_to_arrays<P: PtrCore, B: BookBacking<P>>(
    book: RouteBook<P, B>,
) -> Result<RouteBook<P1, OnArray<4>>, (RoomError, RouteBook<P, B>)>
    ensures ok { IfOk result (λ moved. moved.state
        ≡ in_rooms (record { places = 1; stops = 3; marks = 0 }) book.state) }
    ensures err { IfErr result (λ refused. refused.1 ≡ book) }
    ensures fits { length book.state.places ≤ 1
        → length (stop_list book.state.routes) ≤ 3
        → length book.state.marks ≤ 0
        → IsOk result }
{
    book.into_room(&OnArray::<4>, 1, 3, 0)
}

/// From the heap.
pub fn move_from_heap<P: PtrCore, A: Allocator + Copy, Q: PtrCore, C: BookBacking<Q>>(
    book: RouteBook<P, OnHeap<A>>,
    backing: &C,
) -> Result<RouteBook<Q, C>, (RoomError, RouteBook<P, OnHeap<A>>)>
    ensures ok { IfOk result (λ moved. moved.state
        ≡ in_rooms (record { places = 1; stops = 3; marks = 0 }) book.state) }
    ensures err { IfErr result (λ refused. refused.1 ≡ book) }
{
    // The cases apart, since the clauses are found of each alone.
    match book.into_room(backing, 1, 3, 0) {
        Ok(moved) => Ok(moved),
        Err(refused) => Err(refused),
    }
}

/// Starts a route at a place. If the store is full it moves to other rooms, and the route starts
/// there; a store that is not moved is left as the start leaves it. Nothing is lost.
pub fn start_or_move<P: PtrCore, B: BookBacking<P>, Q: PtrCore, C: BookBacking<Q>>(
    book: RouteBook<P, B>,
    backing: &C,
    room: usize,
    place: u64,
) -> Result<RouteBook<Q, C>, RouteBook<P, B>>
    ensures full { IfOk result (λ _. started book.state place ≡ Err Full) }
    ensures moved { IfOk result (λ moved. moved.state ≡ after_start
        (in_rooms (record { places = room; stops = room; marks = room }) book.state) place) }
    ensures stays { IfErr result (λ same. same.state ≡ after_start book.state place) }
{
    let mut book = book;
    match book.start(place) {
        Err(Refusal::Full) => match book.into_room::<Q, C>(backing, room, room, room) {
            Ok(mut moved) => {
                let _ = moved.start(place);
                Ok(moved)
            }
            Err(refused) => Err(refused.1),
        },
        _ => Err(book),
    }
}

/// A store of one place and one stop that moves as its second stop comes. `None` if it is not made,
/// or does not move.
pub fn grow<P: PtrCore, B: BookBacking<P>, Q: PtrCore, C: BookBacking<Q>>(
    from: &B,
    to: &C,
    word: Word,
) -> Option<RouteBook<Q, C>>
    ensures { IfSome result (λ moved. moved.state ≡ grown word) }
{
    let Ok(mut book) = RouteBook::<P, B>::new(from, 1, 1, 0) else {
        return None;
    };
    let _ = book.place(50, word);
    let _ = book.start(1);
    match start_or_move::<P, B, Q, C>(book, to, 100, 1) {
        Ok(moved) => Some(moved),
        Err(_) => None,
    }
}

/// A store of one place and one stop in small arrays, over narrow pointers, that moves onto the
/// heap as its second stop comes. `None` if it is not made, or does not move.
pub fn grow_to_heap<P: PtrCore, A: Allocator + Copy>(
    alloc: A,
    word: Word,
) -> Option<RouteBook<P, OnHeap<A>>>
    ensures { IfSome result (λ moved. moved.state ≡ grown word) }
{
    grow::<P1, _, P, _>(&OnArray::<4>, &OnHeap(alloc), word)
}
