//! Moves to other pointers, stacks and rooms: a store that is refused comes back whole.
ghost use Rattle.std.specs.Prelude.{◌≡◌, IfOk, IfErr};
ghost use Rattle.route_book.specs.Moving.{IsMovedIn};

use route_book::{BookBacking, PtrCore, RoomError, RouteBook};

/// Moves a store. All that it holds is there then, and a refusal gives it back as it was.
pub fn into_room<P: PtrCore, B: BookBacking<P>, Q: PtrCore, C: BookBacking<Q>>(
    book: RouteBook<P, B>,
    backing: &C,
    places: usize,
    stops: usize,
    marks: usize,
) -> Result<RouteBook<Q, C>, (RoomError, RouteBook<P, B>)>
    ensures moved { IfOk result (λ moved. IsMovedIn Q.Gen.last Q.Inx.greatest C.room
        (record { places = places; stops = stops; marks = marks }) book.state moved) }
    ensures back { IfErr result (λ refused. refused.1 ≡ book) }
{
    book.into_room(backing, places, stops, marks)
}
