//! A store that moves to other pointers, stacks and rooms.
ghost use Rattle.std.specs.Prelude.{◌≡◌, ◌+◌, ◌≤◌, ℕ, Some, None, Err, IfOk, IfErr, length};
ghost use Rattle.route_lines.specs.State.{Rooms, stop_list};
ghost use Rattle.route_lines.specs.declared.refusal.RoomError.{RoomError as Refused};
ghost use Rattle.route_book.specs.Book.{Book};
ghost use Rattle.route_book.specs.Moving.{IsMovedIn, is_too_small, move_refusal_of};
ghost use Rattle.route_book.specs.Removals.{IsPacked};
ghost use Rattle.route_book.specs.Rooms.{HasRooms, IsShortOfMemory, rooms_for};

use crate::backing::BookBacking;
use crate::book::RouteBook;
use crate::parts::room_sum;
use crate::transfers::{transfer_marks, transfer_places, transfer_stops};
use route_lines::laws::changes_keep_states_sound;
use route_lines::{Change, RoomError};
use triple_arena::ArenaTrait;
use triple_arena_ptr::PtrCore;

impl<P: PtrCore, B: BookBacking<P>> RouteBook<P, B> {
    /// The store over other pointers, stacks and rooms, with its places, routes, marks and tickets.
    /// No stored reference is dead then, all counters have started, and the items stand as a pack
    /// leaves them. All memory is taken before anything moves, and with an error the store comes
    /// back as it was.
    ///
    /// `Generation` if the new pointers' generations do not count to 3; else `Index` if the new
    /// rooms together are past what an index can count; else `Stack` if they are past what a stack
    /// of the new backing holds; else `TooSmall` if more items of a kind live than its new room
    /// holds; else `Memory` if the memory was refused. A backing that takes no memory is never
    /// refused it.
    pub fn into_room<Q: PtrCore, C: BookBacking<Q>>(
        self,
        backing: &C,
        places: usize,
        stops: usize,
        marks: usize,
    ) -> Result<RouteBook<Q, C>, (RoomError, RouteBook<P, B>)>
        ensures moved { IfOk result (λ book. IsMovedIn Q.Gen.last Q.Inx.greatest C.room
            (rooms_for places stops marks) self.state book) }
        ensures back { IfErr result (λ refused. refused.1 ≡ self) }
        ensures refused { (e : Refused)
            → move_refusal_of Q.Gen.last Q.Inx.greatest C.limit (rooms_for places stops marks)
            self.state ≡ Some e
            → result ≡ Err (e, self) }
        ensures accepted { move_refusal_of Q.Gen.last Q.Inx.greatest C.limit
            (rooms_for places stops marks) self.state ≡ None
            → IfErr result
            (λ refused. IsShortOfMemory refused.0 C.takes_memory (places + stops + marks)) }
    {
        let sum = match room_sum::<Q, C>(places, stops, marks) {
            Ok(sum) => sum,
            Err(error) => return Err((error, self)),
        };
        if self.is_too_large_for(places, stops, marks) {
            return Err((RoomError::TooSmall, self));
        }
        match RouteBook::<Q, C>::open(backing, places, stops, marks, sum, 0) {
            Ok(empty) => Ok(self.move_to(empty)),
            Err(error) => Err((error, self)),
        }
    }

    // Whether more items of a kind live than these rooms hold.
    fn is_too_large_for(&self, places: usize, stops: usize, marks: usize) -> bool
        ensures { result ≡ is_too_small (rooms_for places stops marks) self.now.state }
    {
        self.places.len() > places || self.stops.len() > stops || self.marks.len() > marks
    }

    // Moves what the store holds to another one, whose rooms hold it.
    fn move_to<Q: PtrCore, C: BookBacking<Q>>(self, to: RouteBook<Q, C>) -> RouteBook<Q, C>
        requires places { length self.state.places ≤ to.state.rooms.places }
        requires stops { length (stop_list self.state.routes) ≤ to.state.rooms.stops }
        requires marks { length self.state.marks ≤ to.state.rooms.marks }
        ensures { (rooms : Rooms)
            → to.state.rooms ≡ rooms
            → HasRooms Q.Inx.greatest C.room rooms to
            → IsMovedIn Q.Gen.last Q.Inx.greatest C.room rooms self.state result }
    {
        let mut store = self;
        store.pack();
        store.move_packed(to)
    }

    // Moves what a packed store holds to another one, whose rooms hold it.
    fn move_packed<Q: PtrCore, C: BookBacking<Q>>(self, to: RouteBook<Q, C>) -> RouteBook<Q, C>
        requires packed { (old : Book) × ((looks : ℕ) × IsPacked P.Gen.last 0 looks old self) }
        requires places { length self.state.places ≤ to.state.rooms.places }
        requires stops { length (stop_list self.state.routes) ≤ to.state.rooms.stops }
        requires marks { length self.state.marks ≤ to.state.rooms.marks }
        ensures { (rooms : Rooms)
            → to.state.rooms ≡ rooms
            → HasRooms Q.Inx.greatest C.room rooms to
            → IsMovedIn Q.Gen.last Q.Inx.greatest C.room rooms self.state result }
    {
        changes_keep_states_sound();
        let mut moved = to;
        moved.last = self.last;
        moved.held = self.held.changed(&Change::Move(
            moved.place_room,
            moved.stop_room,
            moved.mark_room,
        ));
        transfer_places(self.places, &mut moved.places);
        transfer_stops(self.stops, &mut moved.stops);
        transfer_marks(self.marks, &mut moved.marks);
        moved.tickets.take_over(self.tickets);
        moved
    }
}
