//! The room for entries, and how it grows.
ghost use Rattle.std.specs.Prelude.{◌≡◌, ◌<◌, IfOk, OnOk, OnErr};
ghost use Rattle.triple_arena_stack.specs.Push.{IsRefusal};
ghost use Rattle.triple_arena_stack.specs.Room.{room_after};
ghost use Rattle.triple_arena.specs.Content.{arena_capacity, next_index};
ghost use Rattle.triple_arena_ord.specs.Growth.{IsInRoom};
ghost use Rattle.triple_arena_ord.specs.Ordered.{IsOrdered, size_in};

use crate::{OrdSlots, SimpleOrdArena};
use triple_arena::{PtrCore, ReallocationError};

impl<P: PtrCore, T: Drop, S: OrdSlots<P, T>> SimpleOrdArena<P, T, S> {
    // Makes room for one entry more, if there is none, and returns the pointer that the next
    // insertion gives.
    pub(crate) fn make_room(&mut self) -> Result<P, ReallocationError>
        ensures has_index { IfOk result (λ p. P.index p ≡ next_index self.new.chains) }
        ensures has_generation { IfOk result (λ p. P.generation p ≡ self.new.chains.counter) }
        ensures refusal { IsRefusal S.takes_memory (size_in self.old) self.old.chains.room result }
        ensures grown { OnOk result
            (IsInRoom (room_after (size_in self.old) self.old.chains.room) self.old self.new) }
        ensures fits { OnOk result (size_in self.new < arena_capacity self.new.chains) }
        ensures ordered { IsOrdered self.new }
        ensures err { OnErr result (self.new ≡ self.old) }
    {
        self.chains.make_room()
    }
}
