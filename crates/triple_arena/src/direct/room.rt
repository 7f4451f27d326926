//! The room of a direct arena, and its growth.
ghost use Rattle.std.specs.Prelude.{◌≡◌, ◌≤◌, ◌↔◌, IsOk, OnOk, OnErr, IsTrue};
ghost use Rattle.triple_arena_ptr.specs.Errors.{IsBeyondMaxCapacity, IsAllocError};
ghost use Rattle.triple_arena_ptr.specs.Index.{max_index_of};
ghost use Rattle.triple_arena_stack.specs.Room.{IsBeyond};
ghost use Rattle.triple_arena.specs.DirectContent.{arena_capacity, reallocated, IsWellFormed};

use crate::direct::DirectArena;
use crate::stack_room::{capacity_over, limit_over, reallocate_over};
use crate::{DirectSlot, DirectSlots};
use triple_arena_ptr::{PtrCore, ReallocationError};

impl<P: PtrCore, T: Drop, S: DirectSlots<P, T>> DirectArena<P, T, S> {
    // The greatest index that fits with no growth.
    pub(crate) fn own_capacity(&self) -> usize
        ensures value { result ≡ arena_capacity self.now }
        ensures bounded { result ≤ max_index_of P.Inx.greatest }
        ensures formed { IsWellFormed self.now }
    {
        capacity_over::<P, DirectSlot<P, T>, S>(&self.slots)
    }

    // The greatest capacity, if there is one.
    pub(crate) fn limit(&self) -> Option<usize>
        ensures { result ≡ self.now.room.limit }
    {
        limit_over::<P, DirectSlot<P, T>, S>(&self.slots)
    }

    // Makes room for `min` entries, by a growth to exactly that if there is less.
    pub(crate) fn reallocate(&mut self, min: usize) -> Result<(), ReallocationError>
        ensures exact { OnOk result (self.new ≡ reallocated self.old min) }
        ensures fits { OnOk result (min ≤ arena_capacity self.new) }
        ensures succeeds { min ≤ arena_capacity self.old → IsOk result }
        ensures kept { min ≤ arena_capacity self.old → self.new ≡ self.old }
        ensures beyond { IsBeyondMaxCapacity result ↔ IsBeyond self.old.room.limit min }
        ensures memory { IsAllocError result → IsTrue S.takes_memory }
        ensures err { OnErr result (self.new ≡ self.old) }
    {
        reallocate_over::<P, DirectSlot<P, T>, S>(&mut self.slots, min)
    }
}
