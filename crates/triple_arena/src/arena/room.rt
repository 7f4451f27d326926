//! The room of an arena, and its growth.
ghost use Rattle.std.specs.Prelude.{◌≡◌, ◌^◌, ◌<◌, ◌≤◌, ◌↔◌, Some, None, IsOk, OnOk, OnErr};
ghost use Rattle.std.specs.Prelude.{IsTrue};
ghost use Rattle.triple_arena_ptr.specs.Errors.{IsBeyondMaxCapacity, IsAllocError};
ghost use Rattle.triple_arena_ptr.specs.Index.{max_index_of};
ghost use Rattle.triple_arena_stack.specs.Push.{IsRefusal};
ghost use Rattle.triple_arena_stack.specs.Room.{grown, IsBeyond};
ghost use Rattle.triple_arena.specs.Content.{live_count, arena_capacity, reallocated};
ghost use Rattle.triple_arena.specs.Content.{grown_if_full, in_room, IsWellFormed};

use crate::arena::Arena;
use crate::stack_room::{capacity_over, limit_over, reallocate_over};
use crate::{ArenaSlot, ArenaSlots};
use triple_arena_ptr::{PtrCore, ReallocationError};

impl<P: PtrCore, T: Drop, S: ArenaSlots<P, T>> Arena<P, T, S> {
    // How many entries fit with no growth.
    pub(crate) fn own_capacity(&self) -> usize
        ensures value { result ≡ arena_capacity self.now }
        ensures can_double { self.now.room.limit ≡ None → result < 2 ^ 63 }
        ensures bounded { result ≤ max_index_of P.Inx.greatest }
        ensures formed { IsWellFormed self.now }
    {
        capacity_over::<P, ArenaSlot<P, T>, S>(&self.slots)
    }

    // The greatest capacity, if there is one.
    pub(crate) fn limit(&self) -> Option<usize>
        ensures { result ≡ self.now.room.limit }
    {
        limit_over::<P, ArenaSlot<P, T>, S>(&self.slots)
    }

    // Makes room for `min` entries, by a growth to exactly that if there is less.
    pub(crate) fn reallocate(&mut self, min: usize) -> Result<(), ReallocationError>
        ensures exact { OnOk result (self.new ≡ reallocated self.old min) }
        ensures fits { OnOk result (min ≤ arena_capacity self.new) }
        ensures succeeds { min ≤ arena_capacity self.old → IsOk result }
        ensures beyond { IsBeyondMaxCapacity result ↔ IsBeyond self.old.room.limit min }
        ensures memory { IsAllocError result → IsTrue S.takes_memory }
        ensures err { OnErr result (self.new ≡ self.old) }
    {
        reallocate_over::<P, ArenaSlot<P, T>, S>(&mut self.slots, min)
    }

    // Makes room for one entry more, as a stack does: at first for 4, then for the double, and
    // never past the greatest capacity.
    #[inline]
    pub(crate) fn make_room(&mut self) -> Result<(), ReallocationError>
        ensures ok { OnOk result (live_count self.new < arena_capacity self.new) }
        ensures exact { OnOk result (self.new ≡ grown_if_full self.old) }
        ensures refusal { IsRefusal S.takes_memory (live_count self.old) self.old.room result }
        ensures err { OnErr result (self.new ≡ self.old) }
    {
        if self.has_free_slot() {
            return Ok(());
        }
        if self.live() < self.own_capacity() {
            return Ok(());
        }
        self.grow()
    }

    // Whether a slot is free, so that there is room.
    #[inline]
    fn has_free_slot(&self) -> bool
        ensures { IsTrue result → live_count self.now < arena_capacity self.now }
    {
        match self.head.get() {
            Some(_) => true,
            None => false,
        }
    }

    // The growth, which few insertions need.
    #[cold]
    #[inline(never)]
    fn grow(&mut self) -> Result<(), ReallocationError>
        requires { live_count self.old ≡ arena_capacity self.old }
        ensures ok { OnOk result (live_count self.new < arena_capacity self.new) }
        ensures grown { OnOk result (self.new ≡ in_room self.old (grown self.old.room)) }
        ensures refusal { IsRefusal S.takes_memory (live_count self.old) self.old.room result }
        ensures err { OnErr result (self.new ≡ self.old) }
    {
        let capacity = self.own_capacity();
        let wanted = capacity.saturating_mul(2).max(4);
        match self.limit() {
            None => self.reallocate(wanted),
            Some(limit) if capacity < limit => self.reallocate(wanted.min(limit)),
            Some(_) => Err(ReallocationError::BeyondMaxCapacity),
        }
    }
}
