//! The greatest capacity, if it can be set, and the free slots at the end.
ghost use Rattle.std.specs.Prelude.{◌≡◌, ◌≤◌, length, min};
ghost use Rattle.triple_arena_ptr.specs.Index.{max_index_of};
ghost use Rattle.triple_arena_stack.specs.Room.{limited};
ghost use Rattle.triple_arena.specs.DirectContent.{last_index as last_index_of, without_free_end};
ghost use Rattle.triple_arena.specs.DirectContent.{in_room, with_limit as with_limit_of};
ghost use Rattle.triple_arena.specs.DirectContent.{IsWellFormed};

use crate::advancer::LivePointers;
use crate::arena::keep_first;
use crate::direct::DirectArena;
use crate::{DirectSlot, DirectSlots};
use proof_marks::recall;
use triple_arena_ptr::{MaxCapacityReductionError, PtrCore};
use triple_arena_stack::{NonZeroInxLimitedStack, SetMaxCapacity};

impl<P: PtrCore, T: Drop, S: DirectSlots<P, T>> DirectArena<P, T, S> {
    /// Pops the free slots at the end, until the last slot is live or none is left.
    pub fn pop_free_end_slots(&mut self)
        ensures value { self.new ≡ without_free_end self.old }
        ensures formed { IsWellFormed self.new }
    {
        let last = self.last_index();
        keep_first(&mut self.slots, last);
        // The arena is well-formed after.
        self.recall_formed();
    }
}

impl<P: PtrCore, T: Drop, S: NonZeroInxLimitedStack<Item = DirectSlot<P, T>> + Drop> SetMaxCapacity
    for DirectArena<P, T, S> {
    ghost least_limit = { last_index_of };

    ghost with_limit = { with_limit_of P.Inx.greatest };

    /// Sets the greatest capacity to `max`, as far as the pointers' indexes reach, or changes
    /// nothing if the last live index is past `max`. If there are slots past `max`, the free slots
    /// at the end are popped first.
    fn set_max_capacity(&mut self, max: usize) -> Result<(), MaxCapacityReductionError> {
        if max < self.slot_count() {
            if max < self.last_index() {
                return Err(MaxCapacityReductionError);
            }
            self.pop_free_end_slots();
        }
        self.limit_to(max);
        Ok(())
    }
}

impl<P: PtrCore, T: Drop, S: NonZeroInxLimitedStack<Item = DirectSlot<P, T>> + Drop> DirectArena<
    P,
    T,
    S,
> {
    // Sets the limit, which no slot is past.
    fn limit_to(&mut self, max: usize)
        requires { length self.old.slots ≤ max }
        ensures { self.new ≡ in_room self.old
            (limited self.old.room (min max (max_index_of P.Inx.greatest))) }
    {
        // The slots are within the capacity, and so are their indexes.
        recall!(self.own_capacity());
        match self.slots.set_max_capacity(max) {
            Ok(()) => {}
            Err(_) => unreachable!(),
        }
    }
}
