//! The greatest capacity of a chain arena, if it can be set.
ghost use Rattle.triple_arena.specs.Content.{last_index as last_index_of};
ghost use Rattle.triple_arena.specs.Content.{with_limit as with_limit_of};

use crate::chain_arena::interlinks::recall_formed;
use crate::{ChainArena, LinkNoGen};
use triple_arena::{
    ArenaSlot, ArenaTrait, MaxCapacityReductionError, NonZeroInxLimitedStack, PtrCore,
    SetMaxCapacity,
};

impl<
    P: PtrCore,
    T: Drop,
    S: NonZeroInxLimitedStack<Item = ArenaSlot<P, LinkNoGen<P, T>>> + Drop,
> SetMaxCapacity for ChainArena<P, T, S> {
    ghost least_limit = { last_index_of };

    ghost with_limit = { with_limit_of P.Inx.greatest };

    /// Sets the greatest capacity to `max`, as far as the pointers' indexes reach, or changes
    /// nothing if the last live index is past `max`. If there are slots past `max`, the free slots
    /// at the end are popped first.
    fn set_max_capacity(&mut self, max: usize) -> Result<(), MaxCapacityReductionError> {
        let answer = self.arena.set_max_capacity(max);
        // The arena is well-formed after.
        recall_formed(&self.arena);
        answer
    }
}
