//! The greatest capacity of an ordered arena, if it can be set.
ghost use Rattle.triple_arena.specs.Content.{last_index as last_index_of};
ghost use Rattle.triple_arena.specs.Content.{with_limit as with_limit_of};

use crate::{SimpleOrdArena, SimpleOrdArenaNode};
use triple_arena::{
    ArenaSlot, MaxCapacityReductionError, NonZeroInxLimitedStack, PtrCore, SetMaxCapacity,
};
use triple_arena_chain::LinkNoGen;

impl<
    P: PtrCore,
    T: Drop,
    S: NonZeroInxLimitedStack<Item = ArenaSlot<P, LinkNoGen<P, SimpleOrdArenaNode<P, T>>>> + Drop,
> SetMaxCapacity for SimpleOrdArena<P, T, S> {
    ghost least_limit = { λ o. last_index_of o.chains };

    ghost with_limit = { λ o max. record o { chains = with_limit_of P.Inx.greatest o.chains max } };

    /// Sets the greatest capacity to `max`, as far as the pointers' indexes reach, or changes
    /// nothing if the last live index is past `max`. If there are slots past `max`, the free slots
    /// at the end are popped first. The list and the tree stay.
    fn set_max_capacity(&mut self, max: usize) -> Result<(), MaxCapacityReductionError> {
        self.chains.set_max_capacity(max)
    }
}
