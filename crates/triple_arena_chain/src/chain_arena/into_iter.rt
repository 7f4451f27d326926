//! Going over the links of a chain arena that is given away, in the order of the indexes.
ghost use Rattle.std.specs.Prelude.{◌≡◌};
ghost use Rattle.triple_arena_chain.specs.Listed.{listed_values};

use crate::chain_iterators::CapacityDrain;
use crate::{ChainArena, ChainSlots};
use triple_arena::PtrCore;

impl<P: PtrCore, T: Drop, S: ChainSlots<P, T>> IntoIterator for ChainArena<P, T, S> {
    type Item = (P, T);

    type IntoIter = CapacityDrain<P, T, S>;

    ghost into_iter_gives = { λ chains it. it ≡ listed_values chains };

    fn into_iter(self) -> CapacityDrain<P, T, S> {
        CapacityDrain::of(self)
    }
}
