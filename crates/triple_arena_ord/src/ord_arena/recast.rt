//! Renaming what the items of an ordered arena hold.
ghost use Rattle.triple_arena_ord.specs.ItemRecasting.{node_items, node_recasted, items_of};
ghost use Rattle.triple_arena_ord.specs.ItemRecasting.{recasted_in, items-recasted_in};

use crate::{IndexNode, OrdSlots, SimpleOrdArena};
use triple_arena::{PtrCore, PtrInxCore, Recast, Recaster};
use triple_arena_ptr::OptionalInx;

/// A recast renames what the item of the node holds. The place in the tree stays.
impl<N, I: PtrInxCore<Word = W>, W: Copy, T: Recast<N>> Recast<N>
    for IndexNode<OptionalInx<I, W>, T> {
    ghost items = { node_items T.items };

    ghost recasted = { λ f node. node_recasted (T.recasted f) node };

    ghost items_recasted = { λ f node. T.items_recasted f node.t };

    fn recast<R: Recaster<Item = N>>(&mut self, recaster: &R) -> Result<(), N> {
        self.t.recast(recaster)
    }
}

/// A recast renames what the items of the arena hold, in the order of the indexes. The list and the
/// tree stay.
impl<N, P: PtrCore, T: Recast<N> + Drop, S: OrdSlots<P, T>> Recast<N> for SimpleOrdArena<P, T, S> {
    ghost items = { items_of T.items };

    ghost recasted = { λ f o. recasted_in T.items f (T.recasted f) o };

    ghost items_recasted = { λ f o. items-recasted_in T.items f (T.recasted f)
        (T.items_recasted f) o };

    fn recast<R: Recaster<Item = N>>(&mut self, recaster: &R) -> Result<(), N> {
        self.chains.recast(recaster)
    }
}
