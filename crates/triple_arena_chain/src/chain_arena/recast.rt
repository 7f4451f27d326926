//! Renaming what the values of links hold.
ghost use Rattle.triple_arena.specs.Recasting.{content_items, content_recasted};
ghost use Rattle.triple_arena.specs.RecastingLaws.{items-recasted};
ghost use Rattle.triple_arena_chain.specs.LinkRecasting.{link_items, link_recasted};

use crate::chain_arena::interlinks::recall_formed;
use crate::{ChainArena, ChainSlots, IndexLink};
use triple_arena::{ArenaTrait, PtrCore, PtrInxCore, Recast, Recaster};
use triple_arena_ptr::OptionalInx;

/// A recast renames the items that the value holds.
impl<N, I: PtrInxCore<Word = W>, W: Copy, T: Recast<N>> Recast<N>
    for IndexLink<OptionalInx<I, W>, T> {
    ghost items = { link_items T.items };

    ghost recasted = { λ f link. link_recasted (T.recasted f) link };

    ghost items_recasted = { λ f link. T.items_recasted f link.t };

    fn recast<R: Recaster<Item = N>>(&mut self, recaster: &R) -> Result<(), N> {
        self.t.recast(recaster)
    }
}

/// A recast renames the items that the values hold, in the order of the indexes. The interlinks
/// stay.
impl<N, P: PtrCore, T: Recast<N> + Drop, S: ChainSlots<P, T>> Recast<N> for ChainArena<P, T, S> {
    ghost items = { content_items (link_items T.items) };

    ghost recasted = { λ f c. content_recasted (link_items T.items) f
        (link_recasted (T.recasted f)) c };

    ghost items_recasted = { λ f c. items-recasted (link_items T.items) f
        (link_recasted (T.recasted f))
        (λ link. T.items_recasted f link.t) c };

    fn recast<R: Recaster<Item = N>>(&mut self, recaster: &R) -> Result<(), N> {
        let answer = self.arena.recast(recaster);
        // The arena is well-formed after.
        recall_formed(&self.arena);
        answer
    }
}
