//! Links in chains.
ghost use Rattle.std.specs.Prelude.{◌<◌, ◌↔◌, IsTrue};
ghost use Rattle.triple_arena.specs.Content.{live_count, arena_capacity};
ghost use Rattle.triple_arena_chain.specs.Links.{IsChained};

mod advancer;
mod arena_calls;
mod backing;
mod canonical_layout;
mod canonical_transfer;
mod chain_calls;
mod compression;
mod copy;
pub(crate) mod copy_source;
mod default;
pub(crate) mod drain;
mod from_arena;
mod generation;
mod indexing;
pub(crate) mod insertion;
mod interlinks;
mod into_iter;
pub(crate) mod iter_chain;
mod iterators;
mod link_copies;
mod mapping;
mod max_capacity;
mod moves;
mod neighbors;
mod recast;
mod removal;
mod text;
pub(crate) mod walk;

use crate::{ChainSlots, LinkNoGen};
use std::marker::Model;
use triple_arena::{
    Arena, ArenaSlot, ArenaTrait, NonZeroInxArray, NonZeroInxBoxedSlice, NonZeroInxLimitedVec,
    NonZeroInxVec, PtrCore,
};

/// Links in chains, which are lists and rings: each link is in one chain, once.
#[derive(Drop)]
pub struct ChainArena<P: PtrCore, T: Drop, S: ChainSlots<P, T>> {
    arena: Arena<P, LinkNoGen<P, T>, S>,
}

/// A chain arena in a vector, which grows without a limit of its own.
pub type HeapChainArena<P, T, A> = ChainArena<
    P,
    T,
    NonZeroInxVec<ArenaSlot<P, LinkNoGen<P, T>>, A>,
>;

/// A chain arena in a vector, which grows up to a limit that can be set.
pub type LimitedChainArena<P, T, A> = ChainArena<
    P,
    T,
    NonZeroInxLimitedVec<ArenaSlot<P, LinkNoGen<P, T>>, A>,
>;

/// A chain arena in a boxed slice, which keeps the capacity that it is made with.
pub type BoxedChainArena<P, T, A> = ChainArena<
    P,
    T,
    NonZeroInxBoxedSlice<ArenaSlot<P, LinkNoGen<P, T>>, A>,
>;

/// A chain arena in an array, which takes no memory.
pub type ArrayChainArena<P, T, const LIMIT: usize> = ChainArena<
    P,
    T,
    NonZeroInxArray<ArenaSlot<P, LinkNoGen<P, T>>, LIMIT>,
>;

impl<P: PtrCore, T: Drop, S: ChainSlots<P, T>> Model for ChainArena<P, T, S> {
    ghost use Rattle.triple_arena.specs.Content.{Content};
    ghost use Rattle.triple_arena_chain.specs.LinkShape.{IndexLink};
    ghost use Rattle.triple_arena_chain.specs.Links.{IsChained};

    ghost Value = { Content (IndexLink T) };

    ghost view = { λ a. a.arena };

    ghost invariant = { λ a. IsChained a.arena };
}

impl<P: PtrCore, T: Drop, S: ChainSlots<P, T>> ChainArena<P, T, S> {
    // Whether there is room for one link more. The interlinks agree.
    pub(crate) fn has_room(&self) -> bool
        ensures value { IsTrue result ↔ (live_count self.now < arena_capacity self.now) }
        ensures chained { IsChained self.now }
    {
        self.arena.len() < self.arena.capacity()
    }

    // Tells the proof that the interlinks agree, as always. It does nothing.
    #[inline(always)]
    pub(crate) fn recall_chained(&self)
        ensures { IsChained self.now }
    {
        let _has_room = self.has_room();
    }
}
