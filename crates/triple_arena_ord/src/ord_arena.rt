//! The ordered arena.
ghost use Rattle.std.specs.Prelude.{◌≡◌, ◌<◌, Some, None, IsSome};
ghost use Rattle.std.specs.Option.{option_map};
ghost use Rattle.triple_arena.specs.Content.{live_count, arena_capacity};
ghost use Rattle.triple_arena_ord.specs.Ordered.{IsOrdered, StandsBeside, order_in};
ghost use Rattle.triple_arena_ord.specs.Inserted.{AddsAt, IsAdded};
ghost use Rattle.rank_tree.specs.Store.{child_of};
ghost use Rattle.triple_arena_ord.specs.Node.{nodes_in};

mod advancer;
mod arena_calls;
mod canonical;
mod canonical_layout;
mod canonical_transfer;
mod check;
mod compression;
mod copy;
mod default;
pub(crate) mod drain;
mod ends;
mod generation;
mod indexing;
pub(crate) mod insertion;
pub(crate) mod into_iter;
pub(crate) mod iter_ordered;
mod iterators;
mod link_copies;
mod link_moves;
mod mapping;
mod max_capacity;
mod nodes;
mod pops;
mod recast;
mod removal;
mod search;
mod text;
pub(crate) mod walk;

use crate::leaf::{insert_leaf, move_end};
use crate::{IndexNode, OrdSlots, SimpleOrdArenaNode};
use proof_marks::unreached;
use rank_tree::Side;
use std::marker::Model;
use triple_arena::{
    ArenaSlot, ArenaTrait, NonZeroInxArray, NonZeroInxBoxedSlice, NonZeroInxLimitedVec,
    NonZeroInxVec, PtrCore,
};
use triple_arena_chain::{ChainArena, LinkNoGen};

/// Items in one list, each with a pointer, and a search tree over them. An insertion that searches
/// puts an item where its key belongs.
#[derive(Drop)]
pub struct SimpleOrdArena<P: PtrCore, T: Drop, S: OrdSlots<P, T>> {
    pub(crate) chains: ChainArena<P, SimpleOrdArenaNode<P, T>, S>,
    pub(crate) root: Option<P::Inx>,
    pub(crate) first: Option<P::Inx>,
    pub(crate) last: Option<P::Inx>,
}

/// An ordered arena in a vector, which grows without a limit of its own.
pub type HeapOrdArena<P, T, A> = SimpleOrdArena<
    P,
    T,
    NonZeroInxVec<ArenaSlot<P, LinkNoGen<P, SimpleOrdArenaNode<P, T>>>, A>,
>;

/// An ordered arena in a vector, which grows up to a limit that can be set.
pub type LimitedOrdArena<P, T, A> = SimpleOrdArena<
    P,
    T,
    NonZeroInxLimitedVec<ArenaSlot<P, LinkNoGen<P, SimpleOrdArenaNode<P, T>>>, A>,
>;

/// An ordered arena in a boxed slice, which keeps the capacity that it is made with.
pub type BoxedOrdArena<P, T, A> = SimpleOrdArena<
    P,
    T,
    NonZeroInxBoxedSlice<ArenaSlot<P, LinkNoGen<P, SimpleOrdArenaNode<P, T>>>, A>,
>;

/// An ordered arena in an array, which takes no memory.
pub type ArrayOrdArena<P, T, const LIMIT: usize> = SimpleOrdArena<
    P,
    T,
    NonZeroInxArray<ArenaSlot<P, LinkNoGen<P, SimpleOrdArenaNode<P, T>>>, LIMIT>,
>;

impl<P: PtrCore, T: Drop, S: OrdSlots<P, T>> Model for SimpleOrdArena<P, T, S> {
    ghost use Rattle.std.specs.Prelude.{◌≡◌, None};
    ghost use Rattle.std.specs.Option.{option_map};
    ghost use Rattle.linked_lists.specs.LinkedLists.{first_or, last_or};
    ghost use Rattle.triple_arena_ord.specs.Ordered.{Ordered, IsOrdered, order_in, ordered_by};

    ghost Value = { Ordered T };

    ghost view = { λ a. ordered_by P.Inx.number a.chains a.root };

    ghost invariant = { λ a. IsOrdered (ordered_by P.Inx.number a.chains a.root)
        × (option_map P.Inx.number a.first
        ≡ first_or (order_in (ordered_by P.Inx.number a.chains a.root)) None)
        × (option_map P.Inx.number a.last
        ≡ last_or None (order_in (ordered_by P.Inx.number a.chains a.root))) };
}

impl<P: PtrCore, T: Drop, S: OrdSlots<P, T>> SimpleOrdArena<P, T, S> {
    // A new entry directly before or after that of `holder`, which has no child on this side. There
    // is room for it. The call is inlined, since the side is known at each.
    #[inline(always)]
    pub(crate) fn put_beside(&mut self, holder: P::Inx, side: Side, t: T) -> P
        requires lives { IsSome (nodes_in self.old.chains (P.Inx.number holder)) }
        requires free { option_map (λ v. child_of side v)
            (nodes_in self.old.chains (P.Inx.number holder)) ≡ Some None }
        requires room { live_count self.old.chains < arena_capacity self.old.chains }
        ensures order { StandsBeside side (order_in self.old)
            (order_in self.new) (P.Inx.number holder) (P.index result) }
        ensures added { IsAdded (P.index result) (P.generation result) t self.old self.new }
        ensures counter { self.new.chains.counter ≡ self.old.chains.counter }
        ensures room { self.new.chains.room ≡ self.old.chains.room }
        ensures ordered { IsOrdered self.new }
    {
        let p = insert_leaf(&mut self.chains, &mut self.root, holder, side, t);
        let inx = p.inx();
        move_end(&mut self.first, side, Side::Left, holder, inx);
        move_end(&mut self.last, side, Side::Right, holder, inx);
        p
    }

    // The first entry, for which there is room.
    pub(crate) fn put_first(&mut self, t: T) -> P
        requires first { self.old.root ≡ None }
        requires room { live_count self.old.chains < arena_capacity self.old.chains }
        ensures { AddsAt None (P.index result) (P.generation result) t self.old self.new }
    {
        let node: SimpleOrdArenaNode<P, T> = IndexNode::under(None, t);
        match self.chains.insert_in_gap_within_capacity(None, None, node) {
            Ok(p) => {
                let inx = p.inx();
                self.root = Some(inx);
                self.first = Some(inx);
                self.last = Some(inx);
                p
            }
            Err(_) => unreached!(),
        }
    }
}
