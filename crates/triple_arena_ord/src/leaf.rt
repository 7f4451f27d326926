//! A new entry beside another.
ghost use Rattle.std.specs.Prelude.{◌≡◌, ◌<◌, Some, IsSome};
ghost use Rattle.std.specs.Option.{option_map};
ghost use Rattle.triple_arena.specs.Content.{live_count, arena_capacity};
ghost use Rattle.rank_tree.specs.Store.{child_of};
ghost use Rattle.linked_lists.specs.LinkedLists.{IsBetween};
ghost use Rattle.triple_arena_chain.specs.Kinds.{ends_by};
ghost use Rattle.triple_arena_chain.specs.Links.{ends_in};
ghost use Rattle.triple_arena_ord.specs.Node.{nodes_in, prev_beside, next_beside};
ghost use Rattle.triple_arena_ord.specs.Inserted.{IsAdded};
ghost use Rattle.triple_arena_ord.specs.Ordered.{IsOrdered, StandsBeside, order_in, end_after};
ghost use Rattle.triple_arena_ord.specs.Ordered.{new_end, ordered_by};

use crate::{IndexNode, OrdSlots, SimpleOrdArenaNode};
use proof_marks::{recall, unreached};
use rank_tree::{Side, bring_in};
use triple_arena::{ArenaTrait, PtrCore, PtrInxCore};
use triple_arena_chain::{ChainArena, ChainArenaTrait};

// A new entry directly before or after that of `holder`, which has no child on this side.
#[inline(always)]
pub(crate) fn insert_leaf<P: PtrCore, T: Drop, S: OrdSlots<P, T>>(
    chains: &mut ChainArena<P, SimpleOrdArenaNode<P, T>, S>,
    root: &mut Option<P::Inx>,
    holder: P::Inx,
    side: Side,
    t: T,
) -> P
    requires ordered { IsOrdered (ordered_by P.Inx.number chains.old root.old) }
    requires room { live_count chains.old < arena_capacity chains.old }
    requires lives { IsSome (nodes_in chains.old (P.Inx.number holder)) }
    requires free { option_map (λ v. child_of side v)
        (nodes_in chains.old (P.Inx.number holder)) ≡ Some None }
    ensures ordered { IsOrdered (ordered_by P.Inx.number chains.new root.new) }
    ensures order { StandsBeside side (order_in (ordered_by P.Inx.number chains.old root.old))
        (order_in (ordered_by P.Inx.number chains.new root.new)) (P.Inx.number holder)
        (P.index result) }
    ensures added { IsAdded (P.index result) (P.generation result) t
        (ordered_by P.Inx.number chains.old root.old)
        (ordered_by P.Inx.number chains.new root.new) }
    ensures counter { chains.new.counter ≡ chains.old.counter }
    ensures room { chains.new.room ≡ chains.old.room }
{
    recall!(chains.capacity());
    let (prev, next) = gap_beside(chains, *root, holder, side);
    let node: SimpleOrdArenaNode<P, T> = IndexNode::under(Some(holder), t);
    let p = chains.insert_in_gap_unwrap(prev, next, node);
    bring_in(chains, root, holder, side, p.inx());
    p
}

// The neighbors of one more link directly before or after that of `holder`.
pub(crate) fn neighbors_beside<P: PtrCore, T: Drop, S: OrdSlots<P, T>>(
    chains: &ChainArena<P, SimpleOrdArenaNode<P, T>, S>,
    holder: P::Inx,
    side: Side,
) -> (Option<P::Inx>, Option<P::Inx>)
    requires { IsSome (nodes_in chains.now (P.Inx.number holder)) }
    ensures prev { prev_beside side chains.now (P.Inx.number holder)
        ≡ Some (option_map P.Inx.number result.0) }
    ensures next { next_beside side chains.now (P.Inx.number holder)
        ≡ Some (option_map P.Inx.number result.1) }
{
    match chains.get_inx_link_no_gen(holder) {
        Some((_, link)) => match side {
            Side::Left => (link.prev(), Some(holder)),
            Side::Right => (Some(holder), link.next()),
        },
        None => unreached!(),
    }
}

// These neighbors, told to be a gap of the list. So what an insertion there requires is found by
// search.
fn gap_beside<P: PtrCore, T: Drop, S: OrdSlots<P, T>>(
    chains: &ChainArena<P, SimpleOrdArenaNode<P, T>, S>,
    root: Option<P::Inx>,
    holder: P::Inx,
    side: Side,
) -> (Option<P::Inx>, Option<P::Inx>)
    requires ordered { IsOrdered (ordered_by P.Inx.number chains.now root) }
    requires lives { IsSome (nodes_in chains.now (P.Inx.number holder)) }
    requires free { option_map (λ v. child_of side v)
        (nodes_in chains.now (P.Inx.number holder)) ≡ Some None }
    ensures prev { prev_beside side chains.now (P.Inx.number holder)
        ≡ Some (option_map P.Inx.number result.0) }
    ensures next { next_beside side chains.now (P.Inx.number holder)
        ≡ Some (option_map P.Inx.number result.1) }
    ensures gap { IsBetween (ends_in chains.now) (ends_by P.Inx.number (result.0, result.1)) }
{
    neighbors_beside(chains, holder, side)
}

// An end of the list moves if one more index stands beside another.
pub(crate) fn move_end<I: PtrInxCore>(link: &mut Option<I>, side: Side, end: Side, from: I, to: I)
    ensures { option_map I.number link.new
        ≡ end_after side end (option_map I.number link.old) (I.number from) (I.number to) }
{
    match side {
        Side::Left => match end {
            Side::Left => replace_end(link, from, to),
            Side::Right => {}
        },
        Side::Right => match end {
            Side::Left => {}
            Side::Right => replace_end(link, from, to),
        },
    }
}

fn replace_end<I: PtrInxCore>(link: &mut Option<I>, from: I, to: I)
    ensures { option_map I.number link.new
        ≡ new_end (option_map I.number link.old) (I.number from) (I.number to) }
{
    if let Some(i) = *link {
        if i == from {
            *link = Some(to);
        }
    }
}
