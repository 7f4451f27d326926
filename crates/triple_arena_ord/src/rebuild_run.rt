//! The tree is written anew by arithmetic, if the list is the indexes from 1 on.
ghost use Rattle.std.specs.Prelude.{◌≡◌, ℕ, ◌+◌, ◌<◌, ◌≤◌, IsSome, ⊤};
ghost use Rattle.std.specs.List.{range_with_len};
ghost use Rattle.std.specs.Option.{option_map};
ghost use Rattle.triple_arena_ptr.specs.Index.{max_index_of};
ghost use Rattle.triple_arena.specs.Content.{live_count};
ghost use Rattle.linked_lists.specs.LinkedLists.{IsLinear};
ghost use Rattle.triple_arena_chain.specs.Links.{ends_in};
ghost use Rattle.triple_arena_ord.specs.Node.{nodes_in, rest};
ghost use Rattle.triple_arena_ord.specs.Rebuilt.{IsRebuilt};
ghost use Rattle.triple_arena_ord.specs.RebuiltRun.{IsRunBuilt, middle};

use crate::rebuild::{rank_of_part, top_rank};
use crate::{OrdSlots, SimpleOrdArenaNode};
use proof_marks::{recall, unreached};
use rank_tree::{NodeLinks, NodeStore};
use std::num::NonZeroUsize;
use triple_arena::{ArenaTrait, PtrCore, PtrInxCore};
use triple_arena_chain::ChainArena;

// The index with a number.
fn index_of<P: PtrCore>(number: usize) -> P::Inx
    requires some { 1 ≤ number }
    requires within { number ≤ max_index_of P.Inx.greatest }
    ensures { P.Inx.number result ≡ number }
{
    let Some(number) = NonZeroUsize::new(number) else {
        unreached!()
    };
    let Some(i) = P::Inx::try_from_usize(number) else {
        unreached!()
    };
    i
}

// The root of the part of so many indexes behind `before` others.
fn root_of<P: PtrCore>(before: usize, count: usize) -> Option<P::Inx>
    requires within { before + count ≤ max_index_of P.Inx.greatest }
    requires no_more { ⊤ }
    ensures { option_map P.Inx.number result ≡ middle before count }
{
    if count == 0 {
        return None;
    }
    Some(index_of::<P>(before + count / 2 + 1))
}

// Writes the nodes at so many indexes behind `before` others as a halving tree, whose root gets
// this parent. Each node is written once.
fn build_run<P: PtrCore, T: Drop, S: OrdSlots<P, T>>(
    chains: &mut ChainArena<P, SimpleOrdArenaNode<P, T>, S>,
    parent: Option<P::Inx>,
    before: usize,
    count: usize,
    top: u8,
)
    requires some { 1 ≤ count }
    requires within { before + count ≤ max_index_of P.Inx.greatest }
    requires live { (k : ℕ) → before < k → k ≤ before + count → IsSome (nodes_in chains.old k) }
    ensures built { IsRunBuilt top (option_map P.Inx.number parent) before count
        (nodes_in chains.old) (nodes_in chains.new) }
    ensures keeps { rest chains.new ≡ rest chains.old }
{
    let half = count / 2;
    let passed = before + half + 1;
    let more = count - half - 1;
    let root = index_of::<P>(passed);
    chains.write(
        root,
        &NodeLinks {
            parent,
            left: root_of::<P>(before, half),
            right: root_of::<P>(passed, more),
            rank: rank_of_part(count, top),
        },
    );
    let below = top.saturating_sub(1);
    if half > 0 {
        build_run(chains, Some(root), before, half, below);
    }
    if more > 0 {
        build_run(chains, Some(root), passed, more, below);
    }
}

/// Writes the tree of a list that is the indexes from 1 on, as the halving tree, and returns its
/// root.
pub(crate) fn rebuild_run<P: PtrCore, T: Drop, S: OrdSlots<P, T>>(
    chains: &mut ChainArena<P, SimpleOrdArenaNode<P, T>, S>,
) -> Option<P::Inx>
    requires linear { IsLinear (ends_in chains.old) (range_with_len 1 (live_count chains.old)) }
    requires no_more { ⊤ }
    ensures rebuilt { IsRebuilt (range_with_len 1 (live_count chains.old))
        (option_map P.Inx.number result) (nodes_in chains.new) }
    ensures keeps { rest chains.new ≡ rest chains.old }
{
    // So many indexes are the pointers'.
    recall!(chains.capacity());
    let count = chains.len();
    if count > 0 {
        build_run(chains, None, 0, count, top_rank(count));
    }
    root_of::<P>(0, count)
}
