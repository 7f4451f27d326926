//! The tree is written anew, in one pass along the list, as the halving tree.
ghost use Rattle.std.specs.Prelude.{◌≡◌, ℕ, ◌+◌, List, None};
ghost use Rattle.std.specs.Option.{option_map};
ghost use Rattle.linked_lists.specs.LinkedLists.{next_at};
ghost use Rattle.triple_arena_chain.specs.Links.{ends_in};
ghost use Rattle.triple_arena_ord.specs.Node.{nodes_in, rest};
ghost use Rattle.triple_arena_ord.specs.Rebuilt.{IsAhead, IsRebuilt, IsWholeList};
ghost use Rattle.rank_tree.specs.Halving.{part_rank, IsTopRank, IsBuilt};

use crate::{OrdSlots, SimpleOrdArenaNode};
use proof_marks::unreached;
use rank_tree::{NodeLinks, NodeStore, reparent};
use triple_arena::{ArenaTrait, PtrCore};
use triple_arena_chain::{ChainArena, ChainArenaTrait};

// The rank of the root of a part of so many entries, if that of a greater one is `top`.
pub(crate) fn rank_of_part(count: usize, top: u8) -> u8
    ensures { result ≡ part_rank top count }
{
    if count < 5 { count.min(3) as u8 } else { top }
}

// The rank of the root of so many entries, if they are more than four.
pub(crate) fn top_rank(count: usize) -> u8
    ensures top { IsTopRank count result }
{
    let mut exponent = 0;
    let mut reach: usize = 1;
    'double: while reach < count.saturating_sub(1) {
        reach = reach.saturating_mul(2);
        exponent += 1;
    }
    exponent + 1
}

// The next index of the link at an index, if there is one.
fn next_of<P: PtrCore, T: Drop, S: OrdSlots<P, T>>(
    chains: &ChainArena<P, SimpleOrdArenaNode<P, T>, S>,
    i: P::Inx,
) -> Option<P::Inx>
    ensures { option_map P.Inx.number result ≡ next_at (ends_in chains.now) (P.Inx.number i) }
{
    match chains.get_inx_link_no_gen(i) {
        Some((_, link)) => link.next(),
        None => None,
    }
}

// Writes the nodes of the next entries, so many, as a halving tree, and returns its root. The root
// gets no parent.
fn build<P: PtrCore, T: Drop, S: OrdSlots<P, T>>(
    chains: &mut ChainArena<P, SimpleOrdArenaNode<P, T>, S>,
    cursor: &mut Option<P::Inx>,
    count: usize,
    top: u8,
) -> Option<P::Inx>
    requires { (w : List ℕ)
        × IsAhead (ends_in chains.old) (option_map P.Inx.number cursor.old) count w }
    ensures built { (w : List ℕ)
        → IsAhead (ends_in chains.old) (option_map P.Inx.number cursor.old) count w
        → IsBuilt top w (option_map P.Inx.number result) (nodes_in chains.old)
        (nodes_in chains.new) }
    ensures goes_on { (w : List ℕ)
        → (a : IsAhead (ends_in chains.old) (option_map P.Inx.number cursor.old) count w)
        → option_map P.Inx.number cursor.new ≡ a.after }
    ensures keeps { rest chains.new ≡ rest chains.old }
{
    if count == 0 {
        return None;
    }
    let below = top.saturating_sub(1);
    let half = count / 2;
    let left = build(chains, cursor, half, below);
    let Some(root) = *cursor else { unreached!() };
    *cursor = next_of(chains, root);
    let right = build(chains, cursor, count - half - 1, below);
    reparent(chains, left, Some(root));
    reparent(chains, right, Some(root));
    let rank = rank_of_part(count, top);
    chains.write(
        root,
        &NodeLinks {
            parent: None,
            left,
            right,
            rank,
        },
    );
    Some(root)
}

/// Writes the tree of a list from its first index on, as the halving tree, and returns its root.
pub(crate) fn rebuild<P: PtrCore, T: Drop, S: OrdSlots<P, T>>(
    chains: &mut ChainArena<P, SimpleOrdArenaNode<P, T>, S>,
    first: Option<P::Inx>,
) -> Option<P::Inx>
    requires { (w : List ℕ) × IsWholeList chains.old (option_map P.Inx.number first) w }
    ensures rebuilt { (w : List ℕ) → IsWholeList chains.old (option_map P.Inx.number first) w
        → IsRebuilt w (option_map P.Inx.number result) (nodes_in chains.new) }
    ensures keeps { rest chains.new ≡ rest chains.old }
{
    let count = chains.len();
    let mut cursor = first;
    build(chains, &mut cursor, count, top_rank(count))
}
