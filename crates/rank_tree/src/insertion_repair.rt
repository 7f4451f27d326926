//! The rank rules are restored after an insertion.
ghost use Rattle.std.specs.Prelude.{◌≡◌, ℕ, ◌+◌, ◌<◌, List, Some, Option, IsTrue, ◌↔◌, ⊤};
ghost use Rattle.rank_tree.specs.Tree.{walk, rank_of};
ghost use Rattle.rank_tree.specs.Named.{named};
ghost use Rattle.rank_tree.specs.Repair.{LeaningBy, GrownBy, FreeSideBy, filled, new_below};
ghost use Rattle.rank_tree.specs.Repair.{Restores};
ghost use Rattle.rank_tree.specs.ClimbLaws.{GrownTo};

use crate::edges::attach;
use crate::node_store::rank_at;
use crate::turn::turn;
use crate::{NodeLinks, NodeStore, Side, side_of};
use proof_marks::unreached;
use triple_arena_ptr::PtrCore;

/// `low` turns up over its parent of the same rank, or its inner child does, twice.
fn lean<N, P: PtrCore, K: NodeStore<N, P>>(nodes: &mut K, root: &mut Option<P::Inx>, low: P::Inx)
    requires leaning { (w : List ℕ) × LeaningBy P.Inx.number (K.nodes nodes.old) root.old low w }
    requires no_more { ⊤ }
    ensures does { (w : List ℕ) → LeaningBy P.Inx.number (K.nodes nodes.old) root.old low w
        → Restores P.Inx.number w (K.nodes nodes.old) (K.nodes nodes.new) root.new }
    ensures keeps { K.rest nodes.new ≡ K.rest nodes.old }
{
    let below = nodes.read(low);
    let Some(high) = below.parent else {
        unreached!()
    };
    let above = nodes.read(high);
    let side = side_of(above, low);
    let inner = below.child(side.other());
    let rank = below.rank;
    if rank_at(nodes, inner) + 1 < rank {
        turn(nodes, root, low, rank, rank - 1);
    } else {
        let Some(middle) = inner else { unreached!() };
        turn(nodes, root, middle, rank, rank - 1);
        turn(nodes, root, middle, rank, rank - 1);
    }
}

/// Whether the sibling of the node that has grown to this rank, which is its parent's, has two
/// ranks less. At rank 2 a sibling that is there has one less, and is not read.
fn is_two_lower<N, P: PtrCore, K: NodeStore<N, P>>(
    nodes: &K,
    above: NodeLinks<P::Inx>,
    rank: u8,
) -> bool
    requires grown { GrownTo (K.nodes nodes.now) (named P.Inx.number above) rank }
    requires no_more { ⊤ }
    ensures { (grown : GrownTo (K.nodes nodes.now) (named P.Inx.number above) rank)
        → (IsTrue result ↔ (rank_of grown.climbing.far + 1 < rank)) }
{
    if rank == 2 {
        return above.left.is_none() || above.right.is_none();
    }
    // One of these is that rank: which of them does not matter.
    let left = rank_at(nodes, above.left);
    let right = rank_at(nodes, above.right);
    left.min(right) + 1 < rank
}

/// From one subtree that has grown in rank to a tree that keeps the rules.
pub(crate) fn repair_inserted<N, P: PtrCore, K: NodeStore<N, P>>(
    nodes: &mut K,
    root: &mut Option<P::Inx>,
    start: P::Inx,
)
    requires grown { (w : List ℕ) × GrownBy P.Inx.number (K.nodes nodes.old) root.old start w }
    requires no_more { ⊤ }
    ensures does { (w : List ℕ) → GrownBy P.Inx.number (K.nodes nodes.old) root.old start w
        → Restores P.Inx.number w (K.nodes nodes.old) (K.nodes nodes.new) root.new }
    ensures keeps { K.rest nodes.new ≡ K.rest nodes.old }
{
    let mut low = start;
    'climb: loop {
        let below = nodes.read(low);
        let Some(high) = below.parent else { return };
        let above = nodes.read(high);
        if below.rank < above.rank {
            return;
        }
        if is_two_lower(nodes, above, below.rank) {
            lean(nodes, root, low);
            return;
        }
        nodes.set_rank(high, above.rank + 1);
        low = high;
    }
}

/// Hangs the node at `new` below `holder`, on a side on which that has no child. It is not in the
/// tree, and was written as a leaf of rank 1 that has `holder` as its parent. After it the rules
/// hold.
pub fn bring_in<N, P: PtrCore, K: NodeStore<N, P>>(
    nodes: &mut K,
    root: &mut Option<P::Inx>,
    holder: P::Inx,
    side: Side,
    new: P::Inx,
)
    requires free { FreeSideBy P.Inx.number (K.nodes nodes.old) root.old holder side new }
    requires slot { K.nodes nodes.old (P.Inx.number new) ≡ Some (new_below (P.Inx.number holder)) }
    ensures does { (free : FreeSideBy P.Inx.number (K.nodes nodes.old) root.old holder side new)
        → Restores P.Inx.number (walk (filled free)) (K.nodes nodes.old) (K.nodes nodes.new)
        root.new }
    ensures keeps { K.rest nodes.new ≡ K.rest nodes.old }
{
    attach(nodes, *root, holder, side, new);
    // Only a holder that was a leaf rises, and then it has no other child.
    let above = nodes.read(holder);
    if above.rank == 1 {
        nodes.set_rank(holder, above.rank + 1);
        repair_inserted(nodes, root, holder);
    }
}
