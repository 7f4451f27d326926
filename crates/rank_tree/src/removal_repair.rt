//! The rank rules are restored after a removal.
ghost use Rattle.std.specs.Prelude.{◌≡◌, ℕ, ◌<◌, ◌≤◌, List, Some, IfSome, IsTrue, ◌↔◌, ⊤};
ghost use Rattle.rank_tree.specs.Store.{rank_in};
ghost use Rattle.rank_tree.specs.Named.{named};
ghost use Rattle.rank_tree.specs.Repair.{ShortBy, BrokenBy, PendingBy, LooseBy, KeptOff, Restores};
ghost use Rattle.rank_tree.specs.Repair.{IsFitAbove, walk_without};

use crate::around::look_around;
use crate::edges::detach;
use crate::node_store::rank_at;
use crate::turn::turn;
use crate::{NodeLinks, NodeStore, Side};
use proof_marks::unreached;
use triple_arena_ptr::{PtrCore, PtrInxCore};

/// The higher child `low` turns up, or its inner child does, twice.
fn shorten<N, P: PtrCore, K: NodeStore<N, P>>(nodes: &mut K, root: &mut Option<P::Inx>, low: P::Inx)
    requires short { (w : List ℕ) × ShortBy P.Inx.number (K.nodes nodes.old) root.old low w }
    requires no_more { ⊤ }
    ensures does { (w : List ℕ) → ShortBy P.Inx.number (K.nodes nodes.old) root.old low w
        → Restores P.Inx.number w (K.nodes nodes.old) (K.nodes nodes.new) root.new }
    ensures keeps { K.rest nodes.new ≡ K.rest nodes.old }
{
    let near = look_around(nodes, low);
    let rank = near.high_rank;
    if near.low_rank <= near.outer_rank + 1 {
        turn(nodes, root, low, rank, near.inner_rank + 1);
    } else {
        let Some(middle) = near.inner else {
            unreached!()
        };
        turn(nodes, root, middle, rank, rank - 2);
        turn(nodes, root, middle, rank, rank - 2);
    }
}

fn higher(left: u8, right: u8) -> Side
    ensures right { left < right → result ≡ Side.Right }
    ensures left { right ≤ left → result ≡ Side.Left }
{
    if left < right {
        Side::Right
    } else {
        Side::Left
    }
}

/// Whether the rule of a node holds, of which one child has this rank, and the other keeps the
/// rule.
fn is_fit_above<I: PtrInxCore>(above: NodeLinks<I>, near_rank: u8) -> bool
    requires { near_rank ≤ 127 }
    ensures { IsTrue result ↔ IsFitAbove (named I.number above) near_rank }
{
    above.rank <= near_rank + 2
        && (above.rank != 2 || above.left.is_some() || above.right.is_some())
}

/// One step: the rules are restored, or are broken at most at the parent.
fn mend<N, P: PtrCore, K: NodeStore<N, P>>(
    nodes: &mut K,
    root: &mut Option<P::Inx>,
    high: P::Inx,
    near: Option<P::Inx>,
) -> Option<P::Inx>
    requires { (w : List ℕ) × BrokenBy P.Inx.number (K.nodes nodes.old) root.old high near w }
    ensures pending { (w : List ℕ) → BrokenBy P.Inx.number (K.nodes nodes.old) root.old high near w
        → PendingBy P.Inx.number (K.nodes nodes.new) root.new result (Some high) w }
    ensures rises { IfSome result (λ i. rank_in (K.nodes nodes.old) (P.Inx.number high)
        < rank_in (K.nodes nodes.new) (P.Inx.number i)) }
    ensures elsewhere { (w : List ℕ)
        → BrokenBy P.Inx.number (K.nodes nodes.old) root.old high near w
        → KeptOff w (K.nodes nodes.old) (K.nodes nodes.new) }
    ensures keeps { K.rest nodes.new ≡ K.rest nodes.old }
{
    let above = nodes.read(high);
    let rank = above.rank;
    let near_rank = rank_at(nodes, near);
    // The other child keeps the rule, and is not read if this one does too.
    if is_fit_above(above, near_rank) {
        return None;
    }
    let left = rank_at(nodes, above.left);
    let right = rank_at(nodes, above.right);
    if left.max(right) + 2 <= rank {
        nodes.set_rank(high, rank - 1);
        return above.parent;
    }
    let Some(low) = above.child(higher(left, right)) else {
        unreached!()
    };
    let below = nodes.read(low);
    let low_left = rank_at(nodes, below.left);
    let low_right = rank_at(nodes, below.right);
    if below.rank <= low_left.max(low_right) + 1 {
        shorten(nodes, root, low);
        return None;
    }
    nodes.set_rank(low, below.rank - 1);
    nodes.set_rank(high, rank - 1);
    above.parent
}

/// From a tree with one child too low to a tree that keeps the rules.
pub(crate) fn repair_removed<N, P: PtrCore, K: NodeStore<N, P>>(
    nodes: &mut K,
    root: &mut Option<P::Inx>,
    start: Option<P::Inx>,
    child: Option<P::Inx>,
)
    requires pending { (w : List ℕ)
        × PendingBy P.Inx.number (K.nodes nodes.old) root.old start child w }
    requires no_more { ⊤ }
    ensures does { (w : List ℕ) → PendingBy P.Inx.number (K.nodes nodes.old) root.old start child w
        → Restores P.Inx.number w (K.nodes nodes.old) (K.nodes nodes.new) root.new }
    ensures keeps { K.rest nodes.new ≡ K.rest nodes.old }
{
    let mut at = start;
    let mut near = child;
    'climb: while let Some(high) = at {
        at = mend(nodes, root, high, near);
        near = Some(high);
    }
}

/// Takes the node at `gone`, which has no child on one side, out of the tree. After it the rules
/// hold.
pub fn bring_out<N, P: PtrCore, K: NodeStore<N, P>>(
    nodes: &mut K,
    root: &mut Option<P::Inx>,
    gone: P::Inx,
)
    requires loose { LooseBy P.Inx.number (K.nodes nodes.old) root.old gone }
    requires no_more { ⊤ }
    ensures does { (loose : LooseBy P.Inx.number (K.nodes nodes.old) root.old gone)
        → Restores P.Inx.number (walk_without loose) (K.nodes nodes.old) (K.nodes nodes.new)
        root.new }
    ensures keeps { K.rest nodes.new ≡ K.rest nodes.old }
{
    let (pending, child) = detach(nodes, root, gone);
    repair_removed(nodes, root, pending, child);
}
