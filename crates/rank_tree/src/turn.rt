//! A node turns up over its parent.
ghost use Rattle.std.specs.Prelude.{◌≡◌, ℕ, Option, ⊤};
ghost use Rattle.rank_tree.specs.Repair.{Spot, SpotBy, turned, Becomes};

use crate::node_store::{relink, reparent};
use crate::{NodeLinks, NodeStore, Side, side_of};
use proof_marks::unreached;
use triple_arena_ptr::PtrCore;

/// `low` takes the place of its parent, which becomes its child; both get new ranks.
pub(crate) fn turn<N, P: PtrCore, K: NodeStore<N, P>>(
    nodes: &mut K,
    root: &mut Option<P::Inx>,
    low: P::Inx,
    low_rank: u8,
    high_rank: u8,
)
    requires spot { SpotBy P.Inx.number (K.nodes nodes.old) root.old low }
    requires no_more { ⊤ }
    ensures does { (spot : SpotBy P.Inx.number (K.nodes nodes.old) root.old low)
        → Becomes P.Inx.number (turned spot low_rank high_rank) (K.nodes nodes.old)
        (K.nodes nodes.new) root.new }
    ensures keeps { K.rest nodes.new ≡ K.rest nodes.old }
{
    match side_below(nodes, low) {
        Side::Left => turn_on(nodes, root, low, Side::Left, low_rank, high_rank),
        Side::Right => turn_on(nodes, root, low, Side::Right, low_rank, high_rank),
    }
}

// The side of its parent on which a node stands.
fn side_below<N, P: PtrCore, K: NodeStore<N, P>>(nodes: &K, low: P::Inx) -> Side
    requires spot { (root : Option ℕ) × Spot (K.nodes nodes.now) root (P.Inx.number low) }
    requires no_more { ⊤ }
    ensures { (root : Option ℕ) (spot : Spot (K.nodes nodes.now) root (P.Inx.number low))
        → result ≡ spot.side }
{
    let below = nodes.read(low);
    let Some(high) = below.parent else {
        unreached!()
    };
    let above = nodes.read(high);
    side_of(above, low)
}

// The same turn of a node on this side of its parent. It is inlined, since the side is known at
// each call.
#[inline(always)]
fn turn_on<N, P: PtrCore, K: NodeStore<N, P>>(
    nodes: &mut K,
    root: &mut Option<P::Inx>,
    low: P::Inx,
    side: Side,
    low_rank: u8,
    high_rank: u8,
)
    requires spot { SpotBy P.Inx.number (K.nodes nodes.old) root.old low }
    requires side { (spot : SpotBy P.Inx.number (K.nodes nodes.old) root.old low)
        → side ≡ spot.side }
    ensures does { (spot : SpotBy P.Inx.number (K.nodes nodes.old) root.old low)
        → Becomes P.Inx.number (turned spot low_rank high_rank) (K.nodes nodes.old)
        (K.nodes nodes.new) root.new }
    ensures keeps { K.rest nodes.new ≡ K.rest nodes.old }
{
    let below = nodes.read(low);
    let Some(high) = below.parent else {
        unreached!()
    };
    let above = nodes.read(high);
    let middle = below.child(side.other());
    let lowered = above.with_child(side, middle);
    nodes.write(
        high,
        &NodeLinks {
            parent: Some(low),
            rank: high_rank,
            ..lowered
        },
    );
    reparent(nodes, middle, Some(high));
    let raised = below.with_child(side.other(), Some(high));
    nodes.write(
        low,
        &NodeLinks {
            parent: above.parent,
            rank: low_rank,
            ..raised
        },
    );
    relink(nodes, root, above.parent, high, Some(low));
}
