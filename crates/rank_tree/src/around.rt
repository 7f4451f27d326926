//! What the repair after a removal reads round a node and its parent.
ghost use Rattle.std.specs.Prelude.{ℕ, ◌<◌, Option, ⊤};
ghost use Rattle.rank_tree.specs.Repair.{Spot, IsAround};

use crate::node_store::rank_at;
use crate::{NodeStore, side_of};
use proof_marks::unreached;
use triple_arena_ptr::PtrCore;

// A node `low` with its parent `high`: `outer` and `inner` are the children of `low`, `far` is its
// sibling.
#[derive(Clone, Copy, Drop)]
pub(crate) struct Around<I> {
    pub(crate) high: I,
    pub(crate) inner: Option<I>,
    pub(crate) low_rank: u8,
    pub(crate) high_rank: u8,
    pub(crate) outer_rank: u8,
    pub(crate) inner_rank: u8,
    pub(crate) far_rank: u8,
}

// Reads what stands round `low`, which has a parent.
pub(crate) fn look_around<N, P: PtrCore, K: NodeStore<N, P>>(
    nodes: &K,
    low: P::Inx,
) -> Around<P::Inx>
    requires spot { (root : Option ℕ) × Spot (K.nodes nodes.now) root (P.Inx.number low) }
    requires no_more { ⊤ }
    ensures { (root : Option ℕ) (spot : Spot (K.nodes nodes.now) root (P.Inx.number low))
        → IsAround P.Inx.number spot result }
{
    let below = nodes.read(low);
    let Some(high) = below.parent else {
        unreached!()
    };
    let above = nodes.read(high);
    let side = side_of(above, low);
    let away = side.other();
    let outer = below.child(side);
    let inner = below.child(away);
    let far = above.child(away);
    Around {
        high,
        inner,
        low_rank: below.rank,
        high_rank: above.rank,
        outer_rank: rank_at(nodes, outer),
        inner_rank: rank_at(nodes, inner),
        far_rank: rank_at(nodes, far),
    }
}
