//! A leaf that comes below a node, a node with at most one child that leaves, and one that takes
//! the place of another.
ghost use Rattle.std.specs.Prelude.{◌≡◌, ℕ, Some, None, IsSome};
ghost use Rattle.std.specs.Option.{option_map};
ghost use Rattle.rank_tree.specs.Tree.{walk};
ghost use Rattle.rank_tree.specs.Repair.{ReplacementBy, FreeSideBy, filled, new_below, GrownBy};
ghost use Rattle.rank_tree.specs.Repair.{LooseBy, PendingBy, KeptOff, Becomes, walk_without};
ghost use Rattle.rank_tree.specs.Repair.{substituted};

use crate::node_store::{relink, reparent};
use crate::{NodeLinks, NodeStore, Side};
use triple_arena_ptr::{PtrCore, PtrInxCore};

/// A new leaf, which names the node as its parent, below that node.
pub(crate) fn attach<N, P: PtrCore, K: NodeStore<N, P>>(
    nodes: &mut K,
    root: Option<P::Inx>,
    holder: P::Inx,
    side: Side,
    new: P::Inx,
)
    requires free { FreeSideBy P.Inx.number (K.nodes nodes.old) root holder side new }
    requires slot { K.nodes nodes.old (P.Inx.number new) ≡ Some (new_below (P.Inx.number holder)) }
    ensures does { (free : FreeSideBy P.Inx.number (K.nodes nodes.old) root holder side new)
        → GrownBy P.Inx.number (K.nodes nodes.new) root new (walk (filled free)) }
    ensures elsewhere { (free : FreeSideBy P.Inx.number (K.nodes nodes.old) root holder side new)
        → KeptOff (walk (filled free)) (K.nodes nodes.old) (K.nodes nodes.new) }
    ensures slot { K.nodes nodes.new (P.Inx.number new) ≡ Some (new_below (P.Inx.number holder)) }
    ensures keeps { K.rest nodes.new ≡ K.rest nodes.old }
{
    nodes.set_child(holder, side, &Some(new));
}

/// A node with at most one child leaves the tree; the answer is where the rules may be broken, and
/// the child there that may be too low.
pub(crate) fn detach<N, P: PtrCore, K: NodeStore<N, P>>(
    nodes: &mut K,
    root: &mut Option<P::Inx>,
    gone: P::Inx,
) -> (Option<P::Inx>, Option<P::Inx>)
    requires { LooseBy P.Inx.number (K.nodes nodes.old) root.old gone }
    ensures does { (loose : LooseBy P.Inx.number (K.nodes nodes.old) root.old gone)
        → PendingBy P.Inx.number (K.nodes nodes.new) root.new result.0 result.1
        (walk_without loose) }
    ensures elsewhere { (loose : LooseBy P.Inx.number (K.nodes nodes.old) root.old gone)
        → KeptOff (walk_without loose) (K.nodes nodes.old) (K.nodes nodes.new) }
    ensures keeps { K.rest nodes.new ≡ K.rest nodes.old }
{
    let links = nodes.read(gone);
    let child = first_child(links);
    reparent(nodes, child, links.parent);
    relink(nodes, root, links.parent, gone, child);
    (links.parent, child)
}

/// `new`, which is not in the tree, takes the place and the rank of `old`.
pub fn replace<N, P: PtrCore, K: NodeStore<N, P>>(
    nodes: &mut K,
    root: &mut Option<P::Inx>,
    old: P::Inx,
    new: P::Inx,
)
    requires place { ReplacementBy P.Inx.number (K.nodes nodes.old) root.old old new }
    requires slot { IsSome (K.nodes nodes.old (P.Inx.number new)) }
    ensures does { (place : ReplacementBy P.Inx.number (K.nodes nodes.old) root.old old new)
        → Becomes P.Inx.number (substituted place) (K.nodes nodes.old) (K.nodes nodes.new)
        root.new }
    ensures keeps { K.rest nodes.new ≡ K.rest nodes.old }
{
    let links = nodes.read(old);
    nodes.write(new, &links);
    reparent(nodes, links.left, Some(new));
    reparent(nodes, links.right, Some(new));
    relink(nodes, root, links.parent, old, Some(new));
}

fn first_child<I: PtrInxCore>(links: NodeLinks<I>) -> Option<I>
    ensures left { (i : ℕ) → option_map I.number links.left ≡ Some i
        → option_map I.number result ≡ Some i }
    ensures right { option_map I.number links.left ≡ None
        → option_map I.number result ≡ option_map I.number links.right }
{
    match links.left {
        Some(i) => Some(i),
        None => links.right,
    }
}
