//! Where the nodes of a tree are kept, and changes of its links.
ghost use Rattle.std.specs.Prelude.{◌≡◌, ℕ, Some, None, IsSome, IfSome, ⊤};
ghost use Rattle.std.specs.Option.{option_map};
ghost use Rattle.rank_tree.specs.Store.{Store, Written, Reparented, RelinkedBy, with_child};
ghost use Rattle.rank_tree.specs.Store.{with_parent, with_rank};
ghost use Rattle.rank_tree.specs.NodeView.{NodeView};
ghost use Rattle.rank_tree.specs.Named.{named};

use crate::{NodeLinks, Side, side_of};
use triple_arena_ptr::PtrCore;

/// What keeps the nodes of a tree by the indexes of a pointer type, and whatever else beside them.
/// `N` is the type of what it keeps the nodes in, so that the crate of that type can write the
/// `impl` for an arena of another crate.
pub trait NodeStore<N, P: PtrCore> {
    // The node at each index.
    ghost nodes: { Self → Store };

    // What stands beside the nodes.
    ghost Rest: { Type 0 };

    ghost rest: { Self → Rest };

    /// The node at an index that has one.
    fn read(&self, i: P::Inx) -> NodeLinks<P::Inx>
        requires live { IsSome (nodes self.now (P.Inx.number i)) }
        requires no_more { ⊤ }
        ensures { nodes self.now (P.Inx.number i) ≡ Some (named P.Inx.number result) };

    /// A node takes the place of the one at an index.
    fn write(&mut self, i: P::Inx, links: &NodeLinks<P::Inx>)
        requires live { IsSome (nodes self.old (P.Inx.number i)) }
        requires no_more { ⊤ }
        ensures written { Written (nodes self.old) (nodes self.new) (P.Inx.number i)
            (named P.Inx.number links.now) }
        ensures keeps { rest self.new ≡ rest self.old };

    /// A node gets another parent.
    fn set_parent(&mut self, i: P::Inx, parent: &Option<P::Inx>)
        requires { IsSome (nodes self.old (P.Inx.number i)) }
        ensures does { (v : NodeView) → nodes self.old (P.Inx.number i) ≡ Some v
            → Written (nodes self.old) (nodes self.new) (P.Inx.number i)
            (with_parent (option_map P.Inx.number parent.now) v) }
        ensures keeps { rest self.new ≡ rest self.old };

    /// A node gets another child on a side.
    fn set_child(&mut self, i: P::Inx, side: Side, child: &Option<P::Inx>)
        requires { IsSome (nodes self.old (P.Inx.number i)) }
        ensures does { (v : NodeView) → nodes self.old (P.Inx.number i) ≡ Some v
            → Written (nodes self.old) (nodes self.new) (P.Inx.number i)
            (with_child side (option_map P.Inx.number child.now) v) }
        ensures keeps { rest self.new ≡ rest self.old };

    /// A node gets another rank.
    fn set_rank(&mut self, i: P::Inx, rank: u8)
        requires live { IsSome (nodes self.old (P.Inx.number i)) }
        requires no_more { ⊤ }
        ensures does { (v : NodeView) → nodes self.old (P.Inx.number i) ≡ Some v
            → Written (nodes self.old) (nodes self.new) (P.Inx.number i) (with_rank rank v) }
        ensures keeps { rest self.new ≡ rest self.old };
}

/// The node that `link` names, if it names one, gets this parent.
pub fn reparent<N, P: PtrCore, K: NodeStore<N, P>>(
    nodes: &mut K,
    link: Option<P::Inx>,
    parent: Option<P::Inx>,
)
    requires live { IfSome link (λ i. IsSome (K.nodes nodes.old (P.Inx.number i))) }
    requires no_more { ⊤ }
    ensures does { Reparented (K.nodes nodes.old) (K.nodes nodes.new) (option_map P.Inx.number link)
        (option_map P.Inx.number parent) }
    ensures keeps { K.rest nodes.new ≡ K.rest nodes.old }
{
    if let Some(i) = link {
        nodes.set_parent(i, &parent);
    }
}

/// What led to `from` leads to `to`: a child link of the holder, or the root.
pub(crate) fn relink<N, P: PtrCore, K: NodeStore<N, P>>(
    nodes: &mut K,
    root: &mut Option<P::Inx>,
    holder: Option<P::Inx>,
    from: P::Inx,
    to: Option<P::Inx>,
)
    requires live { IfSome holder (λ i. IsSome (K.nodes nodes.old (P.Inx.number i))) }
    requires no_more { ⊤ }
    ensures does { RelinkedBy P.Inx.number (K.nodes nodes.old) (K.nodes nodes.new) root.old root.new
        holder from to }
    ensures keeps { K.rest nodes.new ≡ K.rest nodes.old }
{
    match holder {
        Some(i) => {
            let side = side_of(nodes.read(i), from);
            nodes.set_child(i, side, &to);
        }
        None => *root = to,
    }
}

/// The rank of the node that `link` names, 0 if it names none.
pub(crate) fn rank_at<N, P: PtrCore, K: NodeStore<N, P>>(nodes: &K, link: Option<P::Inx>) -> u8
    requires live { IfSome link (λ i. IsSome (K.nodes nodes.now (P.Inx.number i))) }
    requires no_more { ⊤ }
    ensures some { (i : ℕ) → option_map P.Inx.number link ≡ Some i
        → IfSome (K.nodes nodes.now i) (λ v. result ≡ v.rank) }
    ensures none { option_map P.Inx.number link ≡ None → result ≡ 0 }
{
    match link {
        Some(i) => nodes.read(i).rank,
        None => 0,
    }
}
