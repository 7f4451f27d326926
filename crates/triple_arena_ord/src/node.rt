//! A node of the tree, which holds its item.
ghost use Rattle.std.specs.Prelude.{◌≡◌, None};
ghost use Rattle.std.specs.Option.{option_map};

use triple_arena::{Part, PtrCore, PtrInxCore};
use triple_arena_chain::IndexLink;
use triple_arena_ptr::OptionalInx;

/// An item with its place in the tree: the indexes of the parent, of the left and of the right
/// child, each of the type `O`, an [`OptionalInx`], and the rank.
#[derive(Clone, Drop)]
pub struct IndexNode<O, T> {
    // What a repair reads stands together, and so does what a search reads.
    pub(crate) p_back: O,
    /// The rank: 1 for a node without children.
    pub rank: u8,
    pub(crate) p_tree0: O,
    pub(crate) p_tree1: O,
    /// The item.
    pub t: T,
}

/// An item with its place in the tree, by the indexes of a pointer type.
pub type SimpleOrdArenaNode<P, T> = IndexNode<
    OptionalInx<<P as PtrCore>::Inx, <<P as PtrCore>::Inx as PtrInxCore>::Word>,
    T,
>;

impl<I: PtrInxCore<Word = W>, W: Copy, T> IndexNode<OptionalInx<I, W>, T> {
    // A node without children, under this parent if there is one.
    pub(crate) fn under(parent: Option<I>, t: T) -> Self
        ensures { result
            ≡ record {
              p_back = option_map I.number parent;
              rank = 1;
              p_tree0 = None;
              p_tree1 = None;
              t = t;
            } }
    {
        IndexNode {
            p_back: OptionalInx::of(parent),
            rank: 1,
            p_tree0: OptionalInx::none(),
            p_tree1: OptionalInx::none(),
            t,
        }
    }

    /// The index of the parent.
    pub fn p_back(&self) -> Option<I>
        ensures { option_map I.number result ≡ self.now.p_back }
    {
        self.p_back.get()
    }

    /// The index of the left child.
    pub fn p_tree0(&self) -> Option<I>
        ensures { option_map I.number result ≡ self.now.p_tree0 }
    {
        self.p_tree0.get()
    }

    /// The index of the right child.
    pub fn p_tree1(&self) -> Option<I>
        ensures { option_map I.number result ≡ self.now.p_tree1 }
    {
        self.p_tree1.get()
    }
}

/// The marker of the item of a link's node.
pub struct NodeItem;

impl<O, T> Part<IndexLink<O, IndexNode<O, T>>, T> for NodeItem {
    ghost part = { λ link. link.t.t };

    fn part_of(link: &IndexLink<O, IndexNode<O, T>>) -> &T {
        &link.t.t
    }
}
