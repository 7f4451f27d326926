//! What a node knows of its neighbors in the tree.
ghost use Rattle.std.specs.Prelude.{◌≡◌, ◌≢◌, Some};
ghost use Rattle.std.specs.Option.{option_map};
ghost use Rattle.rank_tree.specs.Store.{child_of, with_child};
ghost use Rattle.rank_tree.specs.Named.{named};

use crate::Side;
use triple_arena_ptr::PtrInxCore;

/// A node without its item: its parent and its children, by indexes of the type `I`, and its rank.
#[derive(Clone, Copy, Drop)]
pub struct NodeLinks<I> {
    /// The index of the parent.
    pub parent: Option<I>,
    /// The index of the left child.
    pub left: Option<I>,
    /// The index of the right child.
    pub right: Option<I>,
    /// The rank.
    pub rank: u8,
}

impl<I: PtrInxCore> NodeLinks<I> {
    /// The child on a side.
    pub fn child(self, side: Side) -> Option<I>
        ensures { option_map I.number result ≡ child_of side (named I.number self) }
    {
        match side {
            Side::Left => self.left,
            Side::Right => self.right,
        }
    }

    /// These links, with another child on a side.
    pub fn with_child(self, side: Side, child: Option<I>) -> NodeLinks<I>
        ensures { named I.number result ≡ with_child side (option_map I.number child)
            (named I.number self) }
    {
        match side {
            Side::Left => NodeLinks {
                left: child,
                ..self
            },
            Side::Right => NodeLinks {
                right: child,
                ..self
            },
        }
    }
}

/// The side on which a node has this child: the left one if it is the left child, and else the
/// right one.
pub fn side_of<I: PtrInxCore>(links: NodeLinks<I>, child: I) -> Side
    ensures left { option_map I.number links.left ≡ Some (I.number child) → result ≡ Side.Left }
    ensures right { option_map I.number links.left ≢ Some (I.number child) → result ≡ Side.Right }
{
    match links.left {
        Some(i) => { if i == child { Side::Left } else { Side::Right } }
        None => Side::Right,
    }
}
