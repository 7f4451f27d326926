//! The two sides of a node.
ghost use Rattle.std.specs.Prelude.{◌≡◌};
ghost use Rattle.rank_tree.specs.Store.{other_side};

/// A side of a node: that of the lesser entries, or that of the greater ones.
#[derive(Clone, Copy, Drop)]
pub enum Side {
    /// Before the node in the order.
    Left,
    /// After the node in the order.
    Right,
}

impl Side {
    /// The other side.
    pub fn other(self) -> Side
        ensures { result ≡ other_side self }
    {
        match self {
            Side::Left => Side::Right,
            Side::Right => Side::Left,
        }
    }
}
