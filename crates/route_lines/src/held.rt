//! The state that a store holds, for proofs alone.
ghost use Rattle.std.specs.Borrow.{ftrue};
ghost use Rattle.std.specs.Prelude.{◌≡◌};
ghost use Rattle.route_lines.specs.State.{State, nothing};
ghost use Rattle.route_lines.specs.Changes.{changed};

use crate::change::Change;
use std::marker::Model;

/// The state that a store holds, which proofs alone read. It takes no bytes: the invariant of the
/// store ties it to what the store keeps.
#[derive(Drop)]
pub struct Held {
    ghost state: { State },
}

impl Model for Held {
    ghost also_owns = { λ _. ftrue };
}

impl Held {
    /// The state of a store with no room.
    pub fn new() -> Self
        ensures { result.state ≡ nothing }
    {
        Self {}
    }

    /// The state after a change.
    pub fn changed(&self, change: &Change) -> Self
        ensures { result.state ≡ changed self.now.state change.now }
    {
        Self {}
    }
}
