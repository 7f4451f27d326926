//! What calls on a store took.
ghost use Rattle.std.specs.Prelude.{◌≡◌};

use triple_arena_ptr::Probes;

/// What calls on a store took: the comparisons of their searches, and the references that their
/// sweeps looked at.
#[derive(Drop)]
pub struct Counts {
    /// Comparisons with a key, in searches by key.
    pub key: Probes,
    /// Comparisons with a ticket, in searches for a line's first ticket.
    pub first: Probes,
    /// Comparisons with a ticket, in searches for a line's second ticket.
    pub second: Probes,
    /// References that a sweep looked at.
    pub looks: Probes,
}

impl Counts {
    /// Nothing counted yet.
    pub fn new() -> Self
        ensures key { result.key ≡ 0 }
        ensures first { result.first ≡ 0 }
        ensures second { result.second ≡ 0 }
        ensures looks { result.looks ≡ 0 }
    {
        Counts {
            key: Probes::new(),
            first: Probes::new(),
            second: Probes::new(),
            looks: Probes::new(),
        }
    }
}
