//! Callers that take an arena by value, one of each kind: by a `for`, also one that is left
//! half-way, by one `next`, and by `from_arena`. Each is proved for any pointer and stack, and one
//! on the heap, so such callers can be proved, and what they learn of the items is said: which they
//! are, and in which order.
#![tactic(auto)]

pub mod arenas;
pub mod chains;
pub mod direct;
pub mod made;
pub mod ordered;
