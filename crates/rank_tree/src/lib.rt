//! A rank balanced binary tree over numbered nodes: definitions, laws, the calls that bring a node
//! in or out, and the greatest number of comparisons that a search makes. It knows no arena: the
//! nodes lie in a type that has the trait `NodeStore`. After "Rank-Balanced Trees" by Haeupler, Sen
//! and Tarjan, with the rule that each node's rank is above each child's by 1 or 2.
#![tactic(auto)]

// The clause `no_more` asks nothing. It stands beside a `requires` that callers answer by hand,
// which alone takes long to state.

mod around;
mod edges;
mod insertion_repair;
pub mod laws;
mod node_links;
mod node_store;
mod removal_repair;
mod side;
mod turn;

pub use edges::replace;
pub use insertion_repair::bring_in;
pub use node_links::{NodeLinks, side_of};
pub use node_store::{NodeStore, reparent};
pub use removal_repair::bring_out;
pub use side::Side;
