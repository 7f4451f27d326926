//! What the chains' calls promise, said once more of functions whose body is the call alone, so
//! that wrong bodies can be tried here. An edit of `must-fail` puts one into a function, and must
//! be refused.
#![tactic(auto)]

mod insertions;
mod links;
mod moves;
mod removals;
mod walks;

pub use insertions::{insert, insert_reallocating, insert_within_capacity, meets};
pub use links::{are_neighbors, break_next, break_prev, connect, exchange_next, get_link};
pub use moves::{clone_from, clone_from_with, compress_canonical, compress_with, exchange_arena};
pub use removals::{remove_inx_link_no_gen, remove_link_no_gen};
pub use walks::{advance, iter_chain};
