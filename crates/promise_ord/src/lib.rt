//! What the calls of an ordered arena promise, said once more of functions whose body is the call
//! alone, so that wrong bodies can be tried here, where a check takes seconds.
//!
//! Each function is proved by the contract of the call that is its body. An edit of `must-fail`
//! puts another body there, made of other calls, and must be refused. Wrong bodies that lie inside
//! the library stand in its own `wrong-bodies`.
#![tactic(auto)]

mod copies;
mod insertions;
mod layout;
mod removals;
mod searches;

pub use copies::clone_from;
pub use insertions::{
    entry_insert_within_capacity, get_or_insert, insert_inx_manual,
    insert_inx_manual_within_capacity, insert_within_capacity,
};
pub use layout::compress_canonical;
pub use removals::{pop_first, remove, the_first_taken_is_the_least};
pub use searches::{
    bounds_of_small_arenas, find_key_counted, find_key_linear_counted, lower_bound,
};
