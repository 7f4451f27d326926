//! What a store promises, said once more of small functions over its public calls, so that wrong
//! bodies can be tried here, where a check takes seconds.
//!
//! An edit of `must-fail` puts another body into a function, made of other calls, and must be
//! refused. Wrong bodies that lie inside the library stand in its own `wrong-bodies.txt`.
#![tactic(auto)]

mod ended;
mod moves;
mod packs;
mod places;

pub use ended::{remove, remove_and_show};
pub use moves::into_room;
pub use packs::{pack_and_show, pack_counted};
pub use places::place_near_counted;
