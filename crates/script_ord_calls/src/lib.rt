//! The calls of the scripts of the ordered arenas: what a line asks, and what is told of it. It
//! knows no ordered arena.
//!
//! The programs make the calls at arenas of their own, each inside a struct that has these traits.
//! The traits have no clauses, and so what is generic in them costs little to prove. A function
//! that names an ordered arena carries all that its stack, its pointers and its keys promise.
#![tactic(auto)]

mod agreement;
mod calls;
mod changing;
mod copied;
mod copies;
mod entries;
mod finds;
mod growing;
mod insertions;
mod lists;
mod nodes;
mod places;
mod players;
mod renaming;
mod tree;
mod walks;
mod work;

pub use calls::{call_any, call_copied, call_list, call_tree};
pub use changing::Writes;
pub use copied::Copied;
pub use copies::{Copies, Gives, Limits, play_copies, play_limited_copies};
pub use entries::PutsByEntry;
pub use finds::{Finds, Found};
pub use growing::Takes;
pub use insertions::{KnownPlace, PutsIn, tell};
pub use lists::TellsOfList;
pub use nodes::{Node, ShowsNodes};
pub use players::{Compare, CountingPlayer, Player, play_beside, play_counted};
pub use renaming::{Renames, play_renaming};
pub use tree::TellsOfTree;
pub use walks::{GoesAlong, answer_each, remove_along, walk};
pub use work::{Counting, Limit, Since};
