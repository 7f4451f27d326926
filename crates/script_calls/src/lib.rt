//! The calls of every arena, as the lines of a script name them. The programs `script_arena` and
//! `script_chain` make them at arenas of their own, and so do those of the ordered arenas.
#![tactic(auto)]

mod changes;
mod limiting;
mod reads;

pub use changes::{change, change_numbers};
pub use limiting::{Limited, Limiting, Unlimited};
pub use reads::read;
