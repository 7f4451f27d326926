//! What a caller learns of the arenas by their contracts alone. The crate says no more than these
//! contracts do: it is here so that a change that takes a fact away from callers is refused.
//!
//! Most functions have a call as body and the facts, one a clause, that the call's record carries,
//! in code that is generic in the arena; some at `Arena` and `DirectArena` have what its exact
//! state carries. The others do what a crate above would: a stack of nodes that are linked by
//! pointers, values that change by a compression, one by one or two at once, sums and searches by
//! iterators, a mirror of an arena, an arena that is used again.
#![tactic(auto)]

mod copies;
mod direct;
mod each;
mod entries;
mod further;
mod generic;
mod mirrors;
mod moves;
mod nodes;
mod one_crate;
mod pointers;
mod reading;
mod recasts;
mod reuse;
mod rules;
mod searches;
mod sums;
mod values;
mod walks;
mod writes;
mod writing;

pub use each::raise_each;
pub use mirrors::reflect;
pub use nodes::{Node, Nodes};
pub use reuse::replace;
pub use searches::{find_equal, find_first};
pub use sums::{direct_sum_of, sum_of, sum_of_entries, told_by_iter};
pub use values::{map_values, raise, sum_up};
pub use writing::{
    add, add_on_heap, clear_first, double_each, double_each_directly, exchange, raise_each_entry,
    raise_first,
};
