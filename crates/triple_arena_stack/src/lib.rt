//! Stacks whose items have the indexes from 1 on, for arenas to keep their slots in.
//!
//! Four stacks share one trait. `NonZeroInxVec` grows without a limit, `NonZeroInxLimitedVec` up
//! to a limit that can be set, and `NonZeroInxBoxedSlice` keeps the capacity that it is made with;
//! these three take their memory from an allocator that is handed in. `NonZeroInxArray` has its
//! items in the value itself, and takes no memory.
//!
//! Contracts see a stack as the list of its items and as its room: the slots that are reserved, and
//! the limit. The capacity is the reserved slots, as far as the limit lets them be used.
#![tactic(auto)]

mod array;
mod boxed_slice;
mod disjoint;
mod entry;
mod heap;
mod limited;
mod set_max_capacity;
mod stack;
mod vec;

pub use array::NonZeroInxArray;
pub use boxed_slice::NonZeroInxBoxedSlice;
pub use disjoint::get_disjoint_mut;
pub use entry::{
    NonZeroInxGenericStackEntries, NonZeroInxGenericStackPushEntry,
    NonZeroInxGenericStackPushEntryTrait,
};
pub use limited::NonZeroInxLimitedVec;
pub use set_max_capacity::{NonZeroInxLimitedStack, SetMaxCapacity};
pub use stack::NonZeroInxGenericStack;
pub use vec::NonZeroInxVec;
