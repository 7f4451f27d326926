//! What an arena asks of its stack.
use crate::{ArenaSlot, DirectSlot};
use triple_arena_ptr::PtrCore;
use triple_arena_stack::NonZeroInxGenericStack;

/// A stack of the slots of an `Arena`: the bound on a stack in one word. Every such stack has it.
pub trait ArenaSlots<P: PtrCore, T: Drop>: NonZeroInxGenericStack<Item = ArenaSlot<P, T>> + Drop {}

impl<P: PtrCore, T: Drop, S: NonZeroInxGenericStack<Item = ArenaSlot<P, T>> + Drop> ArenaSlots<P, T>
    for S {}

/// A stack of the slots of a `DirectArena`: the bound on a stack in one word. Every such stack has
/// it.
pub trait DirectSlots<P: PtrCore, T: Drop>: NonZeroInxGenericStack<Item = DirectSlot<P, T>>
    + Drop {}

impl<P: PtrCore, T: Drop, S: NonZeroInxGenericStack<Item = DirectSlot<P, T>> + Drop> DirectSlots<
    P,
    T,
> for S {}
