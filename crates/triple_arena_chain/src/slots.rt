//! What a chain arena asks of its stack.
use crate::LinkNoGen;
use triple_arena::{ArenaSlot, NonZeroInxGenericStack, PtrCore};

/// A stack of the slots of a `ChainArena`: the bound on a stack in one word. Every such stack has
/// it.
pub trait ChainSlots<P: PtrCore, T: Drop>: NonZeroInxGenericStack<
    Item = ArenaSlot<P, LinkNoGen<P, T>>,
>
    + Drop {}

impl<
    P: PtrCore,
    T: Drop,
    S: NonZeroInxGenericStack<Item = ArenaSlot<P, LinkNoGen<P, T>>> + Drop,
> ChainSlots<P, T> for S {}
