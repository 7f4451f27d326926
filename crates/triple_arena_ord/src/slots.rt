//! What an ordered arena asks of its stack.
use crate::SimpleOrdArenaNode;
use triple_arena::{ArenaSlot, NonZeroInxGenericStack, PtrCore};
use triple_arena_chain::LinkNoGen;

/// A stack of the slots of a `SimpleOrdArena`: the bound on a stack in one word. Every such stack
/// has it.
pub trait OrdSlots<P: PtrCore, T: Drop>: NonZeroInxGenericStack<
    Item = ArenaSlot<P, LinkNoGen<P, SimpleOrdArenaNode<P, T>>>,
>
    + Drop {}

impl<
    P: PtrCore,
    T: Drop,
    S: NonZeroInxGenericStack<Item = ArenaSlot<P, LinkNoGen<P, SimpleOrdArenaNode<P, T>>>> + Drop,
> OrdSlots<P, T> for S {}
