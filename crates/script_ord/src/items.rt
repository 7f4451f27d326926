//! The items of a script's arenas.
use triple_arena::{ArenaSlot, PtrCore};
use triple_arena_chain::LinkNoGen;
use triple_arena_ord::{OrdPair, OrdSlots, SimpleOrdArena, SimpleOrdArenaNode};

/// A value under a key.
pub type Item = OrdPair<u64, u64>;

/// A slot of an arena of them.
pub type Slot<P> = ArenaSlot<P, LinkNoGen<P, SimpleOrdArenaNode<P, Item>>>;

/// An arena of them.
#[derive(Drop)]
pub struct Pairs<P: PtrCore, S: OrdSlots<P, Item>> {
    pub arena: SimpleOrdArena<P, Item, S>,
}
