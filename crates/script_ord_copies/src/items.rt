//! The arenas and their items.
use triple_arena::{Arena, ArenaSlot, ArenaSlots, PtrCore};
use triple_arena_chain::{ChainArena, ChainSlots, LinkNoGen};
use triple_arena_ord::{OrdPair, OrdSlots, SimpleOrdArena, SimpleOrdArenaNode};

/// A value under a key.
pub type Item = OrdPair<u64, u64>;

/// A slot of an arena of them.
pub type Slot<P> = ArenaSlot<P, LinkNoGen<P, SimpleOrdArenaNode<P, Item>>>;

/// An arena of them.
#[derive(Drop)]
pub struct Pairs<P: PtrCore, S: OrdSlots<P, Item>> {
    pub arena: SimpleOrdArena<P, Item, S>,
}

/// A chain arena of numbers.
#[derive(Drop)]
pub struct Links<P: PtrCore, C: ChainSlots<P, u64>> {
    pub chains: ChainArena<P, u64, C>,
}

/// An arena of numbers.
#[derive(Drop)]
pub struct Values<P: PtrCore, V: ArenaSlots<P, u64>> {
    pub arena: Arena<P, u64, V>,
}
