//! Calls that many tests make. They say nothing of what they do, so that a test pays little for
//! each.
use std::process::Abort;
use triple_arena::{Arena, ArenaInsertTrait, ArenaSlots, ArenaTrait, PtrCore};
use triple_arena_chain::{ChainArena, ChainArenaTrait, ChainSlots, LinkInsertKind};
use triple_arena_ord::{OrdSlots, SimpleOrdArena, SimpleOrdItem};

/// Stores a value, for which there is room.
pub fn store<P: PtrCore, T: Drop, S: ArenaSlots<P, T>>(
    rt: &impl Abort,
    arena: &mut Arena<P, T, S>,
    value: T,
) -> P {
    match arena.insert_reallocating(value) {
        Ok(p) => p,
        Err(_) => panic!(rt; "a value is not stored"),
    }
}

/// Removes an entry that is there.
pub fn remove<P: PtrCore, T: Drop, S: ArenaSlots<P, T>>(
    rt: &impl Abort,
    arena: &mut Arena<P, T, S>,
    p: P,
) {
    assert!(rt; arena.remove(p).is_success());
}

/// Stores a value in a link, for which there is room, where the kind says.
pub fn link<P: PtrCore, T: Drop, S: ChainSlots<P, T>>(
    rt: &impl Abort,
    chains: &mut ChainArena<P, T, S>,
    kind: LinkInsertKind<P>,
    value: T,
) -> P {
    match chains.insert_reallocating(kind, value) {
        Ok(p) => p,
        Err(_) => panic!(rt; "a link is not made"),
    }
}

/// Stores an item, for which there is room, and tells the one that it replaces.
pub fn put_in<P: PtrCore, T: SimpleOrdItem + Drop, S: OrdSlots<P, T>>(
    rt: &impl Abort,
    arena: &mut SimpleOrdArena<P, T, S>,
    item: T,
) -> (P, Option<T>) {
    match arena.insert(item) {
        Ok(made) => made,
        Err(_) => panic!(rt; "an item is not stored"),
    }
}
