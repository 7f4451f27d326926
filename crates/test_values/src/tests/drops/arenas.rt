//! Arenas.
ghost use Rattle.std.specs.Prelude.{◌≡◌};

use super::Counted;
use crate::tests::calls::store;
use std::alloc::Global;
use std::cell::Cell;
use std::process::Abort;
use triple_arena::{Arena, ArenaSlot, ArenaSlots, ArenaTrait, NonZeroInxVec, P0, PtrCore};

type Heap<T> = NonZeroInxVec<ArenaSlot<P0, T>, Global>;

// Stores three values that are counted.
fn three_counted<'a, P: PtrCore, S: ArenaSlots<P, Counted<'a>>>(
    rt: &impl Abort,
    arena: &mut Arena<P, Counted<'a>, S>,
    dropped: &'a Cell<u64>,
) {
    store(rt, arena, Counted { value: 1, dropped });
    store(rt, arena, Counted { value: 20, dropped });
    store(
        rt,
        arena,
        Counted {
            value: 300,
            dropped,
        },
    );
}

fn lets_go<'a, P: PtrCore, S: ArenaSlots<P, Counted<'a>>>(
    rt: &impl Abort,
    alloc: S::Alloc,
    dropped: &'a Cell<u64>,
) {
    let mut arena = Arena::<P, Counted<'a>, S>::new(alloc);
    three_counted(rt, &mut arena, dropped);
    let mut entries = arena.into_iter();
    let first = entries.next();
    assert!(rt; first.is_some());
    assert!(rt; dropped.get() == 0);
    drop(entries);
    assert!(rt; dropped.get() == 320);
    drop(first);
    assert!(rt; dropped.get() == 321);
}

// An iterator over an arena by value that is let go after its first entry drops the others, each
// once.
#[test]
fn an_arena_by_value_let_go_half_way(rt: HostRuntime) {
    let dropped = Cell::new(0);
    lets_go::<P0, Heap<Counted<'_>>>(&rt, rt.alloc(), &dropped);
}

fn drops<'a, P: PtrCore, S: ArenaSlots<P, Counted<'a>>>(
    rt: &impl Abort,
    alloc: S::Alloc,
    dropped: &'a Cell<u64>,
) {
    let mut arena = Arena::<P, Counted<'a>, S>::new(alloc);
    three_counted(rt, &mut arena, dropped);
    drop(arena.drain());
    assert!(rt; dropped.get() == 321);
    three_counted(rt, &mut arena, dropped);
    arena.clear();
    assert!(rt; dropped.get() == 642);
    three_counted(rt, &mut arena, dropped);
    drop(arena);
    assert!(rt; dropped.get() == 963);
}

// Each value is dropped once: by a drain that is let go, by a clearing, and with its arena.
#[test]
fn values_are_dropped_once(rt: HostRuntime) {
    let dropped = Cell::new(0);
    drops::<P0, Heap<Counted<'_>>>(&rt, rt.alloc(), &dropped);
}
