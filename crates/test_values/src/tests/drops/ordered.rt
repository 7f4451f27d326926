//! Ordered arenas.
ghost use Rattle.std.specs.Prelude.{◌≡◌};

use super::Counted;
use crate::tests::calls::put_in;
use std::cell::Cell;
use std::process::Abort;
use triple_arena::{ArenaSlot, ArenaTrait, InvalidationOption, NonZeroInxArray, P0, PtrCore};
use triple_arena_chain::LinkNoGen;
use triple_arena_ord::{OrdPair, OrdSlots, SimpleOrdArena, SimpleOrdArenaNode};

type Few<T> = NonZeroInxArray<ArenaSlot<P0, LinkNoGen<P0, SimpleOrdArenaNode<P0, T>>>, 7>;

type Counting<'a> = OrdPair<u64, Counted<'a>>;

// Stores three values that are counted, by keys that fall.
fn three_counted<'a, P: PtrCore, S: OrdSlots<P, Counting<'a>>>(
    rt: &impl Abort,
    arena: &mut SimpleOrdArena<P, Counting<'a>, S>,
    dropped: &'a Cell<u64>,
) {
    for (key, value) in [(30, 300), (20, 20), (10, 1)] {
        put_in(rt, arena, OrdPair::new(key, Counted { value, dropped }));
    }
}

fn lets_go<'a, P: PtrCore, S: OrdSlots<P, Counting<'a>>>(
    rt: &impl Abort,
    alloc: S::Alloc,
    dropped: &'a Cell<u64>,
) {
    let mut arena = SimpleOrdArena::<P, Counting<'a>, S>::new(alloc);
    three_counted(rt, &mut arena, dropped);
    let mut entries = arena.into_iter();
    let first = entries.next();
    match &first {
        Some((_, item)) => assert!(rt; *item.k() == 10),
        None => panic!(rt; "an entry is not given"),
    }
    assert!(rt; dropped.get() == 0);
    drop(entries);
    assert!(rt; dropped.get() == 320);
    drop(first);
    assert!(rt; dropped.get() == 321);
}

// An arena by value gives its entries in their order. Let go after the first one, it drops the
// others, each once.
#[test]
fn an_arena_by_value_let_go_half_way(rt: HostRuntime) {
    let dropped = Cell::new(0);
    lets_go::<P0, Few<Counting<'_>>>(&rt, (), &dropped);
}

// An item that is replaced is given back.
fn replaces<'a, P: PtrCore, S: OrdSlots<P, Counting<'a>>>(
    rt: &impl Abort,
    arena: &mut SimpleOrdArena<P, Counting<'a>, S>,
    dropped: &'a Cell<u64>,
) {
    let value = 4000;
    let (_, replaced) = put_in(rt, arena, OrdPair::new(20, Counted { value, dropped }));
    assert!(rt; replaced.is_some());
    assert!(rt; dropped.get() == 0);
    drop(replaced);
    assert!(rt; dropped.get() == 20);
}

// The first one of a drain.
fn drains_first<'a, P: PtrCore, S: OrdSlots<P, Counting<'a>>>(
    rt: &impl Abort,
    arena: &mut SimpleOrdArena<P, Counting<'a>, S>,
    dropped: &'a Cell<u64>,
) {
    let mut drain = arena.drain_ordered();
    match drain.next() {
        Some(InvalidationOption::Success((_, item))) => assert!(rt; *item.k() == 10),
        _ => panic!(rt; "an entry is not given"),
    }
    assert!(rt; dropped.get() == 21);
}

fn drops<'a, P: PtrCore, S: OrdSlots<P, Counting<'a>>>(
    rt: &impl Abort,
    alloc: S::Alloc,
    dropped: &'a Cell<u64>,
) {
    let mut arena = SimpleOrdArena::<P, Counting<'a>, S>::new(alloc);
    three_counted(rt, &mut arena, dropped);
    replaces(rt, &mut arena, dropped);
    drains_first(rt, &mut arena, dropped);
    assert!(rt; dropped.get() == 4321);
}

// A drain that is let go drops what is left, and an item that is replaced is given back.
#[test]
fn each_item_is_dropped_once(rt: HostRuntime) {
    let dropped = Cell::new(0);
    drops::<P0, Few<Counting<'_>>>(&rt, (), &dropped);
}
