//! Chains.
ghost use Rattle.std.specs.Prelude.{◌≡◌};

use super::Counted;
use crate::tests::calls::link;
use std::cell::Cell;
use std::process::Abort;
use triple_arena::{ArenaSlot, ArenaTrait, NonZeroInxArray, P0, PtrCore};
use triple_arena_chain::{ChainArena, ChainSlots, LinkInsertKind, LinkNoGen};

type Three<T> = NonZeroInxArray<ArenaSlot<P0, LinkNoGen<P0, T>>, 3>;

// A list of three values that are counted. It tells the pointer to the one that was stored first.
fn three_counted<'a, P: PtrCore, S: ChainSlots<P, Counted<'a>>>(
    rt: &impl Abort,
    chains: &mut ChainArena<P, Counted<'a>, S>,
    dropped: &'a Cell<u64>,
) -> P {
    let value = 1;
    let a = link(
        rt,
        chains,
        LinkInsertKind::Disconnected,
        Counted { value, dropped },
    );
    let value = 20;
    link(
        rt,
        chains,
        LinkInsertKind::NextTo(a),
        Counted { value, dropped },
    );
    let value = 300;
    link(
        rt,
        chains,
        LinkInsertKind::PrevTo(a),
        Counted { value, dropped },
    );
    a
}

fn lets_go<'a, P: PtrCore + PartialEq, S: ChainSlots<P, Counted<'a>>>(
    rt: &impl Abort,
    alloc: S::Alloc,
    dropped: &'a Cell<u64>,
) {
    let mut chains = ChainArena::<P, Counted<'a>, S>::new(alloc);
    let a = three_counted(rt, &mut chains, dropped);
    let mut entries = chains.into_iter();
    match entries.next() {
        Some((p, value)) => {
            assert!(rt; p == a);
            assert!(rt; dropped.get() == 0);
            drop(value);
        }
        None => panic!(rt; "a link is left out"),
    }
    assert!(rt; dropped.get() == 1);
    drop(entries);
    assert!(rt; dropped.get() == 321);
}

// An arena by value that is let go after its first entry drops each value that is left, once.
#[test]
fn an_arena_by_value_let_go(rt: HostRuntime) {
    let dropped = Cell::new(0);
    lets_go::<P0, Three<Counted<'_>>>(&rt, (), &dropped);
}
