//! Worked rows of arenas whose values are no numbers.
//!
//! A test names a pointer type and a stack. What it calls is generic in both, which is proved in
//! far less time.

use crate::tests::calls::{put_in, store};
use crate::tests::values::shows;
use std::alloc::{Allocator, Global};
use std::process::Abort;
use std::test::Fail;
use triple_arena::{
    Arena, ArenaSlot, ArenaTrait, DirectArena, DirectSlot, InvalidationResult,
    NonZeroInxGenericStack, NonZeroInxVec, P0, Ptr, PtrGenCore,
};
use triple_arena_chain::{LinkCloneSource, LinkNoGen};
use triple_arena_ord::{OrdPair, SimpleOrdArena, SimpleOrdArenaNode};

// Two words; the pointer of the first one ends with it.
fn words<P: Ptr, S: NonZeroInxGenericStack<Item = ArenaSlot<P, String>> + Drop>(
    rt: &(impl Abort + Alloc),
    alloc: S::Alloc,
    test: String,
    hello: String,
) {
    let mut arena = Arena::<P, String, S>::new(alloc);
    let first = store(rt, &mut arena, test);
    store(rt, &mut arena, hello);
    shows(rt, &arena, "{P0[1](2): \"test\", P0[2](2): \"hello\"}");
    match arena.remove(first) {
        InvalidationResult::Success(taken) => assert!(rt; taken.as_str() == "test"),
        _ => panic!(rt; "a word is not there"),
    }
    assert!(rt; arena.get(first).is_none());
}

#[test]
fn an_arena_of_strings(rt: HostRuntime) -> Result<(), Fail> {
    let (test, hello) = (
        "test".to_string(rt.alloc())?,
        "hello".to_string(rt.alloc())?,
    );
    words::<P0, NonZeroInxVec<ArenaSlot<P0, String>, Global>>(&rt, rt.alloc(), test, hello);
    Ok(())
}

type Item = OrdPair<u64, u64>;

type Node<P> = ArenaSlot<P, LinkNoGen<P, SimpleOrdArenaNode<P, Item>>>;

// Entries of the keys 3, 1, 4, 2, of which 4 goes, and 5.
fn list<P: Ptr, S: NonZeroInxGenericStack<Item = Node<P>> + Drop>(
    rt: &impl Abort,
    alloc: S::Alloc,
) -> SimpleOrdArena<P, Item, S> {
    let mut arena = SimpleOrdArena::<P, Item, S>::new(alloc);
    for key in [3, 1, 4, 2] {
        put_in(rt, &mut arena, OrdPair::new(key, key));
    }
    if let Some(p) = arena.find_key(&4) {
        drop(arena.remove(p));
    }
    put_in(rt, &mut arena, OrdPair::new(5, 5));
    arena
}

// The list moves into a new arena, and a direct arena that has its pointers learns the new one of
// each.
fn renames<
    P: Ptr,
    S: NonZeroInxGenericStack<Item = Node<P>> + Drop,
    N: NonZeroInxGenericStack<Item = DirectSlot<P, P>> + Drop,
>(
    rt: &(impl Abort + Alloc),
    (new, of_names): (S::Alloc, N::Alloc),
    old: SimpleOrdArena<P, Item, S>,
) {
    let mut old = old;
    let mut names = DirectArena::<P, P, N>::new(of_names);
    assert!(rt; old.clone_to_arena(&mut names, |p, _| Ok(p)).is_ok());
    let mut moved = SimpleOrdArena::<P, Item, S>::new(new);
    let generation = P::Gen::two().generational_inc().0.generational_inc().0;
    let ended = moved.transfer_canonical_reallocating(generation, &mut old, |from, item, to| {
        if let Some(name) = names.get_mut(from) {
            *name = to;
        }
        item.allow()
    });
    assert!(rt; ended.is_ok());
    let text = "{P0[1](2): P0[3](4), P0[2](2): P0[1](4), P0[3](3): P0[4](4), P0[4](2): P0[2](4)}";
    shows(rt, &names, text);
}

// Over vectors, which are vectors to their caller alone.
fn renames_on_heap<P: Ptr, A: Allocator + Copy>(rt: &(impl Abort + Alloc), alloc: A) {
    let old = list::<P, NonZeroInxVec<Node<P>, A>>(rt, alloc);
    renames::<P, NonZeroInxVec<Node<P>, A>, NonZeroInxVec<DirectSlot<P, P>, A>>(
        rt,
        (alloc, alloc),
        old,
    );
}

#[test]
fn a_transfer_names_new_pointers_in_a_direct_arena(rt: HostRuntime) {
    renames_on_heap::<P0, Global>(&rt, rt.alloc());
}
