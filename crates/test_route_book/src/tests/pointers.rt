//! Where items stand in the arenas that are borrowed from a store, and how a ticket is found among
//! many.
//!
//! The store is borrowed by what asks it, and has one owner, whose proof pays for its end.
use super::rows::store;
use route_book::{BookBacking, Counts, OnHeap, Ref, RouteBook, Word};
use std::alloc::Allocator;
use std::fmt::Debug;
use std::process::Abort;
use std::test::Fail;
use triple_arena::ArenaTrait;
use triple_arena_ptr::{P0, Ptr, PtrCore};

// Two places with a stop at each, of which the first place ends.
fn ends_a_place<P: PtrCore, B: BookBacking<P>>(
    rt: &impl Abort,
    book: &mut RouteBook<P, B>,
    word: &Word,
) {
    let mut counts = Counts::new();
    assert!(rt; book.place(1, word.copied()) == Ok(1));
    assert!(rt; book.place(2, word.copied()) == Ok(2));
    assert!(rt; book.start(1) == Ok(3));
    assert!(rt; book.remove_counted(1, &mut counts) == Ok(()));
    assert!(rt; counts.looks.count() == 0);
}

// The pointer that the first stop holds, as a text: it finds nothing.
fn holds_a_dead_reference<P: PtrCore + Debug, B: BookBacking<P>>(
    rt: &(impl Abort + Alloc),
    book: &RouteBook<P, B>,
) {
    for stop in book.stops_arena().vals() {
        match stop.place() {
            Ref::To(p) => {
                shows(rt, &p, "P0[1](2)");
                assert!(rt; !book.places_arena().contains(p));
            }
            Ref::Gone => panic!(rt; "the reference is gone"),
        }
    }
}

// A pack moves the second place to the first index.
fn packs_to_the_first_index<P: PtrCore + Debug, B: BookBacking<P>>(
    rt: &(impl Abort + Alloc),
    book: &mut RouteBook<P, B>,
) {
    book.pack();
    let Some(p) = book.places_arena().find_first_inx_ptr() else {
        panic!(rt; "no place is left");
    };
    shows(rt, &p, "P0[1](2)");
    match book.places_arena().get(p) {
        Some(place) => assert!(rt; place.ticket() == 2),
        None => panic!(rt; "the first place is not there"),
    }
}

// What `{:?}` shows of a pointer.
fn shows<P: Debug>(rt: &(impl Abort + Alloc), p: &P, text: &str) {
    match format!(in rt.alloc(); "{p:?}") {
        Ok(shown) => assert!(rt; shown.as_str() == text),
        Err(_) => panic!(rt; "no memory for a text"),
    }
}

// A thousand places, of which those with odd tickets go.
fn leaves_every_second_place<P: PtrCore, B: BookBacking<P>>(
    rt: &impl Abort,
    book: &mut RouteBook<P, B>,
    word: &Word,
) {
    for key in 0..1000u64 {
        assert!(rt; book.place(key, word.copied()) == Ok(key + 1));
    }
    for half in 0..500u64 {
        assert!(rt; book.remove(2 * half + 1) == Ok(()));
    }
}

// Each of the others is found by at most sixteen comparisons.
fn finds_within_the_bound<P: PtrCore, B: BookBacking<P>>(rt: &impl Abort, book: &RouteBook<P, B>) {
    for half in 1..501u64 {
        let mut counts = Counts::new();
        assert!(rt; book.show_counted(2 * half, &mut counts).is_ok());
        assert!(rt; counts.first.count() <= 16);
    }
}

// What a new store of few places shows.
fn moves<P: Ptr, A: Allocator + Copy>(
    rt: &(impl Abort + Alloc),
    alloc: A,
    word: &Word,
) -> Result<(), Fail> {
    let mut book = store::<P, _>(&OnHeap(alloc), [4, 4, 2], 0)?;
    ends_a_place(rt, &mut book, word);
    holds_a_dead_reference(rt, &book);
    packs_to_the_first_index(rt, &mut book);
    Ok(())
}

// What one of many shows.
fn searches<P: PtrCore, A: Allocator + Copy>(
    rt: &impl Abort,
    alloc: A,
    word: &Word,
) -> Result<(), Fail> {
    let mut book = store::<P, _>(&OnHeap(alloc), [1000, 0, 0], 0)?;
    leaves_every_second_place(rt, &mut book, word);
    finds_within_the_bound(rt, &book);
    Ok(())
}

#[test]
fn items_are_where_their_tickets_lead(rt: HostRuntime) -> Result<(), Fail> {
    let word = Word::new(b"a").ok_or("a word")?;
    moves::<P0, _>(&rt, rt.alloc(), &word)?;
    searches::<P0, _>(&rt, rt.alloc(), &word)
}
