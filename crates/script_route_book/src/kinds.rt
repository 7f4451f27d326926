//! The pointer types and backings over which the gate plays: the heap, and what differs from it in
//! kind. `checks/run scripts` plays over all, by another text of this file.
use crate::backings::Target;
use crate::books::{Book, Heap, missing, play_in};
use crate::moves::Moving;
use crate::runs::Cut;
use route_book::{OnArray, OnHeap, PtrCore};
use std::alloc::AllocError;
use test_kit::{Call, N3};
use triple_arena_ptr::{P0, P1, P5};

/// Pointers and a backing.
pub type Kind<'a> = (&'a str, &'a str);

const KINDS: [Kind<'static>; 8] = [
    ("P0", "heap"),
    ("P0", "array3"),
    ("P1", "heap"),
    ("P1", "array"),
    ("P1", "array3"),
    ("P5", "heap"),
    ("N3", "heap"),
    ("N3", "array"),
];

// What a store may become.
const MOVES: [(&str, &str, &str, &str); 9] = [
    ("P0", "heap", "P0", "heap"),
    ("P0", "heap", "P1", "heap"),
    ("P0", "heap", "P5", "heap"),
    ("P0", "heap", "N3", "heap"),
    ("P0", "heap", "P1", "array"),
    ("P0", "heap", "P1", "array3"),
    ("P0", "heap", "P1", "array4"),
    ("P1", "array", "P0", "heap"),
    ("N3", "heap", "P1", "array"),
];

/// Whether a section is played over a store of this kind.
pub fn has(kind: Kind<'_>) -> bool {
    for known in KINDS {
        if known.0 == kind.0 && known.1 == kind.1 {
            return true;
        }
    }
    false
}

/// Whether a store of the one kind may become one of the other.
pub fn moves(from: Kind<'_>, to: Kind<'_>) -> bool {
    for known in MOVES {
        if known.0 == from.0 && known.1 == from.1 && known.2 == to.0 && known.3 == to.1 {
            return true;
        }
    }
    false
}

/// Plays a section over a new store.
pub fn play_over(
    heap: Heap<'_>,
    book: &Book<'_>,
    lines: &str,
    cut: Cut,
    text: String,
) -> Result<String, AllocError> {
    match book.kind {
        ("P0", "heap") => play_in::<P0, _>(&OnHeap(heap), book, lines, cut, text),
        ("P1", "heap") => play_in::<P1, _>(&OnHeap(heap), book, lines, cut, text),
        ("P5", "heap") => play_in::<P5, _>(&OnHeap(heap), book, lines, cut, text),
        ("N3", "heap") => play_in::<N3, _>(&OnHeap(heap), book, lines, cut, text),
        ("P0", "array3") => play_in::<P0, _>(&OnArray::<3>, book, lines, cut, text),
        ("P1", "array3") => play_in::<P1, _>(&OnArray::<3>, book, lines, cut, text),
        ("P1", "array") => play_in::<P1, _>(&OnArray::<10>, book, lines, cut, text),
        ("N3", "array") => play_in::<N3, _>(&OnArray::<10>, book, lines, cut, text),
        _ => missing(book.kind, text),
    }
}

/// Plays a section over a new store, which becomes one of another kind.
pub fn play_and_move(
    heap: Heap<'_>,
    book: &Book<'_>,
    moving: &Moving<'_>,
    to: Kind<'_>,
    text: String,
) -> Result<String, AllocError> {
    let header = &book.header;
    match (book.kind, to) {
        (("P0", _), (_, "heap")) => from_heap_to_heap(heap, moving, to.0, header, text),
        (("P0", _), (_, "array3")) => from_heap::<P1, _>(heap, &OnArray::<3>, moving, header, text),
        (("P0", _), (_, "array4")) => from_heap::<P1, _>(heap, &OnArray::<4>, moving, header, text),
        (("P0", _), _) => from_heap::<P1, _>(heap, &OnArray::<10>, moving, header, text),
        (("P1", _), _) => {
            moving.play_to::<P1, _, P0, _>(&OnArray::<10>, &OnHeap(heap), header, text)
        }
        _ => moving.play_to::<N3, _, P1, _>(&OnHeap(heap), &OnArray::<10>, header, text),
    }
}

// One of `P0` on the heap becomes one on the heap.
fn from_heap_to_heap(
    heap: Heap<'_>,
    moving: &Moving<'_>,
    pointers: &str,
    header: &Call<'_>,
    text: String,
) -> Result<String, AllocError> {
    match pointers {
        "P1" => from_heap::<P1, _>(heap, &OnHeap(heap), moving, header, text),
        "P5" => from_heap::<P5, _>(heap, &OnHeap(heap), moving, header, text),
        "N3" => from_heap::<N3, _>(heap, &OnHeap(heap), moving, header, text),
        _ => from_heap::<P0, _>(heap, &OnHeap(heap), moving, header, text),
    }
}

// One of `P0` on the heap becomes another one.
fn from_heap<Q: PtrCore, K: Target<Q>>(
    heap: Heap<'_>,
    to: &K,
    moving: &Moving<'_>,
    header: &Call<'_>,
    text: String,
) -> Result<String, AllocError> {
    moving.play_to::<P0, _, Q, K>(&OnHeap(heap), to, header, text)
}
