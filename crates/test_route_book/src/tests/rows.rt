//! Inputs and the text that answers them.

use super::streams::{Page, Pieces};
use super::table::{ROWS, Row};
use route_book::{BookBacking, Counts, OnHeap, RoomError, RouteBook, Watched, run};
use std::alloc::Allocator;
use std::process::Abort;
use std::test::Fail;
use test_kit::RefusingAllocator;
use triple_arena_ptr::{P0, P1, PtrCore};

// How many bytes the reader gives a time, and the writer takes.
pub(super) type Steps = (usize, usize);

pub(super) const STEPS: [Steps; 5] = [
    (usize::MAX, usize::MAX),
    (1, usize::MAX),
    (2, usize::MAX),
    (3, 1),
    (usize::MAX, 1),
];

/// The requests for memory that make a store of places, stops and marks.
pub(super) const REQUESTS: u64 = 7;

// A store over this backing, as the row wants it.
pub(super) fn store<P: PtrCore, B: BookBacking<P>>(
    backing: &B,
    [places, stops, marks]: [usize; 3],
    last: u64,
) -> Result<RouteBook<P, B>, RoomError> {
    RouteBook::new_after(backing, places, stops, marks, last)
}

// The store answers the input with this text, and reads all of it.
pub(super) fn answers<P: PtrCore, B: BookBacking<P>>(
    rt: &impl Abort,
    mut book: RouteBook<P, B>,
    (input, text): (&str, &str),
    (read, taken): Steps,
) -> Result<(), Fail> {
    let mut reader = Watched::new(Pieces::new(input.as_bytes(), read));
    let mut writer = Watched::new(Page::new(taken));
    run(&mut book, &mut reader, &mut writer, &mut Counts::new())?;
    let page = writer.into_inner();
    assert_eq!(rt;
        page.text(),
        text.as_bytes(),
        "read by {read}, taken by {taken}"
    );
    assert_eq!(rt; page.flushes, 1);
    assert!(rt; reader.into_inner().left.is_empty());
    Ok(())
}

/// The requests for memory that make a store of these rooms: two for each arena that has room, and
/// one for the book.
pub(super) fn requests([places, stops, marks]: [usize; 3]) -> u64 {
    let arenas = u64::from(places > 0) + u64::from(stops > 0) + u64::from(marks > 0);
    arenas * 2 + u64::from(arenas > 0)
}

// A new store over the heap answers the row.
fn answers_on_heap<P: PtrCore, A: Allocator + Copy>(
    rt: &impl Abort,
    alloc: A,
    (rooms, last, input, text): Row<'_>,
    steps: Steps,
) -> Result<(), Fail> {
    let book = store::<P, _>(&OnHeap(alloc), rooms, last)?;
    answers(rt, book, (input, text), steps)
}

// Whether the rooms together are at most so many.
pub(super) fn fits([places, stops, marks]: [usize; 3], most: usize) -> bool {
    places <= most && stops <= most - places && marks <= most - places - stops
}

// The row over wide and narrow pointers, if they have the room. No memory is taken once the store
// is made.
fn answers_row(rt: &(impl AllocGlobal + Abort), row: Row<'_>, steps: Steps) -> Result<(), Fail> {
    let heap = RefusingAllocator::new(rt.alloc(), requests(row.0).saturating_add(1));
    answers_on_heap::<P0, _>(rt, &heap, row, steps)?;
    assert!(rt; !heap.has_refused());
    if fits(row.0, 255) {
        let heap = RefusingAllocator::new(rt.alloc(), requests(row.0).saturating_add(1));
        answers_on_heap::<P1, _>(rt, &heap, row, steps)?;
        assert!(rt; !heap.has_refused());
    }
    Ok(())
}

fn answers_rows(rt: &(impl AllocGlobal + Abort), rows: &[Row<'_>]) -> Result<(), Fail> {
    for row in rows {
        for steps in STEPS {
            answers_row(rt, *row, steps)?;
        }
    }
    Ok(())
}

#[test]
fn each_row_has_its_text(rt: HostRuntime) -> Result<(), Fail> {
    answers_rows(&rt, &ROWS)
}

// What the table cannot hold: an input without lines, and a rest without LF, though it spells a
// command with one.
#[test]
fn rests_are_bad(rt: HostRuntime) -> Result<(), Fail> {
    let rooms = [4, 4, 2];
    let rows = [
        (rooms, 0, "", ""),
        (rooms, 0, "all", "bad\n"),
        (rooms, 0, "all\nall", "end\nbad\n"),
    ];
    answers_rows(&rt, &rows)
}

#[test]
fn a_long_line_is_one_bad_line(rt: HostRuntime) -> Result<(), Fail> {
    let mut bytes = [b'a'; 1005];
    bytes[1000..].copy_from_slice(b"\nall\n");
    for start in [0, 930] {
        let input = str::from_utf8(&bytes[start..])?;
        let row = ([4, 4, 2], 0, input, "bad\nend\n");
        answers_rows(&rt, &[row])?;
        let row = ([4, 4, 2], 0, &input[..70], "bad\n");
        answers_rows(&rt, &[row])?;
    }
    Ok(())
}
