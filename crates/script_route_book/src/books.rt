//! The stores that a section is played over.
ghost use Rattle.std.specs.Prelude.{◌<◌};

use crate::backings::{Backing, Playing};
use crate::kinds::{Kind, play_and_move, play_over};
use crate::moves::Moving;
use crate::runs::Cut;
use route_book::{PtrCore, RoomError};
use std::alloc::{AllocError, Global};
use std::fmt::Write;
use test_kit::{Call, RefusingAllocator};

/// What a store on the heap takes its memory from. It can refuse one request.
pub type Heap<'a> = &'a RefusingAllocator<Global>;

/// A store that is to be made.
#[derive(Clone, Copy)]
pub struct Book<'a> {
    pub kind: Kind<'a>,
    /// The rooms, the last ticket that counts as given, and the request for memory that is refused.
    pub header: Call<'a>,
}

/// Makes a store and plays the lines of a section over it: what it writes, or why there is no
/// store.
pub fn play(alloc: Global, book: &Book<'_>, lines: &str, cut: Cut) -> Result<String, AllocError> {
    let heap = RefusingAllocator::new(alloc, refused(book.header.fifth));
    let text = play_over(&heap, book, lines, cut, String::new(alloc))?;
    tell_refusal(&heap, text)
}

/// Makes a store, plays a section over it and, from the line of the move on, over the store of
/// another kind that it becomes: what they write, or why there is no store.
pub fn play_to(
    alloc: Global,
    book: &Book<'_>,
    moving: &Moving<'_>,
    to: Kind<'_>,
) -> Result<String, AllocError> {
    let heap = RefusingAllocator::new(alloc, refused(book.header.fifth));
    let text = play_and_move(&heap, book, moving, to, String::new(alloc))?;
    tell_refusal(&heap, text)
}

fn refused(nth: u64) -> u64
    ensures { 0 < result }
{
    if nth == 0 { u64::MAX } else { nth }
}

fn tell_refusal(heap: Heap<'_>, text: String) -> Result<String, AllocError> {
    let mut text = text;
    if heap.has_refused() {
        writeln!(text, "memory was refused")?;
    }
    Ok(text)
}

/// Tells that a script asks for a store which this program has not.
pub fn missing(kind: Kind<'_>, text: String) -> Result<String, AllocError> {
    let mut text = text;
    writeln!(text, "no such store: {} {}", kind.0, kind.1)?;
    Ok(text)
}

/// Plays a section over a new store.
pub fn play_in<P: PtrCore, K: Backing<P>>(
    backing: &K,
    book: &Book<'_>,
    lines: &str,
    cut: Cut,
    text: String,
) -> Result<String, AllocError> {
    backing.accept(Playing {
        book,
        lines,
        cut,
        text,
    })
}

/// Tells why there is no store.
pub fn refused_room(refusal: &RoomError, text: String) -> Result<String, AllocError> {
    let mut text = text;
    writeln!(text, "room refused: {refusal}")?;
    Ok(text)
}
