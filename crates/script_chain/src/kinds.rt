//! The pointer types and stacks over which the gate plays: vectors of the heap, and what differs
//! from them in kind. `checks/run scripts` plays over all, by another text of this file.
use crate::stacks::{InArray, ValuesInArray, over};
use crate::{renaming, stacks};
use std::alloc::Allocator;
use test_kit::{Call, N3, Transcript};
use triple_arena::{P0, P5, ReallocationError};

const KINDS: [(&str, &str); 11] = [
    ("P0", "heap"),
    ("P0", "limited"),
    ("P0", "boxed"),
    ("P0", "array"),
    ("P0", "renaming"),
    ("P5", "heap"),
    ("P5", "array"),
    ("N3", "heap"),
    ("N3", "limited"),
    ("N3", "array"),
    ("N3", "renaming"),
];

/// Whether a section is played over this pointer type and stack.
pub fn has(kind: &str, stack: &str) -> bool {
    for known in KINDS {
        if known.0 == kind && known.1 == stack {
            return true;
        }
    }
    false
}

/// Makes the calls of a section. It is generic in the heap: that of a test meets its bounds in one
/// place.
pub fn play_over<H: Allocator + Copy + Drop>(
    heap: H,
    transcript: &mut Transcript,
    (kind, stack): (&str, &str),
    header: &Call<'_>,
    calls: &str,
) -> Result<(), ReallocationError> {
    match (kind, stack) {
        ("P0", "heap") => stacks::over_heap::<P0, H>(heap, transcript, header, calls),
        ("P0", "limited") => stacks::over_limited_vec::<P0, H>(heap, transcript, header, calls),
        ("P0", "boxed") => stacks::over_boxed::<P0, H>(heap, transcript, header, calls),
        ("P0", "renaming") => renaming::over_heap::<P0, H>(heap, transcript, calls),
        ("P5", "heap") => stacks::over_heap::<P5, H>(heap, transcript, header, calls),
        ("N3", "heap") => stacks::over_heap::<N3, H>(heap, transcript, header, calls),
        ("N3", "limited") => stacks::over_limited_vec::<N3, H>(heap, transcript, header, calls),
        ("N3", "renaming") => renaming::over_heap::<N3, H>(heap, transcript, calls),
        (_, "array") => over_arrays(kind, transcript, header, calls),
        _ => Err(ReallocationError::BeyondMaxCapacity),
    }
}

// Over arrays, whose size is known only if the pointer type is.
fn over_arrays(
    kind: &str,
    transcript: &mut Transcript,
    header: &Call<'_>,
    calls: &str,
) -> Result<(), ReallocationError> {
    match kind {
        "P0" => over::<P0, (), InArray<P0>, ValuesInArray<P0>>((), transcript, header, calls),
        "P5" => over::<P5, (), InArray<P5>, ValuesInArray<P5>>((), transcript, header, calls),
        "N3" => over::<N3, (), InArray<N3>, ValuesInArray<N3>>((), transcript, header, calls),
        _ => Err(ReallocationError::BeyondMaxCapacity),
    }
}
