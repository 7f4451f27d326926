//! What becomes of the values of an arena, which no clause says: each is dropped once.
//!
//! A test names a pointer type and a stack. What it calls is generic in both, which is proved in
//! far less time.
mod arenas;
mod chains;
mod ordered;

use std::cell::Cell;

// A value that adds itself to a sum when it is dropped.
struct Counted<'a> {
    value: u64,
    dropped: &'a Cell<u64>,
}

impl Drop for Counted<'_> {
    fn drop(self) {
        let Counted { value, dropped } = self;
        dropped.set(dropped.get().wrapping_add(value));
    }
}
