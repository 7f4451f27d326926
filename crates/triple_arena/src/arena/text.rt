//! The debug text of an arena.
use crate::arena::Arena;
use crate::iterators::{Iter, LentEntry};
use crate::{ArenaSlots, Whole};
use std::fmt;
use triple_arena_ptr::Ptr;

// Writes the entries as a map from the pointers to the values.
pub(crate) fn write_entries<P: Ptr, T: fmt::Debug, E: LentEntry<P, T>, W: fmt::Write>(
    entries: Iter<'_, P, T, T, E, Whole>,
    f: &mut fmt::Formatter<W>,
) -> fmt::Result {
    let mut out = f.debug_map();
    for (p, value) in entries {
        out.entry(&p, value);
    }
    out.finish()
}

/// A map from the pointers to the values, in the order of the indexes:
/// `{P0[1](2): "test", P0[2](2): "hello"}`.
impl<P: Ptr, T: fmt::Debug + Drop, S: ArenaSlots<P, T>> fmt::Debug for Arena<P, T, S> {
    fn fmt<W: fmt::Write>(&self, f: &mut fmt::Formatter<W>) -> fmt::Result {
        write_entries(self.iter(), f)
    }
}
