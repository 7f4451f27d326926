//! The debug text of a direct arena.
use crate::DirectSlots;
use crate::arena::write_entries;
use crate::direct::DirectArena;
use std::fmt;
use triple_arena_ptr::Ptr;

/// A map from the pointers to the values, in the order of the indexes:
/// `{P0[1](9): "test", P0[4](2): "hello"}`.
impl<P: Ptr, T: fmt::Debug + Drop, S: DirectSlots<P, T>> fmt::Debug for DirectArena<P, T, S> {
    fn fmt<W: fmt::Write>(&self, f: &mut fmt::Formatter<W>) -> fmt::Result {
        write_entries(self.iter(), f)
    }
}
