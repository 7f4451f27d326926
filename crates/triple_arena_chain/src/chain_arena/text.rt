//! The debug text of a chain arena.
use crate::{ChainArena, ChainSlots};
use std::fmt;
use triple_arena::Ptr;

/// A map from the pointers to the values, in the order of the indexes:
/// `{P0[1](2): "test", P0[2](2): "hello"}`.
impl<P: Ptr, T: fmt::Debug + Drop, S: ChainSlots<P, T>> fmt::Debug for ChainArena<P, T, S> {
    fn fmt<W: fmt::Write>(&self, f: &mut fmt::Formatter<W>) -> fmt::Result {
        f.debug_map().entries(self.iter()).finish()
    }
}
