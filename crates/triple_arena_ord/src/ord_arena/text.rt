//! The debug text of an ordered arena.
use crate::{OrdSlots, SimpleOrdArena};
use std::fmt;
use triple_arena::Ptr;

/// A map from the pointers to the items, in the order of the list:
/// `{P0[2](2): (1, "a"), P0[1](2): (5, "b")}`.
impl<P: Ptr, T: fmt::Debug + Drop, S: OrdSlots<P, T>> fmt::Debug for SimpleOrdArena<P, T, S> {
    fn fmt<W: fmt::Write>(&self, f: &mut fmt::Formatter<W>) -> fmt::Result {
        let mut out = f.debug_map();
        for (p, item) in self.iter_ordered() {
            out.entry(&p, item);
        }
        out.finish()
    }
}
