//! Going over the entries by iterators, in the order of their indexes.
ghost use Rattle.std.specs.Prelude.{◌≡◌, map as list_map};
ghost use Rattle.triple_arena.specs.Compression.{value_of};
ghost use Rattle.triple_arena.specs.Iterators.{pointer_of};
ghost use Rattle.triple_arena_ord.specs.Indexed.{indexed};

use crate::ord_iterators::{InxIter, Ptrs, Vals};
use crate::{OrdSlots, SimpleOrdArena};
use triple_arena::PtrCore;

impl<P: PtrCore, T: Drop, S: OrdSlots<P, T>> SimpleOrdArena<P, T, S> {
    /// The pointers to the entries, in the order of the indexes.
    pub fn ptrs(&self) -> Ptrs<'_, P, T>
        ensures { result ≡ list_map pointer_of (indexed self.now) }
    {
        self.chains.ptrs()
    }

    /// The items of the entries, in the order of the indexes.
    pub fn vals(&self) -> Vals<'_, P, T>
        ensures { result ≡ list_map value_of (indexed self.now) }
    {
        self.iter().into_vals()
    }

    /// The pointers and the items of the entries, in the order of the indexes.
    pub fn iter(&self) -> InxIter<'_, P, T>
        ensures { result ≡ indexed self.now }
    {
        self.chains.iter_link_no_gen().shown_by()
    }
}
