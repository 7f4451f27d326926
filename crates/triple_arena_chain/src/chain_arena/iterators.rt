//! Going over the links of a chain arena by iterators, in the order of their indexes.
ghost use Rattle.std.specs.Prelude.{◌≡◌, map as list_map};
ghost use Rattle.triple_arena.specs.Compression.{value_of};
ghost use Rattle.triple_arena.specs.Iterators.{pointer_of};
ghost use Rattle.triple_arena.specs.LiveEntries.{live_entries};
ghost use Rattle.triple_arena_chain.specs.Listed.{listed_values};

use crate::chain_iterators::{Iter, Ptrs, Vals};
use crate::{ChainArena, ChainSlots};
use triple_arena::{PtrCore, PtrInxCore};

impl<P: PtrCore, T: Drop, S: ChainSlots<P, T>> ChainArena<P, T, S> {
    /// The pointers to the links, in the order of the indexes.
    pub fn ptrs(&self) -> Ptrs<'_, P, T>
        ensures { result ≡ list_map pointer_of (live_entries self.now) }
    {
        self.arena.ptrs()
    }

    /// The values of the links, in the order of the indexes.
    pub fn vals(&self) -> Vals<'_, P, T>
        ensures { result ≡ list_map value_of (listed_values self.now) }
    {
        self.iter().into_vals()
    }

    /// The pointers and the values of the links, in the order of the indexes.
    pub fn iter(&self) -> Iter<'_, P, T>
        ensures { result ≡ listed_values self.now }
    {
        self.arena.iter().shown_by()
    }
}

impl<'a, P: PtrCore, T: Drop, S: ChainSlots<P, T>> IntoIterator for &'a ChainArena<P, T, S>
where
    P::Inx: 'a,
    <P::Inx as PtrInxCore>::Word: 'a,
{
    type Item = (P, &'a T);

    type IntoIter = Iter<'a, P, T>;

    ghost into_iter_gives = { λ chains it. it ≡ listed_values chains.now };

    fn into_iter(self) -> Iter<'a, P, T> {
        self.iter()
    }
}
