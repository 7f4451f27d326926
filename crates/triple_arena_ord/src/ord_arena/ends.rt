//! The ends of the list.
ghost use Rattle.std.specs.Prelude.{◌≡◌, None, IsSome, ⊤};
ghost use Rattle.std.specs.Option.{option_map};
ghost use Rattle.linked_lists.specs.LinkedLists.{first_or, last_or};
ghost use Rattle.triple_arena_ord.specs.Ordered.{IsOrdered, order_in, entry_in};
ghost use Rattle.triple_arena_ord.specs.OrderedWalks.{IsEnd};
ghost use Rattle.triple_arena.specs.Steps.{Finds};

use crate::ord_arena::search::found::ptr_at;
use crate::{OrdSlots, SimpleOrdArena};
use triple_arena::PtrCore;

impl<P: PtrCore, T: Drop, S: OrdSlots<P, T>> SimpleOrdArena<P, T, S> {
    // The index of the first entry.
    pub(crate) fn first_index(&self) -> Option<P::Inx>
        ensures at { option_map P.Inx.number result ≡ first_or (order_in self.now) None }
        ensures ordered { IsOrdered self.now }
    {
        self.first
    }

    // The index of the last entry.
    pub(crate) fn last_index(&self) -> Option<P::Inx>
        ensures at { option_map P.Inx.number result ≡ last_or None (order_in self.now) }
        ensures ordered { IsOrdered self.now }
    {
        self.last
    }

    // The pointer to the entry at an index that is live.
    pub(crate) fn ptr_to(&self, i: P::Inx) -> P
        requires live { IsSome (entry_in self.now (P.Inx.number i)) }
        requires no_more { ⊤ }
        ensures index { P.index result ≡ P.Inx.number i }
        ensures live { Finds entry_in self.now (P.index result, P.generation result) }
    {
        ptr_at(&self.chains, i)
    }

    /// The pointer to the first entry of the list, or `None` if there is no entry.
    pub fn first(&self) -> Option<P>
        ensures { IsEnd P.index P.generation (first_or (order_in self.now) None) result self.now }
    {
        match self.first_index() {
            Some(i) => Some(self.ptr_to(i)),
            None => None,
        }
    }

    /// The pointer to the last entry of the list, or `None` if there is no entry.
    pub fn last(&self) -> Option<P>
        ensures { IsEnd P.index P.generation (last_or None (order_in self.now)) result self.now }
    {
        match self.last_index() {
            Some(i) => Some(self.ptr_to(i)),
            None => None,
        }
    }
}
