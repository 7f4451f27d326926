//! What is found in a direct arena, and the borrow of a value.
ghost use Rattle.std.specs.Prelude.{◌≡◌, ◌↔◌, suc, length, IsSome, IfSome, IsTrue, Option, Some, ⊤};
ghost use Rattle.std.specs.Int.NonZero.{non_zero_usize_get as at};
ghost use Rattle.triple_arena.specs.Entries.{pointer_at as pointer_of_entry, pointer_by, value_in};
ghost use Rattle.triple_arena.specs.DirectContent.{get, entry_at, with_value};

use crate::arena::ValueAtMut;
use crate::direct::DirectArena;
use crate::slot::ValueMut;
use crate::{ArenaTrait, DirectSlots};
use proof_marks::{recall, unreached};
use std::num::NonZeroUsize;
use triple_arena_ptr::{PtrCore, PtrInxCore};

impl<P: PtrCore, T: Drop, S: DirectSlots<P, T>> DirectArena<P, T, S> {
    // The index of the entry that `p` points to, if it is live.
    pub(crate) fn live_index(&self, p: P) -> Option<NonZeroUsize>
        ensures live { IsSome result ↔ IsSome (get self.now (P.index p) (P.generation p)) }
        ensures value { IfSome result (λ i. at i ≡ P.index p) }
    {
        // The number of slots is a `usize`, so no index past that is live.
        recall!(self.slots.len());
        match p.inx().try_into_usize() {
            Some(i) => match self.get_inx(p.inx()) {
                Some((generation, _)) if generation == p.generation() => Some(i),
                _ => None,
            },
            None => None,
        }
    }

    // Whether the index is live.
    pub(crate) fn is_live(&self, i: NonZeroUsize) -> bool
        ensures { IsTrue result ↔ IsSome (entry_at self.now (at i)) }
    {
        match self.slots.get(i) {
            Some(slot) => slot.is_used(),
            None => false,
        }
    }

    // The number of this index, if it is live.
    pub(crate) fn live_inx(&self, inx: P::Inx) -> Option<NonZeroUsize>
        ensures live { IsSome result ↔ IsSome (entry_at self.now (P.Inx.number inx)) }
        ensures value { IfSome result (λ i. at i ≡ P.Inx.number inx) }
    {
        // The number of slots is a `usize`, so no index past that is live.
        recall!(self.slots.len());
        match inx.try_into_usize() {
            Some(i) if self.is_live(i) => Some(i),
            _ => None,
        }
    }

    // How many slots come before that of an index that is live.
    pub(crate) fn slots_before(&self, inx: P::Inx) -> usize
        requires live { IsSome (entry_at self.now (P.Inx.number inx)) }
        requires no_more { ⊤ }
        ensures { suc result ≡ P.Inx.number inx }
    {
        match self.live_inx(inx) {
            Some(i) => i.get() - 1,
            None => unreached!(),
        }
    }

    // The number of slots.
    pub(crate) fn slot_count(&self) -> usize
        ensures { result ≡ length self.now.slots }
    {
        self.slots.len()
    }

    // The pointer to the entry at `i`, if it is live.
    pub(crate) fn pointer(&self, i: NonZeroUsize) -> Option<P>
        ensures { pointer_by P.index P.generation result
            ≡ pointer_of_entry (entry_at self.now) (at i) }
    {
        // Each slot has an index of the pointer type.
        recall!(self.own_capacity());
        let inx = P::Inx::try_from_usize(i)?;
        let (generation, _) = self.get_inx(inx)?;
        Some(P::_from_raw(inx, generation))
    }
}

impl<P: PtrCore, T: Drop, S: DirectSlots<P, T>> ValueAtMut<T> for DirectArena<P, T, S> {
    ghost has_value = { λ d i. IsSome (entry_at d i) };

    ghost value_at = { λ d i. value_in (entry_at d i) };

    ghost with_value_at = { with_value };

    fn value_at_mut(&mut self, i: NonZeroUsize) -> &mut T {
        self.slots.item_mut(i).value_mut()
    }
}
