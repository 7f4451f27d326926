//! What is found in an arena, and the borrow of a value.
ghost use Rattle.std.specs.Prelude.{◌≡◌, ◌↔◌, ℕ, suc, IsSome, IfSome, Option, Some, ⊤};
ghost use Rattle.std.specs.Borrow.{sem, Lends};
ghost use Rattle.std.specs.Int.NonZero.{non_zero_usize_get as at};
ghost use Rattle.triple_arena.specs.Entries.{pointer_at as pointer_of_entry, pointer_by, value_in};
ghost use Rattle.triple_arena.specs.Content.{get, entry_at, with_value};

use crate::arena::Arena;
use crate::slot::ValueMut;
use crate::{ArenaSlots, ArenaTrait};
use proof_marks::{recall, unreached};
use std::num::NonZeroUsize;
use triple_arena_ptr::{PtrCore, PtrInxCore};

impl<P: PtrCore, T: Drop, S: ArenaSlots<P, T>> Arena<P, T, S> {
    // The index of the entry that `p` points to, if it is live.
    pub(crate) fn live_index(&self, p: P) -> Option<NonZeroUsize>
        ensures live { IsSome result ↔ IsSome (get self.now (P.index p) (P.generation p)) }
        ensures value { IfSome result (λ i. at i ≡ P.index p) }
    {
        // The number of slots is a `usize`, so no index past that is live.
        recall!(self.slots.len());
        match p.inx().try_into_usize() {
            Some(i) => match self.slots.get(i) {
                Some(slot) => {
                    if slot.is_at(p.generation()) {
                        Some(i)
                    } else {
                        None
                    }
                }
                None => None,
            },
            None => None,
        }
    }

    // How many slots come before that of an index that is live.
    pub(crate) fn slots_before(&self, inx: P::Inx) -> usize
        requires live { IsSome (entry_at self.now (P.Inx.number inx)) }
        requires no_more { ⊤ }
        ensures { suc result ≡ P.Inx.number inx }
    {
        match self.live_inx(inx) {
            Some(i) => i.get() - 1,
            None => unreached!(),
        }
    }

    // The number of this index, if it is live.
    pub(crate) fn live_inx(&self, inx: P::Inx) -> Option<NonZeroUsize>
        ensures live { IsSome result ↔ IsSome (entry_at self.now (P.Inx.number inx)) }
        ensures value { IfSome result (λ i. at i ≡ P.Inx.number inx) }
    {
        // The number of slots is a `usize`, so no index past that is live.
        recall!(self.slots.len());
        match inx.try_into_usize() {
            Some(i) => match self.slots.get(i) {
                Some(slot) => {
                    if slot.value().is_some() {
                        Some(i)
                    } else {
                        None
                    }
                }
                None => None,
            },
            None => None,
        }
    }

    // The pointer to the entry at `i`, if it is live.
    pub(crate) fn pointer(&self, i: NonZeroUsize) -> Option<P>
        ensures { pointer_by P.index P.generation result
            ≡ pointer_of_entry (entry_at self.now) (at i) }
    {
        // Each slot has an index of the pointer type.
        recall!(self.own_capacity());
        let inx = P::Inx::try_from_usize(i)?;
        let (generation, _) = self.get_inx(inx)?;
        Some(P::_from_raw(inx, generation))
    }
}

// A type whose values can be borrowed by index. A method of a trait names the row of the type that
// is borrowed from in one word.
pub(crate) trait ValueAtMut<T> {
    ghost has_value: { Self → ℕ → Type 0 };

    ghost value_at: { Self → ℕ → Option T };

    ghost with_value_at: { Self → ℕ → T → Self };

    // The value at an index that is live, for writing.
    fn value_at_mut(&mut self, i: NonZeroUsize) -> &mut T
        requires used { has_value self.old (at i) }
        requires no_more { ⊤ }
        ensures* writes_back { sem 𝓛 (Lends Self.row T.row self.entry result
            (with_value_at self.old (at i))) }
        ensures value { value_at self.old (at i) ≡ Some result.now };
}

impl<P: PtrCore, T: Drop, S: ArenaSlots<P, T>> ValueAtMut<T> for Arena<P, T, S> {
    ghost has_value = { λ c i. IsSome (entry_at c i) };

    ghost value_at = { λ c i. value_in (entry_at c i) };

    ghost with_value_at = { with_value };

    fn value_at_mut(&mut self, i: NonZeroUsize) -> &mut T {
        self.slots.item_mut(i).value_mut()
    }
}
