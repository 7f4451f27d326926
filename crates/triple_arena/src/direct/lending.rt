//! The slots of a direct arena, whose values are borrowed one by one, and two of them at once.
ghost use Rattle.triple_arena.specs.IterMut.{with_direct_values_of};
ghost use Rattle.triple_arena.specs.TwoValues.{with_two_direct_values};

use crate::lent_slots::{LendsSlots, LentSlots};
use crate::two_values::{TwoValues, ValuesInOrder};
use crate::{DirectArena, DirectSlot, DirectSlots};
use std::marker::PhantomData;
use triple_arena_ptr::PtrCore;

impl<P: PtrCore, T: Drop, S: DirectSlots<P, T>> LendsSlots<T, DirectSlot<P, T>>
    for DirectArena<P, T, S> {
    ghost with_values_of = { with_direct_values_of };

    ghost slot_entry = { λ slot. slot };

    ghost slot_entries = { λ c. c.slots };

    fn lend_slots(&mut self) -> LentSlots<'_, T, DirectSlot<P, T>> {
        let slots = self.slots.as_mut_slice();
        LentSlots {
            at: slots.as_mut_ptr(),
            mark: PhantomData,
        }
    }
}

impl<P: PtrCore, T: Drop, S: DirectSlots<P, T>> TwoValues<T> for DirectArena<P, T, S> {
    ghost use Rattle.std.specs.Prelude.{slice_index_or, None};
    ghost use Rattle.std.specs.Option.{option_map};
    ghost use Rattle.triple_arena.specs.TwoValuesLaws.{direct_two-commute};

    ghost value_after = { λ c n. option_map (λ e. e.1) (slice_index_or c.slots n None) };

    ghost with_two = { with_two_direct_values };

    ghost either_order = { direct_two-commute };

    fn lend_in_order(these: &mut [Self], low: usize, high: usize) -> (&mut T, &mut T) {
        let at = these.as_mut_ptr();
        let this = unsafe { &mut *at };
        let slots = this.slots.as_mut_slice();
        DirectSlot::values_in_order(slots, low, high)
    }
}
