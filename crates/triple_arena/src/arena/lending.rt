//! The slots of an arena, whose values are borrowed one by one, and two of them at once.
ghost use Rattle.triple_arena.specs.IterMut.{with_values_of};
ghost use Rattle.triple_arena.specs.Slot.{entry_of};
ghost use Rattle.triple_arena.specs.TwoValues.{with_two_values};

use crate::lent_slots::{LendsSlots, LentSlots};
use crate::two_values::{TwoValues, ValuesInOrder};
use crate::{Arena, ArenaSlot, ArenaSlots};
use std::marker::PhantomData;
use triple_arena_ptr::PtrCore;

impl<P: PtrCore, T: Drop, S: ArenaSlots<P, T>> LendsSlots<T, ArenaSlot<P, T>> for Arena<P, T, S> {
    ghost with_values_of = { with_values_of };

    ghost slot_entry = { entry_of };

    ghost slot_entries = { λ c. c.slots };

    fn lend_slots(&mut self) -> LentSlots<'_, T, ArenaSlot<P, T>> {
        let slots = self.slots.as_mut_slice();
        LentSlots {
            at: slots.as_mut_ptr(),
            mark: PhantomData,
        }
    }
}

impl<P: PtrCore, T: Drop, S: ArenaSlots<P, T>> TwoValues<T> for Arena<P, T, S> {
    ghost use Rattle.std.specs.Prelude.{slice_index_or, None};
    ghost use Rattle.std.specs.Option.{option_map};
    ghost use Rattle.triple_arena.specs.TwoValuesLaws.{two-commute};

    ghost value_after = { λ c n. option_map (λ e. e.1) (slice_index_or c.slots n None) };

    ghost with_two = { with_two_values };

    ghost either_order = { two-commute };

    fn lend_in_order(these: &mut [Self], low: usize, high: usize) -> (&mut T, &mut T) {
        let at = these.as_mut_ptr();
        let this = unsafe { &mut *at };
        let slots = this.slots.as_mut_slice();
        ArenaSlot::values_in_order(slots, low, high)
    }
}
