//! Two values of an arena, borrowed at once.
ghost use Rattle.std.specs.Prelude.{◌≡◌, ◌≢◌, ◌<◌, ℕ, [], ◌∷◌, length, map, slice_index_or};
ghost use Rattle.std.specs.Prelude.{Option, Some, None, IsSome};
ghost use Rattle.std.specs.Borrow.{sem, LendsBoth, Array};
ghost use Rattle.triple_arena.specs.BothWays.{LendsBothWays};
ghost use Rattle.triple_arena.specs.TwoValues.{written_both};

use crate::slot::ValueMut;
use crate::{ArenaSlot, DirectSlot};
use triple_arena_ptr::PtrCore;

// Slots of which two values can be borrowed at once.
pub(crate) trait ValuesInOrder<T> {
    ghost held_in: { Self → Option T };

    ghost with_held_in: { Self → T → Self };

    // The values of two slots, each of which has one, in rising order of their places.
    fn values_in_order(slots: &mut [Self], low: usize, high: usize) -> (&mut T, &mut T)
        requires order { low < high }
        requires bound { high < length slots.old }
        requires first { IsSome (slice_index_or (map held_in slots.old) low None) }
        requires second { IsSome (slice_index_or (map held_in slots.old) high None) }
        ensures* ways { sem 𝓛 (LendsBothWays (Array Self.row 0) T.row T.row slots.entry result
            (written_both with_held_in slots.old low high)) }
        ensures value { (slice_index_or (map held_in slots.old) low None ≡ Some result.0.now)
            × (slice_index_or (map held_in slots.old) high None ≡ Some result.1.now) };
}

impl<P: PtrCore, T> ValuesInOrder<T> for ArenaSlot<P, T> {
    ghost use Rattle.triple_arena.specs.Slot.{value_of, with_slot_value};

    ghost held_in = { value_of };

    ghost with_held_in = { with_slot_value };

    fn values_in_order(slots: &mut [Self], low: usize, high: usize) -> (&mut T, &mut T) {
        let at = slots.as_mut_ptr();
        let first = unsafe { &mut *at.add(low) };
        let first = first.value_mut();
        let second = unsafe { &mut *at.add(high) };
        let second = second.value_mut();
        (first, second)
    }
}

impl<P: PtrCore, T> ValuesInOrder<T> for DirectSlot<P, T> {
    ghost use Rattle.triple_arena.specs.DirectSlot.{value_of, with_slot_value};

    ghost held_in = { value_of };

    ghost with_held_in = { with_slot_value };

    fn values_in_order(slots: &mut [Self], low: usize, high: usize) -> (&mut T, &mut T) {
        let at = slots.as_mut_ptr();
        let first = unsafe { &mut *at.add(low) };
        let first = first.value_mut();
        let second = unsafe { &mut *at.add(high) };
        let second = second.value_mut();
        (first, second)
    }
}

// A type of whose slots two values can be borrowed at once. It is the one item of a slice, since
// only of a borrowed slice a caller learns what two parts of it leave.
pub(crate) trait TwoValues<T> {
    // The value of the slot with so many before it, if it is live.
    ghost value_after: { Self → ℕ → Option T };

    // It, with other values in two slots, each with so many before it.
    ghost with_two: { Self → ℕ → ℕ → T → T → Self };

    // The order of the two makes no difference.
    ghost either_order: { (a : Self) (i j : ℕ) (x y : T) → i ≢ j
        → with_two a i j x y ≡ with_two a j i y x };

    // The values of two slots, each live, that have so many before them, for writing. Afterwards
    // these two are what was written, and all else is as it was.
    fn lend_in_order(these: &mut [Self], low: usize, high: usize) -> (&mut T, &mut T)
        requires one { length these.old ≡ 1 }
        requires order { low < high }
        requires first { (a : Self) → these.old ≡ a ∷ [] → IsSome (value_after a low) }
        requires second { (a : Self) → these.old ≡ a ∷ [] → IsSome (value_after a high) }
        ensures* writes_back { sem 𝓛 (LendsBoth (Array Self.row 0) T.row T.row these.entry result
            (λ x y. map (λ a. with_two a low high x y) these.old)) }
        ensures value { (a : Self) → these.old ≡ a ∷ []
            → (value_after a low ≡ Some result.0.now) × (value_after a high ≡ Some result.1.now) };
}

// The same in either order.
pub(crate) fn lend_in_either_order<T, A: TwoValues<T>>(
    these: &mut [A],
    i: usize,
    j: usize,
) -> (&mut T, &mut T)
    requires one { length these.old ≡ 1 }
    requires two { i ≢ j }
    requires first { (a : A) → these.old ≡ a ∷ [] → IsSome (A.value_after a i) }
    requires second { (a : A) → these.old ≡ a ∷ [] → IsSome (A.value_after a j) }
    ensures* writes_back { sem 𝓛 (LendsBoth (Array A.row 0) T.row T.row these.entry result
        (λ x y. map (λ a. A.with_two a i j x y) these.old)) }
    ensures value { (a : A) → these.old ≡ a ∷ []
        → (A.value_after a i ≡ Some result.0.now) × (A.value_after a j ≡ Some result.1.now) }
{
    if i < j {
        return A::lend_in_order(these, i, j);
    }
    let (second, first) = A::lend_in_order(these, j, i);
    (first, second)
}
