//! Two items borrowed at once.
ghost use Rattle.std.specs.Prelude.{◌≡◌, ◌≢◌, ◌<◌, ◌≤◌, Some, length, slice_get, slice_set};
ghost use Rattle.std.specs.Borrow.{sem, LendsBoth, Array};
ghost use Rattle.std.specs.Int.NonZero.{non_zero_usize_get as at};
ghost use Rattle.triple_arena_stack.specs.Stack.{item_at, with_item};

use std::num::NonZeroUsize;

/// The items at two indexes, which begin at 1, both for writing. The caller owes that both items
/// are there and that the indexes differ: `NonZeroInxGenericStack::check_disjoint` tests it. It
/// takes the items of a stack as `as_mut_slice` borrows them.
pub fn get_disjoint_mut<T>(items: &mut [T], i: NonZeroUsize, j: NonZeroUsize) -> (&mut T, &mut T)
    requires i_in_bounds { at i ≤ length items.old }
    requires j_in_bounds { at j ≤ length items.old }
    requires disjoint { at i ≢ at j }
    ensures* writes_back { sem 𝓛 (LendsBoth (Array T.row 0) T.row T.row items.entry result
        (λ x y. with_item
        (with_item items.old (at i) x) (at j) y)) }
    ensures first { Some result.0.now ≡ item_at items.old (at i) }
    ensures second { Some result.1.now ≡ item_at items.old (at j) }
{
    let low = i.get() - 1;
    let high = j.get() - 1;
    if low < high {
        return in_order(items, low, high);
    }
    let (second, first) = in_order(items, high, low);
    (first, second)
}

// The items at two places in rising order.
fn in_order<T>(items: &mut [T], low: usize, high: usize) -> (&mut T, &mut T)
    requires order { low < high }
    requires bound { high < length items.old }
    ensures* writes_back { sem 𝓛 (LendsBoth (Array T.row 0) T.row T.row items.entry result
        (λ x y. slice_set (slice_set items.old low x) high y)) }
    ensures first { Some result.0.now ≡ slice_get items.old low }
    ensures second { Some result.1.now ≡ slice_get items.old high }
{
    let (front, back) = items.split_at_mut(high);
    (&mut front[low], &mut back[0])
}
