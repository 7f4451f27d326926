//! Going over indexes.
ghost use Rattle.std.specs.Prelude.{◌≡◌};
ghost use Rattle.std.specs.Int.NonZero.{non_zero_usize_get};
ghost use Rattle.std.specs.Iterator.{YieldsFirstBy, YieldsLastBy, item_count};
ghost use Rattle.triple_arena_ptr.specs.NonZeroUsizeIterator.{numbers_up_to};

use std::iter::FusedIterator;
use std::marker::Model;
use std::num::NonZeroUsize;

/// The indexes from one to another, seen as the list of the numbers that are left.
#[derive(Drop)]
pub struct NonZeroUsizeIterator {
    first: NonZeroUsize,
    // Below `first` if nothing is left.
    last: usize,
}

impl Model for NonZeroUsizeIterator {
    ghost use Rattle.std.specs.Prelude.{ℕ, List};
    ghost use Rattle.std.specs.Int.NonZero.{non_zero_usize_get};
    ghost use Rattle.triple_arena_ptr.specs.NonZeroUsizeIterator.{numbers_through};

    ghost Value = { List ℕ };

    ghost view = { λ it. numbers_through (non_zero_usize_get it.first) it.last };
}

impl Iterator for NonZeroUsizeIterator {
    type Item = NonZeroUsize;

    ghost next_gives = { YieldsFirstBy non_zero_usize_get (λ left. left) };

    ghost remaining = { item_count (λ left. left) };

    fn next(&mut self) -> Option<NonZeroUsize> {
        let first = self.first;
        if self.last < first.get() {
            return None;
        }
        match first.checked_add(1) {
            Some(second) => self.first = second,
            // `first` was the greatest index: nothing is left.
            None => self.last = 0,
        }
        Some(first)
    }
}

impl DoubleEndedIterator for NonZeroUsizeIterator {
    ghost next_back_gives = { YieldsLastBy non_zero_usize_get (λ left. left) };

    fn next_back(&mut self) -> Option<NonZeroUsize> {
        let last = NonZeroUsize::new(self.last)?;
        if last.get() < self.first.get() {
            return None;
        }
        self.last = last.get() - 1;
        Some(last)
    }
}

impl FusedIterator for NonZeroUsizeIterator {}

/// What `nzusize_iter` gives, to be gone over by a `for`.
#[derive(Drop)]
pub struct IntoNonZeroUsizeIterator(NonZeroUsizeIterator);

impl Model for IntoNonZeroUsizeIterator {
    ghost use Rattle.std.specs.Prelude.{ℕ, List};

    ghost Value = { List ℕ };

    ghost view = { λ it. it.0 };
}

impl IntoIterator for IntoNonZeroUsizeIterator {
    type Item = NonZeroUsize;

    type IntoIter = NonZeroUsizeIterator;

    ghost into_iter_gives = { λ it left. left ≡ it };

    fn into_iter(self) -> NonZeroUsizeIterator {
        self.0
    }
}

/// The indexes from `start` to `end_inclusive`, rising. There are none if the end is `None` or
/// below the start.
pub fn nzusize_iter(
    start: NonZeroUsize,
    end_inclusive: Option<NonZeroUsize>,
) -> IntoNonZeroUsizeIterator
    ensures { result ≡ numbers_up_to start end_inclusive }
{
    let last = match end_inclusive {
        Some(end) => end.get(),
        None => 0,
    };
    IntoNonZeroUsizeIterator(NonZeroUsizeIterator { first: start, last })
}
