//! The gap that an insertion's kind asks for.
ghost use Rattle.std.specs.Prelude.{◌≡◌, ⊤};
ghost use Rattle.std.specs.Option.{option_map};
ghost use Rattle.triple_arena_chain.specs.Kinds.{at_end, at_start, after_link, before_link};
ghost use Rattle.triple_arena_chain.specs.Kinds.{at_interlink, at_bridge, ends_by, gap_by};

use triple_arena::{AllocError, PtrInxCore};

/// A gap for one link more.
pub enum Gap<I> {
    /// Between two links, of which either may be missing.
    Between(Option<I>, Option<I>),
    /// In a ring of its own.
    OwnRing,
}

impl<I: Copy> Clone for Gap<I> {
    ghost is_clone = { λ x y. y ≡ x };

    ghost is_infallible = { λ _. ⊤ };

    fn clone(&self) -> Result<Self, AllocError> {
        Ok(*self)
    }
}

impl<I: Copy> Copy for Gap<I> {}

// After a link with these ends, if it is there and has no next.
pub(crate) fn after_end<I: PtrInxCore>(i: I, ends: Option<(Option<I>, Option<I>)>) -> Option<Gap<I>>
    ensures { option_map (gap_by I.number) result
        ≡ at_end (I.number i) (option_map (ends_by I.number) ends) }
{
    match ends {
        Some((_, None)) => Some(Gap::Between(Some(i), None)),
        Some((_, Some(_))) => None,
        None => None,
    }
}

// Before a link with these ends, if it is there and has no previous one.
pub(crate) fn before_start<I: PtrInxCore>(
    i: I,
    ends: Option<(Option<I>, Option<I>)>,
) -> Option<Gap<I>>
    ensures { option_map (gap_by I.number) result
        ≡ at_start (I.number i) (option_map (ends_by I.number) ends) }
{
    match ends {
        Some((None, _)) => Some(Gap::Between(None, Some(i))),
        Some((Some(_), _)) => None,
        None => None,
    }
}

// Directly after a link with these ends, if it is there.
pub(crate) fn next_to<I: PtrInxCore>(i: I, ends: Option<(Option<I>, Option<I>)>) -> Option<Gap<I>>
    ensures { option_map (gap_by I.number) result
        ≡ after_link (I.number i) (option_map (ends_by I.number) ends) }
{
    match ends {
        Some((_, next)) => Some(Gap::Between(Some(i), next)),
        None => None,
    }
}

// Directly before a link with these ends, if it is there.
pub(crate) fn prev_to<I: PtrInxCore>(i: I, ends: Option<(Option<I>, Option<I>)>) -> Option<Gap<I>>
    ensures { option_map (gap_by I.number) result
        ≡ before_link (I.number i) (option_map (ends_by I.number) ends) }
{
    match ends {
        Some((prev, _)) => Some(Gap::Between(prev, Some(i))),
        None => None,
    }
}

// Between two links with these ends, if they are there and the second is the next of the first.
pub(crate) fn inside<I: PtrInxCore>(
    i: I,
    j: I,
    first: Option<(Option<I>, Option<I>)>,
    second: Option<(Option<I>, Option<I>)>,
) -> Option<Gap<I>>
    ensures { option_map (gap_by I.number) result
        ≡ at_interlink (I.number i) (I.number j) (option_map (ends_by I.number) first)
        (option_map (ends_by I.number) second) }
{
    match (first, second) {
        (Some((_, Some(next))), Some(_)) => {
            if next == j {
                Some(Gap::Between(Some(i), Some(j)))
            } else {
                None
            }
        }
        (Some((_, None)), Some(_)) => None,
        (Some(_), None) => None,
        (None, _) => None,
    }
}

// Between two links with these ends, if they are there, the first has no next and the second no
// previous one.
pub(crate) fn bridging<I: PtrInxCore>(
    i: I,
    j: I,
    first: Option<(Option<I>, Option<I>)>,
    second: Option<(Option<I>, Option<I>)>,
) -> Option<Gap<I>>
    ensures { option_map (gap_by I.number) result
        ≡ at_bridge (I.number i) (I.number j) (option_map (ends_by I.number) first)
        (option_map (ends_by I.number) second) }
{
    match (first, second) {
        (Some((_, None)), Some((None, _))) => Some(Gap::Between(Some(i), Some(j))),
        (Some((_, None)), Some((Some(_), _))) => None,
        (Some((_, Some(_))), Some(_)) => None,
        (Some(_), None) => None,
        (None, _) => None,
    }
}
