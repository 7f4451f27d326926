//! What an iterator shows of a stored value.
ghost use Rattle.std.specs.Prelude.{◌≡◌};

/// A marker of a part of a stored value, which an iterator gives in place of the whole.
pub trait Part<V, T> {
    // The part of a value.
    ghost part: { V → T };

    /// The part of this value.
    fn part_of(value: &V) -> &T
        ensures { result.now ≡ part value.now };
}

/// The marker of the whole value.
pub struct Whole;

impl<T> Part<T, T> for Whole {
    ghost part = { λ t. t };

    fn part_of(value: &T) -> &T {
        value
    }
}
