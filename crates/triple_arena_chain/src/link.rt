//! A link of a chain.
ghost use Rattle.std.specs.Prelude.{◌≡◌};
ghost use Rattle.std.specs.Option.{option_map};
ghost use Rattle.triple_arena_chain.specs.Kinds.{ends_by};

use triple_arena::Part;
use triple_arena_ptr::{OptionalInx, PtrCore, PtrInxCore};

/// A value with the indexes of the links before and after it, each of the type `O`, an
/// [`OptionalInx`].
#[derive(Clone, Copy, Debug, PartialEq, Eq, PartialOrd, Ord, Hash)]
pub struct IndexLink<O, T> {
    pub(crate) prev: O,
    pub(crate) next: O,
    /// The value.
    pub t: T,
}

/// A value with the indexes of the links before and after it.
pub type LinkNoGen<P, T> = IndexLink<
    OptionalInx<<P as PtrCore>::Inx, <<P as PtrCore>::Inx as PtrInxCore>::Word>,
    T,
>;

impl<I: PtrInxCore<Word = W>, W: Copy, T> IndexLink<OptionalInx<I, W>, T> {
    /// A link between the links at these two indexes, if there are any.
    pub fn new(prev_next: (Option<I>, Option<I>), t: T) -> Self
        ensures prev { result.prev ≡ option_map I.number prev_next.0 }
        ensures next { result.next ≡ option_map I.number prev_next.1 }
        ensures value { result.t ≡ t }
    {
        IndexLink {
            prev: OptionalInx::of(prev_next.0),
            next: OptionalInx::of(prev_next.1),
            t,
        }
    }

    /// The index of the previous link.
    pub fn prev(&self) -> Option<I>
        ensures { option_map I.number result ≡ self.now.prev }
    {
        self.prev.get()
    }

    /// The index of the next link.
    pub fn next(&self) -> Option<I>
        ensures { option_map I.number result ≡ self.now.next }
    {
        self.next.get()
    }

    /// The indexes of the previous and of the next link.
    pub fn prev_next(&self) -> (Option<I>, Option<I>)
        ensures { ends_by I.number result ≡ (self.now.prev, self.now.next) }
    {
        (self.prev.get(), self.next.get())
    }
}

/// The marker of the value of a link.
pub struct LinkValue;

impl<O, T> Part<IndexLink<O, T>, T> for LinkValue {
    ghost part = { λ link. link.t };

    fn part_of(link: &IndexLink<O, T>) -> &T {
        &link.t
    }
}
