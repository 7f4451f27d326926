//! A link with whole pointers to its neighbors.
ghost use Rattle.std.specs.Prelude.{◌≡◌};
ghost use Rattle.std.specs.Option.{option_map};

use crate::{IndexLink, LinkNoGen};
use triple_arena_ptr::PtrCore;

/// A value with the pointers to the links before and after it.
#[derive(Clone, Copy, Debug, PartialEq, Eq, PartialOrd, Ord, Hash)]
pub struct Link<P: PtrCore, T> {
    prev: Option<P>,
    next: Option<P>,
    /// The value.
    pub t: T,
}

// The index of a pointer.
fn inx_of<P: PtrCore>(p: Option<P>) -> Option<P::Inx>
    ensures { option_map P.Inx.number result ≡ option_map P.index p }
{
    match p {
        Some(p) => Some(p.inx()),
        None => None,
    }
}

impl<P: PtrCore, T> Link<P, T> {
    /// A link between the links that these two point to, if there are any.
    pub fn new(prev_next: (Option<P>, Option<P>), t: T) -> Self
        ensures prev { result.prev ≡ prev_next.0 }
        ensures next { result.next ≡ prev_next.1 }
        ensures value { result.t ≡ t }
    {
        Link {
            prev: prev_next.0,
            next: prev_next.1,
            t,
        }
    }

    /// The pointer to the previous link.
    pub fn prev(&self) -> Option<P>
        ensures { result ≡ self.now.prev }
    {
        self.prev
    }

    /// The pointer to the next link.
    pub fn next(&self) -> Option<P>
        ensures { result ≡ self.now.next }
    {
        self.next
    }

    /// The pointers to the previous and to the next link.
    pub fn prev_next(&self) -> (Option<P>, Option<P>)
        ensures { result ≡ (self.now.prev, self.now.next) }
    {
        (self.prev, self.next)
    }

    /// The link with the indexes of its neighbors alone.
    pub fn no_gen(self) -> LinkNoGen<P, T>
        ensures prev { result.prev ≡ option_map P.index self.prev }
        ensures next { result.next ≡ option_map P.index self.next }
        ensures value { result.t ≡ self.t }
    {
        IndexLink::new((inx_of(self.prev), inx_of(self.next)), self.t)
    }

    /// The link with the indexes of its neighbors alone, and with its value borrowed.
    pub fn no_gen_ref(&self) -> LinkNoGen<P, &T>
        ensures prev { result.prev ≡ option_map P.index self.now.prev }
        ensures next { result.next ≡ option_map P.index self.now.next }
        ensures value { result.t.now ≡ self.now.t }
    {
        IndexLink::new((inx_of(self.prev), inx_of(self.next)), &self.t)
    }
}
