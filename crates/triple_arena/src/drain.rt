//! Taking every entry out of an arena of any kind.
ghost use Rattle.std.specs.Prelude.{◌≡◌, Some, IfSome};
ghost use Rattle.std.specs.Iterator.{item_count, UpTo};
ghost use Rattle.std.specs.Iterator.SizeHint.{IsWithinCount};
ghost use Rattle.triple_arena.specs.Drains.{drain_arena, drain_rest, DrainCanStep, DrainSteps};

use crate::ArenaTrait;
use std::iter::FusedIterator;
use triple_arena_ptr::{Advancer, InvalidationOption, InvalidationResult, PtrCore};

/// Takes the entries out of an arena, in the order of the indexes, and gives their pointers and
/// values.
///
/// Each item is one removal: the counter steps, if there is one, and the item is
/// `GenerationOverflow` if that step wrapped. If the iterator is dropped, at whatever item, it
/// takes those that are left in the same way, and leaves no slot.
///
/// A caller is told nothing of what it leaves if the values hold references.
pub struct Drain<'a, P: PtrCore, T: Drop, A: ArenaTrait<P, T>> {
    pub(crate) arena: &'a mut A,
    pub(crate) walk: A::PtrAdvancer,
}

impl<'a, P: PtrCore, T: Drop, A: ArenaTrait<P, T>> Drop for Drain<'a, P, T, A> {
    fn drop(self)
        ensures value { self.exit.0.now ≡ A.drained (drain_arena self.entry) }
        ensures formed { A.is_formed self.exit.0.now }
    {
        let Drain { arena, walk: _ } = self;
        arena.take_all();
    }
}

impl<'a, P: PtrCore, T: Drop, A: ArenaTrait<P, T>> Iterator for Drain<'a, P, T, A> {
    type Item = InvalidationOption<(P, T)>;

    ghost can_next = { DrainCanStep A.entry_at A.walk };

    ghost next_gives = { DrainSteps A.entry_at A.walk A.counter A.live_entries
        A.is_removed A.drained
        P.Gen.last P.index P.generation };

    ghost remaining = { item_count (drain_rest A.counter A.live_entries P.Gen.last) };

    fn next(&mut self) -> Option<InvalidationOption<(P, T)>> {
        match self.walk.advance(&*self.arena) {
            Some(p) => match self.arena.remove(p) {
                InvalidationResult::Success(t) => Some(InvalidationOption::Success((p, t))),
                InvalidationResult::GenerationOverflow(t) => {
                    Some(InvalidationOption::GenerationOverflow((p, t)))
                }
                InvalidationResult::InvalidPtr => None,
            },
            None => None,
        }
    }

    fn size_hint(&self) -> (usize, Option<usize>)
        ensures lower { IsWithinCount result.0
            (item_count (drain_rest A.counter A.live_entries P.Gen.last) self.now) }
        ensures upper { IfSome result.1
            (UpTo (item_count (drain_rest A.counter A.live_entries P.Gen.last) self.now)) }
        ensures exact { result
            ≡ (A.live_count (drain_arena self.now), Some (A.live_count (drain_arena self.now))) }
    {
        let len = self.arena.len();
        (len, Some(len))
    }
}

impl<'a, P: PtrCore, T: Drop, A: ArenaTrait<P, T>> ExactSizeIterator for Drain<'a, P, T, A> {
    fn len(&self) -> usize {
        self.arena.len()
    }
}

impl<'a, P: PtrCore, T: Drop, A: ArenaTrait<P, T>> FusedIterator for Drain<'a, P, T, A> {}
