//! Taking the entries out of an arena along the list.
ghost use Rattle.std.specs.Prelude.{◌≡◌, Some, IfSome};
ghost use Rattle.std.specs.Iterator.{item_count, UpTo};
ghost use Rattle.std.specs.Iterator.SizeHint.{IsWithinCount};
ghost use Rattle.triple_arena_ord.specs.Ordered.{IsOrdered, size_in};
ghost use Rattle.triple_arena_ord.specs.OrderedDrains.{drain_arena, drain_lender, drain_rest};
ghost use Rattle.triple_arena_ord.specs.OrderedDrains.{drain_leaves, DrainSteps, DrainKeepsAlong};

use crate::{OrdSlots, SimpleOrdArena};
use std::iter::FusedIterator;
use triple_arena::{ArenaTrait, InvalidationOption, PtrCore};

/// Takes the entries out of an arena, from the first of the list to the last.
///
/// Each item is one removal, which steps the counter; it is `GenerationOverflow` if that step
/// wrapped. If the iterator is dropped, at whatever item, it clears the arena: the entries that are
/// left go at once, by one step of the counter more, which is made also if none is left, and no
/// slot stays.
pub struct OrderedDrain<'a, P: PtrCore, T: Drop, S: OrdSlots<P, T>> {
    arena: &'a mut SimpleOrdArena<P, T, S>,
}

impl<P: PtrCore, T: Drop, S: OrdSlots<P, T>> SimpleOrdArena<P, T, S> {
    /// Takes each entry out, from the first of the list to the last. Once the iterator is dropped
    /// the arena has no entry and no slot, its counter has stepped once for each item and once
    /// more, and its room is as it was.
    pub fn drain_ordered(&mut self) -> OrderedDrain<'_, P, T, S>
        ensures entries { drain_arena result ≡ self.old }
        ensures same_reference { drain_lender result ≡ self.entry.ghost_name }
        ensures stays { DrainKeepsAlong P.Gen.last P.index P.generation result }
    {
        OrderedDrain { arena: self }
    }
}

impl<'a, P: PtrCore, T: Drop, S: OrdSlots<P, T>> Drop for OrderedDrain<'a, P, T, S> {
    fn drop(self)
        ensures value { self.exit.0.now ≡ drain_leaves P.Gen.last self.entry }
        ensures ordered { IsOrdered self.exit.0.now }
    {
        let OrderedDrain { arena } = self;
        drop(arena.clear());
    }
}

impl<'a, P: PtrCore, T: Drop, S: OrdSlots<P, T>> Iterator for OrderedDrain<'a, P, T, S> {
    type Item = InvalidationOption<(P, T)>;

    ghost next_gives = { DrainSteps P.Gen.last P.index P.generation };

    ghost remaining = { item_count (drain_rest P.Gen.last) };

    fn next(&mut self) -> Option<InvalidationOption<(P, T)>> {
        self.arena.pop_first()
    }

    fn size_hint(&self) -> (usize, Option<usize>)
        ensures lower { IsWithinCount result.0 (item_count (drain_rest P.Gen.last) self.now) }
        ensures upper { IfSome result.1 (UpTo (item_count (drain_rest P.Gen.last) self.now)) }
        ensures exact { result
            ≡ (size_in (drain_arena self.now), Some (size_in (drain_arena self.now))) }
    {
        let len = self.arena.len();
        (len, Some(len))
    }
}

impl<'a, P: PtrCore, T: Drop, S: OrdSlots<P, T>> ExactSizeIterator for OrderedDrain<'a, P, T, S> {
    fn len(&self) -> usize {
        self.arena.len()
    }
}

impl<'a, P: PtrCore, T: Drop, S: OrdSlots<P, T>> FusedIterator for OrderedDrain<'a, P, T, S> {}
