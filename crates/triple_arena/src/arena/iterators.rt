//! Going over the entries of an arena by iterators.
ghost use Rattle.std.specs.Prelude.{◌≡◌, map};
ghost use Rattle.std.specs.Borrow.{sem};
ghost use Rattle.triple_arena.specs.Compression.{value_of};
ghost use Rattle.triple_arena.specs.Content.{IsWellFormed};
ghost use Rattle.triple_arena.specs.IterMut.{follows_values, name, rest, with_values_of};
ghost use Rattle.triple_arena.specs.Iterators.{pointer_of};
ghost use Rattle.triple_arena.specs.LiveEntries.{live_entries};
ghost use Rattle.triple_arena.specs.contracts.arena.Arena.{the_row};

use crate::arena_iterators::{CapacityDrain, Iter, IterMut, Ptrs, Vals, ValsMut};
use crate::lent_slots::LendsSlots;
use crate::{Arena, ArenaSlots, iter_mut, iterators};
use proof_marks::recall;
use triple_arena_ptr::PtrCore;

impl<P: PtrCore, T: Drop, S: ArenaSlots<P, T>> Arena<P, T, S> {
    /// The pointers to the entries, in the order of the indexes.
    pub fn ptrs(&self) -> Ptrs<'_, P, T>
        ensures { result ≡ map pointer_of (live_entries self.now) }
    {
        self.iter().into_ptrs()
    }

    /// The values, in the order of the indexes.
    pub fn vals(&self) -> Vals<'_, P, T>
        ensures { result ≡ map value_of (live_entries self.now) }
    {
        self.iter().into_vals()
    }

    /// The pointers and the values of the entries, in the order of the indexes.
    pub fn iter(&self) -> Iter<'_, P, T>
        ensures { result ≡ live_entries self.now }
    {
        // Each slot has an index of the pointer type.
        recall!(self.own_capacity());
        iterators::Iter::over(self.slots.as_slice(), self.len)
    }

    /// The values, each for writing, in the order of the indexes. Afterwards the arena is as it
    /// was, but for the values that were written.
    pub fn vals_mut(&mut self) -> ValsMut<'_, P, T>
        ensures* writes_back { sem 𝓛 (follows_values
            (the_row P.row T.row S.row P.Inx.row P.Gen.row P.Inx.Word.row S.Alloc.row
            P.PtrCore P.Inx.PtrInxCore.own P.Inx.PartialEq P.Gen.PtrGenCore.own P.Gen.PartialEq
            S.NonZeroInxGenericStack)
            self.entry.ghost_name (name result) (with_values_of self.old)) }
        ensures rest { rest result ≡ map value_of (live_entries self.old) }
        ensures formed { IsWellFormed self.old }
    {
        self.iter_mut().into_vals()
    }

    /// The pointers and the values of the entries, each value for writing, in the order of the
    /// indexes. Afterwards the arena is as it was, but for the values that were written.
    pub fn iter_mut(&mut self) -> IterMut<'_, P, T>
        ensures* writes_back { sem 𝓛 (follows_values
            (the_row P.row T.row S.row P.Inx.row P.Gen.row P.Inx.Word.row S.Alloc.row
            P.PtrCore P.Inx.PtrInxCore.own P.Inx.PartialEq P.Gen.PtrGenCore.own P.Gen.PartialEq
            S.NonZeroInxGenericStack)
            self.entry.ghost_name (name result) (with_values_of self.old)) }
        ensures rest { rest result ≡ live_entries self.old }
        ensures formed { IsWellFormed self.old }
    {
        // Each slot has an index of the pointer type.
        recall!(self.own_capacity());
        let left = self.live();
        iter_mut::IterMut::over(self.lend_slots(), left)
    }
}

impl<'a, P: PtrCore, T: Drop, S: ArenaSlots<P, T>> IntoIterator for &'a Arena<P, T, S> {
    type Item = (P, &'a T);

    type IntoIter = Iter<'a, P, T>;

    ghost into_iter_gives = { λ arena it. it ≡ live_entries arena.now };

    fn into_iter(self) -> Iter<'a, P, T> {
        self.iter()
    }
}

impl<'a, P: PtrCore, T: Drop, S: ArenaSlots<P, T>> IntoIterator for &'a mut Arena<P, T, S> {
    type Item = (P, &'a mut T);

    type IntoIter = IterMut<'a, P, T>;

    ghost into_iter_gives = { λ arena it. rest it ≡ live_entries arena.now };

    fn into_iter(self) -> IterMut<'a, P, T>
        ensures* writes_back { sem 𝓛 (follows_values
            (the_row P.row T.row S.row P.Inx.row P.Gen.row P.Inx.Word.row S.Alloc.row
            P.PtrCore P.Inx.PtrInxCore.own P.Inx.PartialEq P.Gen.PtrGenCore.own P.Gen.PartialEq
            S.NonZeroInxGenericStack)
            self.entry.ghost_name (name result) (with_values_of self.old)) }
        ensures into_iter_gives { rest result ≡ live_entries self.old }
        ensures formed { IsWellFormed self.old }
    {
        self.iter_mut()
    }
}

impl<P: PtrCore, T: Drop, S: ArenaSlots<P, T>> IntoIterator for Arena<P, T, S> {
    type Item = (P, T);

    type IntoIter = CapacityDrain<P, T, S>;

    ghost into_iter_gives = { λ arena it. it ≡ live_entries arena };

    fn into_iter(self) -> CapacityDrain<P, T, S> {
        CapacityDrain::of(self)
    }
}
