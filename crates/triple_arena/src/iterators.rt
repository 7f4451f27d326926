//! Going over the live entries of an arena that is borrowed for reading, in the order of the
//! indexes.
ghost use Rattle.std.specs.Prelude.{◌≡◌, ℕ, Option, length, map as list_map, ⊤};
ghost use Rattle.std.specs.Iterator.{YieldsFirstBy, item_count};
ghost use Rattle.std.specs.Option.{option_map};
ghost use Rattle.triple_arena_ptr.specs.Index.{max_index_of};
ghost use Rattle.triple_arena.specs.Compression.{value_of};
ghost use Rattle.triple_arena.specs.Iterators.{IsCursor, IsExact, pointer_of, with_part};
ghost use Rattle.triple_arena.specs.Slot.{entry_of};
ghost use Rattle.triple_arena.specs.LiveEntries.{listed_by};

use crate::arena::pointer_at;
use crate::{ArenaSlot, DirectSlot, Part, Whole};
use proof_marks::unreached;
use std::iter::FusedIterator;
use std::marker::{Model, PhantomData};
use std::num::NonZeroUsize;
use triple_arena_ptr::PtrCore;

/// A slot, of which an iterator gives what it holds.
pub trait LentEntry<P: PtrCore, T> {
    // The generation and the value, if it is allocated.
    ghost shown: { Self → Option (ℕ × T) };

    /// The generation and the value, if the slot is allocated.
    fn lent_entry(&self) -> Option<(P::Gen, &T)>
        ensures { option_map (λ e. (P.Gen.number e.0, e.1.now)) result ≡ shown self.now };
}

impl<P: PtrCore, T> LentEntry<P, T> for ArenaSlot<P, T> {
    ghost shown = { entry_of };

    fn lent_entry(&self) -> Option<(P::Gen, &T)> {
        self.entry()
    }
}

impl<P: PtrCore, T> LentEntry<P, T> for DirectSlot<P, T> {
    ghost shown = { λ s. s };

    fn lent_entry(&self) -> Option<(P::Gen, &T)> {
        self.entry()
    }
}

/// The pointers and the values of the live entries, in the order of the indexes, seen as the list
/// of the entries that are left. Of each value it gives the part that `M` shows.
#[derive(Drop)]
pub struct Iter<'a, P: PtrCore, V, T, E: LentEntry<P, V>, M: Part<V, T>> {
    slots: &'a [E],
    // How many slots came before.
    passed: usize,
    // How many of those that are left are allocated.
    left: usize,
    entries: PhantomData<(P, &'a V, &'a T, M)>,
}

impl<'a, P: PtrCore, V, T, E: LentEntry<P, V>, M: Part<V, T>> Model for Iter<'a, P, V, T, E, M> {
    ghost use Rattle.std.specs.Prelude.{ℕ, List, map};
    ghost use Rattle.triple_arena_ptr.specs.Index.{max_index_of};
    ghost use Rattle.triple_arena.specs.Iterators.{IsCursor, listed_behind, with_part};

    ghost Value = { List (ℕ × (ℕ × T)) };

    ghost view = { λ it. map (with_part M.part)
        (listed_behind it.passed (map E.shown it.slots.now)) };

    ghost invariant = { λ it. IsCursor E.shown it.slots.now it.passed it.left
        (max_index_of P.Inx.greatest) };
}

impl<'a, P: PtrCore, T, E: LentEntry<P, T>> Iter<'a, P, T, T, E, Whole> {
    // Over the slots from index 1 on, so many of which are allocated.
    pub(crate) fn over(slots: &'a [E], left: usize) -> Self
        requires cursor { IsCursor E.shown slots.now 0 left (max_index_of P.Inx.greatest) }
        requires no_more { ⊤ }
        ensures { result ≡ listed_by E.shown slots.now }
    {
        Iter {
            slots,
            passed: 0,
            left,
            entries: PhantomData,
        }
    }

    /// The iterator over these entries that gives of each value the part that `M` shows.
    pub fn shown_by<U, M: Part<T, U>>(self) -> Iter<'a, P, T, U, E, M>
        ensures { result ≡ list_map (with_part M.part) self.entry }
    {
        Iter {
            slots: self.slots,
            passed: self.passed,
            left: self.left,
            entries: PhantomData,
        }
    }

    /// The pointers to the entries that are left.
    pub fn into_ptrs(self) -> Ptrs<'a, P, T, E>
        ensures { result ≡ list_map pointer_of self.entry }
    {
        Ptrs { entries: self }
    }
}

impl<'a, P: PtrCore, V, T, E: LentEntry<P, V>, M: Part<V, T>> Iter<'a, P, V, T, E, M> {
    /// The values of the entries that are left.
    pub fn into_vals(self) -> Vals<'a, P, V, T, E, M>
        ensures { result ≡ list_map value_of self.entry }
    {
        Vals { entries: self }
    }
}

impl<'a, P: PtrCore, V, T, E: LentEntry<P, V>, M: Part<V, T>> Iterator for Iter<'a, P, V, T, E, M> {
    type Item = (P, &'a T);

    ghost next_gives = { YieldsFirstBy (λ e. (P.index e.0, (P.generation e.0, e.1.now)))
        (λ left. left) };

    ghost remaining = { item_count (λ left. left) };

    fn next(&mut self) -> Option<(P, &'a T)> {
        while let Some(slot) = self.slots.get(self.passed) {
            self.passed += 1;
            if let Some((generation, value)) = slot.lent_entry() {
                self.left -= 1;
                let Some(index) = NonZeroUsize::new(self.passed) else {
                    unreached!()
                };
                return Some((pointer_at(index, generation), M::part_of(value)));
            }
        }
        None
    }

    fn size_hint(&self) -> (usize, Option<usize>)
        ensures { IsExact result (length self.now) }
    {
        (self.left, Some(self.left))
    }
}

impl<'a, P: PtrCore, V, T, E: LentEntry<P, V>, M: Part<V, T>> ExactSizeIterator
    for Iter<'a, P, V, T, E, M> {
    fn len(&self) -> usize {
        self.left
    }
}

impl<'a, P: PtrCore, V, T, E: LentEntry<P, V>, M: Part<V, T>> FusedIterator
    for Iter<'a, P, V, T, E, M> {}

/// The pointers to the live entries, in the order of the indexes, seen as the list of those that
/// are left.
#[derive(Drop)]
pub struct Ptrs<'a, P: PtrCore, T, E: LentEntry<P, T>> {
    entries: Iter<'a, P, T, T, E, Whole>,
}

impl<'a, P: PtrCore, T, E: LentEntry<P, T>> Model for Ptrs<'a, P, T, E> {
    ghost use Rattle.std.specs.Prelude.{ℕ, List, map};
    ghost use Rattle.triple_arena.specs.Iterators.{pointer_of};

    ghost Value = { List (ℕ × ℕ) };

    ghost view = { λ it. map pointer_of it.entries };
}

impl<'a, P: PtrCore, T, E: LentEntry<P, T>> Iterator for Ptrs<'a, P, T, E> {
    type Item = P;

    ghost next_gives = { YieldsFirstBy (λ p. (P.index p, P.generation p)) (λ left. left) };

    ghost remaining = { item_count (λ left. left) };

    fn next(&mut self) -> Option<P> {
        match self.entries.next() {
            Some((p, _)) => Some(p),
            None => None,
        }
    }

    fn size_hint(&self) -> (usize, Option<usize>)
        ensures { IsExact result (length self.now) }
    {
        self.entries.size_hint()
    }
}

impl<'a, P: PtrCore, T, E: LentEntry<P, T>> ExactSizeIterator for Ptrs<'a, P, T, E> {
    fn len(&self) -> usize {
        self.entries.len()
    }
}

impl<'a, P: PtrCore, T, E: LentEntry<P, T>> FusedIterator for Ptrs<'a, P, T, E> {}

/// The values of the live entries, in the order of the indexes, seen as the list of those that are
/// left. Of each it gives the part that `M` shows.
#[derive(Drop)]
pub struct Vals<'a, P: PtrCore, V, T, E: LentEntry<P, V>, M: Part<V, T>> {
    entries: Iter<'a, P, V, T, E, M>,
}

impl<'a, P: PtrCore, V, T, E: LentEntry<P, V>, M: Part<V, T>> Model for Vals<'a, P, V, T, E, M> {
    ghost use Rattle.std.specs.Prelude.{List, map};
    ghost use Rattle.triple_arena.specs.Compression.{value_of};

    ghost Value = { List T };

    ghost view = { λ it. map value_of it.entries };
}

impl<'a, P: PtrCore, V, T, E: LentEntry<P, V>, M: Part<V, T>> Iterator for Vals<'a, P, V, T, E, M> {
    type Item = &'a T;

    ghost next_gives = { YieldsFirstBy (λ value. value.now) (λ left. left) };

    ghost remaining = { item_count (λ left. left) };

    fn next(&mut self) -> Option<&'a T> {
        match self.entries.next() {
            Some((_, value)) => Some(value),
            None => None,
        }
    }

    fn size_hint(&self) -> (usize, Option<usize>)
        ensures { IsExact result (length self.now) }
    {
        self.entries.size_hint()
    }
}

impl<'a, P: PtrCore, V, T, E: LentEntry<P, V>, M: Part<V, T>> ExactSizeIterator
    for Vals<'a, P, V, T, E, M> {
    fn len(&self) -> usize {
        self.entries.len()
    }
}

impl<'a, P: PtrCore, V, T, E: LentEntry<P, V>, M: Part<V, T>> FusedIterator
    for Vals<'a, P, V, T, E, M> {}
