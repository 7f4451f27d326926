//! Going over the live entries of an arena, each value borrowed for writing, in the order of the
//! indexes.
ghost use Rattle.std.specs.Prelude.{◌≡◌, ◌≤◌, length, map, refl};
ghost use Rattle.std.specs.Iterator.{at_most, YieldsFirstBy, YieldsFirstMut};
ghost use Rattle.triple_arena_ptr.specs.Index.{max_index_of};
ghost use Rattle.triple_arena.specs.Compression.{value_of};
ghost use Rattle.triple_arena.specs.IterMut.{rest, name, entries_of};
ghost use Rattle.triple_arena.specs.Iterators.{IsExact};

use crate::arena::pointer_at;
use crate::lent_slots::{LentSlots, LentValue, SlotKey};
use crate::{ArenaSlot, DirectSlot};
use proof_marks::unreached;
use std::iter::FusedIterator;
use std::marker::{Model, PhantomData};
use std::num::NonZeroUsize;
use triple_arena_ptr::PtrCore;

/// A slot whose value an iterator borrows for writing, beside its generation.
pub trait LentEntryMut<P: PtrCore, T>: LentValue<T> + SlotKey<P::Gen> {
    // Its key is the generation.
    ghost numbers: { (generation : P.Gen) → Self.number_of generation
        ≡ P.Gen.number generation };
}

impl<P: PtrCore, T> LentEntryMut<P, T> for ArenaSlot<P, T> {
    ghost numbers = { λ _. refl };
}

impl<P: PtrCore, T> LentEntryMut<P, T> for DirectSlot<P, T> {
    ghost numbers = { λ _. refl };
}

/// The pointers and the values of the live entries, each value for writing, in the order of the
/// indexes, seen as the list of the entries that are left and the name of their loan.
#[derive(Drop)]
pub struct IterMut<'a, P: PtrCore, T, E: LentEntryMut<P, T>> {
    slots: LentSlots<'a, T, E>,
    // How many slots came before.
    passed: usize,
    // How many of those that are left are allocated.
    left: usize,
    pointers: PhantomData<P>,
}

impl<'a, P: PtrCore, T, E: LentEntryMut<P, T>> Model for IterMut<'a, P, T, E> {
    ghost use Rattle.std.specs.Prelude.{ℕ, List, ◌≡◌, ◌≤◌, ◌+◌, length};
    ghost use base.Fml.{GName};
    ghost use Rattle.triple_arena_ptr.specs.Index.{max_index_of};
    ghost use Rattle.triple_arena.specs.IterMut.{entries_of};

    ghost Value = { List (ℕ × (ℕ × T)) × GName };

    ghost view = { λ it. (
      entries_of E.key_number E.held (it.passed + 1) it.slots.run,
      it.slots.tie,
    ) };

    ghost invariant = { λ it.
        (it.left ≡ length (entries_of E.key_number E.held (it.passed + 1) it.slots.run))
        × (it.passed + length it.slots.run ≤ max_index_of P.Inx.greatest) };
}

impl<'a, P: PtrCore, T, E: LentEntryMut<P, T>> IterMut<'a, P, T, E> {
    // Over the slots from index 1 on, so many of which are allocated.
    pub(crate) fn over(slots: LentSlots<'a, T, E>, left: usize) -> Self
        requires counted { left ≡ length (entries_of E.key_number E.held 1 slots.run) }
        requires indexed { length slots.run ≤ max_index_of P.Inx.greatest }
        ensures rest { rest result ≡ entries_of E.key_number E.held 1 slots.entry.run }
        ensures name { name result ≡ slots.entry.tie }
    {
        IterMut {
            slots,
            passed: 0,
            left,
            pointers: PhantomData,
        }
    }

    /// The values of the entries that are left.
    pub fn into_vals(self) -> ValsMut<'a, P, T, E>
        ensures rest { rest result ≡ map value_of (rest self.entry) }
        ensures name { name result ≡ name self.entry }
    {
        ValsMut { entries: self }
    }
}

impl<'a, P: PtrCore, T, E: LentEntryMut<P, T>> Iterator for IterMut<'a, P, T, E> {
    type Item = (P, &'a mut T);

    ghost next_gives = { YieldsFirstBy (λ e. (P.index e.0, (P.generation e.0, e.1.now))) rest };

    ghost remaining = { λ s. at_most (length (rest s)) };

    fn next(&mut self) -> Option<(P, &'a mut T)> {
        while self.left > 0 {
            self.passed += 1;
            let mut slot = self.slots.pop();
            if let Some(generation) = slot.key() {
                if let Some(value) = slot.into_value() {
                    self.left -= 1;
                    let Some(index) = NonZeroUsize::new(self.passed) else {
                        unreached!()
                    };
                    return Some((pointer_at(index, generation), value));
                }
            }
        }
        None
    }

    fn size_hint(&self) -> (usize, Option<usize>)
        ensures { IsExact result (length (rest self.now)) }
    {
        (self.left, Some(self.left))
    }
}

impl<'a, P: PtrCore, T, E: LentEntryMut<P, T>> ExactSizeIterator for IterMut<'a, P, T, E> {
    fn len(&self) -> usize {
        self.left
    }
}

impl<'a, P: PtrCore, T, E: LentEntryMut<P, T>> FusedIterator for IterMut<'a, P, T, E> {}

/// The values of the live entries, each for writing, in the order of the indexes, seen as the list
/// of those that are left and the name of their loan.
#[derive(Drop)]
pub struct ValsMut<'a, P: PtrCore, T, E: LentEntryMut<P, T>> {
    entries: IterMut<'a, P, T, E>,
}

impl<'a, P: PtrCore, T, E: LentEntryMut<P, T>> Model for ValsMut<'a, P, T, E> {
    ghost use Rattle.std.specs.Prelude.{List, map};
    ghost use base.Fml.{GName};
    ghost use Rattle.triple_arena.specs.Compression.{value_of};

    ghost Value = { List T × GName };

    ghost view = { λ it. (map value_of it.entries.0, it.entries.1) };
}

impl<'a, P: PtrCore, T, E: LentEntryMut<P, T>> Iterator for ValsMut<'a, P, T, E> {
    type Item = &'a mut T;

    ghost next_gives = { YieldsFirstMut rest };

    ghost remaining = { λ s. at_most (length (rest s)) };

    fn next(&mut self) -> Option<&'a mut T> {
        match self.entries.next() {
            Some((_, value)) => Some(value),
            None => None,
        }
    }

    fn size_hint(&self) -> (usize, Option<usize>)
        ensures { IsExact result (length (rest self.now)) }
    {
        self.entries.size_hint()
    }
}

impl<'a, P: PtrCore, T, E: LentEntryMut<P, T>> ExactSizeIterator for ValsMut<'a, P, T, E> {
    fn len(&self) -> usize {
        self.entries.len()
    }
}

impl<'a, P: PtrCore, T, E: LentEntryMut<P, T>> FusedIterator for ValsMut<'a, P, T, E> {}
