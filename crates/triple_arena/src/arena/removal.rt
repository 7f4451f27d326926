//! Removal, and the end of a pointer.
ghost use Rattle.std.specs.Prelude.{◌≡◌, Some, None, IsSome};
ghost use Rattle.std.specs.Int.NonZero.{non_zero_usize_get as at};
ghost use Rattle.triple_arena_ptr.specs.Generation.{next_wraps};
ghost use Rattle.triple_arena.specs.Changes.{IsRemoved};
ghost use Rattle.triple_arena.specs.Content.{entry_at, some_counter, live_count, with_generation};
ghost use Rattle.triple_arena.specs.Content.{vacated, removed, emptied, IsWellFormed};

use crate::arena::free_slots::set_prev_at;
use crate::arena::{Arena, pointer_at};
use crate::free_inx::free_at;
use crate::{ArenaSlot, ArenaSlots};
use proof_marks::{recall, unreached};
use std::mem;
use std::num::NonZeroUsize;
use triple_arena_ptr::{OptionalInx, PtrCore, PtrGenCore, PtrInxCore};

impl<P: PtrCore, T: Drop, S: ArenaSlots<P, T>> Arena<P, T, S> {
    // Removes the entry at `i`, which is live, steps the counter, and says whether the generations
    // wrapped.
    #[inline]
    pub(crate) fn remove_at(&mut self, i: NonZeroUsize) -> ((P::Gen, T), bool)
        requires { IsSome (entry_at self.old (at i)) }
        ensures value { self.new ≡ removed P.Gen.last self.old (at i) }
        ensures entry { Some (P.Gen.number result.0.0, result.0.1) ≡ entry_at self.old (at i) }
        ensures overflow { result.1 ≡ next_wraps P.Gen.last self.old.counter }
        ensures removed { IsRemoved entry_at live_count some_counter (λ c. c.room) P.Gen.last
            (at i) self.old self.new }
        ensures formed { IsWellFormed self.new }
    {
        // The arena is well-formed before.
        self.recall_formed();
        let entry = self.take_at(i);
        let wrapped = self.step();
        // And after.
        self.recall_formed();
        (entry, wrapped)
    }

    // Takes the entry at `i`, which is live, and leaves the counter.
    #[inline]
    pub(crate) fn take_at(&mut self, i: NonZeroUsize) -> (P::Gen, T)
        requires { IsSome (entry_at self.old (at i)) }
        ensures value { self.new ≡ vacated self.old (at i) }
        ensures entry { Some (P.Gen.number result.0, result.1) ≡ entry_at self.old (at i) }
    {
        // The head is read once: the writes of slots do not change it.
        let head = self.head;
        let free = ArenaSlot::free(OptionalInx::none(), head);
        // Either way the slot is taken out here, so that it is not moved where the ways meet.
        let slot = mem::replace(self.slots.item_mut(i), free);
        if i.get() == self.slots.len() {
            drop(self.slots.pop());
        } else {
            let first = free_at::<P>(i);
            set_prev_at::<P, T, S>(&mut self.slots, head, first);
            self.head = first;
        }
        self.len -= 1;
        slot.into_entry()
    }

    // Gives the entry at `i`, which is live, the generation of the counter.
    pub(crate) fn renew_at(&mut self, i: NonZeroUsize) -> P
        requires { IsSome (entry_at self.old (at i)) }
        ensures value { self.new ≡ with_generation self.old (at i) self.old.counter }
        ensures has_index { P.index result ≡ at i }
        ensures has_generation { P.generation result ≡ self.old.counter }
    {
        self.slots.item_mut(i).set_generation(self.counter);
        pointer_at(i, self.counter)
    }

    // Drops every entry and every slot, and leaves the counter.
    pub(crate) fn empty(&mut self)
        ensures value { self.new ≡ emptied self.old }
    {
        self.slots.clear();
        self.head = OptionalInx::none();
        self.len = 0;
    }
}

// If generations are not counted, all are 1, and pointers with one index are equal.
pub(crate) fn equal_uncounted<P: PtrCore>(p: P, q: P)
    ensures { P.Gen.last ≡ None → P.index p ≡ P.index q → p ≡ q }
{
    // Each is one of the generations.
    recall!(p.generation().generational_inc());
    recall!(q.generation().generational_inc());
}
