//! Insertion at an index that the arena chooses.
ghost use Rattle.std.specs.Prelude.{◌≡◌, ◌<◌, refl};
ghost use Rattle.triple_arena.specs.Changes.{IsInserted};
ghost use Rattle.triple_arena.specs.Content.{entry_at, some_counter, live_count, arena_capacity};
ghost use Rattle.triple_arena.specs.Content.{next_index as next_of, inserted as inserted_of};
ghost use Rattle.triple_arena.specs.Content.{grown_if_full as grown_of, IsWellFormed};
ghost use Rattle.triple_arena.specs.ContentLaws.{next-with_value};

use crate::arena::free_slots::set_prev_at;
use crate::arena::{Arena, pointer_at};
use crate::free_inx::place_of;
use crate::{ArenaInsertTrait, ArenaSlot, ArenaSlots};
use proof_marks::{recall, unreached};
use std::mem;
use std::num::NonZeroUsize;
use triple_arena_ptr::{NotWithinCapacityError, OptionalInx, PtrCore, ReallocationError};

impl<P: PtrCore, T: Drop, S: ArenaSlots<P, T>> ArenaInsertTrait<P, T> for Arena<P, T, S> {
    ghost next_index = { next_of };

    ghost inserted = { inserted_of };

    ghost grown_if_full = { grown_of };

    ghost next_index_cleared = { λ c. refl };

    ghost next_index_with_value = { next-with_value };

    #[inline]
    fn insert_within_capacity(&mut self, t: T) -> Result<P, NotWithinCapacityError> {
        if self.live() == self.own_capacity() {
            return Err(NotWithinCapacityError);
        }
        Ok(self.insert_unwrap(t))
    }

    #[inline]
    fn insert_reallocating(&mut self, t: T) -> Result<P, ReallocationError> {
        // The arena is well-formed before.
        self.recall_formed();
        self.make_room()?;
        Ok(self.insert_unwrap(t))
    }
}

impl<P: PtrCore, T: Drop, S: ArenaSlots<P, T>> Arena<P, T, S> {
    /// The pointer that the next insertion gives. There must be room: the call makes no test.
    pub fn next_ptr(&self) -> P
        requires { live_count self.now < arena_capacity self.now }
        ensures has_index { P.index result ≡ next_of self.now }
        ensures has_generation { P.generation result ≡ self.now.counter }
    {
        // The slots are within the capacity, and that is a `usize`.
        recall!(self.slots.capacity());
        let count = self.slots.len();
        if let Some(index) = place_of::<P>(self.head) {
            return pointer_at(index, self.counter);
        }
        match NonZeroUsize::new(count + 1) {
            Some(index) => pointer_at(index, self.counter),
            None => unreached!(),
        }
    }

    // Stores `t` at the first free index, or in a slot more.
    #[inline]
    pub(crate) fn insert_in_room(&mut self, t: T) -> P
        requires { live_count self.old < arena_capacity self.old }
        ensures value { self.new ≡ inserted_of self.old t }
        ensures has_index { P.index result ≡ next_of self.old }
        ensures has_generation { P.generation result ≡ self.old.counter }
    {
        // The slots are within the capacity, so one more can be counted.
        recall!(self.slots.len());
        let slot = ArenaSlot::used(self.counter, t);
        match place_of::<P>(self.head) {
            Some(index) => {
                let old = mem::replace(self.slots.item_mut(index), slot);
                let next = old.into_next();
                set_prev_at::<P, T, S>(&mut self.slots, next, OptionalInx::none());
                self.head = next;
                self.len += 1;
                pointer_at(index, self.counter)
            }
            None => match self.slots.push_within_capacity(slot) {
                Ok(index) => {
                    self.len += 1;
                    pointer_at(index, self.counter)
                }
                Err(_) => unreached!(),
            },
        }
    }

    /// Stores `t`, and returns its pointer, which `next_ptr` told. The caller owes that there is
    /// room: the call makes no test, takes no memory and cannot fail.
    #[inline]
    pub fn insert_unwrap(&mut self, t: T) -> P
        requires { live_count self.old < arena_capacity self.old }
        ensures inserted { IsInserted entry_at live_count some_counter (next_of self.old)
            (P.index result) (P.generation result) t self.old self.new }
        ensures exact { self.new ≡ inserted_of self.old t }
        ensures room { self.new.room ≡ self.old.room }
        ensures formed { IsWellFormed self.new }
    {
        // The arena is well-formed before.
        self.recall_formed();
        let p = self.insert_in_room(t);
        // And after.
        self.recall_formed();
        p
    }
}
