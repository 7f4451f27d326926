//! The calls of an `Arena` that every arena has.
ghost use Rattle.std.specs.Prelude.{◌≡◌, true, [], length, Some, None, refl};
ghost use Rattle.triple_arena_ptr.specs.Generation.{second_generation};
ghost use Rattle.triple_arena.specs.ArenaRoom.{room_of};
ghost use Rattle.triple_arena.specs.Content.{some_counter, entry_at as entry_of_index};
ghost use Rattle.triple_arena.specs.Content.{live_count as live_count_of, empty as empty_of};
ghost use Rattle.triple_arena.specs.Content.{reallocated as reallocated_of, removed as removed_of};
ghost use Rattle.triple_arena.specs.Content.{invalidated as invalidated_of, cleared as cleared_of};
ghost use Rattle.triple_arena.specs.Content.{with_value as with_value_of, IsWellFormed};
ghost use Rattle.triple_arena.specs.ContentLaws.{entry-with_value, live-with_value};
ghost use Rattle.triple_arena.specs.ContentLaws.{some_counter-with_value, room-with_value};
ghost use Rattle.triple_arena.specs.Drains.{drained as drained_of};
ghost use Rattle.triple_arena.specs.DrainLaws.{drained-leaves};
ghost use Rattle.triple_arena.specs.LiveEntries.{live_entries as live_entries_of, entry-listed};
ghost use Rattle.triple_arena.specs.LiveEntries.{live_entries-increase, live_entries-length};
ghost use Rattle.triple_arena.specs.Compression.{renewed, compacted};

use crate::advancer::{LivePointers, PtrAdvancer};
use crate::answers::{answer, valid};
use crate::arena::compression::{compact, renewal};
use crate::arena::reading::ValueAtMut;
use crate::arena::removal::equal_uncounted;
use crate::arena::{Arena, max_index};
use crate::{ArenaSlot, ArenaSlots, ArenaTrait, CompactArenaTrait};
use proof_marks::{recall, unreached};
use triple_arena_ptr::{
    InvalidationOption, InvalidationResult, OptionalInx, PtrCore, PtrGenCore, PtrInxCore,
    ReallocationError,
};
use triple_arena_stack::NonZeroInxArray;

impl<P: PtrCore, T: Drop, S: ArenaSlots<P, T>> ArenaTrait<P, T> for Arena<P, T, S> {
    type Alloc = S::Alloc;

    type PtrAdvancer = PtrAdvancer<P>;

    ghost entry_at = { entry_of_index };

    ghost live_count = { live_count_of };

    ghost counter = { some_counter };

    ghost has_counter = { true };

    ghost slot_count = { λ c. length c.slots };

    ghost room = { λ c. c.room };

    ghost takes_memory = { S.takes_memory };

    ghost room_at = { λ n. room_of P.Inx.greatest (S.room_at n) };

    ghost empty = { empty_of (second_generation P.Gen.last) };

    ghost reallocated = { reallocated_of };

    ghost with_value = { with_value_of };

    ghost is_formed = { IsWellFormed };

    ghost is_removed = { λ c i new. new ≡ removed_of P.Gen.last c i };

    ghost invalidated = { invalidated_of P.Gen.last };

    ghost cleared = { cleared_of P.Gen.last };

    ghost drained = { drained_of P.Gen.last };

    ghost is_compressed = { λ c reset values new. new
        ≡ compacted (renewed P.Gen.last reset c.counter) values c };

    ghost walk = { λ a. a };

    ghost counter_if_has_counter = { λ c. refl };

    ghost none_at_zero = { λ c. refl };

    ghost advances = { λ before c given after step. step };

    ghost live_entries = { live_entries_of };

    ghost entry_with_value = { entry-with_value };

    ghost live_with_value = { live-with_value };

    ghost counter_with_value = { some_counter-with_value };

    ghost room_with_value = { room-with_value };

    ghost drains = { drained-leaves _ P.Gen.last };

    ghost entry_listed = { entry-listed };

    ghost live_entries_increase = { live_entries-increase };

    ghost live_entries_counted = { live_entries-length };

    fn new(alloc: S::Alloc) -> Self {
        Arena::over(S::new(alloc))
    }

    fn with_min_capacity(alloc: S::Alloc, min: usize) -> Result<Self, ReallocationError> {
        if min > max_index::<P>() {
            // `alloc` need not be `Drop`, but a stack over it is.
            drop(Self::new(alloc));
            return Err(ReallocationError::BeyondMaxCapacity);
        }
        let slots = S::with_min_capacity(alloc, min)?;
        Ok(Arena::over(slots))
    }

    fn capacity(&self) -> usize {
        self.own_capacity()
    }

    fn max_capacity(&self) -> Option<usize> {
        self.limit()
    }

    fn reallocate_min_capacity(&mut self, min: usize) -> Result<(), ReallocationError> {
        let made = self.reallocate(min);
        // The arena is well-formed after.
        self.recall_formed();
        made
    }

    fn len(&self) -> usize {
        self.live()
    }

    fn singular_generation(&self) -> Option<P::Gen> {
        // The counter is a generation.
        recall!(self.counter.generational_inc());
        Some(self.counter)
    }

    fn contains(&self, p: P) -> bool {
        // It is one of the generations.
        recall!(p.generation().generational_inc());
        self.live_index(p).is_some()
    }

    fn get_inx(&self, i: P::Inx) -> Option<(P::Gen, &T)> {
        // The number of slots is a `usize`, so no index past that is live.
        recall!(self.slots.len());
        match i.try_into_usize() {
            Some(i) => match self.slots.get(i) {
                Some(slot) => slot.entry(),
                None => None,
            },
            None => None,
        }
    }

    fn get_inx_mut_unwrap(&mut self, i: P::Inx) -> &mut T {
        // The number of slots is a `usize`, so no index past that is live.
        recall!(self.slots.len());
        match i.try_into_usize() {
            Some(i) => self.value_at_mut(i),
            None => unreached!(),
        }
    }

    fn find_first_inx_ptr(&self) -> Option<P> {
        self.first_of_all()
    }

    fn find_last_inx_ptr(&self) -> Option<P> {
        self.last_of_all()
    }

    fn advancer(&self) -> PtrAdvancer<P> {
        PtrAdvancer::over(0, self.slot_count(), false)
    }

    fn advancer_inx(&self, i: P::Inx, rev: bool) -> PtrAdvancer<P> {
        PtrAdvancer::from_index(i, self.slot_count(), rev)
    }

    #[inline(always)]
    fn take_inx_unwrap(&mut self, i: P::Inx) -> ((P::Gen, T), bool) {
        // The number of slots is a `usize`, so no index past that is live.
        recall!(self.slots.len());
        match i.try_into_usize() {
            Some(i) => self.remove_at(i),
            None => unreached!(),
        }
    }

    fn invalidate(&mut self, p: P) -> InvalidationResult<P> {
        // The arena is well-formed before.
        self.recall_formed();
        match self.live_index(p) {
            Some(i) => {
                let wrapped = self.step();
                let renewed = self.renew_at(i);
                equal_uncounted(renewed, p);
                // And after.
                self.recall_formed();
                valid(answer(wrapped, renewed))
            }
            None => InvalidationResult::InvalidPtr,
        }
    }

    fn clear(&mut self) -> InvalidationOption<()> {
        self.empty();
        let wrapped = self.step();
        // The arena is well-formed after.
        self.recall_formed();
        answer(wrapped, ())
    }

    fn take_all(&mut self) {
        let mut left = self.live();
        while left > 0 {
            let _ = self.step();
            left -= 1;
        }
        self.empty();
        // The arena is well-formed after.
        self.recall_formed();
    }

    fn compress_with<F: FnMut(P, T, P) -> T>(
        &mut self,
        reset: bool,
        map: F,
    ) -> InvalidationOption<()> {
        // The slots are within the capacity, and so are their indexes.
        recall!(self.own_capacity());
        let (generation, wrapped) = renewal(self.counter, reset);
        compact(&mut self.slots, Some(generation), reset, map);
        self.counter = generation;
        self.head = OptionalInx::none();
        // The arena is well-formed after.
        self.recall_formed();
        answer(wrapped, ())
    }
}

impl<P: PtrCore, T: Drop, S: ArenaSlots<P, T>> CompactArenaTrait<P, T> for Arena<P, T, S> {}

impl<P: PtrCore, T: Drop, const LIMIT: usize> Default
    for Arena<P, T, NonZeroInxArray<ArenaSlot<P, T>, LIMIT>> {
    ghost is_default = { λ c. (c.slots ≡ []) × (c.free ≡ [])
        × (c.counter ≡ second_generation P.Gen.last)
        × (c.room ≡ room_of P.Inx.greatest (record { reserved = LIMIT; limit = Some LIMIT })) };

    /// An empty arena in an array.
    fn default() -> Self {
        Arena::new(())
    }
}
