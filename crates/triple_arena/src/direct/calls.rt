//! The calls of a `DirectArena` that every arena has.
ghost use Rattle.std.specs.Prelude.{◌≡◌, false, [], length, Some, None, refl};
ghost use Rattle.triple_arena.specs.ArenaRoom.{room_of};
ghost use Rattle.triple_arena.specs.DirectContent.{as_content, no_counter};
ghost use Rattle.triple_arena.specs.DirectContent.{entry_at as entry_of_index};
ghost use Rattle.triple_arena.specs.DirectContent.{live_count as live_count_of};
ghost use Rattle.triple_arena.specs.DirectContent.{live_entries as live_entries_of};
ghost use Rattle.triple_arena.specs.DirectContent.{empty as empty_of};
ghost use Rattle.triple_arena.specs.DirectContent.{reallocated as reallocated_of};
ghost use Rattle.triple_arena.specs.DirectContent.{removed as removed_of};
ghost use Rattle.triple_arena.specs.DirectContent.{invalidated as invalidated_of};
ghost use Rattle.triple_arena.specs.DirectContent.{cleared as cleared_of};
ghost use Rattle.triple_arena.specs.DirectContent.{compressed as compressed_of};
ghost use Rattle.triple_arena.specs.DirectContent.{with_value as with_value_of};
ghost use Rattle.triple_arena.specs.DirectContent.{IsWellFormed as IsFormed};
ghost use Rattle.triple_arena.specs.DirectLaws.{entry-with_value, live-with_value, room-with_value};
ghost use Rattle.triple_arena.specs.DrainLaws.{directly_drained-leaves};
ghost use Rattle.triple_arena.specs.LiveEntries.{entry-listed, live_entries-increase};
ghost use Rattle.triple_arena.specs.LiveEntries.{live_entries-length};

use crate::advancer::{LivePointers, PtrAdvancer};
use crate::answers::{answer, valid};
use crate::arena::{ValueAtMut, compact, equal_uncounted, max_index};
use crate::direct::DirectArena;
use crate::{ArenaTrait, CompactArenaTrait, DirectSlot, DirectSlots};
use proof_marks::{recall, unreached};
use triple_arena_ptr::{
    InvalidationOption, InvalidationResult, PtrCore, PtrGenCore, PtrInxCore, ReallocationError,
};
use triple_arena_stack::NonZeroInxArray;

impl<P: PtrCore, T: Drop, S: DirectSlots<P, T>> ArenaTrait<P, T> for DirectArena<P, T, S> {
    type Alloc = S::Alloc;

    type PtrAdvancer = PtrAdvancer<P>;

    ghost entry_at = { entry_of_index };

    ghost live_count = { live_count_of };

    ghost counter = { no_counter };

    ghost has_counter = { false };

    ghost slot_count = { λ d. length d.slots };

    ghost room = { λ d. d.room };

    ghost takes_memory = { S.takes_memory };

    ghost room_at = { λ n. room_of P.Inx.greatest (S.room_at n) };

    ghost empty = { empty_of };

    ghost reallocated = { reallocated_of };

    ghost with_value = { with_value_of };

    ghost is_formed = { λ d. IsFormed d };

    ghost is_removed = { λ d i new. new ≡ removed_of d i };

    ghost invalidated = { invalidated_of P.Gen.last };

    ghost cleared = { cleared_of };

    ghost drained = { cleared_of };

    ghost is_compressed = { λ d reset values new. new ≡ compressed_of P.Gen.last d reset values };

    ghost walk = { λ a. a };

    ghost counter_if_has_counter = { λ d. refl };

    ghost none_at_zero = { λ d. refl };

    ghost advances = { λ before d given after step. step };

    ghost live_entries = { live_entries_of };

    ghost entry_with_value = { entry-with_value };

    ghost live_with_value = { live-with_value };

    ghost counter_with_value = { λ d i t. refl };

    ghost room_with_value = { room-with_value };

    ghost drains = { directly_drained-leaves _ P.Gen.last };

    ghost entry_listed = { λ d. entry-listed (as_content d) };

    ghost live_entries_increase = { λ d. live_entries-increase (as_content d) };

    ghost live_entries_counted = { λ d. live_entries-length (as_content d) };

    fn new(alloc: S::Alloc) -> Self {
        DirectArena::over(S::new(alloc))
    }

    fn with_min_capacity(alloc: S::Alloc, min: usize) -> Result<Self, ReallocationError> {
        if min > max_index::<P>() {
            // `alloc` need not be `Drop`, but a stack over it is.
            drop(Self::new(alloc));
            return Err(ReallocationError::BeyondMaxCapacity);
        }
        let slots = S::with_min_capacity(alloc, min)?;
        Ok(DirectArena::over(slots))
    }

    fn capacity(&self) -> usize {
        self.own_capacity()
    }

    fn max_capacity(&self) -> Option<usize> {
        self.limit()
    }

    fn reallocate_min_capacity(&mut self, min: usize) -> Result<(), ReallocationError> {
        let made = self.reallocate(min);
        // The arena is well-formed after.
        self.recall_formed();
        made
    }

    fn len(&self) -> usize {
        // The slots are within the capacity.
        recall!(self.own_capacity());
        self.live()
    }

    fn singular_generation(&self) -> Option<P::Gen> {
        None
    }

    fn contains(&self, p: P) -> bool {
        // It is one of the generations.
        recall!(p.generation().generational_inc());
        self.live_index(p).is_some()
    }

    fn get_inx(&self, i: P::Inx) -> Option<(P::Gen, &T)> {
        // The number of slots is a `usize`, so no index past that is live.
        recall!(self.slots.len());
        match i.try_into_usize() {
            Some(i) => match self.slots.get(i) {
                Some(slot) => slot.entry(),
                None => None,
            },
            None => None,
        }
    }

    fn get_inx_mut_unwrap(&mut self, i: P::Inx) -> &mut T {
        // The number of slots is a `usize`, so no index past that is live.
        recall!(self.slots.len());
        match i.try_into_usize() {
            Some(i) => self.value_at_mut(i),
            None => unreached!(),
        }
    }

    fn find_first_inx_ptr(&self) -> Option<P> {
        self.first_of_all()
    }

    fn find_last_inx_ptr(&self) -> Option<P> {
        self.last_of_all()
    }

    fn advancer(&self) -> PtrAdvancer<P> {
        PtrAdvancer::over(0, self.slot_count(), false)
    }

    fn advancer_inx(&self, i: P::Inx, rev: bool) -> PtrAdvancer<P> {
        PtrAdvancer::from_index(i, self.slot_count(), rev)
    }

    fn take_inx_unwrap(&mut self, i: P::Inx) -> ((P::Gen, T), bool) {
        // The number of slots is a `usize`, so no index past that is live.
        recall!(self.slots.len());
        match i.try_into_usize() {
            Some(i) => (self.remove_at(i), false),
            None => unreached!(),
        }
    }

    fn invalidate(&mut self, p: P) -> InvalidationResult<P> {
        // The arena is well-formed before.
        self.recall_formed();
        match self.live_index(p) {
            Some(i) => {
                let (generation, wrapped) = p.generation().generational_inc();
                let renewed = self.renew_at(i, generation);
                equal_uncounted(renewed, p);
                // And after.
                self.recall_formed();
                valid(answer(wrapped, renewed))
            }
            None => InvalidationResult::InvalidPtr,
        }
    }

    fn clear(&mut self) -> InvalidationOption<()> {
        self.empty();
        // The arena is well-formed after.
        self.recall_formed();
        InvalidationOption::Success(())
    }

    fn take_all(&mut self) {
        let _ = self.clear();
    }

    fn compress_with<F: FnMut(P, T, P) -> T>(
        &mut self,
        reset: bool,
        map: F,
    ) -> InvalidationOption<()> {
        // The slots are within the capacity, and so are their indexes.
        recall!(self.own_capacity());
        let wrapped = compact(&mut self.slots, None, reset, map);
        // The arena is well-formed after.
        self.recall_formed();
        answer(wrapped, ())
    }
}

impl<P: PtrCore, T: Drop, S: DirectSlots<P, T>> CompactArenaTrait<P, T> for DirectArena<P, T, S> {}

impl<P: PtrCore, T: Drop, const LIMIT: usize> Default
    for DirectArena<P, T, NonZeroInxArray<DirectSlot<P, T>, LIMIT>> {
    ghost is_default = { λ d. (d.slots ≡ [])
        × (d.room ≡ room_of P.Inx.greatest (record { reserved = LIMIT; limit = Some LIMIT })) };

    /// An empty direct arena in an array.
    fn default() -> Self {
        DirectArena::new(())
    }
}
