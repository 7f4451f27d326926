//! The calls of a `ChainArena` that every arena has, over the values of the links.
ghost use Rattle.std.specs.Prelude.{◌≡◌, true, length, refl};
ghost use Rattle.triple_arena_ptr.specs.Generation.{second_generation};
ghost use Rattle.triple_arena.specs.ArenaRoom.{room_of};
ghost use Rattle.triple_arena.specs.Content.{some_counter, live_count as live_count_of};
ghost use Rattle.triple_arena.specs.Content.{empty as empty_of, reallocated as reallocated_of};
ghost use Rattle.triple_arena.specs.Content.{invalidated as invalidated_of, cleared as cleared_of};
ghost use Rattle.triple_arena.specs.Drains.{drained as drained_of};
ghost use Rattle.triple_arena_chain.specs.EmptiedLaws.{drained-leaves};
ghost use Rattle.triple_arena_chain.specs.Links.{values_in, with_value_in, link_removed, IsChained};
ghost use Rattle.triple_arena_chain.specs.LinkLaws.{values-with_value_in, live-with_value_in};
ghost use Rattle.triple_arena_chain.specs.LinkLaws.{counter-with_value_in, room-with_value_in};
ghost use Rattle.triple_arena_chain.specs.Listed.{listed_values};
ghost use Rattle.triple_arena_chain.specs.Renaming.{IsCompacted};
ghost use Rattle.triple_arena_chain.specs.ListedLaws.{value-listed, listed_values-increase};
ghost use Rattle.triple_arena_chain.specs.ListedLaws.{listed_values-length};
ghost use Rattle.triple_arena_chain.specs.Values.{room_in};

use crate::chain_arena::compression::compress_links;
use crate::{ChainArena, ChainArenaTrait, ChainSlots};
use triple_arena::arena_iterators::PtrAdvancer;
use triple_arena::{
    Arena, ArenaTrait, CompactArenaTrait, InvalidationOption, InvalidationResult, PtrCore,
    ReallocationError,
};

impl<P: PtrCore, T: Drop, S: ChainSlots<P, T>> ArenaTrait<P, T> for ChainArena<P, T, S> {
    type Alloc = S::Alloc;

    type PtrAdvancer = PtrAdvancer<P>;

    ghost entry_at = { values_in };

    ghost live_count = { live_count_of };

    ghost counter = { some_counter };

    ghost has_counter = { true };

    ghost slot_count = { λ c. length c.slots };

    ghost room = { room_in };

    ghost takes_memory = { S.takes_memory };

    ghost room_at = { λ n. room_of P.Inx.greatest (S.room_at n) };

    ghost empty = { empty_of (second_generation P.Gen.last) };

    ghost reallocated = { reallocated_of };

    ghost with_value = { with_value_in };

    ghost is_formed = { IsChained };

    ghost is_removed = { λ c i new. new ≡ link_removed P.Gen.last c i };

    ghost invalidated = { invalidated_of P.Gen.last };

    ghost cleared = { cleared_of P.Gen.last };

    ghost drained = { drained_of P.Gen.last };

    ghost is_compressed = { λ c reset values new. IsCompacted P.Gen.last reset
        values c new };

    ghost walk = { λ a. a };

    ghost counter_if_has_counter = { λ c. refl };

    ghost none_at_zero = { λ c. refl };

    ghost advances = { λ before c given after step. step };

    ghost live_entries = { listed_values };

    ghost entry_with_value = { values-with_value_in };

    ghost live_with_value = { live-with_value_in };

    ghost counter_with_value = { counter-with_value_in };

    ghost room_with_value = { room-with_value_in };

    ghost drains = { drained-leaves _ P.Gen.last };

    ghost entry_listed = { value-listed };

    ghost live_entries_increase = { listed_values-increase };

    ghost live_entries_counted = { listed_values-length };

    fn new(alloc: S::Alloc) -> Self {
        ChainArena {
            arena: Arena::new(alloc),
        }
    }

    fn with_min_capacity(alloc: S::Alloc, min: usize) -> Result<Self, ReallocationError> {
        let arena = Arena::with_min_capacity(alloc, min)?;
        Ok(ChainArena { arena })
    }

    fn capacity(&self) -> usize {
        self.arena.capacity()
    }

    fn max_capacity(&self) -> Option<usize> {
        self.arena.max_capacity()
    }

    fn reallocate_min_capacity(&mut self, min: usize) -> Result<(), ReallocationError> {
        self.arena.reallocate_min_capacity(min)
    }

    fn len(&self) -> usize {
        self.arena.len()
    }

    fn singular_generation(&self) -> Option<P::Gen> {
        self.arena.singular_generation()
    }

    fn contains(&self, p: P) -> bool {
        self.arena.contains(p)
    }

    fn get_inx(&self, i: P::Inx) -> Option<(P::Gen, &T)> {
        match self.arena.get_inx(i) {
            Some((generation, link)) => Some((generation, &link.t)),
            None => None,
        }
    }

    fn get_inx_mut_unwrap(&mut self, i: P::Inx) -> &mut T {
        &mut self.arena.get_inx_mut_unwrap(i).t
    }

    fn find_first_inx_ptr(&self) -> Option<P> {
        self.arena.find_first_inx_ptr()
    }

    fn find_last_inx_ptr(&self) -> Option<P> {
        self.arena.find_last_inx_ptr()
    }

    fn advancer(&self) -> PtrAdvancer<P> {
        self.arena.advancer()
    }

    fn advancer_inx(&self, i: P::Inx, rev: bool) -> PtrAdvancer<P> {
        self.arena.advancer_inx(i, rev)
    }

    #[inline(always)]
    fn take_inx_unwrap(&mut self, i: P::Inx) -> ((P::Gen, T), bool) {
        let ((generation, link), wrapped) = self.take_inx_link_unwrap(i);
        ((generation, link.t), wrapped)
    }

    fn invalidate(&mut self, p: P) -> InvalidationResult<P> {
        self.arena.invalidate(p)
    }

    fn clear(&mut self) -> InvalidationOption<()> {
        self.arena.clear()
    }

    fn take_all(&mut self) {
        self.arena.take_all();
    }

    fn compress_with<F: FnMut(P, T, P) -> T>(
        &mut self,
        reset: bool,
        map: F,
    ) -> InvalidationOption<()> {
        compress_links(&mut self.arena, reset, map)
    }
}

impl<P: PtrCore, T: Drop, S: ChainSlots<P, T>> CompactArenaTrait<P, T> for ChainArena<P, T, S> {}
