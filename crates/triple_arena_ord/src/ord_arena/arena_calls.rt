//! The calls of a `SimpleOrdArena` that every arena has.
//!
//! A removal takes one index out of the list, so keys that ascend still do
//! (`laws::removals_keep_keys_ascending`). An invalidation and a write keep the list, whatever key
//! is written (`laws::invalidations_keep_the_list`, `laws::writes_keep_the_list`). A compression
//! moves the entries by index and the list follows, also if the new keys do not ascend along it.
//! The tree is then written anew.
ghost use Rattle.std.specs.Prelude.{true, length, refl};
ghost use Rattle.triple_arena_ptr.specs.Generation.{second_generation};
ghost use Rattle.triple_arena.specs.ArenaRoom.{room_of};
ghost use Rattle.triple_arena_ord.specs.Compressed.{IsCompressedInOrder};
ghost use Rattle.triple_arena_ord.specs.EmptiedLaws.{drained-leaves};
ghost use Rattle.triple_arena_ord.specs.Formed.{IsFormed};
ghost use Rattle.triple_arena_ord.specs.Indexed.{indexed};
ghost use Rattle.triple_arena_ord.specs.IndexedLaws.{entry-indexed, indexed-increase};
ghost use Rattle.triple_arena_ord.specs.IndexedLaws.{indexed-length};
ghost use Rattle.triple_arena_ord.specs.ItemLaws.{entry-with_item, size-with_item};
ghost use Rattle.triple_arena_ord.specs.ItemLaws.{counter-with_item, room-with_item};
ghost use Rattle.triple_arena_ord.specs.Ordered.{entry_in, size_in, counter_in, room_in};
ghost use Rattle.triple_arena_ord.specs.Removal.{IsEntryRemoved};
ghost use Rattle.triple_arena_ord.specs.States.{empty_in, reallocated_in, with_item};
ghost use Rattle.triple_arena_ord.specs.States.{invalidated_in, cleared_in, drained_in};

use crate::ord_arena::compression::ends_of_list;
use crate::ord_arena::mapping::compact_nodes;
use crate::ord_arena::removal::neighbors;
use crate::rebuild::rebuild;
use crate::{OrdSlots, SimpleOrdArena};
use proof_marks::recall;
use triple_arena::arena_iterators::PtrAdvancer;
use triple_arena::{
    ArenaTrait, CompactArenaTrait, InvalidationOption, InvalidationResult, PtrCore,
    ReallocationError,
};
use triple_arena_chain::{ChainArena, ChainArenaTrait};

impl<P: PtrCore, T: Drop, S: OrdSlots<P, T>> SimpleOrdArena<P, T, S> {
    // Tells the proof what holds of every ordered arena. It does nothing.
    #[inline(always)]
    fn recall_formed(&self)
        ensures { IsFormed self.now }
    {
        recall!(self.chains.len());
    }
}

impl<P: PtrCore, T: Drop, S: OrdSlots<P, T>> ArenaTrait<P, T> for SimpleOrdArena<P, T, S> {
    type Alloc = S::Alloc;

    type PtrAdvancer = PtrAdvancer<P>;

    ghost entry_at = { entry_in };

    ghost live_count = { size_in };

    ghost counter = { counter_in };

    ghost has_counter = { true };

    ghost slot_count = { λ o. length o.chains.slots };

    ghost room = { room_in };

    ghost takes_memory = { S.takes_memory };

    ghost room_at = { λ n. room_of P.Inx.greatest (S.room_at n) };

    ghost empty = { empty_in (second_generation P.Gen.last) };

    ghost reallocated = { reallocated_in };

    ghost with_value = { with_item };

    ghost is_removed = { λ o i new. IsEntryRemoved P.Gen.last i o new };

    ghost invalidated = { invalidated_in P.Gen.last };

    ghost cleared = { cleared_in P.Gen.last };

    ghost drained = { drained_in P.Gen.last };

    ghost is_compressed = { λ o reset items new. IsCompressedInOrder P.Gen.last reset
        items o new };

    ghost is_formed = { IsFormed };

    ghost walk = { λ a. a };

    ghost live_entries = { indexed };

    ghost counter_if_has_counter = { λ o. refl };

    ghost none_at_zero = { λ o. refl };

    ghost advances = { λ before o given after step. step };

    ghost entry_listed = { entry-indexed };

    ghost live_entries_increase = { indexed-increase };

    ghost live_entries_counted = { indexed-length };

    ghost entry_with_value = { entry-with_item };

    ghost live_with_value = { size-with_item };

    ghost counter_with_value = { counter-with_item };

    ghost room_with_value = { room-with_item };

    ghost drains = { drained-leaves _ P.Gen.last };

    fn new(alloc: S::Alloc) -> Self {
        SimpleOrdArena {
            chains: ChainArena::new(alloc),
            root: None,
            first: None,
            last: None,
        }
    }

    fn with_min_capacity(alloc: S::Alloc, min: usize) -> Result<Self, ReallocationError> {
        let chains = ChainArena::with_min_capacity(alloc, min)?;
        Ok(SimpleOrdArena {
            chains,
            root: None,
            first: None,
            last: None,
        })
    }

    fn capacity(&self) -> usize {
        self.chains.capacity()
    }

    fn max_capacity(&self) -> Option<usize> {
        self.chains.max_capacity()
    }

    fn reallocate_min_capacity(&mut self, min: usize) -> Result<(), ReallocationError> {
        self.chains.reallocate_min_capacity(min)
    }

    fn len(&self) -> usize {
        self.chains.len()
    }

    fn singular_generation(&self) -> Option<P::Gen> {
        self.chains.singular_generation()
    }

    fn contains(&self, p: P) -> bool {
        self.chains.contains(p)
    }

    fn get_inx(&self, i: P::Inx) -> Option<(P::Gen, &T)> {
        match self.chains.get_inx(i) {
            Some((generation, node)) => Some((generation, &node.t)),
            None => None,
        }
    }

    fn get_inx_mut_unwrap(&mut self, i: P::Inx) -> &mut T {
        &mut self.chains.get_inx_mut_unwrap(i).t
    }

    fn find_first_inx_ptr(&self) -> Option<P> {
        self.chains.find_first_inx_ptr()
    }

    fn find_last_inx_ptr(&self) -> Option<P> {
        self.chains.find_last_inx_ptr()
    }

    fn advancer(&self) -> PtrAdvancer<P> {
        self.chains.advancer()
    }

    fn advancer_inx(&self, i: P::Inx, rev: bool) -> PtrAdvancer<P> {
        self.chains.advancer_inx(i, rev)
    }

    #[inline(always)]
    fn take_inx_unwrap(&mut self, i: P::Inx) -> ((P::Gen, T), bool) {
        let (prev, next) = neighbors(&self.chains, i);
        let taken = self.remove_live(i, prev, next);
        self.recall_formed();
        taken
    }

    fn invalidate(&mut self, p: P) -> InvalidationResult<P> {
        self.chains.invalidate(p)
    }

    fn clear(&mut self) -> InvalidationOption<()> {
        self.root = None;
        self.first = None;
        self.last = None;
        self.chains.clear()
    }

    fn take_all(&mut self) {
        self.root = None;
        self.first = None;
        self.last = None;
        self.chains.take_all();
    }

    fn compress_with<F: FnMut(P, T, P) -> T>(
        &mut self,
        reset: bool,
        map: F,
    ) -> InvalidationOption<()> {
        let answer = compact_nodes(&mut self.chains, reset, map);
        let ends = ends_of_list(&self.chains);
        self.first = ends.0;
        self.last = ends.1;
        self.root = rebuild(&mut self.chains, ends.0);
        // The links are as they must be.
        recall!(self.chains.len());
        answer
    }
}

impl<P: PtrCore, T: Drop, S: OrdSlots<P, T>> CompactArenaTrait<P, T> for SimpleOrdArena<P, T, S> {}
