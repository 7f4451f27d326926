//! A slot map of numbers: an arena that stops in place of giving a handle twice.
ghost use Rattle.std.specs.Prelude.{◌≡◌, ◌⊎◌, ◌+◌, ◌<◌, ◌≤◌, ◌↔◌, ℕ, Some, None};
ghost use Rattle.std.specs.Prelude.{IfSome, IfNone, IfOk, IsOk, OnOk, OnErr, IsErrOf, IsSome};
ghost use Rattle.std.specs.Prelude.{OnSome, IsTrue, false, length, take, drop, map, ◌∷◌, ◌++◌, []};
ghost use Rattle.std.specs.Int.NonZero.{non_zero_u32_get};
ghost use Rattle.triple_arena_stack.specs.Room.{room_after};
ghost use Rattle.triple_arena.specs.Changes.{IsInserted, IsRemoved, IsCleared, IsCompressed};
ghost use Rattle.triple_arena.specs.Compression.{compacted, pointer_of, renewed, value_of};
ghost use Rattle.triple_arena.specs.Content.{arena_capacity, entry_at, get as get_of, live_count};
ghost use Rattle.triple_arena.specs.Content.{next_index, some_counter, with_value, reallocated};
ghost use Rattle.triple_arena.specs.Content.{inserted as inserted_in, removed as removed_in};
ghost use Rattle.triple_arena.specs.Content.{cleared as cleared_in, grown_if_full};
ghost use Rattle.triple_arena.specs.Entries.{with_value_at};
ghost use Rattle.triple_arena.specs.LiveEntries.{live_entries};
ghost use Rattle.slot_map_c.specs.State.{IsPast, IsAtEnd, fresh, greatest, pair_of};
ghost use Rattle.slot_map_c.specs.State.{entries_after, GoesPast};

use crate::handle::Handle;
use crate::refusal::Refusal;
use std::alloc::Global;
use std::marker::Model;
use std::num::NonZeroU32;
use triple_arena::arena_iterators::PtrAdvancer;
use triple_arena::{
    Advancer, ArenaInsertTrait, ArenaTrait, HeapArena, InvalidationOption, InvalidationResult, P3,
    PtrCore, ReallocationError,
};

/// A slot map, which gives no handle twice.
#[derive(Drop)]
pub struct SlotMap {
    arena: HeapArena<P3, u64, Global>,
    // Every generation was given, so that no handle is left for a further entry.
    is_spent: bool,
}

impl Model for SlotMap {
    ghost use Rattle.slot_map_c.specs.State.{IsSound, State};

    ghost Value = { State };

    ghost view = { λ s. record { arena = s.arena; is_spent = s.is_spent } };

    ghost invariant = { λ s. IsSound (record { arena = s.arena; is_spent = s.is_spent }) };
}

// A walk over the entries past an index. It is `None` if there is none.
fn walk_past(arena: &HeapArena<P3, u64, Global>, last: u32) -> Option<PtrAdvancer<P3>>
    ensures past { IfSome result (λ w. GoesPast arena.now w last) }
    ensures none { IfNone result (entries_after arena.now last ≡ []) }
{
    // No index is past the capacity.
    if last as usize >= arena.capacity() {
        return None;
    }
    let first = NonZeroU32::MIN.saturating_add(last);
    Some(arena.advancer_inx(first, false))
}

// The handle and the value of the first entry past the index `at`. The walk goes on past that, and
// `at` is its index.
fn step(
    arena: &HeapArena<P3, u64, Global>,
    walk: &mut PtrAdvancer<P3>,
    at: &mut u32,
) -> Option<(Handle, u64)>
    requires { GoesPast arena.now walk.old at.old }
    ensures first { IfSome result (λ e. entries_after arena.now at.old
        ≡ (e.0.index, (e.0.generation, e.1)) ∷ entries_after arena.now at.new) }
    ensures past { OnSome result (GoesPast arena.now walk.new at.new) }
    ensures none { IfNone result (entries_after arena.now at.old ≡ []) }
    ensures stays { IfNone result (at.new ≡ at.old) }
{
    let Some(p) = walk.advance(arena) else {
        return None;
    };
    *at = p.inx().get();
    let handle = Handle {
        index: p.inx().get(),
        generation: p.generation().get(),
    };
    Some((handle, *arena.get_inx_unwrap(p.inx())))
}

impl SlotMap {
    // A map without an entry. It is `None` if the memory was refused.
    pub(crate) fn new(alloc: Global) -> Option<Box<SlotMap>>
        ensures { IfSome result (λ b. b.value ≡ fresh) }
    {
        Box::new(
            alloc,
            SlotMap {
                arena: HeapArena::<P3, u64, Global>::new(alloc),
                is_spent: false,
            },
        )
        .ok()
    }

    // How many entries there are.
    pub(crate) fn len(&self) -> usize
        ensures { result ≡ live_count self.now.arena }
    {
        self.arena.len()
    }

    // How many entries fit with no growth.
    pub(crate) fn capacity(&self) -> usize
        ensures value { result ≡ arena_capacity self.now.arena }
        ensures bounded { result ≤ greatest }
        ensures indexes { (j : ℕ) → IsSome (entry_at self.now.arena j) → j ≤ result }
    {
        self.arena.capacity()
    }

    // Makes room for `min` entries.
    pub(crate) fn reserve(&mut self, min: usize) -> Result<(), Refusal>
        ensures reallocated { OnOk result (self.new.arena ≡ reallocated self.old.arena min) }
        ensures entries { OnOk result ((j : ℕ) → entry_at self.new.arena j
            ≡ entry_at self.old.arena j) }
        ensures live { live_count self.new.arena ≡ live_count self.old.arena }
        ensures fits { OnOk result (min ≤ arena_capacity self.new.arena) }
        ensures spent { self.new.is_spent ≡ self.old.is_spent }
        ensures ended { (index generation : ℕ) → IsPast self.old index generation
            → IsPast self.new index generation }
        ensures succeeds { min ≤ arena_capacity self.old.arena → IsOk result }
        ensures full { IsErrOf result Refusal.Full ↔ greatest < min }
        ensures refusals { OnErr result (IsErrOf result Refusal.NoMemory
            ⊎ IsErrOf result Refusal.Full) }
        ensures refused { OnErr result (self.new ≡ self.old) }
    {
        match self.arena.reallocate_min_capacity(min) {
            Ok(()) => Ok(()),
            Err(ReallocationError::BeyondMaxCapacity) => Err(Refusal::Full),
            Err(ReallocationError::AllocError) => Err(Refusal::NoMemory),
        }
    }

    // Stores a value, and gives its handle.
    pub(crate) fn insert(&mut self, value: u64) -> Result<Handle, Refusal>
        ensures inserted { IfOk result (λ p. IsInserted entry_at live_count some_counter
            (next_index self.old.arena) p.index p.generation value self.old.arena self.new.arena) }
        ensures exact { OnOk result (self.new.arena
            ≡ inserted_in (grown_if_full self.old.arena) value) }
        ensures room { OnOk result (self.new.arena.room
            ≡ room_after (live_count self.old.arena) self.old.arena.room) }
        ensures ended { (index generation : ℕ) → IsPast self.old index generation
            → IsPast self.new index generation }
        ensures lasts { self.new.is_spent ≡ self.old.is_spent }
        ensures spent { IsErrOf result Refusal.Spent ↔ IsTrue self.old.is_spent }
        ensures full { IsErrOf result Refusal.Full
            ↔ ((self.old.is_spent ≡ false) × (live_count self.old.arena ≡ greatest)) }
        ensures succeeds { self.old.is_spent ≡ false
            → live_count self.old.arena < arena_capacity self.old.arena → IsOk result }
        ensures refusals { OnErr result (IsErrOf result Refusal.NoMemory
            ⊎ (IsErrOf result Refusal.Full ⊎ IsErrOf result Refusal.Spent)) }
        ensures refused { OnErr result (self.new ≡ self.old) }
    {
        if self.is_spent {
            return Err(Refusal::Spent);
        }
        match self.arena.insert(value) {
            Ok(p) => Ok(Handle {
                index: p.inx().get(),
                generation: p.generation().get(),
            }),
            Err(ReallocationError::BeyondMaxCapacity) => Err(Refusal::Full),
            Err(ReallocationError::AllocError) => Err(Refusal::NoMemory),
        }
    }

    // The index that the handle names, and the value there, if the handle finds an entry.
    fn find(&self, handle: Handle) -> Option<(NonZeroU32, u64)>
        ensures index { IfSome result (λ f. non_zero_u32_get f.0 ≡ handle.index) }
        ensures value { IfSome result
            (λ f. get_of self.now.arena handle.index handle.generation ≡ Some f.1) }
        ensures none { IfNone result
            (get_of self.now.arena handle.index handle.generation ≡ None) }
        ensures made { IfSome result (λ _. (0 < handle.index) × (0 < handle.generation)) }
    {
        let Some(inx) = NonZeroU32::new(handle.index) else {
            return None;
        };
        match self.arena.get_inx(inx) {
            Some((generation, value)) if generation.get() == handle.generation => {
                Some((inx, *value))
            }
            _ => None,
        }
    }

    // The value that the handle finds.
    pub(crate) fn get(&self, handle: Handle) -> Option<u64>
        ensures value { result ≡ get_of self.now.arena handle.index handle.generation }
        ensures made { IfSome result (λ _. (0 < handle.index) × (0 < handle.generation)) }
    {
        match self.find(handle) {
            Some((_, value)) => Some(value),
            None => None,
        }
    }

    // Writes the value that the handle finds, and says whether there was one.
    #[tactic(auto, using(triple_arena::specs::ContentLaws::writes))]
    pub(crate) fn set(&mut self, handle: Handle, value: u64) -> bool
        ensures variant { IsTrue result
            ↔ IsSome (get_of self.old.arena handle.index handle.generation) }
        ensures written { IsTrue result
            → self.new.arena ≡ with_value self.old.arena handle.index value }
        ensures entries { IsTrue result → (j : ℕ) → entry_at self.new.arena j
            ≡ with_value_at (entry_at self.old.arena) handle.index value j }
        ensures live { live_count self.new.arena ≡ live_count self.old.arena }
        ensures ended { (index generation : ℕ) → IsPast self.old index generation
            → IsPast self.new index generation }
        ensures lasts { self.new.is_spent ≡ self.old.is_spent }
        ensures made { IsTrue result → (0 < handle.index) × (0 < handle.generation) }
        ensures missed { result ≡ false → self.new ≡ self.old }
    {
        let Some((inx, _)) = self.find(handle) else {
            return false;
        };
        match self.arena.get_inx_mut(inx) {
            Some(own) => {
                *own = value;
                true
            }
            None => false,
        }
    }

    // Removes the entry that the handle finds, and gives its value.
    pub(crate) fn remove(&mut self, handle: Handle) -> Option<u64>
        ensures value { result ≡ get_of self.old.arena handle.index handle.generation }
        ensures removed { OnSome result (IsRemoved entry_at live_count some_counter (λ c. c.room)
            (Some greatest) handle.index self.old.arena self.new.arena) }
        ensures exact { IsSome result
            → self.new.arena ≡ removed_in (Some greatest) self.old.arena handle.index }
        ensures ends { IsSome result → IsPast self.new handle.index handle.generation }
        ensures ended { (index generation : ℕ) → IsPast self.old index generation
            → IsPast self.new index generation }
        ensures spent { IsSome result → (IsTrue self.new.is_spent ↔ IsAtEnd self.old) }
        ensures made { IfSome result (λ _. (0 < handle.index) × (0 < handle.generation)) }
        ensures missed { IfNone result (self.new ≡ self.old) }
    {
        let Some((inx, _)) = self.find(handle) else {
            return None;
        };
        match self.arena.remove_inx(inx) {
            InvalidationResult::Success((_, value)) => Some(value),
            InvalidationResult::GenerationOverflow((_, value)) => {
                self.is_spent = true;
                Some(value)
            }
            InvalidationResult::InvalidPtr => unreachable!(),
        }
    }

    // Removes every entry.
    pub(crate) fn clear(&mut self)
        ensures cleared { IsCleared entry_at live_count some_counter (λ c. c.room) (Some greatest)
            self.old.arena self.new.arena }
        ensures exact { self.new.arena ≡ cleared_in (Some greatest) self.old.arena }
        ensures ends { (index generation : ℕ)
            → IsSome (get_of self.old.arena index generation) → IsPast self.new index generation }
        ensures ended { (index generation : ℕ) → IsPast self.old index generation
            → IsPast self.new index generation }
        ensures spent { IsTrue self.new.is_spent ↔ IsAtEnd self.old }
    {
        match self.arena.clear() {
            InvalidationOption::Success(()) => {}
            InvalidationOption::GenerationOverflow(()) => self.is_spent = true,
        }
    }

    // Writes the handles and the values of the entries past an index, by rising index, as many as
    // both arrays take. It gives how many were written, and the index of the last one, or the one
    // that it was given if there is none.
    pub(crate) fn read(&self, last: u32, handles: &mut [Handle], values: &mut [u64]) -> (usize, u32)
        ensures handles { map pair_of (take result.0 handles.new)
            ++ map pointer_of (entries_after self.now.arena result.1)
            ≡ map pointer_of (entries_after self.now.arena last) }
        ensures values { take result.0 values.new
            ++ map value_of (entries_after self.now.arena result.1)
            ≡ map value_of (entries_after self.now.arena last) }
        ensures fits { (result.0 ≤ length handles.old) × (result.0 ≤ length values.old) }
        ensures all { (result.0 ≡ length handles.old) ⊎ ((result.0 ≡ length values.old)
            ⊎ (entries_after self.now.arena result.1 ≡ [])) }
        ensures rest { drop result.0 handles.new ≡ drop result.0 handles.old }
        ensures rest_of_values { drop result.0 values.new ≡ drop result.0 values.old }
    {
        let Some(mut walk) = walk_past(&self.arena, last) else {
            return (0, last);
        };
        let most = handles.len().min(values.len());
        let mut count = 0;
        let mut at = last;
        'read: while count < most {
            let Some((handle, value)) = step(&self.arena, &mut walk, &mut at) else {
                break;
            };
            handles[count] = handle;
            values[count] = value;
            count += 1;
        }
        (count, at)
    }

    // Writes the handles of all entries, by rising index, and gives how many they are.
    fn list(&self, handles: &mut [Handle]) -> usize
        requires { live_count self.now.arena ≤ length handles.old }
        ensures count { result ≡ live_count self.now.arena }
        ensures handles { map pair_of (take result handles.new)
            ≡ map pointer_of (live_entries self.now.arena) }
        ensures length { length handles.new ≡ length handles.old }
        ensures rest { drop result handles.new ≡ drop result handles.old }
    {
        let mut walk = self.arena.advancer();
        let mut count = 0;
        let mut at = 0;
        'list: while let Some((handle, _)) = step(&self.arena, &mut walk, &mut at) {
            handles[count] = handle;
            count += 1;
        }
        count
    }

    // Whether no generation is left once the counter has stepped.
    fn is_at_end(&self) -> bool
        ensures { IsTrue result ↔ IsAtEnd self.now }
    {
        match self.arena.singular_generation() {
            Some(counter) => self.is_spent || counter.get() == u32::MAX,
            None => unreachable!(),
        }
    }

    // Moves the entries to the first indexes, gives each another handle, and writes the old and the
    // new ones.
    pub(crate) fn compress(
        &mut self,
        old: &mut [Handle],
        new: &mut [Handle],
    ) -> Result<usize, Refusal>
        ensures compressed { OnOk result (IsCompressed entry_at live_count some_counter
            (λ c. c.room) (Some greatest) live_entries false self.old.arena self.new.arena) }
        ensures exact { OnOk result (self.new.arena
            ≡ compacted (renewed (Some greatest) false self.old.arena.counter)
            (map value_of (live_entries self.old.arena)) self.old.arena) }
        ensures values { OnOk result (map value_of (live_entries self.new.arena)
            ≡ map value_of (live_entries self.old.arena)) }
        ensures count { IfOk result (λ n. n ≡ live_count self.old.arena) }
        ensures old_handles { IfOk result (λ n. map pair_of (take n old.new)
            ≡ map pointer_of (live_entries self.old.arena)) }
        ensures new_handles { IfOk result (λ n. map pair_of (take n new.new)
            ≡ map pointer_of (live_entries self.new.arena)) }
        ensures old_rest { IfOk result (λ n. drop n old.new ≡ drop n old.old) }
        ensures new_rest { IfOk result (λ n. drop n new.new ≡ drop n new.old) }
        ensures ends { OnOk result ((index generation : ℕ)
            → IsSome (get_of self.old.arena index generation)
            → IsPast self.new index generation) }
        ensures ended { (index generation : ℕ) → IsPast self.old index generation
            → IsPast self.new index generation }
        ensures lasts { self.new.is_spent ≡ self.old.is_spent }
        ensures spent { IsErrOf result Refusal.Spent ↔ IsAtEnd self.old }
        ensures short { IsErrOf result Refusal.Short ↔ ((IsAtEnd self.old → ⊥)
            × ((length old.old < live_count self.old.arena)
            ⊎ (length new.old < live_count self.old.arena))) }
        ensures refusals { OnErr result (IsErrOf result Refusal.Spent
            ⊎ IsErrOf result Refusal.Short) }
        ensures refused { OnErr result (self.new ≡ self.old) }
        ensures old_unwritten { OnErr result (old.new ≡ old.old) }
        ensures new_unwritten { OnErr result (new.new ≡ new.old) }
    {
        if self.is_at_end() {
            return Err(Refusal::Spent);
        }
        let len = self.len();
        if old.len() < len || new.len() < len {
            return Err(Refusal::Short);
        }
        self.list(old);
        self.arena.compress(false);
        self.list(new);
        Ok(len)
    }
}
