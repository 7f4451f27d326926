//! An arena as a copy of another one.
ghost use Rattle.std.specs.Prelude.{◌≡◌, ◌≤◌, ◌↔◌, ◌⊎◌, Some, IsOk, IsErr, IfOk, OnOk};
ghost use Rattle.std.specs.Prelude.{length, is_some, count_by, map as list_map};
ghost use Rattle.std.specs.Option.{option_map};
ghost use Rattle.triple_arena_ptr.specs.Errors.{IsBeyondMaxCapacity, IsAllocError};
ghost use Rattle.triple_arena_ptr.specs.Generation.{second_generation};
ghost use Rattle.triple_arena_stack.specs.Room.{capacity, IsBeyond};
ghost use Rattle.triple_arena.specs.ArenaRoom.{room_of};
ghost use Rattle.triple_arena.specs.Content.{entry_at, live_count, some_counter, empty};
ghost use Rattle.triple_arena.specs.Content.{arena_capacity, reallocated, cleared, vacant_from};
ghost use Rattle.triple_arena.specs.Content.{IsWellFormed};
ghost use Rattle.triple_arena.specs.Copy.{last_listed, last_inx, copied as copied_of};
ghost use Rattle.triple_arena.specs.Copy.{MayRefuse, NeedsMemory, IsMappedCopy, IsRefusedCopy};
ghost use Rattle.triple_arena.specs.Copy.{IsUnmade};
ghost use Rattle.triple_arena.specs.Layout.{IsFreeList};
ghost use Rattle.triple_arena.specs.LiveEntries.{live_entries, listed_by};
ghost use Rattle.triple_arena.specs.Slot.{entry_of};

use crate::arena::Arena;
use crate::arena::free_slots::link_rising;
use crate::copy::{append_copies, up_to_last};
use crate::free_inx::FreeInx;
use crate::iterators::LentEntry;
use crate::{ArenaCloneFromWith, ArenaCloneSource, ArenaSlot, ArenaSlots, ArenaTrait};
use proof_marks::recall;
use std::num::NonZeroUsize;
use triple_arena_ptr::{AllocError, OptionalInx, PtrCore, ReallocationError};

impl<P: PtrCore, T: Drop, S: ArenaSlots<P, T>> ArenaCloneSource<P, T> for Arena<P, T, S> {
    type Slot = ArenaSlot<P, T>;

    fn lent_slots(&self) -> &[ArenaSlot<P, T>] {
        // Each slot has an index of the pointer type.
        recall!(self.own_capacity());
        self.slots.as_slice()
    }
}

impl<P: PtrCore, T: Drop, S: ArenaSlots<P, T>> ArenaCloneFromWith<P, T> for Arena<P, T, S> {
    ghost copied = { copied_of };

    fn clone_from_with<U, A, F>(&mut self, source: &A, map: F) -> Result<(), ReallocationError>
    where
        U: Drop,
        A: ArenaCloneSource<P, U>,
        F: FnMut(P, &U) -> Result<T, AllocError>,
    {
        // The arena is well-formed before.
        self.recall_formed();
        let slots = up_to_last::<P, U, A::Slot>(source.lent_slots());
        let counter = source.singular_generation();
        self.reallocate(slots.len())?;
        match self.become_copy::<U, A::Slot, F>(slots, counter, map) {
            Ok(()) => Ok(()),
            Err(_) => Err(ReallocationError::AllocError),
        }
    }
}

impl<P: PtrCore, T: Clone, S: ArenaSlots<P, T>> Arena<P, T, S> {
    /// A new arena with the same pointers, clones of their values and the same counter, where the
    /// smallest free index is the next one to be taken. It has room for the last live index. A
    /// clone of a value must equal it.
    ///
    /// It returns `BeyondMaxCapacity` if no new arena of this type has so much room, and
    /// `AllocError` if the memory or the clone of a value was refused.
    pub fn clone(&self, alloc: S::Alloc) -> Result<Self, ReallocationError>
        requires { (x y : T) → T.is_clone x y → y ≡ x }
        ensures exact { IfOk result (λ c. c ≡ copied_of (empty (second_generation P.Gen.last)
            (room_of P.Inx.greatest (S.room_at (last_inx self.now))))
            (Some self.now.counter) (live_entries self.now)) }
        ensures succeeds { last_inx self.now
            ≤ capacity (room_of P.Inx.greatest (S.room_at 0))
            → ((x : T) → T.is_infallible x) → IsOk result }
        ensures beyond { IsBeyondMaxCapacity result ↔ IsBeyond (room_of P.Inx.greatest
            (S.room_at (last_inx self.now))).limit (last_inx self.now) }
        ensures unmade { IsAllocError result
            → NeedsMemory S.takes_memory (room_of P.Inx.greatest (S.room_at 0)) (last_inx self.now)
            ⊎ MayRefuse T.is_infallible (live_entries self.now) }
        ensures formed { IfOk result (λ c. IsWellFormed c) }
    {
        let last = up_to_last::<P, T, ArenaSlot<P, T>>(self.slots.as_slice()).len();
        let mut copy = Self::with_min_capacity(alloc, last)?;
        copy.clone_from(self)?;
        Ok(copy)
    }

    /// Makes this arena a clone of `source`, as `clone_from_with` does with clones of the values. A
    /// clone of a value must equal it.
    ///
    /// It returns `BeyondMaxCapacity` if the last live index of `source` is past the greatest
    /// capacity, and `AllocError` if the memory was refused; the arena is then as it was. It also
    /// returns `AllocError` if the clone of a value was refused; the arena is then grown to that
    /// index and cleared.
    pub fn clone_from(&mut self, source: &Self) -> Result<(), ReallocationError>
        requires { (x y : T) → T.is_clone x y → y ≡ x }
        ensures exact { OnOk result (self.new ≡ copied_of self.old (Some source.now.counter)
            (live_entries source.now)) }
        ensures succeeds { last_inx source.now ≤ arena_capacity self.old
            → ((x : T) → T.is_infallible x) → IsOk result }
        ensures beyond { IsBeyondMaxCapacity result
            ↔ IsBeyond self.old.room.limit (last_inx source.now) }
        ensures kept { IsBeyondMaxCapacity result → self.new ≡ self.old }
        ensures unmade { IsAllocError result
            → IsUnmade S.takes_memory P.Gen.last (last_inx source.now)
            (MayRefuse T.is_infallible (live_entries source.now)) self.old self.new }
        ensures formed { IsWellFormed self.new }
    {
        self.clone_from_with(source, |_, value| value.clone())
    }
}

impl<P: PtrCore, T: Drop, S: ArenaSlots<P, T>> Arena<P, T, S> {
    // Becomes a copy of these slots, of which the last one is allocated, with this counter if there
    // is one.
    fn become_copy<U, E, F>(
        &mut self,
        source: &[E],
        counter: Option<P::Gen>,
        map: F,
    ) -> Result<(), AllocError>
    where
        E: LentEntry<P, U>,
        F: FnMut(P, &U) -> Result<T, AllocError>,
        requires fits { length source.now ≤ arena_capacity self.old }
        requires last { length source.now ≡ last_listed (listed_by E.shown source.now) }
        requires callable { F.IsAlwaysCallable map }
        ensures mapped { OnOk result (IsMappedCopy P.index P.generation F.step map
            (listed_by E.shown source.now) (live_entries self.new)) }
        ensures exact { OnOk result (self.new ≡ copied_of self.old (option_map P.Gen.number counter)
            (live_entries self.new)) }
        ensures refused { IsErr result → IsRefusedCopy P.index P.generation F.step map
            (listed_by E.shown source.now) }
        ensures cleared { IsErr result → self.new ≡ cleared P.Gen.last self.old }
        ensures formed { IsWellFormed self.new }
    {
        // Each slot has an index of the pointer type.
        recall!(self.own_capacity());
        let counter = counter.unwrap_or(self.counter);
        self.empty();
        match append_copies::<P, T, U, ArenaSlot<P, T>, E, S, F>(&mut self.slots, source, map) {
            Ok(live) => {
                self.head = link_free::<P, T, S>(&mut self.slots, live);
                self.len = live;
                self.counter = counter;
                // The arena is well-formed after.
                self.recall_formed();
                Ok(())
            }
            Err(refused) => {
                self.slots.clear();
                let _ = self.step();
                // The arena is well-formed after.
                self.recall_formed();
                Err(refused)
            }
        }
    }
}

// Links the free slots by rising index, and returns the first one. Of the slots, `live` are
// allocated.
fn link_free<P: PtrCore, T: Drop, S: ArenaSlots<P, T>>(slots: &mut S, live: usize) -> FreeInx<P>
    requires live { live ≡ count_by is_some (list_map entry_of (S.items slots.old)) }
    requires fits { length (S.items slots.old) ≤ P.Inx.greatest }
    ensures entries { list_map entry_of (S.items slots.new)
        ≡ list_map entry_of (S.items slots.old) }
    ensures listed { IsFreeList (S.items slots.new) result
        (vacant_from 1 (list_map entry_of (S.items slots.old))) }
    ensures room { S.room slots.new ≡ S.room slots.old }
{
    if live == slots.len() {
        return OptionalInx::none();
    }
    link_rising::<P, T, S>(slots)
}
