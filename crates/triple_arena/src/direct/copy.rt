//! A direct arena as a copy of another one.
ghost use Rattle.std.specs.Prelude.{◌≡◌, ◌≤◌, ◌↔◌, ◌⊎◌, IsOk, IsErr, IfOk, OnOk};
ghost use Rattle.std.specs.Prelude.{length};
ghost use Rattle.triple_arena_ptr.specs.Errors.{IsBeyondMaxCapacity, IsAllocError};
ghost use Rattle.triple_arena_stack.specs.Room.{capacity, IsBeyond};
ghost use Rattle.triple_arena.specs.ArenaRoom.{room_of};
ghost use Rattle.triple_arena.specs.Copy.{last_listed, direct_last_inx as last_inx};
ghost use Rattle.triple_arena.specs.Copy.{directly_copied, MayRefuse, IsMappedCopy, IsRefusedCopy};
ghost use Rattle.triple_arena.specs.Copy.{IsDirectlyUnmade, NeedsMemory};
ghost use Rattle.triple_arena.specs.DirectContent.{entry_at, live_count, live_entries, no_counter};
ghost use Rattle.triple_arena.specs.DirectContent.{empty, arena_capacity, reallocated, cleared};
ghost use Rattle.triple_arena.specs.DirectContent.{IsWellFormed};
ghost use Rattle.triple_arena.specs.LiveEntries.{listed_by};

use crate::copy::{append_copies, up_to_last};
use crate::direct::DirectArena;
use crate::iterators::LentEntry;
use crate::{ArenaCloneFromWith, ArenaCloneSource, ArenaTrait, DirectSlot, DirectSlots};
use proof_marks::recall;
use triple_arena_ptr::{AllocError, PtrCore, ReallocationError};

impl<P: PtrCore, T: Drop, S: DirectSlots<P, T>> ArenaCloneSource<P, T> for DirectArena<P, T, S> {
    type Slot = DirectSlot<P, T>;

    fn lent_slots(&self) -> &[DirectSlot<P, T>] {
        // Each slot has an index of the pointer type.
        recall!(self.own_capacity());
        self.slots.as_slice()
    }
}

impl<P: PtrCore, T: Drop, S: DirectSlots<P, T>> ArenaCloneFromWith<P, T> for DirectArena<P, T, S> {
    ghost copied = { λ d counter entries. directly_copied d entries };

    fn clone_from_with<U, A, F>(&mut self, source: &A, map: F) -> Result<(), ReallocationError>
    where
        U: Drop,
        A: ArenaCloneSource<P, U>,
        F: FnMut(P, &U) -> Result<T, AllocError>,
    {
        // The arena is well-formed before.
        self.recall_formed();
        let slots = up_to_last::<P, U, A::Slot>(source.lent_slots());
        self.reallocate(slots.len())?;
        match self.become_copy::<U, A::Slot, F>(slots, map) {
            Ok(()) => Ok(()),
            Err(_) => Err(ReallocationError::AllocError),
        }
    }
}

impl<P: PtrCore, T: Clone, S: DirectSlots<P, T>> DirectArena<P, T, S> {
    /// A new arena with the same pointers, and clones of their values, and with room for the last
    /// live index. A clone of a value must equal it.
    ///
    /// It returns `BeyondMaxCapacity` if no new arena of this type has so much room, and
    /// `AllocError` if the memory or the clone of a value was refused.
    pub fn clone(&self, alloc: S::Alloc) -> Result<Self, ReallocationError>
        requires { (x y : T) → T.is_clone x y → y ≡ x }
        ensures exact { IfOk result (λ d. d ≡ directly_copied (empty
            (room_of P.Inx.greatest (S.room_at (last_inx self.now))))
            (live_entries self.now)) }
        ensures succeeds { last_inx self.now
            ≤ capacity (room_of P.Inx.greatest (S.room_at 0))
            → ((x : T) → T.is_infallible x) → IsOk result }
        ensures beyond { IsBeyondMaxCapacity result ↔ IsBeyond (room_of P.Inx.greatest
            (S.room_at (last_inx self.now))).limit (last_inx self.now) }
        ensures unmade { IsAllocError result
            → NeedsMemory S.takes_memory (room_of P.Inx.greatest (S.room_at 0)) (last_inx self.now)
            ⊎ MayRefuse T.is_infallible (live_entries self.now) }
        ensures formed { IfOk result (λ d. IsWellFormed d) }
    {
        let last = up_to_last::<P, T, DirectSlot<P, T>>(self.lent_slots()).len();
        let mut copy = Self::with_min_capacity(alloc, last)?;
        copy.clone_from(self)?;
        Ok(copy)
    }

    /// Makes this arena a clone of `source`, as `clone_from_with` does with clones of the values. A
    /// clone of a value must equal it.
    ///
    /// It returns `BeyondMaxCapacity` if the last live index of `source` is past the greatest
    /// capacity, and `AllocError` if the memory was refused; the arena is then as it was. It also
    /// returns `AllocError` if the clone of a value was refused; the arena is then grown to that
    /// index and cleared.
    pub fn clone_from(&mut self, source: &Self) -> Result<(), ReallocationError>
        requires { (x y : T) → T.is_clone x y → y ≡ x }
        ensures exact { OnOk result
            (self.new ≡ directly_copied self.old (live_entries source.now)) }
        ensures succeeds { last_inx source.now ≤ arena_capacity self.old
            → ((x : T) → T.is_infallible x) → IsOk result }
        ensures beyond { IsBeyondMaxCapacity result
            ↔ IsBeyond self.old.room.limit (last_inx source.now) }
        ensures kept { IsBeyondMaxCapacity result → self.new ≡ self.old }
        ensures unmade { IsAllocError result
            → IsDirectlyUnmade S.takes_memory P.Gen.last (last_inx source.now)
            (MayRefuse T.is_infallible (live_entries source.now)) self.old self.new }
        ensures formed { IsWellFormed self.new }
    {
        self.clone_from_with(source, |_, value| value.clone())
    }
}

impl<P: PtrCore, T: Drop, S: DirectSlots<P, T>> DirectArena<P, T, S> {
    // Becomes a copy of these slots, of which the last one is allocated.
    fn become_copy<U, E, F>(&mut self, source: &[E], map: F) -> Result<(), AllocError>
    where
        E: LentEntry<P, U>,
        F: FnMut(P, &U) -> Result<T, AllocError>,
        requires fits { length source.now ≤ arena_capacity self.old }
        requires last { length source.now ≡ last_listed (listed_by E.shown source.now) }
        requires callable { F.IsAlwaysCallable map }
        ensures mapped { OnOk result (IsMappedCopy P.index P.generation F.step map
            (listed_by E.shown source.now) (live_entries self.new)) }
        ensures exact { OnOk result (self.new ≡ directly_copied self.old (live_entries self.new)) }
        ensures refused { IsErr result → IsRefusedCopy P.index P.generation F.step map
            (listed_by E.shown source.now) }
        ensures cleared { IsErr result → self.new ≡ cleared self.old }
        ensures formed { IsWellFormed self.new }
    {
        // Each slot has an index of the pointer type.
        recall!(self.own_capacity());
        self.empty();
        match append_copies::<P, T, U, DirectSlot<P, T>, E, S, F>(&mut self.slots, source, map) {
            Ok(live) => {
                self.len = live;
                // The arena is well-formed after.
                self.recall_formed();
                Ok(())
            }
            Err(refused) => {
                self.slots.clear();
                // The arena is well-formed after.
                self.recall_formed();
                Err(refused)
            }
        }
    }
}
