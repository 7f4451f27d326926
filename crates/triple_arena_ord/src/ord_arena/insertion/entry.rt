//! Room for one item more, which tells its pointer before the item is there.
ghost use Rattle.std.specs.Prelude.{◌≡◌, ◌≤◌, Some, None, Ok, Err, IfOk, IfSome, IfNone};
ghost use Rattle.std.specs.Prelude.{OnOk, OnErr};
ghost use Rattle.std.specs.Borrow.{sem, RestsIfErr};
ghost use Rattle.triple_arena_ptr.specs.declared.errors.OrdInsertionError.{OrdInsertionError as Refused};
ghost use Rattle.triple_arena_stack.specs.Room.{capacity};
ghost use Rattle.triple_arena_ord.specs.Growth.{IsInRoom};
ghost use Rattle.triple_arena_ord.specs.Inserted.{Replaces, InsertsAt, within_room};
ghost use Rattle.triple_arena_ord.specs.Inserted.{growing_room, room_for};
ghost use Rattle.triple_arena_ord.specs.InsertEntry.{entry_arena, entry_lender, entry_place};
ghost use Rattle.triple_arena_ord.specs.InsertEntry.{kind_at, IsReady, IsReadyAt, IsAnswerTo};
ghost use Rattle.triple_arena_ord.specs.Ordered.{size_in};
ghost use Rattle.triple_arena_ord.specs.Found.{place_by, IsLivePlace};

use crate::ord_arena::insertion::grown_error;
use crate::ord_arena::search::found::found_at;
use crate::{OrdEntryKind, OrdInsertKind, OrdSlots, SimpleOrdArena, SimpleOrdItem};
use proof_marks::{recall, unreached};
use std::cmp::Ordering;
use triple_arena::{ArenaTrait, PtrCore};
use triple_arena_ptr::OrdInsertionError;

/// Room for one item more. Dropped unused, it leaves the entries as they are.
#[derive(Drop)]
pub struct SimpleOrdArenaInsertEntry<'a, P: PtrCore, T: Drop, S: OrdSlots<P, T>> {
    arena: &'a mut SimpleOrdArena<P, T, S>,
    place: Option<(P::Inx, Ordering)>,
    ptr: P,
}

impl<'a, P: PtrCore, T: Drop, S: OrdSlots<P, T>> SimpleOrdArenaInsertEntry<'a, P, T, S> {
    /// The pointer that the item gets: a new one, or that of the item which it replaces.
    pub fn ptr(&self) -> OrdEntryKind<P>
        ensures { result ≡ kind_at (entry_place P.Inx.number self.now) self.now.ptr }
    {
        match self.place {
            Some((_, direction)) => match direction {
                Ordering::Less => OrdEntryKind::New(self.ptr),
                Ordering::Equal => OrdEntryKind::Replacing(self.ptr),
                Ordering::Greater => OrdEntryKind::New(self.ptr),
            },
            None => OrdEntryKind::New(self.ptr),
        }
    }

    /// Stores `t` there, and returns the item that it replaces. It takes no memory and cannot fail.
    pub fn insert(self, t: T) -> Option<T>
        requires { IsReady P.Inx.number P.index P.generation self }

        // `self.exit.0.now` is the arena as it is left.
        ensures { InsertsAt P.index P.generation None
            (entry_place P.Inx.number self.entry) t (Ok (self.entry.ptr, result))
            (entry_arena self.entry) self.exit.0.now }
    {
        let SimpleOrdArenaInsertEntry {
            arena,
            place,
            ptr: _,
        } = self;
        // The list is as it must be.
        recall!(arena.len());
        let place = arena.settle(place);
        match arena.insert_at_within_capacity(place, t) {
            Ok((_, replaced)) => replaced,
            Err(_) => unreached!(),
        }
    }
}

impl<P: PtrCore, T: Drop, S: OrdSlots<P, T>> SimpleOrdArena<P, T, S> {
    // The pointer that an item gets at a place: that of the entry there, or a new one, if there is
    // room for it.
    fn ptr_within_capacity(&self, place: Option<(P::Inx, Ordering)>) -> Option<P>
        requires live { IsLivePlace P.Inx.number self.now place }
        requires empty { place ≡ None → size_in self.now ≡ 0 }
        ensures ready { IfSome result
            (λ p. IsReadyAt (place_by P.Inx.number place) (P.index p) (P.generation p) self.now) }
        ensures full { IfNone result (capacity self.now.chains.room ≤ size_in self.now) }
        ensures new { IfNone result (Replaces (place_by P.Inx.number place) → ⊥) }
    {
        if let Some(p) = found_at(&self.chains, place) {
            return Some(p);
        }
        self.chains.next_ptr()
    }

    // The same, but the arena grows if a new entry is needed and there is no room.
    fn ptr_reallocating(
        &mut self,
        place: Option<(P::Inx, Ordering)>,
    ) -> Result<P, OrdInsertionError>
        requires live { IsLivePlace P.Inx.number self.old place }
        requires empty { place ≡ None → size_in self.old ≡ 0 }
        ensures ready { IfOk result
            (λ p. IsReadyAt (place_by P.Inx.number place) (P.index p) (P.generation p) self.new) }
        ensures grown { OnOk result (IsInRoom
            (room_for (place_by P.Inx.number place) (size_in self.old) self.old.chains.room)
            self.old self.new) }
        ensures fits { OnOk result ((Replaces (place_by P.Inx.number place) → ⊥)
            → growing_room S.takes_memory (size_in self.old) self.old.chains.room None) }
        ensures new { (error : Refused) → result ≡ Err error
            → Replaces (place_by P.Inx.number place) → ⊥ }
        ensures refused { (error : Refused) → result ≡ Err error
            → growing_room S.takes_memory (size_in self.old) self.old.chains.room (Some error) }
        ensures err { OnErr result (self.new ≡ self.old) }
    {
        match found_at(&self.chains, place) {
            Some(p) => Ok(p),
            None => match self.make_room() {
                Ok(p) => Ok(p),
                Err(error) => Err(grown_error(error)),
            },
        }
    }
}

impl<P: PtrCore, T: SimpleOrdItem + Drop, S: OrdSlots<P, T>> SimpleOrdArena<P, T, S> {
    ghost use Rattle.triple_arena_ord.specs.contracts.ord_arena.SimpleOrdArena.{the_row};

    /// Room for one item more, where the kind says. It returns `FailedOrdRequirement` for
    /// `Empty` if there is an entry, and for `Manual` at an index that is not live; and else
    /// `NotWithinCapacity` if a new entry is needed and there is no room. The entries stay as they
    /// are then.
    pub fn entry_insert_within_capacity(
        &mut self,
        kind: OrdInsertKind<P, &T::Key>,
    ) -> Result<SimpleOrdArenaInsertEntry<'_, P, T, S>, OrdInsertionError>
        ensures answer { IsAnswerTo P.Inx.number T.Key.cmp T.key_of kind.entry self.old
            (within_room (size_in self.old) self.old.chains.room) result }
        ensures ready { IfOk result (λ e. IsReady P.Inx.number P.index P.generation e) }
        ensures same_reference { IfOk result (λ e. entry_lender e ≡ self.entry.ghost_name) }
        ensures arena { IfOk result (λ e. entry_arena e ≡ self.old) }
        ensures* err { sem 𝓛 (RestsIfErr
            (the_row P.row T.row S.row P.Inx.row P.Gen.row P.Inx.Word.row S.Alloc.row
            P.PtrCore P.Inx.PtrInxCore.own P.Inx.PartialEq P.Gen.PtrGenCore.own P.Gen.PartialEq
            S.NonZeroInxGenericStack) self.entry entry_lender result (λ a. a ≡ self.old)) }
    {
        let Some(place) = self.place_for(kind) else {
            return Err(OrdInsertionError::FailedOrdRequirement);
        };
        match self.ptr_within_capacity(place) {
            Some(ptr) => Ok(SimpleOrdArenaInsertEntry {
                arena: self,
                place,
                ptr,
            }),
            None => Err(OrdInsertionError::NotWithinCapacity),
        }
    }

    /// Room for one item more, where the kind says. If a new entry is needed and there is no room,
    /// the arena grows, in the steps of `insert_reallocating`. It returns `FailedOrdRequirement`
    /// for `Empty` if there is an entry, and for `Manual` at an index that is not live; and else
    /// `BeyondMaxCapacity` if as many entries are live as the greatest capacity, and `AllocError`
    /// if the memory was refused. An error leaves the entries and the room as they were.
    pub fn entry_insert_reallocating(
        &mut self,
        kind: OrdInsertKind<P, &T::Key>,
    ) -> Result<SimpleOrdArenaInsertEntry<'_, P, T, S>, OrdInsertionError>
        ensures answer { IsAnswerTo P.Inx.number T.Key.cmp T.key_of kind.entry self.old
            (growing_room S.takes_memory (size_in self.old) self.old.chains.room) result }
        ensures ready { IfOk result (λ e. IsReady P.Inx.number P.index P.generation e) }
        ensures same_reference { IfOk result (λ e. entry_lender e ≡ self.entry.ghost_name) }
        ensures arena { IfOk result
            (λ e. IsInRoom (room_for (entry_place P.Inx.number e)
            (size_in self.old) self.old.chains.room) self.old (entry_arena e)) }
        ensures* err { sem 𝓛 (RestsIfErr
            (the_row P.row T.row S.row P.Inx.row P.Gen.row P.Inx.Word.row S.Alloc.row
            P.PtrCore P.Inx.PtrInxCore.own P.Inx.PartialEq P.Gen.PtrGenCore.own P.Gen.PartialEq
            S.NonZeroInxGenericStack) self.entry entry_lender result (λ a. a ≡ self.old)) }
    {
        let Some(place) = self.place_for(kind) else {
            return Err(OrdInsertionError::FailedOrdRequirement);
        };
        let ptr = self.ptr_reallocating(place)?;
        Ok(SimpleOrdArenaInsertEntry {
            arena: self,
            place,
            ptr,
        })
    }

    /// Room for one item more, where the kind says: another name of `entry_insert_reallocating`. If
    /// a new entry is needed and there is no room, the arena grows. `FailedOrdRequirement`, for
    /// `Empty` if there is an entry and for `Manual` at an index that is not live,
    /// `BeyondMaxCapacity` and `AllocError` leave the entries and the room as they were.
    pub fn entry_insert(
        &mut self,
        kind: OrdInsertKind<P, &T::Key>,
    ) -> Result<SimpleOrdArenaInsertEntry<'_, P, T, S>, OrdInsertionError>
        ensures answer { IsAnswerTo P.Inx.number T.Key.cmp T.key_of kind.entry self.old
            (growing_room S.takes_memory (size_in self.old) self.old.chains.room) result }
        ensures ready { IfOk result (λ e. IsReady P.Inx.number P.index P.generation e) }
        ensures same_reference { IfOk result (λ e. entry_lender e ≡ self.entry.ghost_name) }
        ensures arena { IfOk result
            (λ e. IsInRoom (room_for (entry_place P.Inx.number e)
            (size_in self.old) self.old.chains.room) self.old (entry_arena e)) }
        ensures* err { sem 𝓛 (RestsIfErr
            (the_row P.row T.row S.row P.Inx.row P.Gen.row P.Inx.Word.row S.Alloc.row
            P.PtrCore P.Inx.PtrInxCore.own P.Inx.PartialEq P.Gen.PtrGenCore.own P.Gen.PartialEq
            S.NonZeroInxGenericStack) self.entry entry_lender result (λ a. a ≡ self.old)) }
    {
        self.entry_insert_reallocating(kind)
    }
}
