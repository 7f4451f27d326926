//! Copies of arenas: the same pointers, with the values that a map gives.
ghost use Rattle.std.specs.Prelude.{◌≡◌, ◌<◌, ◌≤◌, ◌↔◌, ℕ, ◌∷◌, ◌++◌, Option, [], IsOk, IsErr};
ghost use Rattle.std.specs.Prelude.{IfOk, OnOk, List, length, is_some, count_by};
ghost use Rattle.std.specs.Prelude.{map as list_map, ⊤};
ghost use Rattle.triple_arena_ptr.specs.Errors.{IsBeyondMaxCapacity, IsAllocError};
ghost use Rattle.triple_arena_ptr.specs.Index.{max_index_of};
ghost use Rattle.triple_arena_stack.specs.Room.{capacity as capacity_of, IsBeyond};
ghost use Rattle.triple_arena.specs.Copy.{last_listed, IsMappedCopy, IsRefusedCopy, NeverRefuses};
ghost use Rattle.triple_arena.specs.Copy.{IsCopyOf, IsUnmadeCopy};
ghost use Rattle.triple_arena.specs.LiveEntries.{listed_by};

use crate::ArenaTrait;
use crate::arena::pointer_at;
use crate::iterators::LentEntry;
use crate::slot::EntrySlot;
use proof_marks::unreached;
use std::num::NonZeroUsize;
use triple_arena_ptr::{AllocError, PtrCore, ReallocationError};
use triple_arena_stack::NonZeroInxGenericStack;

/// The arenas that copies are made of: an `Arena` or a `DirectArena`, with any stack.
pub trait ArenaCloneSource<P: PtrCore, U: Drop>: ArenaTrait<P, U> {
    /// What an entry stands in.
    type Slot: LentEntry<P, U>;

    /// The slots, from index 1 on.
    fn lent_slots(&self) -> &[Self::Slot]
        ensures entries { listed_by Self.Slot.shown result.now ≡ Self.live_entries self.now }
        ensures indexes { length result.now ≤ max_index_of P.Inx.greatest };
}

/// The arenas that become a copy of another one.
pub trait ArenaCloneFromWith<P: PtrCore, T: Drop>: ArenaTrait<P, T> {
    // The arena with these entries alone, with this counter if both have one, and with room for the
    // last of them.
    ghost copied: { Self → Option ℕ → List (ℕ × (ℕ × T)) → Self };

    /// Makes this arena a copy of `source`: with its pointers, each with what `map` makes of the
    /// value there, and with its counter if both have one. `map` is called once for each entry, in
    /// the order of the indexes, with the pointer and the value. What the arena held is dropped,
    /// and the smallest free index is the next one to be taken. A pointer of what it held before
    /// may find a copied entry.
    ///
    /// No memory is taken if the last live index of `source` is within the capacity, which then
    /// stays. Else the arena first grows to exactly that index. It returns `BeyondMaxCapacity` if
    /// that is past the greatest capacity, and `AllocError` if the memory was refused; the arena is
    /// then as it was.
    ///
    /// It also returns `AllocError` if `map` refused. The arena then has room for the copy, no
    /// entry, and the counter that `clear` leaves.
    ///
    /// That `map` is not called if the growth is refused, nor again after it refused, is tested
    /// only.
    fn clone_from_with<U, A, F>(&mut self, source: &A, map: F) -> Result<(), ReallocationError>
    where
        U: Drop,
        A: ArenaCloneSource<P, U>,
        F: FnMut(P, &U) -> Result<T, AllocError>,
        requires { F.IsAlwaysCallable map }
        ensures mapped { OnOk result (IsMappedCopy P.index P.generation F.step map
            (A.live_entries source.now) (Self.live_entries self.new)) }
        ensures copied { OnOk result (IsCopyOf Self.entry_at Self.live_count Self.counter Self.room
            A.entry_at A.live_count A.counter A.live_entries source.now self.old self.new) }
        ensures exact { OnOk result (self.new
            ≡ copied self.old (A.counter source.now) (Self.live_entries self.new)) }
        ensures succeeds { last_listed (A.live_entries source.now)
            ≤ capacity_of (Self.room self.old)
            → NeverRefuses F.step → IsOk result }
        ensures beyond { IsBeyondMaxCapacity result
            ↔ IsBeyond (Self.room self.old).limit (last_listed (A.live_entries source.now)) }
        ensures kept { IsBeyondMaxCapacity result → self.new ≡ self.old }
        ensures unmade { IsAllocError result
            → IsUnmadeCopy Self.entry_at Self.live_count Self.counter Self.room Self.takes_memory
            P.Gen.last (last_listed (A.live_entries source.now))
            (λ s. Self.cleared (Self.reallocated s (last_listed (A.live_entries source.now))))
            (IsRefusedCopy P.index P.generation F.step map (A.live_entries source.now))
            self.old self.new }
        ensures formed { Self.is_formed self.new };
}

// The slots up to the last one that is allocated.
pub(crate) fn up_to_last<P: PtrCore, U, E: LentEntry<P, U>>(slots: &[E]) -> &[E]
    ensures entries { listed_by E.shown result.now ≡ listed_by E.shown slots.now }
    ensures last { length result.now ≡ last_listed (listed_by E.shown slots.now) }
    ensures fewer { length result.now ≤ length slots.now }
{
    let mut left = slots;
    while let Some((last, before)) = left.split_last() {
        if last.lent_entry().is_some() {
            return left;
        }
        left = before;
    }
    left
}

// Appends a copy of each of these slots, with what `map` makes of the values, and says how many are
// allocated.
pub(crate) fn append_copies<P, T, U, L, E, S, F>(
    slots: &mut S,
    source: &[E],
    mut map: F,
) -> Result<usize, AllocError>
where
    P: PtrCore,
    T: Drop,
    L: EntrySlot<P, T> + Drop,
    E: LentEntry<P, U>,
    S: NonZeroInxGenericStack<Item = L>,
    F: FnMut(P, &U) -> Result<T, AllocError>,
    requires empty { S.items slots.old ≡ [] }
    requires fits { length source.now ≤ capacity_of (S.room slots.old) }
    requires indexes { length source.now ≤ max_index_of P.Inx.greatest }
    requires callable { F.IsAlwaysCallable map }
    ensures mapped { OnOk result (IsMappedCopy P.index P.generation F.step map
        (listed_by E.shown source.now) (listed_by L.entry (S.items slots.new))) }
    ensures slots { OnOk result (length (S.items slots.new) ≡ length source.now) }
    ensures live { IfOk result (λ n. n ≡ count_by is_some (list_map L.entry (S.items slots.new))) }
    ensures refused { IsErr result → IsRefusedCopy P.index P.generation F.step map
        (listed_by E.shown source.now) }
    ensures room { S.room slots.new ≡ S.room slots.old }
{
    let mut live = 0;
    let mut left = source;
    while let Some((slot, rest)) = left.split_first() {
        let index = NonZeroUsize::MIN.saturating_add(slots.len());
        match slot.lent_entry() {
            Some(entry) => {
                let value = map(pointer_at(index, entry.0), entry.1)?;
                append::<L, S>(slots, L::holding(entry.0, value));
                live += 1;
            }
            None => append::<L, S>(slots, L::vacant()),
        }
        left = rest;
    }
    Ok(live)
}

// Appends a slot, for which there is room.
fn append<L: Drop, S: NonZeroInxGenericStack<Item = L>>(slots: &mut S, slot: L)
    requires room { length (S.items slots.old) < capacity_of (S.room slots.old) }
    requires no_more { ⊤ }
    ensures items { S.items slots.new ≡ S.items slots.old ++ slot ∷ [] }
    ensures room { S.room slots.new ≡ S.room slots.old }
{
    match slots.push_within_capacity(slot) {
        Ok(_) => {}
        Err(_) => unreached!(),
    }
}
