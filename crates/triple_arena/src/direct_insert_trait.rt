//! Insertion at a pointer of the caller's choice.
ghost use Rattle.std.specs.Prelude.{◌≡◌, ℕ, ◌<◌, ◌↔◌, IsOk, IfOk, IsErrOf, IsSome};
ghost use Rattle.std.specs.Borrow.{sem, RestsIfErr};
ghost use Rattle.triple_arena.specs.DirectEntry.{entry_arena, entry_lender, entry_index};
ghost use Rattle.triple_arena.specs.DirectEntry.{entry_generation};
ghost use Rattle.triple_arena.specs.DirectContent.{DirectContent, entry_at, arena_capacity};
ghost use Rattle.triple_arena.specs.DirectContent.{IsPlace};

use crate::{ArenaDirectInsertEntry, ArenaTrait, DirectSlots};
use triple_arena_ptr::{DirectInsertionError, PtrCore};

/// The calls of an insert entry, which is a place at a pointer of the caller's choice.
pub trait ArenaDirectInsertEntryTrait<P: PtrCore, T> {
    // The index is within the capacity, and no entry is there, as when the place was made.
    ghost has_place: { Self → Type 0 };

    /// Stores `t` under the pointer. It takes no memory and cannot fail. If the index is past the
    /// slots, free ones are appended up to it.
    fn insert(self, t: T)
        requires { has_place self };
}

/// The arenas to which the caller gives whole pointers.
pub trait ArenaDirectInsertTrait<P: PtrCore, T: Drop>: ArenaTrait<P, T> {
    /// The stack that the arena keeps its slots in.
    type Stack: DirectSlots<P, T>;

    // The arena as its entries see it.
    ghost content: { Self → DirectContent T };

    /// A place for an entry under `p`. It returns `NotWithinCapacity` if the index is past the
    /// capacity, and else `ExistingElementAtIndex` if an entry is there, of whatever generation. An
    /// error leaves the arena as it is.
    fn direct_insert_within_capacity(
        &mut self,
        p: P,
    ) -> Result<ArenaDirectInsertEntry<'_, P, T, Self::Stack>, DirectInsertionError>
        ensures variant { IsOk result ↔ IsPlace (content self.old) (P.index p) }
        ensures same_reference { IfOk result (λ e. entry_lender e ≡ self.entry.ghost_name) }
        ensures arena { IfOk result (λ e. entry_arena e ≡ content self.old) }
        ensures index { IfOk result (λ e. entry_index e ≡ P.index p) }
        ensures generation { IfOk result
            (λ e. entry_generation P.Gen.number e ≡ P.generation p) }
        ensures not_within { IsErrOf result DirectInsertionError.NotWithinCapacity
            ↔ (arena_capacity (content self.old) < P.index p) }
        ensures existing { IsErrOf result DirectInsertionError.ExistingElementAtIndex
            ↔ IsSome (entry_at (content self.old) (P.index p)) }
        ensures* err { sem 𝓛 (RestsIfErr Self.row self.entry entry_lender result
            (λ a. a ≡ self.old)) };

    // What stands in it is what stands in the arena, in the same room.
    ghost content_entries: { (s : Self) (i : ℕ) → entry_at (content s) i ≡ Self.entry_at s i };

    ghost content_room: { (s : Self) → (content s).room ≡ Self.room s };
}
