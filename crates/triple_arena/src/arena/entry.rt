//! Room for one entry more, which tells its pointer before the value is there.
ghost use Rattle.std.specs.Prelude.{◌≡◌, ℕ, ◌<◌, ◌↔◌, IsOk, IfOk};
ghost use Rattle.std.specs.Borrow.{sem, RestsIfErr};
ghost use Rattle.triple_arena_stack.specs.Push.{IsRefusal};
ghost use Rattle.triple_arena.specs.Changes.{IsInserted};
ghost use Rattle.triple_arena.specs.InsertEntry.{entry_arena, entry_lender};
ghost use Rattle.triple_arena.specs.Content.{Content, entry_at, some_counter, live_count};
ghost use Rattle.triple_arena.specs.Content.{arena_capacity, next_index, inserted, grown_if_full};
ghost use Rattle.triple_arena.specs.Content.{IsWellFormed};

use crate::{Arena, ArenaSlots};
use triple_arena_ptr::{NotWithinCapacityError, PtrCore, ReallocationError};

/// The calls of an insert entry, which is room for one entry more.
pub trait ArenaInsertEntryTrait<P: PtrCore, T> {
    // The index that the entry gets, and its generation.
    ghost index: { Self → ℕ };

    ghost generation: { Self → ℕ };

    // There is room for an entry, as when the place was made.
    ghost has_room: { Self → Type 0 };

    /// The pointer that the entry gets.
    fn ptr(&self) -> P
        requires { has_room self.now }
        ensures index { P.index result ≡ index self.now }
        ensures generation { P.generation result ≡ generation self.now };

    /// Stores `t`, and returns its pointer. It takes no memory and cannot fail.
    fn insert(self, t: T) -> P
        requires { has_room self }
        ensures index { P.index result ≡ index self }
        ensures generation { P.generation result ≡ generation self };
}

/// Room for one entry more in an `Arena`. Dropped unused, it leaves the arena as it is.
#[derive(Drop)]
pub struct ArenaInsertEntry<'a, P: PtrCore, T: Drop, S: ArenaSlots<P, T>> {
    arena: &'a mut Arena<P, T, S>,
}

impl<'a, P: PtrCore, T: Drop, S: ArenaSlots<P, T>> ArenaInsertEntryTrait<P, T>
    for ArenaInsertEntry<'a, P, T, S> {
    ghost index = { λ e. next_index (entry_arena e) };

    ghost generation = { λ e. (entry_arena e).counter };

    ghost has_room = { λ e. live_count (entry_arena e) < arena_capacity (entry_arena e) };

    fn ptr(&self) -> P {
        self.arena.next_ptr()
    }

    fn insert(self, t: T) -> P
        requires { live_count (entry_arena self) < arena_capacity (entry_arena self) }

        // `self.exit.0.now` is the arena as it is left.
        ensures inserted { IsInserted entry_at live_count some_counter
            (next_index (entry_arena self.entry)) (P.index result) (P.generation result) t
            (entry_arena self.entry) self.exit.0.now }
        ensures exact { self.exit.0.now ≡ inserted (entry_arena self.entry) t }
        ensures room { self.exit.0.now.room ≡ (entry_arena self.entry).room }
        ensures formed { IsWellFormed self.exit.0.now }
    {
        let ArenaInsertEntry { arena } = self;
        arena.insert_unwrap(t)
    }
}

/// The calls of an `Arena` that return an entry.
pub trait ArenaInsertEntries<P: PtrCore, T: Drop> {
    /// The stack that the arena keeps its slots in.
    type Stack: ArenaSlots<P, T>;

    // The arena as its entries see it.
    ghost content: { Self → Content T };

    /// Room for one entry more. If there is no room, it returns `NotWithinCapacityError`, and
    /// the arena stays as it is.
    fn entry_insert_within_capacity(
        &mut self,
    ) -> Result<ArenaInsertEntry<'_, P, T, Self::Stack>, NotWithinCapacityError>
        ensures variant { IsOk result
            ↔ (live_count (content self.old) < arena_capacity (content self.old)) }
        ensures same_reference { IfOk result (λ e. entry_lender e ≡ self.entry.ghost_name) }
        ensures arena { IfOk result (λ e. entry_arena e ≡ content self.old) }
        ensures* err { sem 𝓛 (RestsIfErr Self.row self.entry entry_lender result
            (λ a. a ≡ self.old)) };

    /// Room for one entry more. If there is no room, the arena grows: to room for 4 at first, then
    /// for the double, and never past its greatest capacity. It returns `BeyondMaxCapacity` if as
    /// many entries are live as the greatest capacity, and `AllocError` if the memory was refused.
    /// An error leaves the arena as it was.
    fn entry_insert_reallocating(
        &mut self,
    ) -> Result<ArenaInsertEntry<'_, P, T, Self::Stack>, ReallocationError>
        ensures same_reference { IfOk result (λ e. entry_lender e ≡ self.entry.ghost_name) }
        ensures has_room { IfOk result
            (λ e. live_count (entry_arena e) < arena_capacity (entry_arena e)) }
        ensures arena { IfOk result (λ e. entry_arena e ≡ grown_if_full (content self.old)) }
        ensures refusal { IsRefusal Self.Stack.takes_memory (live_count (content self.old))
            (content self.old).room result }
        ensures* err { sem 𝓛 (RestsIfErr Self.row self.entry entry_lender result
            (λ a. a ≡ self.old)) };

    /// Room for one entry more: another name of `entry_insert_reallocating`. If there is no room,
    /// the arena grows. It returns `BeyondMaxCapacity` if as many entries are live as the greatest
    /// capacity, and `AllocError` if the memory was refused. An error leaves the arena as it was.
    fn entry_insert(&mut self) -> Result<ArenaInsertEntry<'_, P, T, Self::Stack>, ReallocationError>
        ensures same_reference { IfOk result (λ e. entry_lender e ≡ self.entry.ghost_name) }
        ensures has_room { IfOk result
            (λ e. live_count (entry_arena e) < arena_capacity (entry_arena e)) }
        ensures arena { IfOk result (λ e. entry_arena e ≡ grown_if_full (content self.old)) }
        ensures refusal { IsRefusal Self.Stack.takes_memory (live_count (content self.old))
            (content self.old).room result }
        ensures* err { sem 𝓛 (RestsIfErr Self.row self.entry entry_lender result
            (λ a. a ≡ self.old)) };
}

impl<P: PtrCore, T: Drop, S: ArenaSlots<P, T>> ArenaInsertEntries<P, T> for Arena<P, T, S> {
    type Stack = S;

    ghost content = { λ c. c };

    fn entry_insert_within_capacity(
        &mut self,
    ) -> Result<ArenaInsertEntry<'_, P, T, S>, NotWithinCapacityError> {
        if self.live() == self.own_capacity() {
            return Err(NotWithinCapacityError);
        }
        Ok(ArenaInsertEntry { arena: self })
    }

    fn entry_insert_reallocating(
        &mut self,
    ) -> Result<ArenaInsertEntry<'_, P, T, S>, ReallocationError> {
        self.make_room()?;
        Ok(ArenaInsertEntry { arena: self })
    }

    fn entry_insert(&mut self) -> Result<ArenaInsertEntry<'_, P, T, S>, ReallocationError> {
        self.entry_insert_reallocating()
    }
}
