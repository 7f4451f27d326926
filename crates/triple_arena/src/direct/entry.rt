//! A place for an entry at a pointer of the caller's choice.
ghost use Rattle.triple_arena.specs.Changes.{IsDirectlyInserted};
ghost use Rattle.std.specs.Prelude.{◌≡◌, refl};
ghost use Rattle.triple_arena.specs.DirectEntry.{entry_arena, entry_index, entry_generation};
ghost use Rattle.triple_arena.specs.DirectContent.{entry_at, live_count, no_counter, inserted};
ghost use Rattle.triple_arena.specs.DirectContent.{IsPlace, IsWellFormed};

use crate::direct::DirectArena;
use crate::{ArenaDirectInsertEntryTrait, ArenaDirectInsertTrait, DirectSlots};
use std::num::NonZeroUsize;
use triple_arena_ptr::{DirectInsertionError, PtrCore};

/// A place for an entry at a pointer of the caller's choice in a `DirectArena`. Dropped unused, it
/// leaves the arena as it is.
#[derive(Drop)]
pub struct ArenaDirectInsertEntry<'a, P: PtrCore, T: Drop, S: DirectSlots<P, T>> {
    arena: &'a mut DirectArena<P, T, S>,
    index: NonZeroUsize,
    generation: P::Gen,
}

impl<'a, P: PtrCore, T: Drop, S: DirectSlots<P, T>> ArenaDirectInsertEntryTrait<P, T>
    for ArenaDirectInsertEntry<'a, P, T, S> {
    ghost has_place = { λ e. IsPlace (entry_arena e) (entry_index e) };

    fn insert(self, t: T)
        requires { IsPlace (entry_arena self) (entry_index self) }

        // `self.exit.0.now` is the arena as it is left.
        ensures inserted { IsDirectlyInserted entry_at live_count no_counter (λ d. d.room)
            (entry_index self.entry) (entry_generation P.Gen.number self.entry) t
            (entry_arena self.entry) self.exit.0.now }
        ensures exact { self.exit.0.now ≡ inserted (entry_arena self.entry)
            (entry_index self.entry) (entry_generation P.Gen.number self.entry) t }
        ensures formed { IsWellFormed self.exit.0.now }
    {
        let ArenaDirectInsertEntry {
            arena,
            index,
            generation,
        } = self;
        arena.insert_at(index, generation, t);
    }
}

impl<P: PtrCore, T: Drop, S: DirectSlots<P, T>> ArenaDirectInsertTrait<P, T>
    for DirectArena<P, T, S> {
    type Stack = S;

    ghost content = { λ d. d };

    fn direct_insert_within_capacity(
        &mut self,
        p: P,
    ) -> Result<ArenaDirectInsertEntry<'_, P, T, S>, DirectInsertionError> {
        let index = self.place(p)?;
        Ok(ArenaDirectInsertEntry {
            arena: self,
            index,
            generation: p.generation(),
        })
    }

    ghost content_entries = { λ d i. refl };

    ghost content_room = { λ d. refl };
}
