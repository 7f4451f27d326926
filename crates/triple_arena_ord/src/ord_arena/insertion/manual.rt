//! Insertions that look at no key.
ghost use Rattle.std.specs.Prelude.{◌≡◌, ◌<◌, ℕ, Some, None, IsSome};
ghost use Rattle.triple_arena.specs.Content.{arena_capacity};
ghost use Rattle.triple_arena_ord.specs.Inserted.{AddsAt, InsertsAt, Replaces, under};
ghost use Rattle.triple_arena_ord.specs.Ordered.{entry_in, size_in};
ghost use Rattle.triple_arena_ord.specs.Found.{place_by, IsLivePlace};

use crate::{OrdSlots, SimpleOrdArena};
use proof_marks::recall;
use std::cmp::Ordering;
use triple_arena::{ArenaTrait, PtrCore};
use triple_arena_ptr::OrdInsertionError;

impl<P: PtrCore, T: Drop, S: OrdSlots<P, T>> SimpleOrdArena<P, T, S> {
    /// Puts an item in at an entry that is live, whatever the keys are: `Equal` replaces the item
    /// there, and returns it, `Less` puts a new entry directly before it, `Greater` directly after
    /// it. If there is no room for a new entry, the arena grows, as in `insert_reallocating`;
    /// `BeyondMaxCapacity` and `AllocError` change nothing, and `t` is dropped.
    pub fn insert_inx_manual(
        &mut self,
        p: P::Inx,
        direction: Ordering,
        t: T,
    ) -> Result<Option<T>, OrdInsertionError>
        requires { IsSome (entry_in self.old (P.Inx.number p)) }
        ensures { (q : ℕ × ℕ)
            × InsertsAt (λ (q : ℕ × ℕ). q.0) (λ (q : ℕ × ℕ). q.1)
            (Some S.takes_memory) (Some (P.Inx.number p, direction)) t (under q result)
            self.old self.new }
    {
        let place = self.settle(Some((p, direction)));
        match self.insert_at_reallocating(place, t) {
            Ok((_, replaced)) => Ok(replaced),
            Err(error) => Err(error),
        }
    }

    /// Puts an item in at a known place, for which there is room, and returns its pointer: as the
    /// only one, by `None`, if there is no entry; else directly before an entry that is live, by
    /// `Less`, or directly after it, by `Greater`. No key is compared.
    pub fn insert_inx_manual_within_capacity(
        &mut self,
        place: Option<(P::Inx, Ordering)>,
        t: T,
    ) -> P
        requires live { IsLivePlace P.Inx.number self.old place }
        requires empty { place ≡ None → size_in self.old ≡ 0 }
        requires new { Replaces (place_by P.Inx.number place) → ⊥ }
        requires room { size_in self.old < arena_capacity self.old.chains }
        ensures { AddsAt (place_by P.Inx.number place) (P.index result) (P.generation result) t
            self.old self.new }
    {
        // The list is as it must be.
        recall!(self.len());
        let place = self.settle(place);
        self.put_at(place, t)
    }
}
