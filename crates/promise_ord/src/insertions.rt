//! Insertions: where each puts its item, what it refuses, and that the tree keeps its rules and has
//! the list as its walk.
ghost use Rattle.std.specs.Prelude.{◌≡◌, ◌<◌, ℕ, Some, None, IsSome, IfOk};
ghost use Rattle.std.specs.Borrow.{sem, RestsIfErr};
ghost use Rattle.triple_arena.specs.Content.{arena_capacity};
ghost use Rattle.triple_arena_ord.specs.Inserted.{AddsAt, InsertsAt, InsertsByKey, GetsOrInserts};
ghost use Rattle.triple_arena_ord.specs.Inserted.{Replaces, under, within_room};
ghost use Rattle.triple_arena_ord.specs.InsertEntry.{entry_arena, entry_lender, IsAnswerTo};
ghost use Rattle.triple_arena_ord.specs.InsertEntry.{IsReady};
ghost use Rattle.triple_arena_ord.specs.Ordered.{entry_in, size_in};
ghost use Rattle.triple_arena_ord.specs.contracts.ord_arena.SimpleOrdArena.{the_row};
ghost use Rattle.triple_arena_ord.specs.Found.{place_by, IsLivePlace};

use std::cmp::Ordering;
use triple_arena::PtrCore;
use triple_arena_ord::{
    OrdInsertKind, OrdInsertionError, OrdSlots, SimpleOrdArena, SimpleOrdArenaInsertEntry,
    SimpleOrdItem,
};

/// Puts an item in where its key belongs, in the place of one with an equal key, which needs no
/// room.
pub fn insert_within_capacity<P: PtrCore, T: SimpleOrdItem + Drop, S: OrdSlots<P, T>>(
    arena: &mut SimpleOrdArena<P, T, S>,
    t: T,
) -> Result<(P, Option<T>), OrdInsertionError>
    ensures { InsertsByKey T.Key.cmp T.key_of P.index P.generation None
        t result arena.old arena.new }
{
    let inserted = arena.insert_within_capacity(t);
    inserted
}

/// The entry with an equal key, which stays as it is; or else an item in where its key belongs.
pub fn get_or_insert<P: PtrCore, T: SimpleOrdItem + Drop, S: OrdSlots<P, T>>(
    arena: &mut SimpleOrdArena<P, T, S>,
    t: T,
) -> Result<(P, Option<T>), OrdInsertionError>
    ensures { GetsOrInserts T.Key.cmp T.key_of P.index P.generation
        (Some S.takes_memory) t result arena.old arena.new }
{
    let got = arena.get_or_insert(t);
    got
}

/// Puts an item in at an entry that is live: in its place, or directly before or after it.
pub fn insert_inx_manual<P: PtrCore, T: Drop, S: OrdSlots<P, T>>(
    arena: &mut SimpleOrdArena<P, T, S>,
    p: P::Inx,
    direction: Ordering,
    t: T,
) -> Result<Option<T>, OrdInsertionError>
    requires { IsSome (entry_in arena.old (P.Inx.number p)) }
    ensures { (q : ℕ × ℕ)
        × InsertsAt (λ (q : ℕ × ℕ). q.0) (λ (q : ℕ × ℕ). q.1)
        (Some S.takes_memory) (Some (P.Inx.number p, direction)) t (under q result)
        arena.old arena.new }
{
    let inserted = arena.insert_inx_manual(p, direction, t);
    inserted
}

/// Puts an item in at a known place, for which there is room: as the only one, or directly before
/// or after a live entry.
pub fn insert_inx_manual_within_capacity<P: PtrCore, T: Drop, S: OrdSlots<P, T>>(
    arena: &mut SimpleOrdArena<P, T, S>,
    place: Option<(P::Inx, Ordering)>,
    t: T,
) -> P
    requires live { IsLivePlace P.Inx.number arena.old place }
    requires empty { place ≡ None → size_in arena.old ≡ 0 }
    requires new { Replaces (place_by P.Inx.number place) → ⊥ }
    requires room { size_in arena.old < arena_capacity arena.old.chains }
    ensures { AddsAt (place_by P.Inx.number place) (P.index result) (P.generation result) t
        arena.old arena.new }
{
    let p = arena.insert_inx_manual_within_capacity(place, t);
    p
}

/// Room for one item more, where the kind says.
pub fn entry_insert_within_capacity<'a, P: PtrCore, T: SimpleOrdItem + Drop, S: OrdSlots<P, T>>(
    arena: &'a mut SimpleOrdArena<P, T, S>,
    kind: OrdInsertKind<P, &T::Key>,
) -> Result<SimpleOrdArenaInsertEntry<'a, P, T, S>, OrdInsertionError>
    ensures answer { IsAnswerTo P.Inx.number T.Key.cmp T.key_of kind.entry arena.old
        (within_room (size_in arena.old) arena.old.chains.room) result }
    ensures ready { IfOk result (λ e. IsReady P.Inx.number P.index P.generation e) }
    ensures same_reference { IfOk result (λ e. entry_lender e ≡ arena.entry.ghost_name) }
    ensures arena { IfOk result (λ e. entry_arena e ≡ arena.old) }
    ensures* err { sem 𝓛 (RestsIfErr
        (the_row P.row T.row S.row P.Inx.row P.Gen.row P.Inx.Word.row S.Alloc.row
        P.PtrCore P.Inx.PtrInxCore.own P.Inx.PartialEq P.Gen.PtrGenCore.own P.Gen.PartialEq
        S.NonZeroInxGenericStack) arena.entry entry_lender result (λ a. a ≡ arena.old)) }
{
    arena.entry_insert_within_capacity(kind)
}
