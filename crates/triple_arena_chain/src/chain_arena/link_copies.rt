//! Copies of links, where the map sees the links of the source and gives the values alone.
ghost use Rattle.std.specs.Prelude.{◌≡◌, ◌≤◌, ◌↔◌, ◌⊎◌, ◌<◌, ℕ, Ok, Err, List, IsTrue, IsOk, IfOk};
ghost use Rattle.std.specs.Prelude.{IfErr, OnOk, map as list_map, ⊤};
ghost use Rattle.std.specs.Option.{option_map};
ghost use Rattle.triple_arena_ptr.specs.Errors.{IsBeyondMaxCapacity, IsAllocError};
ghost use Rattle.triple_arena_ptr.specs.Generation.{next_generation};
ghost use Rattle.triple_arena_stack.specs.Room.{IsBeyond};
ghost use Rattle.triple_arena.specs.ArenaRoom.{room_with};
ghost use Rattle.triple_arena.specs.Changes.{IsNew};
ghost use Rattle.triple_arena.specs.Content.{entry_at, live_count, some_counter, arena_capacity};
ghost use Rattle.triple_arena.specs.Content.{cleared, reallocated, IsWellFormed};
ghost use Rattle.triple_arena.specs.LiveEntries.{live_entries};
ghost use Rattle.triple_arena.specs.Copy.{last_listed, copied as copied_of, NeverRefuses};
ghost use Rattle.triple_arena.specs.Copy.{IsMappedCopy, IsRefusedCopy};
ghost use Rattle.triple_arena_chain.specs.LinkCopies.{IsCopyMade, IsLinkedCopy};
ghost use Rattle.triple_arena_chain.specs.Links.{prev_next_of};
ghost use Rattle.triple_arena_chain.specs.Listed.{listed_value};

use crate::{IndexLink, Neighbors};
use triple_arena::{
    AllocError, Arena, ArenaCloneFromWith, ArenaCloneSource, ArenaSlots, PtrCore, PtrInxCore,
    ReallocationError,
};
use triple_arena_ptr::OptionalInx;

// What becomes a copy of a source of the type `A`. It stands between the base's trait and
// `copy_links`, so that the closure there is in a function that knows nothing of pointers and
// arenas: the check of its call grows with what is known. `copy_from` has a clause that asks no
// more, as the answer to a lone one would cost far more to state.
pub(crate) trait CopiesFrom<P: Copy, L: Drop, M: Drop, A> {
    ghost index: { P → ℕ };

    ghost generation: { P → ℕ };

    ghost source_entries: { A → List (ℕ × (ℕ × L)) };

    ghost entries: { Self → List (ℕ × (ℕ × M)) };

    // What a copy is beside its entries.
    ghost is_copied: { A → Self → Self → Type 0 };

    ghost fits: { A → Self → Type 0 };

    ghost is_beyond: { A → Self → Type 0 };

    // What is left if the memory, or the map, refused.
    ghost is_left: { A → Self → Self → Type 0 };

    ghost is_emptied: { A → Self → Self → Type 0 };

    ghost is_formed: { Self → Type 0 };

    fn copy_from<G>(&mut self, source: &A, map: G) -> Result<(), ReallocationError>
    where
        G: FnMut(P, &L) -> Result<M, AllocError>,
        requires callable { G.IsAlwaysCallable map }
        requires no_more { ⊤ }
        ensures mapped { OnOk result (IsMappedCopy index generation G.step map
            (source_entries source.now) (entries self.new)) }
        ensures copied { OnOk result (is_copied source.now self.old self.new) }
        ensures succeeds { fits source.now self.old → NeverRefuses G.step → IsOk result }
        ensures beyond { IsBeyondMaxCapacity result ↔ is_beyond source.now self.old }
        ensures kept { IsBeyondMaxCapacity result → self.new ≡ self.old }
        ensures unmade { IsAllocError result → is_left source.now self.old self.new
            ⊎ (IsRefusedCopy index generation G.step map (source_entries source.now)
            × is_emptied source.now self.old self.new) }
        ensures formed { is_formed self.new };
}

impl<P, L, M, A, S> CopiesFrom<P, L, M, A> for Arena<P, M, S>
where
    P: PtrCore,
    L: Drop,
    M: Drop,
    A: ArenaCloneSource<P, L>,
    S: ArenaSlots<P, M>,
{
    ghost index = { P.index };

    ghost generation = { P.generation };

    ghost source_entries = { A.live_entries };

    ghost entries = { live_entries };

    ghost is_copied = { λ a old new. IsCopyMade entry_at live_count some_counter
        (λ c. c.room) copied_of
        live_entries (A.entry_at a) (A.live_count a) (last_listed (A.live_entries a)) (A.counter a)
        old new };

    ghost fits = { λ a b. last_listed (A.live_entries a) ≤ arena_capacity b };

    ghost is_beyond = { λ a b. IsBeyond b.room.limit (last_listed (A.live_entries a)) };

    ghost is_left = { λ a old new. IsTrue S.takes_memory
        × (arena_capacity old < last_listed (A.live_entries a)) × (new ≡ old) };

    ghost is_emptied = { λ a old new. IsNew entry_at live_count some_counter (λ c. c.room)
        (option_map (next_generation P.Gen.last) (some_counter old))
        (room_with (last_listed (A.live_entries a)) old.room) new
        × (new ≡ cleared P.Gen.last (reallocated old (last_listed (A.live_entries a)))) };

    ghost is_formed = { IsWellFormed };

    fn copy_from<G>(&mut self, source: &A, map: G) -> Result<(), ReallocationError>
    where
        G: FnMut(P, &L) -> Result<M, AllocError>,
    {
        self.clone_from_with(source, map)
    }
}

// Makes `target` a copy of `source`, with the interlinks of its links, and with what `map` makes of
// each link as the value.
pub(crate) fn copy_links<P, I, W, L, T, A, B, F>(
    target: &mut B,
    source: &A,
    mut map: F,
) -> Result<(), ReallocationError>
where
    P: Copy,
    I: PtrInxCore<Word = W>,
    W: Copy,
    L: Neighbors<I> + Drop,
    T: Drop,
    B: CopiesFrom<P, L, IndexLink<OptionalInx<I, W>, T>, A>,
    F: FnMut(P, &L) -> Result<T, AllocError>,
    requires callable { F.IsAlwaysCallable map }
    requires no_more { ⊤ }
    ensures mapped { OnOk result (IsMappedCopy B.index B.generation F.step map
        (B.source_entries source.now) (list_map listed_value (B.entries target.new))) }
    ensures linked { OnOk result (IsLinkedCopy L.neighbors (B.source_entries source.now)
        (B.entries target.new)) }
    ensures copied { OnOk result (B.is_copied source.now target.old target.new) }
    ensures succeeds { B.fits source.now target.old → NeverRefuses F.step → IsOk result }
    ensures beyond { IsBeyondMaxCapacity result ↔ B.is_beyond source.now target.old }
    ensures kept { IsBeyondMaxCapacity result → target.new ≡ target.old }
    ensures unmade { IsAllocError result → B.is_left source.now target.old target.new
        ⊎ (IsRefusedCopy B.index B.generation F.step map (B.source_entries source.now)
        × B.is_emptied source.now target.old target.new) }
    ensures formed { B.is_formed target.new }
{
    target.copy_from(
        source,
        move |p, link| -> Result<IndexLink<OptionalInx<I, W>, T>, AllocError>
            requires { F.IsAlwaysCallable map }
            ensures given { IfOk result
                (λ made. F.step map.entry p link.entry (Ok made.t) map.exit) }
            ensures linked { IfOk result (λ made. prev_next_of made ≡ L.neighbors link.now) }
            ensures refused { IfErr result
                (λ error. F.step map.entry p link.entry (Err error) map.exit) }
            ensures again { F.IsAlwaysCallable map.exit }
        {
            match map(p, link) {
                Ok(t) => Ok(IndexLink::new(link.neighbors(), t)),
                Err(refused) => Err(refused),
            }
        },
    )
}
