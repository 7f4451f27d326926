//! Copies to a chain arena, where the map sees the items alone.
ghost use Rattle.std.specs.Prelude.{◌≡◌, ◌<◌, ◌≤◌, ◌↔◌, ◌⊎◌, ℕ, List, IsTrue, IsOk, OnOk};
ghost use Rattle.std.specs.Prelude.{⊤};
ghost use Rattle.std.specs.Borrow.{Bor};
ghost use Rattle.std.specs.Option.{option_map};
ghost use Rattle.triple_arena_ptr.specs.Errors.{IsBeyondMaxCapacity, IsAllocError};
ghost use Rattle.triple_arena_ptr.specs.Generation.{next_generation};
ghost use Rattle.triple_arena_stack.specs.Room.{capacity as capacity_of, IsBeyond};
ghost use Rattle.triple_arena.specs.ArenaRoom.{room_with};
ghost use Rattle.triple_arena.specs.Changes.{IsNew};
ghost use Rattle.triple_arena.specs.Content.{live_count, some_counter, cleared, reallocated};
ghost use Rattle.triple_arena.specs.Copy.{last_listed, NeverRefuses, IsMappedCopy, IsRefusedCopy};
ghost use Rattle.triple_arena_chain.specs.Links.{values_in, IsChained};
ghost use Rattle.triple_arena_chain.specs.Listed.{listed_values};
ghost use Rattle.triple_arena_chain.specs.Values.{room_in};
ghost use Rattle.triple_arena_ord.specs.Copies.{listed_items, IsChainCopy};

use crate::IndexNode;
use triple_arena::{AllocError, PtrCore, ReallocationError};
use triple_arena_chain::{ChainArena, ChainSlots, IndexLink, LinkCloneSource};

// What becomes a copy of a source of the type `A`. It stands between the chain arena's call and
// `copy_items`, so that the closure there is in a function that knows nothing of pointers and
// arenas: the check of its call grows with what is known.
pub(crate) trait CopiesLinks<P: PtrCore, L: Drop, U: Drop, A> {
    ghost links: { A → List (ℕ × (ℕ × L)) };

    ghost values: { Self → List (ℕ × (ℕ × U)) };

    // What a copy is beside its values.
    ghost is_copied: { A → Self → Self → Type 0 };

    ghost fits: { A → Self → Type 0 };

    ghost is_beyond: { A → Self → Type 0 };

    // What is left if the memory, or the map, refused.
    ghost is_left: { A → Self → Self → Type 0 };

    ghost is_emptied: { A → Self → Self → Type 0 };

    ghost is_formed: { Self → Type 0 };

    fn copy_from<G>(&mut self, source: &A, map: G) -> Result<(), ReallocationError>
    where
        G: FnMut(P, &L) -> Result<U, AllocError>,
        requires callable { G.IsAlwaysCallable map }
        requires no_more { ⊤ }
        ensures mapped { OnOk result (IsMappedCopy P.index P.generation G.step map
            (links source.now) (values self.new)) }
        ensures copied { OnOk result (is_copied source.now self.old self.new) }
        ensures succeeds { fits source.now self.old → NeverRefuses G.step → IsOk result }
        ensures beyond { IsBeyondMaxCapacity result ↔ is_beyond source.now self.old }
        ensures kept { IsBeyondMaxCapacity result → self.new ≡ self.old }
        ensures unmade { IsAllocError result → is_left source.now self.old self.new
            ⊎ (IsRefusedCopy P.index P.generation G.step map (links source.now)
            × is_emptied source.now self.old self.new) }
        ensures formed { is_formed self.new };
}

impl<P, U, A, S> CopiesLinks<P, A::Link, U, A> for ChainArena<P, U, S>
where
    P: PtrCore,
    U: Drop,
    A: LinkCloneSource<P>,
    S: ChainSlots<P, U>,
{
    ghost links = { λ a. A.Links.live_entries (A.links a) };

    ghost values = { listed_values };

    ghost is_copied = { λ a old new. IsChainCopy (A.Links.entry_at (A.links a))
        (A.Links.live_count (A.links a)) (last_listed (A.Links.live_entries (A.links a)))
        (A.Links.counter (A.links a)) (A.ends a) old new };

    ghost fits = { λ a b. last_listed (A.Links.live_entries (A.links a))
        ≤ capacity_of (room_in b) };

    ghost is_beyond = { λ a b. IsBeyond (room_in b).limit
        (last_listed (A.Links.live_entries (A.links a))) };

    ghost is_left = { λ a old new. IsTrue S.takes_memory
        × (capacity_of (room_in old) < last_listed (A.Links.live_entries (A.links a)))
        × (new ≡ old) };

    ghost is_emptied = { λ a old new. IsNew values_in live_count some_counter room_in
        (option_map (next_generation P.Gen.last) (some_counter old))
        (room_with (last_listed (A.Links.live_entries (A.links a))) (room_in old)) new
        × (new ≡ cleared P.Gen.last
        (reallocated old (last_listed (A.Links.live_entries (A.links a))))) };

    ghost is_formed = { λ b. IsChained b };

    fn copy_from<G>(&mut self, source: &A, map: G) -> Result<(), ReallocationError>
    where
        G: FnMut(P, &A::Link) -> Result<U, AllocError>,
    {
        self.clone_from_with(source, map)
    }
}

// A link whose node has an item.
pub(crate) trait ShowsItem<T> {
    ghost item: { Self → T };

    fn item(&self) -> &T
        ensures { result.now ≡ item self.now };
}

impl<O, T> ShowsItem<T> for IndexLink<O, IndexNode<O, T>> {
    ghost item = { λ link. link.t.t };

    fn item(&self) -> &T {
        &self.t.t
    }
}

// Makes `target` a copy of `source`, with what `map` makes of the item of each node as the value.
pub(crate) fn copy_items<P, L, T, U, A, B, F>(
    target: &mut B,
    source: &A,
    mut map: F,
) -> Result<(), ReallocationError>
where
    P: PtrCore,
    L: ShowsItem<T> + Drop,
    T: Drop,
    U: Drop,
    B: CopiesLinks<P, L, U, A>,
    F: FnMut(P, &T) -> Result<U, AllocError>,
    requires { F.IsAlwaysCallable map }
    ensures mapped { OnOk result (IsMappedCopy P.index P.generation F.step map
        (listed_items L.item (B.links source.now)) (B.values target.new)) }
    ensures copied { OnOk result (B.is_copied source.now target.old target.new) }
    ensures succeeds { B.fits source.now target.old → NeverRefuses F.step → IsOk result }
    ensures beyond { IsBeyondMaxCapacity result ↔ B.is_beyond source.now target.old }
    ensures kept { IsBeyondMaxCapacity result → target.new ≡ target.old }
    ensures unmade { IsAllocError result → B.is_left source.now target.old target.new
        ⊎ (IsRefusedCopy P.index P.generation F.step map (listed_items L.item (B.links source.now))
        × B.is_emptied source.now target.old target.new) }
    ensures formed { B.is_formed target.new }
{
    target.copy_from(
        source,
        move |p, link| -> Result<U, AllocError>
            requires { F.IsAlwaysCallable map }
            ensures step { (item : Bor T) × (item.now ≡ L.item link.now)
                × F.step map.entry p item result map.exit }
            ensures again { F.IsAlwaysCallable map.exit }
        { map(p, link.item()) },
    )
}
