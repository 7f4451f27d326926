//! Calls on all links at once: compressions, copies, and arenas of links that become chains.
ghost use Rattle.std.specs.Prelude.{◌≡◌, ◌≤◌, ◌↔◌, ℕ, IsSome, IsOk, IfNone, OnOk, OnSome};
ghost use Rattle.std.specs.Prelude.{map as list_map};
ghost use Rattle.triple_arena_ptr.specs.Errors.{IsBeyondMaxCapacity, IsAllocError};
ghost use Rattle.triple_arena_ptr.specs.InvalidationOption.{overflowed};
ghost use Rattle.triple_arena_stack.specs.Room.{capacity as capacity_of, IsBeyond};
ghost use Rattle.triple_arena.specs.Compression.{renewal_wraps, value_of, IsMapped};
ghost use Rattle.triple_arena.specs.Content.{live_count, some_counter, reallocated, cleared};
ghost use Rattle.triple_arena.specs.Copy.{last_listed, copied, MayRefuse, NeverRefuses};
ghost use Rattle.triple_arena.specs.Copy.{IsMappedCopy, IsRefusedCopy, IsCopy, IsUnmadeCopy};
ghost use Rattle.triple_arena.specs.LiveEntries.{live_entries};
ghost use Rattle.triple_arena_chain.specs.CanonicalLayout.{IsCanonical};
ghost use Rattle.linked_lists.specs.LinkedLists.{IsAgreed};
ghost use Rattle.triple_arena_chain.specs.Links.{ends_in, values_in, IsChained};
ghost use Rattle.triple_arena_chain.specs.Listed.{listed_values};
ghost use Rattle.linked_lists.specs.Chains.{Chain, IsChainOf};
ghost use Rattle.triple_arena_chain.specs.Renaming.{IsCompacted};
ghost use Rattle.triple_arena_chain.specs.Values.{room_in};

use std::alloc::AllocError;
use triple_arena::{Arena, ArenaTrait, InvalidationOption, PtrCore, ReallocationError};
use triple_arena_chain::{ChainArena, ChainSlots, LinkCloneSource, LinkNoGen};

/// Moves the links to the first indexes, in their order, each with what `map` makes of its value.
pub fn compress_with<P: PtrCore, T: Drop, S: ChainSlots<P, T>, F: FnMut(P, T, P) -> T>(
    chains: &mut ChainArena<P, T, S>,
    reset: bool,
    map: F,
) -> InvalidationOption<()>
    requires { F.IsAlwaysCallable map }
    ensures mapped { IsMapped P.index P.generation F.step map (listed_values chains.old)
        (listed_values chains.new) }
    ensures overflow { overflowed result ≡ renewal_wraps P.Gen.last reset chains.old.counter }
    ensures exact { IsCompacted P.Gen.last reset
        (list_map value_of (listed_values chains.new)) chains.old chains.new }
    ensures formed { IsChained chains.new }
{
    let answer = chains.compress_with(reset, map);
    answer
}

/// Moves the links to the indexes from 1 on, so that each chain has successive ones.
pub fn compress_canonical<P: PtrCore, T: Drop, S: ChainSlots<P, T>>(
    chains: &mut ChainArena<P, T, S>,
    reset: bool,
) -> InvalidationOption<()>
    ensures overflow { overflowed result ≡ renewal_wraps P.Gen.last reset chains.old.counter }
    ensures canonical { IsCanonical P.Gen.last reset chains.old chains.new }
    ensures formed { IsChained chains.new }
{
    let answer = chains.compress_canonical(reset);
    answer
}

/// Makes the first arena a copy of the second, each value what `map` makes of the link there.
pub fn clone_from_with<P, T, S, A, F>(
    target: &mut ChainArena<P, T, S>,
    source: &A,
    map: F,
) -> Result<(), ReallocationError>
where
    P: PtrCore,
    T: Drop,
    S: ChainSlots<P, T>,
    A: LinkCloneSource<P>,
    F: FnMut(P, &A::Link) -> Result<T, AllocError>,
    requires { F.IsAlwaysCallable map }
    ensures mapped { OnOk result (IsMappedCopy P.index P.generation F.step map
        (A.Links.live_entries (A.links source.now)) (listed_values target.new)) }
    ensures linked { OnOk result ((k : ℕ) → ends_in target.new k ≡ A.ends source.now k) }
    ensures lists { OnOk result ((chain : Chain) → IsChainOf (A.ends source.now) chain
        → IsChainOf (ends_in target.new) chain) }
    ensures copied { OnOk result (IsCopy values_in live_count some_counter room_in
        (A.Links.entry_at (A.links source.now)) (A.Links.live_count (A.links source.now))
        (last_listed (A.Links.live_entries (A.links source.now)))
        (A.Links.counter (A.links source.now)) target.old target.new) }
    ensures exact { OnOk result (target.new
        ≡ copied target.old (A.Links.counter (A.links source.now)) (live_entries target.new)) }
    ensures succeeds { last_listed (A.Links.live_entries (A.links source.now))
        ≤ capacity_of (room_in target.old) → NeverRefuses F.step → IsOk result }
    ensures beyond { IsBeyondMaxCapacity result ↔ IsBeyond (room_in target.old).limit
        (last_listed (A.Links.live_entries (A.links source.now))) }
    ensures kept { IsBeyondMaxCapacity result → target.new ≡ target.old }
    ensures unmade { IsAllocError result
        → IsUnmadeCopy values_in live_count some_counter room_in S.takes_memory
        P.Gen.last (last_listed (A.Links.live_entries (A.links source.now)))
        (λ c. cleared P.Gen.last
        (reallocated c (last_listed (A.Links.live_entries (A.links source.now)))))
        (IsRefusedCopy P.index P.generation F.step map (A.Links.live_entries (A.links source.now)))
        target.old target.new }
    ensures formed { IsChained target.new }
{
    let copied = target.clone_from_with(source, map);
    copied
}

/// Makes the first arena a clone of the second.
pub fn clone_from<P: PtrCore, T: Clone, S: ChainSlots<P, T>>(
    target: &mut ChainArena<P, T, S>,
    source: &ChainArena<P, T, S>,
) -> Result<(), ReallocationError>
    requires { (x y : T) → T.is_clone x y → y ≡ x }
    ensures exact { OnOk result (target.new ≡ copied target.old (some_counter source.now)
        (live_entries source.now)) }
    ensures succeeds { last_listed (live_entries source.now) ≤ capacity_of (room_in target.old)
        → ((x : T) → T.is_infallible x) → IsOk result }
    ensures beyond { IsBeyondMaxCapacity result
        ↔ IsBeyond (room_in target.old).limit (last_listed (live_entries source.now)) }
    ensures kept { IsBeyondMaxCapacity result → target.new ≡ target.old }
    ensures unmade { IsAllocError result
        → IsUnmadeCopy values_in live_count some_counter room_in S.takes_memory P.Gen.last
        (last_listed (live_entries source.now))
        (λ c. cleared P.Gen.last (reallocated c (last_listed (live_entries source.now))))
        (MayRefuse T.is_infallible (listed_values source.now)) target.old target.new }
    ensures lists { OnOk result ((chain : Chain) → IsChainOf (ends_in source.now) chain
        → IsChainOf (ends_in target.new) chain) }
    ensures formed { IsChained target.new }
{
    let cloned = target.clone_from(source);
    cloned
}

/// Exchanges the links of the two, if the interlinks of the second agree.
pub fn exchange_arena<P: PtrCore, T: Drop, S: ChainSlots<P, T>>(
    chains: &mut ChainArena<P, T, S>,
    arena: &mut Arena<P, LinkNoGen<P, T>, S>,
) -> Option<()>
    ensures variant { IsSome result ↔ IsAgreed (ends_in arena.old) }
    ensures some { OnSome result ((chains.new ≡ arena.old) × (arena.new ≡ chains.old)) }
    ensures none { IfNone result ((chains.new ≡ chains.old) × (arena.new ≡ arena.old)) }
{
    let taken = chains.exchange_arena(arena);
    taken
}
