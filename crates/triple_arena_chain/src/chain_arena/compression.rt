//! Compression: the links go to the first indexes, and the interlinks follow.
ghost use Rattle.std.specs.Prelude.{◌≡◌, ℕ, Some, None, IsSome, map as list_map};
ghost use Rattle.std.specs.Option.{option_map};
ghost use Rattle.triple_arena_ptr.specs.InvalidationOption.{overflowed};
ghost use Rattle.triple_arena.specs.Changes.{IsCompressed};
ghost use Rattle.triple_arena.specs.Compression.{renewal_wraps, value_of, IsMapped};
ghost use Rattle.triple_arena.specs.Content.{entry_at, live_count, some_counter, IsWellFormed};
ghost use Rattle.linked_lists.specs.LinkedLists.{next_at, prev_at, IsAgreed};
ghost use Rattle.triple_arena_chain.specs.Links.{ends_in, values_in, IsKept, IsChained, IsRelinked};
ghost use Rattle.triple_arena_chain.specs.Listed.{listed_values};
ghost use Rattle.triple_arena_chain.specs.Renaming.{numbered, prev_of, forwarded, IsCompacted};
ghost use Rattle.triple_arena_chain.specs.Values.{room_in};

use crate::chain_arena::interlinks::{read_next, read_prev, set_next, set_prev};
use crate::chain_arena::mapping::{compact_links, renew_links};
use crate::{ChainSlots, LinkNoGen};
use proof_marks::recall;
use std::num::NonZeroUsize;
use triple_arena::{Advancer, Arena, ArenaTrait, InvalidationOption, PtrCore, PtrInxCore};

// Gives each link, as its previous index, the one that it gets if the links go to the first
// indexes.
fn number_links<P, T, S>(arena: &mut Arena<P, LinkNoGen<P, T>, S>)
where
    P: PtrCore,
    T: Drop,
    S: ChainSlots<P, T>,
    requires { IsWellFormed arena.old }
    ensures numbered { IsRelinked (numbered (ends_in arena.old)) arena.old arena.new }
    ensures formed { IsWellFormed arena.new }
{
    // Each live index is one of the pointers'.
    recall!(arena.capacity());
    let mut count = 0;
    let mut advancer = arena.advancer();
    while let Some(p) = advancer.advance(arena) {
        let number = NonZeroUsize::MIN.saturating_add(count);
        set_prev(arena, Some(p.inx()), P::Inx::try_from_usize(number));
        count += 1;
    }
}

// What the link that the one at `i` names as its next has as its previous index.
fn name_of_next<P, T, S>(arena: &Arena<P, LinkNoGen<P, T>, S>, i: P::Inx) -> Option<P::Inx>
where
    P: PtrCore,
    T: Drop,
    S: ChainSlots<P, T>,
    requires live { IsSome (entry_at arena.now (P.Inx.number i)) }
    requires next { (q : ℕ) → next_at (ends_in arena.now) (P.Inx.number i) ≡ Some q
        → IsSome (entry_at arena.now q) }
    ensures { option_map P.Inx.number result ≡ prev_of (ends_in arena.now)
        (next_at (ends_in arena.now) (P.Inx.number i)) }
{
    match read_next(arena, i) {
        Some(next) => read_prev(arena, next),
        None => None,
    }
}

// Gives each link, as its next, what the link that it names has as its previous index.
fn forward_nexts<P, T, S>(arena: &mut Arena<P, LinkNoGen<P, T>, S>)
where
    P: PtrCore,
    T: Drop,
    S: ChainSlots<P, T>,
    requires formed { IsWellFormed arena.old }
    requires live { (p q : ℕ) → next_at (ends_in arena.old) p ≡ Some q
        → IsSome (ends_in arena.old q) }
    ensures forwarded { IsRelinked (forwarded (ends_in arena.old)) arena.old arena.new }
    ensures formed { IsWellFormed arena.new }
{
    let mut advancer = arena.advancer();
    while let Some(p) = advancer.advance(arena) {
        let i = p.inx();
        let renamed = name_of_next(arena, i);
        set_next(arena, Some(i), renamed);
    }
}

// Gives each link that is a next, as its previous index, that of the link whose next it is. No link
// has a previous one.
fn join_nexts<P, T, S>(arena: &mut Arena<P, LinkNoGen<P, T>, S>)
where
    P: PtrCore,
    T: Drop,
    S: ChainSlots<P, T>,
    requires formed { IsWellFormed arena.old }
    requires alone { (k : ℕ) → prev_at (ends_in arena.old) k ≡ None }
    requires live { (p q : ℕ) → next_at (ends_in arena.old) p ≡ Some q
        → IsSome (ends_in arena.old q) }
    requires apart { (p q r : ℕ) → next_at (ends_in arena.old) p ≡ Some r
        → next_at (ends_in arena.old) q ≡ Some r → p ≡ q }
    ensures nexts { (k : ℕ) → next_at (ends_in arena.new) k ≡ next_at (ends_in arena.old) k }
    ensures agreed { IsAgreed (ends_in arena.new) }
    ensures values { (k : ℕ) → values_in arena.new k ≡ values_in arena.old k }
    ensures kept { IsKept arena.old arena.new }
    ensures formed { IsWellFormed arena.new }
{
    let mut advancer = arena.advancer();
    while let Some(p) = advancer.advance(arena) {
        let i = p.inx();
        let next = read_next(arena, i);
        set_prev(arena, next, Some(i));
    }
}

// Moves the links to the first indexes, in their order, each with what `map` makes of its value and
// with the generation renewed, and the interlinks follow them.
pub(crate) fn compress_links<P, T, S, F>(
    arena: &mut Arena<P, LinkNoGen<P, T>, S>,
    reset: bool,
    map: F,
) -> InvalidationOption<()>
where
    P: PtrCore,
    T: Drop,
    S: ChainSlots<P, T>,
    F: FnMut(P, T, P) -> T,
    requires callable { F.IsAlwaysCallable map }
    requires chained { IsChained arena.old }
    ensures mapped { IsMapped P.index P.generation F.step map (listed_values arena.old)
        (listed_values arena.new) }
    ensures overflow { overflowed result ≡ renewal_wraps P.Gen.last reset arena.old.counter }
    ensures compressed { IsCompressed values_in live_count some_counter room_in P.Gen.last
        listed_values reset arena.old arena.new }
    ensures exact { IsCompacted P.Gen.last reset
        (list_map value_of (listed_values arena.new)) arena.old arena.new }
    ensures formed { IsChained arena.new }
{
    // If no index is free, each link stays.
    if arena.freelist_root().is_none() {
        return renew_links(arena, reset, map);
    }
    number_links(arena);
    forward_nexts(arena);
    let answer = compact_links(arena, reset, map);
    join_nexts(arena);
    answer
}
