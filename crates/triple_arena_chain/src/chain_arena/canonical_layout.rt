//! The canonical layout: the links of each chain at successive indexes.
ghost use Rattle.std.specs.Prelude.{◌≡◌, ◌↔◌, IsTrue, ◌+◌, ◌<◌, ◌≤◌, ℕ, Some, None, IsSome, IfSome};
ghost use Rattle.std.specs.Prelude.{[], length, ⊤};
ghost use Rattle.std.specs.Option.{option_map};
ghost use Rattle.triple_arena_ptr.specs.Index.{max_index_of};
ghost use Rattle.triple_arena_ptr.specs.InvalidationOption.{overflowed};
ghost use Rattle.triple_arena.specs.Compression.{renewal_wraps};
ghost use Rattle.triple_arena.specs.Content.{entry_at, IsWellFormed};
ghost use Rattle.linked_lists.specs.LinkedLists.{next_at, On, IsAgreed};
ghost use Rattle.triple_arena_chain.specs.Links.{ends_in, values_in, IsKept, IsChained};
ghost use Rattle.linked_lists.specs.Chains.{Chain, members, IsChainOf};
ghost use Rattle.triple_arena_chain.specs.CanonicalLayout.{IsAlike, IsHead, IsAllGathered};
ghost use Rattle.triple_arena_chain.specs.CanonicalLayout.{IsCanonical};
ghost use Rattle.triple_arena_chain.specs.Notes.{up_to, before_past, IsLed, IsLedOn, IsBrought};
ghost use Rattle.triple_arena_chain.specs.Notes.{IsGathering, IsRejoinable, StartsAt, GathersUpTo};

use crate::chain_arena::interlinks::{read_next, read_prev, set_next, set_prev};
use crate::{ChainArena, ChainSlots, LinkNoGen};
use proof_marks::{recall, unreached};
use std::num::NonZeroUsize;
use triple_arena::{
    Arena, ArenaTrait, DisjointableArenaTrait, InvalidationOption, PtrCore, PtrInxCore,
};

// Whether two indexes are one.
pub(crate) fn is_one<I: PtrInxCore>(i: I, j: I) -> bool
    ensures { IsTrue result ↔ (I.number i ≡ I.number j) }
{
    i == j
}

// The index behind so many others.
pub(crate) fn behind<I: PtrInxCore>(count: usize) -> I
    requires fits { count + 1 ≤ max_index_of I.greatest }
    requires no_more { ⊤ }
    ensures { I.number result ≡ count + 1 }
{
    match I::try_from_usize(NonZeroUsize::MIN.saturating_add(count)) {
        Some(i) => i,
        None => unreached!(),
    }
}

// The first index of the chain of a live index, which is that index itself if the chain is a ring.
pub(crate) fn chain_start<P, T, S>(arena: &Arena<P, LinkNoGen<P, T>, S>, k: P::Inx) -> P::Inx
where
    P: PtrCore,
    T: Drop,
    S: ChainSlots<P, T>,
    requires chained { IsChained arena.now }
    requires live { IsSome (ends_in arena.now (P.Inx.number k)) }
    ensures live { IsSome (ends_in arena.now (P.Inx.number result)) }
    ensures head { IsHead (ends_in arena.now) (P.Inx.number result) }
    ensures own { IsHead (ends_in arena.now) (P.Inx.number k)
        → P.Inx.number result ≡ P.Inx.number k }
    ensures same { (c : Chain) → IsChainOf (ends_in arena.now) c
        → On (members c) (P.Inx.number k)
        → On (members c) (P.Inx.number result) }
{
    let mut at = k;
    // No more links are passed than indexes fit.
    'back: for _ in 0..arena.capacity() {
        match read_prev(arena, at) {
            Some(prev) => {
                if is_one(prev, k) {
                    return k;
                }
                at = prev;
            }
            None => return at,
        }
    }
    unreachable!()
}

// Whether an index is one of those up to `count`.
fn is_within<I: PtrInxCore>(i: I, count: usize) -> bool
    ensures { IsTrue result ↔ (I.number i ≤ count) }
{
    match i.try_into_usize() {
        Some(i) => i.get() <= count,
        None => false,
    }
}

// Whether there is an index, and it is this one.
pub(crate) fn is_same<I: PtrInxCore>(i: Option<I>, j: I) -> bool
    ensures { IsTrue result ↔ (option_map I.number i ≡ Some (I.number j)) }
{
    match i {
        Some(i) => is_one(i, j),
        None => false,
    }
}

// Where the link is that had the index `i`, if the notes of the indexes up to `placed` lead to it.
fn led_to<P, T, S>(arena: &Arena<P, LinkNoGen<P, T>, S>, i: P::Inx, placed: usize) -> P::Inx
where
    P: PtrCore,
    T: Drop,
    S: ChainSlots<P, T>,
    requires led { IsLedOn (ends_in arena.now) placed (P.Inx.number i) }
    requires no_more { ⊤ }
    ensures { (k : ℕ) → IsLed (ends_in arena.now) placed (P.Inx.number i) k
        → P.Inx.number result ≡ k }
{
    let mut at = i;
    'note: while is_within(at, placed) {
        match read_prev(arena, at) {
            Some(to) => at = to,
            None => unreached!(),
        }
    }
    at
}

// The first index of the chain of the one at `k`, which is not placed yet. If it is a ring, that
// is `k` itself, and the index that its link had comes with it.
fn unplaced_start<P, T, S>(
    arena: &Arena<P, LinkNoGen<P, T>, S>,
    k: P::Inx,
    placed: usize,
) -> (P::Inx, Option<P::Inx>)
where
    P: PtrCore,
    T: Drop,
    S: ChainSlots<P, T>,
    requires gathering { IsGathering placed arena.now }
    requires behind { P.Inx.number k ≡ placed + 1 }
    requires live { IsSome (ends_in arena.now (P.Inx.number k)) }
    ensures { StartsAt placed (P.Inx.number result.0) (option_map P.Inx.number result.1) arena.now }
{
    let mut at = k;
    // No more links are passed than indexes fit.
    'back: for _ in 0..arena.capacity() {
        match read_prev(arena, at) {
            Some(prev) => {
                let before = led_to(arena, prev, placed);
                if is_one(before, k) {
                    return (k, Some(prev));
                }
                at = before;
            }
            None => return (at, None),
        }
    }
    unreachable!()
}

// Brings the link at `at` to `place`, as the next of `last` if there is one. It changes places with
// the one there, and notes if that one went.
fn bring<P, T, S>(
    arena: &mut Arena<P, LinkNoGen<P, T>, S>,
    last: Option<P::Inx>,
    at: P::Inx,
    place: P::Inx,
)
where
    P: PtrCore,
    T: Drop,
    S: ChainSlots<P, T>,
    requires formed { IsWellFormed arena.old }
    requires alike { IsAlike arena.old }
    requires last_is_live { IfSome (option_map P.Inx.number last)
        (λ i. IsSome (entry_at arena.old i)) }
    requires at_is_live { IsSome (entry_at arena.old (P.Inx.number at)) }
    requires place_is_live { IsSome (entry_at arena.old (P.Inx.number place)) }
    ensures { IsBrought (option_map P.Inx.number last) (P.Inx.number at)
        (P.Inx.number place) arena.old arena.new }
{
    set_next(arena, last, Some(place));
    arena.swap_inx(at, place);
    set_prev(arena, Some(place), Some(at));
}

// Brings the chain of the first index behind `first` others to successive indexes from there on,
// and returns the last one. A next index is looked up by the notes, since it is an old name.
fn gather_chain<P, T, S>(arena: &mut Arena<P, LinkNoGen<P, T>, S>, first: usize) -> usize
where
    P: PtrCore,
    T: Drop,
    S: ChainSlots<P, T>,
    requires gathering { IsGathering first arena.old }
    requires more { first < length arena.old.slots }
    ensures gathered { GathersUpTo first result arena.old arena.new }
    ensures more { first < result }
    ensures within { result ≤ length arena.old.slots }
{
    // Each live index is one of the pointers'.
    recall!(arena.capacity());
    let start = behind(first);
    let (head, round) = unplaced_start(arena, start, first);
    bring(arena, None, head, start);
    let mut last = start;
    let mut placed = first + 1;
    'link: loop {
        match read_next(arena, last) {
            Some(next) => {
                if is_same(round, next) {
                    set_next(arena, Some(last), Some(start));
                    return placed;
                }
                let at = led_to(arena, next, placed);
                let place = behind(placed);
                bring(arena, Some(last), at, place);
                last = place;
                placed += 1;
            }
            None => return placed,
        }
    }
}

// A next index, if it is one of those up to `count`, and `i`, if it is past them.
fn parted<I: PtrInxCore>(next: Option<I>, i: I, count: usize) -> (Option<I>, Option<I>)
    ensures back { option_map I.number result.0 ≡ up_to count (option_map I.number next) }
    ensures before { option_map I.number result.1
        ≡ before_past count (I.number i) (option_map I.number next) }
{
    match next {
        Some(next) => {
            if is_within(next, count) {
                (Some(next), None)
            } else {
                (None, Some(i))
            }
        }
        None => (None, None),
    }
}

// Gives the first `len` links their previous indexes, by their next ones: each of these is one
// further, or not past the link that has it.
fn rejoin<P, T, S>(arena: &mut Arena<P, LinkNoGen<P, T>, S>, len: usize)
where
    P: PtrCore,
    T: Drop,
    S: ChainSlots<P, T>,
    requires formed { IsWellFormed arena.old }
    requires rejoinable { IsRejoinable (ends_in arena.old) len }
    ensures nexts { (k : ℕ) → next_at (ends_in arena.new) k ≡ next_at (ends_in arena.old) k }
    ensures agreed { IsAgreed (ends_in arena.new) }
    ensures values { (k : ℕ) → values_in arena.new k ≡ values_in arena.old k }
    ensures kept { IsKept arena.old arena.new }
    ensures formed { IsWellFormed arena.new }
{
    // Each live index is one of the pointers'.
    recall!(arena.capacity());
    let mut before = None;
    let mut count = 0;
    'link: while count < len {
        let i = behind(count);
        count += 1;
        set_prev(arena, Some(i), before);
        let (back, following) = parted(read_next(arena, i), i, count);
        set_prev(arena, back, Some(i));
        before = following;
    }
}

// Brings each chain to successive indexes.
fn gather_chains<P, T, S>(arena: &mut Arena<P, LinkNoGen<P, T>, S>)
where
    P: PtrCore,
    T: Drop,
    S: ChainSlots<P, T>,
    requires chained { IsChained arena.old }
    requires alike { IsAlike arena.old }
    requires full { arena.old.free ≡ [] }
    ensures gathered { IsAllGathered arena.old arena.new }
{
    let len = arena.len();
    let mut placed = 0;
    'chain: while placed < len {
        placed = gather_chain(arena, placed);
    }
    rejoin(arena, len);
}

impl<P: PtrCore, T: Drop, S: ChainSlots<P, T>> ChainArena<P, T, S> {
    /// Moves the links to the indexes from 1 on, so that each chain has successive ones, from the
    /// start of a linear one on. Which chain comes first is left open; where they stand so already
    /// no index changes. The generations and the answer are as by `compress`. No memory is taken.
    pub fn compress_canonical(&mut self, reset: bool) -> InvalidationOption<()>
        ensures overflow { overflowed result ≡ renewal_wraps P.Gen.last reset self.old.counter }
        ensures canonical { IsCanonical P.Gen.last reset self.old self.new }
        ensures formed { IsChained self.new }
    {
        self.recall_chained();
        let answer = self.compress(reset);
        gather_chains(&mut self.arena);
        answer
    }
}
