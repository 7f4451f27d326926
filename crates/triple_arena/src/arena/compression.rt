//! Compression: the live entries go to the first indexes.
ghost use Rattle.std.specs.Prelude.{◌≡◌, ◌≤◌, Some, None, length, map as list_map, take};
ghost use Rattle.std.specs.Int.NonZero.{non_zero_usize_get as at};
ghost use Rattle.std.specs.List.{list_any};
ghost use Rattle.std.specs.Option.{option_map};
ghost use Rattle.triple_arena.specs.Compression.{renewed, renewal_wraps, generation_of};
ghost use Rattle.triple_arena.specs.SlotCompression.{Compacts, generation_after, own_wraps};
ghost use Rattle.triple_arena.specs.LiveEntries.{listed_by};
ghost use Rattle.triple_arena_stack.specs.Stack.{item_at, with_item};

use crate::arena::pointer_at;
use crate::slot::EntrySlot;
use std::mem;
use std::num::NonZeroUsize;
use triple_arena_ptr::{PtrCore, PtrGenCore};
use triple_arena_stack::NonZeroInxGenericStack;

// The generation after `generation`, and whether the step to it wrapped.
pub(crate) fn renewal<G: PtrGenCore>(generation: G, reset: bool) -> (G, bool)
    ensures next { G.number result.0 ≡ renewed G.last reset (G.number generation) }
    ensures wraps { result.1 ≡ renewal_wraps G.last reset (G.number generation) }
{
    if reset {
        (G::two(), false)
    } else {
        generation.generational_inc()
    }
}

// The generation that an entry gets, the given one or else its own one renewed, and whether the
// step to it wrapped.
fn renewal_of_entry<G: PtrGenCore>(given: Option<G>, reset: bool, own: G) -> (G, bool)
    ensures next { G.number result.0
        ≡ generation_after G.last reset (option_map G.number given) (G.number own) }
    ensures wraps { result.1 ≡ own_wraps G.last reset (option_map G.number given) (G.number own) }
{
    match given {
        Some(generation) => (generation, false),
        None => renewal(own, reset),
    }
}

// Takes what stands at `i`, if it is live, and leaves a free slot.
pub(crate) fn take_entry<
    P: PtrCore,
    T: Drop,
    L: EntrySlot<P, T> + Drop,
    S: NonZeroInxGenericStack<Item = L>,
>(slots: &mut S, i: NonZeroUsize) -> Option<(P::Gen, T)>
    requires { at i ≤ length (S.items slots.old) }
    ensures entry { Some (option_map (λ e. (P.Gen.number e.0, e.1)) result)
        ≡ item_at (list_map L.entry (S.items slots.old)) (at i) }
    ensures slots { list_map L.entry (S.items slots.new)
        ≡ with_item (list_map L.entry (S.items slots.old)) (at i) None }
    ensures room { S.room slots.new ≡ S.room slots.old }
{
    mem::replace(slots.item_mut(i), L::vacant()).into_live()
}

// Stores an entry at `i`.
pub(crate) fn put_entry<
    P: PtrCore,
    T: Drop,
    L: EntrySlot<P, T> + Drop,
    S: NonZeroInxGenericStack<Item = L>,
>(slots: &mut S, i: NonZeroUsize, generation: P::Gen, value: T)
    requires { at i ≤ length (S.items slots.old) }
    ensures slots { list_map L.entry (S.items slots.new)
        ≡ with_item (list_map L.entry (S.items slots.old)) (at i)
        (Some (P.Gen.number generation, value)) }
    ensures room { S.room slots.new ≡ S.room slots.old }
{
    *slots.item_mut(i) = L::holding(generation, value);
}

// Drops the slots past the first `len` ones.
pub(crate) fn keep_first<L: Drop, S: NonZeroInxGenericStack<Item = L>>(slots: &mut S, len: usize)
    requires { len ≤ length (S.items slots.old) }
    ensures slots { S.items slots.new ≡ take len (S.items slots.old) }
    ensures room { S.room slots.new ≡ S.room slots.old }
{
    while slots.len() > len {
        drop(slots.pop());
    }
}

// Moves the live entries to the first indexes, each with what `map` makes of its value and with the
// given generation, or else its own one renewed, and drops the other slots. It says whether the
// step of one's own generation wrapped.
pub(crate) fn compact<
    P,
    T: Drop,
    L: EntrySlot<P, T> + Drop,
    S: NonZeroInxGenericStack<Item = L>,
    F,
>(slots: &mut S, given: Option<P::Gen>, reset: bool, mut map: F) -> bool
where
    P: PtrCore,
    F: FnMut(P, T, P) -> T,
    requires fits { length (S.items slots.old) ≤ P.Inx.greatest }
    requires callable { F.IsAlwaysCallable map }
    ensures moved { Compacts P.index P.generation F.step map
        (generation_after P.Gen.last reset (option_map P.Gen.number given))
        (list_map L.entry (S.items slots.old)) (list_map L.entry (S.items slots.new)) }
    ensures wraps { result ≡ list_any (own_wraps P.Gen.last reset (option_map P.Gen.number given))
        (list_map generation_of (listed_by L.entry (S.items slots.old))) }
    ensures room { S.room slots.new ≡ S.room slots.old }
{
    let mut live = 0;
    let mut wrapped = false;
    for at in 0..slots.len() {
        let old = NonZeroUsize::MIN.saturating_add(at);
        if let Some(entry) = take_entry(slots, old) {
            let new = NonZeroUsize::MIN.saturating_add(live);
            let (generation, wraps) = renewal_of_entry(given, reset, entry.0);
            let from = pointer_at(old, entry.0);
            let to = pointer_at(new, generation);
            let value = map(from, entry.1, to);
            put_entry(slots, new, generation, value);
            live += 1;
            wrapped |= wraps;
        }
    }
    keep_first(slots, live);
    wrapped
}
