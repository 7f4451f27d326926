//! Items whose keys count their comparisons.
ghost use Rattle.std.specs.Prelude.{◌==◌};
ghost use Rattle.std.proofs.Common.{rules};
ghost use Rattle.std.specs.Cmp.{partial_order_from_own_ties};
ghost use Rattle.std.specs.Cmp.Rules.{comparing};
ghost use Rattle.std.specs.Ordering.{nat_cmp, on, as_partial_cmp};

use script_ord_calls::Counting;
use std::cell::Cell;
use std::cmp::Ordering;
use std::fmt;
use triple_arena::{ArenaSlot, PtrCore};
use triple_arena_chain::LinkNoGen;
use triple_arena_ord::{OrdPair, OrdSlots, SimpleOrdArena, SimpleOrdArenaNode};

/// Such numbers as the keys of an arena's items. What compares no keys asks for `Counting` alone,
/// since each function carries all that it asks for.
pub trait CountingKey: Counting + Ord + fmt::Debug {}

impl<K: Counting + Ord + fmt::Debug> CountingKey for K {}

/// A number that counts each comparison of it with another one.
#[derive(Clone, Copy)]
pub struct Key<'a> {
    n: u64,
    calls: &'a Cell<u64>,
}

impl<'a> Key<'a> {
    /// The number 0, which counts in this place.
    pub fn zero(calls: &'a Cell<u64>) -> Self {
        Key { n: 0, calls }
    }
}

impl Ord for Key<'_> {
    ghost cmp = { on (λ k. k.n) nat_cmp };

    ghost total = { Prim.search (comparing, rules) };

    ghost matches_partial_cmp = { Prim.search (comparing, rules) };

    ghost matches_eq = { Prim.search (comparing, rules) };

    fn cmp(&self, other: &Self) -> Ordering {
        self.calls.set(self.calls.get().wrapping_add(1));
        self.n.cmp(&other.n)
    }
}

impl PartialOrd for Key<'_> {
    ghost partial_cmp = { as_partial_cmp (on (λ k. k.n) nat_cmp) };

    ghost laws = { partial_order_from_own_ties (Prim.search (comparing, rules))
        (Prim.search (comparing, rules)) };

    fn partial_cmp(&self, other: &Self) -> Option<Ordering> {
        Some(self.cmp(other))
    }
}

impl PartialEq for Key<'_> {
    ghost eq = { on (λ k. k.n) ◌==◌ };

    ghost laws = { Prim.search (comparing, rules) };

    fn eq(&self, other: &Self) -> bool {
        match self.cmp(other) {
            Ordering::Equal => true,
            _ => false,
        }
    }
}

impl Eq for Key<'_> {
    ghost laws = { Prim.search (comparing, rules) };
}

impl fmt::Debug for Key<'_> {
    fn fmt<W: fmt::Write>(&self, f: &mut fmt::Formatter<W>) -> fmt::Result {
        fmt::Debug::fmt(&self.n, f)
    }
}

impl Counting for Key<'_> {
    fn n(&self) -> u64 {
        self.n
    }

    fn with(&self, n: u64) -> Self {
        Key {
            n,
            calls: self.calls,
        }
    }

    fn count(&self) -> u64 {
        self.calls.get()
    }
}

/// A number with such a key.
pub type Item<K> = OrdPair<K, u64>;

/// The item of a key and a value.
pub fn item<K: Counting>(n: u64, v: u64, zero: K) -> Item<K> {
    OrdPair::new(zero.with(n), v)
}

/// A slot of an arena of them.
pub type Slot<P, K> = ArenaSlot<P, LinkNoGen<P, SimpleOrdArenaNode<P, Item<K>>>>;

/// An arena of them.
#[derive(Drop)]
pub struct Pairs<P: PtrCore, K: CountingKey, S: OrdSlots<P, Item<K>>> {
    pub arena: SimpleOrdArena<P, Item<K>, S>,
}
