//! A key with a value.
ghost use Rattle.std.specs.Prelude.{◌≡◌};
ghost use Rattle.std.specs.Borrow.{sem, Lends};
ghost use Rattle.triple_arena_ord.specs.Pairs.{with_v, pair_text};

use crate::SimpleOrdItem;
use std::fmt;
use triple_arena::{Recast, Recaster};

/// An item with a key `k`, by which it is ordered in an arena, and a value `v`. No call borrows the
/// key for writing, so that no key of a stored item is changed by mistake.
#[derive(Clone, Copy, PartialEq, Eq, PartialOrd, Ord, Hash)]
pub struct OrdPair<K, V> {
    k: K,
    v: V,
}

impl<K, V> OrdPair<K, V> {
    ghost use Rattle.triple_arena_ord.specs.contracts.pair.OrdPair.{the_row};

    /// A pair of this key and this value.
    pub fn new(k: K, v: V) -> Self
        ensures key { result.k ≡ k }
        ensures value { result.v ≡ v }
    {
        OrdPair { k, v }
    }

    /// The key.
    pub fn k(&self) -> &K
        ensures { result.now ≡ self.now.k }
    {
        &self.k
    }

    /// The value.
    pub fn v(&self) -> &V
        ensures { result.now ≡ self.now.v }
    {
        &self.v
    }

    /// The key and the value.
    pub fn k_v(&self) -> (&K, &V)
        ensures key { result.0.now ≡ self.now.k }
        ensures value { result.1.now ≡ self.now.v }
    {
        (&self.k, &self.v)
    }

    /// The value, for writing.
    pub fn v_mut(&mut self) -> &mut V
        ensures* writes_back { sem 𝓛
            (Lends (the_row K.row V.row) V.row self.entry result (with_v self.old)) }
        ensures value { result.now ≡ self.old.v }
    {
        &mut self.v
    }

    /// The key, and the value for writing.
    pub fn k_v_mut(&mut self) -> (&K, &mut V)
        ensures* writes_back { sem 𝓛
            (Lends (the_row K.row V.row) V.row self.entry result.1 (with_v self.old)) }
        ensures key { result.0.now ≡ self.old.k }
        ensures value { result.1.now ≡ self.old.v }
    {
        (&self.k, &mut self.v)
    }

    /// The key and the value, each by itself.
    pub fn into_k_v(self) -> (K, V)
        ensures { result ≡ (self.k, self.v) }
    {
        (self.k, self.v)
    }
}

impl<K: Ord, V> SimpleOrdItem for OrdPair<K, V> {
    type Key = K;

    ghost key_of = { λ pair. pair.k };

    fn key(&self) -> &K {
        &self.k
    }
}

/// Writes the key and the value as a tuple is written: `(5, "five")`.
impl<K: fmt::Debug, V: fmt::Debug> fmt::Debug for OrdPair<K, V> {
    ghost debug_output = { pair_text K.debug_output V.debug_output };

    fn fmt<W: fmt::Write>(&self, f: &mut fmt::Formatter<W>) -> fmt::Result {
        fmt::Debug::fmt(&self.k_v(), f)
    }
}

impl<I, K, V: Recast<I>> Recast<I> for OrdPair<K, V> {
    ghost items = { λ pair. V.items pair.v };

    ghost recasted = { λ f pair. with_v pair (V.recasted f pair.v) };

    ghost items_recasted = { λ f pair. V.items_recasted f pair.v };

    fn recast<R: Recaster<Item = I>>(&mut self, recaster: &R) -> Result<(), I> {
        self.v.recast(recaster)
    }
}
