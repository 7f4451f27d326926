//! Going over the entries of an arena that is borrowed for reading, along the list.
ghost use Rattle.std.specs.Prelude.{◌≡◌, length};
ghost use Rattle.std.specs.Iterator.{YieldsFirstBy, item_count};
ghost use Rattle.triple_arena.specs.Iterators.{IsExact};
ghost use Rattle.triple_arena_ord.specs.Ordered.{ordered_entries};

use crate::ord_arena::walk::OrderedPtrAdvancer;
use crate::{OrdSlots, SimpleOrdArena};
use std::iter::FusedIterator;
use std::marker::Model;
use triple_arena::{ArenaTrait, PtrCore, PtrInxCore};

/// The pointers and the items of the entries, from the first of the list to the last, seen as the
/// list of the entries that are left. It tells how many these are.
#[derive(Drop)]
pub struct Iter<'a, P: PtrCore, T: Drop, S: OrdSlots<P, T>>
where
    P::Inx: 'a,
    <P::Inx as PtrInxCore>::Word: 'a,
{
    arena: &'a SimpleOrdArena<P, T, S>,
    advancer: OrderedPtrAdvancer<P>,
    // How many entries are left.
    left: usize,
}

impl<'a, P: PtrCore, T: Drop, S: OrdSlots<P, T>> Model for Iter<'a, P, T, S>
where
    P::Inx: 'a,
    <P::Inx as PtrInxCore>::Word: 'a,
{
    ghost use Rattle.std.specs.Prelude.{◌≡◌, ℕ, List, length};
    ghost use Rattle.triple_arena_ord.specs.OrderedWalks.{entries_left};

    ghost Value = { List (ℕ × (ℕ × T)) };

    ghost view = { λ it. entries_left it.arena.now it.advancer };

    ghost invariant = { λ it. it.left
        ≡ length (entries_left it.arena.now it.advancer) };
}

impl<'a, P: PtrCore, T: Drop, S: OrdSlots<P, T>> Iterator for Iter<'a, P, T, S>
where
    P::Inx: 'a,
    <P::Inx as PtrInxCore>::Word: 'a,
{
    type Item = (P, &'a T);

    ghost next_gives = { YieldsFirstBy (λ e. (P.index e.0, (P.generation e.0, e.1.now)))
        (λ left. left) };

    ghost remaining = { item_count (λ left. left) };

    fn next(&mut self) -> Option<(P, &'a T)> {
        let (p, item) = self.advancer.step(self.arena)?;
        self.left -= 1;
        Some((p, item))
    }

    fn size_hint(&self) -> (usize, Option<usize>)
        ensures { IsExact result (length self.now) }
    {
        (self.left, Some(self.left))
    }
}

impl<'a, P: PtrCore, T: Drop, S: OrdSlots<P, T>> ExactSizeIterator for Iter<'a, P, T, S>
where
    P::Inx: 'a,
    <P::Inx as PtrInxCore>::Word: 'a,
{
    fn len(&self) -> usize {
        self.left
    }
}

impl<'a, P: PtrCore, T: Drop, S: OrdSlots<P, T>> FusedIterator for Iter<'a, P, T, S>
where
    P::Inx: 'a,
    <P::Inx as PtrInxCore>::Word: 'a,
{}

impl<P: PtrCore, T: Drop, S: OrdSlots<P, T>> SimpleOrdArena<P, T, S> {
    /// The pointers and the items of the entries, from the first of the list to the last.
    pub fn iter_ordered(&self) -> Iter<'_, P, T, S>
        ensures { result ≡ ordered_entries self.now }
    {
        Iter {
            advancer: OrderedPtrAdvancer::from(self.first_index(), false),
            left: self.len(),
            arena: self,
        }
    }
}

impl<'a, P: PtrCore, T: Drop, S: OrdSlots<P, T>> IntoIterator for &'a SimpleOrdArena<P, T, S>
where
    P::Inx: 'a,
    <P::Inx as PtrInxCore>::Word: 'a,
{
    type Item = (P, &'a T);

    type IntoIter = Iter<'a, P, T, S>;

    ghost into_iter_gives = { λ arena it. it ≡ ordered_entries arena.now };

    fn into_iter(self) -> Iter<'a, P, T, S> {
        self.iter_ordered()
    }
}
