//! Going over the entries of an arena of any kind that is given away, in the order of the indexes.
ghost use Rattle.std.specs.Prelude.{◌≡◌, length};
ghost use Rattle.std.specs.Iterator.{YieldsFirstBy, item_count};
ghost use Rattle.triple_arena.specs.Iterators.{IsExact};

use crate::ArenaTrait;
use std::iter::FusedIterator;
use std::marker::Model;
use triple_arena_ptr::{Advancer, PtrCore};

/// The pointers and the values of an arena, by value, in the order of the indexes, seen as the list
/// of the entries that are left. Dropped, it drops those.
#[derive(Drop)]
pub struct CapacityDrain<P: PtrCore, T: Drop, A: ArenaTrait<P, T> + Drop> {
    arena: A,
    walk: A::PtrAdvancer,
}

impl<P: PtrCore, T: Drop, A: ArenaTrait<P, T> + Drop> Model for CapacityDrain<P, T, A> {
    ghost use Rattle.std.specs.Prelude.{ℕ, List};
    ghost use Rattle.triple_arena.specs.Drains.{IsAllAhead};

    ghost Value = { List (ℕ × (ℕ × T)) };

    ghost view = { λ it. A.live_entries it.arena };

    ghost invariant = { λ it. IsAllAhead (A.entry_at it.arena) (A.walk it.walk) };
}

impl<P: PtrCore, T: Drop, A: ArenaTrait<P, T> + Drop> CapacityDrain<P, T, A> {
    /// Over the entries of `arena`. An arena makes it of itself by its `into_iter`.
    pub fn of(arena: A) -> Self
        ensures { result ≡ A.live_entries arena }
    {
        let walk = arena.advancer();
        CapacityDrain { arena, walk }
    }
}

impl<P: PtrCore, T: Drop, A: ArenaTrait<P, T> + Drop> Iterator for CapacityDrain<P, T, A> {
    type Item = (P, T);

    ghost next_gives = { YieldsFirstBy (λ e. (P.index e.0, (P.generation e.0, e.1)))
        (λ left. left) };

    ghost remaining = { item_count (λ left. left) };

    fn next(&mut self) -> Option<(P, T)> {
        let p = self.walk.advance(&self.arena)?;
        let value = self.arena.remove(p).allow()?;
        Some((p, value))
    }

    fn size_hint(&self) -> (usize, Option<usize>)
        ensures { IsExact result (length self.now) }
    {
        let len = self.arena.len();
        (len, Some(len))
    }
}

impl<P: PtrCore, T: Drop, A: ArenaTrait<P, T> + Drop> ExactSizeIterator for CapacityDrain<P, T, A> {
    fn len(&self) -> usize {
        self.arena.len()
    }
}

impl<P: PtrCore, T: Drop, A: ArenaTrait<P, T> + Drop> FusedIterator for CapacityDrain<P, T, A> {}
