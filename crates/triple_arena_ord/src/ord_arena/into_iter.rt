//! Going over the entries of an arena that is given away, along the list.
ghost use Rattle.std.specs.Prelude.{◌≡◌, Some, IfSome, length};
ghost use Rattle.std.specs.Iterator.{YieldsFirstBy, item_count, at_most, UpTo};
ghost use Rattle.std.specs.Iterator.SizeHint.{IsWithinCount};
ghost use Rattle.triple_arena_ord.specs.Ordered.{ordered_entries};

use crate::{OrdSlots, SimpleOrdArena};
use std::iter::FusedIterator;
use std::marker::Model;
use triple_arena::{ArenaTrait, PtrCore};

/// The pointers and the items of the entries, by value, from the first of the list to the last,
/// seen as the list of those that are left. Dropped, it drops those.
#[derive(Drop)]
pub struct CapacityDrain<P: PtrCore, T: Drop, S: OrdSlots<P, T>> {
    arena: SimpleOrdArena<P, T, S>,
}

impl<P: PtrCore, T: Drop, S: OrdSlots<P, T>> Model for CapacityDrain<P, T, S> {
    ghost use Rattle.std.specs.Prelude.{ℕ, List};
    ghost use Rattle.triple_arena_ord.specs.Ordered.{ordered_entries};

    ghost Value = { List (ℕ × (ℕ × T)) };

    ghost view = { λ it. ordered_entries it.arena };
}

impl<P: PtrCore, T: Drop, S: OrdSlots<P, T>> Iterator for CapacityDrain<P, T, S> {
    type Item = (P, T);

    ghost next_gives = { YieldsFirstBy (λ e. (P.index e.0, (P.generation e.0, e.1)))
        (λ left. left) };

    ghost remaining = { item_count (λ left. left) };

    fn next(&mut self) -> Option<(P, T)> {
        let item = self.arena.pop_first()?;
        Some(item.allow())
    }

    fn size_hint(&self) -> (usize, Option<usize>)
        ensures lower { IsWithinCount result.0 (at_most (length self.now)) }
        ensures upper { IfSome result.1 (UpTo (at_most (length self.now))) }
        ensures exact { result ≡ (length self.now, Some (length self.now)) }
    {
        let len = self.arena.len();
        (len, Some(len))
    }
}

impl<P: PtrCore, T: Drop, S: OrdSlots<P, T>> ExactSizeIterator for CapacityDrain<P, T, S> {
    fn len(&self) -> usize {
        self.arena.len()
    }
}

impl<P: PtrCore, T: Drop, S: OrdSlots<P, T>> FusedIterator for CapacityDrain<P, T, S> {}

impl<P: PtrCore, T: Drop, S: OrdSlots<P, T>> IntoIterator for SimpleOrdArena<P, T, S> {
    type Item = (P, T);

    type IntoIter = CapacityDrain<P, T, S>;

    ghost into_iter_gives = { λ arena it. it ≡ ordered_entries arena };

    fn into_iter(self) -> CapacityDrain<P, T, S> {
        CapacityDrain { arena: self }
    }
}
