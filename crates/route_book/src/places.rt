//! The places of a store, one after another.
ghost use Rattle.std.specs.Iterator.{YieldsFirstBy, item_count};

use crate::items::Place;
use route_lines::Word;
use std::marker::Model;
use triple_arena_ord::OrdSlots;
use triple_arena_ord::ord_iterators::Iter;
use triple_arena_ptr::{PtrCore, PtrInxCore};

/// The places of a store in the order of their keys, and under one key of their tickets, seen as
/// the list of those that are left.
#[derive(Drop)]
pub struct Places<'a, P: PtrCore, S: OrdSlots<P, Place>>
where
    P::Inx: 'a,
    <P::Inx as PtrInxCore>::Word: 'a,
{
    pub(crate) entries: Iter<'a, P, Place, S>,
}

impl<'a, P: PtrCore, S: OrdSlots<P, Place>> Model for Places<'a, P, S>
where
    P::Inx: 'a,
    <P::Inx as PtrInxCore>::Word: 'a,
{
    ghost use Rattle.std.specs.Prelude.{List, map};
    ghost use Rattle.route_lines.specs.State.{Place as View};

    ghost Value = { List View };

    ghost view = { λ p. map (λ e. e.1.1) p.entries };
}

impl<'a, P: PtrCore, S: OrdSlots<P, Place>> Iterator for Places<'a, P, S>
where
    P::Inx: 'a,
    <P::Inx as PtrInxCore>::Word: 'a,
{
    ghost use Rattle.route_lines.specs.Calls.{listed};

    /// A place's ticket, key and word.
    type Item = (u64, u64, &'a Word);

    ghost next_gives = { YieldsFirstBy listed (λ left. left) };

    ghost remaining = { item_count (λ left. left) };

    fn next(&mut self) -> Option<(u64, u64, &'a Word)> {
        let (_, place) = self.entries.next()?;
        Some((place.ticket(), place.key_number(), place.word()))
    }

    // How many are left is not known before the end.
    fn size_hint(&self) -> (usize, Option<usize>) {
        (0, None)
    }
}
