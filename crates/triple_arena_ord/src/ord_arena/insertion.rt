//! Insertions.
ghost use Rattle.std.specs.Prelude.{◌≡◌, ◌↔◌, ◌<◌, Some, None, IsTrue, IsSome, IfSome};
ghost use Rattle.triple_arena.specs.Content.{arena_capacity};
ghost use Rattle.triple_arena_ord.specs.Node.{nodes_in};
ghost use Rattle.rank_tree.specs.Search.{IsFreeAt};
ghost use Rattle.triple_arena_ord.specs.Ordered.{IsOrdered, size_in};
ghost use Rattle.triple_arena_ord.specs.Inserted.{IsRenewed, IsReplaced, Replaces};
ghost use Rattle.triple_arena_ord.specs.Inserted.{AddsAt, InsertsAt, InsertsByKey};
ghost use Rattle.triple_arena_ord.specs.Found.{place_by};

pub(crate) mod entry;
mod get_or_insert;
mod growth;
mod manual;
mod placing;
mod settle;

use crate::{OrdSlots, SimpleOrdArena, SimpleOrdArenaNode, SimpleOrdItem};
use proof_marks::unreached;
use rank_tree::Side;
use std::cmp::Ordering;
use std::mem;
use triple_arena::{ArenaTrait, PtrCore, PtrInxCore, ReallocationError};
use triple_arena_chain::ChainArena;
use triple_arena_ptr::{OrdInsertionError, Probes};

// Another item in a node, and the one that it had.
fn renew<P: PtrCore, T: Drop, S: OrdSlots<P, T>>(
    chains: &mut ChainArena<P, SimpleOrdArenaNode<P, T>, S>,
    i: P::Inx,
    t: T,
) -> (P, T)
    requires { IsSome (nodes_in chains.old (P.Inx.number i)) }
    ensures index { P.index result.0 ≡ P.Inx.number i }
    ensures renewed { IsRenewed (P.index result.0)
        (P.generation result.0) t result.1 chains.old chains.new }
{
    match chains.get_inx(i) {
        Some(entry) => {
            let generation = entry.0;
            let node = chains.get_inx_mut_unwrap(i);
            let old = mem::replace(&mut node.t, t);
            (P::_from_raw(i, generation), old)
        }
        None => unreached!(),
    }
}

// What an insertion answers if a growth was refused.
pub(crate) fn grown_error(error: ReallocationError) -> OrdInsertionError
    ensures beyond { error ≡ ReallocationError.BeyondMaxCapacity
        → result ≡ OrdInsertionError.BeyondMaxCapacity }
    ensures memory { error ≡ ReallocationError.AllocError → result ≡ OrdInsertionError.AllocError }
{
    match error {
        ReallocationError::BeyondMaxCapacity => OrdInsertionError::BeyondMaxCapacity,
        ReallocationError::AllocError => OrdInsertionError::AllocError,
    }
}

// Whether an insertion there replaces an item, and needs no room.
pub(crate) fn replaces<I: PtrInxCore>(place: Option<(I, Ordering)>) -> bool
    ensures { IsTrue result ↔ Replaces (place_by I.number place) }
{
    match place {
        Some((_, Ordering::Equal)) => true,
        _ => false,
    }
}

impl<P: PtrCore, T: Drop, S: OrdSlots<P, T>> SimpleOrdArena<P, T, S> {
    // Another item at an index, and the one that stood there.
    pub(crate) fn replace_item(&mut self, i: P::Inx, t: T) -> (P, T)
        requires { IsSome (nodes_in self.old.chains (P.Inx.number i)) }
        ensures index { P.index result.0 ≡ P.Inx.number i }
        ensures replaced { IsReplaced (P.index result.0)
            (P.generation result.0) t result.1 self.old self.new }
        ensures ordered { IsOrdered self.new }
    {
        renew(&mut self.chains, i, t)
    }

    // A new entry where a search ended, for which there is room.
    #[inline(always)]
    pub(crate) fn put_at(&mut self, place: Option<(P::Inx, Ordering)>, t: T) -> P
        requires free { IfSome place
            (λ a. IsFreeAt a.1 (nodes_in self.old.chains (P.Inx.number a.0))) }
        requires empty { place ≡ None → self.old.root ≡ None }
        requires new { Replaces (place_by P.Inx.number place) → ⊥ }
        requires room { size_in self.old < arena_capacity self.old.chains }
        ensures { AddsAt (place_by P.Inx.number place) (P.index result) (P.generation result) t
            self.old self.new }
    {
        match place {
            None => self.put_first(t),
            Some((i, direction)) => match direction {
                Ordering::Less => self.put_beside(i, Side::Left, t),
                Ordering::Equal => unreached!(),
                Ordering::Greater => self.put_beside(i, Side::Right, t),
            },
        }
    }

    // An insertion of a new entry where a search ended, if there is room for it.
    #[inline(always)]
    pub(crate) fn add_at_within_capacity(
        &mut self,
        place: Option<(P::Inx, Ordering)>,
        t: T,
    ) -> Result<(P, Option<T>), OrdInsertionError>
        requires free { IfSome place
            (λ a. IsFreeAt a.1 (nodes_in self.old.chains (P.Inx.number a.0))) }
        requires empty { place ≡ None → self.old.root ≡ None }
        requires new { Replaces (place_by P.Inx.number place) → ⊥ }
        ensures { InsertsAt P.index P.generation None (place_by P.Inx.number place) t result
            self.old self.new }
    {
        if self.chains.len() >= self.chains.capacity() {
            return Err(OrdInsertionError::NotWithinCapacity);
        }
        Ok((self.put_at(place, t), None))
    }

    // The same, but the arena grows if there is no room.
    #[inline(always)]
    pub(crate) fn add_at_reallocating(
        &mut self,
        place: Option<(P::Inx, Ordering)>,
        t: T,
    ) -> Result<(P, Option<T>), OrdInsertionError>
        requires free { IfSome place
            (λ a. IsFreeAt a.1 (nodes_in self.old.chains (P.Inx.number a.0))) }
        requires empty { place ≡ None → self.old.root ≡ None }
        requires new { Replaces (place_by P.Inx.number place) → ⊥ }
        ensures { InsertsAt P.index P.generation (Some S.takes_memory)
            (place_by P.Inx.number place) t result self.old self.new }
    {
        match self.make_room() {
            Ok(_) => Ok((self.put_at(place, t), None)),
            Err(error) => Err(grown_error(error)),
        }
    }

    // An insertion where a search ended.
    #[inline(always)]
    pub(crate) fn insert_at_within_capacity(
        &mut self,
        place: Option<(P::Inx, Ordering)>,
        t: T,
    ) -> Result<(P, Option<T>), OrdInsertionError>
        requires free { IfSome place
            (λ a. IsFreeAt a.1 (nodes_in self.old.chains (P.Inx.number a.0))) }
        requires empty { place ≡ None → self.old.root ≡ None }
        ensures { InsertsAt P.index P.generation None (place_by P.Inx.number place) t result
            self.old self.new }
    {
        if let Some((i, Ordering::Equal)) = place {
            let (p, old) = self.replace_item(i, t);
            return Ok((p, Some(old)));
        }
        self.add_at_within_capacity(place, t)
    }

    // The same, but the arena grows if a new entry is needed and there is no room.
    pub(crate) fn insert_at_reallocating(
        &mut self,
        place: Option<(P::Inx, Ordering)>,
        t: T,
    ) -> Result<(P, Option<T>), OrdInsertionError>
        requires free { IfSome place
            (λ a. IsFreeAt a.1 (nodes_in self.old.chains (P.Inx.number a.0))) }
        requires empty { place ≡ None → self.old.root ≡ None }
        ensures { InsertsAt P.index P.generation (Some S.takes_memory)
            (place_by P.Inx.number place) t result self.old self.new }
    {
        if replaces(place) {
            return self.insert_at_within_capacity(place, t);
        }
        self.add_at_reallocating(place, t)
    }
}

impl<P: PtrCore, T: SimpleOrdItem + Drop, S: OrdSlots<P, T>> SimpleOrdArena<P, T, S> {
    /// Puts an item in where its key belongs, and returns the pointer to it, and the item that it
    /// replaced. If an entry with an equal key is found, its item is replaced, whether or not there
    /// is room. Else there is a new entry; `NotWithinCapacity`, if there is no room for it, changes
    /// nothing, and `t` is dropped. A list whose keys ascend still does.
    pub fn insert_within_capacity(&mut self, t: T) -> Result<(P, Option<T>), OrdInsertionError>
        ensures { InsertsByKey T.Key.cmp T.key_of P.index P.generation None
            t result self.old self.new }
    {
        let place = self.seek(t.key(), &mut Probes::new());
        self.insert_at_within_capacity(place, t)
    }

    /// Puts an item in by its key, in the way of `insert_within_capacity`, but the arena grows if
    /// there is no room for a new entry: to room for 4 at first, then for the double, and never
    /// past its greatest capacity. `BeyondMaxCapacity`, if as many
    /// entries are live as the greatest capacity, and `AllocError`, if the memory was refused,
    /// change nothing, and `t` is dropped.
    pub fn insert_reallocating(&mut self, t: T) -> Result<(P, Option<T>), OrdInsertionError>
        ensures { InsertsByKey T.Key.cmp T.key_of P.index P.generation
            (Some S.takes_memory) t result self.old self.new }
    {
        let found = self.seek(t.key(), &mut Probes::new());
        self.insert_at_reallocating(found, t)
    }

    /// Puts an item in by its key, and returns the pointer to it, and the item that it replaced if
    /// an entry with an equal key is found: another name of `insert_reallocating`. If there is no
    /// room for a new entry, the arena grows. `BeyondMaxCapacity` and `AllocError` change nothing,
    /// and `t` is dropped.
    pub fn insert(&mut self, t: T) -> Result<(P, Option<T>), OrdInsertionError>
        ensures { InsertsByKey T.Key.cmp T.key_of P.index P.generation
            (Some S.takes_memory) t result self.old self.new }
    {
        self.insert_reallocating(t)
    }
}
