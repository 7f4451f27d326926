//! Walks along the list.
ghost use Rattle.std.specs.Prelude.{◌≡◌, ◌↔◌, if◌then◌else◌, Some, IsSome, IsTrue, IfSome};
ghost use Rattle.std.specs.Option.{option_map};
ghost use Rattle.triple_arena.specs.Entries.{value_if};
ghost use Rattle.triple_arena_chain.specs.Walks.{left_to};
ghost use Rattle.triple_arena_ord.specs.Ordered.{IsOrdered, order_in, entry_in};
ghost use Rattle.triple_arena_ord.specs.OrderedWalks.{OrderedSteps, IsFrom, walk_at, left_over};
ghost use Rattle.triple_arena_chain.specs.Kinds.{ends_by};

use crate::{OrdSlots, SimpleOrdArena};
use std::marker::Model;
use triple_arena::{Advancer, ArenaTrait, PtrCore, PtrInxCore};

/// Gives the pointers to the entries of the list, one a call: from an entry on to the last, or
/// backward to the first. The arena is free between the calls.
///
/// When it gives an entry it notes the index that comes next, and later gives what is live there.
/// If nothing is, it ends.
#[derive(Drop)]
pub struct OrderedPtrAdvancer<P: PtrCore> {
    // The index that comes next.
    at: Option<P::Inx>,
    back: bool,
}

impl<P: PtrCore> Model for OrderedPtrAdvancer<P> {
    ghost use Rattle.std.specs.Option.{option_map};
    ghost use Rattle.triple_arena_ord.specs.OrderedWalks.{OrderedWalk};

    ghost Value = { OrderedWalk };

    ghost view = { λ a. record { at = option_map P.Inx.number a.at; back = a.back } };
}

// The neighbor to which a walk goes, of these two.
fn toward<I: PtrInxCore>(back: bool, ends: (Option<I>, Option<I>)) -> Option<I>
    ensures { option_map I.number result
        ≡ (if back then (ends_by I.number ends).0 else (ends_by I.number ends).1) }
{
    if back { ends.0 } else { ends.1 }
}

impl<P: PtrCore> OrderedPtrAdvancer<P> {
    // The walk that begins at an index, if there is one.
    pub(crate) fn from(at: Option<P::Inx>, back: bool) -> Self
        ensures at { result.at ≡ option_map P.Inx.number at }
        ensures back { result.back ≡ back }
    {
        OrderedPtrAdvancer { at, back }
    }

    // Gives the entry where the walk is, and goes on from there. If nothing is live, the walk ends.
    pub(crate) fn step<'a, T: Drop, S: OrdSlots<P, T>>(
        &mut self,
        arena: &'a SimpleOrdArena<P, T, S>,
    ) -> Option<(P, &'a T)>
        ensures steps { OrderedSteps arena.now self.old
            (option_map (λ e. (P.index e.0, P.generation e.0)) result) self.new }
        ensures item { IfSome result
            (λ e. entry_in arena.now (P.index e.0) ≡ Some (P.generation e.0, e.1.now)) }
    {
        let i = self.at?;
        match arena.get_inx_node(i) {
            Some(entry) => {
                let link = entry.1;
                self.at = toward(self.back, link.prev_next());
                Some((P::_from_raw(i, entry.0), &link.t.t))
            }
            None => {
                self.at = None;
                None
            }
        }
    }
}

impl<P: PtrCore, T: Drop, S: OrdSlots<P, T>> Advancer<SimpleOrdArena<P, T, S>>
    for OrderedPtrAdvancer<P> {
    type Item = P;

    ghost remaining = { λ a _. left_to a.at };

    ghost advance_gives = { λ before o given after. OrderedSteps o before
        (option_map (λ p. (P.index p, P.generation p)) given) after };

    fn advance(&mut self, arena: &SimpleOrdArena<P, T, S>) -> Option<P> {
        match self.step(arena) {
            Some((p, _)) => Some(p),
            None => None,
        }
    }

    fn empty() -> Self {
        OrderedPtrAdvancer {
            at: None,
            back: false,
        }
    }
}

impl<P: PtrCore, T: Drop, S: OrdSlots<P, T>> SimpleOrdArena<P, T, S> {
    // The arena is ordered, and this is whether a pointer finds an entry.
    fn finds(&self, p: P) -> bool
        ensures found { IsTrue result
            ↔ IsSome (value_if (P.generation p) (entry_in self.now (P.index p))) }
        ensures ordered { IsOrdered self.now }
    {
        self.chains.contains(p)
    }

    /// A walk along the list from the entry that `p` points to: that one and those after it, or
    /// with `rev` that one and those before it, backward. It is `None` if `p` points to none. It
    /// gives the pointers, one a call, and the arena may be changed between the calls.
    pub fn advancer_ordered(&self, p: P, rev: bool) -> Option<OrderedPtrAdvancer<P>>
        ensures variant { IsSome result
            ↔ IsSome (value_if (P.generation p) (entry_in self.now (P.index p))) }
        ensures from { IfSome result (λ a. a ≡ walk_at (P.index p) rev) }
        ensures along { IfSome result (λ a. IsFrom (order_in self.now) (P.index p) rev
            (left_over self.now a)) }
        ensures ordered { IsOrdered self.now }
    {
        if self.finds(p) {
            Some(OrderedPtrAdvancer::from(Some(p.inx()), rev))
        } else {
            None
        }
    }
}
