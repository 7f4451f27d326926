//! Where a new leaf hangs that stands beside an entry.
ghost use Rattle.std.specs.Prelude.{◌≢◌, ℕ, List, Some, IsSome, IfSome, ⊤};
ghost use Rattle.triple_arena_ord.specs.Node.{nodes_in};
ghost use Rattle.rank_tree.specs.Search.{IsFreeAt};
ghost use Rattle.triple_arena_ord.specs.Inserted.{StandsAt, IsSamePlace};
ghost use Rattle.triple_arena_ord.specs.Ordered.{StandsBeside, order_in};
ghost use Rattle.triple_arena_ord.specs.Found.{place_by};

use crate::leaf::neighbors_beside;
use crate::{OrdSlots, SimpleOrdArena};
use proof_marks::unreached;
use rank_tree::{NodeStore, Side};
use std::cmp::Ordering;
use triple_arena::PtrCore;

impl<P: PtrCore, T: Drop, S: OrdSlots<P, T>> SimpleOrdArena<P, T, S> {
    // Where a new leaf hangs that stands directly before an index: there, or on the right of the
    // previous one.
    fn settle_before(&self, i: P::Inx) -> (P::Inx, Ordering)
        requires { IsSome (nodes_in self.now.chains (P.Inx.number i)) }
        ensures free { IsFreeAt result.1 (nodes_in self.now.chains (P.Inx.number result.0)) }
        ensures new { result.1 ≢ Ordering.Equal }
        ensures same { (w : List ℕ) (n : ℕ)
            → StandsAt (Some (P.Inx.number result.0, result.1)) (order_in self.now) w n
            → StandsBeside Side.Left (order_in self.now) w (P.Inx.number i) n }
    {
        if self.chains.read(i).left.is_none() {
            return (i, Ordering::Less);
        }
        match neighbors_beside(&self.chains, i, Side::Left).0 {
            Some(prev) => (prev, Ordering::Greater),
            None => unreached!(),
        }
    }

    // The same directly after an index: there, or on the left of the next one.
    fn settle_after(&self, i: P::Inx) -> (P::Inx, Ordering)
        requires { IsSome (nodes_in self.now.chains (P.Inx.number i)) }
        ensures free { IsFreeAt result.1 (nodes_in self.now.chains (P.Inx.number result.0)) }
        ensures new { result.1 ≢ Ordering.Equal }
        ensures same { (w : List ℕ) (n : ℕ)
            → StandsAt (Some (P.Inx.number result.0, result.1)) (order_in self.now) w n
            → StandsBeside Side.Right (order_in self.now) w (P.Inx.number i) n }
    {
        if self.chains.read(i).right.is_none() {
            return (i, Ordering::Greater);
        }
        match neighbors_beside(&self.chains, i, Side::Right).1 {
            Some(next) => (next, Ordering::Less),
            None => unreached!(),
        }
    }

    // The same place, as one where a new leaf can hang.
    pub(crate) fn settle(&self, place: Option<(P::Inx, Ordering)>) -> Option<(P::Inx, Ordering)>
        requires live { IfSome place (λ a. IsSome (nodes_in self.now.chains (P.Inx.number a.0))) }
        requires no_more { ⊤ }
        ensures free { IfSome result
            (λ a. IsFreeAt a.1 (nodes_in self.now.chains (P.Inx.number a.0))) }
        ensures same { IsSamePlace (order_in self.now) (place_by P.Inx.number result)
            (place_by P.Inx.number place) }
    {
        match place {
            None => None,
            Some((i, direction)) => match direction {
                Ordering::Less => Some(self.settle_before(i)),
                Ordering::Equal => Some((i, Ordering::Equal)),
                Ordering::Greater => Some(self.settle_after(i)),
            },
        }
    }
}
