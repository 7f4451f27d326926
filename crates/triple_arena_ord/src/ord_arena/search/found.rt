//! Pointers to where searches end.
ghost use Rattle.std.specs.Prelude.{◌≡◌, ◌≢◌, ℕ, Some, None, IsSome, IfSome, ⊤};
ghost use Rattle.std.specs.declared.cmp.Ordering.{Ordering as Way};
ghost use Rattle.triple_arena_ord.specs.Node.{items_in};
ghost use Rattle.triple_arena_ord.specs.Found.{place_by};
ghost use Rattle.triple_arena.specs.Steps.{Finds};

use crate::{OrdSlots, SimpleOrdArenaNode};
use proof_marks::unreached;
use std::cmp::Ordering;
use triple_arena::{ArenaTrait, PtrCore, PtrInxCore};
use triple_arena_chain::ChainArena;

// The pointer to the entry at an index that is live.
pub(crate) fn ptr_at<P: PtrCore, T: Drop, S: OrdSlots<P, T>>(
    chains: &ChainArena<P, SimpleOrdArenaNode<P, T>, S>,
    i: P::Inx,
) -> P
    requires { IsSome (items_in chains.now (P.Inx.number i)) }
    ensures index { P.index result ≡ P.Inx.number i }
    ensures live { Finds items_in chains.now (P.index result, P.generation result) }
{
    match chains.get_inx(i) {
        Some(entry) => P::_from_raw(i, entry.0),
        None => unreached!(),
    }
}

// The pointer to where a search ended, with its last answer.
pub(crate) fn similar_at<P: PtrCore, T: Drop, S: OrdSlots<P, T>>(
    chains: &ChainArena<P, SimpleOrdArenaNode<P, T>, S>,
    place: Option<(P::Inx, Ordering)>,
) -> Option<(P, Ordering)>
    requires live { IfSome place (λ a. IsSome (items_in chains.now (P.Inx.number a.0))) }
    requires no_more { ⊤ }
    ensures same { place_by P.index result ≡ place_by P.Inx.number place }
    ensures live { IfSome result (λ a. Finds items_in chains.now (P.index a.0, P.generation a.0)) }
{
    match place {
        Some((i, answer)) => Some((ptr_at(chains, i), answer)),
        None => None,
    }
}

// The pointer to where a search ended, if it found what it looked for.
pub(crate) fn found_at<P: PtrCore, T: Drop, S: OrdSlots<P, T>>(
    chains: &ChainArena<P, SimpleOrdArenaNode<P, T>, S>,
    place: Option<(P::Inx, Ordering)>,
) -> Option<P>
    requires live { IfSome place (λ a. IsSome (items_in chains.now (P.Inx.number a.0))) }
    requires no_more { ⊤ }
    ensures some { (p : P) → result ≡ Some p
        → place_by P.Inx.number place ≡ Some (P.index p, Way.Equal) }
    ensures none { result ≡ None → (i : ℕ) → place_by P.Inx.number place ≢ Some (i, Way.Equal) }
    ensures live { IfSome result (λ p. Finds items_in chains.now (P.index p, P.generation p)) }
{
    match place {
        Some((i, answer)) => match answer {
            Ordering::Equal => Some(ptr_at(chains, i)),
            _ => None,
        },
        None => None,
    }
}
