//! The ends of the list as they are found in the order of the indexes, for a compression, which
//! moves every entry.
ghost use Rattle.std.specs.Prelude.{◌≡◌, ℕ, List, None, IsSome};
ghost use Rattle.std.specs.Option.{option_map};
ghost use Rattle.linked_lists.specs.LinkedLists.{IsLinear, On, first_or, last_or};
ghost use Rattle.triple_arena_chain.specs.Links.{ends_in};
ghost use Rattle.triple_arena_ord.specs.Compressed.{end_noted};

use crate::ord_arena::removal::neighbors;
use crate::{OrdSlots, SimpleOrdArena, SimpleOrdArenaNode};
use triple_arena::{Advancer, ArenaTrait, PtrCore, PtrInxCore};
use triple_arena_chain::ChainArena;

// An end of the list: a later index if it has no neighbor on that side, else the one that was
// noted.
fn noted<I: PtrInxCore>(end: Option<I>, neighbor: Option<I>, i: I) -> Option<I>
    ensures { option_map I.number result
        ≡ end_noted (option_map I.number end) (option_map I.number neighbor) (I.number i) }
{
    match neighbor {
        Some(_) => end,
        None => Some(i),
    }
}

// The first and the last index of a list that has each live index.
pub(crate) fn ends_of_list<P: PtrCore, T: Drop, S: OrdSlots<P, T>>(
    chains: &ChainArena<P, SimpleOrdArenaNode<P, T>, S>,
) -> (Option<P::Inx>, Option<P::Inx>)
    ensures first { (w : List ℕ) → IsLinear (ends_in chains.now) w
        → ((k : ℕ) → IsSome (ends_in chains.now k) → On w k)
        → option_map P.Inx.number result.0 ≡ first_or w None }
    ensures last { (w : List ℕ) → IsLinear (ends_in chains.now) w
        → ((k : ℕ) → IsSome (ends_in chains.now k) → On w k)
        → option_map P.Inx.number result.1 ≡ last_or None w }
{
    let mut first = None;
    let mut last = None;
    let mut advancer = chains.advancer();
    while let Some(p) = advancer.advance(chains) {
        let i = p.inx();
        let sides = neighbors(chains, i);
        first = noted(first, sides.0, i);
        last = noted(last, sides.1, i);
    }
    (first, last)
}
