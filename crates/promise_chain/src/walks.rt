//! Walks along a chain.
ghost use Rattle.std.specs.Prelude.{◌≡◌, ◌↔◌, ℕ, List, IsSome, IfSome};
ghost use Rattle.std.specs.Option.{option_map};
ghost use Rattle.triple_arena.specs.Content.{get, entry_at};
ghost use Rattle.triple_arena_chain.specs.IterChains.{links_along};
ghost use Rattle.triple_arena_chain.specs.Links.{ends_in, values_in};
ghost use Rattle.triple_arena_chain.specs.Walks.{IsWalkFrom, ChainSteps};

use triple_arena::{Advancer, PtrCore};
use triple_arena_chain::chain_iterators::{ChainPtrAdvancer, IterChain};
use triple_arena_chain::{ChainArena, ChainSlots};

/// The links of the chain of `p`, in the order of a walk from `p`.
pub fn iter_chain<P: PtrCore, T: Drop, S: ChainSlots<P, T>>(
    chains: &ChainArena<P, T, S>,
    p: P,
) -> Option<IterChain<'_, P, T, S>>
    ensures variant { IsSome result ↔ IsSome (get chains.now (P.index p) (P.generation p)) }
    ensures along { IfSome result (λ it. (walk : List ℕ)
        × IsWalkFrom (ends_in chains.now) (P.index p) walk
        × (it ≡ links_along (entry_at chains.now) walk)) }
{
    let along = chains.iter_chain(p);
    along
}

/// A step of a walk, which goes backwards from the link before the first one after the end.
pub fn advance<P: PtrCore, T: Drop, S: ChainSlots<P, T>>(
    walk: &mut ChainPtrAdvancer<P>,
    chains: &ChainArena<P, T, S>,
) -> Option<P>
    ensures { ChainSteps (ends_in chains.now) (values_in chains.now) walk.old
        (option_map (λ p. (P.index p, P.generation p)) result) walk.new }
{
    let given = walk.advance(chains);
    given
}
