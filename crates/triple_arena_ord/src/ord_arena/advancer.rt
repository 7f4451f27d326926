//! Going over the entries of an ordered arena by their indexes.
ghost use Rattle.std.specs.Option.{option_map};
ghost use Rattle.triple_arena.specs.Walk.{to_come, Steps};
ghost use Rattle.triple_arena_ord.specs.Ordered.{entry_in};

use crate::{OrdSlots, SimpleOrdArena, SimpleOrdArenaNode};
use triple_arena::arena_iterators::PtrAdvancer;
use triple_arena::{Advancer, PtrCore};
use triple_arena_chain::ChainArena;

impl<P: PtrCore, T: Drop, S: OrdSlots<P, T>> Advancer<SimpleOrdArena<P, T, S>> for PtrAdvancer<P> {
    type Item = P;

    ghost remaining = { λ a _. to_come a };

    ghost advance_gives = { λ before o given after. Steps (entry_in o) before
        (option_map (λ p. (P.index p, P.generation p)) given) after };

    fn advance(&mut self, arena: &SimpleOrdArena<P, T, S>) -> Option<P> {
        Advancer::<ChainArena<P, SimpleOrdArenaNode<P, T>, S>>::advance(self, &arena.chains)
    }

    fn empty() -> Self {
        <PtrAdvancer<P> as Advancer<ChainArena<P, SimpleOrdArenaNode<P, T>, S>>>::empty()
    }
}
