//! Going over the links of a chain arena by their indexes.
ghost use Rattle.std.specs.Option.{option_map};
ghost use Rattle.triple_arena.specs.Walk.{to_come, Steps};
ghost use Rattle.triple_arena_chain.specs.Links.{values_in};

use crate::{ChainArena, ChainSlots, LinkNoGen};
use triple_arena::arena_iterators::PtrAdvancer;
use triple_arena::{Advancer, Arena, PtrCore};

impl<P: PtrCore, T: Drop, S: ChainSlots<P, T>> Advancer<ChainArena<P, T, S>> for PtrAdvancer<P> {
    type Item = P;

    ghost remaining = { λ a _. to_come a };

    ghost advance_gives = { λ before c given after. Steps (values_in c) before
        (option_map (λ p. (P.index p, P.generation p)) given) after };

    fn advance(&mut self, chains: &ChainArena<P, T, S>) -> Option<P> {
        Advancer::<Arena<P, LinkNoGen<P, T>, S>>::advance(self, &chains.arena)
    }

    fn empty() -> Self {
        <PtrAdvancer<P> as Advancer<Arena<P, LinkNoGen<P, T>, S>>>::empty()
    }
}
