//! Removal of a link at an index that is live.
ghost use Rattle.std.specs.Prelude.{◌≡◌, Some, IsSome};
ghost use Rattle.triple_arena_ptr.specs.Generation.{next_wraps};
ghost use Rattle.triple_arena.specs.Content.{entry_at, removed};
ghost use Rattle.triple_arena_chain.specs.Links.{bridged_over, IsTakenOut, IsChained};

use crate::chain_arena::interlinks::follow;
use crate::{ChainArena, ChainSlots, LinkNoGen};
use triple_arena::{ArenaTrait, PtrCore};

impl<P: PtrCore, T: Drop, S: ChainSlots<P, T>> ChainArena<P, T, S> {
    /// Removes the link at an index that is live, joins its neighbors, steps the counter, and says
    /// whether the generations wrapped. The link is given back with the interlinks that it had. The
    /// caller owes that the index is live: the call makes no test. The link stands in the answer as
    /// it is, so that a caller who keeps a part of it copies no more than that.
    #[inline(always)]
    pub fn take_inx_link_unwrap(&mut self, i: P::Inx) -> ((P::Gen, LinkNoGen<P, T>), bool)
        requires { IsSome (entry_at self.old (P.Inx.number i)) }
        ensures value { Some (P.Gen.number result.0.0, result.0.1)
            ≡ entry_at self.old (P.Inx.number i) }
        ensures overflow { result.1 ≡ next_wraps P.Gen.last self.old.counter }
        ensures taken { IsTakenOut P.Gen.last (P.Inx.number i) self.old self.new }
        ensures exact { self.new ≡ removed P.Gen.last
            (bridged_over self.old result.0.1) (P.Inx.number i) }
        ensures formed { IsChained self.new }
    {
        let (before, after) = self.arena.get_inx_unwrap(i).prev_next();
        follow(&mut self.arena, before, after);
        self.arena.take_inx_unwrap(i)
    }
}
