//! The links of a list, which is all that a search along it asks of an arena. So little is known
//! where such a search is proved, and a known arena meets little where it is called.
ghost use Rattle.std.specs.Prelude.{◌≡◌};
ghost use Rattle.std.specs.Option.{option_map};
ghost use Rattle.triple_arena.specs.Content.{Content, entry_at};
ghost use Rattle.triple_arena_chain.specs.LinkShape.{IndexLink as Link};
ghost use Rattle.triple_arena_ord.specs.NodeShape.{IndexNode as Node};

use crate::{OrdSlots, SimpleOrdArenaNode};
use triple_arena::PtrCore;
use triple_arena_chain::{ChainArena, ChainArenaTrait, LinkNoGen};

/// What has the links of a list.
pub(crate) trait Links<P: PtrCore, T> {
    ghost links: { Self → Content (Link (Node T)) };

    /// The generation and the link at an index, if it is live.
    fn link_entry(&self, i: P::Inx) -> Option<(P::Gen, &LinkNoGen<P, SimpleOrdArenaNode<P, T>>)>
        ensures { option_map (λ e. (P.Gen.number e.0, e.1.now)) result
            ≡ entry_at (links self.now) (P.Inx.number i) };
}

impl<P: PtrCore, T: Drop, S: OrdSlots<P, T>> Links<P, T>
    for ChainArena<P, SimpleOrdArenaNode<P, T>, S> {
    ghost links = { λ c. c };

    fn link_entry(&self, i: P::Inx) -> Option<(P::Gen, &LinkNoGen<P, SimpleOrdArenaNode<P, T>>)> {
        self.get_inx_link_no_gen(i)
    }
}
