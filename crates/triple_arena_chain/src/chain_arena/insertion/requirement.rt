//! What an insertion's kind requires of the links.
ghost use Rattle.std.specs.Prelude.{◌≡◌};
ghost use Rattle.std.specs.Option.{option_map};
ghost use Rattle.triple_arena_chain.specs.Links.{gap_among};
ghost use Rattle.triple_arena_chain.specs.Kinds.{gap_by};

use crate::gap::{Gap, after_end, before_start, bridging, inside, next_to, prev_to};
use crate::{ChainArena, ChainSlots, LinkInsertKind};
use triple_arena::PtrCore;

impl<P: PtrCore, T: Drop, S: ChainSlots<P, T>> ChainArena<P, T, S> {
    // The gap that the kind asks for, or `None` if its requirement is not met.
    #[inline(always)]
    pub(crate) fn gap(&self, kind: LinkInsertKind<P>) -> Option<Gap<P::Inx>>
        ensures { option_map (gap_by P.Inx.number) result
            ≡ gap_among P.index P.generation P.Inx.number self.now kind }
    {
        match kind {
            LinkInsertKind::Disconnected => Some(Gap::Between(None, None)),
            LinkInsertKind::SingleLinkCyclic => Some(Gap::OwnRing),
            LinkInsertKind::ChainEnd(p) => after_end(p.inx(), self.ends_of(p)),
            LinkInsertKind::ChainEndInx(i) => after_end(i, self.ends_at(i)),
            LinkInsertKind::ChainStart(p) => before_start(p.inx(), self.ends_of(p)),
            LinkInsertKind::ChainStartInx(i) => before_start(i, self.ends_at(i)),
            LinkInsertKind::NextTo(p) => next_to(p.inx(), self.ends_of(p)),
            LinkInsertKind::NextToInx(i) => next_to(i, self.ends_at(i)),
            LinkInsertKind::PrevTo(p) => prev_to(p.inx(), self.ends_of(p)),
            LinkInsertKind::PrevToInx(i) => prev_to(i, self.ends_at(i)),
            LinkInsertKind::AtInterlink(p, q) => {
                inside(p.inx(), q.inx(), self.ends_of(p), self.ends_of(q))
            }
            LinkInsertKind::AtInterlinkInx(i, j) => {
                inside(i, j, self.ends_at(i), self.ends_at(j))
            }
            LinkInsertKind::Bridge(p, q) => {
                bridging(p.inx(), q.inx(), self.ends_of(p), self.ends_of(q))
            }
            LinkInsertKind::BridgeInx(i, j) => { bridging(i, j, self.ends_at(i), self.ends_at(j)) }
        }
    }
}
