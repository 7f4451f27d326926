//! Links with their neighbors.
ghost use Rattle.std.specs.Prelude.{◌≡◌, Some};
ghost use Rattle.std.specs.Option.{option_map};
ghost use Rattle.triple_arena_chain.specs.Kinds.{ends_by};
ghost use Rattle.triple_arena_chain.specs.Links.{ends_found, ends_in};
ghost use Rattle.triple_arena_chain.specs.Values.{ptr_to};
ghost use Rattle.triple_arena.specs.Entries.{pointer_by};

use crate::{ChainArena, ChainSlots};
use triple_arena::{ArenaTrait, PtrCore};

impl<P: PtrCore, T: Drop, S: ChainSlots<P, T>> ChainArena<P, T, S> {
    // The previous and the next index of the link that `p` points to.
    pub(crate) fn ends_of(&self, p: P) -> Option<(Option<P::Inx>, Option<P::Inx>)>
        ensures { option_map (ends_by P.Inx.number) result
            ≡ ends_found self.now (P.index p) (P.generation p) }
    {
        match self.arena.get(p) {
            Some(link) => Some((link.prev(), link.next())),
            None => None,
        }
    }

    // Those of the link at an index.
    pub(crate) fn ends_at(&self, i: P::Inx) -> Option<(Option<P::Inx>, Option<P::Inx>)>
        ensures { option_map (ends_by P.Inx.number) result ≡ ends_in self.now (P.Inx.number i) }
    {
        match self.arena.get_inx(i) {
            Some((_, link)) => Some((link.prev(), link.next())),
            None => None,
        }
    }

    // The pointer to the link at an index, if it is live.
    pub(crate) fn ptr_at(&self, at: Option<P::Inx>) -> Option<P>
        ensures { pointer_by P.index P.generation result
            ≡ ptr_to self.now (option_map P.Inx.number at) }
    {
        let i = at?;
        match self.arena.get_inx(i) {
            Some((generation, _)) => Some(P::_from_raw(i, generation)),
            None => None,
        }
    }
}
