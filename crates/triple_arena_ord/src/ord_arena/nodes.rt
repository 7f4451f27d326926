//! The links of the list and the nodes of the tree, for reading.
ghost use Rattle.std.specs.Prelude.{◌≡◌};
ghost use Rattle.std.specs.Option.{option_map};
ghost use Rattle.triple_arena.specs.Content.{entry_at};
ghost use Rattle.triple_arena_ord.specs.Node.{bare};
ghost use Rattle.triple_arena_ord.specs.Ordered.{IsOrdered};
ghost use Rattle.triple_arena_ord.specs.OrderedWalks.{read_link};

use crate::{OrdSlots, SimpleOrdArena, SimpleOrdArenaNode};
use triple_arena::PtrCore;
use triple_arena_chain::{ChainArenaTrait, LinkNoGen};

impl<P: PtrCore, T: Drop, S: OrdSlots<P, T>> SimpleOrdArena<P, T, S> {
    /// The generation and the item at an index, if it is live, with the indexes of its neighbors in
    /// the list.
    pub fn get_inx_link_no_gen(&self, i: P::Inx) -> Option<(P::Gen, LinkNoGen<P, &T>)>
        ensures link { option_map (λ e. (P.Gen.number e.0, read_link e.1)) result
            ≡ option_map bare (entry_at self.now.chains (P.Inx.number i)) }
        ensures ordered { IsOrdered self.now }
    {
        match self.get_inx_node(i) {
            Some((generation, link)) => {
                Some((
                    generation,
                    LinkNoGen::<P, &T>::new(link.prev_next(), &link.t.t),
                ))
            }
            None => None,
        }
    }

    /// The generation at an index, if it is live, and its link in the list, whose value is the node
    /// of the tree.
    pub fn get_inx_node(
        &self,
        i: P::Inx,
    ) -> Option<(P::Gen, &LinkNoGen<P, SimpleOrdArenaNode<P, T>>)>
        ensures node { option_map (λ e. (P.Gen.number e.0, e.1.now)) result
            ≡ entry_at self.now.chains (P.Inx.number i) }
        ensures ordered { IsOrdered self.now }
    {
        self.chains.get_inx_link_no_gen(i)
    }
}
