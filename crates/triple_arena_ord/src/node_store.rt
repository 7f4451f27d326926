//! The nodes as the tree sees them: those in the links of a list.

use crate::{OrdSlots, SimpleOrdArenaNode};
use rank_tree::{NodeLinks, NodeStore, Side};
use triple_arena::{ArenaTrait, PtrCore};
use triple_arena_chain::ChainArena;
use triple_arena_ptr::OptionalInx;

impl<P: PtrCore, T: Drop, S: OrdSlots<P, T>> NodeStore<SimpleOrdArenaNode<P, T>, P>
    for ChainArena<P, SimpleOrdArenaNode<P, T>, S> {
    ghost use Rattle.triple_arena.specs.Content.{Content};
    ghost use Rattle.triple_arena_chain.specs.LinkShape.{IndexLink};
    ghost use Rattle.triple_arena_ord.specs.Node.{nodes_in, rest};

    ghost nodes = { nodes_in };

    ghost Rest = { Content (IndexLink T) };

    ghost rest = { rest };

    fn read(&self, i: P::Inx) -> NodeLinks<P::Inx> {
        let node = self.get_inx_unwrap(i);
        NodeLinks {
            parent: node.p_back.get(),
            left: node.p_tree0.get(),
            right: node.p_tree1.get(),
            rank: node.rank,
        }
    }

    fn write(&mut self, i: P::Inx, links: &NodeLinks<P::Inx>) {
        let node = self.get_inx_mut_unwrap(i);
        node.p_back = OptionalInx::of(links.parent);
        node.p_tree0 = OptionalInx::of(links.left);
        node.p_tree1 = OptionalInx::of(links.right);
        node.rank = links.rank;
    }

    fn set_parent(&mut self, i: P::Inx, parent: &Option<P::Inx>) {
        self.get_inx_mut_unwrap(i).p_back = OptionalInx::of(*parent);
    }

    fn set_child(&mut self, i: P::Inx, side: Side, child: &Option<P::Inx>) {
        match side {
            Side::Left => self.get_inx_mut_unwrap(i).p_tree0 = OptionalInx::of(*child),
            Side::Right => self.get_inx_mut_unwrap(i).p_tree1 = OptionalInx::of(*child),
        }
    }

    fn set_rank(&mut self, i: P::Inx, rank: u8) {
        self.get_inx_mut_unwrap(i).rank = rank;
    }
}
