//! Entries with their neighbors in the list and in the tree, as the checks of a script see them.
use crate::items::{CountingKey, Item, Pairs};
use script_ord_calls::{Node, ShowsNodes};
use triple_arena::{ArenaTrait, PtrCore};
use triple_arena_ord::{OrdSlots, SimpleOrdArena};

impl<P: PtrCore, K: CountingKey, S: OrdSlots<P, Item<K>>> ShowsNodes<P> for Pairs<P, K, S> {
    fn size(&self) -> u64 {
        self.arena.len() as u64
    }

    fn start(&self) -> Option<P::Inx> {
        match self.arena.first() {
            Some(p) => Some(p.inx()),
            None => None,
        }
    }

    fn end(&self) -> Option<P::Inx> {
        match self.arena.last() {
            Some(p) => Some(p.inx()),
            None => None,
        }
    }

    fn node(&self, i: P::Inx) -> Option<Node<P::Inx>> {
        match self.arena.get_inx_node(i) {
            Some((_, link)) => Some(Node {
                key: link.t.t.k().n(),
                value: *link.t.t.v(),
                prev: link.prev(),
                next: link.next(),
                parent: link.t.p_back(),
                left: link.t.p_tree0(),
                right: link.t.p_tree1(),
                rank: link.t.rank,
            }),
            None => None,
        }
    }

    fn ptr(&self, i: P::Inx) -> Option<P> {
        match self.arena.get_inx_node(i) {
            Some((generation, _)) => Some(P::_from_raw(i, generation)),
            None => None,
        }
    }

    fn ascends(&self) -> bool {
        SimpleOrdArena::<P, Item<K>, S>::_check_invariants(&self.arena).is_ok()
    }
}
