//! Searches by key.
ghost use Rattle.std.specs.Prelude.{◌≡◌, ◌+◌, ◌≤◌, IfSome};
ghost use Rattle.rank_tree.specs.Comparisons.{most_comparisons};
ghost use Rattle.rank_tree.specs.Tree.{rank_of};
ghost use Rattle.triple_arena_ord.specs.Node.{nodes_in};
ghost use Rattle.rank_tree.specs.Search.{IsAnswer, IsFreeAt};
ghost use Rattle.triple_arena_ord.specs.Ordered.{IsOrdered, tree_in, size_in, comparisons};
ghost use Rattle.triple_arena_ord.specs.Ordered.{asked_at};
ghost use Rattle.triple_arena_ord.specs.Found.{place_by, IsFoundByKey, IsSimilarByKey};

mod bounds;
mod closures;
pub(crate) mod found;
mod linear;

use crate::ord_arena::search::found::{found_at, similar_at};
use crate::{OrdSlots, SimpleOrdArena, SimpleOrdItem};
use std::cmp::Ordering;
use std::mem;
use triple_arena::{ArenaTrait, PtrCore};
use triple_arena_ptr::{OptionalInx, Probes};

impl<P: PtrCore, T: SimpleOrdItem + Drop, S: OrdSlots<P, T>> SimpleOrdArena<P, T, S> {
    // Where a search by key ends, with the last answer.
    pub(crate) fn seek(&self, k: &T::Key, probes: &mut Probes) -> Option<(P::Inx, Ordering)>
        ensures answer { IsAnswer (asked_at T.Key.cmp T.key_of k.now self.now) (tree_in self.now)
            (place_by P.Inx.number result) }
        ensures free { IfSome result
            (λ a. IsFreeAt a.1 (nodes_in self.now.chains (P.Inx.number a.0))) }
        ensures ticks { probes.new ≡ probes.old + comparisons T.Key.cmp T.key_of k.now self.now }
        ensures bound { probes.new ≤ probes.old + rank_of (tree_in self.now) }
        ensures ordered { IsOrdered self.now }
    {
        let mut link = OptionalInx::of(self.root);
        let mut place = None;
        // Counted in a local, since a count behind a reference is written at each node.
        let mut count = mem::replace(probes, Probes::new());
        'down: while let Some(i) = link.get() {
            count.tick();
            let node = self.chains.get_inx_unwrap(i);
            let left = node.p_tree0;
            let right = node.p_tree1;
            let answer = k.cmp(node.t.key());
            if answer.is_eq() {
                *probes = count;
                return Some((i, answer));
            }
            place = Some((i, answer));
            if left.is_none() && right.is_none() {
                *probes = count;
                return place;
            }
            link = if answer.is_lt() { left } else { right };
        }
        *probes = count;
        place
    }

    /// The pointer to an entry with an equal key. If the keys ascend, `None` means that there is
    /// none. Each comparison is a tick, one at each entry on the way down from the root. Among
    /// n > 0 entries there are at most c, the greatest number with `2^(c+1) <= (n+1)^2`, and none
    /// in an empty arena.
    pub fn find_key_counted(&self, k: &T::Key, probes: &mut Probes) -> Option<P>
        ensures found { IsFoundByKey P.index P.generation T.Key.cmp T.key_of k.now result self.now }
        ensures ticks { probes.new ≡ probes.old + comparisons T.Key.cmp T.key_of k.now self.now }
        ensures bound { probes.new ≤ probes.old + most_comparisons (size_in self.now) }
    {
        let place = self.seek(k, probes);
        found_at(&self.chains, place)
    }

    /// The pointer to an entry with an equal key. If the keys ascend, `None` means that there is
    /// none.
    pub fn find_key(&self, k: &T::Key) -> Option<P>
        ensures { IsFoundByKey P.index P.generation T.Key.cmp T.key_of k.now result self.now }
    {
        self.find_key_counted(k, &mut Probes::new())
    }

    /// The pointer to an entry with an equal key, or else to one beside which the key belongs, and
    /// what the key compares as with the entry's; `None` if there is no entry. If the keys do not
    /// ascend, it is some entry. Each comparison is a tick, and there are as many at most as
    /// `find_key_counted` says.
    pub fn find_similar_key_counted(&self, k: &T::Key, probes: &mut Probes) -> Option<(P, Ordering)>
        ensures similar { IsSimilarByKey P.index P.generation T.Key.cmp T.key_of k.now result
            self.now }
        ensures ticks { probes.new ≡ probes.old + comparisons T.Key.cmp T.key_of k.now self.now }
        ensures bound { probes.new ≤ probes.old + most_comparisons (size_in self.now) }
    {
        let place = self.seek(k, probes);
        similar_at(&self.chains, place)
    }

    /// The pointer to an entry with an equal key, or else to one beside which the key belongs, and
    /// what the key compares as with the entry's; `None` if there is no entry. If the keys do not
    /// ascend, it is some entry.
    pub fn find_similar_key(&self, k: &T::Key) -> Option<(P, Ordering)>
        ensures { IsSimilarByKey P.index P.generation T.Key.cmp T.key_of k.now result self.now }
    {
        self.find_similar_key_counted(k, &mut Probes::new())
    }
}
