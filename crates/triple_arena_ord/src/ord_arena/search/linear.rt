//! Searches by key that go along the list first.
ghost use Rattle.std.specs.Prelude.{◌≡◌, ◌+◌, ◌≤◌, ℕ, Some, None, IsSome};
ghost use Rattle.std.specs.Option.{option_map};
ghost use Rattle.std.specs.declared.cmp.Ordering.{Ordering as Way};
ghost use Rattle.rank_tree.specs.Comparisons.{most_comparisons};
ghost use Rattle.rank_tree.specs.Tree.{rank_of};
ghost use Rattle.rank_tree.specs.Search.{IsAnswer};
ghost use Rattle.linked_lists.specs.LinkedLists.{On};
ghost use Rattle.triple_arena_ord.specs.Ordered.{IsOrdered, IsAscending, tree_in, order_in};
ghost use Rattle.triple_arena_ord.specs.Ordered.{entry_in, size_in, asked_at, comparisons};
ghost use Rattle.triple_arena_ord.specs.Found.{place_by, item_found, IsFoundByKey, IsSimilarByKey};
ghost use Rattle.triple_arena_ord.specs.Near.{IsPartedAtHand, IsKeyNear, IsPlaceNear, IsEndOfWay};
ghost use Rattle.triple_arena_ord.specs.Near.{IsPlaceSearchCounted, IsKeySearchCounted};

use crate::list_searches::walk_from;
use crate::ord_arena::search::found::{found_at, similar_at};
use crate::{OrdSlots, SimpleOrdArena, SimpleOrdArenaNode, SimpleOrdItem};
use std::cmp::Ordering;
use triple_arena::{ArenaTrait, PtrCore};
use triple_arena_chain::ChainArena;
use triple_arena_ptr::Probes;

impl<P: PtrCore, T: SimpleOrdItem + Drop, S: OrdSlots<P, T>> SimpleOrdArena<P, T, S> {
    // Where a search by key ends that goes along the list first, from an index, for at most `num`
    // comparisons. The entry there may have a child on the side of the gap.
    pub(crate) fn seek_linear(
        &self,
        p_init: P::Inx,
        num: usize,
        k: &T::Key,
        probes: &mut Probes,
    ) -> Option<(P::Inx, Ordering)>
        ensures answer { IsAnswer (asked_at T.Key.cmp T.key_of k.now self.now) (tree_in self.now)
            (place_by P.Inx.number result) }
        ensures rises { probes.old ≤ probes.new }
        ensures ticks { probes.new ≤ probes.old + (num + rank_of (tree_in self.now)) }
        ensures gone { entry_in self.now (P.Inx.number p_init) ≡ None
            → probes.new ≡ probes.old + comparisons T.Key.cmp T.key_of k.now self.now }
        ensures counted { IsSome (entry_in self.now (P.Inx.number p_init))
            → (on : On (order_in self.now) (P.Inx.number p_init))
            → IsPlaceSearchCounted T.Key.cmp T.key_of num k.now self.now on probes.old probes.new }
        ensures near { IsSome (entry_in self.now (P.Inx.number p_init))
            → IsPartedAtHand num (asked_at T.Key.cmp T.key_of k.now self.now) (order_in self.now)
            (P.Inx.number p_init) → probes.new ≤ probes.old + num }
        ensures ends { (i : ℕ) (d : Way)
            → IsEndOfWay T.Key.cmp T.key_of (P.Inx.number p_init) num k.now self.now (i, d)
            → place_by P.Inx.number result ≡ Some (i, d) }
        ensures ordered { IsOrdered self.now }
    {
        if self.chains.get_inx(p_init).is_none() {
            return self.seek(k, probes);
        }
        match walk_from::<P, T, ChainArena<P, SimpleOrdArenaNode<P, T>, S>>(
            &self.chains,
            p_init,
            num,
            k,
            probes,
        ) {
            Some(place) => Some(place),
            None => self.seek(k, probes),
        }
    }

    /// The pointer to an entry with an equal key; if the keys ascend, `None` means that there is
    /// none. First it compares with the entry of `p_init` and goes on from there along the list, in
    /// one direction, for at most `num` comparisons, one at each entry, and a tick each. If these
    /// find no equal key, or `p_init` points to no entry, it searches from the root, in the way of
    /// `find_key_counted`. In a list whose keys ascend `num` comparisons are enough if an entry
    /// with an equal key stands less than `num` steps from that of `p_init`.
    pub fn find_key_linear_counted(
        &self,
        p_init: P,
        num: usize,
        k: &T::Key,
        probes: &mut Probes,
    ) -> Option<P>
        ensures found { IsFoundByKey P.index P.generation T.Key.cmp T.key_of k.now result self.now }
        ensures rises { probes.old ≤ probes.new }
        ensures bound { probes.new ≤ probes.old + (num + most_comparisons (size_in self.now)) }
        ensures gone { item_found P.index P.generation self.now p_init ≡ None
            → probes.new ≡ probes.old + comparisons T.Key.cmp T.key_of k.now self.now }
        ensures counted { IsSome (item_found P.index P.generation self.now p_init)
            → (on : On (order_in self.now) (P.index p_init))
            → IsKeySearchCounted T.Key.cmp T.key_of num k.now self.now on probes.old probes.new }
        ensures near { IsAscending T.Key.cmp T.key_of self.now
            → IsSome (item_found P.index P.generation self.now p_init)
            → IsKeyNear T.Key.cmp T.key_of (P.index p_init) num k.now self.now
            → probes.new ≤ probes.old + num }
        ensures ends { IsSome (item_found P.index P.generation self.now p_init) → (i : ℕ)
            → IsEndOfWay T.Key.cmp T.key_of (P.index p_init) num k.now self.now (i, Way.Equal)
            → option_map P.index result ≡ Some i }
    {
        if !self.chains.contains(p_init) {
            return self.find_key_counted(k, probes);
        }
        let place = walk_from::<P, T, ChainArena<P, SimpleOrdArenaNode<P, T>, S>>(
            &self.chains,
            p_init.inx(),
            num,
            k,
            probes,
        );
        match found_at(&self.chains, place) {
            Some(p) => Some(p),
            None => self.find_key_counted(k, probes),
        }
    }

    /// The pointer to an entry with an equal key; if the keys ascend, `None` means that there is
    /// none. It searches in the way of `find_key_linear_counted`, with no count: along the list
    /// from the entry of `p_init` first, for at most `num` comparisons.
    pub fn find_key_linear(&self, p_init: P, num: usize, k: &T::Key) -> Option<P>
        ensures found { IsFoundByKey P.index P.generation T.Key.cmp T.key_of k.now result self.now }
        ensures ends { IsSome (item_found P.index P.generation self.now p_init) → (i : ℕ)
            → IsEndOfWay T.Key.cmp T.key_of (P.index p_init) num k.now self.now (i, Way.Equal)
            → option_map P.index result ≡ Some i }
    {
        self.find_key_linear_counted(p_init, num, k, &mut Probes::new())
    }

    /// The pointer to an entry with an equal key, or else to one beside which the key belongs, and
    /// what the key compares as with the entry's; `None` if there is no entry. First it compares
    /// with the entry at `p_init`, whatever its generation, and goes on from there along the list,
    /// in one direction, for at most `num` comparisons, one at each entry, and a tick each. It ends
    /// at an equal key, at an end of the list, and where it comes over the place of the key; else,
    /// and if `p_init` is not live, it searches from the root. In a list whose keys ascend `num`
    /// comparisons are enough if an entry with an equal key, or each entry beside the place of the
    /// key, stands less than `num` steps from that at `p_init`.
    pub fn find_similar_key_linear_counted(
        &self,
        p_init: P::Inx,
        num: usize,
        k: &T::Key,
        probes: &mut Probes,
    ) -> Option<(P, Ordering)>
        ensures similar { IsSimilarByKey P.index P.generation T.Key.cmp T.key_of k.now result
            self.now }
        ensures rises { probes.old ≤ probes.new }
        ensures bound { probes.new ≤ probes.old + (num + most_comparisons (size_in self.now)) }
        ensures gone { entry_in self.now (P.Inx.number p_init) ≡ None
            → probes.new ≡ probes.old + comparisons T.Key.cmp T.key_of k.now self.now }
        ensures counted { IsSome (entry_in self.now (P.Inx.number p_init))
            → (on : On (order_in self.now) (P.Inx.number p_init))
            → IsPlaceSearchCounted T.Key.cmp T.key_of num k.now self.now on probes.old probes.new }
        ensures near { IsAscending T.Key.cmp T.key_of self.now
            → IsSome (entry_in self.now (P.Inx.number p_init))
            → IsPlaceNear T.Key.cmp T.key_of (P.Inx.number p_init) num k.now self.now
            → probes.new ≤ probes.old + num }
        ensures ends { (i : ℕ) (d : Way)
            → IsEndOfWay T.Key.cmp T.key_of (P.Inx.number p_init) num k.now self.now (i, d)
            → place_by P.index result ≡ Some (i, d) }
    {
        let place = self.seek_linear(p_init, num, k, probes);
        similar_at(&self.chains, place)
    }

    /// The pointer to an entry with an equal key, or else to one beside which the key belongs, and
    /// what the key compares as with the entry's; `None` if there is no entry. It searches in the
    /// way of `find_similar_key_linear_counted`, with no count: along the list from the entry at
    /// `p_init` first, for at most `num` comparisons.
    pub fn find_similar_key_linear(
        &self,
        p_init: P::Inx,
        num: usize,
        k: &T::Key,
    ) -> Option<(P, Ordering)>
        ensures similar { IsSimilarByKey P.index P.generation T.Key.cmp T.key_of k.now result
            self.now }
        ensures ends { (i : ℕ) (d : Way)
            → IsEndOfWay T.Key.cmp T.key_of (P.Inx.number p_init) num k.now self.now (i, d)
            → place_by P.index result ≡ Some (i, d) }
    {
        self.find_similar_key_linear_counted(p_init, num, k, &mut Probes::new())
    }
}
