//! Searches for the place of a key before or behind the entries with an equal one.
ghost use Rattle.std.specs.Prelude.{◌≡◌, ◌≢◌, ◌+◌, ◌≤◌, true, false, Some, IsSome, IfSome};
ghost use Rattle.std.specs.Option.{option_map};
ghost use Rattle.std.specs.declared.cmp.Ordering.{Ordering as Way};
ghost use Rattle.rank_tree.specs.Comparisons.{most_comparisons};
ghost use Rattle.rank_tree.specs.Search.{IsAnswer};
ghost use Rattle.rank_tree.specs.Tree.{rank_of};
ghost use Rattle.linked_lists.specs.LinkedLists.{next_at};
ghost use Rattle.triple_arena_chain.specs.Links.{ends_in};
ghost use Rattle.triple_arena_ord.specs.Bounds.{IsBound, compares_past, way_past};
ghost use Rattle.triple_arena_ord.specs.Ordered.{IsOrdered, IsAscending, asked_at, entry_in};
ghost use Rattle.triple_arena_ord.specs.Ordered.{size_in, tree_in, comparisons};
ghost use Rattle.triple_arena_ord.specs.Found.{place_by};
ghost use Rattle.triple_arena.specs.Steps.{Finds};

use crate::ord_arena::removal::neighbors;
use crate::{OrdSlots, SimpleOrdArena, SimpleOrdItem};
use proof_marks::recall;
use std::cmp::Ordering;
use std::mem;
use triple_arena::{ArenaTrait, PtrCore};
use triple_arena_ptr::{OptionalInx, Probes};

// An answer that takes an equal key for a greater one, if `past` is true, and else for a lesser
// one.
#[inline(always)]
fn way_past(answer: Ordering, past: bool) -> Ordering
    ensures is { result ≡ way_past past answer }
    ensures turns { result ≢ Way.Equal }
{
    match answer {
        Ordering::Less => Ordering::Less,
        Ordering::Equal => {
            if past {
                Ordering::Greater
            } else {
                Ordering::Less
            }
        }
        Ordering::Greater => Ordering::Greater,
    }
}

impl<P: PtrCore, T: SimpleOrdItem + Drop, S: OrdSlots<P, T>> SimpleOrdArena<P, T, S> {
    // Where a search ends that goes past the entries with an equal key, or not, with the last
    // answer.
    fn seek_past(&self, k: &T::Key, past: bool, probes: &mut Probes) -> Option<(P::Inx, Ordering)>
        ensures answer { IsAnswer
            (asked_at (compares_past past T.Key.cmp) T.key_of k.now self.now) (tree_in self.now)
            (place_by P.Inx.number result) }
        ensures ticks { probes.new ≡ probes.old
            + comparisons (compares_past past T.Key.cmp) T.key_of k.now self.now }
        ensures bound { probes.new ≤ probes.old + rank_of (tree_in self.now) }
        ensures ordered { IsOrdered self.now }
    {
        let mut link = OptionalInx::of(self.root);
        let mut place = None;
        // Counted in a local, since a count behind a reference is written at each node.
        let mut count = mem::replace(probes, Probes::new());
        'down: while let Some(i) = link.get() {
            count.tick();
            let node = self.chains.get_inx_unwrap(i);
            let left = node.p_tree0;
            let right = node.p_tree1;
            let answer = way_past(k.cmp(node.t.key()), past);
            place = Some((i, answer));
            link = if answer.is_lt() { left } else { right };
        }
        *probes = count;
        place
    }

    // The pointer to the entry behind that at an index that is live.
    fn ptr_behind(&self, i: P::Inx) -> Option<P>
        requires { IsSome (entry_in self.now (P.Inx.number i)) }
        ensures at { option_map P.index result
            ≡ next_at (ends_in self.now.chains) (P.Inx.number i) }
        ensures live { IfSome result (λ p. Finds entry_in self.now (P.index p, P.generation p)) }
    {
        // The list is as it must be.
        recall!(self.len());
        match neighbors(&self.chains, i).1 {
            Some(next) => Some(self.ptr_to(next)),
            None => None,
        }
    }

    // The first entry that such a search does not go past.
    fn find_bound(&self, k: &T::Key, past: bool, probes: &mut Probes) -> Option<P>
        ensures bound { IsAscending T.Key.cmp T.key_of self.now
            → IsBound P.index P.generation
            (λ t. compares_past past T.Key.cmp k.now (T.key_of t) ≡ Way.Greater) result self.now }
        ensures live { IfSome result (λ p. Finds entry_in self.now (P.index p, P.generation p)) }
        ensures ticks { probes.new ≡ probes.old
            + comparisons (compares_past past T.Key.cmp) T.key_of k.now self.now }
        ensures few { probes.new ≤ probes.old + most_comparisons (size_in self.now) }
    {
        match self.seek_past(k, past, probes) {
            Some(last) => match last.1 {
                Ordering::Greater => self.ptr_behind(last.0),
                _ => Some(self.ptr_to(last.0)),
            },
            None => None,
        }
    }

    /// The pointer to the first entry of the list whose key is not less than `k`, if the keys
    /// ascend: the first of the entries with an equal key, or else the one behind the place of the
    /// key. `None` if there is no such entry. If the keys do not ascend, it is some entry or
    /// `None`. It makes one search, and each comparison is a tick; there are as many at most as
    /// `find_key_counted` says.
    pub fn lower_bound_counted(&self, k: &T::Key, probes: &mut Probes) -> Option<P>
        ensures bound { IsAscending T.Key.cmp T.key_of self.now
            → IsBound P.index P.generation
            (λ t. T.Key.cmp k.now (T.key_of t) ≡ Way.Greater) result self.now }
        ensures live { IfSome result (λ p. Finds entry_in self.now (P.index p, P.generation p)) }
        ensures ticks { probes.new ≡ probes.old
            + comparisons (compares_past false T.Key.cmp) T.key_of k.now self.now }
        ensures few { probes.new ≤ probes.old + most_comparisons (size_in self.now) }
    {
        self.find_bound(k, false, probes)
    }

    /// The pointer to the first entry of the list whose key is not less than `k`, if the keys
    /// ascend; `None` if there is no such entry. If the keys do not ascend, it is some entry or
    /// `None`.
    pub fn lower_bound(&self, k: &T::Key) -> Option<P>
        ensures bound { IsAscending T.Key.cmp T.key_of self.now
            → IsBound P.index P.generation
            (λ t. T.Key.cmp k.now (T.key_of t) ≡ Way.Greater) result self.now }
        ensures live { IfSome result (λ p. Finds entry_in self.now (P.index p, P.generation p)) }
    {
        self.lower_bound_counted(k, &mut Probes::new())
    }

    /// The pointer to the first entry of the list whose key is greater than `k`, if the keys
    /// ascend: the one behind all entries with an equal key, or behind the place of the key. `None`
    /// if there is no such entry. If the keys do not ascend, it is some entry or `None`. It makes
    /// one search, and each comparison is a tick; there are as many at most as `find_key_counted`
    /// says.
    pub fn upper_bound_counted(&self, k: &T::Key, probes: &mut Probes) -> Option<P>
        ensures bound { IsAscending T.Key.cmp T.key_of self.now
            → IsBound P.index P.generation
            (λ t. T.Key.cmp k.now (T.key_of t) ≢ Way.Less) result self.now }
        ensures live { IfSome result (λ p. Finds entry_in self.now (P.index p, P.generation p)) }
        ensures ticks { probes.new ≡ probes.old
            + comparisons (compares_past true T.Key.cmp) T.key_of k.now self.now }
        ensures few { probes.new ≤ probes.old + most_comparisons (size_in self.now) }
    {
        self.find_bound(k, true, probes)
    }

    /// The pointer to the first entry of the list whose key is greater than `k`, if the keys
    /// ascend; `None` if there is no such entry. If the keys do not ascend, it is some entry or
    /// `None`.
    pub fn upper_bound(&self, k: &T::Key) -> Option<P>
        ensures bound { IsAscending T.Key.cmp T.key_of self.now
            → IsBound P.index P.generation
            (λ t. T.Key.cmp k.now (T.key_of t) ≢ Way.Less) result self.now }
        ensures live { IfSome result (λ p. Finds entry_in self.now (P.index p, P.generation p)) }
    {
        self.upper_bound_counted(k, &mut Probes::new())
    }
}
