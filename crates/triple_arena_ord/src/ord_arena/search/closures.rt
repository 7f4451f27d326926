//! Searches by a closure.
ghost use Rattle.std.specs.Prelude.{◌≡◌, ◌+◌, ◌≤◌, ℕ, Option};
ghost use Rattle.std.specs.declared.cmp.Ordering.{Ordering as Way};
ghost use Rattle.rank_tree.specs.Comparisons.{most_comparisons};
ghost use Rattle.rank_tree.specs.Tree.{rank_of};
ghost use Rattle.triple_arena_ord.specs.Asked.{IsAsked, found_by, IsWithinBound};
ghost use Rattle.triple_arena_ord.specs.Ordered.{IsOrdered, tree_in, order_in, entry_in, size_in};
ghost use Rattle.triple_arena_ord.specs.Found.{IsFoundByAnswers, IsSimilarByAnswers};

use crate::asks::ask_down;
use crate::{OrdSlots, SimpleOrdArena};
use std::cmp::Ordering;
use triple_arena::PtrCore;
use triple_arena_ptr::Probes;

impl<P: PtrCore, T: Drop, S: OrdSlots<P, T>> SimpleOrdArena<P, T, S> {
    /// Asks `f` at entries, with the pointer and the item: `Less` leads to the entries before it,
    /// `Greater` to those after it, and `Equal` ends the search, as does a gap between entries that
    /// were asked. It returns the last entry that was asked, with the answer; `None` if there is no
    /// entry. Each question is a tick, and there are no more than the rank of the root, and so no
    /// more than `find_key_counted` says.
    ///
    /// If the answers depend on pointer and item alone, in each state that `f` comes to from this
    /// one, and go from `Greater` over `Equal` to `Less` along the list, the entry is one at which
    /// `f` answers `Equal`, or else one beside the gap. So `f` may capture what it keeps, as
    /// a key.
    pub fn find_similar_with_counted<F>(
        &self,
        mut f: F,
        probes: &mut Probes,
    ) -> Option<(P, Ordering)>
    where
        F: FnMut(P, &T) -> Ordering,
        requires { F.IsAlwaysCallable f }
        ensures asked { IsAsked P.index P.generation F.step (entry_in self.now)
            (order_in self.now) f result probes.old probes.new }
        ensures similar { IsSimilarByAnswers P.index P.generation F.step f result self.now }
        ensures rank { probes.new ≤ probes.old + rank_of (tree_in self.now) }
        ensures bound { probes.new ≤ probes.old + most_comparisons (size_in self.now) }
        ensures ordered { IsOrdered self.now }
    {
        self.find_similar_by_counted(&mut f, probes)
    }

    /// Asks a closure that is borrowed, in the way of `find_similar_with_counted`. The closure is
    /// left in the state that its last answer left, so that what it noted of the questions is
    /// known.
    pub fn find_similar_by_counted<F>(
        &self,
        f: &mut F,
        probes: &mut Probes,
    ) -> Option<(P, Ordering)>
    where
        F: FnMut(P, &T) -> Ordering,
        requires { F.IsAlwaysCallable f.old }
        ensures asked { (asked : IsAsked P.index P.generation F.step (entry_in self.now)
            (order_in self.now) f.old result probes.old probes.new)
            × (asked.last ≡ f.new) }
        ensures similar { IsSimilarByAnswers P.index P.generation F.step f.old result self.now }
        ensures rank { probes.new ≤ probes.old + rank_of (tree_in self.now) }
        ensures bound { probes.new ≤ probes.old + most_comparisons (size_in self.now) }
        ensures ordered { IsOrdered self.now }
    {
        ask_down(&self.chains, self.root, f, probes)
    }

    /// Asks `f` at entries, in the way of `find_similar_with_counted` but with no count, and
    /// returns the last entry that was asked, with the answer; `None` if there is no entry.
    pub fn find_similar_with<F>(&self, f: F) -> Option<(P, Ordering)>
    where
        F: FnMut(P, &T) -> Ordering,
        requires { F.IsAlwaysCallable f }
        ensures asked { (ticks : ℕ) × IsAsked P.index P.generation F.step (entry_in self.now)
            (order_in self.now) f result 0 ticks × IsWithinBound ticks self.now }
        ensures similar { IsSimilarByAnswers P.index P.generation F.step f result self.now }
    {
        self.find_similar_with_counted(f, &mut Probes::new())
    }

    /// Asks `f` at entries, in the way of `find_similar_with_counted`, and returns the entry at
    /// which it answered `Equal`, or `None`. If its answers are as said there, `None` means that
    /// `f` answers `Equal` at no entry.
    pub fn find_with_counted<F>(&self, f: F, probes: &mut Probes) -> Option<P>
    where
        F: FnMut(P, &T) -> Ordering,
        requires { F.IsAlwaysCallable f }
        ensures asked { (last : Option (P × Way))
            × IsAsked P.index P.generation F.step (entry_in self.now)
            (order_in self.now) f last probes.old probes.new
            × (result ≡ found_by last) }
        ensures found { IsFoundByAnswers P.index P.generation F.step f result self.now }
        ensures rank { probes.new ≤ probes.old + rank_of (tree_in self.now) }
        ensures bound { probes.new ≤ probes.old + most_comparisons (size_in self.now) }
    {
        match self.find_similar_with_counted(f, probes) {
            Some(last) => match last.1 {
                Ordering::Equal => Some(last.0),
                _ => None,
            },
            None => None,
        }
    }

    /// Asks `f` at entries, in the way of `find_similar_with_counted` but with no count, and
    /// returns the entry at which it answered `Equal`, or `None`. If its answers are as said there,
    /// `None` means that `f` answers `Equal` at no entry.
    pub fn find_with<F>(&self, f: F) -> Option<P>
    where
        F: FnMut(P, &T) -> Ordering,
        requires { F.IsAlwaysCallable f }
        ensures asked { (ticks : ℕ) × (last : Option (P × Way))
            × IsAsked P.index P.generation F.step (entry_in self.now) (order_in self.now) f last 0
            ticks × (result ≡ found_by last) × IsWithinBound ticks self.now }
        ensures found { IsFoundByAnswers P.index P.generation F.step f result self.now }
    {
        self.find_with_counted(f, &mut Probes::new())
    }
}
