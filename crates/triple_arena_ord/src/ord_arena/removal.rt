//! Removals.
ghost use Rattle.std.specs.Prelude.{◌≡◌, Some, IsSome};
ghost use Rattle.std.specs.Option.{option_map};
ghost use Rattle.triple_arena_ptr.specs.Generation.{next_wraps};
ghost use Rattle.triple_arena_chain.specs.Links.{ends_in};
ghost use Rattle.triple_arena_ord.specs.Node.{nodes_in};
ghost use Rattle.triple_arena_ord.specs.Ordered.{IsOrdered, entry_in};
ghost use Rattle.triple_arena_ord.specs.Removal.{IsEntryRemoved, ended};

use crate::uprooting::take_entry;
use crate::{OrdSlots, SimpleOrdArena, SimpleOrdArenaNode};
use proof_marks::unreached;
use triple_arena::{PtrCore, PtrInxCore};
use triple_arena_chain::{ChainArena, ChainArenaTrait};

// The neighbors of an index in the list.
pub(crate) fn neighbors<P: PtrCore, T: Drop, S: OrdSlots<P, T>>(
    chains: &ChainArena<P, SimpleOrdArenaNode<P, T>, S>,
    i: P::Inx,
) -> (Option<P::Inx>, Option<P::Inx>)
    requires { IsSome (nodes_in chains.now (P.Inx.number i)) }
    ensures { ends_in chains.now (P.Inx.number i)
        ≡ Some (option_map P.Inx.number result.0, option_map P.Inx.number result.1) }
{
    match chains.get_inx_link_no_gen(i) {
        Some((_, link)) => (link.prev(), link.next()),
        None => unreached!(),
    }
}

// An end of the list leaves an index, which had this neighbor.
fn leave_end<I: PtrInxCore>(end: &mut Option<I>, gone: I, neighbor: Option<I>)
    ensures { option_map I.number end.new
        ≡ ended (option_map I.number end.old) (I.number gone) (option_map I.number neighbor) }
{
    if let Some(i) = *end {
        if i == gone {
            *end = neighbor;
        }
    }
}

impl<P: PtrCore, T: Drop, S: OrdSlots<P, T>> SimpleOrdArena<P, T, S> {
    // The entry at a live index leaves: its generation and its item, and whether the generations
    // wrapped. `prev` and `next` are its neighbors in the list.
    #[inline(always)]
    pub(crate) fn remove_live(
        &mut self,
        gone: P::Inx,
        prev: Option<P::Inx>,
        next: Option<P::Inx>,
    ) -> ((P::Gen, T), bool)
        requires live { IsSome (nodes_in self.old.chains (P.Inx.number gone)) }
        requires ends { ends_in self.old.chains (P.Inx.number gone)
            ≡ Some (option_map P.Inx.number prev, option_map P.Inx.number next) }
        ensures removed { IsEntryRemoved P.Gen.last (P.Inx.number gone) self.old self.new }
        ensures value { Some (P.Gen.number result.0.0, result.0.1)
            ≡ entry_in self.old (P.Inx.number gone) }
        ensures overflow { result.1 ≡ next_wraps P.Gen.last self.old.chains.counter }
        ensures ordered { IsOrdered self.new }
    {
        let taken = take_entry(&mut self.chains, &mut self.root, gone, next);
        leave_end(&mut self.first, gone, next);
        leave_end(&mut self.last, gone, prev);
        taken
    }
}
