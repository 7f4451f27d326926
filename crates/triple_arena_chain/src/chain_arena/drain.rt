//! Taking a chain out of an arena.
ghost use Rattle.std.specs.Prelude.{◌≡◌, ◌↔◌, None, Some, IsSome, IfSome, IfNone};
ghost use Rattle.std.specs.Borrow.{sem, RestsIfNone};
ghost use Rattle.std.specs.Iterator.{at_most};
ghost use Rattle.std.specs.Option.{option_map};
ghost use Rattle.triple_arena.specs.Content.{get, entry_at, live_count};
ghost use Rattle.triple_arena_chain.specs.Kinds.{ends_by};
ghost use Rattle.triple_arena_chain.specs.Links.{IsChained};
ghost use Rattle.triple_arena_chain.specs.Drains.{next_or_prev, drain_chains, drain_lender};
ghost use Rattle.triple_arena_chain.specs.Drains.{drain_at, IsRestDrained, IsStep, DrainCanStep};
ghost use Rattle.triple_arena_chain.specs.Drains.{DrainLeaves, DrainSteps, DrainKeepsAlong};
ghost use Rattle.triple_arena_chain.specs.Drains.{DrainGoesAlong};

use crate::{ChainArena, ChainArenaTrait, ChainSlots, LinkNoGen};
use std::iter::FusedIterator;
use triple_arena::{InvalidationOption, PtrCore, PtrInxCore};

/// Takes the links of one chain out of an arena: from a link on to the end and then backwards from
/// the link before it, or once round a ring.
///
/// Each item is one removal, which joins the neighbors and steps the counter; it is
/// `GenerationOverflow` if that step wrapped. If the iterator is dropped, at whatever item, it
/// takes those of the chain that are left in the same way. All other chains stay.
pub struct ChainDrain<'a, P: PtrCore, T: Drop, S: ChainSlots<P, T>> {
    chains: &'a mut ChainArena<P, T, S>,
    // The link that goes next.
    at: Option<P::Inx>,
}

// Where a walk goes on from a link with these neighbors, once the link is gone: to its next, or at
// the end of the chain to its previous one, which is the end then.
fn onward<I: PtrInxCore>(i: I, own: (Option<I>, Option<I>)) -> Option<I>
    ensures { option_map I.number result ≡ next_or_prev (I.number i) (ends_by I.number own) }
{
    let next = match own.1 {
        Some(next) => Some(next),
        None => own.0,
    };
    match next {
        Some(j) => { if j == i { None } else { Some(j) } }
        None => None,
    }
}

impl<P: PtrCore, T: Drop, S: ChainSlots<P, T>> ChainArena<P, T, S> {
    ghost use Rattle.triple_arena_chain.specs.contracts.chain_arena.ChainArena.{the_row};

    /// Takes the links of the chain of `p` out, in the order of a walk from `p`. It returns `None`,
    /// and changes nothing, if `p` is invalid.
    ///
    /// Once the iterator is dropped, after any number of items, the whole chain is gone, and all
    /// other chains stay.
    pub fn drain_chain(&mut self, p: P) -> Option<ChainDrain<'_, P, T, S>>
        ensures variant { IsSome result ↔ IsSome (get self.old (P.index p) (P.generation p)) }
        ensures same_reference { IfSome result (λ d. drain_lender d ≡ self.entry.ghost_name) }
        ensures chains { IfSome result (λ d. drain_chains d ≡ self.old) }
        ensures start { IfSome result (λ d. drain_at P.Inx.number d ≡ Some (P.index p)) }
        ensures ready { IfSome result (λ d. DrainCanStep P.Inx.number d) }
        ensures stays { IfSome result
            (λ d. DrainKeepsAlong P.Inx.number P.Gen.last P.index P.generation d) }
        ensures in_order { IfSome result
            (λ d. DrainGoesAlong P.Inx.number P.Gen.last P.index P.generation d) }
        ensures* none { sem 𝓛 (RestsIfNone
            (the_row P.row T.row S.row P.Inx.row P.Gen.row P.Inx.Word.row S.Alloc.row
            P.PtrCore P.Inx.PtrInxCore.own P.Inx.PartialEq P.Gen.PtrGenCore.own P.Gen.PartialEq
            S.NonZeroInxGenericStack) self.entry drain_lender result (λ a. a ≡ self.old)) }
    {
        // The interlinks agree.
        self.recall_chained();
        if self.ends_of(p).is_none() {
            return None;
        }
        Some(ChainDrain {
            at: Some(p.inx()),
            chains: self,
        })
    }

    // Removes the link at `i`, if it is live, and tells where a walk goes on.
    fn take_first(
        &mut self,
        i: P::Inx,
    ) -> Option<(InvalidationOption<(P, LinkNoGen<P, T>)>, Option<P::Inx>)>
        ensures variant { IsSome result ↔ IsSome (entry_at self.old (P.Inx.number i)) }
        ensures step { IfSome result (λ r. IsStep P.Gen.last P.index P.generation
            (P.Inx.number i) r.0 (option_map P.Inx.number r.1) self.old self.new) }
        ensures none { IfNone result (self.new ≡ self.old) }
    {
        // The interlinks agree.
        self.recall_chained();
        let ((generation, link), wrapped) = self.remove_inx_link_no_gen(i).overflowing()?;
        let next = onward(i, link.prev_next());
        let item = (P::_from_raw(i, generation), link);
        if wrapped {
            Some((InvalidationOption::GenerationOverflow(item), next))
        } else {
            Some((InvalidationOption::Success(item), next))
        }
    }

    // Removes the links of the walk from `at`.
    fn take_rest(&mut self, at: Option<P::Inx>)
        ensures { IsRestDrained P.Gen.last (option_map P.Inx.number at) self.old self.new }
    {
        let mut at = at;
        while let Some(i) = at {
            let Some((item, next)) = self.take_first(i) else {
                return;
            };
            drop(item);
            at = next;
        }
    }
}

impl<'a, P: PtrCore, T: Drop, S: ChainSlots<P, T>> Drop for ChainDrain<'a, P, T, S> {
    fn drop(self)
        ensures leaves { DrainLeaves P.Inx.number P.Gen.last self.entry self.exit.0.now }
        ensures formed { IsChained self.exit.0.now }
    {
        let ChainDrain { chains, at } = self;
        chains.take_rest(at);
        // The interlinks agree.
        chains.recall_chained();
    }
}

impl<'a, P: PtrCore, T: Drop, S: ChainSlots<P, T>> Iterator for ChainDrain<'a, P, T, S> {
    type Item = InvalidationOption<(P, LinkNoGen<P, T>)>;

    ghost can_next = { DrainCanStep P.Inx.number };

    ghost next_gives = { DrainSteps P.Inx.number P.Gen.last P.index P.generation };

    ghost remaining = { λ d. at_most (live_count (drain_chains d)) };

    fn next(&mut self) -> Option<InvalidationOption<(P, LinkNoGen<P, T>)>> {
        let i = self.at?;
        let (item, next) = self.chains.take_first(i)?;
        self.at = next;
        Some(item)
    }
}

impl<'a, P: PtrCore, T: Drop, S: ChainSlots<P, T>> FusedIterator for ChainDrain<'a, P, T, S> {}
