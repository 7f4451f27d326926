//! Going over one chain of an arena that is borrowed for reading.
ghost use Rattle.std.specs.Prelude.{◌≡◌, ◌↔◌, ℕ, List, Option, Some, None, IsSome, IfSome};
ghost use Rattle.std.specs.Iterator.{YieldsFirstBy, item_count};
ghost use Rattle.std.specs.Option.{option_map};
ghost use Rattle.triple_arena.specs.Content.{get, entry_at};
ghost use Rattle.linked_lists.specs.LinkedLists.{Ends};
ghost use Rattle.triple_arena_chain.specs.IterChains.{lent_walk, settled, links_along};
ghost use Rattle.triple_arena_chain.specs.Links.{ends_in};
ghost use Rattle.triple_arena_chain.specs.Walks.{past_index, IsWalkFrom};

use crate::{ChainArena, ChainArenaTrait, ChainSlots, LinkNoGen};
use proof_marks::unreached;
use std::iter::FusedIterator;
use std::marker::Model;
use triple_arena::{ArenaTrait, PtrCore, PtrInxCore};
use triple_arena_ptr::OptionalInx;

/// The pointers and the links of one chain, from a link on to the end and then backwards from the
/// link before it, or once round a ring: seen as the list of the entries that are left.
#[derive(Drop)]
pub struct IterChain<'a, P: PtrCore, T: Drop, S: ChainSlots<P, T>>
where
    P::Inx: 'a,
    <P::Inx as PtrInxCore>::Word: 'a,
{
    chains: &'a ChainArena<P, T, S>,
    // Where the walk began, as long as it goes on, and does not go back.
    start: OptionalInx<P::Inx, <P::Inx as PtrInxCore>::Word>,
    // The index that comes next. At the end of a list there is none, until the walk turns.
    at: OptionalInx<P::Inx, <P::Inx as PtrInxCore>::Word>,
}

impl<'a, P: PtrCore, T: Drop, S: ChainSlots<P, T>> Model for IterChain<'a, P, T, S>
where
    P::Inx: 'a,
    <P::Inx as PtrInxCore>::Word: 'a,
{
    ghost use Rattle.std.specs.Prelude.{ℕ, List};
    ghost use Rattle.std.specs.Option.{option_map};
    ghost use Rattle.triple_arena.specs.Content.{entry_at};
    ghost use Rattle.triple_arena_chain.specs.LinkShape.{IndexLink};
    ghost use Rattle.triple_arena_chain.specs.IterChains.{lent_walk, links_along};
    ghost use Rattle.triple_arena_chain.specs.Links.{ends_in};
    ghost use Rattle.triple_arena_chain.specs.Walks.{left_over, IsEnding};

    ghost Value = { List (ℕ × (ℕ × IndexLink T)) };

    ghost view = { λ it. links_along (entry_at it.chains.now)
        (left_over it.chains.now (lent_walk (ends_in it.chains.now)
        it.start it.at)) };

    ghost invariant = { λ it. IsEnding it.chains.now
        (lent_walk (ends_in it.chains.now)
        it.start it.at) };
}

// Where a walk that began there goes on from a link with these neighbors. With it comes where the
// walk began, as long as it goes on.
#[inline(always)]
fn onward<I: PtrInxCore<Word = W>, W: Copy + Drop>(
    start: OptionalInx<I, W>,
    prev: OptionalInx<I, W>,
    next: OptionalInx<I, W>,
) -> (OptionalInx<I, W>, OptionalInx<I, W>)
    ensures { (ends : ℕ → Option Ends) (i : ℕ)
        → ends i ≡ Some (prev, next)
        → lent_walk ends result.0 result.1
        ≡ settled (past_index ends (lent_walk ends start (Some i)) i) }
{
    let to = if start.is_none() { prev } else { next };
    if to.get() == start.get() {
        (OptionalInx::none(), OptionalInx::none())
    } else {
        (start, to)
    }
}

impl<P: PtrCore, T: Drop, S: ChainSlots<P, T>> ChainArena<P, T, S> {
    // The same place of a walk, which has turned at the end of a list.
    #[inline(always)]
    fn turned(
        &self,
        start: OptionalInx<P::Inx, <P::Inx as PtrInxCore>::Word>,
        at: OptionalInx<P::Inx, <P::Inx as PtrInxCore>::Word>,
    ) -> (
        OptionalInx<P::Inx, <P::Inx as PtrInxCore>::Word>,
        OptionalInx<P::Inx, <P::Inx as PtrInxCore>::Word>,
    )
        ensures same { lent_walk (ends_in self.now) result.0 result.1 ≡ lent_walk (ends_in self.now)
            start at }
        ensures over { result.1 ≡ None → result.0 ≡ None }
    {
        if !at.is_none() {
            return (start, at);
        }
        match start.get() {
            Some(start) => (OptionalInx::none(), OptionalInx::of(self.prev_of(start))),
            None => (start, at),
        }
    }
}

impl<'a, P: PtrCore, T: Drop, S: ChainSlots<P, T>> Iterator for IterChain<'a, P, T, S>
where
    P::Inx: 'a,
    <P::Inx as PtrInxCore>::Word: 'a,
{
    type Item = (P, &'a LinkNoGen<P, T>);

    ghost next_gives = { YieldsFirstBy (λ e. (P.index e.0, (P.generation e.0, e.1.now)))
        (λ left. left) };

    ghost remaining = { item_count (λ left. left) };

    fn next(&mut self) -> Option<(P, &'a LinkNoGen<P, T>)> {
        let chains = self.chains;
        let (start, at) = chains.turned(self.start, self.at);
        let i = at.get()?;
        match chains.arena.get_inx(i) {
            Some((generation, link)) => {
                let (start, at) = onward(start, link.prev, link.next);
                self.start = start;
                self.at = at;
                Some((P::_from_raw(i, generation), link))
            }
            None => unreached!(),
        }
    }
}

impl<'a, P: PtrCore, T: Drop, S: ChainSlots<P, T>> FusedIterator for IterChain<'a, P, T, S>
where
    P::Inx: 'a,
    <P::Inx as PtrInxCore>::Word: 'a,
{}

impl<P: PtrCore, T: Drop, S: ChainSlots<P, T>> ChainArena<P, T, S> {
    /// The links of the chain of `p`, in the order of a walk from `p`, or `None` if `p` is invalid.
    #[tactic(auto, using(crate::specs::WalkLaws::walks))]
    pub fn iter_chain(&self, p: P) -> Option<IterChain<'_, P, T, S>>
        ensures variant { IsSome result ↔ IsSome (get self.now (P.index p) (P.generation p)) }
        ensures along { IfSome result (λ it. (walk : List ℕ)
            × IsWalkFrom (ends_in self.now) (P.index p) walk
            × (it ≡ links_along (entry_at self.now) walk)) }
    {
        let _ = self.advancer_chain(p)?;
        let start = OptionalInx::some(p.inx());
        Some(IterChain {
            chains: self,
            start,
            at: start,
        })
    }
}
