//! Walks along a chain.
ghost use Rattle.std.specs.Prelude.{◌≡◌, ℕ, Some};
ghost use Rattle.std.specs.Option.{option_map};
ghost use Rattle.triple_arena.specs.LiveEntries.{live_entries};
ghost use Rattle.linked_lists.specs.LinkedLists.{prev_at};
ghost use Rattle.triple_arena_chain.specs.Links.{ends_in, values_in};
ghost use Rattle.triple_arena_chain.specs.Walks.{walk_from, left_to, past_index, ChainSteps};

use crate::chain_iterators::IterLinkNoGen;
use crate::{ChainArena, ChainSlots};
use std::marker::Model;
use triple_arena::{Advancer, ArenaTrait, PtrCore, PtrInxCore};
use triple_arena_ptr::OptionalInx;

/// Gives the pointers to the links of a chain, one a call: from a link on to the end and then
/// backwards from the link before it, or once round a ring. The links are free between the calls.
///
/// With each link it notes the index that comes next, and later gives what is live there. If
/// nothing is, it ends. Over links that stay it ends always. A ring whose first link is removed
/// during the walk is gone round without an end. A walk from the middle of a list goes back from
/// the index where it began: from the link that lives there by then, perhaps in another chain, or
/// nowhere if none does.
#[derive(Drop)]
pub struct ChainPtrAdvancer<P: PtrCore> {
    // Where the walk began.
    start: P,
    // The index that comes next.
    at: OptionalInx<P::Inx, <P::Inx as PtrInxCore>::Word>,
    back: bool,
}

impl<P: PtrCore> Model for ChainPtrAdvancer<P> {
    ghost use Rattle.triple_arena_chain.specs.Walks.{ChainWalk};

    ghost Value = { ChainWalk };

    ghost view = { λ a. record {
      start = P.index a.start;
      at = a.at;
      back = a.back;
    } };
}

impl<P: PtrCore> ChainPtrAdvancer<P> {
    // The walk that begins at a pointer.
    pub(crate) fn from(p: P) -> Self
        ensures { result ≡ walk_from (P.index p) }
    {
        ChainPtrAdvancer {
            start: p,
            at: OptionalInx::some(p.inx()),
            back: false,
        }
    }

    // Goes on from a link with these neighbors, which it gave.
    fn go_on<T: Drop, S: ChainSlots<P, T>>(
        &mut self,
        chains: &ChainArena<P, T, S>,
        prev: OptionalInx<P::Inx, <P::Inx as PtrInxCore>::Word>,
        next: OptionalInx<P::Inx, <P::Inx as PtrInxCore>::Word>,
    )
        ensures { (i : ℕ) → ends_in chains.now i ≡ Some (prev, next)
            → self.new ≡ past_index (ends_in chains.now) self.old i }
    {
        let start = self.start.inx();
        if self.back {
            self.at = prev;
        } else if next.get() == Some(start) {
            self.at = OptionalInx::none();
        } else if next.is_none() {
            self.at = OptionalInx::of(chains.prev_of(start));
            self.back = true;
        } else {
            self.at = next;
        }
    }
}

impl<P: PtrCore, T: Drop, S: ChainSlots<P, T>> Advancer<ChainArena<P, T, S>>
    for ChainPtrAdvancer<P> {
    type Item = P;

    ghost remaining = { λ a _. left_to a.at };

    ghost advance_gives = { λ before c given after. ChainSteps (ends_in c)
        (values_in c)
        before (option_map (λ p. (P.index p, P.generation p)) given) after };

    fn advance(&mut self, chains: &ChainArena<P, T, S>) -> Option<P> {
        let i = self.at.get()?;
        match chains.arena.get_inx(i) {
            Some((generation, link)) => {
                self.go_on(chains, link.prev, link.next);
                Some(P::_from_raw(i, generation))
            }
            None => {
                self.at = OptionalInx::none();
                None
            }
        }
    }

    fn empty() -> Self {
        ChainPtrAdvancer {
            start: P::invalid(),
            at: OptionalInx::none(),
            back: false,
        }
    }
}

impl<P: PtrCore, T: Drop, S: ChainSlots<P, T>> ChainArena<P, T, S> {
    // The previous index of the link at an index.
    pub(crate) fn prev_of(&self, i: P::Inx) -> Option<P::Inx>
        ensures { option_map P.Inx.number result ≡ prev_at (ends_in self.now) (P.Inx.number i) }
    {
        match self.ends_at(i) {
            Some((prev, _)) => prev,
            None => None,
        }
    }

    /// The pointers and the links, in the order of the indexes.
    pub fn iter_link_no_gen(&self) -> IterLinkNoGen<'_, P, T>
        ensures { result ≡ live_entries self.now }
    {
        self.arena.iter()
    }
}
