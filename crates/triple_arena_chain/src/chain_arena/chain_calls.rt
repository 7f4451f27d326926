//! The calls of a `ChainArena` on its links.
ghost use Rattle.std.specs.Prelude.{refl};

use crate::chain_arena::interlinks::{follow, part};
use crate::chain_iterators::ChainPtrAdvancer;
use crate::{ChainArena, ChainArenaTrait, ChainSlots, Link, LinkInsertKind, LinkNoGen};
use triple_arena::{ArenaTrait, InvalidationResult, PtrCore, PtrInxCore};
use triple_arena_ptr::ChainInsertionError;

impl<P: PtrCore, T: Drop, S: ChainSlots<P, T>> ChainArenaTrait<P, T> for ChainArena<P, T, S> {
    type ChainAdvancer = ChainPtrAdvancer<P>;

    ghost links = { λ a. a };

    ghost chain_walk = { λ a. a };

    ghost links_entries = { λ c i. refl };

    ghost links_live = { λ c. refl };

    ghost links_counter = { λ c. refl };

    ghost links_room = { λ c. refl };

    ghost links_chained = { λ c chained. chained };

    ghost advances_along = { λ before c given after step. step };

    ghost links_empty = { λ room. refl };

    ghost links_reallocated = { λ c n. refl };

    ghost links_with_value = { λ c i t. refl };

    ghost links_removed = { λ c i new is. is };

    ghost links_invalidated = { λ c i. refl };

    ghost links_cleared = { λ c. refl };

    ghost links_compressed = { λ c reset values new compacted. compacted };

    fn get_link_no_gen(&self, p: P) -> Option<&LinkNoGen<P, T>> {
        self.arena.get(p)
    }

    fn get_inx_link_no_gen(&self, i: P::Inx) -> Option<(P::Gen, &LinkNoGen<P, T>)> {
        self.arena.get_inx(i)
    }

    fn get_link(&self, p: P) -> Option<Link<P, &T>> {
        match self.arena.get(p) {
            Some(link) => Some(Link::new(
                (self.ptr_at(link.prev()), self.ptr_at(link.next())),
                &link.t,
            )),
            None => None,
        }
    }

    fn are_neighbors(&self, p: P, q: P) -> bool {
        match self.ends_of(p) {
            Some((_, Some(next))) => next == q.inx() && self.arena.get(q).is_some(),
            _ => false,
        }
    }

    fn are_neighbors_inx(&self, i: P::Inx, j: P::Inx) -> bool {
        match self.ends_at(i) {
            Some((_, Some(next))) => next == j,
            _ => false,
        }
    }

    fn meets(&self, kind: &LinkInsertKind<P>) -> bool {
        self.gap(*kind).is_some()
    }

    fn advancer_chain(&self, p: P) -> Option<ChainPtrAdvancer<P>> {
        match self.arena.get(p) {
            Some(_) => Some(ChainPtrAdvancer::from(p)),
            None => None,
        }
    }

    #[inline(always)]
    fn insert_lent_within_capacity(
        &mut self,
        kind: &LinkInsertKind<P>,
        t: T,
    ) -> Result<P, ChainInsertionError> {
        // The interlinks agree.
        self.recall_chained();
        let Some(gap) = self.gap(*kind) else {
            return Err(ChainInsertionError::FailedLinkRequirement);
        };
        if self.has_room() {
            Ok(self.put(gap, t))
        } else {
            Err(ChainInsertionError::NotWithinCapacity)
        }
    }

    #[inline(always)]
    fn insert_lent_reallocating(
        &mut self,
        kind: &LinkInsertKind<P>,
        t: T,
    ) -> Result<P, ChainInsertionError> {
        let (gap, _) = self.gap_reallocating(*kind)?;
        Ok(self.put(gap, t))
    }

    fn connect(&mut self, p: P, q: P) -> Option<()> {
        // The interlinks agree.
        self.recall_chained();
        let Some(_) = self.gap(LinkInsertKind::Bridge(p, q)) else {
            return None;
        };
        let i = p.inx();
        let j = q.inx();
        follow(&mut self.arena, Some(i), Some(j));
        Some(())
    }

    fn break_next(&mut self, p: P) -> Option<()> {
        // The interlinks agree.
        self.recall_chained();
        let Some((_, Some(next))) = self.ends_of(p) else {
            return None;
        };
        part(&mut self.arena, p.inx(), next);
        Some(())
    }

    fn break_prev(&mut self, p: P) -> Option<()> {
        // The interlinks agree.
        self.recall_chained();
        let Some((Some(prev), _)) = self.ends_of(p) else {
            return None;
        };
        part(&mut self.arena, prev, p.inx());
        Some(())
    }

    fn exchange_next(&mut self, p: P, q: P) -> Option<()> {
        // The interlinks agree.
        self.recall_chained();
        let Some((_, Some(s))) = self.ends_of(p) else {
            return None;
        };
        let Some((_, Some(t))) = self.ends_of(q) else {
            return None;
        };
        let i = p.inx();
        let j = q.inx();
        follow(&mut self.arena, Some(i), Some(t));
        follow(&mut self.arena, Some(j), Some(s));
        Some(())
    }

    #[inline(always)]
    fn remove_link_no_gen(&mut self, p: P) -> InvalidationResult<LinkNoGen<P, T>> {
        // The interlinks agree.
        self.recall_chained();
        if self.arena.get(p).is_none() {
            return InvalidationResult::InvalidPtr;
        }
        let ((_, link), wrapped) = self.take_inx_link_unwrap(p.inx());
        if wrapped {
            InvalidationResult::GenerationOverflow(link)
        } else {
            InvalidationResult::Success(link)
        }
    }

    #[inline(always)]
    fn remove_inx_link_no_gen(
        &mut self,
        i: P::Inx,
    ) -> InvalidationResult<(P::Gen, LinkNoGen<P, T>)> {
        // The interlinks agree.
        self.recall_chained();
        if self.arena.get_inx(i).is_none() {
            return InvalidationResult::InvalidPtr;
        }
        let (entry, wrapped) = self.take_inx_link_unwrap(i);
        if wrapped {
            InvalidationResult::GenerationOverflow(entry)
        } else {
            InvalidationResult::Success(entry)
        }
    }
}
