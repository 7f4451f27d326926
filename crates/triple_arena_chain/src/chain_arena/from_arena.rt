//! Arenas of links that become chain arenas.
ghost use Rattle.std.specs.Prelude.{◌≡◌, ◌↔◌, ℕ, Some, IsTrue, IsOk, IsSome, IfOk, IfErr, IfNone};
ghost use Rattle.std.specs.Prelude.{OnSome};
ghost use Rattle.std.specs.Option.{option_map};
ghost use Rattle.triple_arena.specs.Content.{IsWellFormed};
ghost use Rattle.linked_lists.specs.LinkedLists.{IsAgreed, next_at, prev_at};
ghost use Rattle.triple_arena_chain.specs.Links.{ends_in, IsChained};

use crate::chain_arena::canonical_layout::is_same;
use crate::chain_arena::interlinks::recall_formed;
use crate::{ChainArena, ChainSlots, LinkNoGen};
use std::mem;
use triple_arena::{Advancer, Arena, ArenaTrait, PtrCore};

// Whether there is no link at `at`, or one whose previous link is at `i`.
fn goes_back<P: PtrCore, T: Drop, S: ChainSlots<P, T>>(
    arena: &Arena<P, LinkNoGen<P, T>, S>,
    at: Option<P::Inx>,
    i: P::Inx,
) -> bool
    ensures { IsTrue result ↔ ((q : ℕ) → option_map P.Inx.number at ≡ Some q
        → prev_at (ends_in arena.now) q ≡ Some (P.Inx.number i)) }
{
    match at {
        Some(at) => match arena.get_inx(at) {
            Some((_, link)) => is_same(link.prev(), i),
            None => false,
        },
        None => true,
    }
}

// Whether there is no link at `at`, or one whose next is at `i`.
fn goes_on<P: PtrCore, T: Drop, S: ChainSlots<P, T>>(
    arena: &Arena<P, LinkNoGen<P, T>, S>,
    at: Option<P::Inx>,
    i: P::Inx,
) -> bool
    ensures { IsTrue result ↔ ((p : ℕ) → option_map P.Inx.number at ≡ Some p
        → next_at (ends_in arena.now) p ≡ Some (P.Inx.number i)) }
{
    match at {
        Some(at) => match arena.get_inx(at) {
            Some((_, link)) => is_same(link.next(), i),
            None => false,
        },
        None => true,
    }
}

impl<P: PtrCore, T: Drop, S: ChainSlots<P, T>> ChainArena<P, T, S> {
    /// Whether the interlinks of these links agree both ways: what a link names as its next is live
    /// and names it as its previous link, and what it names as its previous link is live and names
    /// it as its next.
    pub fn interlinks_agree(arena: &Arena<P, LinkNoGen<P, T>, S>) -> bool
        ensures { IsTrue result ↔ IsAgreed (ends_in arena.now) }
    {
        let mut links = arena.advancer();
        while let Some(p) = links.advance(arena) {
            if let Some(link) = arena.get(p) {
                if !goes_back(arena, link.next(), p.inx())
                    || !goes_on(arena, link.prev(), p.inx())
                {
                    return false;
                }
            }
        }
        true
    }

    /// The chain arena of these links, or the arena back if `interlinks_agree` refuses it.
    pub fn from_arena(
        arena: Arena<P, LinkNoGen<P, T>, S>,
    ) -> Result<Self, Arena<P, LinkNoGen<P, T>, S>>
        ensures variant { IsOk result ↔ IsAgreed (ends_in arena) }
        ensures ok { IfOk result (λ chains. chains ≡ arena) }
        ensures formed { IfOk result (λ chains. IsChained chains) }
        ensures err { IfErr result (λ refused. refused ≡ arena) }
    {
        // The arena is well-formed.
        recall_formed(&arena);
        if Self::interlinks_agree(&arena) {
            Ok(ChainArena { arena })
        } else {
            Err(arena)
        }
    }

    /// Exchanges the links of this arena and those of `arena`, if `interlinks_agree` accepts them.
    /// Else it returns `None`, and both stay as they are.
    pub fn exchange_arena(&mut self, arena: &mut Arena<P, LinkNoGen<P, T>, S>) -> Option<()>
        ensures variant { IsSome result ↔ IsAgreed (ends_in arena.old) }
        ensures some { OnSome result ((self.new ≡ arena.old) × (arena.new ≡ self.old)) }
        ensures none { IfNone result ((self.new ≡ self.old) × (arena.new ≡ arena.old)) }
        ensures formed { IsChained self.new }
        ensures arena_formed { IsWellFormed arena.new }
    {
        // The interlinks agree, and the other arena is well-formed.
        self.recall_chained();
        recall_formed(arena);
        if !Self::interlinks_agree(arena) {
            return None;
        }
        mem::swap(&mut self.arena, arena);
        Some(())
    }
}
