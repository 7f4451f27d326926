//! Room for one link more, which tells its pointer before the value is there.
ghost use Rattle.std.specs.Prelude.{◌≡◌, ◌<◌, ◌↔◌, IsSome, IfSome};
ghost use Rattle.std.specs.Borrow.{sem, RestsIfErr};
ghost use Rattle.triple_arena.specs.Content.{live_count, arena_capacity, next_index, grown_if_full};
ghost use Rattle.triple_arena_chain.specs.InsertEntry.{entry_chains, entry_lender, entry_gap};
ghost use Rattle.triple_arena_chain.specs.InsertEntry.{IsReady, IsEntryFor, IsLinkAnswer};
ghost use Rattle.triple_arena_chain.specs.InsertEntry.{IsLinkRefusal};
ghost use Rattle.triple_arena_chain.specs.Links.{gap_among, IsChained, IsLinkInserted};

use crate::gap::Gap;
use crate::{ChainArena, ChainSlots, LinkInsertKind};
use triple_arena::{ArenaInsertEntryTrait, ArenaTrait, PtrCore};
use triple_arena_ptr::ChainInsertionError;

/// Room for one link more, in a gap. Dropped unused, it leaves the links as they are.
#[derive(Drop)]
pub struct ChainArenaInsertEntry<'a, P: PtrCore, T: Drop, S: ChainSlots<P, T>> {
    chains: &'a mut ChainArena<P, T, S>,
    gap: Gap<P::Inx>,
    ptr: P,
}

impl<'a, P: PtrCore, T: Drop, S: ChainSlots<P, T>> ArenaInsertEntryTrait<P, T>
    for ChainArenaInsertEntry<'a, P, T, S> {
    ghost index = { λ e. next_index (entry_chains e) };

    ghost generation = { λ e. (entry_chains e).counter };

    ghost has_room = { λ e. IsReady P.Inx.number P.index P.generation e };

    fn ptr(&self) -> P {
        self.ptr
    }

    fn insert(self, t: T) -> P
        requires { IsReady P.Inx.number P.index P.generation self }

        // `self.exit.0.now` are the links as they are left.
        ensures inserted { IsLinkInserted (entry_gap P.Inx.number self.entry) (P.index result)
            (P.generation result) t (entry_chains self.entry) self.exit.0.now }
        ensures formed { IsChained self.exit.0.now }
        ensures room { self.exit.0.now.room ≡ (entry_chains self.entry).room }
    {
        let ChainArenaInsertEntry {
            chains,
            gap,
            ptr: _,
        } = self;
        chains.put(gap, t)
    }
}

impl<P: PtrCore, T: Drop, S: ChainSlots<P, T>> ChainArena<P, T, S> {
    ghost use Rattle.triple_arena_chain.specs.contracts.chain_arena.ChainArena.{the_row};

    /// The pointer that the next insertion gives, if there is room for one link more.
    pub fn next_ptr(&self) -> Option<P>
        ensures variant { IsSome result ↔ (live_count self.now < arena_capacity self.now) }
        ensures has_index { IfSome result (λ p. P.index p ≡ next_index self.now) }
        ensures has_generation { IfSome result (λ p. P.generation p ≡ self.now.counter) }
    {
        if self.arena.len() < self.arena.capacity() {
            Some(self.arena.next_ptr())
        } else {
            None
        }
    }

    /// Room for one link more, if there is some. It returns `FailedLinkRequirement` if the links
    /// are not as the kind requires, and else `NotWithinCapacity` if there is no room. The links
    /// stay as they are then.
    pub fn entry_insert_within_capacity(
        &mut self,
        kind: LinkInsertKind<P>,
    ) -> Result<ChainArenaInsertEntry<'_, P, T, S>, ChainInsertionError>
        ensures answer { IsLinkAnswer (gap_among P.index P.generation P.Inx.number self.old kind)
            (live_count self.old) (arena_capacity self.old) result }
        ensures entry { IsEntryFor P.Inx.number P.index P.generation kind self.entry.ghost_name
            self.old self.old result }
        ensures* err { sem 𝓛 (RestsIfErr
            (the_row P.row T.row S.row P.Inx.row P.Gen.row P.Inx.Word.row S.Alloc.row
            P.PtrCore P.Inx.PtrInxCore.own P.Inx.PartialEq P.Gen.PtrGenCore.own P.Gen.PartialEq
            S.NonZeroInxGenericStack) self.entry entry_lender result (λ a. a ≡ self.old)) }
    {
        // The interlinks agree.
        self.recall_chained();
        let Some(gap) = self.gap(kind) else {
            return Err(ChainInsertionError::FailedLinkRequirement);
        };
        match self.next_ptr() {
            Some(ptr) => Ok(ChainArenaInsertEntry {
                chains: self,
                gap,
                ptr,
            }),
            None => Err(ChainInsertionError::NotWithinCapacity),
        }
    }

    /// Room for one link more. If there is none, the arena grows, in the steps of
    /// `insert_reallocating`. It returns `FailedLinkRequirement` if the links are not as the kind
    /// requires, and else `BeyondMaxCapacity` if as many links are live as the greatest capacity,
    /// and `AllocError` if the memory was refused. An error leaves the links as they were.
    pub fn entry_insert_reallocating(
        &mut self,
        kind: LinkInsertKind<P>,
    ) -> Result<ChainArenaInsertEntry<'_, P, T, S>, ChainInsertionError>
        ensures refusal { IsLinkRefusal
            (gap_among P.index P.generation P.Inx.number self.old kind)
            S.takes_memory (live_count self.old) self.old.room result }
        ensures entry { IsEntryFor P.Inx.number P.index P.generation kind self.entry.ghost_name
            (grown_if_full self.old) self.old result }
        ensures* err { sem 𝓛 (RestsIfErr
            (the_row P.row T.row S.row P.Inx.row P.Gen.row P.Inx.Word.row S.Alloc.row
            P.PtrCore P.Inx.PtrInxCore.own P.Inx.PartialEq P.Gen.PtrGenCore.own P.Gen.PartialEq
            S.NonZeroInxGenericStack) self.entry entry_lender result (λ a. a ≡ self.old)) }
    {
        let (gap, ptr) = self.gap_reallocating(kind)?;
        Ok(ChainArenaInsertEntry {
            chains: self,
            gap,
            ptr,
        })
    }

    /// Room for one link more. The links must be as the kind requires. If there is no room, the
    /// arena grows. It returns `BeyondMaxCapacity` if as many links are live as the greatest
    /// capacity, and `AllocError` if the memory was refused. An error leaves the links as they
    /// were.
    pub fn entry_insert(
        &mut self,
        kind: LinkInsertKind<P>,
    ) -> Result<ChainArenaInsertEntry<'_, P, T, S>, ChainInsertionError>
        requires { IsSome (gap_among P.index P.generation P.Inx.number self.old kind) }
        ensures refusal { IsLinkRefusal
            (gap_among P.index P.generation P.Inx.number self.old kind)
            S.takes_memory (live_count self.old) self.old.room result }
        ensures entry { IsEntryFor P.Inx.number P.index P.generation kind self.entry.ghost_name
            (grown_if_full self.old) self.old result }
        ensures* err { sem 𝓛 (RestsIfErr
            (the_row P.row T.row S.row P.Inx.row P.Gen.row P.Inx.Word.row S.Alloc.row
            P.PtrCore P.Inx.PtrInxCore.own P.Inx.PartialEq P.Gen.PtrGenCore.own P.Gen.PartialEq
            S.NonZeroInxGenericStack) self.entry entry_lender result (λ a. a ≡ self.old)) }
    {
        self.entry_insert_reallocating(kind)
    }
}
