//! Insertion of a link that makes room if there is none.
ghost use Rattle.std.specs.Prelude.{◌≡◌, ◌<◌, Some, IfOk, OnOk, OnErr};
ghost use Rattle.triple_arena_stack.specs.Push.{IsRefusal};
ghost use Rattle.triple_arena.specs.Content.{live_count, arena_capacity, next_index, grown_if_full};
ghost use Rattle.triple_arena_chain.specs.Gaps.{IsGap};
ghost use Rattle.triple_arena_chain.specs.InsertEntry.{IsLinkRefusal};
ghost use Rattle.triple_arena_chain.specs.Kinds.{gap_by};
ghost use Rattle.triple_arena_chain.specs.Links.{ends_in, gap_among, IsChained};

use crate::gap::Gap;
use crate::{ChainArena, ChainSlots, LinkInsertKind};
use triple_arena::{ArenaInsertEntries, ArenaInsertEntryTrait, PtrCore, ReallocationError};
use triple_arena_ptr::ChainInsertionError;

impl<P: PtrCore, T: Drop, S: ChainSlots<P, T>> ChainArena<P, T, S> {
    /// Makes room for one link more, if there is none, and returns the pointer that the next
    /// insertion gives. It returns `BeyondMaxCapacity` if as many links are live as the greatest
    /// capacity, and `AllocError` if the memory was refused; both change nothing.
    pub fn make_room(&mut self) -> Result<P, ReallocationError>
        ensures has_index { IfOk result (λ p. P.index p ≡ next_index self.new) }
        ensures has_generation { IfOk result (λ p. P.generation p ≡ self.new.counter) }
        ensures grown { OnOk result (self.new ≡ grown_if_full self.old) }
        ensures room { OnOk result (live_count self.new < arena_capacity self.new) }
        ensures formed { IsChained self.new }
        ensures refusal { IsRefusal S.takes_memory (live_count self.old) self.old.room result }
        ensures err { OnErr result (self.new ≡ self.old) }
    {
        let entry = self.arena.entry_insert_reallocating()?;
        Ok(entry.ptr())
    }

    // The gap that the kind asks for, with room for a link there, and the pointer of that link.
    #[inline(always)]
    pub(crate) fn gap_reallocating(
        &mut self,
        kind: LinkInsertKind<P>,
    ) -> Result<(Gap<P::Inx>, P), ChainInsertionError>
        ensures refusal { IsLinkRefusal
            (gap_among P.index P.generation P.Inx.number self.old kind)
            S.takes_memory (live_count self.old) self.old.room result }
        ensures gap { IfOk result
            (λ made. gap_among P.index P.generation P.Inx.number self.old kind
            ≡ Some (gap_by P.Inx.number made.0)) }
        ensures is_gap { IfOk result (λ made.
            IsGap (ends_in self.new) (gap_by P.Inx.number made.0)) }
        ensures has_index { IfOk result (λ made. P.index made.1 ≡ next_index self.new) }
        ensures has_generation { IfOk result (λ made. P.generation made.1 ≡ self.new.counter) }
        ensures grown { OnOk result (self.new ≡ grown_if_full self.old) }
        ensures formed { IsChained self.new }
        ensures room { OnOk result (live_count self.new < arena_capacity self.new) }
        ensures err { OnErr result (self.new ≡ self.old) }
    {
        // The interlinks agree.
        self.recall_chained();
        let Some(gap) = self.gap(kind) else {
            return Err(ChainInsertionError::FailedLinkRequirement);
        };
        match self.make_room() {
            Ok(p) => Ok((gap, p)),
            Err(ReallocationError::BeyondMaxCapacity) => Err(
                ChainInsertionError::BeyondMaxCapacity,
            ),
            Err(ReallocationError::AllocError) => Err(ChainInsertionError::AllocError),
        }
    }
}
