//! Insertion of a link. It is always inlined: the kind, which is known where it is called, leaves
//! one case of fourteen.
ghost use Rattle.std.specs.Prelude.{◌≡◌, ◌<◌, ◌↔◌, IsOk, IfOk, OnOk, OnErr};
ghost use Rattle.std.specs.Option.{option_map};
ghost use Rattle.triple_arena_stack.specs.Push.{IsRefusal};
ghost use Rattle.triple_arena_stack.specs.Room.{room_after};
ghost use Rattle.triple_arena.specs.Content.{live_count, arena_capacity};
ghost use Rattle.linked_lists.specs.LinkedLists.{IsBetween};
ghost use Rattle.triple_arena_chain.specs.Gaps.{IsGap};
ghost use Rattle.triple_arena_chain.specs.Kinds.{ends_by, gap_by};
ghost use Rattle.triple_arena_chain.specs.Links.{ends_in, link_for, IsChained, IsLinkInserted};
ghost use Rattle.triple_arena_chain.specs.declared.gap.Gap.TheVariants.{Between};

use crate::chain_arena::interlinks::join;
use crate::gap::Gap;
use crate::{ChainArena, ChainSlots, IndexLink};
use triple_arena::{PtrCore, PtrInxCore, ReallocationError};
use triple_arena_ptr::{NotWithinCapacityError, OptionalInx};

pub(crate) mod entry;
mod growth;
mod requirement;

// The link for `t` at a gap, where its own index is `i`.
#[inline(always)]
fn link_at<I: PtrInxCore<Word = W>, W: Copy, T>(
    gap: Gap<I>,
    i: I,
    t: T,
) -> IndexLink<OptionalInx<I, W>, T>
    ensures { result ≡ link_for (gap_by I.number gap) (I.number i) t }
{
    match gap {
        Gap::Between(prev, next) => IndexLink::new((prev, next), t),
        Gap::OwnRing => IndexLink::new((Some(i), Some(i)), t),
    }
}

impl<P: PtrCore, T: Drop, S: ChainSlots<P, T>> ChainArena<P, T, S> {
    // Stores `t` in a link at a gap. There must be room: the call makes no test.
    #[inline(always)]
    pub(crate) fn put(&mut self, gap: Gap<P::Inx>, t: T) -> P
        requires room { live_count self.old < arena_capacity self.old }
        requires gap { IsGap (ends_in self.old) (gap_by P.Inx.number gap) }
        ensures inserted { IsLinkInserted (gap_by P.Inx.number gap) (P.index result)
            (P.generation result) t self.old self.new }
        ensures formed { IsChained self.new }
        ensures room { self.new.room ≡ self.old.room }
    {
        let p = self.arena.next_ptr();
        let i = p.inx();
        self.arena.insert_unwrap(link_at(gap, i, t));
        join(&mut self.arena, gap, i);
        p
    }

    /// Stores `t` in a link between the links at these two indexes, of which either may be missing.
    /// They are neighbors, or each has none on that side. The caller owes that, and that there is
    /// room: the call makes no test, takes no memory and cannot fail.
    #[inline(always)]
    pub fn insert_in_gap_unwrap(&mut self, prev: Option<P::Inx>, next: Option<P::Inx>, t: T) -> P
        requires room { live_count self.old < arena_capacity self.old }
        requires gap { IsBetween (ends_in self.old) (ends_by P.Inx.number (prev, next)) }
        ensures inserted { IsLinkInserted
            (Between (option_map P.Inx.number prev) (option_map P.Inx.number next))
            (P.index result) (P.generation result) t self.old self.new }
        ensures formed { IsChained self.new }
        ensures room { self.new.room ≡ self.old.room }
    {
        self.put(Gap::Between(prev, next), t)
    }

    /// Stores `t` in a link between the links at these two indexes, of which either may be missing,
    /// if there is room. They are neighbors, or each has none on that side. It returns
    /// `NotWithinCapacityError`, and changes nothing, if there is no room; `t` is dropped then.
    pub fn insert_in_gap_within_capacity(
        &mut self,
        prev: Option<P::Inx>,
        next: Option<P::Inx>,
        t: T,
    ) -> Result<P, NotWithinCapacityError>
        requires { IsBetween (ends_in self.old) (ends_by P.Inx.number (prev, next)) }
        ensures variant { IsOk result ↔ (live_count self.old < arena_capacity self.old) }
        ensures inserted { IfOk result (λ p. IsLinkInserted
            (Between (option_map P.Inx.number prev) (option_map P.Inx.number next))
            (P.index p) (P.generation p) t self.old self.new) }
        ensures formed { IsChained self.new }
        ensures room { self.new.room ≡ self.old.room }
        ensures err { OnErr result (self.new ≡ self.old) }
    {
        if self.has_room() {
            Ok(self.insert_in_gap_unwrap(prev, next, t))
        } else {
            Err(NotWithinCapacityError)
        }
    }

    /// Stores `t` in a link between the links at these two indexes, of which either may be missing.
    /// They are neighbors, or each has none on that side. If there is no room, the arena grows. It
    /// returns `BeyondMaxCapacity` if as many links are live as the greatest capacity, and
    /// `AllocError` if the memory was refused; both change nothing, and `t` is dropped then.
    pub fn insert_in_gap_reallocating(
        &mut self,
        prev: Option<P::Inx>,
        next: Option<P::Inx>,
        t: T,
    ) -> Result<P, ReallocationError>
        requires { IsBetween (ends_in self.old) (ends_by P.Inx.number (prev, next)) }
        ensures refusal { IsRefusal S.takes_memory (live_count self.old) self.old.room result }
        ensures inserted { IfOk result (λ p. IsLinkInserted
            (Between (option_map P.Inx.number prev) (option_map P.Inx.number next))
            (P.index p) (P.generation p) t self.old self.new) }
        ensures formed { IsChained self.new }
        ensures room { OnOk result (self.new.room
            ≡ room_after (live_count self.old) self.old.room) }
        ensures err { OnErr result (self.new ≡ self.old) }
    {
        let _ = self.make_room()?;
        Ok(self.insert_in_gap_unwrap(prev, next, t))
    }
}
