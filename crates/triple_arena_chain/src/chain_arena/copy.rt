//! A chain arena as a copy of another one, and an arena as a copy of a chain arena.
ghost use Rattle.std.specs.Prelude.{◌≡◌, ℕ, ◌≤◌, ◌↔◌, ◌⊎◌, IsOk, IfOk, OnOk};
ghost use Rattle.triple_arena_ptr.specs.Errors.{IsBeyondMaxCapacity, IsAllocError};
ghost use Rattle.triple_arena_ptr.specs.Generation.{second_generation};
ghost use Rattle.triple_arena_stack.specs.Room.{capacity as capacity_of, IsBeyond};
ghost use Rattle.triple_arena.specs.ArenaRoom.{room_of};
ghost use Rattle.triple_arena.specs.Content.{entry_at, live_count, some_counter, empty};
ghost use Rattle.triple_arena.specs.Copy.{last_listed, last_inx, copied, MayRefuse, NeverRefuses};
ghost use Rattle.triple_arena.specs.Copy.{NeedsMemory, IsMappedCopy, IsRefusedCopy, IsCopyOf};
ghost use Rattle.triple_arena.specs.LiveEntries.{live_entries};
ghost use Rattle.triple_arena_chain.specs.LinkCopies.{IsUnmade};
ghost use Rattle.triple_arena_chain.specs.Links.{ends_in, values_in, IsChained};
ghost use Rattle.triple_arena_chain.specs.Listed.{listed_values};
ghost use Rattle.linked_lists.specs.Chains.{Chain, IsChainOf};
ghost use Rattle.triple_arena_chain.specs.Values.{room_in};

use crate::chain_arena::link_copies::copy_links;
use crate::{ChainArena, ChainSlots, LinkCloneSource, LinkNoGen};
use triple_arena::{AllocError, Arena, PtrCore, PtrInxCore, ReallocationError};

impl<P: PtrCore, T: Drop, S: ChainSlots<P, T>> ChainArena<P, T, S> {
    /// Makes this arena a copy of `source`: with its pointers, its interlinks and its counter, each
    /// value what `map` makes of the link there. `map` is called once for each link, in the order
    /// of the indexes, with the pointer and the link. What the arena held is dropped, and the
    /// smallest free index is the next one to be taken.
    ///
    /// No memory is taken if the last live index of `source` is within the capacity, which then
    /// stays. Else the arena first grows to exactly that index. It returns `BeyondMaxCapacity` if
    /// that is past the greatest capacity, and `AllocError` if the memory was refused; the arena is
    /// then as it was.
    ///
    /// It also returns `AllocError` if `map` refused. The arena then has room for the copy, no
    /// link, and the counter that `clear` leaves.
    ///
    /// That `map` is not called if the growth is refused, nor again after it refused, is tested
    /// only.
    pub fn clone_from_with<A, F>(&mut self, source: &A, map: F) -> Result<(), ReallocationError>
    where
        A: LinkCloneSource<P>,
        F: FnMut(P, &A::Link) -> Result<T, AllocError>,
        requires { F.IsAlwaysCallable map }
        ensures mapped { OnOk result (IsMappedCopy P.index P.generation F.step map
            (A.Links.live_entries (A.links source.now)) (listed_values self.new)) }
        ensures linked { OnOk result ((k : ℕ) → ends_in self.new k ≡ A.ends source.now k) }
        ensures lists { OnOk result ((chain : Chain) → IsChainOf (A.ends source.now) chain
            → IsChainOf (ends_in self.new) chain) }
        ensures copied { OnOk result (IsCopyOf values_in live_count some_counter room_in
            A.Links.entry_at A.Links.live_count A.Links.counter A.Links.live_entries
            (A.links source.now) self.old self.new) }
        ensures exact { OnOk result (self.new
            ≡ copied self.old (A.Links.counter (A.links source.now)) (live_entries self.new)) }
        ensures succeeds { last_listed (A.Links.live_entries (A.links source.now))
            ≤ capacity_of (room_in self.old) → NeverRefuses F.step → IsOk result }
        ensures beyond { IsBeyondMaxCapacity result ↔ IsBeyond (room_in self.old).limit
            (last_listed (A.Links.live_entries (A.links source.now))) }
        ensures kept { IsBeyondMaxCapacity result → self.new ≡ self.old }
        ensures unmade { IsAllocError result → IsUnmade S.takes_memory P.Gen.last
            (last_listed (A.Links.live_entries (A.links source.now)))
            (IsRefusedCopy P.index P.generation F.step map
            (A.Links.live_entries (A.links source.now))) self.old self.new }
        ensures formed { IsChained self.new }
    {
        copy_links::<
            P,
            P::Inx,
            <P::Inx as PtrInxCore>::Word,
            A::Link,
            T,
            A::Links,
            Arena<P, LinkNoGen<P, T>, S>,
            F,
        >(&mut self.arena, source.links(), map)
    }
}

impl<P: PtrCore, T: Clone, S: ChainSlots<P, T>> ChainArena<P, T, S> {
    /// A new arena with the same pointers and interlinks, clones of the values and the same
    /// counter, where the smallest free index is the next one to be taken. It has room for the last
    /// live index. A clone of a value must equal it.
    ///
    /// It returns `BeyondMaxCapacity` if no new arena of this type has so much room, and
    /// `AllocError` if the memory or the clone of a value was refused.
    pub fn clone(&self, alloc: S::Alloc) -> Result<Self, ReallocationError>
        requires { (x y : T) → T.is_clone x y → y ≡ x }
        ensures exact { IfOk result (λ c. c ≡ copied (empty (second_generation P.Gen.last)
            (room_of P.Inx.greatest (S.room_at (last_inx self.now))))
            (some_counter self.now) (live_entries self.now)) }
        ensures succeeds { last_inx self.now ≤ capacity_of (room_of P.Inx.greatest (S.room_at 0))
            → ((x : T) → T.is_infallible x) → IsOk result }
        ensures beyond { IsBeyondMaxCapacity result
            ↔ IsBeyond (room_of P.Inx.greatest (S.room_at (last_inx self.now))).limit
            (last_inx self.now) }
        ensures unmade { IsAllocError result
            → NeedsMemory S.takes_memory (room_of P.Inx.greatest (S.room_at 0)) (last_inx self.now)
            ⊎ MayRefuse T.is_infallible (listed_values self.now) }
        ensures lists { IfOk result (λ c. (chain : Chain)
            → IsChainOf (ends_in self.now) chain
            → IsChainOf (ends_in c) chain) }
        ensures formed { IfOk result (λ c. IsChained c) }
    {
        match self.arena.clone(alloc) {
            Ok(arena) => Ok(ChainArena { arena }),
            Err(error) => Err(error),
        }
    }

    /// Makes this arena a clone of `source`: with its pointers, interlinks and counter, and with
    /// clones of the values. A clone of a value must equal it. What the arena held is dropped, and
    /// the smallest free index is the next one to be taken.
    ///
    /// No memory is taken if the last live index of `source` is within the capacity, which then
    /// stays. Else the arena first grows to exactly that index.
    ///
    /// It returns `BeyondMaxCapacity` if the last live index of `source` is past the greatest
    /// capacity, and `AllocError` if the memory was refused; the arena is then as it was. It also
    /// returns `AllocError` if the clone of a value was refused; the arena is then grown to that
    /// index and cleared.
    pub fn clone_from(&mut self, source: &Self) -> Result<(), ReallocationError>
        requires { (x y : T) → T.is_clone x y → y ≡ x }
        ensures exact { OnOk result (self.new ≡ copied self.old (some_counter source.now)
            (live_entries source.now)) }
        ensures succeeds { last_inx source.now ≤ capacity_of (room_in self.old)
            → ((x : T) → T.is_infallible x) → IsOk result }
        ensures beyond { IsBeyondMaxCapacity result
            ↔ IsBeyond (room_in self.old).limit (last_inx source.now) }
        ensures kept { IsBeyondMaxCapacity result → self.new ≡ self.old }
        ensures unmade { IsAllocError result
            → IsUnmade S.takes_memory P.Gen.last (last_inx source.now)
            (MayRefuse T.is_infallible (listed_values source.now)) self.old self.new }
        ensures lists { OnOk result
            ((chain : Chain) → IsChainOf (ends_in source.now) chain
            → IsChainOf (ends_in self.new) chain) }
        ensures formed { IsChained self.new }
    {
        self.arena.clone_from(&source.arena)
    }
}
