//! What copies of links are made of.
ghost use Rattle.std.specs.Prelude.{◌≡◌, ◌≤◌, ◌↔◌, ℕ, Option, IsOk, OnOk};
ghost use Rattle.triple_arena_ptr.specs.Errors.{IsBeyondMaxCapacity, IsAllocError};
ghost use Rattle.triple_arena_stack.specs.Room.{capacity as capacity_of, IsBeyond};
ghost use Rattle.triple_arena.specs.Copy.{last_listed, NeverRefuses, IsMappedCopy, IsRefusedCopy};
ghost use Rattle.triple_arena.specs.Copy.{IsCopyOf, IsUnmadeCopy};
ghost use Rattle.linked_lists.specs.LinkedLists.{Ends, IsAgreed};
ghost use Rattle.triple_arena_chain.specs.Kinds.{ends_by};
ghost use Rattle.triple_arena_chain.specs.LinkCopies.{listed_ends};
ghost use Rattle.triple_arena_chain.specs.Links.{prev_next_of};

use crate::{ChainArena, ChainSlots, IndexLink, LinkNoGen};
use triple_arena::{
    AllocError, Arena, ArenaCloneFromWith, ArenaCloneSource, PtrCore, PtrInxCore, ReallocationError,
};
use triple_arena_ptr::OptionalInx;

/// A link that copies are made of.
pub trait Neighbors<I: PtrInxCore> {
    ghost neighbors: { Self → Ends };

    /// The indexes of the previous and of the next link.
    fn neighbors(&self) -> (Option<I>, Option<I>)
        ensures { ends_by I.number result ≡ neighbors self.now };
}

impl<I: PtrInxCore<Word = W>, W: Copy, T> Neighbors<I> for IndexLink<OptionalInx<I, W>, T> {
    ghost neighbors = { prev_next_of };

    fn neighbors(&self) -> (Option<I>, Option<I>) {
        self.prev_next()
    }
}

/// An arena that copies are made of by a map that sees the links: a chain arena, or an ordered
/// arena. Such a map knows the type of a link by its name here.
pub trait LinkCloneSource<P: PtrCore> {
    /// A link: [`LinkNoGen`], for the value that it has.
    type Link: Neighbors<P::Inx> + Drop;

    /// The arena of the links.
    type Links: ArenaCloneSource<P, Self::Link>;

    // The links, and the interlinks at each index.
    ghost links: { Self → Self.Links };

    ghost ends: { Self → ℕ → Option Ends };

    /// The links.
    fn links(&self) -> &Self::Links
        ensures same { result.now ≡ links self.now }
        ensures agreed { IsAgreed (ends self.now) };

    // The interlinks are those of the links.
    ghost linked: { (a : Self) (i : ℕ)
        → listed_ends Self.Link.neighbors (Self.Links.live_entries (links a)) i
        ≡ ends a i };

    /// Makes `target` a copy of this arena: with its pointers, each value what `map` makes of the
    /// link there, and with its counter if `target` has one. `map` is called once for each link, in
    /// the order of the indexes. What `target` held is dropped, and its smallest free index is the
    /// next one to be taken.
    ///
    /// No memory is taken if the last live index is within the capacity of `target`, which then
    /// stays. Else `target` first grows to exactly that index. It returns `BeyondMaxCapacity` if
    /// that is past the greatest capacity, and `AllocError` if the memory was refused; `target` is
    /// then as it was.
    ///
    /// It also returns `AllocError` if `map` refused. `target` then has room for the copy, no
    /// entry, and the counter that `clear` leaves.
    ///
    /// That `map` is not called if the growth is refused, nor again after it refused, is tested
    /// only.
    final fn clone_to_arena<U, A, F>(&self, target: &mut A, map: F) -> Result<(), ReallocationError>
    where
        U: Drop,
        A: ArenaCloneFromWith<P, U>,
        F: FnMut(P, &Self::Link) -> Result<U, AllocError>,
        requires { F.IsAlwaysCallable map }
        ensures mapped { OnOk result (IsMappedCopy P.index P.generation F.step map
            (Self.Links.live_entries (links self.now)) (A.live_entries target.new)) }
        ensures copied { OnOk result (IsCopyOf A.entry_at A.live_count A.counter A.room
            Self.Links.entry_at Self.Links.live_count Self.Links.counter Self.Links.live_entries
            (links self.now) target.old target.new) }
        ensures exact { OnOk result (target.new ≡ A.copied target.old
            (Self.Links.counter (links self.now)) (A.live_entries target.new)) }
        ensures succeeds { last_listed (Self.Links.live_entries (links self.now))
            ≤ capacity_of (A.room target.old) → NeverRefuses F.step → IsOk result }
        ensures beyond { IsBeyondMaxCapacity result ↔ IsBeyond (A.room target.old).limit
            (last_listed (Self.Links.live_entries (links self.now))) }
        ensures kept { IsBeyondMaxCapacity result → target.new ≡ target.old }
        ensures unmade { IsAllocError result
            → IsUnmadeCopy A.entry_at A.live_count A.counter A.room A.takes_memory
            P.Gen.last (last_listed (Self.Links.live_entries (links self.now))) (λ s. A.cleared
            (A.reallocated s (last_listed (Self.Links.live_entries (links self.now)))))
            (IsRefusedCopy P.index P.generation F.step map
            (Self.Links.live_entries (links self.now))) target.old target.new }
        ensures formed { A.is_formed target.new }
    {
        target.clone_from_with(self.links(), map)
    }
}

impl<P: PtrCore, T: Drop, S: ChainSlots<P, T>> LinkCloneSource<P> for ChainArena<P, T, S> {
    ghost use Rattle.triple_arena_chain.specs.Links.{ends_in};
    ghost use Rattle.triple_arena_chain.specs.LinkCopyLaws.{listed_ends-is};

    type Link = LinkNoGen<P, T>;

    type Links = Arena<P, LinkNoGen<P, T>, S>;

    ghost links = { λ c. c };

    ghost ends = { ends_in };

    ghost linked = { listed_ends-is };

    fn links(&self) -> &Arena<P, LinkNoGen<P, T>, S> {
        &self.arena
    }
}
