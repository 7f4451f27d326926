//! What a store stands in: its stacks, and what they take their memory from.
ghost use Rattle.std.specs.Prelude.{◌≡◌, ◌↔◌, ℕ, Bool, true, false, Option, Some, None};
ghost use Rattle.std.proofs.Common.{refl, rules};
ghost use Rattle.triple_arena_stack.specs.Room.{Room, IsBeyond};

use crate::items::{Mark, Place, Stop};
use std::alloc::{Allocator, Global};
use ticket_book::TicketSlot;
use triple_arena::{ArenaSlot, DirectSlot};
use triple_arena_chain::LinkNoGen;
use triple_arena_ord::SimpleOrdArenaNode;
use triple_arena_ptr::PtrCore;
use triple_arena_stack::{
    NonZeroInxArray, NonZeroInxBoxedSlice, NonZeroInxGenericStack, NonZeroInxLimitedVec,
    NonZeroInxVec,
};

/// A slot of the places.
pub type PlaceSlot<P> = ArenaSlot<P, LinkNoGen<P, SimpleOrdArenaNode<P, Place>>>;

/// A slot of the stops.
pub type StopSlot<P> = ArenaSlot<P, LinkNoGen<P, Stop<P>>>;

/// A slot of the marks.
pub type MarkSlot<P> = ArenaSlot<P, Mark<P>>;

/// The stacks of a store over pointers of the type `P`, and what they take their memory from.
///
/// All five are made with the same room and have the same limit, and all of them take memory or
/// none does. A backing that mixes stacks has no proof of its laws.
pub trait BookBacking<P: PtrCore> {
    // The bounds are written out: the short ones (`OrdSlots`, `ChainSlots`, `ArenaSlots` and
    // `DirectSlots`) are proved twice wherever a backing is known.

    /// The stack of the places.
    type Places: NonZeroInxGenericStack<Item = PlaceSlot<P>> + Drop;

    /// The stack of the stops.
    type Stops: NonZeroInxGenericStack<Item = StopSlot<P>> + Drop;

    /// The stack of the marks.
    type Marks: NonZeroInxGenericStack<Item = MarkSlot<P>> + Drop;

    /// The stack of the ticket book.
    type Book: NonZeroInxGenericStack<Item = TicketSlot<P>> + Drop;

    /// The stack of the mirrors, which lead from old pointers to new ones.
    type Mirror: NonZeroInxGenericStack<Item = DirectSlot<P, P>> + Drop;

    // The room of a stack that is made for so many items.
    ghost room: { ℕ → Room };

    // The greatest number of items that a stack holds, if there is one.
    ghost limit: { Option ℕ };

    // Whether the stacks take memory.
    ghost takes_memory: { Bool };

    /// The greatest number of items that a stack holds, if there is one.
    fn limit() -> Option<usize>
        ensures { result ≡ limit };

    /// What the places take their memory from.
    fn places_memory(&self) -> <Self::Places as NonZeroInxGenericStack>::Alloc;

    /// What the stops take their memory from.
    fn stops_memory(&self) -> <Self::Stops as NonZeroInxGenericStack>::Alloc;

    /// What the marks take their memory from.
    fn marks_memory(&self) -> <Self::Marks as NonZeroInxGenericStack>::Alloc;

    /// What the ticket book takes its memory from.
    fn book_memory(&self) -> <Self::Book as NonZeroInxGenericStack>::Alloc;

    /// What a mirror takes its memory from.
    fn mirror_memory(&self) -> <Self::Mirror as NonZeroInxGenericStack>::Alloc;

    ghost beyond: { (n : ℕ) → IsBeyond (room n).limit n ↔ IsBeyond limit n };

    ghost places_room: { (n : ℕ) → Self.Places.room_at n ≡ room n };

    ghost stops_room: { (n : ℕ) → Self.Stops.room_at n ≡ room n };

    ghost marks_room: { (n : ℕ) → Self.Marks.room_at n ≡ room n };

    ghost book_room: { (n : ℕ) → Self.Book.room_at n ≡ room n };

    ghost mirror_room: { (n : ℕ) → Self.Mirror.room_at n ≡ room n };

    ghost places_take: { Self.Places.takes_memory ≡ takes_memory };

    ghost stops_take: { Self.Stops.takes_memory ≡ takes_memory };

    ghost marks_take: { Self.Marks.takes_memory ≡ takes_memory };

    ghost book_takes: { Self.Book.takes_memory ≡ takes_memory };

    ghost mirror_takes: { Self.Mirror.takes_memory ≡ takes_memory };
}

/// On the heap, without a limit.
#[derive(Clone, Copy)]
pub struct OnHeap<A: Allocator = Global>(pub A);

/// On the heap, in stacks whose limits can be set.
#[derive(Clone, Copy)]
pub struct OnLimited<A: Allocator = Global>(pub A);

/// On the heap, in stacks of just the room that is asked for.
#[derive(Clone, Copy)]
pub struct OnFixed<A: Allocator = Global>(pub A);

/// In arrays of `N` items, which take no memory.
#[derive(Clone, Copy)]
pub struct OnArray<const N: usize>;

impl<P: PtrCore, A: Allocator + Copy> BookBacking<P> for OnHeap<A> {
    type Places = NonZeroInxVec<PlaceSlot<P>, A>;

    type Stops = NonZeroInxVec<StopSlot<P>, A>;

    type Marks = NonZeroInxVec<MarkSlot<P>, A>;

    type Book = NonZeroInxVec<TicketSlot<P>, A>;

    type Mirror = NonZeroInxVec<DirectSlot<P, P>, A>;

    ghost room = { λ n. record { reserved = n; limit = None } };

    ghost limit = { None };

    ghost takes_memory = { true };

    ghost beyond = { λ n. (λ h. h, λ h. h) };

    ghost places_room = { λ n. refl };

    ghost stops_room = { λ n. refl };

    ghost marks_room = { λ n. refl };

    ghost book_room = { λ n. refl };

    ghost mirror_room = { λ n. refl };

    ghost places_take = { refl };

    ghost stops_take = { refl };

    ghost marks_take = { refl };

    ghost book_takes = { refl };

    ghost mirror_takes = { refl };

    fn limit() -> Option<usize> {
        None
    }

    fn places_memory(&self) -> A {
        self.0
    }

    fn stops_memory(&self) -> A {
        self.0
    }

    fn marks_memory(&self) -> A {
        self.0
    }

    fn book_memory(&self) -> A {
        self.0
    }

    fn mirror_memory(&self) -> A {
        self.0
    }
}

impl<P: PtrCore, A: Allocator + Copy> BookBacking<P> for OnLimited<A> {
    type Places = NonZeroInxLimitedVec<PlaceSlot<P>, A>;

    type Stops = NonZeroInxLimitedVec<StopSlot<P>, A>;

    type Marks = NonZeroInxLimitedVec<MarkSlot<P>, A>;

    type Book = NonZeroInxLimitedVec<TicketSlot<P>, A>;

    type Mirror = NonZeroInxLimitedVec<DirectSlot<P, P>, A>;

    ghost room = { λ n. record { reserved = n; limit = None } };

    ghost limit = { None };

    ghost takes_memory = { true };

    ghost beyond = { λ n. (λ h. h, λ h. h) };

    ghost places_room = { λ n. refl };

    ghost stops_room = { λ n. refl };

    ghost marks_room = { λ n. refl };

    ghost book_room = { λ n. refl };

    ghost mirror_room = { λ n. refl };

    ghost places_take = { refl };

    ghost stops_take = { refl };

    ghost marks_take = { refl };

    ghost book_takes = { refl };

    ghost mirror_takes = { refl };

    fn limit() -> Option<usize> {
        None
    }

    fn places_memory(&self) -> A {
        self.0
    }

    fn stops_memory(&self) -> A {
        self.0
    }

    fn marks_memory(&self) -> A {
        self.0
    }

    fn book_memory(&self) -> A {
        self.0
    }

    fn mirror_memory(&self) -> A {
        self.0
    }
}

impl<P: PtrCore, A: Allocator + Copy> BookBacking<P> for OnFixed<A> {
    type Places = NonZeroInxBoxedSlice<PlaceSlot<P>, A>;

    type Stops = NonZeroInxBoxedSlice<StopSlot<P>, A>;

    type Marks = NonZeroInxBoxedSlice<MarkSlot<P>, A>;

    type Book = NonZeroInxBoxedSlice<TicketSlot<P>, A>;

    type Mirror = NonZeroInxBoxedSlice<DirectSlot<P, P>, A>;

    ghost room = { λ n. record { reserved = n; limit = Some n } };

    ghost limit = { None };

    ghost takes_memory = { true };

    ghost beyond = { λ n. Prim.search rules };

    ghost places_room = { λ n. refl };

    ghost stops_room = { λ n. refl };

    ghost marks_room = { λ n. refl };

    ghost book_room = { λ n. refl };

    ghost mirror_room = { λ n. refl };

    ghost places_take = { refl };

    ghost stops_take = { refl };

    ghost marks_take = { refl };

    ghost book_takes = { refl };

    ghost mirror_takes = { refl };

    fn limit() -> Option<usize> {
        None
    }

    fn places_memory(&self) -> A {
        self.0
    }

    fn stops_memory(&self) -> A {
        self.0
    }

    fn marks_memory(&self) -> A {
        self.0
    }

    fn book_memory(&self) -> A {
        self.0
    }

    fn mirror_memory(&self) -> A {
        self.0
    }
}

impl<P: PtrCore, const N: usize> BookBacking<P> for OnArray<N> {
    type Places = NonZeroInxArray<PlaceSlot<P>, N>;

    type Stops = NonZeroInxArray<StopSlot<P>, N>;

    type Marks = NonZeroInxArray<MarkSlot<P>, N>;

    type Book = NonZeroInxArray<TicketSlot<P>, N>;

    type Mirror = NonZeroInxArray<DirectSlot<P, P>, N>;

    ghost room = { λ n. record { reserved = N; limit = Some N } };

    ghost limit = { Some N };

    ghost takes_memory = { false };

    ghost beyond = { λ n. (λ h. h, λ h. h) };

    ghost places_room = { λ n. refl };

    ghost stops_room = { λ n. refl };

    ghost marks_room = { λ n. refl };

    ghost book_room = { λ n. refl };

    ghost mirror_room = { λ n. refl };

    ghost places_take = { refl };

    ghost stops_take = { refl };

    ghost marks_take = { refl };

    ghost book_takes = { refl };

    ghost mirror_takes = { refl };

    fn limit() -> Option<usize> {
        Some(N)
    }

    fn places_memory(&self) {}

    fn stops_memory(&self) {}

    fn marks_memory(&self) {}

    fn book_memory(&self) {}

    fn mirror_memory(&self) {}
}
