//! A generational arena: values in slots, found by pointers of an index and a generation. A port of
//! the arena of the Rust crate `triple_arena`.
//!
//! `Arena<P, T, S>` is over a pointer type `P` and keeps its slots in a stack `S`; it gives the
//! pointers. To a `DirectArena<P, T, S>` the caller gives them. What arenas do stands in traits,
//! which generic code asks for: `ArenaTrait`, `ArenaInsertTrait`, `ArenaDirectInsertTrait`,
//! `DisjointableArenaTrait`, `ArenaCloneFromWith` of copies (from an `ArenaCloneSource`), and
//! `ArenaTransferTrait` of entries moved from another arena (an `ArenaTransferSource`).
//!
//! ```rust
//! use std::alloc::Global;
//! use triple_arena::{ArenaInsertTrait, ArenaTrait, HeapArena, P0};
//!
//! fn main(rt: HostRuntime) -> anyhow::Result<()> {
//!     let mut trees: HeapArena<P0, &str, Global> = HeapArena::new(rt.alloc());
//!     let oak = trees.insert("oak")?;
//!     let elm = trees.insert("elm")?;
//!     drop(trees.remove(oak));
//!     println!(rt; "{:?} {:?}", trees.get(oak), trees.get(elm))?; // None Some("elm")
//!     Ok(())
//! }
//! ```
//!
//! Contracts speak of an arena's `Content` (`specs/Content.antt`): the generation and the value at
//! each index, the counter, the free indexes in the order in which they are taken, and the room;
//! and of a direct arena's `DirectContent`. What a call leaves is said once, in the trait: by a
//! record of `specs/Changes.antt` for any arena (`IsInserted`, `IsRemoved`, ..), whose fields
//! callers use as they are, and by the exact state (`inserted`, `cleared`, ..), which an arena
//! gives as a function of its content; of a removal by a relation, `is_removed`.
//!
//! A struct over an arena takes `IsWellFormed` into its invariant: each call that changes an arena
//! ensures it of what it leaves, and `len` of the arena as it is. Only `recast` and
//! `set_max_capacity`, whose clauses stand below the arenas, leave it to the laws `formed-recasted`
//! and `formed-with_limit`. After a borrow for writing the arena is `with_value`, and the rules
//! `writes` (`specs/ContentLaws.antt`), named on a function as
//! `#[tactic(auto, using(triple_arena::specs::ContentLaws::writes))]`, say what that changes and
//! keeps. `specs/CompressionLaws.antt` says what follows from the calls of a compression's map. If
//! the pointer type is a concrete one, a clause writes `⟦<P0 as PtrCore>⟧.index p` for what is
//! `P.index p` at a type parameter.
#![tactic(auto)]

// A private function's clause `no_more` asks nothing. It stands where a `requires` would be alone,
// whose answers take far longer to state.

mod advancer;
mod answers;
mod arena;
mod arena_trait;
mod capacity_drain;
mod copy;
mod direct;
mod direct_insert_trait;
mod direct_slot;
mod disjointable_trait;
mod drain;
mod free_inx;
mod insert_trait;
mod iter_mut;
mod iterators;
pub mod laws;
mod lent_slots;
mod part;
mod slot;
mod slots;
mod stack_room;
mod transfer;
mod two_values;

/// The advancers of the arenas, and the iterators of `Arena`.
pub mod arena_iterators {
    pub use crate::advancer::PtrAdvancer;
    use crate::{Arena, ArenaSlot, Whole, capacity_drain, drain, iter_mut, iterators};

    /// The entries of an arena, each taken out.
    pub type Drain<'a, P, T, S> = drain::Drain<'a, P, T, Arena<P, T, S>>;

    /// The entries of an arena, by value.
    pub type CapacityDrain<P, T, S> = capacity_drain::CapacityDrain<P, T, Arena<P, T, S>>;

    /// The pointers and the values of an arena.
    pub type Iter<'a, P, T> = PartIter<'a, P, T, T, Whole>;

    /// The pointers of an arena.
    pub type Ptrs<'a, P, T> = iterators::Ptrs<'a, P, T, ArenaSlot<P, T>>;

    /// The values of an arena.
    pub type Vals<'a, P, T> = PartVals<'a, P, T, T, Whole>;

    /// The pointers and the values of an arena, each value for writing.
    pub type IterMut<'a, P, T> = iter_mut::IterMut<'a, P, T, ArenaSlot<P, T>>;

    /// The values of an arena, each for writing.
    pub type ValsMut<'a, P, T> = iter_mut::ValsMut<'a, P, T, ArenaSlot<P, T>>;

    /// The pointers of an arena, and of each value `V` the part `T` that `M` shows.
    pub type PartIter<'a, P, V, T, M> = iterators::Iter<'a, P, V, T, ArenaSlot<P, V>, M>;

    /// Of each value `V` of an arena the part `T` that `M` shows.
    pub type PartVals<'a, P, V, T, M> = iterators::Vals<'a, P, V, T, ArenaSlot<P, V>, M>;
}

/// The advancer and the iterators of `DirectArena`.
pub mod direct_iterators {
    pub use crate::advancer::PtrAdvancer;
    use crate::{DirectArena, DirectSlot, Whole, capacity_drain, drain, iter_mut, iterators};

    /// The entries of a direct arena, each taken out.
    pub type Drain<'a, P, T, S> = drain::Drain<'a, P, T, DirectArena<P, T, S>>;

    /// The entries of a direct arena, by value.
    pub type CapacityDrain<P, T, S> = capacity_drain::CapacityDrain<P, T, DirectArena<P, T, S>>;

    /// The pointers and the values of a direct arena.
    pub type Iter<'a, P, T> = iterators::Iter<'a, P, T, T, DirectSlot<P, T>, Whole>;

    /// The pointers of a direct arena.
    pub type Ptrs<'a, P, T> = iterators::Ptrs<'a, P, T, DirectSlot<P, T>>;

    /// The values of a direct arena.
    pub type Vals<'a, P, T> = iterators::Vals<'a, P, T, T, DirectSlot<P, T>, Whole>;

    /// The pointers and the values of a direct arena, each value for writing.
    pub type IterMut<'a, P, T> = iter_mut::IterMut<'a, P, T, DirectSlot<P, T>>;

    /// The values of a direct arena, each for writing.
    pub type ValsMut<'a, P, T> = iter_mut::ValsMut<'a, P, T, DirectSlot<P, T>>;
}

pub use arena::{
    Arena, ArenaInsertEntries, ArenaInsertEntry, ArenaInsertEntryTrait, ArrayArena, BoxedArena,
    HeapArena, LimitedArena, compress_recaster, compress_recaster_into,
};
pub use arena_trait::{ArenaTrait, CompactArenaTrait};
pub use capacity_drain::CapacityDrain;
pub use copy::{ArenaCloneFromWith, ArenaCloneSource};
pub use direct::{
    ArenaDirectInsertEntry, ArrayDirectArena, BoxedDirectArena, DirectArena, HeapDirectArena,
    LimitedDirectArena,
};
pub use direct_insert_trait::{ArenaDirectInsertEntryTrait, ArenaDirectInsertTrait};
pub use direct_slot::DirectSlot;
pub use disjointable_trait::{DisjointableArenaTrait, get_disjoint_inx_mut, get_disjoint_mut};
pub use drain::Drain;
pub use insert_trait::ArenaInsertTrait;
pub use part::{Part, Whole};
pub use slot::ArenaSlot;
pub use slots::{ArenaSlots, DirectSlots};
pub use transfer::{ArenaTransferSource, ArenaTransferTrait};
pub use triple_arena_ptr::{
    Advancer, AllocError, DirectInsertionError, GetDisjointMutError, InvalidationOption,
    InvalidationResult, MaxCapacityReductionError, NotWithinCapacityError, P0, P1, P2, P3, P4, P5,
    Pointer, Ptr, PtrCore, PtrGen, PtrGenCore, PtrInx, PtrInxCore, PtrKind, PtrNoGen, PtrOrNone,
    Q2, ReallocationError, Recast, Recaster,
};
pub use triple_arena_stack::{
    NonZeroInxArray, NonZeroInxBoxedSlice, NonZeroInxGenericStack, NonZeroInxLimitedStack,
    NonZeroInxLimitedVec, NonZeroInxVec, SetMaxCapacity,
};
