//! Pointers into generational arenas, and what the arenas' crates share.
//!
//! A pointer is an index, which says where in an arena an element is kept, and a generation, which
//! says when it was put there. An arena gives each element the generation of its counter and steps
//! the counter at each removal. So, if generations are counted, a pointer finds its own element or
//! nothing, until the counter wraps, is reset or set, or the arena takes a copy or a transfer.
//! [`P5`] has no generation: it finds whatever is put at its index next.
//!
//! - [`Ptr`], [`PtrInx`] and [`PtrGen`] say what a pointer, an index and a generation are. The
//!   order of pointers goes by index and then by generation, with `==` and `Hash` in agreement.
//! - [`PtrCore`], [`PtrInxCore`] and [`PtrGenCore`] stand below them, with the calls, and all that
//!   arenas ask of a pointer: the index is not 0, and index and generation determine the pointer.
//!   Code over `P: Ptr` calls what asks `P: PtrCore`; a call at one pointer type, as
//!   `P0::invalid()`, wants the trait `PtrCore` in scope.
//! - [`Pointer`] is the one pointer type, for every index, generation and kind. [`P0`] to [`P5`],
//!   [`Q2`] and [`PtrNoGen`] are it, each with a kind of its own. Choose by how many elements and
//!   removals there are.
//! - [`Advancer`] goes over a collection that may change on the way; [`nzusize_iter`] goes over
//!   indexes.
//! - [`Recast`] renames the pointers that a value holds, by a [`Recaster`]. A [`PtrOrNone`] is one
//!   that a recast makes none if it has ended.
//! - [`at_index_of`] gives the pointer of another type with the same index.
//! - [`Probes`] counts, as comparisons; contracts see a number without bound.
//! - [`InvalidationOption`], [`InvalidationResult`] and the error types are what the arenas' calls
//!   answer.
//!
//! # A pointer type of one's own
//!
//! It is a kind and an alias. The kind is an empty type with the name that the pointer's text
//! begins with; an arena over this pointer takes no pointer of another kind. Indexes and
//! generations are std's integers that are not 0, and the generation `()` is for pointers that have
//! none.
//!
//! ```rust
//! ghost use Rattle.std.specs.Prelude.{codes};
//!
//! use std::num::{NonZeroU16, NonZeroU64};
//! use triple_arena_ptr::{Pointer, PtrKind};
//!
//! /// A pointer to a street, of which there are at most 65,535 at a time.
//! pub type StreetPtr = Pointer<NonZeroU16, NonZeroU64, StreetKind>;
//!
//! /// The kind of `StreetPtr`.
//! #[derive(Clone, Copy, PartialEq, Eq, PartialOrd, Ord, Hash)]
//! pub struct StreetKind;
//!
//! impl PtrKind for StreetKind {
//!     ghost name = { codes "Street" };
//!
//!     fn name() -> &'static str {
//!         "Street"
//!     }
//! }
//! ```
//!
//! A generation of one's own is an integer that is not 0 with an invariant, and impls of
//! [`PtrGenCore`] and [`PtrGen`]: the crate `test_kit` has one that counts to 3, for tests.
#![tactic(auto)]

mod advancer;
mod errors;
mod free_mark;
mod generations;
mod hexadecimal;
mod indexes;
mod invalidation;
mod nzusize;
mod optional_inx;
mod pointer;
mod pointer_text;
mod probes;
mod ptr;
mod ptr_no_gen;
mod ptr_or_none;
mod ptr_types;
mod recast;
mod same_index;

pub use advancer::Advancer;
pub use errors::{
    AllocError, ChainInsertionError, DirectInsertionError, GetDisjointMutError,
    MaxCapacityReductionError, NotWithinCapacityError, OrdInsertionError, ReallocationError,
};
pub use free_mark::FreeMark;
pub use indexes::{U64Word, UsizeWord};
pub use invalidation::{InvalidationOption, InvalidationResult};
pub use nzusize::{IntoNonZeroUsizeIterator, NonZeroUsizeIterator, nzusize_iter};
pub use optional_inx::OptionalInx;
pub use pointer::{Pointer, PtrKind};
pub use pointer_text::fmt_pointer;
pub use probes::Probes;
pub use ptr::{Ptr, PtrCore, PtrGen, PtrGenCore, PtrInx, PtrInxCore};
pub use ptr_no_gen::PtrNoGen;
pub use ptr_or_none::PtrOrNone;
pub use ptr_types::{P0, P1, P2, P3, P4, P5, Q2};
pub use recast::{Recast, Recaster};
pub use same_index::at_index_of;
