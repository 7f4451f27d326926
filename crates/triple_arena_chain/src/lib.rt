//! Lists and rings in an arena: links that name the links before and after them. A port of the
//! chain arena of the Rust crate `triple_arena`.
//!
//! A chain is a list of indexes, linear or a ring, and each live index stands in exactly one, once.
//!
//! ```rust
//! use std::alloc::Global;
//! use triple_arena::{ArenaTrait, P0};
//! use triple_arena_chain::{ChainArenaTrait, HeapChainArena, LinkInsertKind};
//!
//! fn main(rt: HostRuntime) -> anyhow::Result<()> {
//!     let mut songs: HeapChainArena<P0, &str, Global> = HeapChainArena::new(rt.alloc());
//!     let aria = songs.insert_reallocating(LinkInsertKind::Disconnected, "aria")?;
//!     songs.insert_reallocating(LinkInsertKind::ChainEnd(aria), "coda")?;
//!     songs.insert_reallocating(LinkInsertKind::NextTo(aria), "blues")?;
//!     if let Some(links) = songs.iter_chain(aria) {
//!         for (_, link) in links {
//!             println!(rt; "{}", link.t)?; // aria, blues, coda
//!         }
//!     }
//!     Ok(())
//! }
//! ```
#![tactic(auto)]

// A private function's clause `no_more` asks nothing. It stands where a `requires` would be alone,
// whose answers take far longer to state.

mod chain_arena;
mod chain_arena_trait;
mod gap;
mod kind;
pub mod laws;
mod link;
mod link_text;
mod ptr_link;
mod slots;

/// The advancers, the iterators and the drains of `ChainArena`.
pub mod chain_iterators {
    use crate::ChainArena;
    pub use crate::chain_arena::drain::ChainDrain;
    pub use crate::chain_arena::iter_chain::IterChain;
    pub use crate::chain_arena::walk::ChainPtrAdvancer;
    pub use triple_arena::arena_iterators::PtrAdvancer;

    /// The pointers and the values of the links, each taken out, in the order of the indexes.
    pub type Drain<'a, P, T, S> = triple_arena::Drain<'a, P, T, ChainArena<P, T, S>>;

    /// The pointers and the values of the links, by value, in the order of the indexes.
    pub type CapacityDrain<P, T, S> = triple_arena::CapacityDrain<P, T, ChainArena<P, T, S>>;

    /// The pointers and the values of the links, in the order of the indexes.
    pub type Iter<'a, P, T> = triple_arena::arena_iterators::PartIter<
        'a,
        P,
        crate::LinkNoGen<P, T>,
        T,
        crate::LinkValue,
    >;

    /// The pointers and the links, in the order of the indexes.
    pub type IterLinkNoGen<'a, P, T> = triple_arena::arena_iterators::Iter<
        'a,
        P,
        crate::LinkNoGen<P, T>,
    >;

    /// The pointers, in the order of the indexes.
    pub type Ptrs<'a, P, T> = triple_arena::arena_iterators::Ptrs<'a, P, crate::LinkNoGen<P, T>>;

    /// The values of the links, in the order of the indexes.
    pub type Vals<'a, P, T> = triple_arena::arena_iterators::PartVals<
        'a,
        P,
        crate::LinkNoGen<P, T>,
        T,
        crate::LinkValue,
    >;
}

pub use chain_arena::copy_source::{LinkCloneSource, Neighbors};
pub use chain_arena::insertion::entry::ChainArenaInsertEntry;
pub use chain_arena::{
    ArrayChainArena, BoxedChainArena, ChainArena, HeapChainArena, LimitedChainArena,
};
pub use chain_arena_trait::ChainArenaTrait;
pub use kind::{InsertKind, LinkInsertKind};
pub use link::{IndexLink, LinkNoGen, LinkValue};
pub use ptr_link::Link;
pub use slots::ChainSlots;
pub use triple_arena_ptr::ChainInsertionError;
