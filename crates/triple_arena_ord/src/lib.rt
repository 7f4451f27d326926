//! One ordered list of items in an arena, whose links are also the nodes of a rank balanced search
//! tree. A port of the ordered arena of the Rust crate `triple_arena`.
//!
//! ```rust
//! use std::alloc::Global;
//! use triple_arena::{ArenaTrait, P0};
//! use triple_arena_ord::{HeapOrdArena, OrdPair};
//!
//! fn main(rt: HostRuntime) -> anyhow::Result<()> {
//!     let mut book: HeapOrdArena<P0, OrdPair<u64, &str>, Global> = HeapOrdArena::new(rt.alloc());
//!     book.insert(OrdPair::new(105, "eve"))?;
//!     book.insert(OrdPair::new(101, "bob"))?;
//!     for (_, order) in book.iter_ordered() {
//!         println!(rt; "{order:?}")?; // (101, "bob"), then (105, "eve")
//!     }
//!     Ok(())
//! }
//! ```
#![tactic(auto)]

// A private function's clause `no_more` asks nothing. It stands where a `requires` would be alone,
// whose answers take far longer to state.

mod ascends;
mod asks;
mod item;
mod kind;
pub mod laws;
mod leaf;
mod links;
mod list_searches;
mod node;
mod node_store;
mod ord_arena;
mod pair;
mod rebuild;
mod rebuild_run;
mod slots;
mod uprooting;

/// The advancers, the iterators and the drains of `SimpleOrdArena`.
pub mod ord_iterators {
    use crate::SimpleOrdArena;
    pub use crate::ord_arena::drain::OrderedDrain;
    pub use crate::ord_arena::into_iter::CapacityDrain;
    pub use crate::ord_arena::iter_ordered::Iter;
    pub use crate::ord_arena::walk::OrderedPtrAdvancer;
    pub use triple_arena::arena_iterators::PtrAdvancer;

    /// The entries, each taken out, in the order of the indexes.
    pub type Drain<'a, P, T, S> = triple_arena::Drain<'a, P, T, SimpleOrdArena<P, T, S>>;

    /// The pointers and the items, in the order of the indexes.
    pub type InxIter<'a, P, T> = triple_arena::arena_iterators::PartIter<
        'a,
        P,
        triple_arena_chain::LinkNoGen<P, crate::SimpleOrdArenaNode<P, T>>,
        T,
        crate::NodeItem,
    >;

    /// The pointers, in the order of the indexes.
    pub type Ptrs<'a, P, T> = triple_arena_chain::chain_iterators::Ptrs<
        'a,
        P,
        crate::SimpleOrdArenaNode<P, T>,
    >;

    /// The items, in the order of the indexes.
    pub type Vals<'a, P, T> = triple_arena::arena_iterators::PartVals<
        'a,
        P,
        triple_arena_chain::LinkNoGen<P, crate::SimpleOrdArenaNode<P, T>>,
        T,
        crate::NodeItem,
    >;
}

pub use item::SimpleOrdItem;
pub use kind::{InsertKind, OrdEntryKind, OrdInsertKind};
pub use node::{IndexNode, NodeItem, SimpleOrdArenaNode};
pub use ord_arena::insertion::entry::SimpleOrdArenaInsertEntry;
pub use ord_arena::{ArrayOrdArena, BoxedOrdArena, HeapOrdArena, LimitedOrdArena, SimpleOrdArena};
pub use pair::OrdPair;
pub use slots::OrdSlots;
pub use triple_arena_ptr::{OrdInsertionError, Probes};
