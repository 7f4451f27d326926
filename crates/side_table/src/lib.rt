//! A table beside an arena: values under the pointers of the arena's entries, which follow them
//! through a compression.
//!
//! ```rust
//! use side_table::{compress_beside, put_beside};
//! use std::alloc::Global;
//! use triple_arena::{ArenaInsertTrait, ArenaTrait, HeapArena, HeapDirectArena, P0};
//!
//! fn main(rt: HostRuntime) -> anyhow::Result<()> {
//!     let mut trees: HeapArena<P0, &str, Global> = HeapArena::new(rt.alloc());
//!     let mut heights: HeapDirectArena<P0, u64, Global> = HeapDirectArena::new(rt.alloc());
//!     let oak = trees.insert("oak")?;
//!     let elm = trees.insert("elm")?;
//!     let _ = put_beside(&mut heights, elm, trees.capacity(), 30)?;
//!     drop(trees.remove(oak));
//!     let mut map = HeapDirectArena::new(rt.alloc());
//!     compress_beside(&mut trees, &mut heights, &mut map, false)?;
//!     if let Some(elm) = trees.find_first_inx_ptr() {
//!         println!(rt; "{elm} {:?}", heights.get(elm))?; // P0[1](4) Some(30)
//!     }
//!     Ok(())
//! }
//! ```
#![tactic(auto)]

// A private function's clause `no_more` asks nothing. It stands where a `requires` would be alone,
// whose answers take far longer to state.

mod following;
mod storing;

pub use following::{compress_beside, follow_compression};
pub use storing::put_beside;
