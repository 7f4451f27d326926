//! Examples of what arenas and chain arenas are for, each a page to copy from. Those of ordered
//! arenas are in `example_ord`, and tables beside an arena in `side_table`.
//!
//! - [`Scheduler`]: tasks named by pointers, where a task that was cancelled is never found again.
//! - [`Scene`]: nodes that name their parents by numbers, which a compression does not change.
//! - [`compress_with_table`], [`compress_and_follow`]: pointers that follow their entries through a
//!   compression, which the scene stands on.
//! - [`tidy`]: a document whose nodes name one another by pointers, which is compressed and keeps
//!   its names.
//! - [`number_paragraphs`]: a document whose sections are lists of paragraphs, which get successive
//!   numbers.
//! - [`add_after`], [`reverse_pair`], [`play_from`]: playlists, which are lists in a chain arena.
//! - [`Cache`]: entries in the order of their last use, of which the one used longest ago makes
//!   way.
#![tactic(auto)]

mod cache;
mod document;
mod follow;
mod playlist;
mod scene;
mod scheduler;
mod sections;

pub use cache::Cache;
pub use document::tidy;
pub use follow::{Moved, compress_and_follow, compress_with_table};
pub use playlist::{add_after, play_from, reverse_pair};
pub use scene::{Node, Scene};
pub use scheduler::{Scheduler, Task};
pub use sections::number_paragraphs;
