//! A store with a line language, and a program over it. It keeps places, routes of stops at places,
//! and marks of a place and a stop; each has a ticket that is given once.
//!
//! ```text
//! place 50 oak           1
//! place 30 elm           2
//! place 40 ash near 2    3
//! all                    2 30 elm, 3 40 ash, 1 50 oak, end
//! start 1                4
//! extend 4 2             5
//! walk 4                 4 1, 5 2, end
//! mark 3 5               6
//! show 6                 3 5
//! remove 1               ok
//! show 4                 at gone
//! ```
//!
//! [`run`] answers an input on an output, line by line, and [`program`] makes a store of the rooms
//! that its arguments name and runs over it. [`RouteBook`] has the calls themselves. A store takes
//! its memory when it is made, and none later. [`RouteBook::into_room`] makes another store, and
//! moves all to it.
//!
//! A removal leaves the references to its item as they are; they find nothing. A pack moves all
//! items to the first indexes, and makes each reference that finds nothing `Gone`. A pointer that a
//! caller kept from one of the arenas may find another item after a pack, or none.
#![tactic(auto)]

// A call of `len` or `capacity` whose result is dropped tells the proof an invariant.
//
// A private function's clause `no_more` asks nothing. It stands where a `requires` would be alone,
// whose answers take far longer to state.

mod answer;
mod backing;
mod book;
mod command_line;
mod items;
pub mod laws;
mod mirrors;
mod parts;
mod place_arena;
mod places;
mod recasts;
mod running;
mod transfers;

pub use backing::{
    BookBacking, MarkSlot, OnArray, OnFixed, OnHeap, OnLimited, PlaceSlot, StopSlot,
};
pub use book::{RouteBook, Walk};
pub use command_line::program;
pub use items::{Mark, Place, PlaceKey, Ref, Stop};
pub use places::Places;
pub use route_lines::{
    Command, Counts, Refusal, RoomError, RunFault, Shown, Watched, Word, read_line, read_number,
};
pub use running::run;
pub use triple_arena_ptr::{Probes, PtrCore};
