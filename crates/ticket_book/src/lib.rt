//! A book of living tickets: under each the kind of its item, and a pointer to it. Contracts see a
//! list of entries in the order of their tickets.
//!
//! The entries stand in an ordered arena, so a ticket is found by a counted search, and nothing
//! moves if one is taken out. A new ticket is above all others: it goes in behind the last one, and
//! is compared with none. If the items got other pointers, each entry takes the new one from a
//! mirror, which has it under the old one.
#![tactic(auto)]

// The clause `no_more` asks nothing. It stands beside a `requires` that callers answer by hand,
// which alone takes long to state.

mod book;
mod entry;
mod moving;
mod renewal;

pub use book::{TicketBook, TicketSlot};
pub use entry::{Entry, Kind};
