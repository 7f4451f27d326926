//! What changes a store's state.
use crate::word::Word;

/// A change of a store's state, for proofs alone.
#[derive(Drop)]
pub enum Change<'a> {
    /// A new store: the rooms of places, stops and marks, and the last ticket that counts as given.
    Open(usize, usize, usize, u64),
    /// A place with this key and word.
    Place(u64, &'a Word),
    /// Another word for the place with this ticket.
    Word(u64, &'a Word),
    /// A stop at this place, alone on a linear route.
    Start(u64),
    /// Directly behind this stop, a stop at this place.
    Extend(u64, u64),
    /// The second stop follows the first.
    Join(u64, u64),
    /// No stop follows this one.
    Cut(u64),
    /// The two stops exchange the stops that follow them.
    Swap(u64, u64),
    /// A mark of this place and this stop.
    Mark(u64, u64),
    /// The place, stop or mark of the ticket ends, and each reference to it is gone.
    Remove(u64),
    /// Other rooms of places, stops and marks.
    Move(usize, usize, usize),
}
