//! Why a call is refused, and why a store cannot be made.
use thiserror::Error;

/// Why a call on a store was refused. A refused call changes nothing.
#[derive(Clone, Copy, Debug, PartialEq, Eq, Error)]
pub enum Refusal {
    /// The ticket was never given.
    #[error("unknown")]
    Unknown,
    /// The item that had the ticket has ended.
    #[error("gone")]
    Gone,
    /// The ticket's item is of another kind than the call asks for.
    #[error("kind")]
    Kind,
    /// The stops' links do not allow it.
    #[error("no")]
    No,
    /// No further item of the kind fits the room, or every ticket has been given.
    #[error("full")]
    Full,
}

/// Why a store cannot be made.
#[derive(Clone, Copy, Debug, PartialEq, Eq, Error)]
pub enum RoomError {
    /// The pointers' generations do not count to 3.
    #[error("generation")]
    Generation,
    /// The rooms together are past what an index can count.
    #[error("index")]
    Index,
    /// The rooms together are past what a stack of the backing holds.
    #[error("stack")]
    Stack,
    /// The memory was refused.
    #[error("memory")]
    Memory,
    /// More items live than the new room holds.
    #[error("too small")]
    TooSmall,
}
