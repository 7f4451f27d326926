//! What the arenas and their stacks refuse.

pub use std::alloc::AllocError;
use thiserror::Error;

/// An arena or a stack has too few free places for what was asked, and the call makes no more.
#[derive(Clone, Copy, Debug, PartialEq, Eq, Error)]
#[error("not within the capacity")]
pub struct NotWithinCapacityError;

/// A greatest capacity was asked for that what is kept now does not fit.
#[derive(Clone, Copy, Debug, PartialEq, Eq, Error)]
#[error("the maximum capacity cannot be reduced below what is in use")]
pub struct MaxCapacityReductionError;

/// A call that may take memory could not make its room greater.
#[derive(Clone, Copy, Debug, PartialEq, Eq, Error)]
pub enum ReallocationError {
    /// More places are needed than the greatest capacity.
    #[error("beyond the maximum capacity")]
    BeyondMaxCapacity,
    /// The allocator refused the memory.
    #[error("memory allocation failed")]
    AllocError,
}

/// An insertion at a place of the caller's choice was refused.
#[derive(Clone, Copy, Debug, PartialEq, Eq, Error)]
pub enum DirectInsertionError {
    /// The index is past the capacity.
    #[error("the index is not within the capacity")]
    NotWithinCapacity,
    /// An element lives at the index already.
    #[error("an element exists at the index already")]
    ExistingElementAtIndex,
}

/// An insertion into a chain was refused.
#[derive(Clone, Copy, Debug, PartialEq, Eq, Error)]
pub enum ChainInsertionError {
    /// The links that the kind of insertion names do not meet its requirement.
    #[error("the requirement on the links is not met")]
    FailedLinkRequirement,
    /// There is no free place, and the call makes no more.
    #[error("not within the capacity")]
    NotWithinCapacity,
    /// More places are needed than the greatest capacity.
    #[error("beyond the maximum capacity")]
    BeyondMaxCapacity,
    /// The allocator refused the memory.
    #[error("memory allocation failed")]
    AllocError,
}

/// An insertion into an ordered arena was refused.
#[derive(Clone, Copy, Debug, PartialEq, Eq, Error)]
pub enum OrdInsertionError {
    /// The kind of insertion does not fit what the arena holds.
    #[error("the requirement on the order is not met")]
    FailedOrdRequirement,
    /// There is no free place, and the call makes no more.
    #[error("not within the capacity")]
    NotWithinCapacity,
    /// More places are needed than the greatest capacity.
    #[error("beyond the maximum capacity")]
    BeyondMaxCapacity,
    /// The allocator refused the memory.
    #[error("memory allocation failed")]
    AllocError,
}

/// Two elements cannot be borrowed for writing at once.
#[derive(Clone, Copy, Debug, PartialEq, Eq, Error)]
pub enum GetDisjointMutError {
    /// No element lives at one of the two places. This is tested first.
    #[error("no element exists at one of the places")]
    IndexOutOfBounds,
    /// The two places are one.
    #[error("the places overlap")]
    OverlappingIndices,
}
