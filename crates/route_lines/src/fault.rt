//! Why a run ends early.
use std::io;
use thiserror::Error;

/// Why a run ended before the end of its input was answered.
#[derive(Debug, Drop, Error)]
pub enum RunFault {
    /// The input could not be read. Every whole line that was read is carried out and answered, the
    /// rest is dropped.
    #[error("read failed")]
    Read(io::Error),
    /// A reply could not be written, or not be flushed. The line being answered is carried out,
    /// none after it.
    #[error("write failed")]
    Write(io::Error),
    /// There were 2^64 - 1 reads without an end of the input. All else is as at `Read`.
    #[error("the input does not end")]
    TooLong,
}
