//! Readers and writers in memory that give and take pieces of a set length, and fail where they are
//! told to.

use arrayvec::ArrayVec;
use std::io;
use std::io::{ErrorKind, Read, Write};

/// Gives its bytes, at most `step` of them a time.
#[derive(Drop)]
pub(crate) struct Pieces<'a> {
    pub(crate) left: &'a [u8],
    pub(crate) step: usize,
    /// Whether it fails where its bytes end.
    pub(crate) fails: bool,
}

impl<'a> Pieces<'a> {
    /// A reader that gives all its bytes.
    pub(crate) fn new(bytes: &'a [u8], step: usize) -> Self {
        Pieces {
            left: bytes,
            step,
            fails: false,
        }
    }

    /// A reader that gives its bytes, at most `step` at a time, and then fails.
    pub(crate) fn broken(bytes: &'a [u8], step: usize) -> Self {
        Pieces {
            left: bytes,
            step,
            fails: true,
        }
    }
}

impl<'a> Read for Pieces<'a> {
    fn read(&mut self, buf: &mut [u8]) -> io::Result<usize> {
        if self.left.is_empty() && self.fails {
            return Err(io::Error::from(ErrorKind::BrokenPipe));
        }
        let given = self.step.min(self.left.len()).min(buf.len());
        let (piece, left) = self.left.split_at(given);
        buf[..given].copy_from_slice(piece);
        self.left = left;
        Ok(given)
    }
}

/// What a writer does with bytes that it has no room for.
#[derive(Clone, Copy, PartialEq, Eq, Debug)]
pub(crate) enum Full {
    Fails,
    TakesNone,
}

/// Takes `room` bytes in all, at most `step` of them a time, and keeps them without taking memory.
#[derive(Drop)]
pub(crate) struct Page {
    bytes: ArrayVec<u8, 8192>,
    pub(crate) step: usize,
    pub(crate) room: usize,
    pub(crate) full: Full,
    pub(crate) flush_fails: bool,
    /// Flushes so far.
    pub(crate) flushes: u8,
}

impl Page {
    /// A writer that takes everything.
    pub(crate) fn new(step: usize) -> Self {
        Page {
            bytes: ArrayVec::new(),
            step,
            room: 8192,
            full: Full::Fails,
            flush_fails: false,
            flushes: 0,
        }
    }

    /// What was written.
    pub(crate) fn text(&self) -> &[u8] {
        self.bytes.as_slice()
    }
}

impl Write for Page {
    fn write(&mut self, buf: &[u8]) -> io::Result<usize> {
        let room = self.room.saturating_sub(self.bytes.len());
        let taken = self.step.min(buf.len()).min(room);
        if taken == 0 && !buf.is_empty() && self.full == Full::Fails {
            return Err(io::Error::from(ErrorKind::BrokenPipe));
        }
        match self.bytes.try_extend_from_slice(&buf[..taken]) {
            Ok(()) => Ok(taken),
            Err(_) => Err(io::Error::from(ErrorKind::StorageFull)),
        }
    }

    fn flush(&mut self) -> io::Result<()> {
        self.flushes = self.flushes.saturating_add(1);
        if self.flush_fails {
            return Err(io::Error::from(ErrorKind::BrokenPipe));
        }
        Ok(())
    }
}
