//! A reader and a writer in memory, which give and take pieces of a set length, and fail if they
//! are told to.
use std::io;
use std::io::{ErrorKind, Read, Write};
use test_kit::Call;

/// Gives its bytes, at most `step` of them a time.
#[derive(Drop)]
pub struct Pieces<'a> {
    left: &'a [u8],
    step: usize,
    // Whether it fails at the end of its bytes.
    fails: bool,
}

impl<'a> Pieces<'a> {
    /// A reader that gives all its bytes.
    pub fn new(bytes: &'a [u8], step: usize) -> Self {
        Pieces {
            left: bytes,
            step,
            fails: false,
        }
    }

    /// A reader of these bytes as the line of a run says.
    pub fn told(bytes: &'a [u8], line: &Call<'_>) -> Self {
        Pieces {
            left: bytes,
            step: limit(line.first),
            fails: line.verb == "broken",
        }
    }

    /// How many bytes it has still to give.
    pub fn unread(&self) -> usize {
        self.left.len()
    }
}

impl<'a> Read for Pieces<'a> {
    fn read(&mut self, buf: &mut [u8]) -> io::Result<usize> {
        if self.left.is_empty() && self.fails {
            return Err(io::Error::from(ErrorKind::Interrupted));
        }
        let given = self.step.min(self.left.len()).min(buf.len());
        let (piece, left) = self.left.split_at(given);
        buf[..given].copy_from_slice(piece);
        self.left = left;
        Ok(given)
    }
}

/// Takes `room` bytes in all, at most `step` of them a time, behind a text.
#[derive(Drop)]
pub struct Page {
    /// What it took.
    pub text: String,
    step: usize,
    room: usize,
    // Whether it takes none if it has no room, and else fails.
    stalls: bool,
    flush_fails: bool,
    /// How often it was flushed.
    pub flushes: u64,
}

impl Page {
    /// A writer that takes everything.
    pub fn new(text: String, step: usize) -> Self {
        Page {
            text,
            step,
            room: usize::MAX,
            stalls: false,
            flush_fails: false,
            flushes: 0,
        }
    }

    /// A writer as the line of a run says.
    pub fn told(text: String, line: &Call<'_>) -> Self {
        Page {
            text,
            step: limit(line.second),
            room: match line.verb {
                "full" | "idle" => 0,
                _ => limit(line.third),
            },
            stalls: line.verb == "stalling" || line.verb == "idle",
            flush_fails: line.verb == "unflushed",
            flushes: 0,
        }
    }
}

// A number of bytes, where 0 is as many as there are.
fn limit(number: u64) -> usize {
    if number == 0 {
        usize::MAX
    } else {
        number as usize
    }
}

impl Write for Page {
    fn write(&mut self, buf: &[u8]) -> io::Result<usize> {
        let taken = self.step.min(buf.len()).min(self.room);
        if taken == 0 && !buf.is_empty() && !self.stalls {
            return Err(io::Error::from(ErrorKind::Interrupted));
        }
        let Ok(piece) = str::from_utf8(&buf[..taken]) else {
            return Err(io::Error::from(ErrorKind::InvalidData));
        };
        self.text.push_str(piece)?;
        self.room -= taken;
        Ok(taken)
    }

    fn flush(&mut self) -> io::Result<()> {
        self.flushes = self.flushes.saturating_add(1);
        if self.flush_fails {
            return Err(io::Error::from(ErrorKind::Interrupted));
        }
        Ok(())
    }
}
