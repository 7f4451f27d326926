//! Readers and writers whose calls are counted.
ghost use Rattle.std.specs.Prelude.{◌≡◌, ◌+◌};
ghost use Rattle.std.specs.Io.{ReadsAtMost, WritesAtMost};
ghost use Rattle.std.specs.Io.KnownBytes.{Keeps, ReadConsumes, WriteAppends};

use std::io;
use std::io::{Read, Write};
use triple_arena_ptr::Probes;

/// A reader or writer whose bytes are those of its inner one, with a count of the calls and of
/// those that failed.
#[derive(Drop)]
pub struct Watched<T> {
    inner: T,
    failed: Probes,
    calls: Probes,
}

impl<T> Watched<T> {
    ghost use Rattle.route_lines.specs.Watched.{inner_of, failed_of, calls_of};

    /// Watches a reader or a writer from here on.
    pub fn new(inner: T) -> Self
        ensures inner { inner_of result ≡ inner }
        ensures failed { failed_of result ≡ 0 }
        ensures calls { calls_of result ≡ 0 }
    {
        Watched {
            inner,
            failed: Probes::new(),
            calls: Probes::new(),
        }
    }

    /// The calls that failed, a write that took none of some bytes included. Nothing but such a
    /// call counts here.
    pub fn failed(&self) -> &Probes
        ensures { result.now ≡ failed_of self.now }
    {
        &self.failed
    }

    /// All calls.
    pub fn calls(&self) -> &Probes
        ensures { result.now ≡ calls_of self.now }
    {
        &self.calls
    }

    /// The reader or writer itself.
    pub fn into_inner(self) -> T
        ensures { result ≡ inner_of self }
    {
        let Watched {
            inner,
            failed: _,
            calls: _,
        } = self;
        inner
    }
}

impl<R: Read> Read for Watched<R> {
    ghost use Rattle.route_lines.specs.Watched.{failures, failed_of, calls_of};

    ghost remaining = { λ w. R.remaining w.inner };

    fn read(&mut self, buf: &mut [u8]) -> io::Result<usize>
        ensures bound { ReadsAtMost result buf.new }
        ensures bytes { ReadConsumes (R.remaining self.old.inner)
            (R.remaining self.new.inner) result buf.new }
        ensures failed { failed_of self.new ≡ failed_of self.old + failures result }
        ensures calls { calls_of self.new ≡ calls_of self.old + 1 }
    {
        self.calls.tick();
        let outcome = self.inner.read(buf);
        if outcome.is_err() {
            self.failed.tick();
        }
        outcome
    }
}

impl<W: Write> Write for Watched<W> {
    ghost use Rattle.route_lines.specs.Watched.{failures, write_failures, failed_of, calls_of};

    ghost contents = { λ w. W.contents w.inner };

    fn write(&mut self, buf: &[u8]) -> io::Result<usize>
        ensures bound { WritesAtMost result buf.now }
        ensures bytes { WriteAppends (W.contents self.old.inner)
            (W.contents self.new.inner) result buf.now }
        ensures failed { failed_of self.new ≡ failed_of self.old + write_failures result buf.now }
        ensures calls { calls_of self.new ≡ calls_of self.old + 1 }
    {
        self.calls.tick();
        let outcome = self.inner.write(buf);
        match outcome {
            Ok(n) if n > 0 || buf.is_empty() => {}
            _ => self.failed.tick(),
        }
        outcome
    }

    fn flush(&mut self) -> io::Result<()>
        ensures bytes { Keeps (W.contents self.old.inner) (W.contents self.new.inner) }
        ensures failed { failed_of self.new ≡ failed_of self.old + failures result }
        ensures calls { calls_of self.new ≡ calls_of self.old + 1 }
    {
        self.calls.tick();
        let outcome = self.inner.flush();
        if outcome.is_err() {
            self.failed.tick();
        }
        outcome
    }
}
