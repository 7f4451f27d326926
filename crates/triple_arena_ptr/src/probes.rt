//! A count of comparisons or look-ups, which contracts see without a bound.
ghost use Rattle.std.specs.Borrow.{ftrue};
ghost use Rattle.std.specs.Prelude.{◌≡◌, ◌+◌, ◌-◌, ◌^◌, ℕ, min};

use std::marker::Model;

/// Counts probes, as comparisons or look-ups. Contracts see the number of ticks so far, which has
/// no bound.
#[derive(Drop)]
pub struct Probes {
    count: u64,
    ticks: Ticks,
}

impl Model for Probes {
    ghost Value = { ℕ };

    ghost view = { λ p. p.ticks.number };

    ghost invariant = { λ p. p.count ≡ min p.ticks.number (2 ^ 64 - 1) };
}

impl Probes {
    /// Probes that have counted nothing.
    pub fn new() -> Self
        ensures { result ≡ 0 }
    {
        Self {
            count: 0,
            ticks: Ticks::new(),
        }
    }

    /// Counts one more.
    pub fn tick(&mut self)
        ensures { self.new ≡ self.old + 1 }
    {
        let Self { count, ticks } = self;
        *count = count.saturating_add(1);
        *ticks = ticks.next();
    }

    /// The number of ticks, or `u64::MAX` if it is greater.
    pub fn count(&self) -> u64
        ensures { result ≡ min self.now (2 ^ 64 - 1) }
    {
        self.count
    }
}

// The exact number, which proofs alone read. It takes no bytes; the invariant of `Probes` ties it
// to the count.
#[derive(Drop)]
struct Ticks {
    ghost number: { ℕ },
}

impl Model for Ticks {
    ghost also_owns = { λ _. ftrue };
}

impl Ticks {
    fn new() -> Self
        ensures { result.number ≡ 0 }
    {
        Self {}
    }

    fn next(&self) -> Self
        ensures { result.number ≡ self.now.number + 1 }
    {
        Self {}
    }
}
