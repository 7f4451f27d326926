//! Limits that can be set.
ghost use Rattle.std.specs.Prelude.{◌≡◌, ℕ, ◌≤◌, ◌↔◌, length, IsOk, OnOk, OnErr};
ghost use Rattle.triple_arena_stack.specs.Room.{limited};

use crate::NonZeroInxGenericStack;
use triple_arena_ptr::MaxCapacityReductionError;

/// What has a greatest capacity that can be set.
pub trait SetMaxCapacity {
    // The least limit that is accepted.
    ghost least_limit: { Self → ℕ };

    // The same with this limit.
    ghost with_limit: { Self → ℕ → Self };

    /// Sets the greatest capacity to `max`. If more is in use, it returns
    /// `MaxCapacityReductionError` and changes nothing.
    fn set_max_capacity(&mut self, max: usize) -> Result<(), MaxCapacityReductionError>
        ensures variant { IsOk result ↔ (least_limit self.old ≤ max) }
        ensures ok { OnOk result (self.new ≡ with_limit self.old max) }
        ensures err { OnErr result (self.new ≡ self.old) };
}

/// A stack whose limit can be set. It accepts each limit that is not below its length.
pub trait NonZeroInxLimitedStack: NonZeroInxGenericStack + SetMaxCapacity {
    ghost least_limit_is_len: { (s : Self) → Self.least_limit s ≡ length (Self.items s) };

    ghost items_with_limit: { (s : Self) (n : ℕ)
        → Self.items (Self.with_limit s n) ≡ Self.items s };

    ghost room_with_limit: { (s : Self) (n : ℕ)
        → Self.room (Self.with_limit s n) ≡ limited (Self.room s) n };
}
