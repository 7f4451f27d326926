//! Insertion at an index that the arena chooses.
ghost use Rattle.std.specs.Prelude.{◌≡◌, ℕ, ◌<◌, ◌↔◌, IsOk, IfOk, OnOk, OnErr};
ghost use Rattle.triple_arena_stack.specs.Push.{IsRefusal};
ghost use Rattle.triple_arena_stack.specs.Room.{capacity as capacity_of, room_after};
ghost use Rattle.triple_arena.specs.Changes.{IsInserted};

use crate::ArenaTrait;
use triple_arena_ptr::{NotWithinCapacityError, PtrCore, ReallocationError};

/// The arenas that choose the index of an entry. Each entry gets the generation of the counter.
pub trait ArenaInsertTrait<P: PtrCore, T: Drop>: ArenaTrait<P, T> {
    // The index of the next entry.
    ghost next_index: { Self → ℕ };

    // The arena with one entry more.
    ghost inserted: { Self → T → Self };

    // The arena with room for one entry more.
    ghost grown_if_full: { Self → Self };

    /// Stores `t` if there is room. Else it returns `NotWithinCapacityError`, the arena stays as it
    /// is, and `t` is dropped.
    fn insert_within_capacity(&mut self, t: T) -> Result<P, NotWithinCapacityError>
        ensures variant { IsOk result
            ↔ (Self.live_count self.old < capacity_of (Self.room self.old)) }
        ensures inserted { IfOk result (λ p. IsInserted Self.entry_at Self.live_count Self.counter
            (next_index self.old) (P.index p) (P.generation p) t self.old self.new) }
        ensures exact { OnOk result (self.new ≡ inserted self.old t) }
        ensures room { Self.room self.new ≡ Self.room self.old }
        ensures formed { Self.is_formed self.new }
        ensures err { OnErr result (self.new ≡ self.old) };

    /// Stores `t`. If there is no room, the arena grows: to room for 4 at first, then for the
    /// double, and never past its greatest capacity.
    ///
    /// It returns `BeyondMaxCapacity` if as many entries are live as the greatest capacity, and
    /// `AllocError` if the memory was refused. The arena is then as it was, and `t` is dropped.
    fn insert_reallocating(&mut self, t: T) -> Result<P, ReallocationError>
        ensures inserted { IfOk result (λ p. IsInserted Self.entry_at Self.live_count Self.counter
            (next_index self.old) (P.index p) (P.generation p) t self.old self.new) }
        ensures exact { OnOk result (self.new ≡ inserted (grown_if_full self.old) t) }
        ensures room { OnOk result (Self.room self.new
            ≡ room_after (Self.live_count self.old) (Self.room self.old)) }
        ensures formed { Self.is_formed self.new }
        ensures refusal { IsRefusal Self.takes_memory (Self.live_count self.old)
            (Self.room self.old) result }
        ensures err { OnErr result (self.new ≡ self.old) };

    // After a `clear` the next index is the first one, and a write of a value keeps it.
    ghost next_index_cleared: { (s : Self) → next_index (Self.cleared s) ≡ 1 };

    ghost next_index_with_value: { (s : Self) (i : ℕ) (t : T)
        → next_index (Self.with_value s i t) ≡ next_index s };

    /// Stores `t`: another name of `insert_reallocating`. If there is no room, the arena grows. It
    /// returns `BeyondMaxCapacity` if as many entries are live as the greatest capacity, and
    /// `AllocError` if the memory was refused. The arena is then as it was, and `t` is dropped.
    #[inline]
    final fn insert(&mut self, t: T) -> Result<P, ReallocationError>
        ensures inserted { IfOk result (λ p. IsInserted Self.entry_at Self.live_count Self.counter
            (next_index self.old) (P.index p) (P.generation p) t self.old self.new) }
        ensures exact { OnOk result (self.new ≡ inserted (grown_if_full self.old) t) }
        ensures room { OnOk result (Self.room self.new
            ≡ room_after (Self.live_count self.old) (Self.room self.old)) }
        ensures formed { Self.is_formed self.new }
        ensures refusal { IsRefusal Self.takes_memory (Self.live_count self.old)
            (Self.room self.old) result }
        ensures err { OnErr result (self.new ≡ self.old) }
    {
        self.insert_reallocating(t)
    }
}
