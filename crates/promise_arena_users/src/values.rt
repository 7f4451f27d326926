//! Values that change by a compression, in code that is generic in the arena.
ghost use Rattle.std.specs.Prelude.{◌≡◌, ℕ, ◌+◌, ◌%◌, ◌^◌, false, map as list_map};
ghost use Rattle.std.specs.List.{AllZip};
ghost use Rattle.triple_arena_ptr.specs.InvalidationOption.{overflowed};
ghost use Rattle.triple_arena.specs.Changes.{IsCompressed};
ghost use Rattle.triple_arena.specs.Compression.{value_of, generation_of, compression_wraps};
ghost use Rattle.triple_arena.specs.Compression.{given_in_turn};

use triple_arena::{ArenaTrait, InvalidationOption, PtrCore};

/// Adds `by` to each value, and moves the entries to the first indexes. A sum past the greatest
/// number goes on from 0.
pub fn raise<P: PtrCore, A: ArenaTrait<P, u64>>(arena: &mut A, by: u64) -> InvalidationOption<()>
    ensures values { list_map value_of (A.live_entries arena.new)
        ≡ list_map (λ v. (v + by) % 2 ^ 64) (list_map value_of (A.live_entries arena.old)) }
    ensures overflow { overflowed result ≡ compression_wraps P.Gen.last false (A.counter arena.old)
        (list_map generation_of (A.live_entries arena.old)) }
    ensures compressed { IsCompressed A.entry_at A.live_count A.counter A.room P.Gen.last
        A.live_entries false arena.old arena.new }
{
    arena.compress_with(false, |_, value, _| value.wrapping_add(by))
}

/// Gives each entry what `f` makes of its value, and moves the entries to the first indexes.
pub fn map_values<P: PtrCore, T: Drop, A: ArenaTrait<P, T>, F: Fn(T) -> T>(
    arena: &mut A,
    f: F,
) -> InvalidationOption<()>
    requires { F.IsAlwaysCallable f }
    ensures values { AllZip (F.post f) (list_map value_of (A.live_entries arena.old))
        (list_map value_of (A.live_entries arena.new)) }
    ensures overflow { overflowed result ≡ compression_wraps P.Gen.last false (A.counter arena.old)
        (list_map generation_of (A.live_entries arena.old)) }
    ensures compressed { IsCompressed A.entry_at A.live_count A.counter A.room P.Gen.last
        A.live_entries false arena.old arena.new }
{
    arena.compress_with(false, |_, value, _| f(value))
}

/// Replaces each value by the sum of the values up to it, in the order of the indexes.
pub fn sum_up<P: PtrCore, A: ArenaTrait<P, u64>>(arena: &mut A) -> InvalidationOption<()>
    ensures values { list_map value_of (A.live_entries arena.new)
        ≡ given_in_turn (λ sum v. (sum + v) % 2 ^ 64) (λ sum v. (sum + v) % 2 ^ 64) 0
        (list_map value_of (A.live_entries arena.old)) }
    ensures overflow { overflowed result ≡ compression_wraps P.Gen.last false (A.counter arena.old)
        (list_map generation_of (A.live_entries arena.old)) }
    ensures compressed { IsCompressed A.entry_at A.live_count A.counter A.room P.Gen.last
        A.live_entries false arena.old arena.new }
{
    let mut sum = 0u64;
    arena.compress_with(false, |_, value, _| {
        sum = sum.wrapping_add(value);
        sum
    })
}
