//! Sums over the values of an arena, by its iterators, and how many entries they tell of.
ghost use Rattle.std.specs.Prelude.{◌≡◌, ◌%◌, ◌^◌, Some, map as list_map};
ghost use Rattle.std.specs.List.{sum};
ghost use Rattle.triple_arena.specs.Compression.{value_of};
ghost use Rattle.triple_arena.specs.Content.{live_count};
ghost use Rattle.triple_arena.specs.DirectContent.{live_entries as direct_entries};
ghost use Rattle.triple_arena.specs.LiveEntries.{live_entries};

use triple_arena::{Arena, ArenaSlots, DirectArena, DirectSlots, PtrCore};

/// The sum of the values. Past the greatest number it goes on from 0.
pub fn sum_of<P: PtrCore, S: ArenaSlots<P, u64>>(arena: &Arena<P, u64, S>) -> u64
    ensures { result ≡ sum (list_map value_of (live_entries arena.now)) % 2 ^ 64 }
{
    let mut total = 0u64;
    for value in arena.vals() {
        total = total.wrapping_add(*value);
    }
    total
}

/// The sum of the values of a direct arena. Past the greatest number it goes on from 0.
pub fn direct_sum_of<P: PtrCore, S: DirectSlots<P, u64>>(arena: &DirectArena<P, u64, S>) -> u64
    ensures { result ≡ sum (list_map value_of (direct_entries arena.now)) % 2 ^ 64 }
{
    let mut total = 0u64;
    for (_, value) in arena {
        total = total.wrapping_add(*value);
    }
    total
}

/// The sum of the values, each beside its pointer. Past the greatest number it goes on from 0.
pub fn sum_of_entries<P: PtrCore, S: ArenaSlots<P, u64>>(arena: &Arena<P, u64, S>) -> u64
    ensures { result ≡ sum (list_map value_of (live_entries arena.now)) % 2 ^ 64 }
{
    let mut total = 0u64;
    for (_, value) in arena.iter() {
        total = total.wrapping_add(*value);
    }
    total
}

/// How many entries there are, as an iterator tells, and its hint.
pub fn told_by_iter<P: PtrCore, S: ArenaSlots<P, u64>>(
    arena: &Arena<P, u64, S>,
) -> (usize, (usize, Option<usize>))
    ensures len { result.0 ≡ live_count arena.now }
    ensures hint { result.1 ≡ (live_count arena.now, Some (live_count arena.now)) }
{
    let entries = arena.iter();
    (entries.len(), entries.size_hint())
}
