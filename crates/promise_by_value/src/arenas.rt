//! An arena by value.
ghost use Rattle.std.specs.Prelude.{◌≡◌, ◌≤◌, ◌<◌, ◌%◌, ◌^◌, [], All, Contains, IfNone, IfOk};
ghost use Rattle.std.specs.Prelude.{IfSome, map as list_map};
ghost use Rattle.std.specs.List.{sum as sum_of};
ghost use Rattle.triple_arena.specs.Compression.{value_of};
ghost use Rattle.triple_arena.specs.Content.{live_count};
ghost use Rattle.triple_arena.specs.LiveEntries.{live_entries};

use std::alloc::{AllocError, Allocator, Global};
use triple_arena::{Arena, ArenaSlots, ArenaTrait, HeapArena, P0, PtrCore};

/// How many entries come.
#[tactic(auto, using(crate::proofs::CountLemmas::as_many))]
pub fn count<P: PtrCore, T: Drop, S: ArenaSlots<P, T>>(arena: Arena<P, T, S>) -> usize
    ensures { result ≡ live_count arena }
{
    let len = arena.len();
    let mut count = 0;
    for _entry in arena {
        count += 1;
    }
    prove!(count == len);
    count
}

/// The sum of the values. Past the greatest number it goes on from 0.
pub fn sum<P: PtrCore, S: ArenaSlots<P, u64>>(arena: Arena<P, u64, S>) -> u64
    ensures { result ≡ sum_of (list_map value_of (live_entries arena)) % 2 ^ 64 }
{
    let mut total = 0u64;
    for (_, value) in arena {
        total = total.wrapping_add(value);
    }
    total
}

/// The sum of the values of an arena on the heap, by a `for` of its own. Past the greatest number
/// it goes on from 0.
pub fn sum_on_heap(arena: HeapArena<P0, u64, Global>) -> u64
    ensures { result ≡ sum_of (list_map value_of (live_entries arena)) % 2 ^ 64 }
{
    let mut total = 0u64;
    for (_, value) in arena {
        total = total.wrapping_add(value);
    }
    total
}

/// The first entry whose value is at least this one. The others are dropped half-way.
pub fn find<P: PtrCore, S: ArenaSlots<P, u64>>(
    arena: Arena<P, u64, S>,
    least: u64,
) -> Option<(P, u64)>
    ensures none { IfNone result (All (λ e. value_of e < least) (live_entries arena)) }
    ensures some { IfSome result (λ e. (least ≤ e.1)
        × Contains (live_entries arena) (P.index e.0, (P.generation e.0, e.1))) }
{
    for (p, value) in arena {
        if value >= least {
            return Some((p, value));
        }
    }
    None
}

/// The first entry, by one `next`. The others are dropped.
pub fn first<P: PtrCore, T: Drop, S: ArenaSlots<P, T>>(arena: Arena<P, T, S>) -> Option<(P, T)>
    ensures none { IfNone result (live_entries arena ≡ []) }
    ensures some { IfSome result (λ e. Contains (live_entries arena)
        (P.index e.0, (P.generation e.0, e.1))) }
{
    let mut entries = arena.into_iter();
    let first = entries.next();
    drop(entries);
    first
}

/// The entries in the order of the indexes, or an error if memory is refused, which drops them
/// half-way.
pub fn listed<P: PtrCore, T: Drop, S: ArenaSlots<P, T>, A: Allocator>(
    arena: Arena<P, T, S>,
    alloc: A,
) -> Result<Vec<(P, T), A>, AllocError>
    ensures { IfOk result (λ v. list_map (λ e. (P.index e.0, (P.generation e.0, e.1))) v.items
        ≡ live_entries arena) }
{
    let mut entries = Vec::new(alloc);
    for entry in arena {
        entries.push(entry)?;
    }
    Ok(entries)
}
