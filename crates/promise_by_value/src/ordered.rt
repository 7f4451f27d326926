//! Callers that take an ordered arena by value: by a `for`, also one that is left half-way, and by
//! one `next`.
ghost use Rattle.std.specs.Prelude.{◌≡◌, ℕ, ◌≤◌, ◌<◌, ◌%◌, ◌^◌, [], All, Contains, IfNone, IfOk};
ghost use Rattle.std.specs.Prelude.{IfSome, map as list_map};
ghost use Rattle.std.specs.Int.NonZero.{non_zero_usize_get};
ghost use Rattle.std.specs.List.{sum as sum_of};
ghost use Rattle.std.specs.List.Sorted.{IsSorted};
ghost use Rattle.triple_arena.specs.Compression.{value_of};
ghost use Rattle.triple_arena_ord.specs.Ordered.{IsAscending, ordered_entries, size_in};

use std::alloc::{AllocError, Allocator, Global};
use triple_arena::{ArenaTrait, P0, PtrCore};
use triple_arena_ord::laws::the_list_has_as_many_entries_as_are_live;
use triple_arena_ord::{HeapOrdArena, OrdSlots, SimpleOrdArena, SimpleOrdItem};

/// How many entries come: as many as are live.
pub fn count<P: PtrCore, T: Drop, S: OrdSlots<P, T>>(arena: SimpleOrdArena<P, T, S>) -> usize
    ensures { result ≡ size_in arena }
{
    the_list_has_as_many_entries_as_are_live::<P, T>();
    let len = arena.len();
    let mut count = 0;
    for _entry in arena {
        count += 1;
    }
    prove!(count == len);
    count
}

/// The sum of the values. Past the greatest number it goes on from 0.
pub fn sum<P: PtrCore, S: OrdSlots<P, u64>>(arena: SimpleOrdArena<P, u64, S>) -> u64
    ensures { result ≡ sum_of (list_map value_of (ordered_entries arena)) % 2 ^ 64 }
{
    let mut total = 0u64;
    for (_, value) in arena {
        total = total.wrapping_add(value);
    }
    total
}

/// The sum of the values of an arena on the heap, by a `for` of its own. Past the greatest number
/// it goes on from 0.
pub fn sum_on_heap(arena: HeapOrdArena<P0, u64, Global>) -> u64
    ensures { result ≡ sum_of (list_map value_of (ordered_entries arena)) % 2 ^ 64 }
{
    let mut total = 0u64;
    for (_, value) in arena {
        total = total.wrapping_add(value);
    }
    total
}

/// The first value of the list that is at least this one. The others are dropped half-way.
pub fn find<P: PtrCore, S: OrdSlots<P, u64>>(
    arena: SimpleOrdArena<P, u64, S>,
    least: u64,
) -> Option<(P, u64)>
    ensures none { IfNone result (All (λ e. value_of e < least) (ordered_entries arena)) }
    ensures some { IfSome result (λ e. (least ≤ e.1)
        × Contains (ordered_entries arena) (P.index e.0, (P.generation e.0, e.1))) }
{
    for (p, value) in arena {
        if value >= least {
            return Some((p, value));
        }
    }
    None
}

/// The first entry of the list, by one `next`. The others are dropped.
pub fn first<P: PtrCore, T: Drop, S: OrdSlots<P, T>>(
    arena: SimpleOrdArena<P, T, S>,
) -> Option<(P, T)>
    ensures none { IfNone result (ordered_entries arena ≡ []) }
    ensures some { IfSome result (λ e. Contains (ordered_entries arena)
        (P.index e.0, (P.generation e.0, e.1))) }
{
    let mut entries = arena.into_iter();
    let first = entries.next();
    drop(entries);
    first
}

/// The items beside their pointers, in the order of the list.
pub fn listed<P: PtrCore, T: Drop, S: OrdSlots<P, T>, A: Allocator>(
    arena: SimpleOrdArena<P, T, S>,
    alloc: A,
) -> Result<Vec<(P, T), A>, AllocError>
    ensures { IfOk result (λ v. list_map (λ e. (P.index e.0, (P.generation e.0, e.1))) v.items
        ≡ ordered_entries arena) }
{
    let mut entries = Vec::new(alloc);
    for entry in arena {
        entries.push(entry)?;
    }
    Ok(entries)
}

/// The items beside their pointers, in the order of the list. If the keys ascend there, they do in
/// the vector.
pub fn sorted<P: PtrCore, T: SimpleOrdItem + Drop, S: OrdSlots<P, T>, A: Allocator>(
    arena: SimpleOrdArena<P, T, S>,
    alloc: A,
) -> Result<Vec<(P, T), A>, AllocError>
    requires { IsAscending T.Key.cmp T.key_of arena }
    ensures { IfOk result
        (λ v. IsSorted {X = ℕ × (ℕ × T)} (λ x y. T.Key.cmp (T.key_of x.1.1) (T.key_of y.1.1))
        (list_map (λ e. (P.index e.0, (P.generation e.0, e.1))) v.items)) }
{
    let entries = listed(arena, alloc)?;
    Ok(entries)
}
