//! Values that are written one after another, and two of them at once. Of a loop a contract tells
//! that it leaves all but the values, and not which those are: `each` writes by an advancer, of
//! which it does.
ghost use Rattle.std.specs.Prelude.{◌≡◌, ◌≢◌, ◌↔◌, ℕ, ◌+◌, ◌%◌, ◌^◌, IsTrue, false, Some, IsSome};
ghost use Rattle.std.specs.Prelude.{IfSome, IsOk, OnOk, OnErr, slice_get};
ghost use Rattle.std.specs.Mem.{FitsInMemory};
ghost use Rattle.std.specs.Option.{option_map};
ghost use Rattle.triple_arena.specs.Changes.{IsRewritten};
ghost use Rattle.triple_arena.specs.Content.{entry_at, live_count, some_counter, get};
ghost use Rattle.triple_arena.specs.DirectContent.{entry_at as direct_entry_at, no_counter};
ghost use Rattle.triple_arena.specs.DirectContent.{live_count as direct_live_count};
ghost use Rattle.triple_arena.specs.Entries.{value_if};
ghost use Rattle.triple_arena.specs.IterMut.{rest};
ghost use Rattle.triple_arena.specs.Iterators.{pointer_of};
ghost use Rattle.triple_arena.specs.LiveEntries.{live_entries};

use std::alloc::Global;
use std::{mem, slice};
use triple_arena::arena_iterators::{IterMut, ValsMut};
use triple_arena::direct_iterators::IterMut as DirectIterMut;
use triple_arena::{
    Arena, ArenaSlots, DirectArena, DirectSlots, DisjointableArenaTrait, GetDisjointMutError,
    HeapArena, P0, PtrCore, get_disjoint_mut,
};

// Doubles each value that is left.
fn double<P: PtrCore>(values: ValsMut<'_, P, u64>) {
    for value in values {
        *value = value.wrapping_mul(2);
    }
}

/// Doubles each value. No pointer ends.
pub fn double_each<P: PtrCore, S: ArenaSlots<P, u64>>(arena: &mut Arena<P, u64, S>)
    ensures rewritten { IsRewritten entry_at live_count some_counter (λ c. c.room)
        arena.old arena.new }
    ensures free { arena.new.free ≡ arena.old.free }
{
    double(arena.vals_mut());
}

/// Doubles each value of a direct arena over known pointers, where the loop needs no function of
/// its own. No pointer ends.
pub fn double_each_directly<S: DirectSlots<P0, u64>>(arena: &mut DirectArena<P0, u64, S>)
    ensures { IsRewritten direct_entry_at direct_live_count no_counter (λ d. d.room)
        arena.old arena.new }
{
    for value in arena.vals_mut() {
        *value = value.wrapping_mul(2);
    }
}

/// Clears the first values, so many of them. No pointer ends.
pub fn clear_first<S: ArenaSlots<P0, u64>>(arena: &mut Arena<P0, u64, S>, count: usize)
    ensures { IsRewritten entry_at live_count some_counter (λ c. c.room) arena.old arena.new }
{
    let mut values = arena.vals_mut();
    for _ in 0..count {
        match values.next() {
            Some(value) => *value = 0,
            None => break,
        }
    }
}

// Raises the next value, and tells its pointer.
fn raise_next<P: PtrCore>(mut entries: IterMut<'_, P, u64>) -> Option<P>
    ensures { option_map (λ p. (P.index p, P.generation p)) result
        ≡ option_map pointer_of (slice_get (rest entries.entry) 0) }
{
    match entries.next() {
        Some((p, value)) => {
            *value = value.wrapping_add(1);
            Some(p)
        }
        None => None,
    }
}

/// Raises the first value, and tells the pointer to its entry. No pointer ends.
pub fn raise_first<P: PtrCore, S: ArenaSlots<P, u64>>(arena: &mut Arena<P, u64, S>) -> Option<P>
    ensures first { option_map (λ p. (P.index p, P.generation p)) result
        ≡ option_map pointer_of (slice_get (live_entries arena.old) 0) }
    ensures found { IfSome result (λ p. IsSome (get arena.new (P.index p) (P.generation p))) }
    ensures rewritten { IsRewritten entry_at live_count some_counter (λ c. c.room)
        arena.old arena.new }
{
    raise_next(arena.iter_mut())
}

// Raises each value that is left, by its entry.
fn raise<P: PtrCore>(entries: DirectIterMut<'_, P, u64>) {
    for (_, value) in entries {
        *value = value.wrapping_add(1);
    }
}

/// Raises each value of a direct arena. No pointer ends.
pub fn raise_each_entry<P: PtrCore, S: DirectSlots<P, u64>>(arena: &mut DirectArena<P, u64, S>)
    ensures { IsRewritten direct_entry_at direct_live_count no_counter (λ d. d.room)
        arena.old arena.new }
{
    raise(arena.into_iter());
}

/// Exchanges the values that `p` and `q` point to.
pub fn exchange<P: PtrCore, T: Drop, A: DisjointableArenaTrait<P, T>>(
    arena: &mut A,
    p: P,
    q: P,
) -> Result<(), GetDisjointMutError>
    requires { FitsInMemory A.row }
    ensures variant { IsOk result
        ↔ (IsSome (value_if (P.generation p) (A.entry_at arena.old (P.index p)))
        × IsSome (value_if (P.generation q) (A.entry_at arena.old (P.index q)))
        × (P.index p ≢ P.index q)) }
    ensures exact { OnOk result ((x y : T)
        → value_if (P.generation p) (A.entry_at arena.old (P.index p)) ≡ Some x
        → value_if (P.generation q) (A.entry_at arena.old (P.index q)) ≡ Some y
        → arena.new ≡ A.with_value (A.with_value arena.old (P.index p) y) (P.index q) x) }
    ensures err { OnErr result (arena.new ≡ arena.old) }
{
    arena.check_disjoint(p, q)?;
    let (a, b) = A::lend_two(slice::from_mut(arena), p.inx(), q.inx());
    mem::swap(a, b);
    Ok(())
}

/// Adds the value that `q` points to to that of `p`, and tells whether it did.
pub fn add<P: PtrCore, A: DisjointableArenaTrait<P, u64>>(arena: &mut A, p: P, q: P) -> bool
    requires { FitsInMemory A.row }
    ensures variant { IsTrue result
        ↔ (IsSome (value_if (P.generation p) (A.entry_at arena.old (P.index p)))
        × IsSome (value_if (P.generation q) (A.entry_at arena.old (P.index q)))
        × (P.index p ≢ P.index q)) }
    ensures exact { IsTrue result → (x y : ℕ)
        → value_if (P.generation p) (A.entry_at arena.old (P.index p)) ≡ Some x
        → value_if (P.generation q) (A.entry_at arena.old (P.index q)) ≡ Some y
        → arena.new ≡ A.with_value (A.with_value arena.old (P.index p) ((x + y) % 2 ^ 64))
        (P.index q) y }
    ensures none { result ≡ false → arena.new ≡ arena.old }
{
    match get_disjoint_mut(slice::from_mut(arena), p, q) {
        Some((a, b)) => {
            *a = a.wrapping_add(*b);
            true
        }
        None => false,
    }
}

/// Adds the value that `q` points to to that of `p`, in an arena in a vector, whose size is known,
/// and tells whether it did.
pub fn add_on_heap(arena: &mut HeapArena<P0, u64, Global>, p: P0, q: P0) -> bool
    ensures { result ≡ false → arena.new ≡ arena.old }
{
    add(arena, p, q)
}
