//! The facts of each call of every arena, from bounds alone.
ghost use Rattle.std.specs.Prelude.{◌≡◌, ◌≢◌, ℕ, ◌+◌, ◌<◌, ◌≤◌, ◌↔◌, Some, None, IsOk, IsSome};
ghost use Rattle.std.specs.Prelude.{IfSome, IfNone, IfOk, OnOk, OnErr, IsErrOf, unwrap_or};
ghost use Rattle.std.specs.Prelude.{map as list_map, slice_get};
ghost use Rattle.std.specs.Option.{option_map};
ghost use Rattle.triple_arena_ptr.specs.Errors.{IsBeyondMaxCapacity};
ghost use Rattle.triple_arena_ptr.specs.Generation.{second_generation, next_generation, next_wraps};
ghost use Rattle.triple_arena_ptr.specs.InvalidationOption.{value_of, overflowed};
ghost use Rattle.triple_arena_ptr.specs.InvalidationResult.{answer_of};
ghost use Rattle.triple_arena_stack.specs.Room.{capacity as capacity_of, grown, with_reserved};
ghost use Rattle.triple_arena_stack.specs.Room.{IsBeyond};
ghost use Rattle.triple_arena.specs.Entries.{number_if, value_if, counter_wraps, with_entry};
ghost use Rattle.triple_arena.specs.Entries.{without, with_generation_at, with_values_exchanged};
ghost use Rattle.triple_arena.specs.Compression.{renewed, generation_given, compression_wraps};
ghost use Rattle.triple_arena.specs.Compression.{entry_of_listed, generation_of};
ghost use Rattle.triple_arena.specs.Compression.{value_of as value_of_entry, IsCompact, IsMapped};

use triple_arena::{ArenaInsertTrait, ArenaTrait, DisjointableArenaTrait};
use triple_arena_ptr::{
    GetDisjointMutError, InvalidationOption, InvalidationResult, NotWithinCapacityError, PtrCore,
    ReallocationError,
};

pub fn insert_within_capacity<P: PtrCore, T: Drop, A: ArenaInsertTrait<P, T>>(
    arena: &mut A,
    t: T,
) -> Result<P, NotWithinCapacityError>
    ensures variant { IsOk result
        ↔ (A.live_count arena.old < capacity_of (A.room arena.old)) }
    ensures index { IfOk result (λ p. P.index p ≡ A.next_index arena.old) }
    ensures generation { IfOk result (λ p. Some (P.generation p) ≡ A.counter arena.old) }
    ensures vacant { OnOk result (A.entry_at arena.old (A.next_index arena.old) ≡ None) }
    ensures entries { IfOk result (λ p. (j : ℕ) → A.entry_at arena.new j
        ≡ with_entry (A.entry_at arena.old) (P.index p) (P.generation p, t) j) }
    ensures live { OnOk result (A.live_count arena.new ≡ A.live_count arena.old + 1) }
    ensures counter { A.counter arena.new ≡ A.counter arena.old }
    ensures room { A.room arena.new ≡ A.room arena.old }
    ensures err { OnErr result (arena.new ≡ arena.old) }
{
    arena.insert_within_capacity(t)
}

pub fn insert_reallocating<P: PtrCore, T: Drop, A: ArenaInsertTrait<P, T>>(
    arena: &mut A,
    t: T,
) -> Result<P, ReallocationError>
    ensures index { IfOk result (λ p. P.index p ≡ A.next_index arena.old) }
    ensures generation { IfOk result (λ p. Some (P.generation p) ≡ A.counter arena.old) }
    ensures vacant { OnOk result (A.entry_at arena.old (A.next_index arena.old) ≡ None) }
    ensures entries { IfOk result (λ p. (j : ℕ) → A.entry_at arena.new j
        ≡ with_entry (A.entry_at arena.old) (P.index p) (P.generation p, t) j) }
    ensures live { OnOk result (A.live_count arena.new ≡ A.live_count arena.old + 1) }
    ensures counter { A.counter arena.new ≡ A.counter arena.old }
    ensures kept { A.live_count arena.old < capacity_of (A.room arena.old)
        → A.room arena.new ≡ A.room arena.old }
    ensures grown { A.live_count arena.old ≡ capacity_of (A.room arena.old)
        → OnOk result (A.room arena.new ≡ grown (A.room arena.old)) }
    ensures succeeds { A.live_count arena.old < capacity_of (A.room arena.old)
        → IsOk result }
    ensures beyond { IsBeyondMaxCapacity result
        ↔ ((A.room arena.old).limit ≡ Some (A.live_count arena.old)) }
    ensures err { OnErr result (arena.new ≡ arena.old) }
{
    arena.insert_reallocating(t)
}

pub fn insert<P: PtrCore, T: Drop, A: ArenaInsertTrait<P, T>>(
    arena: &mut A,
    t: T,
) -> Result<P, ReallocationError>
    ensures index { IfOk result (λ p. P.index p ≡ A.next_index arena.old) }
    ensures generation { IfOk result (λ p. Some (P.generation p) ≡ A.counter arena.old) }
    ensures vacant { OnOk result (A.entry_at arena.old (A.next_index arena.old) ≡ None) }
    ensures entries { IfOk result (λ p. (j : ℕ) → A.entry_at arena.new j
        ≡ with_entry (A.entry_at arena.old) (P.index p) (P.generation p, t) j) }
    ensures live { OnOk result (A.live_count arena.new ≡ A.live_count arena.old + 1) }
    ensures counter { A.counter arena.new ≡ A.counter arena.old }
    ensures kept { A.live_count arena.old < capacity_of (A.room arena.old)
        → A.room arena.new ≡ A.room arena.old }
    ensures grown { A.live_count arena.old ≡ capacity_of (A.room arena.old)
        → OnOk result (A.room arena.new ≡ grown (A.room arena.old)) }
    ensures succeeds { A.live_count arena.old < capacity_of (A.room arena.old)
        → IsOk result }
    ensures beyond { IsBeyondMaxCapacity result
        ↔ ((A.room arena.old).limit ≡ Some (A.live_count arena.old)) }
    ensures err { OnErr result (arena.new ≡ arena.old) }
{
    arena.insert(t)
}

pub fn remove<P: PtrCore, T: Drop, A: ArenaTrait<P, T>>(
    arena: &mut A,
    p: P,
) -> InvalidationResult<T>
    ensures value { option_map value_of (answer_of result)
        ≡ value_if (P.generation p) (A.entry_at arena.old (P.index p)) }
    ensures overflow { IfSome (answer_of result)
        (λ a. overflowed a ≡ counter_wraps P.Gen.last (A.counter arena.old)) }
    ensures entries { IfSome (answer_of result)
        (λ a. (j : ℕ) → A.entry_at arena.new j ≡ without (A.entry_at arena.old) (P.index p) j) }
    ensures live { IfSome (answer_of result)
        (λ a. A.live_count arena.new + 1 ≡ A.live_count arena.old) }
    ensures counter { IfSome (answer_of result)
        (λ a. A.counter arena.new ≡ option_map (next_generation P.Gen.last) (A.counter arena.old)) }
    ensures room { A.room arena.new ≡ A.room arena.old }
    ensures invalid { IfNone (answer_of result) (arena.new ≡ arena.old) }
{
    arena.remove(p)
}

pub fn remove_inx<P: PtrCore, T: Drop, A: ArenaTrait<P, T>>(
    arena: &mut A,
    i: P::Inx,
) -> InvalidationResult<(P::Gen, T)>
    ensures value { option_map (λ a. (P.Gen.number (value_of a).0, (value_of a).1))
        (answer_of result) ≡ A.entry_at arena.old (P.Inx.number i) }
    ensures overflow { IfSome (answer_of result)
        (λ a. overflowed a ≡ counter_wraps P.Gen.last (A.counter arena.old)) }
    ensures entries { IfSome (answer_of result)
        (λ a. (j : ℕ) → A.entry_at arena.new j
        ≡ without (A.entry_at arena.old) (P.Inx.number i) j) }
    ensures live { IfSome (answer_of result)
        (λ a. A.live_count arena.new + 1 ≡ A.live_count arena.old) }
    ensures counter { IfSome (answer_of result)
        (λ a. A.counter arena.new ≡ option_map (next_generation P.Gen.last) (A.counter arena.old)) }
    ensures room { A.room arena.new ≡ A.room arena.old }
    ensures invalid { IfNone (answer_of result) (arena.new ≡ arena.old) }
{
    arena.remove_inx(i)
}

pub fn invalidate<P: PtrCore, T: Drop, A: ArenaTrait<P, T>>(
    arena: &mut A,
    p: P,
) -> InvalidationResult<P>
    ensures variant { IsSome (answer_of result)
        ↔ IsSome (value_if (P.generation p) (A.entry_at arena.old (P.index p))) }
    ensures overflow { IfSome (answer_of result)
        (λ a. overflowed a ≡ next_wraps P.Gen.last
        (unwrap_or (A.counter arena.old) (P.generation p))) }
    ensures index { IfSome (answer_of result) (λ a. P.index (value_of a) ≡ P.index p) }
    ensures generation { IfSome (answer_of result)
        (λ a. P.generation (value_of a)
        ≡ next_generation P.Gen.last (unwrap_or (A.counter arena.old) (P.generation p))) }
    ensures entries { IfSome (answer_of result)
        (λ a. (j : ℕ) → A.entry_at arena.new j
        ≡ with_generation_at (A.entry_at arena.old) (P.index p) (P.generation (value_of a)) j) }
    ensures live { A.live_count arena.new ≡ A.live_count arena.old }
    ensures counter { IfSome (answer_of result)
        (λ a. A.counter arena.new ≡ option_map (next_generation P.Gen.last) (A.counter arena.old)) }
    ensures room { A.room arena.new ≡ A.room arena.old }
    ensures invalid { IfNone (answer_of result) (arena.new ≡ arena.old) }
{
    arena.invalidate(p)
}

pub fn clear<P: PtrCore, T: Drop, A: ArenaTrait<P, T>>(arena: &mut A) -> InvalidationOption<()>
    ensures overflow { overflowed result ≡ counter_wraps P.Gen.last (A.counter arena.old) }
    ensures entries { (j : ℕ) → A.entry_at arena.new j ≡ None }
    ensures live { A.live_count arena.new ≡ 0 }
    ensures counter { A.counter arena.new
        ≡ option_map (next_generation P.Gen.last) (A.counter arena.old) }
    ensures room { A.room arena.new ≡ A.room arena.old }
{
    arena.clear()
}

pub fn new<P: PtrCore, T: Drop, A: ArenaTrait<P, T>>(alloc: A::Alloc) -> A
    ensures entries { (j : ℕ) → A.entry_at result j ≡ None }
    ensures live { A.live_count result ≡ 0 }
    ensures counter { A.counter result ≡ number_if A.has_counter (second_generation P.Gen.last) }
    ensures room { A.room result ≡ A.room_at 0 }
{
    A::new(alloc)
}

pub fn with_min_capacity<P: PtrCore, T: Drop, A: ArenaTrait<P, T>>(
    alloc: A::Alloc,
    min: usize,
) -> Result<A, ReallocationError>
    ensures entries { IfOk result (λ a. (j : ℕ) → A.entry_at a j ≡ None) }
    ensures live { IfOk result (λ a. A.live_count a ≡ 0) }
    ensures counter { IfOk result (λ a. A.counter a
        ≡ number_if A.has_counter (second_generation P.Gen.last)) }
    ensures room { IfOk result (λ a. A.room a ≡ A.room_at min) }
    ensures fits { IfOk result (λ a. min ≤ capacity_of (A.room a)) }

    // No memory is asked for if a new arena has the room already.
    ensures succeeds { min ≤ capacity_of (A.room_at 0) → IsOk result }
    ensures beyond { IsBeyondMaxCapacity result ↔ IsBeyond (A.room_at min).limit min }
{
    A::with_min_capacity(alloc, min)
}

pub fn reallocate_min_capacity<P: PtrCore, T: Drop, A: ArenaTrait<P, T>>(
    arena: &mut A,
    min: usize,
) -> Result<(), ReallocationError>
    ensures kept { min ≤ capacity_of (A.room arena.old) → arena.new ≡ arena.old }
    ensures grown { capacity_of (A.room arena.old) < min
        → OnOk result (A.room arena.new ≡ with_reserved (A.room arena.old) min) }
    ensures fits { OnOk result (min ≤ capacity_of (A.room arena.new)) }
    ensures entries { (j : ℕ) → A.entry_at arena.new j ≡ A.entry_at arena.old j }
    ensures live { A.live_count arena.new ≡ A.live_count arena.old }
    ensures counter { A.counter arena.new ≡ A.counter arena.old }
    ensures succeeds { min ≤ capacity_of (A.room arena.old) → IsOk result }
    ensures beyond { IsBeyondMaxCapacity result ↔ IsBeyond (A.room arena.old).limit min }
    ensures err { OnErr result (arena.new ≡ arena.old) }
{
    arena.reallocate_min_capacity(min)
}

pub fn swap_inx<P: PtrCore, T: Drop, A: DisjointableArenaTrait<P, T>>(
    arena: &mut A,
    i: P::Inx,
    j: P::Inx,
)
    requires i_is_live { IsSome (A.entry_at arena.old (P.Inx.number i)) }
    requires j_is_live { IsSome (A.entry_at arena.old (P.Inx.number j)) }
    ensures entries { (k : ℕ) → A.entry_at arena.new k
        ≡ with_values_exchanged (A.entry_at arena.old) (P.Inx.number i) (P.Inx.number j) k }
    ensures live { A.live_count arena.new ≡ A.live_count arena.old }
    ensures counter { A.counter arena.new ≡ A.counter arena.old }
    ensures room { A.room arena.new ≡ A.room arena.old }
{
    arena.swap_inx(i, j);
}

pub fn swap<P: PtrCore, T: Drop, A: DisjointableArenaTrait<P, T>>(
    arena: &mut A,
    p: P,
    q: P,
) -> Result<(), GetDisjointMutError>
    ensures variant { IsOk result
        ↔ (IsSome (value_if (P.generation p) (A.entry_at arena.old (P.index p)))
        × IsSome (value_if (P.generation q) (A.entry_at arena.old (P.index q)))
        × (P.index p ≢ P.index q)) }
    ensures overlapping { IsErrOf result GetDisjointMutError.OverlappingIndices
        ↔ (IsSome (value_if (P.generation p) (A.entry_at arena.old (P.index p)))
        × IsSome (value_if (P.generation q) (A.entry_at arena.old (P.index q)))
        × (P.index p ≡ P.index q)) }
    ensures entries { OnOk result ((k : ℕ) → A.entry_at arena.new k
        ≡ with_values_exchanged (A.entry_at arena.old) (P.index p) (P.index q) k) }
    ensures live { A.live_count arena.new ≡ A.live_count arena.old }
    ensures counter { A.counter arena.new ≡ A.counter arena.old }
    ensures room { A.room arena.new ≡ A.room arena.old }
    ensures err { OnErr result (arena.new ≡ arena.old) }
{
    arena.swap(p, q)
}

pub fn compress_with<P: PtrCore, T: Drop, A: ArenaTrait<P, T>, F: FnMut(P, T, P) -> T>(
    arena: &mut A,
    reset: bool,
    map: F,
) -> InvalidationOption<()>
    requires { F.IsAlwaysCallable map }
    ensures mapped { IsMapped P.index P.generation F.step map (A.live_entries arena.old)
        (A.live_entries arena.new) }
    ensures compact { IsCompact (A.live_entries arena.new) }
    ensures entries { (k : ℕ) → A.entry_at arena.new (k + 1)
        ≡ option_map entry_of_listed (slice_get (A.live_entries arena.new) k) }
    ensures generations { list_map generation_of (A.live_entries arena.new)
        ≡ list_map (λ e. generation_given P.Gen.last reset (A.counter arena.old) (generation_of e))
        (A.live_entries arena.old) }
    ensures overflow { overflowed result
        ≡ compression_wraps P.Gen.last reset (A.counter arena.old)
        (list_map generation_of (A.live_entries arena.old)) }
    ensures live { A.live_count arena.new ≡ A.live_count arena.old }
    ensures counter { A.counter arena.new
        ≡ option_map (renewed P.Gen.last reset) (A.counter arena.old) }
    ensures room { A.room arena.new ≡ A.room arena.old }
{
    arena.compress_with(reset, map)
}

pub fn compress<P: PtrCore, T: Drop, A: ArenaTrait<P, T>>(
    arena: &mut A,
    reset: bool,
) -> InvalidationOption<()>
    ensures values { list_map value_of_entry (A.live_entries arena.new)
        ≡ list_map value_of_entry (A.live_entries arena.old) }
    ensures compact { IsCompact (A.live_entries arena.new) }
    ensures entries { (k : ℕ) → A.entry_at arena.new (k + 1)
        ≡ option_map entry_of_listed (slice_get (A.live_entries arena.new) k) }
    ensures generations { list_map generation_of (A.live_entries arena.new)
        ≡ list_map (λ e. generation_given P.Gen.last reset (A.counter arena.old) (generation_of e))
        (A.live_entries arena.old) }
    ensures overflow { overflowed result
        ≡ compression_wraps P.Gen.last reset (A.counter arena.old)
        (list_map generation_of (A.live_entries arena.old)) }
    ensures live { A.live_count arena.new ≡ A.live_count arena.old }
    ensures counter { A.counter arena.new
        ≡ option_map (renewed P.Gen.last reset) (A.counter arena.old) }
    ensures room { A.room arena.new ≡ A.room arena.old }
{
    arena.compress(reset)
}
