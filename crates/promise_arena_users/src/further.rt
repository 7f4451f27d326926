//! Facts that follow from those of the calls: of the next index, of generations, and of memory.
ghost use Rattle.std.specs.Prelude.{◌≡◌, ◌≤◌, Some, None, IsTrue, IfSome, false};
ghost use Rattle.triple_arena_ptr.specs.Errors.{IsAllocError};
ghost use Rattle.triple_arena_ptr.specs.InvalidationOption.{value_of};
ghost use Rattle.triple_arena_ptr.specs.InvalidationResult.{answer_of};

use triple_arena::{
    ArenaInsertTrait, ArenaTrait, ArrayArena, InvalidationResult, PtrCore, ReallocationError,
};

/// The next index after a `clear`, from bounds alone.
pub fn clear_starts_again<P: PtrCore, T: Drop, A: ArenaInsertTrait<P, T>>(arena: &mut A)
    ensures { A.next_index arena.new ≡ 1 }
{
    arena.clear();
}

/// The next index under a write, from bounds alone.
pub fn write_keeps_the_next_index<P: PtrCore, T: Drop, A: ArenaInsertTrait<P, T>>(
    arena: &mut A,
    i: P::Inx,
    t: T,
)
    ensures { A.next_index arena.new ≡ A.next_index arena.old }
{
    if let Some(value) = arena.get_inx_mut(i) {
        *value = t;
    }
}

/// A generation is at most the greatest one.
pub fn is_counted<P: PtrCore, T: Drop, A: ArenaTrait<P, T>>(arena: &A, p: P, greatest: u64) -> bool
    ensures { P.Gen.last ≡ Some greatest → P.generation p ≤ greatest }
{
    arena.contains(p)
}

/// A pointer without generations stays.
pub fn invalidate_uncounted<P: PtrCore, T: Drop, A: ArenaTrait<P, T>>(
    arena: &mut A,
    p: P,
) -> InvalidationResult<P>
    ensures { P.Gen.last ≡ None → IfSome (answer_of result) (λ a. value_of a ≡ p) }
{
    arena.invalidate(p)
}

/// An insertion into an array takes no memory.
pub fn store_in_array<P: PtrCore, T: Drop, const LIMIT: usize>(
    arena: &mut ArrayArena<P, T, LIMIT>,
    t: T,
) -> Result<P, ReallocationError>
    ensures { IsAllocError result → IsTrue false }
{
    arena.insert(t)
}

/// And neither does a request for room.
pub fn widen_array<P: PtrCore, T: Drop, const LIMIT: usize>(
    arena: &mut ArrayArena<P, T, LIMIT>,
    min: usize,
) -> Result<(), ReallocationError>
    ensures { IsAllocError result → IsTrue false }
{
    arena.reallocate_min_capacity(min)
}
