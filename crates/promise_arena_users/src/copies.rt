//! What a caller learns of copies.
ghost use Rattle.std.specs.Prelude.{◌≡◌, ◌≤◌, ◌↔◌, ℕ, IsOk, IfOk, OnOk};
ghost use Rattle.triple_arena_ptr.specs.Errors.{IsBeyondMaxCapacity};
ghost use Rattle.triple_arena_stack.specs.Room.{capacity as capacity_of, IsBeyond};
ghost use Rattle.triple_arena.specs.ArenaRoom.{room_of, room_with};
ghost use Rattle.triple_arena.specs.Copy.{last_listed, directly_copied, IsMappedCopy, NeverRefuses};
ghost use Rattle.triple_arena.specs.DirectContent.{empty, live_entries};
ghost use Rattle.triple_arena.specs.Entries.{generation_at};

use triple_arena::{
    AllocError, Arena, ArenaCloneFromWith, ArenaCloneSource, ArenaSlots, DirectArena, DirectSlots,
    PtrCore, ReallocationError,
};

/// A copy by a map, from bounds alone.
pub fn clone_from_with<P: PtrCore, T: Drop, U: Drop, A, B, F>(
    arena: &mut A,
    source: &B,
    map: F,
) -> Result<(), ReallocationError>
where
    A: ArenaCloneFromWith<P, T>,
    B: ArenaCloneSource<P, U>,
    F: FnMut(P, &U) -> Result<T, AllocError>,
    requires { F.IsAlwaysCallable map }
    ensures mapped { OnOk result (IsMappedCopy P.index P.generation F.step map
        (B.live_entries source.now) (A.live_entries arena.new)) }
    ensures pointers { OnOk result ((j : ℕ) → generation_at (A.entry_at arena.new) j
        ≡ generation_at (B.entry_at source.now) j) }
    ensures count { OnOk result (A.live_count arena.new ≡ B.live_count source.now) }
    ensures room { OnOk result (A.room arena.new
        ≡ room_with (last_listed (B.live_entries source.now)) (A.room arena.old)) }
    ensures succeeds { last_listed (B.live_entries source.now) ≤ capacity_of (A.room arena.old)
        → NeverRefuses F.step → IsOk result }
    ensures beyond { IsBeyondMaxCapacity result
        ↔ IsBeyond (A.room arena.old).limit (last_listed (B.live_entries source.now)) }
    ensures kept { IsBeyondMaxCapacity result → arena.new ≡ arena.old }
{
    arena.clone_from_with(source, map)
}

/// A clone, with its exact state.
pub fn clone<P: PtrCore, S: ArenaSlots<P, u64>>(
    arena: &Arena<P, u64, S>,
    alloc: S::Alloc,
) -> Result<Arena<P, u64, S>, ReallocationError>
    ensures counter { IfOk result (λ c. c.counter ≡ arena.now.counter) }
{
    arena.clone(alloc)
}

/// A clone of an arena to which the caller gives the pointers.
pub fn clone_direct<P: PtrCore, S: DirectSlots<P, u64>>(
    arena: &DirectArena<P, u64, S>,
    alloc: S::Alloc,
) -> Result<DirectArena<P, u64, S>, ReallocationError>
    ensures exact { IfOk result (λ d. d ≡ directly_copied (empty (room_of P.Inx.greatest
        (S.room_at (last_listed (live_entries arena.now))))) (live_entries arena.now)) }
{
    arena.clone(alloc)
}
