//! What callers know of an arena whose entries are taken out, by a drain or by a transfer, and of
//! one with a limit.
ghost use Rattle.std.specs.Prelude.{◌≡◌, ℕ, ◌≤◌, ◌↔◌, [], None, Some, IsOk, OnOk, OnErr};
ghost use Rattle.std.specs.Prelude.{map as list_map, replicate, slice_get};
ghost use Rattle.std.specs.Fn.{iterate};
ghost use Rattle.std.specs.Option.{option_map};
ghost use Rattle.triple_arena_ptr.specs.Errors.{IsBeyondMaxCapacity};
ghost use Rattle.triple_arena_ptr.specs.Generation.{next_generation};
ghost use Rattle.triple_arena_stack.specs.Room.{capacity as capacity_of, IsBeyond};
ghost use Rattle.triple_arena.specs.ArenaRoom.{room_with};
ghost use Rattle.triple_arena.specs.Compression.{generation_of, IsCompact};
ghost use Rattle.triple_arena.specs.Content.{entry_at, live_count, last_index, with_limit};
ghost use Rattle.triple_arena.specs.DirectContent.{entry_at as direct_entry_at};
ghost use Rattle.triple_arena.specs.DirectContent.{live_count as direct_live_count, cleared};
ghost use Rattle.triple_arena.specs.Drains.{drained, removals, removal_of};
ghost use Rattle.triple_arena.specs.LiveEntries.{live_entries};
ghost use Rattle.triple_arena.specs.Transfer.{IsGivenUp, IsTransferred};

use triple_arena::{
    Arena, ArenaSlot, ArenaSlots, ArenaTrait, ArenaTransferSource, ArenaTransferTrait, DirectArena,
    DirectSlot, DirectSlots, InvalidationOption, MaxCapacityReductionError, NonZeroInxLimitedStack,
    PtrCore, ReallocationError, SetMaxCapacity,
};

/// A drain that is dropped at once.
#[tactic(auto, using(triple_arena::specs::TransferLaws::drains))]
pub fn drain<P: PtrCore, T: Drop, S: ArenaSlots<P, T>>(arena: &mut Arena<P, T, S>)
    ensures exact { arena.new ≡ drained P.Gen.last arena.old }
    ensures entries { (j : ℕ) → entry_at arena.new j ≡ None }
    ensures count { live_count arena.new ≡ 0 }
    ensures counter { arena.new.counter
        ≡ iterate (next_generation P.Gen.last) (live_count arena.old) arena.old.counter }
    ensures free { arena.new.free ≡ [] }
    ensures room { arena.new.room ≡ arena.old.room }
{
    drop(arena.drain());
}

/// A drain that is dropped after its first item leaves what one that is dropped at once leaves.
pub fn take_first<P: PtrCore, T: Drop, S: ArenaSlots<P, T>>(
    arena: &mut Arena<P, T, S>,
) -> Option<InvalidationOption<(P, T)>>
    ensures first { option_map (removal_of P.index P.generation) result
        ≡ slice_get (removals P.Gen.last (Some arena.old.counter) (live_entries arena.old)) 0 }
    ensures left { arena.new ≡ drained P.Gen.last arena.old }
{
    let mut drain = arena.drain();
    drain.next()
}

/// A drain of any arena that is dropped after its first item leaves what one that is dropped at
/// once leaves. The item is the first removal of all.
pub fn take_first_of_any<P: PtrCore, T: Drop, A: ArenaTrait<P, T>>(
    arena: &mut A,
) -> Option<InvalidationOption<(P, T)>>
    ensures first { option_map (removal_of P.index P.generation) result
        ≡ slice_get (removals P.Gen.last (A.counter arena.old) (A.live_entries arena.old)) 0 }
    ensures exact { arena.new ≡ A.drained arena.old }
    ensures left { IsGivenUp A.entry_at A.live_count A.counter A.room P.Gen.last
        arena.old arena.new }
{
    let mut items = arena.drain();
    items.next()
}

/// A drain of an arena to which the caller gives the pointers.
pub fn drain_direct<P: PtrCore, T: Drop, S: DirectSlots<P, T>>(arena: &mut DirectArena<P, T, S>)
    ensures exact { arena.new ≡ cleared arena.old }
    ensures count { direct_live_count arena.new ≡ 0 }
{
    drop(arena.drain());
}

/// A transfer, from bounds alone.
pub fn transfer_reallocating<P: PtrCore, T: Drop, Q: PtrCore, U: Drop, A, B, F>(
    arena: &mut A,
    generation: P::Gen,
    source: &mut B,
    map: F,
) -> Result<(), ReallocationError>
where
    A: ArenaTransferTrait<P, T>,
    B: ArenaTransferSource<Q, U>,
    F: FnMut(Q, InvalidationOption<U>, P) -> T,
    requires { F.IsAlwaysCallable map }
    ensures mapped { OnOk result (IsTransferred Q.index Q.generation P.index P.generation F.step map
        Q.Gen.last (B.counter source.old) (B.live_entries source.old) (A.live_entries arena.new)) }
    ensures compact { OnOk result (IsCompact (A.live_entries arena.new)) }
    ensures generations { OnOk result (list_map generation_of (A.live_entries arena.new)
        ≡ replicate (B.live_count source.old) (P.Gen.number generation)) }
    ensures live { OnOk result (A.live_count arena.new ≡ B.live_count source.old) }
    ensures counter { OnOk result (A.counter arena.new
        ≡ option_map (λ _. P.Gen.number generation) (A.counter arena.old)) }
    ensures room { OnOk result (A.room arena.new
        ≡ room_with (B.live_count source.old) (A.room arena.old)) }
    ensures source_entries { OnOk result ((j : ℕ) → B.entry_at source.new j ≡ None) }
    ensures source_live { OnOk result (B.live_count source.new ≡ 0) }
    ensures source_counter { OnOk result (B.counter source.new
        ≡ option_map (iterate (next_generation Q.Gen.last) (B.live_count source.old))
        (B.counter source.old)) }
    ensures source_room { OnOk result (B.room source.new ≡ B.room source.old) }
    ensures succeeds { B.live_count source.old ≤ capacity_of (A.room arena.old) → IsOk result }
    ensures beyond { IsBeyondMaxCapacity result
        ↔ IsBeyond (A.room arena.old).limit (B.live_count source.old) }
    ensures err { OnErr result (arena.new ≡ arena.old) }
    ensures source_err { OnErr result (source.new ≡ source.old) }
{
    arena.transfer_reallocating(generation, source, map)
}

/// What a transfer leaves of the one arena, and makes of the other.
#[tactic(auto, using(triple_arena::specs::TransferLaws::fillings))]
pub fn transfer_to_arena<P: PtrCore, T: Drop, S, R>(
    arena: &mut Arena<P, T, S>,
    generation: P::Gen,
    source: &mut Arena<P, T, R>,
) -> Result<(), ReallocationError>
where
    S: ArenaSlots<P, T>,
    R: ArenaSlots<P, T>,
    ensures source_exact { OnOk result (source.new ≡ drained P.Gen.last source.old) }
    ensures counter { OnOk result (arena.new.counter ≡ P.Gen.number generation) }
    ensures free { OnOk result (arena.new.free ≡ []) }
    ensures room { OnOk result (arena.new.room ≡ room_with (live_count source.old) arena.old.room) }
{
    arena.transfer_reallocating(generation, source, |_, item, _| item.allow())
}

/// A limit that is set.
#[tactic(auto, using(triple_arena::specs::LimitLaws::limits))]
pub fn limit<P: PtrCore, T: Drop, S: NonZeroInxLimitedStack<Item = ArenaSlot<P, T>> + Drop>(
    arena: &mut Arena<P, T, S>,
    max: usize,
) -> Result<(), MaxCapacityReductionError>
    ensures variant { IsOk result ↔ (last_index arena.old ≤ max) }
    ensures exact { OnOk result (arena.new ≡ with_limit P.Inx.greatest arena.old max) }
    ensures entries { OnOk result ((j : ℕ) → entry_at arena.new j ≡ entry_at arena.old j) }
    ensures count { OnOk result (live_count arena.new ≡ live_count arena.old) }
    ensures counter { OnOk result (arena.new.counter ≡ arena.old.counter) }
    ensures err { OnErr result (arena.new ≡ arena.old) }
{
    arena.set_max_capacity(max)
}

/// A limit that is set on an arena to which the caller gives the pointers.
#[tactic(auto, using(triple_arena::specs::DirectLaws::direct_limits))]
pub fn limit_direct<P: PtrCore, T: Drop, S: NonZeroInxLimitedStack<Item = DirectSlot<P, T>> + Drop>(
    arena: &mut DirectArena<P, T, S>,
    max: usize,
) -> Result<(), MaxCapacityReductionError>
    ensures entries { OnOk result ((j : ℕ) → direct_entry_at arena.new j
        ≡ direct_entry_at arena.old j) }
    ensures count { OnOk result (direct_live_count arena.new ≡ direct_live_count arena.old) }
{
    arena.set_max_capacity(max)
}
