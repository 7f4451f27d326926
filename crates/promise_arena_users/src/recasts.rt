//! What a caller learns of recasts, and of the compression that answers its map.
ghost use Rattle.std.specs.Prelude.{◌≡◌, ◌≤◌, ℕ, [], length, IsOk, IfOk, OnOk, OnErr};
ghost use Rattle.triple_arena_ptr.specs.Recast.{recast_answer};
ghost use Rattle.triple_arena_stack.specs.Room.{capacity as capacity_of};
ghost use Rattle.triple_arena.specs.ArenaRoom.{room_of};
ghost use Rattle.triple_arena.specs.Compression.{live_values};
ghost use Rattle.triple_arena.specs.Content.{entry_at, live_count, last_index};
ghost use Rattle.triple_arena.specs.DirectContent.{as_content, entry_at as direct_entry_at};
ghost use Rattle.triple_arena.specs.DirectContent.{live_count as direct_live_count};
ghost use Rattle.triple_arena.specs.DirectContent.{live_entries as direct_live_entries};
ghost use Rattle.triple_arena.specs.Entries.{generation_at};
ghost use Rattle.triple_arena.specs.LiveEntries.{live_entries};
ghost use Rattle.triple_arena.specs.Recaster.{IsRecaster};
ghost use Rattle.triple_arena.specs.Recasting.{content_items};

use triple_arena::{
    Arena, ArenaSlots, DirectArena, DirectSlots, PtrCore, ReallocationError, Recast, Recaster,
    compress_recaster,
};

/// The entries after a recast.
#[tactic(auto, using(triple_arena::specs::RecastingLaws::recastings))]
pub fn recast<I, P, T, S, R>(arena: &mut Arena<P, T, S>, recaster: &R) -> Result<(), I>
where
    P: PtrCore,
    T: Recast<I> + Drop,
    S: ArenaSlots<P, T>,
    R: Recaster<Item = I>,
    ensures answer { result ≡ recast_answer (R.image recaster.now)
        (content_items T.items arena.old) }
    ensures generations { (j : ℕ) → generation_at (entry_at arena.new) j
        ≡ generation_at (entry_at arena.old) j }
    ensures count { live_count arena.new ≡ live_count arena.old }
    ensures slots { length arena.new.slots ≡ length arena.old.slots }
    ensures counter { arena.new.counter ≡ arena.old.counter }
{
    arena.recast(recaster)
}

/// The entries after a recast of an arena to which the caller gives the pointers.
#[tactic(auto, using(triple_arena::specs::RecastingLaws::direct_recastings))]
pub fn recast_direct<I, P, T, S, R>(arena: &mut DirectArena<P, T, S>, recaster: &R) -> Result<(), I>
where
    P: PtrCore,
    T: Recast<I> + Drop,
    S: DirectSlots<P, T>,
    R: Recaster<Item = I>,
    ensures answer { result ≡ recast_answer (R.image recaster.now)
        (content_items T.items (as_content arena.old)) }
    ensures generations { (j : ℕ) → generation_at (direct_entry_at arena.new) j
        ≡ generation_at (direct_entry_at arena.old) j }
    ensures count { direct_live_count arena.new ≡ direct_live_count arena.old }
    ensures slots { length arena.new.slots ≡ length arena.old.slots }
    ensures room { arena.new.room ≡ arena.old.room }
{
    arena.recast(recaster)
}

/// A compression that answers its map.
pub fn compress_to_map<P, T, S, R>(
    arena: &mut Arena<P, T, S>,
    reset: bool,
    alloc: R::Alloc,
) -> Result<DirectArena<P, P, R>, ReallocationError>
where
    P: PtrCore,
    T: Drop,
    S: ArenaSlots<P, T>,
    R: DirectSlots<P, P>,
    ensures map { IfOk result (λ map. IsRecaster P.index P.generation (live_entries arena.old)
        (live_entries arena.new) (direct_live_entries map)) }
    ensures values { OnOk result (live_values arena.new ≡ live_values arena.old) }
    ensures count { OnOk result (live_count arena.new ≡ live_count arena.old) }
    ensures free { OnOk result (arena.new.free ≡ []) }
    ensures succeeds { last_index arena.old ≤ capacity_of (room_of P.Inx.greatest (R.room_at 0))
        → IsOk result }
    ensures err { OnErr result (arena.new ≡ arena.old) }
{
    compress_recaster::<P, T, S, R>(arena, reset, alloc)
}
