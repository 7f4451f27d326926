//! Tables that follow an arena through a compression.
ghost use Rattle.std.specs.Prelude.{◌≡◌, ◌≤◌, ◌↔◌, ℕ, IsOk, IsSome, IfSome, OnOk, OnErr};
ghost use Rattle.std.specs.Prelude.{IsTrue, Some, ⊤};
ghost use Rattle.triple_arena_ptr.specs.Errors.{IsBeyondMaxCapacity, IsAllocError};
ghost use Rattle.triple_arena_stack.specs.Room.{IsBeyond};
ghost use Rattle.triple_arena.specs.ArenaRoom.{room_with};
ghost use Rattle.triple_arena.specs.Changes.{IsCompressed};
ghost use Rattle.triple_arena.specs.Compression.{live_values};
ghost use Rattle.triple_arena.specs.Content.{entry_at as arena_at, get, live_count, some_counter};
ghost use Rattle.triple_arena.specs.Content.{last_index, IsWellFormed as IsArenaFormed};
ghost use Rattle.triple_arena.specs.DirectContent.{entry_at, arena_capacity, IsWellFormed};
ghost use Rattle.triple_arena.specs.DirectContent.{live_entries as entries_of};
ghost use Rattle.triple_arena.specs.LiveEntries.{live_entries};
ghost use Rattle.triple_arena.specs.Recaster.{IsRecaster};
ghost use Rattle.side_table.specs.SideTable.{Rises, NeverGoesUp, IsCarried, with_one_followed};
ghost use Rattle.side_table.specs.SideTable.{beside};

use crate::storing::put;
use proof_marks::recall;
use triple_arena::{
    Advancer, Arena, ArenaSlots, ArenaTrait, DirectArena, DirectSlots, PtrCore, ReallocationError,
    compress_recaster_into,
};

// Moves the value under `old`, if there is one, to the pointer that `map` has for `old`. If the map
// has none, the value is dropped.
fn follow_one<P, T, S, R>(table: &mut DirectArena<P, T, S>, map: &DirectArena<P, P, R>, old: P)
where
    P: PtrCore,
    T: Drop,
    S: DirectSlots<P, T>,
    R: DirectSlots<P, P>,
    requires down { NeverGoesUp P.index (entry_at map.now) }
    requires no_more { ⊤ }
    ensures entries { (j : ℕ) → entry_at table.new j
        ≡ with_one_followed P.index P.generation (entry_at map.now) old (entry_at table.old) j }
    ensures room { table.new.room ≡ table.old.room }
    ensures formed { IsWellFormed table.new }
{
    // Each live index is within the capacity.
    recall!(table.capacity());
    if let Some(value) = table.remove(old).allow() {
        if let Some(new) = map.get(old) {
            let _ = put(table, *new, value);
        }
    }
}

/// Moves each value of `table`, in place, to the pointer that `map` has for its old one. If the map
/// has none, the value is dropped: the entry that it stood beside had ended.
///
/// `map` is what a compression of the other arena returns. Such a map keeps the order of the
/// indexes and gives no greater one, so the call takes no memory and cannot fail.
pub fn follow_compression<P, T, S, R>(table: &mut DirectArena<P, T, S>, map: &DirectArena<P, P, R>)
where
    P: PtrCore,
    T: Drop,
    S: DirectSlots<P, T>,
    R: DirectSlots<P, P>,
    requires rises { Rises P.index (entry_at map.now) }
    requires down { NeverGoesUp P.index (entry_at map.now) }
    ensures carried { (j h : ℕ) (t : T) → (entry_at table.new j ≡ Some (h, t))
        ↔ IsCarried P.index P.generation (entry_at map.now) (entry_at table.old) j h t }
    ensures room { table.new.room ≡ table.old.room }
    ensures formed { IsWellFormed table.new }
{
    // The table is well-formed before.
    recall!(table.len());
    let mut walk = table.advancer();
    while let Some(old) = walk.advance(table) {
        follow_one(table, map, old);
    }
}

/// Moves the entries of `arena` to the first indexes, as `compress` does, and has `table` follow:
/// beside each entry stands what stood beside it before. A value beside no entry is dropped.
///
/// `map` is where the new pointers go, under the old ones, in place of what it had. If it is kept
/// for the next compression, it grows only where the last live index is past its capacity. It
/// returns `BeyondMaxCapacity` if the map cannot have so many slots, and `AllocError` if the memory
/// was refused. An error leaves the arena, the table and the map as they were.
///
/// Whether the step of the counter wrapped is not returned: the counter before the call tells it.
pub fn compress_beside<P, T, U, S, R, M>(
    arena: &mut Arena<P, T, S>,
    table: &mut DirectArena<P, U, R>,
    map: &mut DirectArena<P, P, M>,
    reset: bool,
) -> Result<(), ReallocationError>
where
    P: PtrCore,
    T: Drop,
    U: Drop,
    S: ArenaSlots<P, T>,
    R: DirectSlots<P, U>,
    M: DirectSlots<P, P>,
    ensures beside { OnOk result (beside table.new (live_entries arena.new)
        ≡ beside table.old (live_entries arena.old)) }
    ensures only { OnOk result ((j : ℕ) → IfSome (entry_at table.new j)
        (λ e. IsSome (get arena.new j e.0))) }
    ensures values { OnOk result (live_values arena.new ≡ live_values arena.old) }
    ensures compressed { OnOk result (IsCompressed arena_at live_count some_counter (λ c. c.room)
        P.Gen.last live_entries reset arena.old arena.new) }
    ensures renamed { OnOk result (IsRecaster P.index P.generation (live_entries arena.old)
        (live_entries arena.new) (entries_of map.new)) }
    ensures room { table.new.room ≡ table.old.room }
    ensures map_room { OnOk result (map.new.room ≡ room_with (last_index arena.old) map.old.room) }
    ensures arena_formed { OnOk result (IsArenaFormed arena.new) }
    ensures formed { OnOk result (IsWellFormed table.new) }
    ensures map_formed { IsWellFormed map.new }
    ensures succeeds { last_index arena.old ≤ arena_capacity map.old → IsOk result }
    ensures beyond { IsBeyondMaxCapacity result
        ↔ IsBeyond map.old.room.limit (last_index arena.old) }
    ensures memory { IsAllocError result → IsTrue M.takes_memory }
    ensures err { OnErr result (arena.new ≡ arena.old) }
    ensures table_err { OnErr result (table.new ≡ table.old) }
    ensures map_err { OnErr result (map.new ≡ map.old) }
{
    compress_recaster_into(arena, reset, map)?;
    follow_compression(table, map);
    Ok(())
}
