//! Values stored beside the pointers of an arena.
ghost use Rattle.std.specs.Prelude.{◌≡◌, ◌≤◌, ◌↔◌, ◌⊎◌, ◌^◌, ℕ, max, IsOk, IfOk, OnOk, OnErr};
ghost use Rattle.std.specs.Prelude.{IsTrue, ⊤};
ghost use Rattle.std.specs.Option.{option_map};
ghost use Rattle.triple_arena_ptr.specs.Errors.{IsBeyondMaxCapacity, IsAllocError};
ghost use Rattle.triple_arena_stack.specs.Room.{IsBeyond};
ghost use Rattle.triple_arena.specs.ArenaRoom.{room_with};
ghost use Rattle.triple_arena.specs.Changes.{IsDirectlyInserted};
ghost use Rattle.triple_arena.specs.DirectContent.{entry_at, arena_capacity, no_counter};
ghost use Rattle.triple_arena.specs.DirectContent.{live_count as table_count};
ghost use Rattle.triple_arena.specs.DirectContent.{IsPlace, IsWellFormed};
ghost use Rattle.triple_arena.specs.Entries.{with_entry, value_in};
ghost use Rattle.side_table.specs.SideTable.{IsEntryTaken};

use proof_marks::recall;
use triple_arena::{
    ArenaDirectInsertEntryTrait, ArenaDirectInsertTrait, ArenaTrait, DirectArena, DirectSlots,
    PtrCore, PtrInxCore, ReallocationError,
};

// Stores `value` under `p`, where there is a place for it.
fn store<P: PtrCore, T: Drop, S: DirectSlots<P, T>>(
    table: &mut DirectArena<P, T, S>,
    p: P,
    value: T,
)
    requires place { IsPlace table.old (P.index p) }
    requires no_more { ⊤ }
    ensures inserted { IsDirectlyInserted entry_at table_count no_counter (λ d. d.room) (P.index p)
        (P.generation p) value table.old table.new }
    ensures formed { IsWellFormed table.new }
{
    match table.direct_insert_within_capacity(p) {
        Ok(place) => place.insert(value),
        Err(_) => unreachable!(),
    }
}

// The value of an entry, if there is one.
fn value_alone<G: Drop, T>(entry: Option<(G, T)>) -> Option<T>
    ensures { result ≡ option_map (λ e. e.1) entry }
{
    match entry {
        Some((_, value)) => Some(value),
        None => None,
    }
}

// Takes out what stands at the index of `p`, and returns its value.
fn take_out<P: PtrCore, T: Drop, S: DirectSlots<P, T>>(
    table: &mut DirectArena<P, T, S>,
    p: P,
) -> Option<T>
    ensures taken { IsEntryTaken (P.index p) table.old table.new }
    ensures value { result ≡ value_in (entry_at table.old (P.index p)) }
    ensures formed { IsWellFormed table.new }
{
    value_alone(table.remove_inx(p.inx()).allow())
}

// Stores `value` under `p`, whose index is within the capacity, and returns the value that it
// replaces.
pub(crate) fn put<P: PtrCore, T: Drop, S: DirectSlots<P, T>>(
    table: &mut DirectArena<P, T, S>,
    p: P,
    value: T,
) -> Option<T>
    requires fits { P.index p ≤ arena_capacity table.old }
    requires no_more { ⊤ }
    ensures entries { (j : ℕ) → entry_at table.new j
        ≡ with_entry (entry_at table.old) (P.index p) (P.generation p, value) j }
    ensures replaced { result ≡ value_in (entry_at table.old (P.index p)) }
    ensures room { table.new.room ≡ table.old.room }
    ensures formed { IsWellFormed table.new }
{
    let replaced = take_out(table, p);
    store(table, p, value);
    replaced
}

/// Stores `value` beside `p`, a pointer of another arena, and returns the value that it replaces:
/// the one at that index, whatever its generation. So test that `p` is valid, if it may have ended:
/// else the entry that has its slot now loses what stands beside it.
///
/// The table grows to the room `room` if it has less, or to the index of `p` if that is more. Give
/// it the capacity of the other arena: the table then grows no more often than that one.
///
/// It returns `BeyondMaxCapacity` if the table may not have so much, or if no `usize` has the
/// index, and `AllocError` if the memory was refused. The table is then as it was, and `value` is
/// dropped.
pub fn put_beside<P: PtrCore, T: Drop, S: DirectSlots<P, T>>(
    table: &mut DirectArena<P, T, S>,
    p: P,
    room: usize,
    value: T,
) -> Result<Option<T>, ReallocationError>
    ensures entries { OnOk result ((j : ℕ) → entry_at table.new j
        ≡ with_entry (entry_at table.old) (P.index p) (P.generation p, value) j) }
    ensures replaced { IfOk result (λ old. old ≡ value_in (entry_at table.old (P.index p))) }
    ensures grown { OnOk result (table.new.room ≡ room_with (max room (P.index p)) table.old.room) }
    ensures formed { OnOk result (IsWellFormed table.new) }
    ensures succeeds { max room (P.index p) ≤ arena_capacity table.old → IsOk result }
    ensures beyond { IsBeyondMaxCapacity result
        ↔ (IsBeyond table.old.room.limit (max room (P.index p)) ⊎ (2 ^ 64 ≤ P.index p)) }
    ensures memory { IsAllocError result → IsTrue S.takes_memory }
    ensures err { OnErr result (table.new ≡ table.old) }
{
    let Some(index) = p.inx().try_into_usize() else {
        // The capacity is a `usize`.
        recall!(table.capacity());
        return Err(ReallocationError::BeyondMaxCapacity);
    };
    table.reallocate_min_capacity(room.max(index.get()))?;
    Ok(put(table, p, value))
}
