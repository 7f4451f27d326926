//! A compression with a map from the old pointers to the new ones.
ghost use Rattle.std.specs.Prelude.{◌≡◌, ◌≤◌, ◌↔◌, ℕ, [], Some, IsOk, IfOk, OnOk, OnErr};
ghost use Rattle.std.specs.Prelude.{IsTrue, length, map as list_map, slice_get};
ghost use Rattle.triple_arena_ptr.specs.Errors.{IsBeyondMaxCapacity, IsAllocError};
ghost use Rattle.triple_arena_stack.specs.Room.{capacity, IsBeyond};
ghost use Rattle.triple_arena.specs.ArenaRoom.{room_of, room_with};
ghost use Rattle.triple_arena.specs.Changes.{IsCompressed};
ghost use Rattle.triple_arena.specs.Compression.{renewed, compacted, index_of, live_values};
ghost use Rattle.triple_arena.specs.Content.{entry_at, live_count, some_counter, last_index};
ghost use Rattle.triple_arena.specs.Content.{IsWellFormed};
ghost use Rattle.triple_arena.specs.Copy.{last_listed, directly_copied};
ghost use Rattle.triple_arena.specs.DirectContent.{live_entries as entries_of, empty};
ghost use Rattle.triple_arena.specs.DirectContent.{arena_capacity, cleared, reallocated};
ghost use Rattle.triple_arena.specs.DirectContent.{IsWellFormed as IsFormed};
ghost use Rattle.triple_arena.specs.LiveEntries.{live_entries, listed_by};
ghost use Rattle.triple_arena.specs.Recaster.{IsRecaster};
ghost use Rattle.triple_arena.specs.Slot.{entry_of};
ghost use Rattle.triple_arena.specs.SlotRecaster.{CompactsNoting};

use crate::advancer::LivePointers;
use crate::arena::compression::{keep_first, put_entry, renewal, take_entry};
use crate::arena::{Arena, pointer_at};
use crate::{ArenaSlots, ArenaTrait, DirectArena, DirectSlots};
use proof_marks::recall;
use std::num::NonZeroUsize;
use triple_arena_ptr::{OptionalInx, PtrCore, ReallocationError};

/// Moves the live entries to the first indexes, as `compress` does, and returns the map from each
/// old pointer to the new one, by which the values and other arenas can be recast. The map has an
/// entry under each pointer that was valid, and no other.
///
/// Its memory is taken from `alloc` before, for as many slots as the last live index says. It
/// returns `BeyondMaxCapacity` if the map cannot have so many, and `AllocError` if the memory was
/// refused. An error leaves the arena as it was.
///
/// Whether the step of the counter wrapped is not returned: the counter before the call tells it.
pub fn compress_recaster<P: PtrCore, T: Drop, S: ArenaSlots<P, T>, R: DirectSlots<P, P>>(
    arena: &mut Arena<P, T, S>,
    reset: bool,
    alloc: R::Alloc,
) -> Result<DirectArena<P, P, R>, ReallocationError>
    ensures recaster { IfOk result (λ map. IsRecaster P.index P.generation (live_entries arena.old)
        (live_entries arena.new) (entries_of map)) }
    ensures values { OnOk result (live_values arena.new ≡ live_values arena.old) }
    ensures compressed { OnOk result (IsCompressed entry_at live_count some_counter (λ c. c.room)
        P.Gen.last live_entries reset arena.old arena.new) }
    ensures exact { OnOk result (arena.new ≡ compacted
        (renewed P.Gen.last reset arena.old.counter) (live_values arena.old) arena.old) }
    ensures formed { IfOk result (λ map. IsFormed map) }
    ensures arena_formed { OnOk result (IsWellFormed arena.new) }
    ensures map_exact { IfOk result (λ map. map ≡ directly_copied
        (empty (room_of P.Inx.greatest (R.room_at (last_index arena.old)))) (entries_of map)) }

    // No memory is asked for if a new map has the room already.
    ensures succeeds { last_index arena.old ≤ capacity (room_of P.Inx.greatest (R.room_at 0))
        → IsOk result }
    ensures beyond { IsBeyondMaxCapacity result
        ↔ IsBeyond (room_of P.Inx.greatest (R.room_at (last_index arena.old))).limit
        (last_index arena.old) }
    ensures memory { IsAllocError result → IsTrue R.takes_memory }
    ensures err { OnErr result (arena.new ≡ arena.old) }
{
    let mut map = DirectArena::with_min_capacity(alloc, arena.last_index())?;
    arena.compress_noting(reset, &mut map);
    Ok(map)
}

/// Moves the live entries to the first indexes, as `compress` does, and makes `map`, whose entries
/// are dropped, the map from each old pointer to the new one. A map that is kept for it takes
/// memory only where the last live index is past its capacity.
///
/// It returns `BeyondMaxCapacity` if the map cannot have so many slots, and `AllocError` if the
/// memory was refused. An error leaves the arena and the map as they were.
///
/// Whether the step of the counter wrapped is not returned: the counter before the call tells it.
pub fn compress_recaster_into<P: PtrCore, T: Drop, S, R>(
    arena: &mut Arena<P, T, S>,
    reset: bool,
    map: &mut DirectArena<P, P, R>,
) -> Result<(), ReallocationError>
where
    S: ArenaSlots<P, T>,
    R: DirectSlots<P, P>,
    ensures recaster { OnOk result (IsRecaster P.index P.generation (live_entries arena.old)
        (live_entries arena.new) (entries_of map.new)) }
    ensures values { OnOk result (live_values arena.new ≡ live_values arena.old) }
    ensures compressed { OnOk result (IsCompressed entry_at live_count some_counter (λ c. c.room)
        P.Gen.last live_entries reset arena.old arena.new) }
    ensures exact { OnOk result (arena.new ≡ compacted
        (renewed P.Gen.last reset arena.old.counter) (live_values arena.old) arena.old) }
    ensures formed { IsFormed map.new }
    ensures arena_formed { IsWellFormed arena.new }
    ensures map_exact { OnOk result (map.new ≡ directly_copied
        (cleared (reallocated map.old (last_index arena.old))) (entries_of map.new)) }
    ensures map_room { OnOk result (map.new.room ≡ room_with (last_index arena.old) map.old.room) }
    ensures succeeds { last_index arena.old ≤ arena_capacity map.old → IsOk result }
    ensures beyond { IsBeyondMaxCapacity result
        ↔ IsBeyond map.old.room.limit (last_index arena.old) }
    ensures memory { IsAllocError result → IsTrue R.takes_memory }
    ensures err { OnErr result (arena.new ≡ arena.old) }
    ensures map_err { OnErr result (map.new ≡ map.old) }
{
    // The arena is well-formed, also if the map cannot grow.
    arena.recall_formed();
    map.reallocate_min_capacity(arena.last_index())?;
    let _ = map.clear();
    arena.compress_noting(reset, map);
    Ok(())
}

impl<P: PtrCore, T: Drop, S: ArenaSlots<P, T>> Arena<P, T, S> {
    // Compresses the arena, and stores each new pointer under the old one in `map`, which is empty
    // and has the room.
    fn compress_noting<R: DirectSlots<P, P>>(&mut self, reset: bool, map: &mut DirectArena<P, P, R>)
        requires empty { map.old.slots ≡ [] }
        requires fits { last_index self.old ≤ arena_capacity map.old }
        ensures recaster { IsRecaster P.index P.generation (live_entries self.old)
            (live_entries self.new) (entries_of map.new) }
        ensures values { live_values self.new ≡ live_values self.old }
        ensures compressed { IsCompressed entry_at live_count some_counter (λ c. c.room) P.Gen.last
            live_entries reset self.old self.new }
        ensures exact { self.new ≡ compacted (renewed P.Gen.last reset self.old.counter)
            (live_values self.old) self.old }
        ensures formed { IsWellFormed self.new }
        ensures map_exact { map.new ≡ directly_copied map.old (entries_of map.new) }
        ensures map_room { map.new.room ≡ map.old.room }
        ensures map_formed { IsFormed map.new }
    {
        // The slots are within the capacity, and so are their indexes.
        recall!(self.own_capacity());
        let (generation, _) = renewal(self.counter, reset);
        compact_noting(&mut self.slots, generation, map);
        self.counter = generation;
        self.head = OptionalInx::none();
        // The arena is well-formed after.
        self.recall_formed();
    }
}

// Moves the live entries to the first indexes, each with the given generation, drops the other
// slots, and stores each new pointer under the old one in `map`, which is empty and reaches as far
// as the live slots.
fn compact_noting<P: PtrCore, T: Drop, S, R>(
    slots: &mut S,
    generation: P::Gen,
    map: &mut DirectArena<P, P, R>,
)
where
    S: ArenaSlots<P, T>,
    R: DirectSlots<P, P>,
    requires fits { length (S.items slots.old) ≤ P.Inx.greatest }
    requires empty { map.old.slots ≡ [] }
    requires reaches { (k : ℕ) (entry : ℕ × (ℕ × T))
        → slice_get (listed_by entry_of (S.items slots.old)) k ≡ Some entry
        → index_of entry ≤ arena_capacity map.old }
    ensures moved { CompactsNoting P.index P.generation (P.Gen.number generation)
        (list_map entry_of (S.items slots.old)) (list_map entry_of (S.items slots.new))
        (entries_of map.new) }
    ensures room { S.room slots.new ≡ S.room slots.old }
    ensures map_ends { length map.new.slots ≡ last_listed (entries_of map.new) }
    ensures map_formed { IsFormed map.new }
    ensures map_room { map.new.room ≡ map.old.room }
{
    let mut live = 0;
    for at in 0..slots.len() {
        let old = NonZeroUsize::MIN.saturating_add(at);
        if let Some(entry) = take_entry(slots, old) {
            let new = NonZeroUsize::MIN.saturating_add(live);
            let from = pointer_at::<P>(old, entry.0);
            let to = pointer_at::<P>(new, generation);
            map.insert_at(old, from.generation(), to);
            put_entry(slots, new, generation, entry.1);
            live += 1;
        }
    }
    keep_first(slots, live);
    // The map is well-formed, also if nothing was stored.
    map.recall_formed();
}
