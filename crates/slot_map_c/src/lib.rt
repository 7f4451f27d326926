//! A slot map of numbers, for C.
//!
//! A holder keeps a map, or none: `kept`. A handle finds the value of the entry that it was given
//! for: `value_at`. Once that is removed it finds nothing, whatever is stored later: `HasEnded`. So
//! no generation is used twice: once each was given the map is spent, and takes no further entry.
//!
//! Each call answers a status: 0 it is done, 1 the memory was refused, 2 there would be more
//! entries than indexes, 3 the map is spent, 4 the handle finds no entry, 5 the holder keeps no
//! map, 6 it keeps one already, 7 the arrays are too short. At any but 0 nothing has changed.
#![tactic(auto)]

ghost use Rattle.std.specs.Prelude.{◌≡◌, ◌≢◌, ◌⊎◌, ◌+◌, ◌<◌, ◌≤◌, ◌↔◌, ℕ, Some, None};
ghost use Rattle.std.specs.Prelude.{IsTrue, IsSome, false, length, take, drop, ◌++◌, []};
ghost use Rattle.std.specs.Prelude.{map as list_map};
ghost use Rattle.triple_arena_stack.specs.Room.{room_after};
ghost use Rattle.triple_arena.specs.Changes.{IsInserted, IsRemoved, IsCleared, IsCompressed};
ghost use Rattle.triple_arena.specs.Compression.{compacted, pointer_of, renewed, value_of};
ghost use Rattle.triple_arena.specs.Content.{arena_capacity, entry_at, live_count, next_index};
ghost use Rattle.triple_arena.specs.Content.{some_counter, with_value, reallocated};
ghost use Rattle.triple_arena.specs.Content.{inserted as inserted_in, removed as removed_in};
ghost use Rattle.triple_arena.specs.Content.{cleared as cleared_in, grown_if_full};
ghost use Rattle.triple_arena.specs.Entries.{with_value_at};
ghost use Rattle.triple_arena.specs.LiveEntries.{live_entries};
ghost use Rattle.slot_map_c.specs.Held.{HasEnded, OnKept, count, spent, value_at};
ghost use Rattle.slot_map_c.specs.State.{IsAtEnd, fresh, greatest, entries_after, pair_of};

mod handle;
mod holder;
mod refusal;
mod slot_map;

pub use handle::Handle;
pub use holder::Holder;
pub use refusal::Refusal;
pub use slot_map::SlotMap;
use std::alloc::Global;

/// Makes a map without an entry, and leaves it in the holder. It answers 0; or 1 if the memory was
/// refused, or 6 if the holder keeps a map already, and then nothing changes.
#[unsafe(no_mangle)]
pub extern "C" fn slot_map_new(alloc: Global, map: &mut Holder) -> u8
    ensures made { result ≡ 0 → map.new.kept ≡ Some fresh }
    ensures taken { result ≡ 6 ↔ (map.old.kept ≢ None) }
    ensures refused { result ≢ 0 → map.new.kept ≡ map.old.kept }
    ensures statuses { (result ≡ 0) ⊎ ((result ≡ 1) ⊎ (result ≡ 6)) }
{
    if let Some(own) = map.take(alloc) {
        map.put(alloc, own);
        return 6;
    }
    match SlotMap::new(alloc) {
        Some(own) => {
            map.put(alloc, own);
            0
        }
        None => 1,
    }
}

/// Frees the map, if there is one, and its memory. The holder then keeps none.
#[unsafe(no_mangle)]
pub extern "C" fn slot_map_free(alloc: Global, map: &mut Holder)
    ensures { map.new.kept ≡ None }
{
    drop(map.take(alloc));
}

/// Writes how many entries there are. It answers 0; or 5 if there is no map, and then it writes
/// nothing.
#[unsafe(no_mangle)]
pub extern "C" fn slot_map_length(alloc: Global, map: &mut Holder, length: &mut usize) -> u8
    ensures live { result ≡ 0 → length.new ≡ count map.old.kept }
    ensures no_map { result ≡ 5 ↔ (map.old.kept ≡ None) }
    ensures unwritten { result ≢ 0 → length.new ≡ length.old }
    ensures kept { map.new.kept ≡ map.old.kept }
    ensures statuses { (result ≡ 0) ⊎ (result ≡ 5) }
{
    let Some(own) = map.take(alloc) else {
        return 5;
    };
    *length = own.len();
    map.put(alloc, own);
    0
}

/// Writes how many entries fit before the map takes more memory. It answers 0; or 5 if there is no
/// map, and then it writes nothing.
#[unsafe(no_mangle)]
pub extern "C" fn slot_map_capacity(alloc: Global, map: &mut Holder, capacity: &mut usize) -> u8
    ensures value { result ≡ 0
        → OnKept map.old.kept (λ m. capacity.new ≡ arena_capacity m.arena) }
    ensures no_map { result ≡ 5 ↔ (map.old.kept ≡ None) }
    ensures unwritten { result ≢ 0 → capacity.new ≡ capacity.old }
    ensures kept { map.new.kept ≡ map.old.kept }
    ensures statuses { (result ≡ 0) ⊎ (result ≡ 5) }
{
    let Some(own) = map.take(alloc) else {
        return 5;
    };
    *capacity = own.capacity();
    map.put(alloc, own);
    0
}

/// Makes room for `min` entries, by a growth to exactly that if there is less. It answers 0; or 1
/// if the memory was refused, 2 if `min` is past 4,294,967,295, or 5 if there is no map, and then
/// nothing changes.
#[unsafe(no_mangle)]
pub extern "C" fn slot_map_reserve(alloc: Global, map: &mut Holder, min: usize) -> u8
    ensures reallocated { result ≡ 0 → OnKept map.old.kept (λ was. OnKept map.new.kept
        (λ is. is.arena ≡ reallocated was.arena min)) }
    ensures entries { (index generation : ℕ) → value_at map.new.kept index generation
        ≡ value_at map.old.kept index generation }
    ensures live { count map.new.kept ≡ count map.old.kept }
    ensures fits { result ≡ 0 → OnKept map.new.kept (λ m. min ≤ arena_capacity m.arena) }
    ensures lasts { spent map.new.kept ≡ spent map.old.kept }
    ensures ended { (index generation : ℕ) → HasEnded map.old.kept index generation
        → HasEnded map.new.kept index generation }
    ensures succeeds { OnKept map.old.kept (λ m. min ≤ arena_capacity m.arena) → result ≡ 0 }
    ensures full { result ≡ 2 ↔ ((map.old.kept ≢ None) × (greatest < min)) }
    ensures no_map { result ≡ 5 ↔ (map.old.kept ≡ None) }
    ensures refused { result ≢ 0 → map.new.kept ≡ map.old.kept }
    ensures statuses { (result ≡ 0) ⊎ ((result ≡ 1) ⊎ ((result ≡ 2) ⊎ (result ≡ 5))) }
{
    let Some(mut own) = map.take(alloc) else {
        return 5;
    };
    let status = match own.reserve(min) {
        Ok(()) => 0,
        Err(refusal) => refusal.status(),
    };
    map.put(alloc, own);
    status
}

/// Stores a value, and writes its handle. It answers 0; or 1 if the memory was refused, 2 if there
/// is an entry at each index, 3 if the map is spent, or 5 if there is no map, and then nothing
/// changes.
#[unsafe(no_mangle)]
pub extern "C" fn slot_map_insert(
    alloc: Global,
    map: &mut Holder,
    value: u64,
    handle: &mut Handle,
) -> u8
    ensures inserted { result ≡ 0 → OnKept map.old.kept (λ was. OnKept map.new.kept (λ is.
        IsInserted entry_at live_count some_counter (next_index was.arena) handle.new.index
        handle.new.generation value was.arena is.arena)) }
    ensures exact { result ≡ 0 → OnKept map.old.kept (λ was. OnKept map.new.kept (λ is.
        is.arena ≡ inserted_in (grown_if_full was.arena) value)) }
    ensures found { result ≡ 0
        → value_at map.new.kept handle.new.index handle.new.generation ≡ Some value }
    ensures vacant { result ≡ 0
        → value_at map.old.kept handle.new.index handle.new.generation ≡ None }
    ensures others { result ≡ 0 → (index generation : ℕ)
        → (index ≢ handle.new.index) ⊎ (generation ≢ handle.new.generation)
        → value_at map.new.kept index generation ≡ value_at map.old.kept index generation }
    ensures live { result ≡ 0 → count map.new.kept ≡ count map.old.kept + 1 }
    ensures room { result ≡ 0 → OnKept map.old.kept (λ was. OnKept map.new.kept (λ is.
        is.arena.room ≡ room_after (live_count was.arena) was.arena.room)) }
    ensures ended { (index generation : ℕ) → HasEnded map.old.kept index generation
        → HasEnded map.new.kept index generation }
    ensures lasts { spent map.new.kept ≡ spent map.old.kept }
    ensures succeeds { spent map.old.kept ≡ false
        → OnKept map.old.kept (λ was. live_count was.arena < arena_capacity was.arena)
        → result ≡ 0 }
    ensures full { result ≡ 2
        ↔ ((spent map.old.kept ≡ false) × (count map.old.kept ≡ greatest)) }
    ensures spent { result ≡ 3 ↔ IsTrue (spent map.old.kept) }
    ensures no_map { result ≡ 5 ↔ (map.old.kept ≡ None) }
    ensures refused { result ≢ 0 → map.new.kept ≡ map.old.kept }
    ensures unwritten { result ≢ 0 → handle.new ≡ handle.old }
    ensures statuses { (result ≡ 0) ⊎ ((result ≡ 1) ⊎ ((result ≡ 2) ⊎ ((result ≡ 3)
        ⊎ (result ≡ 5)))) }
{
    let Some(mut own) = map.take(alloc) else {
        return 5;
    };
    let status = match own.insert(value) {
        Ok(given) => {
            *handle = given;
            0
        }
        Err(refusal) => refusal.status(),
    };
    map.put(alloc, own);
    status
}

/// Writes the value that the handle finds. It answers 0; or 4 if the handle finds none, or 5 if
/// there is no map, and then it writes nothing.
#[unsafe(no_mangle)]
pub extern "C" fn slot_map_get(
    alloc: Global,
    map: &mut Holder,
    handle: Handle,
    value: &mut u64,
) -> u8
    ensures found { result ≡ 0
        → value_at map.old.kept handle.index handle.generation ≡ Some value.new }
    ensures none { (result ≡ 4) ⊎ (result ≡ 5)
        ↔ (value_at map.old.kept handle.index handle.generation ≡ None) }
    ensures no_map { result ≡ 5 ↔ (map.old.kept ≡ None) }
    ensures unwritten { result ≢ 0 → value.new ≡ value.old }
    ensures made_up { (handle.index ≡ 0) ⊎ (handle.generation ≡ 0) → result ≢ 0 }
    ensures ended { HasEnded map.old.kept handle.index handle.generation → result ≡ 4 }
    ensures kept { map.new.kept ≡ map.old.kept }
    ensures statuses { (result ≡ 0) ⊎ ((result ≡ 4) ⊎ (result ≡ 5)) }
{
    let Some(own) = map.take(alloc) else {
        return 5;
    };
    let status = match own.get(handle) {
        Some(found) => {
            *value = found;
            0
        }
        None => 4,
    };
    map.put(alloc, own);
    status
}

/// Whether the handle finds an entry. It answers 0 if it does, 4 if not, or 5 if there is no map.
#[unsafe(no_mangle)]
pub extern "C" fn slot_map_contains(alloc: Global, map: &mut Holder, handle: Handle) -> u8
    ensures found { result ≡ 0
        ↔ IsSome (value_at map.old.kept handle.index handle.generation) }
    ensures no_map { result ≡ 5 ↔ (map.old.kept ≡ None) }
    ensures made_up { (handle.index ≡ 0) ⊎ (handle.generation ≡ 0) → result ≢ 0 }
    ensures ended { HasEnded map.old.kept handle.index handle.generation → result ≡ 4 }
    ensures kept { map.new.kept ≡ map.old.kept }
    ensures statuses { (result ≡ 0) ⊎ ((result ≡ 4) ⊎ (result ≡ 5)) }
{
    let Some(own) = map.take(alloc) else {
        return 5;
    };
    let status = match own.get(handle) {
        Some(_) => 0,
        None => 4,
    };
    map.put(alloc, own);
    status
}

/// Puts a value in place of the one that the handle finds. It answers 0; or 4 if the handle finds
/// none, or 5 if there is no map, and then nothing changes.
#[unsafe(no_mangle)]
pub extern "C" fn slot_map_set(alloc: Global, map: &mut Holder, handle: Handle, value: u64) -> u8
    ensures written { result ≡ 0 → OnKept map.old.kept (λ was. OnKept map.new.kept (λ is.
        is.arena ≡ with_value was.arena handle.index value)) }
    ensures entries { result ≡ 0 → OnKept map.old.kept (λ was. OnKept map.new.kept (λ is. (j : ℕ)
        → entry_at is.arena j ≡ with_value_at (entry_at was.arena) handle.index value j)) }
    ensures found { result ≡ 0
        → value_at map.new.kept handle.index handle.generation ≡ Some value }
    ensures others { (index generation : ℕ)
        → (index ≢ handle.index) ⊎ (generation ≢ handle.generation)
        → value_at map.new.kept index generation ≡ value_at map.old.kept index generation }
    ensures lasts { spent map.new.kept ≡ spent map.old.kept }
    ensures live { count map.new.kept ≡ count map.old.kept }
    ensures none { (result ≡ 4) ⊎ (result ≡ 5)
        ↔ (value_at map.old.kept handle.index handle.generation ≡ None) }
    ensures no_map { result ≡ 5 ↔ (map.old.kept ≡ None) }
    ensures ended { (index generation : ℕ) → HasEnded map.old.kept index generation
        → HasEnded map.new.kept index generation }
    ensures missed { result ≢ 0 → map.new.kept ≡ map.old.kept }
    ensures made_up { (handle.index ≡ 0) ⊎ (handle.generation ≡ 0) → result ≢ 0 }
    ensures statuses { (result ≡ 0) ⊎ ((result ≡ 4) ⊎ (result ≡ 5)) }
{
    let Some(mut own) = map.take(alloc) else {
        return 5;
    };
    let status = if own.set(handle, value) { 0 } else { 4 };
    map.put(alloc, own);
    status
}

/// Removes the entry that the handle finds, and writes its value. The handle then finds nothing,
/// whatever is stored later. If its removal gave the last generation, the map is spent from then
/// on. It answers 0; or 4 if the handle finds none, or 5 if there is no map, and then nothing
/// changes.
#[unsafe(no_mangle)]
pub extern "C" fn slot_map_remove(
    alloc: Global,
    map: &mut Holder,
    handle: Handle,
    value: &mut u64,
) -> u8
    ensures removed { result ≡ 0 → OnKept map.old.kept (λ was. OnKept map.new.kept
        (λ is. IsRemoved entry_at live_count some_counter (λ c. c.room) (Some greatest)
        handle.index was.arena is.arena)) }
    ensures exact { result ≡ 0 → OnKept map.old.kept (λ was. OnKept map.new.kept
        (λ is. is.arena ≡ removed_in (Some greatest) was.arena handle.index)) }
    ensures value { result ≡ 0
        → value_at map.old.kept handle.index handle.generation ≡ Some value.new }
    ensures live { result ≡ 0 → count map.new.kept + 1 ≡ count map.old.kept }
    ensures gone { value_at map.new.kept handle.index handle.generation ≡ None }
    ensures none { (result ≡ 4) ⊎ (result ≡ 5)
        ↔ (value_at map.old.kept handle.index handle.generation ≡ None) }
    ensures no_map { result ≡ 5 ↔ (map.old.kept ≡ None) }
    ensures ends { result ≡ 0 → HasEnded map.new.kept handle.index handle.generation }
    ensures ended { (index generation : ℕ) → HasEnded map.old.kept index generation
        → HasEnded map.new.kept index generation }
    ensures spent { result ≡ 0
        → (IsTrue (spent map.new.kept) ↔ OnKept map.old.kept IsAtEnd) }
    ensures others { (index generation : ℕ)
        → (index ≢ handle.index) ⊎ (generation ≢ handle.generation)
        → value_at map.new.kept index generation ≡ value_at map.old.kept index generation }
    ensures missed { result ≢ 0 → map.new.kept ≡ map.old.kept }
    ensures made_up { (handle.index ≡ 0) ⊎ (handle.generation ≡ 0) → result ≢ 0 }
    ensures unwritten { result ≢ 0 → value.new ≡ value.old }
    ensures statuses { (result ≡ 0) ⊎ ((result ≡ 4) ⊎ (result ≡ 5)) }
{
    let Some(mut own) = map.take(alloc) else {
        return 5;
    };
    let status = match own.remove(handle) {
        Some(found) => {
            *value = found;
            0
        }
        None => 4,
    };
    map.put(alloc, own);
    status
}

/// Removes every entry, so that each handle finds nothing, whatever is stored later. The capacity
/// stays. If this took the last generation, the map is spent from then on. It answers 0, or 5 if
/// there is no map.
#[unsafe(no_mangle)]
pub extern "C" fn slot_map_clear(alloc: Global, map: &mut Holder) -> u8
    ensures cleared { result ≡ 0 → OnKept map.old.kept (λ was. OnKept map.new.kept
        (λ is. IsCleared entry_at live_count some_counter (λ c. c.room) (Some greatest)
        was.arena is.arena)) }
    ensures exact { result ≡ 0 → OnKept map.old.kept (λ was. OnKept map.new.kept
        (λ is. is.arena ≡ cleared_in (Some greatest) was.arena)) }
    ensures none { (index generation : ℕ) → value_at map.new.kept index generation ≡ None }
    ensures live { count map.new.kept ≡ 0 }
    ensures ends { (index generation : ℕ) → IsSome (value_at map.old.kept index generation)
        → HasEnded map.new.kept index generation }
    ensures ended { (index generation : ℕ) → HasEnded map.old.kept index generation
        → HasEnded map.new.kept index generation }
    ensures spent { IsTrue (spent map.new.kept) ↔ OnKept map.old.kept IsAtEnd }
    ensures no_map { result ≡ 5 ↔ (map.old.kept ≡ None) }
    ensures unmade { map.old.kept ≡ None → map.new.kept ≡ None }
    ensures statuses { (result ≡ 0) ⊎ (result ≡ 5) }
{
    let Some(mut own) = map.take(alloc) else {
        return 5;
    };
    own.clear();
    map.put(alloc, own);
    0
}

/// Moves the entries, in the order of their indexes, to the indexes from 1 on, and gives each
/// another handle. It writes the old handles and the new ones to the two arrays, in that order, and
/// how many they are: the entry that `old[k]` found, `fresh[k]` finds now. Each old handle finds
/// nothing from then on. No memory is taken.
///
/// It answers 0; or 3 if no generation is left for the new handles, 5 if there is no map, or 7 if
/// one of the arrays is shorter than the number of entries, and then nothing changes.
#[unsafe(no_mangle)]
pub extern "C" fn slot_map_compress(
    alloc: Global,
    map: &mut Holder,
    old: &mut [Handle],
    fresh: &mut [Handle],
    written: &mut usize,
) -> u8
    ensures compressed { result ≡ 0 → OnKept map.old.kept (λ was. OnKept map.new.kept (λ is.
        IsCompressed entry_at live_count some_counter (λ c. c.room) (Some greatest) live_entries
        false was.arena is.arena)) }
    ensures exact { result ≡ 0 → OnKept map.old.kept (λ was. OnKept map.new.kept (λ is. is.arena
        ≡ compacted (renewed (Some greatest) false was.arena.counter)
        (list_map value_of (live_entries was.arena)) was.arena)) }
    ensures values { result ≡ 0 → OnKept map.old.kept (λ was. OnKept map.new.kept (λ is.
        list_map value_of (live_entries is.arena) ≡ list_map value_of (live_entries was.arena))) }
    ensures count { result ≡ 0 → written.new ≡ count map.old.kept }
    ensures live { count map.new.kept ≡ count map.old.kept }
    ensures old_handles { result ≡ 0 → OnKept map.old.kept (λ was.
        list_map pair_of (take written.new old.new)
        ≡ list_map pointer_of (live_entries was.arena)) }
    ensures new_handles { result ≡ 0 → OnKept map.new.kept (λ is.
        list_map pair_of (take written.new fresh.new)
        ≡ list_map pointer_of (live_entries is.arena)) }
    ensures old_rest { result ≡ 0 → drop written.new old.new ≡ drop written.new old.old }
    ensures new_rest { result ≡ 0 → drop written.new fresh.new ≡ drop written.new fresh.old }
    ensures ends { result ≡ 0 → (index generation : ℕ)
        → IsSome (value_at map.old.kept index generation)
        → HasEnded map.new.kept index generation }
    ensures ended { (index generation : ℕ) → HasEnded map.old.kept index generation
        → HasEnded map.new.kept index generation }
    ensures lasts { spent map.new.kept ≡ spent map.old.kept }
    ensures spent { result ≡ 3 ↔ OnKept map.old.kept IsAtEnd }
    ensures short { result ≡ 7 ↔ ((OnKept map.old.kept IsAtEnd → ⊥)
        × ((length old.old < count map.old.kept) ⊎ (length fresh.old < count map.old.kept))) }
    ensures no_map { result ≡ 5 ↔ (map.old.kept ≡ None) }
    ensures refused { result ≢ 0 → map.new.kept ≡ map.old.kept }
    ensures old_unwritten { result ≢ 0 → old.new ≡ old.old }
    ensures new_unwritten { result ≢ 0 → fresh.new ≡ fresh.old }
    ensures unwritten { result ≢ 0 → written.new ≡ written.old }
    ensures statuses { (result ≡ 0) ⊎ ((result ≡ 3) ⊎ ((result ≡ 5) ⊎ (result ≡ 7))) }
{
    let Some(mut own) = map.take(alloc) else {
        return 5;
    };
    let status = match own.compress(old, fresh) {
        Ok(count) => {
            *written = count;
            0
        }
        Err(refusal) => refusal.status(),
    };
    map.put(alloc, own);
    status
}

/// Writes the handles and the values of the entries past the index `last`, by rising index, as many
/// as both arrays take, and how many they are, and leaves the index of the last one in `last`. From
/// 0 on, calls with that give each entry once, until none is written. What stands behind them in
/// the arrays stays. It answers 0; or 5 if there is no map, and then it writes nothing.
#[unsafe(no_mangle)]
pub extern "C" fn slot_map_read(
    alloc: Global,
    map: &mut Holder,
    last: &mut u32,
    handles: &mut [Handle],
    values: &mut [u64],
    written: &mut usize,
) -> u8
    ensures handles { result ≡ 0 → OnKept map.old.kept (λ m.
        list_map pair_of (take written.new handles.new)
        ++ list_map pointer_of (entries_after m.arena last.new)
        ≡ list_map pointer_of (entries_after m.arena last.old)) }
    ensures values { result ≡ 0 → OnKept map.old.kept (λ m.
        take written.new values.new ++ list_map value_of (entries_after m.arena last.new)
        ≡ list_map value_of (entries_after m.arena last.old)) }
    ensures fits { result ≡ 0
        → (written.new ≤ length handles.old) × (written.new ≤ length values.old) }
    ensures all { result ≡ 0 → (written.new ≡ length handles.old)
        ⊎ ((written.new ≡ length values.old)
        ⊎ OnKept map.old.kept (λ m. entries_after m.arena last.new ≡ [])) }
    ensures rest { result ≡ 0 → drop written.new handles.new ≡ drop written.new handles.old }
    ensures rest_of_values { result ≡ 0
        → drop written.new values.new ≡ drop written.new values.old }
    ensures kept { map.new.kept ≡ map.old.kept }
    ensures no_map { result ≡ 5 ↔ (map.old.kept ≡ None) }
    ensures handles_unwritten { result ≢ 0 → handles.new ≡ handles.old }
    ensures values_unwritten { result ≢ 0 → values.new ≡ values.old }
    ensures unwritten { result ≢ 0 → (written.new ≡ written.old) × (last.new ≡ last.old) }
    ensures statuses { (result ≡ 0) ⊎ (result ≡ 5) }
{
    let Some(own) = map.take(alloc) else {
        return 5;
    };
    let (count, at) = own.read(*last, handles, values);
    *written = count;
    *last = at;
    map.put(alloc, own);
    0
}
