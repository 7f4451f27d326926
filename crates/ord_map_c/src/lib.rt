//! An ordered map of 64-bit keys and values, for C. It has each key once.
//!
//! A holder keeps a map, or none: `kept`. Its `entries` are a list in which the keys rise: the
//! index and the generation of a handle, and under them the key with the value. A handle finds the
//! key and the value of the entry that it was given for: `pair_at`. Once that is removed it finds
//! nothing, whatever is stored later: `HasEnded`. So no generation is used twice: once each was
//! given the map is spent, and takes no further entry.
//!
//! Each call answers a status: 0 it is done, 1 the memory was refused, 2 there would be more
//! entries than indexes, 3 the map is spent, 4 the handle finds no entry, 5 the holder keeps no
//! map, 6 it keeps one already, 7 there is no such entry, 8 it is done, and a value gave way, 9 it
//! is done, and an entry was there, which stays. At any but 0 and 8 nothing has changed.
#![tactic(auto)]

ghost use Rattle.std.specs.Prelude.{◌≡◌, ◌≢◌, ◌⊎◌, ◌+◌, ◌<◌, ◌≤◌, ◌↔◌, ℕ, Some, None};
ghost use Rattle.std.specs.Prelude.{IsTrue, IsSome, IfSome, false, length, take, drop, []};
ghost use Rattle.std.specs.Prelude.{length as list_length, map as list_map};
ghost use Rattle.std.specs.Option.{option_map};
ghost use Rattle.triple_arena_stack.specs.Room.{room_after};
ghost use Rattle.triple_arena.specs.Content.{arena_capacity};
ghost use Rattle.triple_arena_ord.specs.Inserted.{IsAdded, IsReplaced};
ghost use Rattle.triple_arena_ord.specs.Ordered.{size_in};
ghost use Rattle.triple_arena_ord.specs.Removal.{IsEntryRemoved};
ghost use Rattle.triple_arena_ord.specs.States.{with_item, reallocated_in, cleared_in};
ghost use Rattle.ord_map_c.specs.Entries.{KeysRise, pointer_of, key_of, value_of, entry, pair};
ghost use Rattle.ord_map_c.specs.Entries.{with_key, from_key, past_key, put_in, without_key};
ghost use Rattle.ord_map_c.specs.Entries.{first_of, last_of, place_of};
ghost use Rattle.ord_map_c.specs.Held.{HasEnded, OnKept, count, entries, pair_at, spent};
ghost use Rattle.ord_map_c.specs.Held.{next_at, previous_at, rest_at};
ghost use Rattle.ord_map_c.specs.State.{IsAtEnd, fresh, greatest, nearest_by, pair_of};

mod entries;
mod handle;
mod holder;
mod ord_map;
mod refusal;

pub use handle::Handle;
use handle::write_found;
pub use holder::Holder;
pub use ord_map::OrdMap;
use proof_marks::recall;
pub use refusal::Refusal;
use std::alloc::Global;

/// Makes a map without an entry, and leaves it in the holder. It answers 0; or 1 if the memory was
/// refused, or 6 if the holder keeps a map already, and then nothing changes.
#[unsafe(no_mangle)]
pub extern "C" fn ord_map_new(alloc: Global, map: &mut Holder) -> u8
    ensures made { result ≡ 0 → map.new.kept ≡ Some fresh }
    ensures taken { result ≡ 6 ↔ (map.old.kept ≢ None) }
    ensures refused { result ≢ 0 → map.new.kept ≡ map.old.kept }
    ensures statuses { (result ≡ 0) ⊎ ((result ≡ 1) ⊎ (result ≡ 6)) }
{
    if let Some(own) = map.take(alloc) {
        map.put(alloc, own);
        return 6;
    }
    match OrdMap::new(alloc) {
        Some(own) => {
            map.put(alloc, own);
            0
        }
        None => 1,
    }
}

/// Frees the map, if there is one, and its memory. The holder then keeps none.
#[unsafe(no_mangle)]
pub extern "C" fn ord_map_free(alloc: Global, map: &mut Holder)
    ensures { map.new.kept ≡ None }
{
    drop(map.take(alloc));
}

/// Writes how many entries there are. It answers 0; or 5 if there is no map, and then it writes
/// nothing.
#[unsafe(no_mangle)]
pub extern "C" fn ord_map_length(alloc: Global, map: &mut Holder, length: &mut usize) -> u8
    ensures live { result ≡ 0 → length.new ≡ count map.old.kept }
    ensures counted { result ≡ 0 → list_length (entries map.old.kept) ≡ count map.old.kept }
    ensures rise { KeysRise (entries map.old.kept) }
    ensures no_map { result ≡ 5 ↔ (map.old.kept ≡ None) }
    ensures unwritten { result ≢ 0 → length.new ≡ length.old }
    ensures kept { map.new.kept ≡ map.old.kept }
    ensures statuses { (result ≡ 0) ⊎ (result ≡ 5) }
{
    let Some(own) = map.take(alloc) else {
        return 5;
    };
    *length = own.len();
    map.put(alloc, own);
    0
}

/// Writes how many entries fit before the map takes more memory. It answers 0; or 5 if there is no
/// map, and then it writes nothing.
#[unsafe(no_mangle)]
pub extern "C" fn ord_map_capacity(alloc: Global, map: &mut Holder, capacity: &mut usize) -> u8
    ensures value { result ≡ 0
        → OnKept map.old.kept (λ m. capacity.new ≡ arena_capacity m.arena.chains) }
    ensures no_map { result ≡ 5 ↔ (map.old.kept ≡ None) }
    ensures unwritten { result ≢ 0 → capacity.new ≡ capacity.old }
    ensures kept { map.new.kept ≡ map.old.kept }
    ensures statuses { (result ≡ 0) ⊎ (result ≡ 5) }
{
    let Some(own) = map.take(alloc) else {
        return 5;
    };
    *capacity = own.capacity();
    map.put(alloc, own);
    0
}

/// Makes room for `min` entries, by a growth to exactly that if there is less. It answers 0; or 1
/// if the memory was refused, 2 if `min` is past 4,294,967,295, or 5 if there is no map, and then
/// nothing changes.
#[unsafe(no_mangle)]
pub extern "C" fn ord_map_reserve(alloc: Global, map: &mut Holder, min: usize) -> u8
    ensures reallocated { result ≡ 0 → OnKept map.old.kept (λ was. OnKept map.new.kept
        (λ is. is.arena ≡ reallocated_in was.arena min)) }
    ensures listed { entries map.new.kept ≡ entries map.old.kept }
    ensures pairs { (index generation : ℕ) → pair_at map.new.kept index generation
        ≡ pair_at map.old.kept index generation }
    ensures live { count map.new.kept ≡ count map.old.kept }
    ensures fits { result ≡ 0 → OnKept map.new.kept (λ m. min ≤ arena_capacity m.arena.chains) }
    ensures lasts { spent map.new.kept ≡ spent map.old.kept }
    ensures ended { (index generation : ℕ) → HasEnded map.old.kept index generation
        → HasEnded map.new.kept index generation }
    ensures succeeds { OnKept map.old.kept (λ m. min ≤ arena_capacity m.arena.chains) → result ≡ 0 }
    ensures full { result ≡ 2 ↔ ((map.old.kept ≢ None) × (greatest < min)) }
    ensures no_map { result ≡ 5 ↔ (map.old.kept ≡ None) }
    ensures refused { result ≢ 0 → map.new.kept ≡ map.old.kept }
    ensures statuses { (result ≡ 0) ⊎ ((result ≡ 1) ⊎ ((result ≡ 2) ⊎ (result ≡ 5))) }
{
    let Some(mut own) = map.take(alloc) else {
        return 5;
    };
    let status = match own.reserve(min) {
        Ok(()) => 0,
        Err(refusal) => refusal.status(),
    };
    map.put(alloc, own);
    status
}

/// Puts a value in at a key, and writes its handle. If the key has an entry, that keeps its handle,
/// and `was` gets the value that gives way; this takes no memory, also in a map that is full or
/// spent. It answers 0 for a new entry and 8 for a value that gave way; or 1 if the memory was
/// refused, 2 if there is an entry at each index, 3 if the map is spent, or 5 if there is no map,
/// and then nothing changes.
#[unsafe(no_mangle)]
pub extern "C" fn ord_map_insert(
    alloc: Global,
    map: &mut Holder,
    key: u64,
    value: u64,
    handle: &mut Handle,
    was: &mut u64,
) -> u8
    ensures listed { (result ≡ 0) ⊎ (result ≡ 8) → entries map.new.kept
        ≡ put_in (entries map.old.kept) (entry handle.new.index handle.new.generation key value) }
    ensures added { result ≡ 0 → OnKept map.old.kept (λ before. OnKept map.new.kept (λ is.
        IsAdded handle.new.index handle.new.generation (pair key value) before.arena is.arena)) }
    ensures replaced { result ≡ 8 → OnKept map.old.kept (λ before. OnKept map.new.kept (λ is.
        IsReplaced handle.new.index handle.new.generation (pair key value)
        (pair key was.new) before.arena is.arena)) }
    ensures replaces { result ≡ 8 ↔ IsSome (with_key (entries map.old.kept) key) }
    ensures was { result ≡ 8
        → option_map value_of (with_key (entries map.old.kept) key) ≡ Some was.new }
    ensures same { result ≡ 8 → option_map pointer_of (with_key (entries map.old.kept) key)
        ≡ Some (pair_of handle.new) }
    ensures found { (result ≡ 0) ⊎ (result ≡ 8) → pair_at map.new.kept handle.new.index
        handle.new.generation ≡ Some (pair key value) }
    ensures vacant { result ≡ 0
        → pair_at map.old.kept handle.new.index handle.new.generation ≡ None }
    ensures others { (result ≡ 0) ⊎ (result ≡ 8) → (index generation : ℕ)
        → (index ≢ handle.new.index) ⊎ (generation ≢ handle.new.generation)
        → pair_at map.new.kept index generation ≡ pair_at map.old.kept index generation }
    ensures live { result ≡ 0 → count map.new.kept ≡ count map.old.kept + 1 }
    ensures as_many { result ≡ 8 → count map.new.kept ≡ count map.old.kept }
    ensures room { result ≡ 0 → OnKept map.old.kept (λ before. OnKept map.new.kept (λ is.
        is.arena.chains.room ≡ room_after (size_in before.arena) before.arena.chains.room)) }
    ensures same_room { result ≡ 8 → OnKept map.old.kept (λ before. OnKept map.new.kept (λ is.
        is.arena.chains.room ≡ before.arena.chains.room)) }
    ensures counter { (result ≡ 0) ⊎ (result ≡ 8) → OnKept map.old.kept (λ before.
        OnKept map.new.kept (λ is. is.arena.chains.counter ≡ before.arena.chains.counter)) }
    ensures ended { (index generation : ℕ) → HasEnded map.old.kept index generation
        → HasEnded map.new.kept index generation }
    ensures lasts { spent map.new.kept ≡ spent map.old.kept }
    ensures succeeds { spent map.old.kept ≡ false
        → OnKept map.old.kept (λ m. size_in m.arena < arena_capacity m.arena.chains)
        → (result ≡ 0) ⊎ (result ≡ 8) }
    ensures memory { result ≡ 1
        → OnKept map.old.kept (λ m. arena_capacity m.arena.chains ≤ size_in m.arena) }
    ensures full { result ≡ 2 ↔ ((spent map.old.kept ≡ false)
        × ((with_key (entries map.old.kept) key ≡ None) × (count map.old.kept ≡ greatest))) }
    ensures spent { result ≡ 3 ↔ (IsTrue (spent map.old.kept)
        × (with_key (entries map.old.kept) key ≡ None)) }
    ensures no_map { result ≡ 5 ↔ (map.old.kept ≡ None) }
    ensures refused { result ≢ 0 → result ≢ 8 → map.new.kept ≡ map.old.kept }
    ensures unwritten { result ≢ 0 → result ≢ 8 → handle.new ≡ handle.old }
    ensures none_was { result ≢ 8 → was.new ≡ was.old }
    ensures statuses { (result ≡ 0) ⊎ ((result ≡ 1) ⊎ ((result ≡ 2) ⊎ ((result ≡ 3)
        ⊎ ((result ≡ 5) ⊎ (result ≡ 8))))) }
{
    let Some(mut own) = map.take(alloc) else {
        return 5;
    };
    let status = match own.insert(key, value) {
        Ok((given, None)) => {
            *handle = given;
            0
        }
        Ok((given, Some(gone))) => {
            *handle = given;
            *was = gone;
            8
        }
        Err(refusal) => refusal.status(),
    };
    map.put(alloc, own);
    status
}

/// Writes the handle of the entry with this key, and its value to `found`; or if no entry has it,
/// puts a value in at the key, and writes the handle alone. An entry that is there stays as it is,
/// and takes no memory, also in a map that is full or spent. It answers 0 for a new entry and 9 for
/// one that was there; or 1 if the memory was refused, 2 if there is an entry at each index, 3 if
/// the map is spent, or 5 if there is no map, and then it writes nothing. At any but 0 nothing
/// changes.
#[unsafe(no_mangle)]
pub extern "C" fn ord_map_get_or_insert(
    alloc: Global,
    map: &mut Holder,
    key: u64,
    value: u64,
    handle: &mut Handle,
    found: &mut u64,
) -> u8
    ensures listed { result ≡ 0 → entries map.new.kept
        ≡ put_in (entries map.old.kept) (entry handle.new.index handle.new.generation key value) }
    ensures added { result ≡ 0 → OnKept map.old.kept (λ before. OnKept map.new.kept (λ is.
        IsAdded handle.new.index handle.new.generation (pair key value)
        before.arena is.arena)) }
    ensures gets { result ≡ 9 ↔ IsSome (with_key (entries map.old.kept) key) }
    ensures stays { result ≢ 0 → map.new.kept ≡ map.old.kept }
    ensures found { result ≡ 9
        → option_map value_of (with_key (entries map.old.kept) key) ≡ Some found.new }
    ensures same { result ≡ 9 → option_map pointer_of (with_key (entries map.old.kept) key)
        ≡ Some (pair_of handle.new) }
    ensures got { result ≡ 9 → pair_at map.new.kept handle.new.index handle.new.generation
        ≡ Some (pair key found.new) }
    ensures put { result ≡ 0 → pair_at map.new.kept handle.new.index handle.new.generation
        ≡ Some (pair key value) }
    ensures vacant { result ≡ 0
        → pair_at map.old.kept handle.new.index handle.new.generation ≡ None }
    ensures others { result ≡ 0 → (index generation : ℕ)
        → (index ≢ handle.new.index) ⊎ (generation ≢ handle.new.generation)
        → pair_at map.new.kept index generation ≡ pair_at map.old.kept index generation }
    ensures live { result ≡ 0 → count map.new.kept ≡ count map.old.kept + 1 }
    ensures room { result ≡ 0 → OnKept map.old.kept (λ before. OnKept map.new.kept (λ is.
        is.arena.chains.room ≡ room_after (size_in before.arena) before.arena.chains.room)) }
    ensures counter { result ≡ 0 → OnKept map.old.kept (λ before.
        OnKept map.new.kept (λ is. is.arena.chains.counter ≡ before.arena.chains.counter)) }
    ensures ended { (index generation : ℕ) → HasEnded map.old.kept index generation
        → HasEnded map.new.kept index generation }
    ensures lasts { spent map.new.kept ≡ spent map.old.kept }
    ensures succeeds { spent map.old.kept ≡ false
        → OnKept map.old.kept (λ m. size_in m.arena < arena_capacity m.arena.chains)
        → (result ≡ 0) ⊎ (result ≡ 9) }
    ensures memory { result ≡ 1
        → OnKept map.old.kept (λ m. arena_capacity m.arena.chains ≤ size_in m.arena) }
    ensures full { result ≡ 2 ↔ ((spent map.old.kept ≡ false)
        × ((with_key (entries map.old.kept) key ≡ None) × (count map.old.kept ≡ greatest))) }
    ensures spent { result ≡ 3 ↔ (IsTrue (spent map.old.kept)
        × (with_key (entries map.old.kept) key ≡ None)) }
    ensures no_map { result ≡ 5 ↔ (map.old.kept ≡ None) }
    ensures unwritten { result ≢ 0 → result ≢ 9 → handle.new ≡ handle.old }
    ensures none_found { result ≢ 9 → found.new ≡ found.old }
    ensures statuses { (result ≡ 0) ⊎ ((result ≡ 1) ⊎ ((result ≡ 2) ⊎ ((result ≡ 3)
        ⊎ ((result ≡ 5) ⊎ (result ≡ 9))))) }
{
    let Some(mut own) = map.take(alloc) else {
        return 5;
    };
    let status = match own.get_or_insert(key, value) {
        Ok((added, None)) => {
            *handle = added;
            0
        }
        Ok((there, Some(own_value))) => {
            *handle = there;
            *found = own_value;
            9
        }
        Err(refusal) => refusal.status(),
    };
    map.put(alloc, own);
    status
}

/// Writes the handle of the entry with this key. It answers 0; or 7 if no entry has it, or 5 if
/// there is no map, and then it writes nothing.
#[unsafe(no_mangle)]
pub extern "C" fn ord_map_find(alloc: Global, map: &mut Holder, key: u64, handle: &mut Handle) -> u8
    ensures found { result ≡ 0 → option_map pointer_of (with_key (entries map.old.kept) key)
        ≡ Some (pair_of handle.new) }
    ensures key { result ≡ 0 → option_map (λ t. t.k)
        (pair_at map.old.kept handle.new.index handle.new.generation) ≡ Some key }
    ensures none { result ≡ 7 ↔ ((map.old.kept ≢ None)
        × (with_key (entries map.old.kept) key ≡ None)) }
    ensures no_map { result ≡ 5 ↔ (map.old.kept ≡ None) }
    ensures unwritten { result ≢ 0 → handle.new ≡ handle.old }
    ensures kept { map.new.kept ≡ map.old.kept }
    ensures statuses { (result ≡ 0) ⊎ ((result ≡ 5) ⊎ (result ≡ 7)) }
{
    let Some(own) = map.take(alloc) else {
        return 5;
    };
    let status = write_found(own.find(key), handle);
    map.put(alloc, own);
    status
}

/// Writes the handle of the entry with this key, and 0 to `side`; or if no entry has it, that of a
/// neighbor of its place: of the first entry above it, and 1, or of the last one below it, and 2.
/// It answers 0; or 7 if there is no entry, or 5 if there is no map, and then it writes nothing.
#[unsafe(no_mangle)]
pub extern "C" fn ord_map_nearest(
    alloc: Global,
    map: &mut Holder,
    key: u64,
    handle: &mut Handle,
    side: &mut u8,
) -> u8
    ensures found { result ≡ 0
        → option_map pointer_of (nearest_by side.new (entries map.old.kept) key)
        ≡ Some (pair_of handle.new) }
    ensures equal { result ≡ 0 → ((side.new ≡ 0) ↔ IsSome (with_key (entries map.old.kept) key)) }
    ensures side { result ≡ 0 → side.new ≤ 2 }
    ensures none { result ≡ 7 ↔ ((map.old.kept ≢ None) × (entries map.old.kept ≡ [])) }
    ensures no_map { result ≡ 5 ↔ (map.old.kept ≡ None) }
    ensures unwritten { result ≢ 0 → (handle.new ≡ handle.old) × (side.new ≡ side.old) }
    ensures kept { map.new.kept ≡ map.old.kept }
    ensures statuses { (result ≡ 0) ⊎ ((result ≡ 5) ⊎ (result ≡ 7)) }
{
    let Some(own) = map.take(alloc) else {
        return 5;
    };
    let status = match own.nearest(key) {
        Some((found, way)) => {
            *handle = found;
            *side = way;
            0
        }
        None => 7,
    };
    map.put(alloc, own);
    status
}

/// Writes the handle of the first entry whose key is not below this one. It answers 0; or 7 if
/// there is none, or 5 if there is no map, and then it writes nothing.
#[unsafe(no_mangle)]
pub extern "C" fn ord_map_lower_bound(
    alloc: Global,
    map: &mut Holder,
    key: u64,
    handle: &mut Handle,
) -> u8
    ensures found { result ≡ 0 → option_map pointer_of
        (first_of (from_key (entries map.old.kept) key))
        ≡ Some (pair_of handle.new) }
    ensures none { result ≡ 7 ↔ ((map.old.kept ≢ None)
        × (first_of (from_key (entries map.old.kept) key) ≡ None)) }
    ensures no_map { result ≡ 5 ↔ (map.old.kept ≡ None) }
    ensures unwritten { result ≢ 0 → handle.new ≡ handle.old }
    ensures kept { map.new.kept ≡ map.old.kept }
    ensures statuses { (result ≡ 0) ⊎ ((result ≡ 5) ⊎ (result ≡ 7)) }
{
    let Some(own) = map.take(alloc) else {
        return 5;
    };
    let status = write_found(own.lower_bound(key), handle);
    map.put(alloc, own);
    status
}

/// Writes the handle of the first entry whose key is above this one. It answers 0; or 7 if there is
/// none, or 5 if there is no map, and then it writes nothing.
#[unsafe(no_mangle)]
pub extern "C" fn ord_map_upper_bound(
    alloc: Global,
    map: &mut Holder,
    key: u64,
    handle: &mut Handle,
) -> u8
    ensures found { result ≡ 0 → option_map pointer_of
        (first_of (past_key (entries map.old.kept) key))
        ≡ Some (pair_of handle.new) }
    ensures none { result ≡ 7 ↔ ((map.old.kept ≢ None)
        × (first_of (past_key (entries map.old.kept) key) ≡ None)) }
    ensures no_map { result ≡ 5 ↔ (map.old.kept ≡ None) }
    ensures unwritten { result ≢ 0 → handle.new ≡ handle.old }
    ensures kept { map.new.kept ≡ map.old.kept }
    ensures statuses { (result ≡ 0) ⊎ ((result ≡ 5) ⊎ (result ≡ 7)) }
{
    let Some(own) = map.take(alloc) else {
        return 5;
    };
    let status = write_found(own.upper_bound(key), handle);
    map.put(alloc, own);
    status
}

/// Writes the key and the value that the handle finds. It answers 0; or 4 if the handle finds no
/// entry, or 5 if there is no map, and then it writes nothing.
#[unsafe(no_mangle)]
pub extern "C" fn ord_map_get(
    alloc: Global,
    map: &mut Holder,
    handle: Handle,
    key: &mut u64,
    value: &mut u64,
) -> u8
    ensures found { result ≡ 0 → pair_at map.old.kept handle.index handle.generation
        ≡ Some (pair key.new value.new) }
    ensures listed { result ≡ 0 → with_key (entries map.old.kept) key.new
        ≡ Some (entry handle.index handle.generation key.new value.new) }
    ensures none { (result ≡ 4) ⊎ (result ≡ 5)
        ↔ (pair_at map.old.kept handle.index handle.generation ≡ None) }
    ensures no_map { result ≡ 5 ↔ (map.old.kept ≡ None) }
    ensures unwritten { result ≢ 0 → (key.new ≡ key.old) × (value.new ≡ value.old) }
    ensures made_up { (handle.index ≡ 0) ⊎ (handle.generation ≡ 0) → result ≢ 0 }
    ensures ended { HasEnded map.old.kept handle.index handle.generation → result ≡ 4 }
    ensures kept { map.new.kept ≡ map.old.kept }
    ensures statuses { (result ≡ 0) ⊎ ((result ≡ 4) ⊎ (result ≡ 5)) }
{
    let Some(own) = map.take(alloc) else {
        return 5;
    };
    let status = match own.get(handle) {
        Some((own_key, own_value)) => {
            *key = own_key;
            *value = own_value;
            0
        }
        None => 4,
    };
    map.put(alloc, own);
    status
}

/// Puts a value in place of the one that the handle finds. The key stays. It answers 0; or 4 if the
/// handle finds no entry, or 5 if there is no map, and then nothing changes.
#[unsafe(no_mangle)]
pub extern "C" fn ord_map_set(alloc: Global, map: &mut Holder, handle: Handle, value: u64) -> u8
    ensures written { result ≡ 0 → IfSome (pair_at map.old.kept handle.index handle.generation)
        (λ t. OnKept map.old.kept (λ was. OnKept map.new.kept (λ is.
        is.arena ≡ with_item was.arena handle.index (pair t.k value)))) }
    ensures listed { result ≡ 0 → IfSome (pair_at map.old.kept handle.index handle.generation)
        (λ t. entries map.new.kept ≡ put_in (entries map.old.kept)
        (entry handle.index handle.generation t.k value)) }
    ensures found { result ≡ 0 → IfSome (pair_at map.old.kept handle.index handle.generation)
        (λ t. pair_at map.new.kept handle.index handle.generation ≡ Some (pair t.k value)) }
    ensures others { (index generation : ℕ)
        → (index ≢ handle.index) ⊎ (generation ≢ handle.generation)
        → pair_at map.new.kept index generation ≡ pair_at map.old.kept index generation }
    ensures lasts { spent map.new.kept ≡ spent map.old.kept }
    ensures live { count map.new.kept ≡ count map.old.kept }
    ensures none { (result ≡ 4) ⊎ (result ≡ 5)
        ↔ (pair_at map.old.kept handle.index handle.generation ≡ None) }
    ensures no_map { result ≡ 5 ↔ (map.old.kept ≡ None) }
    ensures ended { (index generation : ℕ) → HasEnded map.old.kept index generation
        → HasEnded map.new.kept index generation }
    ensures missed { result ≢ 0 → map.new.kept ≡ map.old.kept }
    ensures made_up { (handle.index ≡ 0) ⊎ (handle.generation ≡ 0) → result ≢ 0 }
    ensures statuses { (result ≡ 0) ⊎ ((result ≡ 4) ⊎ (result ≡ 5)) }
{
    let Some(mut own) = map.take(alloc) else {
        return 5;
    };
    let status = if own.set(handle, value) { 0 } else { 4 };
    map.put(alloc, own);
    status
}

/// Removes the entry that the handle finds, and writes its key and its value. The handle then finds
/// nothing, whatever is stored later. If its removal gave the last generation, the map is spent
/// from then on. It answers 0; or 4 if the handle finds no entry, or 5 if there is no map, and then
/// nothing changes.
#[unsafe(no_mangle)]
pub extern "C" fn ord_map_remove(
    alloc: Global,
    map: &mut Holder,
    handle: Handle,
    key: &mut u64,
    value: &mut u64,
) -> u8
    ensures removed { result ≡ 0 → OnKept map.old.kept (λ was. OnKept map.new.kept
        (λ is. IsEntryRemoved (Some greatest) handle.index was.arena is.arena)) }
    ensures listed { result ≡ 0
        → entries map.new.kept ≡ without_key (entries map.old.kept) key.new }
    ensures pair { result ≡ 0 → pair_at map.old.kept handle.index handle.generation
        ≡ Some (pair key.new value.new) }
    ensures live { result ≡ 0 → count map.new.kept + 1 ≡ count map.old.kept }
    ensures gone { pair_at map.new.kept handle.index handle.generation ≡ None }
    ensures none { (result ≡ 4) ⊎ (result ≡ 5)
        ↔ (pair_at map.old.kept handle.index handle.generation ≡ None) }
    ensures no_map { result ≡ 5 ↔ (map.old.kept ≡ None) }
    ensures ends { result ≡ 0 → HasEnded map.new.kept handle.index handle.generation }
    ensures ended { (index generation : ℕ) → HasEnded map.old.kept index generation
        → HasEnded map.new.kept index generation }
    ensures spent { result ≡ 0 → (IsTrue (spent map.new.kept) ↔ OnKept map.old.kept IsAtEnd) }
    ensures others { (index generation : ℕ)
        → (index ≢ handle.index) ⊎ (generation ≢ handle.generation)
        → pair_at map.new.kept index generation ≡ pair_at map.old.kept index generation }
    ensures missed { result ≢ 0 → map.new.kept ≡ map.old.kept }
    ensures made_up { (handle.index ≡ 0) ⊎ (handle.generation ≡ 0) → result ≢ 0 }
    ensures unwritten { result ≢ 0 → (key.new ≡ key.old) × (value.new ≡ value.old) }
    ensures statuses { (result ≡ 0) ⊎ ((result ≡ 4) ⊎ (result ≡ 5)) }
{
    let Some(mut own) = map.take(alloc) else {
        return 5;
    };
    let status = match own.remove(handle) {
        Some((own_key, own_value)) => {
            *key = own_key;
            *value = own_value;
            0
        }
        None => 4,
    };
    map.put(alloc, own);
    status
}

/// Removes the entry with this key, and writes its value. Its handle then finds nothing, whatever
/// is stored later. If its removal gave the last generation, the map is spent from then on. It
/// answers 0; or 7 if no entry has the key, or 5 if there is no map, and then nothing changes.
#[unsafe(no_mangle)]
pub extern "C" fn ord_map_remove_key(
    alloc: Global,
    map: &mut Holder,
    key: u64,
    value: &mut u64,
) -> u8
    ensures removed { result ≡ 0 → IfSome (with_key (entries map.old.kept) key)
        (λ e. OnKept map.old.kept (λ was. OnKept map.new.kept (λ is.
        IsEntryRemoved (Some greatest) e.0 was.arena is.arena))) }
    ensures listed { result ≡ 0 → entries map.new.kept ≡ without_key (entries map.old.kept) key }
    ensures value { result ≡ 0
        → option_map value_of (with_key (entries map.old.kept) key) ≡ Some value.new }
    ensures none { result ≡ 7 ↔ ((map.old.kept ≢ None)
        × (with_key (entries map.old.kept) key ≡ None)) }
    ensures live { result ≡ 0 → count map.new.kept + 1 ≡ count map.old.kept }
    ensures ends { result ≡ 0 → IfSome (with_key (entries map.old.kept) key)
        (λ e. HasEnded map.new.kept e.0 e.1.0) }
    ensures ended { (index generation : ℕ) → HasEnded map.old.kept index generation
        → HasEnded map.new.kept index generation }
    ensures others { result ≡ 0 → IfSome (with_key (entries map.old.kept) key)
        (λ e. (index generation : ℕ) → (index ≢ e.0) ⊎ (generation ≢ e.1.0)
        → pair_at map.new.kept index generation ≡ pair_at map.old.kept index generation) }
    ensures spent { result ≡ 0 → (IsTrue (spent map.new.kept) ↔ OnKept map.old.kept IsAtEnd) }
    ensures no_map { result ≡ 5 ↔ (map.old.kept ≡ None) }
    ensures missed { result ≢ 0 → map.new.kept ≡ map.old.kept }
    ensures unwritten { result ≢ 0 → value.new ≡ value.old }
    ensures statuses { (result ≡ 0) ⊎ ((result ≡ 5) ⊎ (result ≡ 7)) }
{
    let Some(mut own) = map.take(alloc) else {
        return 5;
    };
    let status = match own.remove_key(key) {
        Some(found) => {
            *value = found;
            0
        }
        None => 7,
    };
    map.put(alloc, own);
    status
}

/// Writes the handle of the entry with the least key. It answers 0; or 7 if there is no entry, or 5
/// if there is no map, and then it writes nothing.
#[unsafe(no_mangle)]
pub extern "C" fn ord_map_first(alloc: Global, map: &mut Holder, handle: &mut Handle) -> u8
    ensures found { result ≡ 0 → option_map pointer_of (first_of (entries map.old.kept))
        ≡ Some (pair_of handle.new) }
    ensures none { result ≡ 7 ↔ ((map.old.kept ≢ None) × (first_of (entries map.old.kept) ≡ None)) }
    ensures no_map { result ≡ 5 ↔ (map.old.kept ≡ None) }
    ensures unwritten { result ≢ 0 → handle.new ≡ handle.old }
    ensures kept { map.new.kept ≡ map.old.kept }
    ensures statuses { (result ≡ 0) ⊎ ((result ≡ 5) ⊎ (result ≡ 7)) }
{
    let Some(own) = map.take(alloc) else {
        return 5;
    };
    let status = write_found(own.first(), handle);
    map.put(alloc, own);
    status
}

/// Writes the handle of the entry with the greatest key. It answers 0; or 7 if there is no entry,
/// or 5 if there is no map, and then it writes nothing.
#[unsafe(no_mangle)]
pub extern "C" fn ord_map_last(alloc: Global, map: &mut Holder, handle: &mut Handle) -> u8
    ensures found { result ≡ 0 → option_map pointer_of (last_of (entries map.old.kept))
        ≡ Some (pair_of handle.new) }
    ensures none { result ≡ 7 ↔ ((map.old.kept ≢ None) × (last_of (entries map.old.kept) ≡ None)) }
    ensures no_map { result ≡ 5 ↔ (map.old.kept ≡ None) }
    ensures unwritten { result ≢ 0 → handle.new ≡ handle.old }
    ensures kept { map.new.kept ≡ map.old.kept }
    ensures statuses { (result ≡ 0) ⊎ ((result ≡ 5) ⊎ (result ≡ 7)) }
{
    let Some(own) = map.take(alloc) else {
        return 5;
    };
    let status = write_found(own.last(), handle);
    map.put(alloc, own);
    status
}

/// Writes the handle of the entry behind that which the handle finds: the first one whose key is
/// above its key. It answers 0; or 4 if the handle finds no entry, 7 if there is none behind it, or
/// 5 if there is no map, and then it writes nothing.
#[unsafe(no_mangle)]
pub extern "C" fn ord_map_next(
    alloc: Global,
    map: &mut Holder,
    handle: Handle,
    next: &mut Handle,
) -> u8
    ensures found { result ≡ 0 → option_map pointer_of
        (next_at map.old.kept handle.index handle.generation) ≡ Some (pair_of next.new) }
    ensures end { result ≡ 7 → next_at map.old.kept handle.index handle.generation ≡ None }
    ensures none { (result ≡ 4) ⊎ (result ≡ 5)
        ↔ (pair_at map.old.kept handle.index handle.generation ≡ None) }
    ensures no_map { result ≡ 5 ↔ (map.old.kept ≡ None) }
    ensures unwritten { result ≢ 0 → next.new ≡ next.old }
    ensures made_up { (handle.index ≡ 0) ⊎ (handle.generation ≡ 0) → result ≢ 0 }
    ensures kept { map.new.kept ≡ map.old.kept }
    ensures statuses { (result ≡ 0) ⊎ ((result ≡ 4) ⊎ ((result ≡ 5) ⊎ (result ≡ 7))) }
{
    let Some(own) = map.take(alloc) else {
        return 5;
    };
    let status = match own.beside(handle, false) {
        Ok(found) => {
            *next = found;
            0
        }
        Err(refusal) => refusal.status(),
    };
    map.put(alloc, own);
    status
}

/// Writes the handle of the entry before that which the handle finds: the last one whose key is
/// below its key. It answers 0; or 4 if the handle finds no entry, 7 if there is none before it, or
/// 5 if there is no map, and then it writes nothing.
#[unsafe(no_mangle)]
pub extern "C" fn ord_map_previous(
    alloc: Global,
    map: &mut Holder,
    handle: Handle,
    previous: &mut Handle,
) -> u8
    ensures found { result ≡ 0 → option_map pointer_of
        (previous_at map.old.kept handle.index handle.generation) ≡ Some (pair_of previous.new) }
    ensures end { result ≡ 7 → previous_at map.old.kept handle.index handle.generation ≡ None }
    ensures none { (result ≡ 4) ⊎ (result ≡ 5)
        ↔ (pair_at map.old.kept handle.index handle.generation ≡ None) }
    ensures no_map { result ≡ 5 ↔ (map.old.kept ≡ None) }
    ensures unwritten { result ≢ 0 → previous.new ≡ previous.old }
    ensures made_up { (handle.index ≡ 0) ⊎ (handle.generation ≡ 0) → result ≢ 0 }
    ensures kept { map.new.kept ≡ map.old.kept }
    ensures statuses { (result ≡ 0) ⊎ ((result ≡ 4) ⊎ ((result ≡ 5) ⊎ (result ≡ 7))) }
{
    let Some(own) = map.take(alloc) else {
        return 5;
    };
    let status = match own.beside(handle, true) {
        Ok(found) => {
            *previous = found;
            0
        }
        Err(refusal) => refusal.status(),
    };
    map.put(alloc, own);
    status
}

/// Removes every entry, so that each handle finds nothing, whatever is stored later. The capacity
/// stays. If this took the last generation, the map is spent from then on. It answers 0, or 5 if
/// there is no map.
#[unsafe(no_mangle)]
pub extern "C" fn ord_map_clear(alloc: Global, map: &mut Holder) -> u8
    ensures exact { result ≡ 0 → OnKept map.old.kept (λ was. OnKept map.new.kept
        (λ is. is.arena ≡ cleared_in (Some greatest) was.arena)) }
    ensures listed { entries map.new.kept ≡ [] }
    ensures none { (index generation : ℕ) → pair_at map.new.kept index generation ≡ None }
    ensures live { count map.new.kept ≡ 0 }
    ensures ends { (index generation : ℕ) → IsSome (pair_at map.old.kept index generation)
        → HasEnded map.new.kept index generation }
    ensures ended { (index generation : ℕ) → HasEnded map.old.kept index generation
        → HasEnded map.new.kept index generation }
    ensures spent { IsTrue (spent map.new.kept) ↔ OnKept map.old.kept IsAtEnd }
    ensures no_map { result ≡ 5 ↔ (map.old.kept ≡ None) }
    ensures unmade { map.old.kept ≡ None → map.new.kept ≡ None }
    ensures statuses { (result ≡ 0) ⊎ (result ≡ 5) }
{
    let Some(mut own) = map.take(alloc) else {
        return 5;
    };
    own.clear();
    map.put(alloc, own);
    0
}

/// Writes the handles, the keys and the values of the entries from that which `from` finds on, in
/// the order of their keys, as many as all three arrays take, and how many they are. From zeros on
/// it writes from the least key on. `from` is then the handle of the entry behind the last one that
/// was written, or zeros if there is none. What stands behind them in the arrays stays. It answers
/// 0; or 4 if `from` is not zeros and finds no entry, or 5 if there is no map, and then it writes
/// nothing.
#[unsafe(no_mangle)]
pub extern "C" fn ord_map_entries(
    alloc: Global,
    map: &mut Holder,
    from: &mut Handle,
    handles: &mut [Handle],
    keys: &mut [u64],
    values: &mut [u64],
    written: &mut usize,
) -> u8
    ensures handles { result ≡ 0 → list_map pair_of (take written.new handles.new)
        ≡ list_map pointer_of
        (take written.new (rest_at map.old.kept from.old.index from.old.generation)) }
    ensures keys { result ≡ 0 → take written.new keys.new ≡ list_map key_of
        (take written.new (rest_at map.old.kept from.old.index from.old.generation)) }
    ensures values { result ≡ 0 → take written.new values.new ≡ list_map value_of
        (take written.new (rest_at map.old.kept from.old.index from.old.generation)) }
    ensures next { result ≡ 0 → pair_of from.new ≡ place_of
        (drop written.new (rest_at map.old.kept from.old.index from.old.generation)) }
    ensures fits { result ≡ 0 → (written.new ≤ length handles.old)
        × ((written.new ≤ length keys.old) × (written.new ≤ length values.old)) }
    ensures within { result ≡ 0 → written.new
        ≤ length (rest_at map.old.kept from.old.index from.old.generation) }
    ensures all { result ≡ 0 → (written.new ≡ length handles.old)
        ⊎ ((written.new ≡ length keys.old) ⊎ ((written.new ≡ length values.old)
        ⊎ (written.new ≡ length (rest_at map.old.kept from.old.index from.old.generation)))) }
    ensures rest { result ≡ 0 → drop written.new handles.new ≡ drop written.new handles.old }
    ensures rest_of_keys { result ≡ 0 → drop written.new keys.new ≡ drop written.new keys.old }
    ensures rest_of_values { result ≡ 0
        → drop written.new values.new ≡ drop written.new values.old }
    ensures rise { KeysRise (entries map.old.kept) }
    ensures found { result ≡ 4 ↔ ((map.old.kept ≢ None)
        × (((from.old.index ≢ 0) ⊎ (from.old.generation ≢ 0))
        × (pair_at map.old.kept from.old.index from.old.generation ≡ None))) }
    ensures kept { map.new.kept ≡ map.old.kept }
    ensures no_map { result ≡ 5 ↔ (map.old.kept ≡ None) }
    ensures handles_unwritten { result ≢ 0 → handles.new ≡ handles.old }
    ensures keys_unwritten { result ≢ 0 → keys.new ≡ keys.old }
    ensures values_unwritten { result ≢ 0 → values.new ≡ values.old }
    ensures unwritten { result ≢ 0 → (written.new ≡ written.old) × (from.new ≡ from.old) }
    ensures statuses { (result ≡ 0) ⊎ ((result ≡ 4) ⊎ (result ≡ 5)) }
{
    let Some(own) = map.take(alloc) else {
        return 5;
    };
    // The keys rise.
    recall!(own.len());
    let status = match own.read(*from, handles, keys, values) {
        Ok((count, next)) => {
            *written = count;
            *from = next;
            0
        }
        Err(refusal) => refusal.status(),
    };
    map.put(alloc, own);
    status
}
