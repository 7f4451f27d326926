//! The entries of a map in their arena.
ghost use Rattle.std.specs.Prelude.{◌≡◌, ◌↔◌, ◌≤◌, ◌⊎◌, ℕ, Some, None, IfSome, IfNone, OnSome};
ghost use Rattle.std.specs.Prelude.{◌≢◌, ◌<◌, IsSome, IsOk, IfOk, OnOk, OnErr, IsErrOf};
ghost use Rattle.std.specs.Prelude.{◌∷◌, ◌++◌, [], length, take, drop, map};
ghost use Rattle.std.specs.Int.NonZero.{non_zero_u32_get};
ghost use Rattle.std.specs.Option.{option_map};
ghost use Rattle.std.specs.declared.cmp.Ordering.{Ordering as Way};
ghost use Rattle.triple_arena.specs.Content.{arena_capacity};
ghost use Rattle.triple_arena_stack.specs.Room.{IsBeyond};
ghost use Rattle.triple_arena_ord.specs.Inserted.{IsReplaced};
ghost use Rattle.triple_arena_ord.specs.Ordered.{entry_in};
ghost use Rattle.triple_arena_ord.specs.OrderedWalks.{entries_left};
ghost use Rattle.triple_arena_ord.specs.Removal.{IsEntryRemoved};
ghost use Rattle.triple_arena_ord.specs.States.{with_item, reallocated_in};
ghost use Rattle.ord_map_c.specs.Changes.{IsPut, as_put, refusal_of, standing};
ghost use Rattle.ord_map_c.specs.Entries.{pointer_of, key_of, value_of, with_key, from_key};
ghost use Rattle.ord_map_c.specs.Entries.{past_key, without_key, put_in, first_of, last_of, entry};
ghost use Rattle.ord_map_c.specs.Entries.{pair as pair_with, place_of};
ghost use Rattle.ord_map_c.specs.State.{IsMap, listed, nearest_in, beside_in, pair_in, pair_of};
ghost use Rattle.ord_map_c.specs.State.{StandsUnder, greatest, rest_in};

use crate::handle::Handle;
use crate::refusal::Refusal;
use std::alloc::Global;
use std::cmp::Ordering;
use std::num::NonZeroU32;
use triple_arena::{Advancer, ArenaTrait, P3, PtrCore, ReallocationError};
use triple_arena_ord::laws::{entries_stand_in_the_list, writes_keep_the_list};
use triple_arena_ord::ord_iterators::OrderedPtrAdvancer;
use triple_arena_ord::{HeapOrdArena, OrdInsertionError, OrdPair};

/// The entries: values by their keys.
pub(crate) type Entries = HeapOrdArena<P3, OrdPair<u64, u64>, Global>;

// The handle that a pointer is for C.
fn handle_of(p: P3) -> Handle
    ensures same { result ≡ record {
      index = non_zero_u32_get p.inx;
      generation = non_zero_u32_get p.generation;
    } }
    ensures pointer { pair_of result ≡ (non_zero_u32_get p.inx, non_zero_u32_get p.generation) }
{
    Handle {
        index: p.inx().get(),
        generation: p.generation().get(),
    }
}

fn handle_if(p: Option<P3>) -> Option<Handle>
    ensures { option_map pair_of result
        ≡ option_map (λ p. (non_zero_u32_get p.inx, non_zero_u32_get p.generation)) p }
{
    match p {
        Some(p) => Some(handle_of(p)),
        None => None,
    }
}

// The index and the generation that a handle names, and the pair there, if the handle finds an
// entry.
pub(crate) fn look(
    entries: &Entries,
    handle: Handle,
) -> Option<(NonZeroU32, NonZeroU32, OrdPair<u64, u64>)>
    requires { IsMap entries.now }
    ensures index { IfSome result (λ f. non_zero_u32_get f.0 ≡ handle.index) }
    ensures generation { IfSome result (λ f. non_zero_u32_get f.1 ≡ handle.generation) }
    ensures entry { IfSome result (λ f. entry_in entries.now handle.index
        ≡ Some (handle.generation, f.2)) }
    ensures pair { IfSome result
        (λ f. pair_in entries.now handle.index handle.generation ≡ Some f.2) }
    ensures listed { IfSome result (λ f. with_key (listed entries.now) f.2.k
        ≡ Some (handle.index, (handle.generation, f.2))) }
    ensures none { IfNone result (pair_in entries.now handle.index handle.generation ≡ None) }
    ensures made { IfSome result (λ _. (0 < handle.index) × (0 < handle.generation)) }
{
    entries_stand_in_the_list::<P3, OrdPair<u64, u64>>();
    let Some(inx) = NonZeroU32::new(handle.index) else {
        return None;
    };
    match entries.get_inx(inx) {
        Some((generation, pair)) if generation.get() == handle.generation => {
            Some((inx, generation, *pair))
        }
        _ => None,
    }
}

// Makes room for `min` entries.
pub(crate) fn reserve(entries: &mut Entries, min: usize) -> Result<(), Refusal>
    requires { IsMap entries.old }
    ensures reallocated { OnOk result (entries.new ≡ reallocated_in entries.old min) }
    ensures entries { (j : ℕ) → entry_in entries.new j ≡ entry_in entries.old j }
    ensures listed { listed entries.new ≡ listed entries.old }
    ensures fits { OnOk result (min ≤ arena_capacity entries.new.chains) }
    ensures succeeds { min ≤ arena_capacity entries.old.chains → IsOk result }
    ensures full { IsErrOf result Refusal.Full ↔ IsBeyond entries.old.chains.room.limit min }
    ensures refusals { OnErr result (IsErrOf result Refusal.NoMemory
        ⊎ IsErrOf result Refusal.Full) }
    ensures refused { OnErr result (entries.new ≡ entries.old) }
    ensures map { IsMap entries.new }
{
    match entries.reallocate_min_capacity(min) {
        Ok(()) => Ok(()),
        Err(ReallocationError::BeyondMaxCapacity) => Err(Refusal::Full),
        Err(ReallocationError::AllocError) => Err(Refusal::NoMemory),
    }
}

// The entry with this key.
pub(crate) fn find(entries: &Entries, key: u64) -> Option<Handle>
    requires { IsMap entries.now }
    ensures entry { option_map pair_of result
        ≡ option_map pointer_of (with_key (listed entries.now) key) }
    ensures none { IfNone result (with_key (listed entries.now) key ≡ None) }
    ensures stands { IfSome result (λ h. StandsUnder entries.now key h.index h.generation) }
{
    entries_stand_in_the_list::<P3, OrdPair<u64, u64>>();
    handle_if(entries.find_key(&key))
}

// The first entry whose key is not below this one.
pub(crate) fn lower_bound(entries: &Entries, key: u64) -> Option<Handle>
    requires { IsMap entries.now }
    ensures entry { option_map pair_of result
        ≡ option_map pointer_of (first_of (from_key (listed entries.now) key)) }
    ensures none { IfNone result (first_of (from_key (listed entries.now) key) ≡ None) }
{
    entries_stand_in_the_list::<P3, OrdPair<u64, u64>>();
    handle_if(entries.lower_bound(&key))
}

// The first entry whose key is above this one.
pub(crate) fn upper_bound(entries: &Entries, key: u64) -> Option<Handle>
    requires { IsMap entries.now }
    ensures entry { option_map pair_of result
        ≡ option_map pointer_of (first_of (past_key (listed entries.now) key)) }
    ensures none { IfNone result (first_of (past_key (listed entries.now) key) ≡ None) }
{
    entries_stand_in_the_list::<P3, OrdPair<u64, u64>>();
    handle_if(entries.upper_bound(&key))
}

// The entry with this key, or one beside the place of the key, and how the key compares with that
// of the entry.
pub(crate) fn nearest(entries: &Entries, key: u64) -> Option<(Handle, Ordering)>
    requires { IsMap entries.now }
    ensures entry { IfSome result (λ n. Some (pair_of n.0)
        ≡ option_map pointer_of (nearest_in n.1 (listed entries.now) key)) }
    ensures equal { IfSome result
        (λ n. n.1 ≡ Way.Equal → IsSome (with_key (listed entries.now) key)) }
    ensures has_key { IfSome result
        (λ n. IsSome (with_key (listed entries.now) key) → n.1 ≡ Way.Equal) }
    ensures none { (result ≡ None) ↔ (listed entries.now ≡ []) }
{
    entries_stand_in_the_list::<P3, OrdPair<u64, u64>>();
    match entries.find_similar_key(&key) {
        Some((p, way)) => Some((handle_of(p), way)),
        None => None,
    }
}

// The entry with the least key.
pub(crate) fn first(entries: &Entries) -> Option<Handle>
    requires { IsMap entries.now }
    ensures entry { option_map pair_of result
        ≡ option_map pointer_of (first_of (listed entries.now)) }
    ensures none { IfNone result (first_of (listed entries.now) ≡ None) }
{
    entries_stand_in_the_list::<P3, OrdPair<u64, u64>>();
    handle_if(entries.first())
}

// The entry with the greatest key.
pub(crate) fn last(entries: &Entries) -> Option<Handle>
    requires { IsMap entries.now }
    ensures entry { option_map pair_of result
        ≡ option_map pointer_of (last_of (listed entries.now)) }
    ensures none { IfNone result (last_of (listed entries.now) ≡ None) }
{
    entries_stand_in_the_list::<P3, OrdPair<u64, u64>>();
    handle_if(entries.last())
}

fn refusal_of(error: OrdInsertionError) -> Refusal
    ensures { result ≡ refusal_of error }
{
    match error {
        OrdInsertionError::BeyondMaxCapacity => Refusal::Full,
        OrdInsertionError::AllocError
        | OrdInsertionError::NotWithinCapacity
        | OrdInsertionError::FailedOrdRequirement => Refusal::NoMemory,
    }
}

// What an insertion answers, with the value that it replaces alone.
fn as_put(
    inserted: Result<(P3, Option<OrdPair<u64, u64>>), OrdInsertionError>,
) -> Result<(Handle, Option<u64>), Refusal>
    ensures { result ≡ as_put inserted (λ p. non_zero_u32_get p.inx)
        (λ p. non_zero_u32_get p.generation) }
{
    match inserted {
        Ok((p, Some(was))) => Ok((handle_of(p), Some(was.into_k_v().1))),
        Ok((p, None)) => Ok((handle_of(p), None)),
        Err(error) => Err(refusal_of(error)),
    }
}

// Puts a value in at a key.
pub(crate) fn put(
    entries: &mut Entries,
    key: u64,
    value: u64,
) -> Result<(Handle, Option<u64>), Refusal>
    requires { IsMap entries.old }
    ensures { IsPut key value result entries.old entries.new }
{
    entries_stand_in_the_list::<P3, OrdPair<u64, u64>>();
    as_put(entries.insert(OrdPair::new(key, value)))
}

// The entry with a key, which stays, and its value; or a value that is put in at the key.
pub(crate) fn get_or_put(
    entries: &mut Entries,
    key: u64,
    value: u64,
) -> Result<(Handle, Option<u64>), Refusal>
    requires { IsMap entries.old }
    ensures put { IsPut key (standing value result) result entries.old entries.new }
    ensures stays { IfOk result (λ r. IsSome r.1 → entries.new ≡ entries.old) }
{
    entries_stand_in_the_list::<P3, OrdPair<u64, u64>>();
    match entries.get_or_insert(OrdPair::new(key, value)) {
        Ok((p, Some(_))) => {
            let Some(own) = entries.get(p) else {
                unreachable!()
            };
            Ok((handle_of(p), Some(*own.v())))
        }
        Ok((p, None)) => Ok((handle_of(p), None)),
        Err(error) => Err(refusal_of(error)),
    }
}

// Takes out the entry at an index.
pub(crate) fn take(entries: &mut Entries, inx: NonZeroU32) -> Option<OrdPair<u64, u64>>
    requires { IsMap entries.old }
    ensures pair { result ≡ option_map (λ e. e.1) (entry_in entries.old (non_zero_u32_get inx)) }
    ensures removed { OnSome result (IsEntryRemoved (Some greatest)
        (non_zero_u32_get inx) entries.old entries.new) }
    ensures listed { IfSome result
        (λ t. listed entries.new ≡ without_key (listed entries.old) t.k) }
    ensures map { IsMap entries.new }
    ensures none { IfNone result (entries.new ≡ entries.old) }
{
    entries_stand_in_the_list::<P3, OrdPair<u64, u64>>();
    match entries.remove_inx(inx).allow() {
        Some(taken) => Some(taken.1),
        None => None,
    }
}

// Writes the value of the entry at an index, which has this key.
pub(crate) fn write(entries: &mut Entries, inx: NonZeroU32, key: u64, value: u64)
    requires map { IsMap entries.old }
    requires key { option_map (λ e. e.1.k) (entry_in entries.old (non_zero_u32_get inx))
        ≡ Some key }
    ensures exact { entries.new
        ≡ with_item entries.old (non_zero_u32_get inx) (pair_with key value) }
    ensures written { IfSome (entry_in entries.old (non_zero_u32_get inx))
        (λ e. IsReplaced (non_zero_u32_get inx) e.0 (pair_with key value) e.1
        entries.old entries.new) }
    ensures others { IfSome (entry_in entries.old (non_zero_u32_get inx)) (λ e. (j h : ℕ)
        → (j ≢ non_zero_u32_get inx) ⊎ (h ≢ e.0)
        → pair_in entries.new j h ≡ pair_in entries.old j h) }
    ensures listed { IfSome (entry_in entries.old (non_zero_u32_get inx)) (λ e.
        listed entries.new ≡ put_in (listed entries.old)
        (entry (non_zero_u32_get inx) e.0 key value)) }
    ensures map { IsMap entries.new }
{
    entries_stand_in_the_list::<P3, OrdPair<u64, u64>>();
    writes_keep_the_list::<P3, OrdPair<u64, u64>>();
    *entries.get_inx_mut_unwrap(inx) = OrdPair::new(key, value);
}

// The entry before or behind that at an index, which has this generation and this key.
pub(crate) fn beside(
    entries: &Entries,
    inx: NonZeroU32,
    generation: NonZeroU32,
    key: u64,
    back: bool,
) -> Option<Handle>
    requires map { IsMap entries.now }
    requires at { option_map {U = ℕ × ℕ} (λ e. (e.0, e.1.k))
        (entry_in entries.now (non_zero_u32_get inx)) ≡ Some (non_zero_u32_get generation, key) }
    ensures entry { option_map pair_of result
        ≡ option_map pointer_of (beside_in back (listed entries.now) key) }
    ensures none { IfNone result (beside_in back (listed entries.now) key ≡ None) }
{
    entries_stand_in_the_list::<P3, OrdPair<u64, u64>>();
    let Some(mut walk) = entries.advancer_ordered(P3::_from_raw(inx, generation), back) else {
        return None;
    };
    let _ = walk.advance(entries);
    handle_if(walk.advance(entries))
}

// The entry where a walk along the list is. The walk goes on from there.
fn step(entries: &Entries, walk: &mut OrderedPtrAdvancer<P3>) -> Option<(Handle, OrdPair<u64, u64>)>
    ensures entry { IfSome result (λ e. entries_left entries.now walk.old
        ≡ (e.0.index, (e.0.generation, e.1)) ∷ entries_left entries.now walk.new) }
    ensures none { IfNone result (entries_left entries.now walk.old ≡ []) }
    ensures over { IfNone result (entries_left entries.now walk.new ≡ []) }
{
    let Some(p) = walk.advance(entries) else {
        return None;
    };
    let Some(pair) = entries.get(p) else {
        unreachable!()
    };
    Some((handle_of(p), *pair))
}

// A walk along all entries. It is `None` if there is none.
pub(crate) fn walk_all(entries: &Entries) -> Option<OrderedPtrAdvancer<P3>>
    requires { IsMap entries.now }
    ensures left { IfSome result (λ w. entries_left entries.now w ≡ listed entries.now) }
    ensures none { IfNone result (listed entries.now ≡ []) }
{
    entries_stand_in_the_list::<P3, OrdPair<u64, u64>>();
    match entries.first() {
        Some(p) => entries.advancer_ordered(p, false),
        None => None,
    }
}

// A walk along the entries from that which a handle finds on.
pub(crate) fn walk_from(entries: &Entries, from: Handle) -> Option<OrderedPtrAdvancer<P3>>
    requires { IsMap entries.now }
    ensures left { IfSome result (λ w. entries_left entries.now w
        ≡ rest_in entries.now from.index from.generation) }
    ensures found { IsSome result ↔ IsSome (pair_in entries.now from.index from.generation) }
{
    entries_stand_in_the_list::<P3, OrdPair<u64, u64>>();
    match look(entries, from) {
        Some((inx, generation, _)) => {
            entries.advancer_ordered(P3::_from_raw(inx, generation), false)
        }
        None => None,
    }
}

// Writes the entries of a walk, as many as all three arrays take, and gives how many.
fn fill(
    entries: &Entries,
    walk: &mut OrderedPtrAdvancer<P3>,
    handles: &mut [Handle],
    keys: &mut [u64],
    values: &mut [u64],
) -> usize
    ensures handles { map pair_of (take result handles.new)
        ++ map pointer_of (entries_left entries.now walk.new)
        ≡ map pointer_of (entries_left entries.now walk.old) }
    ensures keys { take result keys.new
        ++ map key_of (entries_left entries.now walk.new)
        ≡ map key_of (entries_left entries.now walk.old) }
    ensures values { take result values.new
        ++ map value_of (entries_left entries.now walk.new)
        ≡ map value_of (entries_left entries.now walk.old) }
    ensures fits { (result ≤ length handles.old) × ((result ≤ length keys.old)
        × (result ≤ length values.old)) }
    ensures lengths { (length handles.new ≡ length handles.old)
        × ((length keys.new ≡ length keys.old) × (length values.new ≡ length values.old)) }
    ensures all { (result ≡ length handles.old) ⊎ ((result ≡ length keys.old)
        ⊎ ((result ≡ length values.old)
        ⊎ (entries_left entries.now walk.new ≡ []))) }
    ensures rest { drop result handles.new ≡ drop result handles.old }
    ensures rest_of_keys { drop result keys.new ≡ drop result keys.old }
    ensures rest_of_values { drop result values.new ≡ drop result values.old }
{
    let most = handles.len().min(keys.len()).min(values.len());
    let mut count = 0;
    'fill: while count < most {
        let Some((handle, pair)) = step(entries, walk) else {
            break;
        };
        handles[count] = handle;
        keys[count] = *pair.k();
        values[count] = *pair.v();
        count += 1;
    }
    count
}

// The handle of the entry where a walk is, or zeros if it is at its end.
fn place(entries: &Entries, walk: &mut OrderedPtrAdvancer<P3>) -> Handle
    ensures { pair_of result ≡ place_of (entries_left entries.now walk.old) }
{
    match step(entries, walk) {
        Some((handle, _)) => handle,
        None => Handle {
            index: 0,
            generation: 0,
        },
    }
}

// Writes the entries of a walk, as many as all three arrays take. It gives how many, and the handle
// of the one behind them, or zeros if there is none.
pub(crate) fn read(
    entries: &Entries,
    mut walk: OrderedPtrAdvancer<P3>,
    handles: &mut [Handle],
    keys: &mut [u64],
    values: &mut [u64],
) -> (usize, Handle)
    ensures handles { map pair_of (take result.0 handles.new) ≡ map pointer_of
        (take result.0 (entries_left entries.now walk)) }
    ensures keys { take result.0 keys.new ≡ map key_of
        (take result.0 (entries_left entries.now walk)) }
    ensures values { take result.0 values.new ≡ map value_of
        (take result.0 (entries_left entries.now walk)) }
    ensures next { pair_of result.1 ≡ place_of (drop result.0 (entries_left entries.now walk)) }
    ensures fits { (result.0 ≤ length handles.old) × ((result.0 ≤ length keys.old)
        × (result.0 ≤ length values.old)) }
    ensures within { result.0 ≤ length (entries_left entries.now walk) }
    ensures all { (result.0 ≡ length handles.old) ⊎ ((result.0 ≡ length keys.old)
        ⊎ ((result.0 ≡ length values.old)
        ⊎ (result.0 ≡ length (entries_left entries.now walk)))) }
    ensures rest { drop result.0 handles.new ≡ drop result.0 handles.old }
    ensures rest_of_keys { drop result.0 keys.new ≡ drop result.0 keys.old }
    ensures rest_of_values { drop result.0 values.new ≡ drop result.0 values.old }
{
    let count = fill(entries, &mut walk, handles, keys, values);
    (count, place(entries, &mut walk))
}
