//! An ordered map of numbers: an arena that stops in place of giving a handle twice.
ghost use Rattle.std.specs.Prelude.{◌≡◌, ◌≢◌, ◌⊎◌, ◌<◌, ◌≤◌, ◌↔◌, ℕ, Some, None, true, false};
ghost use Rattle.std.specs.Prelude.{IfSome, IfNone, IfOk, IsOk, OnOk, OnErr, IsErrOf, IsSome};
ghost use Rattle.std.specs.Prelude.{OnSome, IsTrue, length, take, drop, map, []};
ghost use Rattle.std.specs.Int.NonZero.{non_zero_u32_get};
ghost use Rattle.std.specs.Option.{option_map};
ghost use Rattle.triple_arena.specs.Content.{arena_capacity};
ghost use Rattle.triple_arena_ord.specs.Inserted.{IsReplaced};
ghost use Rattle.triple_arena_ord.specs.Ordered.{entry_in, size_in};
ghost use Rattle.triple_arena_ord.specs.Removal.{IsEntryRemoved};
ghost use Rattle.triple_arena_ord.specs.States.{with_item, reallocated_in, cleared_in};
ghost use Rattle.ord_map_c.specs.Changes.{IsPut, standing};
ghost use Rattle.ord_map_c.specs.Entries.{pointer_of, key_of, value_of, with_key, from_key, pair};
ghost use Rattle.ord_map_c.specs.Entries.{past_key, without_key, put_in, entry};
ghost use Rattle.ord_map_c.specs.Entries.{KeysRise};
ghost use Rattle.ord_map_c.specs.Entries.{first_of, last_of, place_of};
ghost use Rattle.ord_map_c.specs.State.{IsPast, IsAtEnd, fresh, greatest, listed, pair_in, pair_of};
ghost use Rattle.ord_map_c.specs.State.{nearest_by, beside_of, rest_in, StandsUnder};

use crate::entries::{self, Entries};
use crate::handle::Handle;
use crate::refusal::Refusal;
use std::alloc::Global;
use std::cmp::Ordering;
use std::marker::Model;
use triple_arena::{ArenaTrait, P3};
use triple_arena_ord::laws::the_list_has_as_many_entries_as_are_live;
use triple_arena_ord::{HeapOrdArena, OrdPair};

/// An ordered map, which gives no handle twice.
#[derive(Drop)]
pub struct OrdMap {
    entries: Entries,
    // Every generation was given, so that no handle is left for a further entry.
    is_spent: bool,
}

impl Model for OrdMap {
    ghost use Rattle.ord_map_c.specs.State.{IsSound, State};

    ghost Value = { State };

    ghost view = { λ m. record { arena = m.entries; is_spent = m.is_spent } };

    ghost invariant = { λ m. IsSound (record { arena = m.entries; is_spent = m.is_spent }) };
}

impl OrdMap {
    // A map without an entry. It is `None` if the memory was refused.
    pub(crate) fn new(alloc: Global) -> Option<Box<OrdMap>>
        ensures { IfSome result (λ b. b.value ≡ fresh) }
    {
        Box::new(
            alloc,
            OrdMap {
                entries: HeapOrdArena::new(alloc),
                is_spent: false,
            },
        )
        .ok()
    }

    // How many entries there are.
    pub(crate) fn len(&self) -> usize
        ensures live { result ≡ size_in self.now.arena }
        ensures counted { result ≡ length (listed self.now.arena) }
        ensures rise { KeysRise (listed self.now.arena) }
    {
        the_list_has_as_many_entries_as_are_live::<P3, OrdPair<u64, u64>>();
        self.entries.len()
    }

    // How many entries fit with no growth.
    pub(crate) fn capacity(&self) -> usize
        ensures { result ≡ arena_capacity self.now.arena.chains }
    {
        self.entries.capacity()
    }

    // Makes room for `min` entries.
    pub(crate) fn reserve(&mut self, min: usize) -> Result<(), Refusal>
        ensures reallocated { OnOk result (self.new.arena ≡ reallocated_in self.old.arena min) }
        ensures listed { listed self.new.arena ≡ listed self.old.arena }
        ensures entries { (j : ℕ) → entry_in self.new.arena j ≡ entry_in self.old.arena j }
        ensures live { size_in self.new.arena ≡ size_in self.old.arena }
        ensures fits { OnOk result (min ≤ arena_capacity self.new.arena.chains) }
        ensures spent { self.new.is_spent ≡ self.old.is_spent }
        ensures ended { (index generation : ℕ) → IsPast self.old index generation
            → IsPast self.new index generation }
        ensures succeeds { min ≤ arena_capacity self.old.arena.chains → IsOk result }
        ensures full { IsErrOf result Refusal.Full ↔ greatest < min }
        ensures refusals { OnErr result (IsErrOf result Refusal.NoMemory
            ⊎ IsErrOf result Refusal.Full) }
        ensures refused { OnErr result (self.new ≡ self.old) }
    {
        entries::reserve(&mut self.entries, min)
    }

    // The key and the value that the handle finds.
    pub(crate) fn get(&self, handle: Handle) -> Option<(u64, u64)>
        ensures pair { IfSome result
            (λ t. pair_in self.now.arena handle.index handle.generation ≡ Some (pair t.0 t.1)) }
        ensures listed { IfSome result (λ t. with_key (listed self.now.arena) t.0
            ≡ Some (entry handle.index handle.generation t.0 t.1)) }
        ensures none { IfNone result
            (pair_in self.now.arena handle.index handle.generation ≡ None) }
        ensures made { IfSome result (λ _. (0 < handle.index) × (0 < handle.generation)) }
    {
        match entries::look(&self.entries, handle) {
            Some((_, _, found)) => Some(found.into_k_v()),
            None => None,
        }
    }

    // The handle of the entry with this key.
    pub(crate) fn find(&self, key: u64) -> Option<Handle>
        ensures entry { option_map pair_of result
            ≡ option_map pointer_of (with_key (listed self.now.arena) key) }
        ensures none { IfNone result (with_key (listed self.now.arena) key ≡ None) }
        ensures stands { IfSome result (λ h. StandsUnder self.now.arena key h.index h.generation) }
    {
        entries::find(&self.entries, key)
    }

    // The handle of the first entry whose key is not below this one.
    pub(crate) fn lower_bound(&self, key: u64) -> Option<Handle>
        ensures entry { option_map pair_of result
            ≡ option_map pointer_of (first_of (from_key (listed self.now.arena) key)) }
        ensures none { IfNone result (first_of (from_key (listed self.now.arena) key) ≡ None) }
    {
        entries::lower_bound(&self.entries, key)
    }

    // The handle of the first entry whose key is above this one.
    pub(crate) fn upper_bound(&self, key: u64) -> Option<Handle>
        ensures entry { option_map pair_of result
            ≡ option_map pointer_of (first_of (past_key (listed self.now.arena) key)) }
        ensures none { IfNone result (first_of (past_key (listed self.now.arena) key) ≡ None) }
    {
        entries::upper_bound(&self.entries, key)
    }

    // The handle of the entry with this key and 0; or else that of the one behind its place and 1,
    // or that of the one before its place and 2.
    pub(crate) fn nearest(&self, key: u64) -> Option<(Handle, u8)>
        ensures entry { IfSome result (λ n. Some (pair_of n.0)
            ≡ option_map pointer_of (nearest_by n.1 (listed self.now.arena) key)) }
        ensures equal { IfSome result
            (λ n. n.1 ≡ 0 → IsSome (with_key (listed self.now.arena) key)) }
        ensures has_key { IfSome result
            (λ n. IsSome (with_key (listed self.now.arena) key) → n.1 ≡ 0) }
        ensures side { IfSome result (λ n. n.1 ≤ 2) }
        ensures none { (result ≡ None) ↔ (listed self.now.arena ≡ []) }
    {
        match entries::nearest(&self.entries, key) {
            Some((handle, Ordering::Equal)) => Some((handle, 0)),
            Some((handle, Ordering::Less)) => Some((handle, 1)),
            Some((handle, Ordering::Greater)) => Some((handle, 2)),
            None => None,
        }
    }

    // The handle of the entry with the least key.
    pub(crate) fn first(&self) -> Option<Handle>
        ensures entry { option_map pair_of result
            ≡ option_map pointer_of (first_of (listed self.now.arena)) }
        ensures none { IfNone result (first_of (listed self.now.arena) ≡ None) }
    {
        entries::first(&self.entries)
    }

    // The handle of the entry with the greatest key.
    pub(crate) fn last(&self) -> Option<Handle>
        ensures entry { option_map pair_of result
            ≡ option_map pointer_of (last_of (listed self.now.arena)) }
        ensures none { IfNone result (last_of (listed self.now.arena) ≡ None) }
    {
        entries::last(&self.entries)
    }

    // The handle of the entry before or behind that which the handle finds.
    pub(crate) fn beside(&self, handle: Handle, back: bool) -> Result<Handle, Refusal>
        ensures entry { IfOk result (λ n. Some (pair_of n) ≡ option_map pointer_of
            (beside_of back (listed self.now.arena)
            (pair_in self.now.arena handle.index handle.generation))) }
        ensures end { IsErrOf result Refusal.NoEntry
            → beside_of back (listed self.now.arena)
            (pair_in self.now.arena handle.index handle.generation) ≡ None }
        ensures found { IsErrOf result Refusal.NotFound
            ↔ (pair_in self.now.arena handle.index handle.generation ≡ None) }
        ensures refusals { OnErr result (IsErrOf result Refusal.NotFound
            ⊎ IsErrOf result Refusal.NoEntry) }
        ensures made { OnOk result ((0 < handle.index) × (0 < handle.generation)) }
    {
        let Some((inx, generation, pair)) = entries::look(&self.entries, handle) else {
            return Err(Refusal::NotFound);
        };
        match entries::beside(&self.entries, inx, generation, *pair.k(), back) {
            Some(next) => Ok(next),
            None => Err(Refusal::NoEntry),
        }
    }

    // Whether no generation is left once the counter has stepped.
    fn is_at_end(&self) -> bool
        ensures { IsTrue result ↔ IsAtEnd self.now }
    {
        self.is_spent || self.entries.generation().get() == u32::MAX
    }

    // Whether a key would take a handle where none is left.
    fn refuses(&self, key: u64) -> bool
        ensures { IsTrue result ↔ (IsTrue self.now.is_spent
            × (with_key (listed self.now.arena) key ≡ None)) }
    {
        self.is_spent && self.find(key).is_none()
    }

    // Puts a value in at a key, and gives the handle, with the value that stood there.
    pub(crate) fn insert(&mut self, key: u64, value: u64) -> Result<(Handle, Option<u64>), Refusal>
        ensures put { (IsErrOf result Refusal.Spent → ⊥)
            → IsPut key value result self.old.arena self.new.arena }
        ensures lasts { self.new.is_spent ≡ self.old.is_spent }
        ensures spent { IsErrOf result Refusal.Spent ↔ (IsTrue self.old.is_spent
            × (with_key (listed self.old.arena) key ≡ None)) }
        ensures full { IsErrOf result Refusal.Full ↔ ((self.old.is_spent ≡ false)
            × ((with_key (listed self.old.arena) key ≡ None)
            × (size_in self.old.arena ≡ greatest))) }
        ensures replaces { IsSome (with_key (listed self.old.arena) key) → IsOk result }
        ensures succeeds { self.old.is_spent ≡ false
            → size_in self.old.arena < arena_capacity self.old.arena.chains → IsOk result }
        ensures ended { (index generation : ℕ) → IsPast self.old index generation
            → IsPast self.new index generation }
        ensures refusals { OnErr result (IsErrOf result Refusal.NoMemory
            ⊎ (IsErrOf result Refusal.Full ⊎ IsErrOf result Refusal.Spent)) }
        ensures refused { OnErr result (self.new ≡ self.old) }
    {
        if self.refuses(key) {
            return Err(Refusal::Spent);
        }
        entries::put(&mut self.entries, key, value)
    }

    // Gives the handle of the entry with a key, which stays, and its value; or puts a value in at
    // the key, and gives the handle and `None`.
    pub(crate) fn get_or_insert(
        &mut self,
        key: u64,
        value: u64,
    ) -> Result<(Handle, Option<u64>), Refusal>
        ensures put { (IsErrOf result Refusal.Spent → ⊥) → IsPut key (standing value result)
            result self.old.arena self.new.arena }
        ensures stays { IfOk result (λ r. IsSome r.1 → self.new ≡ self.old) }
        ensures lasts { self.new.is_spent ≡ self.old.is_spent }
        ensures spent { IsErrOf result Refusal.Spent ↔ (IsTrue self.old.is_spent
            × (with_key (listed self.old.arena) key ≡ None)) }
        ensures full { IsErrOf result Refusal.Full ↔ ((self.old.is_spent ≡ false)
            × ((with_key (listed self.old.arena) key ≡ None)
            × (size_in self.old.arena ≡ greatest))) }
        ensures gets { IsSome (with_key (listed self.old.arena) key) → IsOk result }
        ensures succeeds { self.old.is_spent ≡ false
            → size_in self.old.arena < arena_capacity self.old.arena.chains → IsOk result }
        ensures ended { (index generation : ℕ) → IsPast self.old index generation
            → IsPast self.new index generation }
        ensures refusals { OnErr result (IsErrOf result Refusal.NoMemory
            ⊎ (IsErrOf result Refusal.Full ⊎ IsErrOf result Refusal.Spent)) }
        ensures refused { OnErr result (self.new ≡ self.old) }
    {
        if self.refuses(key) {
            return Err(Refusal::Spent);
        }
        entries::get_or_put(&mut self.entries, key, value)
    }

    // Writes the value that the handle finds, and says whether there was one.
    pub(crate) fn set(&mut self, handle: Handle, value: u64) -> bool
        ensures variant { IsTrue result
            ↔ IsSome (pair_in self.old.arena handle.index handle.generation) }
        ensures written { IsTrue result → IfSome
            (pair_in self.old.arena handle.index handle.generation) (λ t. IsReplaced
            handle.index handle.generation (pair t.k value) t self.old.arena self.new.arena) }
        ensures exact { IsTrue result → IfSome
            (pair_in self.old.arena handle.index handle.generation)
            (λ t. self.new.arena ≡ with_item self.old.arena handle.index (pair t.k value)) }
        ensures others { (j h : ℕ) → (j ≢ handle.index) ⊎ (h ≢ handle.generation)
            → pair_in self.new.arena j h ≡ pair_in self.old.arena j h }
        ensures listed { IsTrue result → IfSome
            (pair_in self.old.arena handle.index handle.generation)
            (λ t. listed self.new.arena ≡ put_in (listed self.old.arena)
            (entry handle.index handle.generation t.k value)) }
        ensures ended { (index generation : ℕ) → IsPast self.old index generation
            → IsPast self.new index generation }
        ensures lasts { self.new.is_spent ≡ self.old.is_spent }
        ensures made { IsTrue result → (0 < handle.index) × (0 < handle.generation) }
        ensures missed { result ≡ false → self.new ≡ self.old }
    {
        let Some((inx, _, pair)) = entries::look(&self.entries, handle) else {
            return false;
        };
        entries::write(&mut self.entries, inx, *pair.k(), value);
        true
    }

    // Removes the entry that the handle finds, and gives its key and its value.
    pub(crate) fn remove(&mut self, handle: Handle) -> Option<(u64, u64)>
        ensures pair { IfSome result
            (λ t. pair_in self.old.arena handle.index handle.generation ≡ Some (pair t.0 t.1)) }
        ensures listed { IfSome result
            (λ t. listed self.new.arena ≡ without_key (listed self.old.arena) t.0) }
        ensures removed { OnSome result (IsEntryRemoved (Some greatest)
            handle.index self.old.arena self.new.arena) }
        ensures others { (j h : ℕ) → (j ≢ handle.index) ⊎ (h ≢ handle.generation)
            → pair_in self.new.arena j h ≡ pair_in self.old.arena j h }
        ensures ends { IsSome result → IsPast self.new handle.index handle.generation }
        ensures ended { (index generation : ℕ) → IsPast self.old index generation
            → IsPast self.new index generation }
        ensures spent { IsSome result → (IsTrue self.new.is_spent ↔ IsAtEnd self.old) }
        ensures none { IfNone result
            (pair_in self.old.arena handle.index handle.generation ≡ None) }
        ensures made { IfSome result (λ _. (0 < handle.index) × (0 < handle.generation)) }
        ensures missed { IfNone result (self.new ≡ self.old) }
    {
        let Some((inx, _, _)) = entries::look(&self.entries, handle) else {
            return None;
        };
        let is_last = self.is_at_end();
        match entries::take(&mut self.entries, inx) {
            Some(taken) => {
                self.is_spent = is_last;
                Some(taken.into_k_v())
            }
            None => unreachable!(),
        }
    }

    // Removes the entry with this key, and gives its value.
    pub(crate) fn remove_key(&mut self, key: u64) -> Option<u64>
        ensures value { result ≡ option_map value_of (with_key (listed self.old.arena) key) }
        ensures listed { OnSome result
            (listed self.new.arena ≡ without_key (listed self.old.arena) key) }
        ensures removed { IfSome (with_key (listed self.old.arena) key)
            (λ e. IsEntryRemoved (Some greatest) e.0 self.old.arena self.new.arena) }
        ensures others { IfSome (with_key (listed self.old.arena) key) (λ e. (j h : ℕ)
            → (j ≢ e.0) ⊎ (h ≢ e.1.0) → pair_in self.new.arena j h ≡ pair_in self.old.arena j h) }
        ensures ends { IfSome (with_key (listed self.old.arena) key)
            (λ e. IsPast self.new e.0 e.1.0) }
        ensures ended { (index generation : ℕ) → IsPast self.old index generation
            → IsPast self.new index generation }
        ensures spent { IsSome result → (IsTrue self.new.is_spent ↔ IsAtEnd self.old) }
        ensures missed { IfNone result (self.new ≡ self.old) }
    {
        let Some(handle) = self.find(key) else {
            return None;
        };
        match self.remove(handle) {
            Some((_, value)) => Some(value),
            None => unreachable!(),
        }
    }

    // Removes every entry.
    pub(crate) fn clear(&mut self)
        ensures exact { self.new.arena ≡ cleared_in (Some greatest) self.old.arena }
        ensures listed { listed self.new.arena ≡ [] }
        ensures ends { (index generation : ℕ)
            → IsSome (pair_in self.old.arena index generation) → IsPast self.new index generation }
        ensures ended { (index generation : ℕ) → IsPast self.old index generation
            → IsPast self.new index generation }
        ensures spent { IsTrue self.new.is_spent ↔ IsAtEnd self.old }
    {
        self.is_spent = self.is_at_end();
        self.entries.clear();
    }

    // Writes the entries from that which the handle finds on, or from zeros all, as many as the
    // three arrays take. It gives how many, and the handle of the one behind them, or zeros if
    // there is none.
    pub(crate) fn read(
        &self,
        from: Handle,
        handles: &mut [Handle],
        keys: &mut [u64],
        values: &mut [u64],
    ) -> Result<(usize, Handle), Refusal>
        ensures handles { IfOk result (λ r. map pair_of (take r.0 handles.new) ≡ map pointer_of
            (take r.0 (rest_in self.now.arena from.index from.generation))) }
        ensures keys { IfOk result (λ r. take r.0 keys.new ≡ map key_of
            (take r.0 (rest_in self.now.arena from.index from.generation))) }
        ensures values { IfOk result (λ r. take r.0 values.new ≡ map value_of
            (take r.0 (rest_in self.now.arena from.index from.generation))) }
        ensures next { IfOk result (λ r. pair_of r.1
            ≡ place_of (drop r.0 (rest_in self.now.arena from.index from.generation))) }
        ensures fits { IfOk result (λ r. (r.0 ≤ length handles.old) × ((r.0 ≤ length keys.old)
            × (r.0 ≤ length values.old))) }
        ensures within { IfOk result
            (λ r. r.0 ≤ length (rest_in self.now.arena from.index from.generation)) }
        ensures all { IfOk result (λ r. (r.0 ≡ length handles.old) ⊎ ((r.0 ≡ length keys.old)
            ⊎ ((r.0 ≡ length values.old)
            ⊎ (r.0 ≡ length (rest_in self.now.arena from.index from.generation))))) }
        ensures rest { IfOk result (λ r. drop r.0 handles.new ≡ drop r.0 handles.old) }
        ensures rest_of_keys { IfOk result (λ r. drop r.0 keys.new ≡ drop r.0 keys.old) }
        ensures rest_of_values { IfOk result (λ r. drop r.0 values.new ≡ drop r.0 values.old) }
        ensures found { IsErrOf result Refusal.NotFound
            ↔ (((from.index ≢ 0) ⊎ (from.generation ≢ 0))
            × (pair_in self.now.arena from.index from.generation ≡ None)) }
        ensures refusals { OnErr result (IsErrOf result Refusal.NotFound) }
        ensures handles_unwritten { OnErr result (handles.new ≡ handles.old) }
        ensures keys_unwritten { OnErr result (keys.new ≡ keys.old) }
        ensures values_unwritten { OnErr result (values.new ≡ values.old) }
    {
        if from.index == 0 && from.generation == 0 {
            return Ok(match entries::walk_all(&self.entries) {
                Some(walk) => entries::read(&self.entries, walk, handles, keys, values),
                None => (0, from),
            });
        }
        match entries::walk_from(&self.entries, from) {
            Some(walk) => Ok(entries::read(&self.entries, walk, handles, keys, values)),
            None => Err(Refusal::NotFound),
        }
    }
}
