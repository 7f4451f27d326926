//! What every arena does.
ghost use Rattle.std.specs.Prelude.{◌≡◌, ℕ, ◌+◌, ◌-◌, ◌*◌, ◌^◌, ◌<◌, ◌≤◌, ◌↔◌, Bool, Some};
ghost use Rattle.std.specs.Prelude.{None, IsTrue, IsOk, IsSome, IfSome, IfNone, IfOk, OnSome, OnOk};
ghost use Rattle.std.specs.Prelude.{OnErr, Option, is_some, option_copied, unwrap_or};
ghost use Rattle.std.specs.Prelude.{true, false, min, if◌then◌else◌, List, map as list_map, length};
ghost use Rattle.std.specs.Borrow.{sem, Lends, LendsIf};
ghost use Rattle.std.specs.Option.{option_map, option_copied_mut};
ghost use Rattle.triple_arena_ptr.specs.Errors.{IsBeyondMaxCapacity, IsAllocError};
ghost use Rattle.triple_arena_ptr.specs.Generation.{IsGeneration, second_generation};
ghost use Rattle.triple_arena_ptr.specs.Generation.{next_generation, next_wraps};
ghost use Rattle.triple_arena_ptr.specs.Index.{max_index_of};
ghost use Rattle.triple_arena_ptr.specs.InvalidationOption.{value_of, overflowed};
ghost use Rattle.triple_arena_ptr.specs.InvalidationResult.{answer_of};
ghost use Rattle.triple_arena_stack.specs.Room.{Room, capacity as capacity_of, IsBeyond};
ghost use Rattle.triple_arena.specs.Changes.{IsNew, IsReallocated, IsRemoved, IsInvalidated};
ghost use Rattle.triple_arena.specs.Changes.{IsCleared, IsCompressed};
ghost use Rattle.triple_arena.specs.Drains.{drain_arena, drain_lender, DrainCanStep};
ghost use Rattle.triple_arena.specs.Drains.{DrainKeepsAlong, LeavesGivenUp};
ghost use Rattle.triple_arena.specs.Entries.{number_if, value_if, counter_wraps, with_value_at};
ghost use Rattle.triple_arena.specs.Entries.{generation_at, look_up, value_in};
ghost use Rattle.triple_arena.specs.Transfer.{IsGivenUp};
ghost use Rattle.triple_arena.specs.Walk.{Walk, Steps};
ghost use Rattle.std.specs.List.Sorted.{IsStrictlyIncreasing};
ghost use Rattle.triple_arena.specs.Compression.{compression_wraps, index_of, generation_of};
ghost use Rattle.triple_arena.specs.Compression.{value_of as value_of_entry, IsMapped};

use crate::answers::{answer, valid};
use crate::drain::Drain;
use proof_marks::{recall, unreached};
use triple_arena_ptr::{
    Advancer, InvalidationOption, InvalidationResult, PtrCore, PtrGenCore, ReallocationError,
};

/// An arena of values of type `T`, to which pointers of type `P` point.
pub trait ArenaTrait<P: PtrCore, T: Drop> {
    /// What the arena takes its memory from.
    type Alloc;

    /// What goes over the arena's pointers by their indexes.
    type PtrAdvancer: Advancer<Self, Item = P> + Copy;

    // The generation and the value at each index. Index 0 has none.
    ghost entry_at: { Self → ℕ → Option (ℕ × T) };

    // How many indexes are live.
    ghost live_count: { Self → ℕ };

    // The generation of the next entry, in an arena that has a counter.
    ghost counter: { Self → Option ℕ };

    // Whether the arena has a counter.
    ghost has_counter: { Bool };

    // How many slots there are, of live and of free indexes.
    ghost slot_count: { Self → ℕ };

    // The reserved slots and the greatest capacity.
    ghost room: { Self → Room };

    // Whether arenas of this type take memory. If none does, no call returns `AllocError`.
    ghost takes_memory: { Bool };

    // The room of an arena that is made for so many entries.
    ghost room_at: { ℕ → Room };

    // An arena without an entry, in this room.
    ghost empty: { Room → Self };

    // The arena with at least this capacity.
    ghost reallocated: { Self → ℕ → Self };

    // The arena with another value at an index, if it is live.
    ghost with_value: { Self → ℕ → T → Self };

    // What an arena becomes without the entry at an index. It is a relation, since nothing says
    // which of its trees an ordered arena has then.
    ghost is_removed: { Self → ℕ → Self → Type 0 };

    // The arena with the entry at an index under the stepped counter, and without any entry.
    ghost invalidated: { Self → ℕ → Self };

    ghost cleared: { Self → Self };

    // The arena without an entry and without a slot, its counter, if it has one, stepped once for
    // each entry.
    ghost drained: { Self → Self };

    // What an arena becomes whose live entries go to the first indexes, with these values and with
    // the generations renewed. It is a relation, since an arena whose slots hold pointers' indexes
    // has no word for the new ones.
    ghost is_compressed: { Self → Bool → List T → Self → Type 0 };

    // What holds of each arena that a call leaves.
    ghost is_formed: { Self → Type 0 };

    // The indexes that an advancer has left to look at.
    ghost walk: { Self.PtrAdvancer → Walk };

    // The index, generation and value of each live entry, in the order of the indexes.
    ghost live_entries: { Self → List (ℕ × (ℕ × T)) };

    /// An empty arena, which takes no memory.
    fn new(alloc: Self::Alloc) -> Self
        ensures empty { IsNew entry_at live_count counter room
            (number_if has_counter (second_generation P.Gen.last)) (room_at 0) result }
        ensures exact { result ≡ empty (room_at 0) }
        ensures formed { is_formed result };

    /// An empty arena with room for `min` entries. It returns `BeyondMaxCapacity` if no arena of
    /// this type has so much, and `AllocError` if the memory was refused.
    fn with_min_capacity(alloc: Self::Alloc, min: usize) -> Result<Self, ReallocationError>
        ensures empty { IfOk result (λ a. IsNew entry_at live_count counter room
            (number_if has_counter (second_generation P.Gen.last)) (room_at min) a) }
        ensures exact { IfOk result (λ a. a ≡ empty (room_at min)) }
        ensures formed { IfOk result (λ a. is_formed a) }
        ensures fits { IfOk result (λ a. min ≤ capacity_of (room a)) }

        // No memory is asked for if a new arena has the room already.
        ensures succeeds { min ≤ capacity_of (room_at 0) → IsOk result }
        ensures beyond { IsBeyondMaxCapacity result ↔ IsBeyond (room_at min).limit min }
        ensures memory { IsAllocError result → IsTrue takes_memory };

    /// How many entries fit with no growth.
    fn capacity(&self) -> usize
        ensures value { result ≡ capacity_of (room self.now) }
        ensures holds_all { live_count self.now ≤ result }

        // Each live index is within it, and is one of the pointers' indexes.
        ensures indexes { (j : ℕ) → IsSome (entry_at self.now j) → j ≤ result }
        ensures bounded { result ≤ max_index_of P.Inx.greatest };

    /// The capacity that no growth passes, if there is one.
    fn max_capacity(&self) -> Option<usize>
        ensures { result ≡ (room self.now).limit };

    /// Makes room for `min` entries, by a growth to exactly that if there is less. It returns
    /// `BeyondMaxCapacity` if `min` is past the greatest capacity, and `AllocError` if the memory
    /// was refused. An error leaves the arena as it was, its capacity too.
    fn reallocate_min_capacity(&mut self, min: usize) -> Result<(), ReallocationError>
        ensures reallocated { OnOk result (IsReallocated entry_at live_count counter room min
            self.old self.new) }
        ensures exact { OnOk result (self.new ≡ reallocated self.old min) }
        ensures kept { min ≤ capacity_of (room self.old) → self.new ≡ self.old }
        ensures formed { is_formed self.new }
        ensures fits { OnOk result (min ≤ capacity_of (room self.new)) }
        ensures succeeds { min ≤ capacity_of (room self.old) → IsOk result }
        ensures beyond { IsBeyondMaxCapacity result ↔ IsBeyond (room self.old).limit min }
        ensures memory { IsAllocError result → IsTrue takes_memory }
        ensures err { OnErr result (self.new ≡ self.old) };

    /// How many entries are live.
    fn len(&self) -> usize
        ensures value { result ≡ live_count self.now }
        ensures fits { result ≤ capacity_of (room self.now) }
        ensures formed { is_formed self.now };

    /// The counter, which is the generation of the next entry, in an arena that has one.
    fn singular_generation(&self) -> Option<P::Gen>
        ensures value { option_map P.Gen.number result ≡ counter self.now }
        ensures counted { IfSome result (λ g. IsGeneration P.Gen.last (P.Gen.number g)) };

    /// Whether `p` points to a live entry.
    fn contains(&self, p: P) -> bool
        ensures value { IsTrue result ↔ IsSome
            (value_if (P.generation p) (entry_at self.now (P.index p))) }
        ensures counted { IsGeneration P.Gen.last (P.generation p) };

    /// The generation and the value at an index, if it is live.
    fn get_inx(&self, i: P::Inx) -> Option<(P::Gen, &T)>
        ensures { option_map (λ e. (P.Gen.number e.0, e.1.now)) result
            ≡ entry_at self.now (P.Inx.number i) };

    /// The value at an index that is live, for writing.
    fn get_inx_mut_unwrap(&mut self, i: P::Inx) -> &mut T
        requires { IsSome (entry_at self.old (P.Inx.number i)) }
        ensures* writes_back { sem 𝓛 (Lends Self.row T.row self.entry result
            (with_value self.old (P.Inx.number i))) }
        ensures value { value_in (entry_at self.old (P.Inx.number i)) ≡ Some result.now };

    /// The pointer to the entry with the least index, or `None` if no index is live. It looks at
    /// each slot up to that one.
    fn find_first_inx_ptr(&self) -> Option<P>
        ensures live { IfSome result (λ p. generation_at (entry_at self.now) (P.index p)
            ≡ Some (P.generation p)) }
        ensures first { IfSome result (λ p. (j : ℕ) → j < P.index p → entry_at self.now j ≡ None) }
        ensures none { IfNone result ((j : ℕ) → entry_at self.now j ≡ None) };

    /// The pointer to the entry with the greatest index, or `None` if no index is live. It looks at
    /// each slot from the last one down to that one.
    fn find_last_inx_ptr(&self) -> Option<P>
        ensures live { IfSome result (λ p. generation_at (entry_at self.now) (P.index p)
            ≡ Some (P.generation p)) }
        ensures last { IfSome result (λ p. (j : ℕ) → P.index p < j → entry_at self.now j ≡ None) }
        ensures none { IfNone result ((j : ℕ) → entry_at self.now j ≡ None) };

    /// What gives the pointers to the entries by rising index. It goes to the last slot that there
    /// is now, so each index that is live now is on its way.
    fn advancer(&self) -> Self::PtrAdvancer
        ensures rises { (walk result).falls ≡ false }
        ensures low { (walk result).low ≡ 1 }
        ensures high { (j : ℕ) → IsSome (entry_at self.now j) → j ≤ (walk result).high }
        ensures end { (walk result).high ≡ slot_count self.now };

    /// What gives the pointers to the entries by rising index from `i` to the last slot that there
    /// is now, or with `rev` by falling index from `i` to 1.
    fn advancer_inx(&self, i: P::Inx, rev: bool) -> Self::PtrAdvancer
        ensures direction { (walk result).falls ≡ rev }
        ensures low { (walk result).low ≡ (if rev then 1 else min (P.Inx.number i) (2 ^ 64)) }
        ensures rising_to { rev ≡ false → (j : ℕ) → IsSome (entry_at self.now j)
            → j ≤ (walk result).high }
        ensures rising_end { rev ≡ false → (walk result).high ≡ slot_count self.now }
        ensures falling_from { rev ≡ true
            → (walk result).high ≡ min (P.Inx.number i) (2 ^ 64 - 1) };

    /// Removes the entry at an index that is live, steps the counter, if there is one, and says
    /// whether the generations wrapped. The caller owes that the index is live: the call makes no
    /// test. The entry stands in the answer as it is, so that a caller who keeps a part of it
    /// copies no more than that.
    fn take_inx_unwrap(&mut self, i: P::Inx) -> ((P::Gen, T), bool)
        requires { IsSome (entry_at self.old (P.Inx.number i)) }
        ensures value { Some (P.Gen.number result.0.0, result.0.1)
            ≡ entry_at self.old (P.Inx.number i) }
        ensures overflow { result.1 ≡ counter_wraps P.Gen.last (counter self.old) }
        ensures removed { IsRemoved entry_at live_count counter room P.Gen.last
            (P.Inx.number i) self.old self.new }
        ensures exact { is_removed self.old (P.Inx.number i) self.new }
        ensures formed { is_formed self.new };

    /// Ends `p` and gives the entry another pointer, with the stepped generation. Then `p` finds
    /// nothing, unless the counter wrapped or was set back. If generations are not counted, the
    /// pointer is equal to `p`. It returns `InvalidPtr`, and changes nothing, if `p` points to no
    /// entry. The step is the counter's, or that of the entry's own generation in an arena without
    /// a counter.
    fn invalidate(&mut self, p: P) -> InvalidationResult<P>
        ensures variant { IsSome (answer_of result)
            ↔ IsSome (value_if (P.generation p) (entry_at self.old (P.index p))) }
        ensures overflow { IfSome (answer_of result)
            (λ a. overflowed a ≡ next_wraps P.Gen.last
            (unwrap_or (counter self.old) (P.generation p))) }
        ensures index { IfSome (answer_of result) (λ a. P.index (value_of a) ≡ P.index p) }
        ensures generation { IfSome (answer_of result)
            (λ a. P.generation (value_of a)
            ≡ next_generation P.Gen.last (unwrap_or (counter self.old) (P.generation p))) }
        ensures same { P.Gen.last ≡ None → IfSome (answer_of result) (λ a. value_of a ≡ p) }
        ensures invalidated { IfSome (answer_of result)
            (λ a. IsInvalidated entry_at live_count counter room P.Gen.last (P.index p)
            (P.generation (value_of a)) self.old self.new) }
        ensures exact { OnSome (answer_of result) (self.new ≡ invalidated self.old (P.index p)) }
        ensures formed { is_formed self.new }
        ensures invalid { IfNone (answer_of result) (self.new ≡ self.old) };

    /// Removes every entry and every slot, and steps the counter, if there is one, once, also if
    /// there was no entry.
    fn clear(&mut self) -> InvalidationOption<()>
        ensures overflow { overflowed result ≡ counter_wraps P.Gen.last (counter self.old) }
        ensures cleared { IsCleared entry_at live_count counter room P.Gen.last self.old self.new }
        ensures exact { self.new ≡ cleared self.old }
        ensures formed { is_formed self.new };

    /// Removes every entry, each by a step of the counter, if there is one, and every slot: what a
    /// drain leaves.
    fn take_all(&mut self)
        ensures exact { self.new ≡ drained self.old }
        ensures formed { is_formed self.new };

    /// Moves the live entries, in the order of their indexes, to the indexes from 1 on, and gives
    /// each what `map` makes of its value. `map` is called once for each, in that order, with the
    /// old pointer, the value and the new pointer. No memory is taken.
    ///
    /// With `reset` every entry and the counter, if there is one, get the second generation, and
    /// the answer is `Success`; an old pointer may then find an entry that it was not given for.
    /// Else the counter steps once, every entry gets the stepped generation, and the answer is
    /// `GenerationOverflow` if that step wrapped. An arena without a counter steps each entry's own
    /// generation.
    fn compress_with<F: FnMut(P, T, P) -> T>(
        &mut self,
        reset: bool,
        map: F,
    ) -> InvalidationOption<()>
        requires { F.IsAlwaysCallable map }
        ensures mapped { IsMapped P.index P.generation F.step map (live_entries self.old)
            (live_entries self.new) }
        ensures overflow { overflowed result
            ≡ compression_wraps P.Gen.last reset (counter self.old)
            (list_map generation_of (live_entries self.old)) }
        ensures compressed { IsCompressed entry_at live_count counter room P.Gen.last live_entries
            reset self.old self.new }
        ensures exact { is_compressed self.old reset
            (list_map value_of_entry (live_entries self.new)) self.new }
        ensures formed { is_formed self.new };

    ghost counter_if_has_counter: { (s : Self) → is_some (counter s) ≡ has_counter };

    ghost none_at_zero: { (s : Self) → entry_at s 0 ≡ None };

    // What a step of an advancer gives and leaves.
    ghost advances: { (before : Self.PtrAdvancer) (s : Self) (given : Option P)
        (after : Self.PtrAdvancer)
        → Self.PtrAdvancer.advance_gives before s given after
        → Steps (entry_at s) (walk before) (option_map (λ p. (P.index p, P.generation p)) given)
        (walk after) };

    // The list has exactly what stands at the indexes, each index once.
    ghost entry_listed: { (s : Self) (i : ℕ) → entry_at s i ≡ look_up (live_entries s) i };

    ghost live_entries_increase: { (s : Self)
        → IsStrictlyIncreasing (list_map index_of (live_entries s)) };

    ghost live_entries_counted: { (s : Self) → length (live_entries s) ≡ live_count s };

    // A write of a value changes nothing else.
    ghost entry_with_value: { (s : Self) (i : ℕ) (t : T) (j : ℕ)
        → entry_at (with_value s i t) j ≡ with_value_at (entry_at s) i t j };

    ghost live_with_value: { (s : Self) (i : ℕ) (t : T)
        → live_count (with_value s i t) ≡ live_count s };

    ghost counter_with_value: { (s : Self) (i : ℕ) (t : T)
        → counter (with_value s i t) ≡ counter s };

    ghost room_with_value: { (s : Self) (i : ℕ) (t : T) → room (with_value s i t) ≡ room s };

    // What a drain leaves in the end is the arena given up, whatever was removed before.
    ghost drains: { LeavesGivenUp entry_at live_count counter room P.Gen.last drained };

    /// Takes each entry out, in the order of the indexes. Once the iterator is dropped, the arena
    /// has no entry and no slot, its counter, if it has one, has stepped once for each entry that
    /// it had, and its room is as it was.
    final fn drain(&mut self) -> Drain<'_, P, T, Self>
        ensures arena { drain_arena result ≡ self.old }
        ensures same_reference { drain_lender result ≡ self.entry.ghost_name }
        ensures ready { DrainCanStep entry_at walk result }
        ensures stays { DrainKeepsAlong entry_at walk counter live_entries is_removed drained
            P.Gen.last P.index P.generation result }

        // What it leaves in the end.
        ensures left { IsGivenUp entry_at live_count counter room P.Gen.last self.old
            (drained self.old) }
    {
        Drain {
            walk: self.advancer(),
            arena: self,
        }
    }

    /// Moves the live entries, in the order of their indexes, to the indexes from 1 on, with their
    /// values as they are. No memory is taken.
    ///
    /// With `reset` every entry and the counter, if there is one, get the second generation, and
    /// the answer is `Success`; an old pointer may then find an entry that it was not given for.
    /// Else the counter steps once, every entry gets the stepped generation, and the answer is
    /// `GenerationOverflow` if that step wrapped. An arena without a counter steps each entry's own
    /// generation.
    final fn compress(&mut self, reset: bool) -> InvalidationOption<()>
        ensures values { list_map value_of_entry (live_entries self.new)
            ≡ list_map value_of_entry (live_entries self.old) }
        ensures overflow { overflowed result
            ≡ compression_wraps P.Gen.last reset (counter self.old)
            (list_map generation_of (live_entries self.old)) }
        ensures compressed { IsCompressed entry_at live_count counter room P.Gen.last live_entries
            reset self.old self.new }
        ensures exact { is_compressed self.old reset
            (list_map value_of_entry (live_entries self.old)) self.new }
        ensures formed { is_formed self.new }
    {
        self.compress_with(reset, |_, value, _| value)
    }

    /// The value that `p` points to, if it is live.
    final fn get(&self, p: P) -> Option<&T>
        ensures { option_copied result ≡ value_if (P.generation p) (entry_at self.now (P.index p)) }
    {
        if self.contains(p) {
            Some(self.get_inx_unwrap(p.inx()))
        } else {
            None
        }
    }

    /// The value that `p` points to for writing, if it is live.
    final fn get_mut(&mut self, p: P) -> Option<&mut T>
        ensures* writes_back { sem 𝓛 (LendsIf Self.row T.row self.entry result
            (with_value self.old (P.index p)) self.old) }
        ensures value { option_copied_mut result
            ≡ value_if (P.generation p) (entry_at self.old (P.index p)) }
    {
        if self.contains(p) {
            Some(self.get_inx_mut_unwrap(p.inx()))
        } else {
            None
        }
    }

    /// Removes the value that `p` points to, and steps the counter, if there is one. If `p` points
    /// to none, it returns `InvalidPtr` and changes nothing.
    #[inline(always)]
    final fn remove(&mut self, p: P) -> InvalidationResult<T>
        ensures value { option_map value_of (answer_of result)
            ≡ value_if (P.generation p) (entry_at self.old (P.index p)) }
        ensures overflow { IfSome (answer_of result)
            (λ a. overflowed a ≡ counter_wraps P.Gen.last (counter self.old)) }
        ensures removed { OnSome (answer_of result) (IsRemoved entry_at live_count counter room
            P.Gen.last (P.index p) self.old self.new) }
        ensures exact { OnSome (answer_of result) (is_removed self.old (P.index p) self.new) }
        ensures formed { is_formed self.new }
        ensures invalid { IfNone (answer_of result) (self.new ≡ self.old) }
    {
        // The arena is well-formed.
        recall!(self.len());
        if !self.contains(p) {
            return InvalidationResult::InvalidPtr;
        }
        let ((_, value), wrapped) = self.take_inx_unwrap(p.inx());
        valid(answer(wrapped, value))
    }

    /// Removes the entry at an index, and steps the counter, if there is one. It returns
    /// `InvalidPtr`, and changes nothing, if the index is not live.
    #[inline(always)]
    final fn remove_inx(&mut self, i: P::Inx) -> InvalidationResult<(P::Gen, T)>
        ensures value { option_map (λ a. (P.Gen.number (value_of a).0, (value_of a).1))
            (answer_of result) ≡ entry_at self.old (P.Inx.number i) }
        ensures overflow { IfSome (answer_of result)
            (λ a. overflowed a ≡ counter_wraps P.Gen.last (counter self.old)) }
        ensures removed { OnSome (answer_of result) (IsRemoved entry_at live_count counter room
            P.Gen.last (P.Inx.number i) self.old self.new) }
        ensures exact { OnSome (answer_of result) (is_removed self.old (P.Inx.number i) self.new) }
        ensures formed { is_formed self.new }
        ensures invalid { IfNone (answer_of result) (self.new ≡ self.old) }
    {
        // The arena is well-formed.
        recall!(self.len());
        if self.get_inx(i).is_none() {
            return InvalidationResult::InvalidPtr;
        }
        let (entry, wrapped) = self.take_inx_unwrap(i);
        valid(answer(wrapped, entry))
    }

    /// Whether there is no entry.
    final fn is_empty(&self) -> bool
        ensures { IsTrue result ↔ (live_count self.now ≡ 0) }
    {
        self.len() == 0
    }

    /// The value at an index that is live.
    final fn get_inx_unwrap(&self, i: P::Inx) -> &T
        requires { IsSome (entry_at self.now (P.Inx.number i)) }
        ensures { value_in (entry_at self.now (P.Inx.number i)) ≡ Some result.now }
    {
        match self.get_inx(i) {
            Some((_, value)) => value,
            None => unreached!(),
        }
    }

    /// The value at an index for writing, if it is live. `get_inx` tells its generation.
    final fn get_inx_mut(&mut self, i: P::Inx) -> Option<&mut T>
        ensures* writes_back { sem 𝓛 (LendsIf Self.row T.row self.entry result
            (with_value self.old (P.Inx.number i)) self.old) }
        ensures value { option_copied_mut result ≡ value_in (entry_at self.old (P.Inx.number i)) }
    {
        if self.get_inx(i).is_some() {
            Some(self.get_inx_mut_unwrap(i))
        } else {
            None
        }
    }
}

/// The arenas that a compression leaves with every index from 1 to the number of entries live.
pub trait CompactArenaTrait<P: PtrCore, T: Drop>: ArenaTrait<P, T> {}
