//! What every stack does.
ghost use Rattle.std.specs.Prelude.{◌≡◌, ◌≢◌, ℕ, ◌+◌, ◌-◌, ◌*◌, ◌^◌, ◌<◌, ◌≤◌, ◌↔◌, Bool, List, []};
ghost use Rattle.std.specs.Prelude.{◌∷◌, ◌++◌, Some, None, length, max, IsTrue, IsOk, IsSome, IfOk};
ghost use Rattle.std.specs.Prelude.{OnOk, OnErr, IsErrOf};
ghost use Rattle.std.specs.Borrow.{sem, Lends, LendsIf, Array};
ghost use Rattle.std.specs.Int.NonZero.{non_zero_usize_get as at};
ghost use Rattle.std.specs.List.{refill};
ghost use Rattle.std.specs.Option.{option_copied, option_copied_mut, option_to_list};
ghost use Rattle.triple_arena_ptr.specs.Errors.{IsBeyondMaxCapacity, IsAllocError};
ghost use Rattle.triple_arena_stack.specs.Push.{IsRefusal, IsPushed, HasFreeSlot, IsGrowingPush};
ghost use Rattle.triple_arena_stack.specs.Room.{Room, capacity as capacity_of, with_reserved};
ghost use Rattle.triple_arena_stack.specs.Room.{IsBeyond};
ghost use Rattle.triple_arena_stack.specs.Stack.{item_at, with_item, exchanged};

use proof_marks::unreached;
use std::num::NonZeroUsize;
use triple_arena_ptr::{GetDisjointMutError, NotWithinCapacityError, ReallocationError};

/// A stack whose items have the indexes from 1 on.
pub trait NonZeroInxGenericStack {
    /// What the stack holds.
    type Item: Drop;

    /// What the stack takes its memory from.
    type Alloc;

    // The item of index 1 comes first.
    ghost items: { Self → List Self.Item };

    // The reserved slots and the limit.
    ghost room: { Self → Room };

    // The room of a stack that is made for so many items.
    ghost room_at: { ℕ → Room };

    // Whether stacks of this type take memory. If none does, no call returns `AllocError`.
    ghost takes_memory: { Bool };

    // The stack with other items in the same room.
    ghost with_items: { Self → List Self.Item → Self };

    /// An empty stack, which takes no memory.
    fn new(alloc: Self::Alloc) -> Self
        ensures items { items result ≡ [] }
        ensures room { room result ≡ room_at 0 };

    /// An empty stack with room for `min` items. It returns `BeyondMaxCapacity` if no stack of
    /// this type has so much, and `AllocError` if the memory was refused.
    fn with_min_capacity(alloc: Self::Alloc, min: usize) -> Result<Self, ReallocationError>
        ensures items { IfOk result (λ s. items s ≡ []) }
        ensures room { IfOk result (λ s. room s ≡ room_at min) }
        ensures fits { IfOk result (λ s. min ≤ capacity_of (room s)) }

        // No memory is asked for if a new stack has the room already.
        ensures succeeds { min ≤ capacity_of (room_at 0) → IsOk result }
        ensures beyond { IsBeyondMaxCapacity result ↔ IsBeyond (room_at min).limit min }
        ensures memory { IsAllocError result → IsTrue takes_memory };

    /// How many items fit with no growth.
    fn capacity(&self) -> usize
        ensures value { result ≡ capacity_of (room self.now) }
        ensures holds_all { length (items self.now) ≤ result }

        // Twice the capacity is a number wherever no limit stops a growth.
        ensures can_double { (room self.now).limit ≡ None → result < 2 ^ 63 };

    /// The capacity that no growth passes, if there is one.
    fn max_capacity(&self) -> Option<usize>
        ensures { result ≡ (room self.now).limit };

    /// The number of items, which is the index of the last one.
    fn len(&self) -> usize
        ensures value { result ≡ length (items self.now) }
        ensures fits { result ≤ capacity_of (room self.now) };

    /// Makes room for `min` items, by a growth to exactly that if there is less. It returns
    /// `BeyondMaxCapacity` if `min` is past the greatest capacity, and `AllocError` if the
    /// memory was refused. An error leaves the stack as it was, its capacity too.
    fn reallocate_min_capacity(&mut self, min: usize) -> Result<(), ReallocationError>
        ensures items { items self.new ≡ items self.old }
        ensures grown { capacity_of (room self.old) < min
            → OnOk result (room self.new ≡ with_reserved (room self.old) min) }
        ensures kept { min ≤ capacity_of (room self.old) → room self.new ≡ room self.old }
        ensures succeeds { min ≤ capacity_of (room self.old) → IsOk result }
        ensures beyond { IsBeyondMaxCapacity result ↔ IsBeyond (room self.old).limit min }
        ensures memory { IsAllocError result → IsTrue takes_memory }
        ensures err { OnErr result (self.new ≡ self.old) };

    /// Appends `value`, and returns its index. If all slots are taken, it returns
    /// `NotWithinCapacityError`, the stack stays as it is, and `value` is dropped.
    fn push_within_capacity(
        &mut self,
        value: Self::Item,
    ) -> Result<NonZeroUsize, NotWithinCapacityError>
        ensures variant { IsOk result ↔ (length (items self.old) < capacity_of (room self.old)) }
        ensures index { IfOk result (λ i. at i ≡ length (items self.old) + 1) }
        ensures items { OnOk result (items self.new ≡ items self.old ++ value ∷ []) }
        ensures room { room self.new ≡ room self.old }
        ensures err { OnErr result (self.new ≡ self.old) };

    /// The item at `i`, for writing. There must be one.
    fn item_mut(&mut self, i: NonZeroUsize) -> &mut Self::Item
        requires { at i ≤ length (items self.old) }
        ensures* writes_back { sem 𝓛 (Lends Self.row Self.Item.row self.entry result
            (λ x. with_items self.old (with_item (items self.old) (at i) x))) }
        ensures value { Some result.now ≡ item_at (items self.old) (at i) };

    /// Removes and returns the last item, if there is one.
    fn pop(&mut self) -> Option<Self::Item>
        ensures items { items self.old ≡ items self.new ++ option_to_list result }
        ensures variant { IsSome result ↔ (0 < length (items self.old)) }
        ensures room { room self.new ≡ room self.old };

    /// Drops every item.
    fn clear(&mut self)
        ensures items { items self.new ≡ [] }
        ensures room { room self.new ≡ room self.old };

    /// The items from index 1 on.
    fn as_slice(&self) -> &[Self::Item]
        ensures { result.now ≡ items self.now };

    /// The items from index 1 on, for writing.
    fn as_mut_slice(&mut self) -> &mut [Self::Item]
        ensures* writes_back { sem 𝓛 (Lends Self.row (Array Self.Item.row 0) self.entry result
            (λ xs. with_items self.old (refill (length (items self.old)) (items self.old) xs))) }
        ensures value { result.now ≡ items self.old };

    // Other items change nothing else.
    ghost items_with_items: { (s : Self) (xs : List Self.Item) → items (with_items s xs) ≡ xs };

    ghost room_with_items: { (s : Self) (xs : List Self.Item) → room (with_items s xs) ≡ room s };

    /// Whether there is no item.
    final fn is_empty(&self) -> bool
        ensures { IsTrue result ↔ (items self.now ≡ []) }
    {
        self.len() == 0
    }

    /// Appends `value`, and returns its index. If all slots are taken, the stack grows: to 4 at
    /// first, then to the double, and never past its greatest capacity.
    ///
    /// It returns `BeyondMaxCapacity` if the length is the greatest capacity, and `AllocError`
    /// if the memory was refused. The stack is then as it was, and `value` is dropped.
    final fn push_reallocating(
        &mut self,
        value: Self::Item,
    ) -> Result<NonZeroUsize, ReallocationError>
        ensures { IsGrowingPush items room takes_memory value self.old result self.new }
    {
        make_room(self)?;
        Ok(push_in_room(self, value))
    }

    /// Appends `value`, and returns its index: another name of `push_reallocating`. If all slots
    /// are taken, the stack grows. It returns `BeyondMaxCapacity` if the length is the greatest
    /// capacity, and `AllocError` if the memory was refused; the stack is then as it was, and
    /// `value` is dropped.
    final fn push(&mut self, value: Self::Item) -> Result<NonZeroUsize, ReallocationError>
        ensures { IsGrowingPush items room takes_memory value self.old result self.new }
    {
        self.push_reallocating(value)
    }

    /// The item at `i`, if there is one.
    final fn get(&self, i: NonZeroUsize) -> Option<&Self::Item>
        ensures { option_copied result ≡ item_at (items self.now) (at i) }
    {
        // The index is compared as it is: the step to a place is then part of the address.
        let items = self.as_slice();
        if i.get() <= items.len() {
            Some(&items[i.get() - 1])
        } else {
            None
        }
    }

    /// The item at `i` for writing, if there is one.
    final fn get_mut(&mut self, i: NonZeroUsize) -> Option<&mut Self::Item>
        ensures* writes_back { sem 𝓛 (LendsIf Self.row Self.Item.row self.entry result
            (λ x. with_items self.old
            (with_item (items self.old) (at i) x)) self.old) }
        ensures variant { IsSome result ↔ (at i ≤ length (items self.old)) }
        ensures value { option_copied_mut result ≡ item_at (items self.old) (at i) }
    {
        if i.get() <= self.len() {
            Some(self.item_mut(i))
        } else {
            None
        }
    }

    /// Exchanges the items at `i` and `j`, which are both there. If they are one, nothing
    /// changes.
    final fn swap(&mut self, i: NonZeroUsize, j: NonZeroUsize)
        requires i_in_bounds { at i ≤ length (items self.old) }
        requires j_in_bounds { at j ≤ length (items self.old) }
        ensures items { items self.new ≡ exchanged (items self.old) (at i) (at j) }
        ensures room { room self.new ≡ room self.old }
    {
        self.as_mut_slice().swap(i.get() - 1, j.get() - 1);
    }

    /// Whether `get_disjoint_mut` can borrow the items at `i` and `j`. It returns
    /// `IndexOutOfBounds` if one of them is not there, and else `OverlappingIndices` if they are
    /// one.
    final fn check_disjoint(
        &self,
        i: NonZeroUsize,
        j: NonZeroUsize,
    ) -> Result<(), GetDisjointMutError>
        ensures ok { OnOk result ((at i ≤ length (items self.now))
            × (at j ≤ length (items self.now))
            × (at i ≢ at j)) }
        ensures out_of_bounds { IsErrOf result GetDisjointMutError.IndexOutOfBounds
            ↔ (length (items self.now) < max (at i) (at j)) }
        ensures overlapping { IsErrOf result GetDisjointMutError.OverlappingIndices
            ↔ ((at i ≡ at j)
            × (at i ≤ length (items self.now))) }
    {
        if i.max(j).get() > self.len() {
            return Err(GetDisjointMutError::IndexOutOfBounds);
        }
        if i == j {
            return Err(GetDisjointMutError::OverlappingIndices);
        }
        Ok(())
    }
}

// The capacity that a growth asks for, as far as a number can say it.
fn doubled(capacity: usize) -> usize
    ensures exact { capacity < 2 ^ 63 → result ≡ max 4 (2 * capacity) }
    ensures great { 2 ^ 63 ≤ capacity → result ≡ 2 ^ 64 - 1 }
{
    capacity.saturating_mul(2).max(4)
}

// Makes room for one item more than there are.
pub(crate) fn make_room<T: Drop, S: NonZeroInxGenericStack<Item = T>>(
    stack: &mut S,
) -> Result<(), ReallocationError>
    ensures free { OnOk result (HasFreeSlot S.items S.room stack.old stack.new) }
    ensures refusal { IsRefusal S.takes_memory (length (S.items stack.old)) (S.room stack.old)
        result }
    ensures err { OnErr result (stack.new ≡ stack.old) }
{
    let capacity = stack.capacity();
    if stack.len() < capacity {
        return Ok(());
    }
    let wanted = doubled(capacity);
    match stack.max_capacity() {
        None => stack.reallocate_min_capacity(wanted),
        Some(limit) if capacity < limit => stack.reallocate_min_capacity(wanted.min(limit)),
        Some(_) => Err(ReallocationError::BeyondMaxCapacity),
    }
}

// Appends `value` to a stack that has room.
pub(crate) fn push_in_room<T: Drop, S: NonZeroInxGenericStack<Item = T>>(
    stack: &mut S,
    value: T,
) -> NonZeroUsize
    requires { length (S.items stack.old) < capacity_of (S.room stack.old) }
    ensures { IsPushed S.items S.room (at result) value (S.room stack.old) stack.old stack.new }
{
    match stack.push_within_capacity(value) {
        Ok(i) => i,
        Err(_) => unreached!(),
    }
}
