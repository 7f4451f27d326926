//! The form that the stacks on the heap share.
ghost use Rattle.std.specs.Prelude.{◌≡◌, ◌+◌, ◌^◌, ◌<◌, ◌≤◌, ◌↔◌, [], ◌∷◌, ◌++◌, Some, length};
ghost use Rattle.std.specs.Prelude.{IsOk, IsSome, IfOk, IfErr, OnOk, OnErr, max};
ghost use Rattle.std.specs.Borrow.{sem, Lends, Array};
ghost use Rattle.std.specs.Int.NonZero.{non_zero_usize_get as at};
ghost use Rattle.std.specs.List.{refill};
ghost use Rattle.std.specs.Option.{option_to_list};
ghost use Rattle.triple_arena_stack.specs.Stack.{item_at, with_item};
ghost use Rattle.triple_arena_stack.specs.Heap.{with_items};

use proof_marks::unreached;
use std::alloc::{Allocator, Global};
use std::marker::Model;
use std::num::NonZeroUsize;
use triple_arena_ptr::ReallocationError;

/// Items on the heap, in exactly the slots that were reserved for them.
#[derive(Drop)]
pub struct Heap<T, A: Allocator = Global> {
    vec: Vec<T, A>,
}

impl<T, A: Allocator> Model for Heap<T, A> {
    ghost use Rattle.std.specs.Prelude.{vec_capacity};
    ghost use Rattle.triple_arena_stack.specs.Heap.{Heap as Slots, heap_code};

    ghost Value = { Slots T };

    ghost coded = { heap_code T.code };

    // The slots are the memory that is held: a body that holds more, or less, has other slots.
    ghost view = { λ h. record { items = h.vec.items; reserved = vec_capacity h.vec } };
}

impl<T: Drop, A: Allocator> Heap<T, A> {
    ghost use Rattle.triple_arena_stack.specs.contracts.heap.Heap.{the_row};

    /// No items, and no slot reserved.
    pub fn new(alloc: A) -> Self
        ensures items { result.items ≡ [] }
        ensures reserved { result.reserved ≡ 0 }
    {
        Heap {
            vec: Vec::new(alloc),
        }
    }

    /// No items, and so many slots, or the refusal of the memory.
    pub fn with_reserved(alloc: A, reserved: usize) -> Result<Self, ReallocationError>
        ensures items { IfOk result (λ h. h.items ≡ []) }
        ensures reserved { IfOk result (λ h. h.reserved ≡ reserved) }
        ensures succeeds { reserved ≡ 0 → IsOk result }
        ensures refused { IfErr result (λ e. e ≡ ReallocationError.AllocError) }
    {
        match Vec::with_capacity(alloc, reserved) {
            Ok(vec) => Ok(Heap { vec }),
            Err(_) => Err(ReallocationError::AllocError),
        }
    }

    /// The number of slots.
    pub fn reserved(&self) -> usize
        ensures value { result ≡ self.now.reserved }
        ensures holds_all { length self.now.items ≤ result }
        ensures small { result < 2 ^ 63 }
    {
        self.vec.capacity()
    }

    /// The number of items.
    pub fn len(&self) -> usize
        ensures value { result ≡ length self.now.items }
        ensures fits { result ≤ self.now.reserved }
    {
        self.vec.len()
    }

    /// Makes the slots so many if there are fewer, or returns the refusal of the memory.
    pub fn reserve(&mut self, wanted: usize) -> Result<(), ReallocationError>
        ensures items { self.new.items ≡ self.old.items }
        ensures reserved { OnOk result (self.new.reserved ≡ max self.old.reserved wanted) }
        ensures succeeds { wanted ≤ self.old.reserved → IsOk result }
        ensures refused { IfErr result (λ e. e ≡ ReallocationError.AllocError) }
        ensures err { OnErr result (self.new ≡ self.old) }
    {
        if wanted > self.vec.capacity()
            && self.vec.reserve_exact(wanted - self.vec.len()).is_err()
        {
            return Err(ReallocationError::AllocError);
        }
        Ok(())
    }

    /// Appends `value` to a free slot, and returns its index.
    pub fn push(&mut self, value: T) -> NonZeroUsize
        requires { length self.old.items < self.old.reserved }
        ensures index { at result ≡ length self.old.items + 1 }
        ensures items { self.new.items ≡ self.old.items ++ value ∷ [] }
        ensures reserved { self.new.reserved ≡ self.old.reserved }
    {
        self.vec.push_reserved(value);
        match NonZeroUsize::new(self.vec.len()) {
            Some(i) => i,
            None => unreached!(),
        }
    }

    /// The item at `i`, for writing. There must be one.
    pub fn item_mut(&mut self, i: NonZeroUsize) -> &mut T
        requires { at i ≤ length self.old.items }
        ensures* writes_back { sem 𝓛
            (Lends (the_row T.row A.row A.Allocator) T.row self.entry result
            (λ x. with_items self.old (with_item self.old.items (at i) x))) }
        ensures value { Some result.now ≡ item_at self.old.items (at i) }
    {
        &mut self.vec[i.get() - 1]
    }

    /// Removes and returns the last item, if there is one.
    pub fn pop(&mut self) -> Option<T>
        ensures items { self.old.items ≡ self.new.items ++ option_to_list result }
        ensures variant { IsSome result ↔ (0 < length self.old.items) }
        ensures reserved { self.new.reserved ≡ self.old.reserved }
    {
        self.vec.pop()
    }

    /// Drops every item.
    pub fn clear(&mut self)
        ensures { self.new ≡ with_items self.old [] }
    {
        self.vec.clear();
    }

    /// The items.
    pub fn as_slice(&self) -> &[T]
        ensures { result.now ≡ self.now.items }
    {
        self.vec.as_slice()
    }

    /// The items, for writing.
    pub fn as_mut_slice(&mut self) -> &mut [T]
        ensures* writes_back { sem 𝓛
            (Lends (the_row T.row A.row A.Allocator) (Array T.row 0) self.entry result
            (λ xs. with_items self.old (refill (length self.old.items) self.old.items xs))) }
        ensures value { result.now ≡ self.old.items }
    {
        self.vec.as_mut_slice()
    }
}
