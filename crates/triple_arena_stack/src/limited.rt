//! A stack on the heap whose limit can be set.
ghost use Rattle.std.specs.Prelude.{◌≤◌, None, length, true, refl};
ghost use Rattle.triple_arena_stack.specs.Limited.{with_items as with_items_of};
ghost use Rattle.triple_arena_stack.specs.Limited.{with_limit as with_limit_of};

use crate::heap::Heap;
use crate::stack::make_room;
use crate::{
    NonZeroInxGenericStack, NonZeroInxGenericStackEntries, NonZeroInxGenericStackPushEntry,
    NonZeroInxLimitedStack, SetMaxCapacity,
};
use std::alloc::{Allocator, Global};
use std::marker::Model;
use std::num::NonZeroUsize;
use triple_arena_ptr::{MaxCapacityReductionError, NotWithinCapacityError, ReallocationError};

/// A stack on the heap with the limit that was set, and none before.
#[derive(Drop)]
pub struct NonZeroInxLimitedVec<T, A: Allocator = Global> {
    heap: Heap<T, A>,
    limit: Option<usize>,
}

impl<T, A: Allocator> Model for NonZeroInxLimitedVec<T, A> {
    ghost use Rattle.std.specs.Prelude.{◌≤◌, length, IfSome};
    ghost use Rattle.triple_arena_stack.specs.Limited.{Limited, limited_code};

    ghost Value = { Limited T };

    ghost coded = { limited_code T.code };

    ghost view = { λ s. record
        { items = s.heap.items; reserved = s.heap.reserved; limit = s.limit } };

    ghost invariant = { λ s. IfSome s.limit (λ l. length s.heap.items ≤ l) };
}

impl<T: Drop, A: Allocator> NonZeroInxGenericStack for NonZeroInxLimitedVec<T, A> {
    type Item = T;

    type Alloc = A;

    ghost items = { λ s. s.items };

    ghost room = { λ s. record { reserved = s.reserved; limit = s.limit } };

    ghost room_at = { λ n. record { reserved = n; limit = None } };

    ghost takes_memory = { true };

    ghost with_items = { with_items_of };

    ghost items_with_items = { λ s xs. refl };

    ghost room_with_items = { λ s xs. refl };

    fn new(alloc: A) -> Self {
        NonZeroInxLimitedVec {
            heap: Heap::new(alloc),
            limit: None,
        }
    }

    fn with_min_capacity(alloc: A, min: usize) -> Result<Self, ReallocationError> {
        let heap = Heap::with_reserved(alloc, min)?;
        Ok(NonZeroInxLimitedVec { heap, limit: None })
    }

    fn capacity(&self) -> usize {
        let reserved = self.heap.reserved();
        match self.limit {
            None => reserved,
            Some(limit) => limit.min(reserved),
        }
    }

    fn max_capacity(&self) -> Option<usize> {
        self.limit
    }

    fn len(&self) -> usize {
        self.heap.len()
    }

    fn reallocate_min_capacity(&mut self, min: usize) -> Result<(), ReallocationError> {
        if let Some(limit) = self.limit
            && min > limit
        {
            return Err(ReallocationError::BeyondMaxCapacity);
        }
        self.heap.reserve(min)
    }

    fn push_within_capacity(&mut self, value: T) -> Result<NonZeroUsize, NotWithinCapacityError> {
        if self.len() < self.capacity() {
            Ok(self.heap.push(value))
        } else {
            Err(NotWithinCapacityError)
        }
    }

    fn item_mut(&mut self, i: NonZeroUsize) -> &mut T {
        self.heap.item_mut(i)
    }

    fn pop(&mut self) -> Option<T> {
        self.heap.pop()
    }

    fn clear(&mut self) {
        self.heap.clear();
    }

    fn as_slice(&self) -> &[T] {
        self.heap.as_slice()
    }

    fn as_mut_slice(&mut self) -> &mut [T] {
        self.heap.as_mut_slice()
    }
}

impl<T: Drop, A: Allocator> NonZeroInxGenericStackEntries for NonZeroInxLimitedVec<T, A> {
    fn entry_push_within_capacity(
        &mut self,
    ) -> Result<NonZeroInxGenericStackPushEntry<'_, T, Self>, NotWithinCapacityError> {
        if self.len() == self.capacity() {
            return Err(NotWithinCapacityError);
        }
        Ok(NonZeroInxGenericStackPushEntry::new(self))
    }

    fn entry_push_reallocating(
        &mut self,
    ) -> Result<NonZeroInxGenericStackPushEntry<'_, T, Self>, ReallocationError> {
        make_room(self)?;
        Ok(NonZeroInxGenericStackPushEntry::new(self))
    }

    fn entry_push(
        &mut self,
    ) -> Result<NonZeroInxGenericStackPushEntry<'_, T, Self>, ReallocationError> {
        self.entry_push_reallocating()
    }
}

impl<T: Drop, A: Allocator> SetMaxCapacity for NonZeroInxLimitedVec<T, A> {
    ghost least_limit = { λ s. length s.items };

    ghost with_limit = { with_limit_of };

    fn set_max_capacity(&mut self, max: usize) -> Result<(), MaxCapacityReductionError> {
        if max < self.heap.len() {
            return Err(MaxCapacityReductionError);
        }
        self.limit = Some(max);
        Ok(())
    }
}

impl<T: Drop, A: Allocator> NonZeroInxLimitedStack for NonZeroInxLimitedVec<T, A> {
    ghost least_limit_is_len = { λ s. refl };

    ghost items_with_limit = { λ s n. refl };

    ghost room_with_limit = { λ s n. refl };
}
