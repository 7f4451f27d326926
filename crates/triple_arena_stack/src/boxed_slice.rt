//! A stack on the heap of one capacity.
ghost use Rattle.std.specs.Prelude.{Some, true, refl};
ghost use Rattle.triple_arena_stack.specs.Heap.{with_items as with_items_of};

use crate::heap::Heap;
use crate::stack::make_room;
use crate::{
    NonZeroInxGenericStack, NonZeroInxGenericStackEntries, NonZeroInxGenericStackPushEntry,
};
use std::alloc::{Allocator, Global};
use std::num::NonZeroUsize;
use triple_arena_ptr::{NotWithinCapacityError, ReallocationError};

/// A stack on the heap whose limit is the capacity that it is made with.
#[derive(Drop)]
pub struct NonZeroInxBoxedSlice<T, A: Allocator = Global> {
    heap: Heap<T, A>,
}

impl<T: Drop, A: Allocator> NonZeroInxGenericStack for NonZeroInxBoxedSlice<T, A> {
    type Item = T;

    type Alloc = A;

    ghost items = { λ s. s.heap.items };

    ghost room = { λ s. record { reserved = s.heap.reserved; limit = Some s.heap.reserved } };

    ghost room_at = { λ n. record { reserved = n; limit = Some n } };

    ghost takes_memory = { true };

    ghost with_items = { λ s xs. record { heap = with_items_of s.heap xs } };

    ghost items_with_items = { λ s xs. refl };

    ghost room_with_items = { λ s xs. refl };

    fn new(alloc: A) -> Self {
        NonZeroInxBoxedSlice {
            heap: Heap::new(alloc),
        }
    }

    fn with_min_capacity(alloc: A, min: usize) -> Result<Self, ReallocationError> {
        let heap = Heap::with_reserved(alloc, min)?;
        Ok(NonZeroInxBoxedSlice { heap })
    }

    fn capacity(&self) -> usize {
        self.heap.reserved()
    }

    fn max_capacity(&self) -> Option<usize> {
        Some(self.heap.reserved())
    }

    fn len(&self) -> usize {
        self.heap.len()
    }

    fn reallocate_min_capacity(&mut self, min: usize) -> Result<(), ReallocationError> {
        if min > self.heap.reserved() {
            return Err(ReallocationError::BeyondMaxCapacity);
        }
        Ok(())
    }

    fn push_within_capacity(&mut self, value: T) -> Result<NonZeroUsize, NotWithinCapacityError> {
        if self.heap.len() < self.heap.reserved() {
            Ok(self.heap.push(value))
        } else {
            Err(NotWithinCapacityError)
        }
    }

    fn item_mut(&mut self, i: NonZeroUsize) -> &mut T {
        self.heap.item_mut(i)
    }

    fn pop(&mut self) -> Option<T> {
        self.heap.pop()
    }

    fn clear(&mut self) {
        self.heap.clear();
    }

    fn as_slice(&self) -> &[T] {
        self.heap.as_slice()
    }

    fn as_mut_slice(&mut self) -> &mut [T] {
        self.heap.as_mut_slice()
    }
}

impl<T: Drop, A: Allocator> NonZeroInxGenericStackEntries for NonZeroInxBoxedSlice<T, A> {
    fn entry_push_within_capacity(
        &mut self,
    ) -> Result<NonZeroInxGenericStackPushEntry<'_, T, Self>, NotWithinCapacityError> {
        if self.heap.len() == self.heap.reserved() {
            return Err(NotWithinCapacityError);
        }
        Ok(NonZeroInxGenericStackPushEntry::new(self))
    }

    fn entry_push_reallocating(
        &mut self,
    ) -> Result<NonZeroInxGenericStackPushEntry<'_, T, Self>, ReallocationError> {
        make_room(self)?;
        Ok(NonZeroInxGenericStackPushEntry::new(self))
    }

    fn entry_push(
        &mut self,
    ) -> Result<NonZeroInxGenericStackPushEntry<'_, T, Self>, ReallocationError> {
        self.entry_push_reallocating()
    }
}
