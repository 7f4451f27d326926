//! A stack in an array.
ghost use Rattle.std.specs.Prelude.{Some, false, refl};

use crate::stack::make_room;
use crate::{
    NonZeroInxGenericStack, NonZeroInxGenericStackEntries, NonZeroInxGenericStackPushEntry,
};
use arrayvec::ArrayVec;
use proof_marks::unreached;
use std::num::NonZeroUsize;
use triple_arena_ptr::{NotWithinCapacityError, ReallocationError};

/// A stack of at most `LIMIT` items, which lie in the value itself. It takes no memory.
#[derive(Drop)]
pub struct NonZeroInxArray<T, const LIMIT: usize> {
    array: ArrayVec<T, LIMIT>,
}

impl<T: Default + Drop, const LIMIT: usize> NonZeroInxGenericStack for NonZeroInxArray<T, LIMIT> {
    type Item = T;

    type Alloc = ();

    ghost items = { λ s. s.array.items };

    ghost room = { λ _. record { reserved = LIMIT; limit = Some LIMIT } };

    ghost room_at = { λ _. record { reserved = LIMIT; limit = Some LIMIT } };

    ghost takes_memory = { false };

    ghost with_items = { λ s xs. record { array = record { items = xs } } };

    ghost items_with_items = { λ s xs. refl };

    ghost room_with_items = { λ s xs. refl };

    fn new(_alloc: ()) -> Self {
        NonZeroInxArray {
            array: ArrayVec::new(),
        }
    }

    fn with_min_capacity(_alloc: (), min: usize) -> Result<Self, ReallocationError> {
        if min > LIMIT {
            return Err(ReallocationError::BeyondMaxCapacity);
        }
        Ok(NonZeroInxArray {
            array: ArrayVec::new(),
        })
    }

    fn capacity(&self) -> usize {
        self.array.len() + self.array.remaining_capacity()
    }

    fn max_capacity(&self) -> Option<usize> {
        Some(self.array.capacity())
    }

    fn len(&self) -> usize {
        self.array.len()
    }

    fn reallocate_min_capacity(&mut self, min: usize) -> Result<(), ReallocationError> {
        if min > self.array.capacity() {
            return Err(ReallocationError::BeyondMaxCapacity);
        }
        Ok(())
    }

    fn push_within_capacity(&mut self, value: T) -> Result<NonZeroUsize, NotWithinCapacityError> {
        if self.array.is_full() {
            return Err(NotWithinCapacityError);
        }
        self.array.push(value);
        match NonZeroUsize::new(self.array.len()) {
            Some(i) => Ok(i),
            None => unreached!(),
        }
    }

    fn item_mut(&mut self, i: NonZeroUsize) -> &mut T {
        match self.array.get_mut(i.get() - 1) {
            Some(item) => item,
            None => unreached!(),
        }
    }

    fn pop(&mut self) -> Option<T> {
        self.array.pop()
    }

    fn clear(&mut self) {
        self.array.clear();
    }

    fn as_slice(&self) -> &[T] {
        self.array.as_slice()
    }

    fn as_mut_slice(&mut self) -> &mut [T] {
        self.array.as_mut_slice()
    }
}

impl<T: Default + Drop, const LIMIT: usize> NonZeroInxGenericStackEntries
    for NonZeroInxArray<T, LIMIT> {
    fn entry_push_within_capacity(
        &mut self,
    ) -> Result<NonZeroInxGenericStackPushEntry<'_, T, Self>, NotWithinCapacityError> {
        if self.array.is_full() {
            return Err(NotWithinCapacityError);
        }
        Ok(NonZeroInxGenericStackPushEntry::new(self))
    }

    fn entry_push_reallocating(
        &mut self,
    ) -> Result<NonZeroInxGenericStackPushEntry<'_, T, Self>, ReallocationError> {
        make_room(self)?;
        Ok(NonZeroInxGenericStackPushEntry::new(self))
    }

    fn entry_push(
        &mut self,
    ) -> Result<NonZeroInxGenericStackPushEntry<'_, T, Self>, ReallocationError> {
        self.entry_push_reallocating()
    }
}
