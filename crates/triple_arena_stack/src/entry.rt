//! Room for one item more, which tells its index before the item is there.
ghost use Rattle.std.specs.Prelude.{◌≡◌, ℕ, ◌+◌, ◌<◌, ◌↔◌, length, IsOk, IfOk};
ghost use Rattle.std.specs.Borrow.{sem, RestsIfErr};
ghost use Rattle.std.specs.Int.NonZero.{non_zero_usize_get as at};
ghost use Rattle.triple_arena_stack.specs.Entry.{entry_stack, entry_lender};
ghost use Rattle.triple_arena_stack.specs.Push.{IsRefusal, IsPushed, HasFreeSlot};
ghost use Rattle.triple_arena_stack.specs.Room.{capacity as capacity_of};

use crate::NonZeroInxGenericStack;
use crate::stack::push_in_room;
use proof_marks::{recall, unreached};
use std::marker::PhantomData;
use std::num::NonZeroUsize;
use triple_arena_ptr::{NotWithinCapacityError, ReallocationError};

/// The calls of a stack that return an entry, which is room for one item more. Each stack has them.
pub trait NonZeroInxGenericStackEntries: NonZeroInxGenericStack {
    /// Room for one item more. If all slots are taken, it returns `NotWithinCapacityError`, and the
    /// stack stays as it is.
    fn entry_push_within_capacity(
        &mut self,
    ) -> Result<NonZeroInxGenericStackPushEntry<'_, Self::Item, Self>, NotWithinCapacityError>
        ensures variant { IsOk result
            ↔ (length (Self.items self.old) < capacity_of (Self.room self.old)) }
        ensures same_reference { IfOk result (λ e. entry_lender e ≡ self.entry.ghost_name) }
        ensures stack { IfOk result (λ e. entry_stack e ≡ self.old) }
        ensures* err { sem 𝓛 (RestsIfErr Self.row self.entry entry_lender result
            (λ s. s ≡ self.old)) };

    /// Room for one item more. If all slots are taken, the stack grows: to 4 at first, then to the
    /// double, and never past its greatest capacity. It returns `BeyondMaxCapacity` if the length
    /// is the greatest capacity, and `AllocError` if the memory was refused. An error leaves the
    /// stack as it was.
    fn entry_push_reallocating(
        &mut self,
    ) -> Result<NonZeroInxGenericStackPushEntry<'_, Self::Item, Self>, ReallocationError>
        ensures same_reference { IfOk result (λ e. entry_lender e ≡ self.entry.ghost_name) }
        ensures free { IfOk result
            (λ e. HasFreeSlot Self.items Self.room self.old (entry_stack e)) }
        ensures refusal { IsRefusal Self.takes_memory (length (Self.items self.old))
            (Self.room self.old) result }
        ensures* err { sem 𝓛 (RestsIfErr Self.row self.entry entry_lender result
            (λ s. s ≡ self.old)) };

    /// Room for one item more: another name of `entry_push_reallocating`. If all slots are taken,
    /// the stack grows. It returns `BeyondMaxCapacity` if the length is the greatest capacity, and
    /// `AllocError` if the memory was refused. An error leaves the stack as it was.
    fn entry_push(
        &mut self,
    ) -> Result<NonZeroInxGenericStackPushEntry<'_, Self::Item, Self>, ReallocationError>
        ensures same_reference { IfOk result (λ e. entry_lender e ≡ self.entry.ghost_name) }
        ensures free { IfOk result
            (λ e. HasFreeSlot Self.items Self.room self.old (entry_stack e)) }
        ensures refusal { IsRefusal Self.takes_memory (length (Self.items self.old))
            (Self.room self.old) result }
        ensures* err { sem 𝓛 (RestsIfErr Self.row self.entry entry_lender result
            (λ s. s ≡ self.old)) };
}

/// The calls of an entry, which is room for one item more.
pub trait NonZeroInxGenericStackPushEntryTrait<T> {
    // The index that the item gets.
    ghost index: { Self → ℕ };

    // There is a free slot, as when the entry was made.
    ghost has_room: { Self → Type 0 };

    /// The index that the item gets.
    fn inx(&self) -> NonZeroUsize
        requires { has_room self.now }
        ensures { at result ≡ index self.now };

    /// Appends `value`, and returns its index. It takes no memory and cannot fail.
    fn push(self, value: T) -> NonZeroUsize
        requires { has_room self }
        ensures { at result ≡ index self };
}

/// Room for one item more in a stack `S`. Dropped unused, it leaves the stack as it is.
#[derive(Drop)]
pub struct NonZeroInxGenericStackPushEntry<'a, T, S> {
    stack: &'a mut S,
    of: PhantomData<T>,
}

impl<'a, T, S> NonZeroInxGenericStackPushEntry<'a, T, S> {
    // The entry of this stack.
    pub(crate) fn new(stack: &'a mut S) -> Self
        ensures same_reference { entry_lender result ≡ stack.entry.ghost_name }
        ensures stack { entry_stack result ≡ stack.old }
    {
        NonZeroInxGenericStackPushEntry {
            stack,
            of: PhantomData,
        }
    }
}

impl<'a, T: Drop, S: NonZeroInxGenericStack<Item = T>> NonZeroInxGenericStackPushEntryTrait<T>
    for NonZeroInxGenericStackPushEntry<'a, T, S> {
    ghost index = { λ e. length (S.items (entry_stack e)) + 1 };

    ghost has_room = { λ e. length (S.items (entry_stack e))
        < capacity_of (S.room (entry_stack e)) };

    fn inx(&self) -> NonZeroUsize {
        // The length is below the capacity, which is a number.
        recall!(self.stack.capacity());
        match NonZeroUsize::new(self.stack.len() + 1) {
            Some(i) => i,
            None => unreached!(),
        }
    }

    fn push(self, value: T) -> NonZeroUsize
        requires { length (S.items (entry_stack self)) < capacity_of (S.room (entry_stack self)) }
        // `self.exit.0.now` is the stack as it is left.
        ensures { IsPushed S.items S.room (at result) value
            (S.room (entry_stack self.entry)) (entry_stack self.entry) self.exit.0.now }
    {
        let NonZeroInxGenericStackPushEntry { stack, of: _ } = self;
        push_in_room(stack, value)
    }
}
