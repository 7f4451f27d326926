//! A box as its pointer and its allocator, for handles that keep a pointer alone.
#![tactic(auto)]

ghost use Rattle.std.specs.Prelude.{◌≡◌};
ghost use Rattle.std.specs.Box.Ownership.{box_owns};

use std::alloc::Allocator;
use std::marker::Model;

/// A box taken apart. It owns what the box owned: to let it go without `into_box` leaks that.
pub struct RawBox<T, A: Allocator> {
    pub ptr: *mut T,
    pub alloc: A,
    pub ghost value: { T },
}

impl<T, A: Allocator> Model for RawBox<T, A> {
    ghost also_owns = { λ raw. box_owns (A.dealloc_token raw.alloc) T.row raw.ptr raw.value };
}

impl<T, A: Allocator> RawBox<T, A> {
    /// Takes a box apart, and keeps its value.
    pub fn of(whole: Box<T, A>) -> RawBox<T, A>
    where
        T: Drop,
        ensures { result.value ≡ whole.value }
    {
        let (ptr, alloc) = Box::into_raw_with_allocator(whole);
        RawBox { ptr, alloc }
    }

    /// Puts the box together again, with the value that it had.
    pub fn into_box(self) -> Box<T, A>
        ensures { result.value ≡ self.value }
    {
        let RawBox { ptr, alloc } = self;
        unsafe { Box::from_raw(alloc, ptr) }
    }
}
