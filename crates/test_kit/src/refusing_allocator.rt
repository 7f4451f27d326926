//! An allocator for tests, which refuses one request.

ghost use Rattle.std.specs.Prelude.{◌<◌};

use std::alloc::{AllocError, Allocator};
use std::cell::Cell;

/// Passes requests on to `inner`, and refuses one of them. A `&` to it is an allocator too, and
/// `Copy`.
pub struct RefusingAllocator<B: Allocator> {
    inner: B,
    // Counts down at each request. The one that finds 1 is refused.
    left: Cell<u64>,
}

impl<B: Allocator> RefusingAllocator<B> {
    /// Refuses the `nth` request, counted from 1, and passes on all others.
    pub fn new(inner: B, nth: u64) -> Self
        requires { 0 < nth }
    {
        RefusingAllocator {
            inner,
            left: Cell::new(nth),
        }
    }

    /// Whether that request has come.
    pub fn has_refused(&self) -> bool {
        self.left.get() == 0
    }
}

impl<B: Allocator> Drop for RefusingAllocator<B> {
    fn drop(self) {
        let Self { inner: _, left: _ } = self;
    }
}

// Counts a request, and says whether it is the one to refuse.
fn refuses(left: &Cell<u64>) -> bool {
    let before = left.get();
    left.set(before.saturating_sub(1));
    before == 1
}

unsafe impl<B: Allocator> Allocator for RefusingAllocator<B> {
    ghost dealloc_token = { λ heap ty ptr. B.dealloc_token heap.inner ty ptr };

    fn allocate(&self, size: usize, align: usize) -> Result<*mut u8, AllocError> {
        if refuses(&self.left) {
            return Err(AllocError);
        }
        self.inner.allocate(size, align)
    }

    unsafe fn deallocate(&self, ptr: *mut u8, size: usize, align: usize) {
        self.inner.deallocate(ptr, size, align);
    }
}
