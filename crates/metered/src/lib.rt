//! An allocator for tests: it counts the requests for memory, and refuses one of them.
#![tactic(auto)]

use memory::Heap;
use std::alloc::{AllocError, Allocator, Global};
use std::cell::Cell;

/// An allocator over another one, which refuses one request and passes the others on.
pub struct Metered<B: Allocator> {
    inner: B,
    // The number of requests left up to the refused one, with that one. Past it the count wraps.
    left: Cell<u64>,
}

impl<B: Allocator> Metered<B> {
    /// An allocator that refuses its `nth` request, counted from 1, and no other. With 0 it refuses none.
    pub fn refusing(inner: B, nth: u64) -> Metered<B> {
        Metered {
            inner,
            left: Cell::new(nth),
        }
    }

    /// An allocator that refuses no request.
    pub fn counting(inner: B) -> Metered<B> {
        Metered::refusing(inner, 0)
    }

    /// The number of requests so far, of an allocator that was made with `nth`.
    pub fn requests(&self, nth: u64) -> u64 {
        nth.wrapping_sub(self.left.get())
    }
}

impl<B: Allocator> Drop for Metered<B> {
    fn drop(self) {
        let Self { inner: _, left: _ } = self;
    }
}

// Counts a request, and tests whether it is the one to refuse.
fn refuses(left: &Cell<u64>) -> bool {
    let before = left.get();
    left.set(before.wrapping_sub(1));
    before == 1
}

unsafe impl<B: Allocator> Allocator for Metered<B> {
    ghost dealloc_token = { λ heap ty ptr. B.dealloc_token heap.inner ty ptr };

    fn allocate(&self, size: usize, align: usize) -> Result<*mut u8, AllocError> {
        if refuses(&self.left) {
            return Err(AllocError);
        }
        self.inner.allocate(size, align)
    }

    unsafe fn deallocate(&self, ptr: *mut u8, size: usize, align: usize) {
        self.inner.deallocate(ptr, size, align);
    }
}

impl Heap for &Metered<Global> {
    fn global(&self) -> Global {
        self.inner
    }
}
