//! Allocators.

ghost use Rattle.std.specs.Prelude.{◌≡◌, IfOk};

use std::alloc::{AllocError, Allocator, Global};

/// An allocator whose handle is copied, and which names the system's own for libraries that take no other.
pub trait Heap: Allocator + Copy {
    /// The system's allocator.
    fn global(&self) -> Global;
}

impl Heap for Global {
    fn global(&self) -> Global {
        *self
    }
}

/// The value in a box. Where memory is refused, the value is dropped here and not in the caller, whose proof would
/// contain the whole drop of a tree.
pub fn boxed<T: Drop, A: Heap>(alloc: A, value: T) -> Result<Box<T, A>, AllocError>
    ensures { IfOk result (λ b. b.value ≡ value) }
{
    Ok(Box::new(alloc, value)?)
}
