//! Copies of values.

ghost use Rattle.std.specs.Prelude.{◌≡◌, IfOk, map};
ghost use Rattle.value.specs.Datum.{datum};

use crate::types::Value;
use memory::{Heap, Items};
use std::alloc::AllocError;

/// Copies of values, in their order.
pub fn copy_values<A: Heap>(alloc: A, values: &[Value<A>]) -> Result<Items<Value<A>, A>, AllocError>
    ensures { IfOk result (λ copies. map datum copies ≡ map datum values.now) }
{
    let mut copies = Items::new(alloc);
    for value in values {
        copies.push(value.copy(alloc)?)?;
    }
    Ok(copies)
}
