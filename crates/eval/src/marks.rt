//! The outcome of an expression, kept by itself.

use memory::Heap;
use value::{Fault, Value};

/// The value of an expression on a row, in memory of its own, or its fault.
#[derive(Drop)]
pub enum Mark<A: Heap> {
    /// The value.
    Value(Value<A>),
    /// The first fault from left to right.
    Fault(Fault),
}
