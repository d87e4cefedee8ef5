//! The failures of calls: an error of their own, or out of memory.

ghost use Rattle.std.specs.Prelude.{◌≡◌};
ghost use Rattle.memory.specs.declared.failure.Failure.TheVariants.{OutOfMemory};

use std::alloc::{AllocError, AllocFailed};
use std::fmt::Display;
use thiserror::Error;

/// An error of the call's own, or that memory ran out.
#[derive(Clone, Copy, Debug, Drop, Error, PartialEq, Eq)]
#[error_bound(E: Display)]
pub enum Failure<E> {
    /// The call's own error.
    #[error("{0}")]
    Error(E),
    /// A growth of memory was refused.
    #[error("out of memory")]
    OutOfMemory,
}

impl<E> From<AllocError> for Failure<E> {
    ghost from_gives = { λ _ e. e ≡ OutOfMemory };

    fn from(_error: AllocError) -> Failure<E> {
        Failure::OutOfMemory
    }
}

impl<E, T: Drop> From<AllocFailed<T>> for Failure<E> {
    ghost from_gives = { λ _ e. e ≡ OutOfMemory };

    fn from(_error: AllocFailed<T>) -> Failure<E> {
        Failure::OutOfMemory
    }
}
