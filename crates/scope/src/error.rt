//! Errors of names that do not resolve.

use thiserror::Error;
use value::Refusal;

/// The error of a name that does not resolve.
#[derive(Clone, Copy, Debug, Error, PartialEq, Eq)]
#[error("{code} at byte {offset}")]
pub struct BindError {
    /// The refusal.
    pub code: Refusal,
    /// Its offset.
    pub offset: u32,
}
