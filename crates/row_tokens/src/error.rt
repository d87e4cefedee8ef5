//! Errors of a text that has no tokens.

use thiserror::Error;

/// An error of a text that has no tokens.
#[derive(Clone, Copy, Debug, Error, PartialEq, Eq)]
pub enum TokenError {
    /// The text has a bad token.
    #[error("no token at byte {offset}")]
    Bad {
        /// Its offset.
        offset: u32,
    },
    /// The text has 4294967296 bytes or more.
    #[error("the text has 4294967296 bytes or more")]
    TooLong,
}
