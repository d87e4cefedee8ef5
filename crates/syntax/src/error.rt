//! Errors of a text that is refused.

use thiserror::Error;

/// An error of a text that is no query or no schema.
#[derive(Clone, Copy, Debug, Drop, Error, PartialEq, Eq)]
pub enum ParseError {
    /// The first token that cannot continue the text is at this offset (42601).
    #[error("syntax error at byte {offset}")]
    Syntax { offset: u32 },
    /// A limit is passed (54000).
    #[error("a limit is passed")]
    Limit,
}
