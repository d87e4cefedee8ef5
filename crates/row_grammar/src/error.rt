//! The errors of reading.

use thiserror::Error;

/// The errors of reading, by the number of tokens left: the token at which reading stops and all after it.
#[derive(Clone, Copy, Debug, Drop, Error, PartialEq, Eq)]
pub enum ReadError {
    /// The grammar does not go on with that token.
    #[error("syntax error with {left} tokens left")]
    Syntax { left: usize },
    /// A limit is passed at that token.
    #[error("limit passed with {left} tokens left")]
    Limit { left: usize },
}
