//! The errors that stop the program before a reply.

use memory::{Heap, Text};
use tables::LoadError;
use thiserror::Error;
use value::Refusal;

/// An error of a schema text that is refused.
#[derive(Clone, Copy, Debug, Drop, Error, PartialEq, Eq)]
pub enum SchemaError {
    /// The first token that cannot continue the text is at this offset (42601).
    #[error("syntax error at byte {offset}")]
    Syntax { offset: u32 },
    /// A limit is passed (54000).
    #[error("a limit is passed")]
    Limit,
    /// The statement of this number, from 1, is refused.
    #[error("statement {number}: {code}")]
    Statement { number: usize, code: Refusal },
}

/// An error of a store that is not opened.
#[derive(Drop)]
pub enum SetupError<A: Heap> {
    /// The file of this path cannot be read, or is not UTF-8 where it must be.
    Input {
        path: Text<A>,
    },
    /// The schema text is refused.
    Schema(SchemaError),
    /// The rows of this table are refused; the column is that of the error, and empty for an error that has none.
    Data {
        table: Text<A>,
        column: Text<A>,
        error: LoadError,
    },
}
