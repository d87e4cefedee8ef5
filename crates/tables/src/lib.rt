//! Typed tables, read from comma-separated text.
#![tactic(auto)]

use thiserror::Error;

/// The most rows of a table.
pub const MAX_ROWS: u64 = 4_000_000_000;

/// An error of a text that gave no rows. Rows count from 1 after the header, which is row 0, and columns from 0. Of
/// several errors the first row decides, and then the first column.
#[derive(Clone, Copy, Debug, Error, PartialEq, Eq)]
pub enum LoadError {
    /// The first record is not the names of the columns, in order and byte by byte.
    #[error("the first record is not the names of the columns")]
    Header,
    /// The record has another number of fields than the header, or the bytes could not be read.
    #[error("row {row} could not be read, or has another number of fields than the header")]
    Reader {
        /// The row.
        row: u64,
    },
    /// The field is not UTF-8, or spells no value of the column's type, or one out of range.
    #[error("row {row}, column {column}: not a value of the column's type")]
    Cell {
        /// The row.
        row: u64,
        /// The column.
        column: u64,
    },
    /// The field is null, and the column takes none.
    #[error("row {row}, column {column}: null where the column takes none")]
    NotNull {
        /// The row.
        row: u64,
        /// The column.
        column: u64,
    },
    /// There are more rows than the table has room for.
    #[error("too many rows")]
    TooMany,
}

mod load;
mod load_errors;
mod table;

pub use load_errors::{column_name, push_load_error};
pub use table::{Table, law_no_null_text};
