//! Access paths: how the rows of one entry are read, as they stand or by an index.
#![tactic(auto)]

mod bounds;
mod entry_columns;
mod indexed;
mod reading;
mod source;

pub use bounds::side_of;
pub use entry_columns::{EntryColumn, cell_of};
pub use indexed::numbers_in;
pub use reading::{column_of, numbers_of};
pub use source::{EntrySource, entry_rows, source_of};
