//! The rows of a reply as a table in aligned columns, as psql prints it by default.
#![tactic(auto)]

mod answer;
mod cells;
mod lines;
mod widths;
mod writing;

pub use answer::reply_table;
pub use cells::shown;
pub use lines::table_text;
pub use writing::write_table;
