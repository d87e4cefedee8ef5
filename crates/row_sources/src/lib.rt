//! Sources of combinations: the rows of an entry, as they stand or by an index, and lists in memory.
#![tactic(auto)]

mod entry_rows;
mod index_scan;
mod lane_rows;
mod listed;
mod range;
mod rows;
mod scan;
mod source;

pub use entry_rows::{EntryRows, all_true};
pub use index_scan::IndexScan;
pub use lane_rows::LaneRows;
pub use listed::Listed;
pub use range::{Bound, range_of};
pub use rows::Rows;
pub use scan::FullScan;
pub use source::{Source, collected};
