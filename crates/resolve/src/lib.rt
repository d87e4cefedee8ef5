//! Queries resolved in a catalogue: the entries of FROM, and each name.
#![tactic(auto)]

mod from;
mod laws;
mod order_by;
mod queries;
mod resolved;

pub use from::entries;
pub use laws::law_entries_are_tables;
pub use queries::{bind_condition, bind_query};
pub use resolved::{Bound, bind};
