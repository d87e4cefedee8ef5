//! Which rows of tables roles see, and the statistics of these rows, kept so that they are not found out anew for each query.
#![tactic(auto)]

mod seen;
mod table;

pub use seen::{MOST_SEEN, Seen};
pub use table::RoleTable;
