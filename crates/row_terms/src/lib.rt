//! Terms of the relational algebra over the entries of a query, and which combinations each means.
#![tactic(auto)]

mod laws;
mod path;
mod query_term;
mod term;

pub use laws::law_written_means;
pub use path::Branch;
pub use query_term::{left_conditions, written};
pub use term::{Term, covers};
