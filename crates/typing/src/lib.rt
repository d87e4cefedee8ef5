//! The checks of queries on aggregates and on types.
#![tactic(auto)]

mod clauses;
mod grouped;
mod offsets;
mod types;

pub use clauses::{clause_error, condition_error, is_grouped};
