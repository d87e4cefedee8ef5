//! Scripts of worked rows for the crates of tests: rows of queries, statements and expressions with what they have to give, and their
//! runs. It has no contracts; a run compares results with expected values.
#![tactic(auto)]

mod rows;
mod scripts;
mod statements;
mod steps;

pub use rows::{Asked, Mismatch, answered};
pub use scripts::run_script;
