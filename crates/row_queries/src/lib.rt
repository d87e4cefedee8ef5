//! Queries, from tokens: FROM, and the conditions of ON, WHERE and HAVING.
#![tactic(auto)]

mod queries;
mod tables;

pub use queries::query;
pub use tables::{condition, from};
