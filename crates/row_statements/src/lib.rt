//! Schema statements, from tokens.
#![tactic(auto)]

mod creating;
mod statements;

pub use statements::{schema, statement};
