//! Grammars as data, and the reading of a text by one token ahead.
#![tactic(auto)]

mod error;

pub use error::ReadError;
