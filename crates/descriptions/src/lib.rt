//! The description of a query: the name and the type of each output column, before any row is read.
#![tactic(auto)]

mod describing;
mod laws;
mod types;

pub use describing::describe;
pub use laws::law_described_types;
