//! The answer over combinations that come one after the other: the stages of a query, their rows in order and cut by the limit,
//! and the laws of it.
#![tactic(auto)]

mod answering;
mod conditions;
mod finishing;
mod gathered;
mod grouped;
mod laws;
mod outcomes;
mod taken_rows;
mod ungrouped;

pub use answering::Answering;
pub use finishing::{finish, finish_marked};
pub use laws::{law_dropped_rows, law_hidden_rows, law_order_of_combinations};
