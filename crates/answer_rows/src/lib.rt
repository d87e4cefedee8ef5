//! The rows of an answer: their values one after the other, in few blocks of memory; and their order.
#![tactic(auto)]

mod cells;
mod comparing;
mod order_laws;
mod packed_keys;
mod row;
mod rows;
mod sorting;

pub use order_laws::law_ordered_rows;
pub use row::AnswerRow;
pub use rows::AnswerRows;
