//! Columns of values, each with a list of its nulls; rows that are held as columns; and comparisons of whole columns of numbers,
//! 64 values at a time, with the logic of three values on their outcomes.
//!
//! A column grows in place; where memory is refused, it is cut back to what it was. The outcomes of a condition on the values of
//! a column are two masks: one has a bit where the condition is true, the other where it is null. To compare asks for no memory,
//! and does not fail.
#![tactic(auto)]

mod bools;
mod compare;
mod data;
mod ints;
mod literals;
mod logic;
mod masks;
mod pairs;
mod rows;
mod texts;

pub use bools::Bools;
pub use compare::holds;
pub use data::ColumnData;
pub use ints::Ints;
pub use literals::cmp_lit;
pub use logic::{and_masks, not_masks, or_masks};
pub use masks::Mask;
pub use pairs::cmp_cols;
pub use rows::Rows;
pub use texts::Texts;
