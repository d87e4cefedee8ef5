//! Values: their order and comparison, logic of three values, exact arithmetic, their texts and casts; operators; the codes of
//! faults and refusals; and the limits of a query.
#![tactic(auto)]

mod arith;
mod casting;
mod column;
mod copies;
mod digits;
mod faults;
mod limits;
mod numbers;
mod operators;
mod order;
mod reading;
mod refusal;
mod truth;
mod types;
mod writing;

pub use arith::{add, div, mul, neg, rem, sub};
pub use casting::cast;
pub use column::{Column, copy_columns};
pub use copies::copy_values;
pub use faults::{Fault, law_kinds_in_order};
pub use limits::{MOST_CONJUNCTS, MOST_ENTRIES};
pub use numbers::{read_number, read_wide_number};
pub use operators::{Aggregate, Arithmetic, Comparison};
pub use order::{Truth, cmp_rows, cmp_values, eq3, law_sorted_rows, lt3};
pub use reading::{law_one_spelling, read_bigint, read_value};
pub use refusal::Refusal;
pub use truth::{and3, as_condition, not3, of_truth, or3};
pub use types::{ColType, FaultKind, Lent, Val, Value};
pub use writing::{law_texts_read_back, text_of};
