//! The value of an expression on a row, for a role.
#![tactic(auto)]

mod evaluating;
mod laws;
mod marking;
mod marks;
mod movable;
mod operators;
mod outcomes;
mod row;

pub use evaluating::eval;
pub use laws::{law_movable_never_faults, law_reads_its_aggregates, law_reads_its_columns};
pub use marking::mark;
pub use marks::Mark;
pub use movable::{eval_movable, is_true_on};
pub use row::Row;
