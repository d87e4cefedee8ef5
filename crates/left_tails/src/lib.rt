//! The sizes and costs of left joined entries, which are the last of FROM, and the best steps of them: these depend on sizes
//! alone, and not on the steps before.
#![tactic(auto)]

mod choosing;
mod costing;
mod sizes;

pub use choosing::best_tail;
pub use costing::tail_cost;
pub use sizes::{rows_of, size_with_lefts};
