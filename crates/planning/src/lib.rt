//! The plan of a query: its best code, and the trail by which the checker accepts it.
#![tactic(auto)]

mod last_sort;
mod plan;
mod wanted;

pub use plan::{Plan, law_best_is_there, law_least_is_best};
pub use rewrite::{Simplified, law_shapes_mean_same, simplify};
pub use wanted::wanted_column;
