//! The costs of the codes of a query (Selinger et al. 1979, sections 4 and 5).
#![tactic(auto)]

mod costing;
mod laws;
mod problem;

pub use costing::{access_cost, cost, inner_size, last_sorting, size, step_cost};
pub use laws::law_guards_play_no_part;
pub use problem::{MAX_ENTRIES, Problem};
