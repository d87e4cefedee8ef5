//! The trail of a plan: the steps from the written term of a query to the shape of the plan's code.
#![tactic(auto)]

mod arranging;
mod laws;
mod listing;
mod nodes;
mod placing;
mod settling;
mod simplifying;
mod steps;
mod turning;

pub use laws::{
    law_places_each, law_plans_are_accepted, law_shapes_mean_same, law_simplifies_each,
};
pub use listing::{Simplified, simplify};
pub use placing::place;
