//! Laws of the texts of plans: which conditions have a text that is read back.
#![tactic(auto)]

mod laws;

pub use laws::{law_admitted_are_said, law_planning_lists_are_said};
