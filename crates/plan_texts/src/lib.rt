//! The texts of plans: their lines, the reading of them, and the laws of both.
#![tactic(auto)]

mod code;
mod draft;
mod laws;
mod line;
mod lines;
mod named_columns;
mod names;
mod parts;
mod plan;
mod reading;
mod steps;
mod writing;

pub use laws::{
    law_plans_read_back, law_read_is_text, law_texts_are_read, law_unreadable_line_is_first,
};
pub use parts::cut;
pub use plan::{OnCondition, Plan, PlanCode, PlanEntry, PlanStep, SortColumn};
pub use reading::read_plan;
pub use writing::write_plan;
