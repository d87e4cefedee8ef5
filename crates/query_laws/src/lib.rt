//! Laws of admitted queries: what analysis establishes of the columns that they name, of their aggregates and types, of
//! their left joins, and of their values.
#![tactic(auto)]

mod admitted;
mod binding;
mod left_joins;
mod values;

pub use admitted::law_admitted;
pub use binding::law_bound_in_order;
pub use left_joins::law_left_joins;
pub use values::{law_admitted_values, law_combinations_are_of_rows};
