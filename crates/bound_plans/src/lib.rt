//! Plans of a bound query: its entries as plans name them, its conditions as trees, and the filters and left joins of a plan
//! against its planning list.
#![tactic(auto)]

mod entries;
mod filters;
mod laws;
mod left_joins;
mod naming;
mod nodes;
mod texts;

pub use entries::plan_entries;
pub use filters::are_filters;
pub use laws::{law_columns_are_found, law_marks_are_right, law_names_bind_back};
pub use left_joins::{inner_count, is_of_query, marked_code, named_ons, plain_code};
pub use naming::named;
pub use texts::{read_trail, write_trail};
