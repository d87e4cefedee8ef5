//! Rewrite rules of terms: steps that keep the bag of combinations which a term means. The conditions that a query is planned
//! with.
#![tactic(auto)]

mod applying;
mod empty_terms;
mod equalities;
mod guards;
mod joins;
mod laws;
mod left_joins;
mod one_filter;
mod planning;
mod runs;
mod step;
mod turning;
mod two_filters;

pub use applying::apply;
pub use laws::law_steps_keep;
pub use planning::{
    all_parts, all_simplified, consequence, copies, is_too_long, push_all_parts, push_parts,
    stands_in, written_conditions,
};
pub use runs::{all_up_to, reads_only};
pub use step::{Reason, Rewrite, Step, rewrite_of};
pub use turning::first_turning;
