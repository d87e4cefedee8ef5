//! The checker of trails: says if the steps of a trail lead from the written term of a query to the shape of a plan's code.
#![tactic(auto)]

mod access;
mod admissible;
mod allowance;
mod entries;
mod equalities;
mod judging;
mod laws;
mod limits;
mod methods;
mod replaying;
mod same_term;
mod setting;
mod shapes;
mod sizes;
mod verdict;

pub use access::{bounds, condition_at};
pub use admissible::{is_admissible, some_never_true};
pub use equalities::first_equality;
pub use judging::judge;
pub use laws::{law_accepted_means_same, law_same_term_is_equal};
pub use same_term::is_same_term;
pub use setting::{Setting, inner_count};
pub use shapes::{Wanted, entry_index, inner_steps, is_wanted, left_steps, shape};
pub use verdict::{Reason, Refusal, Verdict};
