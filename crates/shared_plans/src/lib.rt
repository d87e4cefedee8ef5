//! Plans that sessions share: the 64 most recently used, by text, role and the numbers of changes and loads before.
#![tactic(auto)]

mod key;
mod plans;

pub use key::PlanKey;
pub use plans::Plans;
