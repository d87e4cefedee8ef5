//! What is decided of a role's text before any row is read: its query is bound, or it is refused or denied.
#![tactic(auto)]

mod analyzing;

pub use analyzing::{admit, read_query, refusal};
