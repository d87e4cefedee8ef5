//! Which role reads which rows and columns of which table and why, and what a change of the schema gives to whom and takes from whom.
#![tactic(auto)]

mod auditing;
mod closed;
mod comparing;
mod counting;
mod gains;
mod names;
mod reading;
mod reasons;
mod report;
mod sights;
mod values;
mod words;

pub use auditing::matrix;
pub use closed::law_nothing_opens;
pub use comparing::changes;
pub use report::{Changes, Pair};
