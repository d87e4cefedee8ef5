//! The least code of a query by its cost (Selinger et al. 1979, section 5: access path selection for joins).
#![tactic(auto)]

mod best;
mod candidates;
mod few_steps;
mod following;
mod inputs;
mod orders;
mod reaching;
mod searching;

pub use searching::search;
