//! The best plan from a state of the search.

use expr::CodeStep;
use memory::{Heap, Items};

/// The steps of a plan from a state on, and what they cost.
#[derive(Drop)]
pub(crate) struct Best<A: Heap> {
    /// The cost.
    pub cost: u128,
    /// The steps.
    pub steps: Items<CodeStep, A>,
}

/// A step and the rest after it, with what they cost.
#[derive(Clone, Copy)]
pub(crate) struct Pick<'t> {
    /// The cost.
    pub cost: u128,
    /// The step.
    pub first: &'t CodeStep,
    /// The steps after it.
    pub rest: &'t [CodeStep],
}
