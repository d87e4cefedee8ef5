//! What a tree is made from.

use memory::Heap;
use plan_texts::{Plan, PlanEntry, PlanStep};

/// A plan, the entries of its query, and the names of their tables.
#[derive(Drop)]
pub(crate) struct Source<'a, A: Heap> {
    /// The entries, in the order of FROM.
    pub entries: &'a [PlanEntry<A>],
    /// The name of the table of each entry.
    pub tables: &'a [&'a str],
    /// The plan.
    pub plan: &'a Plan<A>,
}

/// The scan of a step's entry, or its join to the steps before it.
#[derive(Clone, Copy)]
pub(crate) struct Node<'a> {
    /// True of the scan.
    pub is_scan: bool,
    /// The step.
    pub step: PlanStep,
    /// The steps before it, the last first.
    pub before: &'a [PlanStep],
    /// The number of nodes above it.
    pub depth: u64,
}
