//! How much the steps of a trail may add to the conditions of a term, and compare of them. No contract speaks of it: past it an audit
//! runs out of memory.

use crate::sizes::add_size;
use algebra::{Rewrite, Step, rewrite_of};
use expr::MovableExpr;
use memory::Heap;
use row_terms::{Branch, Term};
use std::alloc::AllocError;

/// The most bytes of conditions that the steps of a trail may add.
const MOST_ADDED: u64 = 134_217_728;

/// The most bytes of conditions that they may compare, each one that is dropped with each of the run below it.
const MOST_COMPARED: u64 = 17_179_869_184;

// The rewrite of a step, if there is one.
fn rewrite_at<A: Heap>(step: &Step<A>) -> Option<Rewrite> {
    rewrite_of(step.rule, step.is_reverse, step.arguments.as_slice())
}

// True where a rewrite puts one more filter on a term.
fn adds_filter(rewrite: Option<Rewrite>) -> bool {
    matches!(
        rewrite,
        Some(Rewrite::CopyFilter { .. } | Rewrite::AddEquality { .. } | Rewrite::AddConstant { .. })
    )
}

// The node below a node, by a branch.
fn below<'t, A: Heap>(term: &'t Term<A>, branch: Branch) -> Option<&'t Term<A>> {
    match (branch, term) {
        (Branch::First, Term::Guarded { input, .. }) => Some(input),
        (Branch::First, Term::Filtered { input, .. }) => Some(input),
        (Branch::First, Term::Joined { left, .. }) => Some(left),
        (Branch::Second, Term::Joined { right, .. }) => Some(right),
        (Branch::First, Term::LeftJoined { left, .. }) => Some(left),
        (Branch::Second, Term::LeftJoined { right, .. }) => Some(right),
        _ => None,
    }
}

// The node of a path, if there is one.
fn node_at<'t, A: Heap>(term: &'t Term<A>, path: &[Branch]) -> Option<&'t Term<A>> {
    let mut node = term;
    for branch in path {
        node = below(node, *branch)?;
    }
    Some(node)
}

// The bytes of a condition.
fn size<A: Heap>(condition: &MovableExpr<A>) -> u64 {
    let mut bytes = 0;
    add_size(&mut bytes, condition.expression());
    bytes
}

// The number of filters from a node downward without a gap.
fn run_length<A: Heap>(term: &Term<A>) -> u64 {
    match term {
        Term::Filtered { input, .. } => run_length(input).saturating_add(1),
        _ => 0,
    }
}

// The bytes that are compared where the filter at a node is dropped, since it stands in the run below it.
fn compared<A: Heap>(node: &Term<A>) -> u64 {
    match node {
        Term::Filtered { condition, input } => size(condition).saturating_mul(run_length(input)),
        _ => 0,
    }
}

// What is left of a number of bytes, where some are.
fn less(number: u64, bytes: u64) -> Result<u64, AllocError> {
    match number.saturating_sub(bytes) {
        0 => Err(AllocError),
        left => Ok(left),
    }
}

/// What is left to the steps of a trail, in bytes.
#[derive(Clone, Copy)]
pub(crate) struct Allowance {
    added: u64,
    compared: u64,
}

impl Allowance {
    /// The whole.
    pub(crate) fn new() -> Allowance {
        Allowance {
            added: MOST_ADDED,
            compared: MOST_COMPARED,
        }
    }

    /// Takes off what a step on a term compares; it fails where that is more than is left.
    pub(crate) fn compare<A: Heap>(
        &mut self,
        step: &Step<A>,
        term: &Term<A>,
    ) -> Result<(), AllocError> {
        let Some(Rewrite::DropFilter) = rewrite_at(step) else {
            return Ok(());
        };
        let Some(node) = node_at(term, step.path.as_slice()) else {
            return Ok(());
        };
        self.compared = less(self.compared, compared(node))?;
        Ok(())
    }

    /// Takes off what a step added to the term that it made; it fails where that is more than was left.
    pub(crate) fn add<A: Heap>(
        &mut self,
        step: &Step<A>,
        term: &Term<A>,
    ) -> Result<(), AllocError> {
        if !adds_filter(rewrite_at(step)) {
            return Ok(());
        }
        if let Some(Term::Filtered { condition, .. }) = node_at(term, step.path.as_slice()) {
            self.added = less(self.added, size(condition))?;
        }
        Ok(())
    }
}
