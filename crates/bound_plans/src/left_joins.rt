//! The left joins of a plan against those of its query: the left entries are the last ones.

ghost use Rattle.std.specs.Prelude.{◌≡◌, IfOk, map, suc};
ghost use Rattle.std.specs.List.{list_all};
ghost use Rattle.expr.specs.View.{code_of};
ghost use Rattle.scope.specs.View.{entries_of};
ghost use Rattle.plan_texts.specs.View.{on_of, plan_code_of, plan_of};
ghost use Rattle.bound_plans.specs.LeftJoins as spec;

use crate::filters::{are_filters, is_filter};
use crate::naming::named;
use expr::{Code, CodeStep, MovableExpr};
use memory::{Heap, Items};
use plan_texts::{OnCondition, Plan, PlanCode, PlanStep};
use scope::Entry;
use std::alloc::AllocError;

/// So many entries come before the left ones, of which each has an ON.
pub fn inner_count<A: Heap>(entries: &[Entry<'_, A>], lefts: &[MovableExpr<A>]) -> usize
    ensures { result ≡ spec.inner_count (entries_of entries.now) lefts.now }
{
    entries.len().saturating_sub(lefts.len())
}

// ---- words of a code

// True where a step of a left entry has the word, and one of an inner entry has not.
fn is_marked(inner: usize, step: PlanStep) -> bool
    ensures { result ≡ spec.is_marked inner step }
{
    if step.is_left {
        (inner as u64) < step.step.entry
    } else {
        step.step.entry <= inner as u64
    }
}

// The same of all steps.
fn are_marked_steps(inner: usize, steps: &[PlanStep]) -> bool
    ensures { result ≡ list_all (spec.is_marked inner) steps.now }
{
    for step in steps {
        if !is_marked(inner, *step) {
            return false;
        }
    }
    true
}

// The same of all steps of a code.
fn are_marked<A: Heap>(inner: usize, code: &PlanCode<A>) -> bool
    ensures { result ≡ spec.are_marked inner (plan_code_of code.now) }
{
    match code {
        PlanCode::Empty => true,
        PlanCode::Steps(steps) => are_marked_steps(inner, steps.as_slice()),
    }
}

// Steps without the words.
fn plain_steps<A: Heap>(alloc: A, marked: &[PlanStep]) -> Result<Items<CodeStep, A>, AllocError>
    ensures { IfOk result (λ steps. steps ≡ map (λ s. s.step) marked.now) }
{
    let mut steps = Items::new(alloc);
    for step in marked {
        steps.push(step.step)?;
    }
    Ok(steps)
}

/// The code of a plan without the words of left joins.
pub fn plain_code<A: Heap>(alloc: A, code: &PlanCode<A>) -> Result<Code<A>, AllocError>
    ensures { IfOk result (λ c. code_of c ≡ spec.plain_code (plan_code_of code.now)) }
{
    match code {
        PlanCode::Empty => Ok(Code::Empty),
        PlanCode::Steps(marked) => Ok(Code::Steps(plain_steps(alloc, marked.as_slice())?)),
    }
}

// Steps with the words.
fn marked_steps<A: Heap>(
    alloc: A,
    inner: usize,
    steps: &[CodeStep],
) -> Result<Items<PlanStep, A>, AllocError>
    ensures { IfOk result (λ marked. marked ≡ map (spec.marked_step inner) steps.now) }
{
    let mut marked = Items::new(alloc);
    for step in steps {
        let is_left = (inner as u64) < step.entry;
        marked.push(PlanStep {
            step: *step,
            is_left,
        })?;
    }
    Ok(marked)
}

/// The code with the words of left joins: on each step whose entry comes after so many inner ones.
pub fn marked_code<A: Heap>(
    alloc: A,
    inner: usize,
    code: &Code<A>,
) -> Result<PlanCode<A>, AllocError>
    ensures { IfOk result (λ c. plan_code_of c ≡ spec.marked_code inner (code_of code.now)) }
{
    match code {
        Code::Empty => Ok(PlanCode::Empty),
        Code::Steps(steps) => Ok(PlanCode::Steps(marked_steps(alloc, inner, steps.as_slice())?)),
    }
}

// ---- ONs

// True where the ONs are of the entries after the inner ones.
fn are_numbered<A: Heap>(inner: usize, ons: &[OnCondition<A>]) -> bool
    ensures { result ≡ spec.are_numbered (suc inner) (map on_of ons.now) }
{
    for (index, on) in ons.iter().enumerate() {
        if u128::from(on.entry) != inner as u128 + 1 + index as u128 {
            return false;
        }
    }
    true
}

// True where the ONs, with their columns found, are the conditions, in the same order.
fn are_conditions<A: Heap>(
    alloc: A,
    entries: &[Entry<'_, A>],
    ons: &[OnCondition<A>],
    conditions: &[MovableExpr<A>],
) -> Result<bool, AllocError>
    ensures { IfOk result (λ b. b ≡ spec.are_conditions (entries_of entries.now) (map on_of ons.now) conditions.now) }
{
    if ons.len() != conditions.len() {
        return Ok(false);
    }
    for (on, condition) in ons.iter().zip(conditions.iter()) {
        if !is_filter(alloc, entries, &on.condition, condition)? {
            return Ok(false);
        }
    }
    Ok(true)
}

// True where these are the ONs of the left entries, in their order.
fn are_ons<A: Heap>(
    alloc: A,
    entries: &[Entry<'_, A>],
    ons: &[OnCondition<A>],
    lefts: &[MovableExpr<A>],
) -> Result<bool, AllocError>
    ensures { IfOk result (λ b. b ≡ spec.are_ons (entries_of entries.now) (map on_of ons.now) lefts.now) }
{
    if are_numbered(inner_count(entries, lefts), ons) {
        are_conditions(alloc, entries, ons, lefts)
    } else {
        Ok(false)
    }
}

/// The ONs of the left entries, as a plan has them: each column by the alias of its entry.
pub fn named_ons<A: Heap>(
    alloc: A,
    entries: &[Entry<'_, A>],
    lefts: &[MovableExpr<A>],
) -> Result<Items<OnCondition<A>, A>, AllocError>
    ensures { IfOk result (λ ons. map on_of ons ≡ spec.named_ons (entries_of entries.now) lefts.now) }
{
    let mut ons = Items::new(alloc);
    let inner = inner_count(entries, lefts) as u64;
    for (index, left) in lefts.iter().enumerate() {
        let condition = named(alloc, entries, left.expression())?;
        ons.push(OnCondition {
            entry: inner + 1 + index as u64,
            condition: Box::into_inner(condition),
        })?;
    }
    Ok(ons)
}

// ---- the plan

/// True where the filters of a plan, with their columns found, are the conditions, in the same order, and its ONs and the words of
/// its left joins those of the left entries, which are the last ones.
pub fn is_of_query<A: Heap>(
    alloc: A,
    entries: &[Entry<'_, A>],
    conditions: &[MovableExpr<A>],
    lefts: &[MovableExpr<A>],
    plan: &Plan<A>,
) -> Result<bool, AllocError>
    ensures { IfOk result (λ b. b ≡ spec.is_of_query (entries_of entries.now) conditions.now lefts.now (plan_of plan.now)) }
{
    if !are_filters(alloc, entries, plan.filters.as_slice(), conditions)? {
        return Ok(false);
    }
    if !are_ons(alloc, entries, plan.ons.as_slice(), lefts)? {
        return Ok(false);
    }
    Ok(are_marked(inner_count(entries, lefts), &plan.code))
}
