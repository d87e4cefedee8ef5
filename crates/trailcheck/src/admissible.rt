//! The codes that a plan may have.

ghost use Rattle.std.specs.Prelude.{◌≡◌, IfOk, []};
ghost use Rattle.std.specs.List.{list_any};
ghost use Rattle.predicates.specs.Equalities as equalities;
ghost use Rattle.expr.specs.View.{code_of};
ghost use Rattle.trailcheck.specs.Admissible as spec;
ghost use Rattle.trailcheck.specs.View.{setting_of};

use crate::access::is_allowed_access;
use crate::entries::{is_among, joins};
use crate::methods::{are_left_steps, is_allowed_method};
use crate::setting::{Setting, inner_count};
use crate::shapes::{entry_index, inner_steps, left_steps};
use expr::{Code, CodeStep, MovableExpr};
use memory::{Heap, Items};
use predicates::is_never_true;
use std::alloc::AllocError;

/// True where some condition is never true.
pub fn some_never_true<A: Heap>(conditions: &[MovableExpr<A>]) -> bool
    ensures { result ≡ list_any equalities.is_never_true conditions.now }
{
    conditions.iter().any(|condition| is_never_true(condition))
}

// True where a condition joins the entry to the placed ones.
fn is_joined<A: Heap>(
    alloc: A,
    setting: &Setting<A>,
    placed: &[usize],
    entry: usize,
) -> Result<bool, AllocError>
    ensures { IfOk result (λ b. b ≡ spec.is_joined (setting_of setting.now) placed.now entry) }
{
    for condition in setting.conditions.as_slice() {
        if joins(alloc, condition, placed, entry)? {
            return Ok(true);
        }
    }
    Ok(false)
}

// True where the entry waits for its place, and a condition joins it to the placed ones.
fn is_waiting<A: Heap>(
    alloc: A,
    setting: &Setting<A>,
    placed: &[usize],
    entry: usize,
) -> Result<bool, AllocError>
    ensures { IfOk result (λ b. b ≡ spec.is_waiting (setting_of setting.now) placed.now entry) }
{
    if is_among(placed, entry) {
        return Ok(false);
    }
    is_joined(alloc, setting, placed, entry)
}

// True where some entry waits that is joined to the placed ones.
fn some_waiting<A: Heap>(
    alloc: A,
    setting: &Setting<A>,
    placed: &[usize],
) -> Result<bool, AllocError>
    ensures { IfOk result (λ b. b ≡ spec.some_waiting (setting_of setting.now) placed.now) }
{
    let count = inner_count(setting);
    for entry in 0..count {
        if is_waiting(alloc, setting, placed, entry)? {
            return Ok(true);
        }
    }
    Ok(false)
}

// True where the entry is joined to the placed ones, or none that waits is.
fn is_connected<A: Heap>(
    alloc: A,
    setting: &Setting<A>,
    placed: &[usize],
    entry: usize,
) -> Result<bool, AllocError>
    ensures { IfOk result (λ b. b ≡ spec.is_connected (setting_of setting.now) placed.now entry) }
{
    if is_joined(alloc, setting, placed, entry)? {
        return Ok(true);
    }
    Ok(!some_waiting(alloc, setting, placed)?)
}

// True where the step's entry is the number of one that is not left joined and has no place yet.
fn is_next<A: Heap>(setting: &Setting<A>, placed: &[usize], step: CodeStep) -> bool
    ensures { result ≡ spec.is_next (setting_of setting.now) placed.now step }
{
    let count = inner_count(setting) as u64;
    1 <= step.entry && step.entry <= count && !is_among(placed, entry_index(step))
}

// True where the step may follow those that placed these entries.
fn is_allowed_step<A: Heap>(
    alloc: A,
    setting: &Setting<A>,
    placed: &[usize],
    step: CodeStep,
) -> Result<bool, AllocError>
    ensures { IfOk result (λ b. b ≡ spec.is_allowed_step (setting_of setting.now) placed.now step) }
{
    if !is_next(setting, placed, step) {
        return Ok(false);
    }
    let entry = entry_index(step);
    if !is_connected(alloc, setting, placed, entry)? {
        return Ok(false);
    }
    Ok(
        is_allowed_access(setting, entry, step.access)
            && is_allowed_method(setting, placed, entry, step.method),
    )
}

// True where each step may follow those before.
fn are_allowed_steps<A: Heap>(
    alloc: A,
    setting: &Setting<A>,
    steps: &[CodeStep],
) -> Result<bool, AllocError>
    ensures { IfOk result (λ b. b ≡ spec.are_allowed_steps (setting_of setting.now) [] steps.now) }
{
    let mut placed = Items::new(alloc);
    for step in steps {
        if !is_allowed_step(alloc, setting, placed.as_slice(), *step)? {
            return Ok(false);
        }
        placed.push(entry_index(*step))?;
    }
    Ok(true)
}

/// True where a plan may have the code: no rows where a condition is never true; else a step for each entry, in an order in
/// which each entry that can be joined to those before comes before the others, each read and joined as it can be, the left joined ones last in the order of FROM.
pub fn is_admissible<A: Heap>(
    alloc: A,
    setting: &Setting<A>,
    code: &Code<A>,
) -> Result<bool, AllocError>
    ensures { IfOk result (λ b. b ≡ spec.is_admissible (setting_of setting.now) (code_of code.now)) }
{
    let is_refuted = some_never_true(setting.conditions.as_slice());
    match code {
        Code::Empty => Ok(is_refuted),
        Code::Steps(steps) => {
            if is_refuted {
                return Ok(false);
            }
            if steps.len() != setting.frame.len() {
                return Ok(false);
            }
            let steps = steps.as_slice();
            if !are_allowed_steps(alloc, setting, inner_steps(setting, steps))? {
                return Ok(false);
            }
            let lefts = setting.lefts.as_slice();
            let tail = left_steps(setting, steps);
            Ok(are_left_steps(inner_count(setting), lefts, tail))
        }
    }
}
