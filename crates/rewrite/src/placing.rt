//! The steps that place the conditions of a planning list.

ghost use Rattle.std.specs.Prelude.{◌≡◌, ◌++◌, IfOk, OnOk, length, map};
ghost use Rattle.expr.specs.View.{code_of};
ghost use Rattle.row_terms.specs.View.{term_of};
ghost use Rattle.algebra.specs.View.{step_of};
ghost use Rattle.trailcheck.specs.View.{setting_of};
ghost use Rattle.expr.specs.Codes as codes;
ghost use Rattle.rewrite.specs.Placing as spec;

use crate::arranging::{all_opened, code_entries, push_arranging};
use crate::settling::settle;
use crate::steps::{path_below, push_step};
use algebra::Step;
use expr::{Code, CodeStep, MovableExpr};
use memory::{Heap, Items};
use predicates::is_never_true;
use row_terms::Term;
use std::alloc::AllocError;
use trailcheck::{Setting, inner_steps, left_steps};

// Adds the steps from the term under so many filters down to the empty term.
fn push_clearing<A: Heap>(
    alloc: A,
    trail: &mut Items<Step<A>, A>,
    filters: usize,
) -> Result<(), AllocError>
    ensures { OnOk result (map step_of trail.new ≡ map step_of trail.old ++ spec.clearing filters) }
{
    if filters == 0 {
        return Ok(());
    }
    let path = path_below(alloc, filters - 1)?;
    push_step(alloc, trail, path.as_slice(), 16)?;
    push_clearing(alloc, trail, filters - 1)
}

// Adds the steps to the empty term by the first condition that is never true.
fn push_emptying<A: Heap>(
    alloc: A,
    trail: &mut Items<Step<A>, A>,
    conditions: &[MovableExpr<A>],
) -> Result<(), AllocError>
    ensures { OnOk result (map step_of trail.new ≡ map step_of trail.old ++ spec.emptying conditions.now) }
{
    let [condition, rest @ ..] = conditions else {
        return Ok(());
    };
    if !is_never_true(condition) {
        return push_emptying(alloc, trail, rest);
    }
    let path = path_below(alloc, rest.len())?;
    push_step(alloc, trail, path.as_slice(), 15)?;
    push_clearing(alloc, trail, rest.len())
}

// Adds the steps that settle the conditions, the first innermost, in the term, where there are so many entries.
fn settle_all<A: Heap>(
    alloc: A,
    count: usize,
    trail: &mut Items<Step<A>, A>,
    conditions: &[MovableExpr<A>],
    term: Term<A>,
) -> Result<(), AllocError>
    ensures { OnOk result (map step_of trail.new ≡ map step_of trail.old ++ spec.settling_all count conditions.now (term_of term)) }
{
    let [condition, rest @ ..] = conditions else {
        return Ok(());
    };
    let path = path_below(alloc, rest.len())?;
    let condition = condition.copy(alloc)?;
    let term = settle(alloc, count, trail, path.as_slice(), condition, term)?;
    settle_all(alloc, count, trail, rest, term)
}

// Adds the steps to the shape of a code of these steps.
fn push_placing<A: Heap>(
    alloc: A,
    setting: &Setting<A>,
    trail: &mut Items<Step<A>, A>,
    steps: &[CodeStep],
) -> Result<(), AllocError>
    ensures { OnOk result (map step_of trail.new ≡ map step_of trail.old ++ spec.placing (setting_of setting.now) (codes.Steps steps.now)) }
{
    let path = path_below(alloc, setting.conditions.len())?;
    let lefts = code_entries(alloc, left_steps(setting, steps))?;
    let inner = code_entries(alloc, inner_steps(setting, steps))?;
    push_arranging(
        alloc,
        setting,
        trail,
        path.as_slice(),
        lefts.as_slice(),
        inner.as_slice(),
    )?;
    let term = all_opened(alloc, setting, inner.as_slice())?;
    let count = setting.frame.len();
    settle_all(alloc, count, trail, setting.conditions.as_slice(), term)
}

/// The trail, with the steps from the conditions of the planning list over the joins in the order of FROM to the shape of the
/// code; they lead there if the code is admissible (`law_places_each`).
pub fn place<A: Heap>(
    alloc: A,
    setting: &Setting<A>,
    trail: Items<Step<A>, A>,
    code: &Code<A>,
) -> Result<Items<Step<A>, A>, AllocError>
    ensures { IfOk result (λ steps. map step_of steps ≡ map step_of trail ++ spec.placing (setting_of setting.now) (code_of code.now)) }
{
    let mut trail = trail;
    match code {
        Code::Empty => push_emptying(alloc, &mut trail, setting.conditions.as_slice())?,
        Code::Steps(steps) => push_placing(alloc, setting, &mut trail, steps.as_slice())?,
    }
    Ok(trail)
}
