//! The steps that simplify conditions, part them, add what follows from them, and drop those that repeat one.

ghost use Rattle.std.specs.Prelude.{◌≡◌, ◌++◌, ◌-◌, [], ◌∷◌, IfOk, OnOk, length, map, if◌then◌else◌};
ghost use Rattle.algebra.specs.PlanningList as planning;
ghost use Rattle.algebra.specs.Runs.{stands_in};
ghost use Rattle.algebra.specs.View.{step_of};
ghost use Rattle.rewrite.specs.Simplifying as spec;
ghost use Rattle.rewrite.specs.Trails.{at_root, at_root_with, below_filters};

use crate::steps::{self, path_below};
use algebra::Step;
use expr::MovableExpr;
use memory::{Heap, Items};
use predicates::conjunct_count;
use std::alloc::AllocError;

/// Conditions that never fault.
type Conditions<A> = Items<MovableExpr<A>, A>;

/// Steps, the first one first.
type Trail<A> = Items<Step<A>, A>;

pub(crate) const SPLIT_FILTER: u64 = 1;

const DROP_FILTER: u64 = 10;

const ADD_CONSTANT: u64 = 12;

const CARRY_NOT: u64 = 13;

const FOLD_LITERALS: u64 = 14;

// Adds a step without arguments below so many filters.
fn push_step<A: Heap>(
    alloc: A,
    trail: &mut Trail<A>,
    depth: usize,
    rule: u64,
) -> Result<(), AllocError>
    ensures { OnOk result (map step_of trail.new ≡ map step_of trail.old ++ below_filters depth (at_root rule ∷ [])) }
{
    let path = path_below(alloc, depth)?;
    steps::push_step(alloc, trail, path.as_slice(), rule)
}

/// Adds the same step several times.
pub(crate) fn push_repeated<A: Heap>(
    alloc: A,
    trail: &mut Trail<A>,
    depth: usize,
    count: usize,
    rule: u64,
) -> Result<(), AllocError>
    ensures { OnOk result (map step_of trail.new ≡ map step_of trail.old ++ below_filters depth (spec.repeated count (at_root rule))) }
{
    for _ in 0..count {
        push_step(alloc, trail, depth, rule)?;
    }
    Ok(())
}

// ---- each condition alone

/// Adds the steps that carry NOT inward and fold the literals of each condition.
pub(crate) fn push_simplifying<A: Heap>(
    alloc: A,
    trail: &mut Trail<A>,
    conditions: &[MovableExpr<A>],
) -> Result<(), AllocError>
    ensures { OnOk result (map step_of trail.new ≡ map step_of trail.old ++ spec.simplifying_each conditions.now) }
{
    let mut depth = conditions.len();
    for _ in conditions {
        depth -= 1;
        push_step(alloc, trail, depth, CARRY_NOT)?;
        push_step(alloc, trail, depth, FOLD_LITERALS)?;
    }
    Ok(())
}

/// The number of the steps that part the condition.
pub(crate) fn split_count<A: Heap>(condition: &MovableExpr<A>) -> usize
    ensures { result ≡ length (planning.parts_of condition.now) - 1 }
{
    conjunct_count(condition).saturating_sub(1)
}

/// Adds the steps that part each condition.
pub(crate) fn push_parting<A: Heap>(
    alloc: A,
    trail: &mut Trail<A>,
    conditions: &[MovableExpr<A>],
) -> Result<(), AllocError>
    ensures { OnOk result (map step_of trail.new ≡ map step_of trail.old ++ spec.parting_each conditions.now) }
{
    let mut depth = conditions.len();
    for condition in conditions {
        depth -= 1;
        push_repeated(alloc, trail, depth, split_count(condition), SPLIT_FILTER)?;
    }
    Ok(())
}

// ---- consequences

// The number of a filter in the run from the top, of that index from below.
fn from_top<A: Heap>(known: &[MovableExpr<A>], index: usize) -> u64
    ensures { result ≡ spec.from_top known.now index }
{
    known.len().saturating_sub(1).saturating_sub(index) as u64
}

// Adds the step that adds a condition which follows from those of two indices.
fn push_constant<A: Heap>(
    alloc: A,
    trail: &mut Trail<A>,
    known: &[MovableExpr<A>],
    i: usize,
    j: usize,
) -> Result<(), AllocError>
    ensures { OnOk result (map step_of trail.new ≡ map step_of trail.old ++ at_root_with 12 (spec.from_top known.now i ∷ spec.from_top known.now j ∷ []) ∷ []) }
{
    let mut arguments = Items::new(alloc);
    arguments.push(from_top(known, i))?;
    arguments.push(from_top(known, j))?;
    let path = Items::new(alloc);
    trail.push(Step {
        rule: ADD_CONSTANT,
        is_reverse: false,
        path,
        arguments,
    })
}

// Adds a condition that follows from those of two indices to the known ones, and the step that adds it, unless it is known.
fn push_consequence<A: Heap>(
    alloc: A,
    trail: &mut Trail<A>,
    known: &mut Conditions<A>,
    condition: Option<MovableExpr<A>>,
    i: usize,
    j: usize,
) -> Result<(), AllocError>
    ensures trail { OnOk result (map step_of trail.new ≡ map step_of trail.old ++ spec.adding known.old condition i j) }
    ensures known { OnOk result (known.new ≡ planning.with_any known.old condition) }
{
    let Some(condition) = condition else {
        return Ok(());
    };
    if algebra::stands_in(&condition, known.as_slice()) {
        return Ok(());
    }
    push_constant(alloc, trail, known.as_slice(), i, j)?;
    known.push(condition)
}

// Adds the consequences of `p`, of that index, and each of the others to the known conditions, and the steps that add them.
fn push_adding_each<A: Heap>(
    alloc: A,
    trail: &mut Trail<A>,
    known: &mut Conditions<A>,
    i: usize,
    p: &MovableExpr<A>,
    others: &[MovableExpr<A>],
) -> Result<(), AllocError>
    ensures trail { OnOk result (map step_of trail.new ≡ map step_of trail.old ++ spec.adding_each known.old i p.now 0 others.now) }
    ensures known { OnOk result (known.new ≡ planning.with_each known.old p.now others.now) }
{
    for (j, q) in others.iter().enumerate() {
        let condition = algebra::consequence(alloc, p, q)?;
        push_consequence(alloc, trail, known, condition, i, j)?;
    }
    Ok(())
}

/// The conditions and the consequences of each two of them; adds the steps that add these.
pub(crate) fn push_adding_all<A: Heap>(
    alloc: A,
    trail: &mut Trail<A>,
    conditions: &[MovableExpr<A>],
) -> Result<Conditions<A>, AllocError>
    ensures trail { OnOk result (map step_of trail.new ≡ map step_of trail.old ++ spec.adding_all conditions.now 0 conditions.now conditions.now) }
    ensures all { IfOk result (λ l. l ≡ planning.with_consequences conditions.now) }
{
    let mut known = algebra::copies(alloc, conditions)?;
    for (i, p) in conditions.iter().enumerate() {
        push_adding_each(alloc, trail, &mut known, i, p, conditions)?;
    }
    Ok(known)
}

// ---- repetitions

// Adds a condition to the known ones, or the step that drops it, where it repeats one of them.
fn push_dropping<A: Heap>(
    alloc: A,
    trail: &mut Trail<A>,
    known: &mut Conditions<A>,
    depth: usize,
    condition: MovableExpr<A>,
) -> Result<(), AllocError>
    ensures trail { OnOk result (map step_of trail.new ≡ map step_of trail.old ++ (if stands_in condition known.old then below_filters depth (at_root 10 ∷ []) else [])) }
    ensures known { OnOk result (known.new ≡ planning.with_condition known.old condition) }
{
    if algebra::stands_in(&condition, known.as_slice()) {
        return push_step(alloc, trail, depth, DROP_FILTER);
    }
    known.push(condition)
}

/// The conditions that do not repeat one below them; adds the steps that drop the others.
pub(crate) fn push_dropping_all<A: Heap>(
    alloc: A,
    trail: &mut Trail<A>,
    conditions: Conditions<A>,
) -> Result<Conditions<A>, AllocError>
    ensures trail { OnOk result (map step_of trail.new ≡ map step_of trail.old ++ spec.dropping [] conditions) }
    ensures rest { IfOk result (λ l. l ≡ planning.without_repeats conditions) }
{
    let mut known = Items::new(alloc);
    let mut depth = conditions.len();
    for condition in conditions.into_vec() {
        depth -= 1;
        push_dropping(alloc, trail, &mut known, depth, condition)?;
    }
    Ok(known)
}
