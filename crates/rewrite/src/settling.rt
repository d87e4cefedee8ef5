//! A condition on its way from the top of a term to its place in it.

ghost use Rattle.std.specs.Prelude.{◌≡◌, ◌++◌, IfOk, OnOk, map};
ghost use Rattle.row_terms.specs.View.{term_of};
ghost use Rattle.algebra.specs.View.{step_of};
ghost use Rattle.rewrite.specs.Placing as spec;
ghost use Rattle.rewrite.specs.Trails.{below_path};

use crate::nodes::{filtered, guarded, joined, left_joined};
use crate::steps::step_down;
use algebra::{Step, reads_only};
use expr::MovableExpr;
use memory::{Heap, Items};
use row_terms::{Branch, Term};
use std::alloc::AllocError;
use trailcheck::{Wanted, is_wanted};

// True where the condition has its place below the filters that are first in the term.
fn goes_deeper<A: Heap>(
    alloc: A,
    condition: &MovableExpr<A>,
    term: &Term<A>,
) -> Result<bool, AllocError>
    ensures { IfOk result (λ b. b ≡ spec.goes_deeper condition.now (term_of term.now)) }
{
    match term {
        Term::Filtered { input, .. } => goes_deeper(alloc, condition, input),
        Term::Guarded { .. } => Ok(true),
        Term::Joined { left, right } => {
            if reads_only(alloc, left, condition)? {
                return Ok(true);
            }
            reads_only(alloc, right, condition)
        }
        Term::LeftJoined { left, .. } => reads_only(alloc, left, condition),
        _ => Ok(false),
    }
}

// True where the condition has its place below a filter by another one, and the term under that.
fn passes<A: Heap>(
    alloc: A,
    count: usize,
    condition: &MovableExpr<A>,
    above: &MovableExpr<A>,
    input: &Term<A>,
) -> Result<bool, AllocError>
    ensures { IfOk result (λ b. b ≡ spec.passes count condition.now above.now (term_of input.now)) }
{
    if is_wanted(alloc, Wanted::OnTop { count }, above)? {
        return Ok(true);
    }
    goes_deeper(alloc, condition, input)
}

// The term with the condition in its place, of so many entries; adds the steps to it from the term under the condition, at the
// node of the path.
fn sink<A: Heap>(
    alloc: A,
    count: usize,
    trail: &mut Items<Step<A>, A>,
    path: &[Branch],
    condition: MovableExpr<A>,
    term: Term<A>,
) -> Result<Term<A>, AllocError>
    ensures term { IfOk result (λ t. term_of t ≡ spec.sunk count condition (term_of term)) }
    ensures steps { OnOk result (map step_of trail.new ≡ map step_of trail.old ++ below_path path.now (spec.sinking count condition (term_of term))) }
{
    match term {
        Term::Filtered {
            condition: above,
            input,
        } => {
            let input = Box::into_inner(input);
            if !passes(alloc, count, &condition, &above, &input)? {
                let input = filtered(alloc, above, input)?;
                return filtered(alloc, condition, input);
            }
            let path = step_down(alloc, trail, path, 3, Branch::First)?;
            let input = sink(alloc, count, trail, path.as_slice(), condition, input)?;
            filtered(alloc, above, input)
        }
        Term::Guarded { entry, input } => {
            let input = Box::into_inner(input);
            let path = step_down(alloc, trail, path, 8, Branch::First)?;
            let input = sink(alloc, count, trail, path.as_slice(), condition, input)?;
            guarded(alloc, entry, input)
        }
        Term::Joined { left, right } => {
            let left = Box::into_inner(left);
            let right = Box::into_inner(right);
            if reads_only(alloc, &left, &condition)? {
                let path = step_down(alloc, trail, path, 4, Branch::First)?;
                let left = sink(alloc, count, trail, path.as_slice(), condition, left)?;
                return joined(alloc, left, right);
            }
            if reads_only(alloc, &right, &condition)? {
                let path = step_down(alloc, trail, path, 5, Branch::Second)?;
                let right = sink(alloc, count, trail, path.as_slice(), condition, right)?;
                return joined(alloc, left, right);
            }
            let term = joined(alloc, left, right)?;
            filtered(alloc, condition, term)
        }
        Term::LeftJoined { on, left, right } => {
            let left = Box::into_inner(left);
            let right = Box::into_inner(right);
            if !reads_only(alloc, &left, &condition)? {
                let term = left_joined(alloc, on, left, right)?;
                return filtered(alloc, condition, term);
            }
            let path = step_down(alloc, trail, path, 20, Branch::First)?;
            let left = sink(alloc, count, trail, path.as_slice(), condition, left)?;
            left_joined(alloc, on, left, right)
        }
        Term::Raw { entry } => filtered(alloc, condition, Term::Raw { entry }),
        Term::Empty { entries } => filtered(alloc, condition, Term::Empty { entries }),
    }
}

/// The same, where the condition is over entries of the query; else it stays on top.
pub(crate) fn settle<A: Heap>(
    alloc: A,
    count: usize,
    trail: &mut Items<Step<A>, A>,
    path: &[Branch],
    condition: MovableExpr<A>,
    term: Term<A>,
) -> Result<Term<A>, AllocError>
    ensures term { IfOk result (λ t. term_of t ≡ spec.settled count condition (term_of term)) }
    ensures steps { OnOk result (map step_of trail.new ≡ map step_of trail.old ++ below_path path.now (spec.settling count condition (term_of term))) }
{
    if is_wanted(alloc, Wanted::OnTop { count }, &condition)? {
        return filtered(alloc, condition, term);
    }
    sink(alloc, count, trail, path, condition, term)
}
