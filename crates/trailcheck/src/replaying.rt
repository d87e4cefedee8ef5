//! A trail replayed: each step applied to the term that the step before it made.

ghost use Rattle.std.specs.Prelude.{◌≡◌, map};
ghost use Rattle.memory.specs.Gives.{Gives};
ghost use Rattle.tuples.specs.View.{guard_of};
ghost use Rattle.row_terms.specs.View.{term_of};
ghost use Rattle.algebra.specs.View.{step_of};
ghost use Rattle.trailcheck.specs.Replays as spec;

use crate::allowance::Allowance;
use crate::limits::{MOST_STEPS, is_within_nodes};
use crate::verdict::{Reason, Refusal};
use algebra::{Step, apply};
use memory::{Failure, Heap};
use row_terms::Term;
use tuples::Guard;

// The reason of a step that makes no term.
fn reason_of(reason: algebra::Reason) -> Reason
    ensures { result ≡ spec.reason_of reason }
{
    match reason {
        algebra::Reason::NoNode => Reason::NoNode,
        algebra::Reason::Misfit => Reason::Misfit,
        algebra::Reason::Unmet => Reason::Unmet,
    }
}

// One step on its line, of those that a trail may have.
fn stepped<A: Heap>(
    alloc: A,
    frame: &[Guard<A>],
    line: u64,
    step: &Step<A>,
    term: Term<A>,
) -> Result<Term<A>, Failure<Refusal>>
    ensures { Gives (λ t. term_of t) result (spec.stepped (map guard_of frame.now) line (step_of step.now) (term_of term)) }
{
    let limit = Refusal {
        line,
        reason: Reason::Limit,
    };
    if line > MOST_STEPS {
        return Err(Failure::Error(limit));
    }
    match apply(alloc, frame, term, step) {
        Ok(next) => {
            if !is_within_nodes(&next) {
                return Err(Failure::Error(limit));
            }
            Ok(next)
        }
        Err(Failure::Error(reason)) => Err(Failure::Error(Refusal {
            line,
            reason: reason_of(reason),
        })),
        Err(Failure::OutOfMemory) => Err(Failure::OutOfMemory),
    }
}

/// The term to which a trail leads, or where and why it stops. A trail that asks for more than the
/// allowance runs out of memory.
pub(crate) fn replay<A: Heap>(
    alloc: A,
    frame: &[Guard<A>],
    trail: &[Step<A>],
    written: Term<A>,
) -> Result<Term<A>, Failure<Refusal>>
    ensures { Gives (λ t. term_of t) result (spec.replay (map guard_of frame.now) 1 (map step_of trail.now) (term_of written)) }
{
    let mut term = written;
    let mut allowance = Allowance::new();
    for (i, step) in trail.iter().enumerate() {
        allowance.compare(step, &term)?;
        term = stepped(alloc, frame, i as u64 + 1, step, term)?;
        allowance.add(step, &term)?;
    }
    Ok(term)
}
