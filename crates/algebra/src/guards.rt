//! Rules of guards.

ghost use Rattle.std.specs.Prelude.{◌≡◌, map};
ghost use Rattle.memory.specs.Gives.{Gives};
ghost use Rattle.tuples.specs.View.{guard_of};
ghost use Rattle.row_terms.specs.View.{term_of};
ghost use Rattle.algebra.specs.Rules as rules;

use crate::runs::is_only;
use crate::step::Reason;
use memory::{Failure, Heap, boxed};
use row_terms::Term;
use tuples::Guard;

/// `F e (G i X)` to `G i (F e X)`.
pub(crate) fn push_under_guard<A: Heap>(alloc: A, term: Term<A>) -> Result<Term<A>, Failure<Reason>>
    ensures { Gives (λ t. term_of t) result (rules.push_under_guard (term_of term)) }
{
    match term {
        Term::Filtered { condition, input } => match Box::into_inner(input) {
            Term::Guarded { entry, input } => {
                let input = boxed(alloc, Term::Filtered { condition, input })?;
                Ok(Term::Guarded { entry, input })
            }
            _ => Err(Failure::Error(Reason::Misfit)),
        },
        _ => Err(Failure::Error(Reason::Misfit)),
    }
}

/// `G i (F e X)` to `F e (G i X)`.
pub(crate) fn pull_over_guard<A: Heap>(alloc: A, term: Term<A>) -> Result<Term<A>, Failure<Reason>>
    ensures { Gives (λ t. term_of t) result (rules.pull_over_guard (term_of term)) }
{
    match term {
        Term::Guarded { entry, input } => match Box::into_inner(input) {
            Term::Filtered { condition, input } => {
                let input = boxed(alloc, Term::Guarded { entry, input })?;
                Ok(Term::Filtered { condition, input })
            }
            _ => Err(Failure::Error(Reason::Misfit)),
        },
        _ => Err(Failure::Error(Reason::Misfit)),
    }
}

// True where the guard of the entry shows all rows.
fn is_open<A: Heap>(frame: &[Guard<A>], entry: usize) -> bool
    ensures { result ≡ rules.is_open (map guard_of frame.now) entry }
{
    matches!(frame.get(entry), Some(Guard::All))
}

/// `G i X` to `X`, where the guard of `i` shows all rows.
pub(crate) fn drop_guard<A: Heap>(
    frame: &[Guard<A>],
    term: Term<A>,
) -> Result<Term<A>, Failure<Reason>>
    ensures { Gives (λ t. term_of t) result (rules.drop_guard (map guard_of frame.now) (term_of term)) }
{
    match term {
        Term::Guarded { entry, input } => {
            if !is_open(frame, entry) {
                return Err(Failure::Error(Reason::Unmet));
            }
            Ok(Box::into_inner(input))
        }
        _ => Err(Failure::Error(Reason::Misfit)),
    }
}

/// `X` to `G i X`, where the guard of `i` shows all rows and `i`, a number from 1, is the only entry of `X`.
pub(crate) fn add_guard<A: Heap>(
    alloc: A,
    frame: &[Guard<A>],
    number: u64,
    term: Term<A>,
) -> Result<Term<A>, Failure<Reason>>
    ensures { Gives (λ t. term_of t) result (rules.add_guard (map guard_of frame.now) number (term_of term)) }
{
    if number == 0 {
        return Err(Failure::Error(Reason::Unmet));
    }
    let entry = (number - 1) as usize;
    if !is_open(frame, entry) {
        return Err(Failure::Error(Reason::Unmet));
    }
    if !is_only(entry, &term) {
        return Err(Failure::Error(Reason::Unmet));
    }
    Ok(Term::Guarded {
        entry,
        input: boxed(alloc, term)?,
    })
}
