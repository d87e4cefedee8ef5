//! Rules of joins, and of filters on joins.

ghost use Rattle.std.specs.Prelude.{◌≡◌};
ghost use Rattle.memory.specs.Gives.{Gives};
ghost use Rattle.row_terms.specs.View.{term_of};
ghost use Rattle.algebra.specs.Rules as rules;

use crate::runs::reads_only;
use crate::step::Reason;
use memory::{Failure, Heap, boxed};
use row_terms::Term;

/// `F e (X * Y)` to `(F e X) * Y`, where the entries of `e` are in `X`.
pub(crate) fn push_left<A: Heap>(alloc: A, term: Term<A>) -> Result<Term<A>, Failure<Reason>>
    ensures { Gives (λ t. term_of t) result (rules.push_left (term_of term)) }
{
    match term {
        Term::Filtered { condition, input } => match Box::into_inner(input) {
            Term::Joined { left, right } => {
                if !reads_only(alloc, &left, &condition)? {
                    return Err(Failure::Error(Reason::Unmet));
                }
                let left = boxed(
                    alloc,
                    Term::Filtered {
                        condition,
                        input: left,
                    },
                )?;
                Ok(Term::Joined { left, right })
            }
            _ => Err(Failure::Error(Reason::Misfit)),
        },
        _ => Err(Failure::Error(Reason::Misfit)),
    }
}

/// `(F e X) * Y` to `F e (X * Y)`, where the entries of `e` are in `X`.
pub(crate) fn pull_left<A: Heap>(alloc: A, term: Term<A>) -> Result<Term<A>, Failure<Reason>>
    ensures { Gives (λ t. term_of t) result (rules.pull_left (term_of term)) }
{
    match term {
        Term::Joined { left, right } => match Box::into_inner(left) {
            Term::Filtered { condition, input } => {
                if !reads_only(alloc, &input, &condition)? {
                    return Err(Failure::Error(Reason::Unmet));
                }
                let input = boxed(alloc, Term::Joined { left: input, right })?;
                Ok(Term::Filtered { condition, input })
            }
            _ => Err(Failure::Error(Reason::Misfit)),
        },
        _ => Err(Failure::Error(Reason::Misfit)),
    }
}

/// `F e (X * Y)` to `X * (F e Y)`, where the entries of `e` are in `Y`.
pub(crate) fn push_right<A: Heap>(alloc: A, term: Term<A>) -> Result<Term<A>, Failure<Reason>>
    ensures { Gives (λ t. term_of t) result (rules.push_right (term_of term)) }
{
    match term {
        Term::Filtered { condition, input } => match Box::into_inner(input) {
            Term::Joined { left, right } => {
                if !reads_only(alloc, &right, &condition)? {
                    return Err(Failure::Error(Reason::Unmet));
                }
                let right = boxed(
                    alloc,
                    Term::Filtered {
                        condition,
                        input: right,
                    },
                )?;
                Ok(Term::Joined { left, right })
            }
            _ => Err(Failure::Error(Reason::Misfit)),
        },
        _ => Err(Failure::Error(Reason::Misfit)),
    }
}

/// `X * (F e Y)` to `F e (X * Y)`, where the entries of `e` are in `Y`.
pub(crate) fn pull_right<A: Heap>(alloc: A, term: Term<A>) -> Result<Term<A>, Failure<Reason>>
    ensures { Gives (λ t. term_of t) result (rules.pull_right (term_of term)) }
{
    match term {
        Term::Joined { left, right } => match Box::into_inner(right) {
            Term::Filtered { condition, input } => {
                if !reads_only(alloc, &input, &condition)? {
                    return Err(Failure::Error(Reason::Unmet));
                }
                let input = boxed(alloc, Term::Joined { left, right: input })?;
                Ok(Term::Filtered { condition, input })
            }
            _ => Err(Failure::Error(Reason::Misfit)),
        },
        _ => Err(Failure::Error(Reason::Misfit)),
    }
}

/// `X * Y` to `Y * X`.
pub(crate) fn swap_sides<A: Heap>(term: Term<A>) -> Result<Term<A>, Failure<Reason>>
    ensures { Gives (λ t. term_of t) result (rules.swap_sides (term_of term)) }
{
    match term {
        Term::Joined { left, right } => Ok(Term::Joined {
            left: right,
            right: left,
        }),
        _ => Err(Failure::Error(Reason::Misfit)),
    }
}

/// `(X * Y) * Z` to `(X * Z) * Y`.
pub(crate) fn exchange_right<A: Heap>(alloc: A, term: Term<A>) -> Result<Term<A>, Failure<Reason>>
    ensures { Gives (λ t. term_of t) result (rules.exchange_right (term_of term)) }
{
    match term {
        Term::Joined { left, right: last } => match Box::into_inner(left) {
            Term::Joined { left, right } => {
                let left = boxed(alloc, Term::Joined { left, right: last })?;
                Ok(Term::Joined { left, right })
            }
            _ => Err(Failure::Error(Reason::Misfit)),
        },
        _ => Err(Failure::Error(Reason::Misfit)),
    }
}
