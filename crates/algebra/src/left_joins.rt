//! Rules of left joins, and of filters on left joins.

ghost use Rattle.std.specs.Prelude.{◌≡◌};
ghost use Rattle.memory.specs.Gives.{Gives};
ghost use Rattle.row_terms.specs.View.{term_of};
ghost use Rattle.algebra.specs.Rules as rules;

use crate::runs::{reads_only, rejects_nulls_of};
use crate::step::Reason;
use memory::{Failure, Heap, boxed};
use row_terms::Term;

/// `F f (X + e Y)` to `F f (F e (X * Y))`, where `f` is true on no null row of `Y`.
pub(crate) fn make_inner<A: Heap>(alloc: A, term: Term<A>) -> Result<Term<A>, Failure<Reason>>
    ensures { Gives (λ t. term_of t) result (rules.make_inner (term_of term)) }
{
    match term {
        Term::Filtered { condition, input } => match Box::into_inner(input) {
            Term::LeftJoined { on, left, right } => {
                if !rejects_nulls_of(&right, &condition) {
                    return Err(Failure::Error(Reason::Unmet));
                }
                let both = boxed(alloc, Term::Joined { left, right })?;
                let input = boxed(
                    alloc,
                    Term::Filtered {
                        condition: on,
                        input: both,
                    },
                )?;
                Ok(Term::Filtered { condition, input })
            }
            _ => Err(Failure::Error(Reason::Misfit)),
        },
        _ => Err(Failure::Error(Reason::Misfit)),
    }
}

/// `F f (X + e Y)` to `(F f X) + e Y`, where the entries of `f` are in `X`.
pub(crate) fn push_under_left<A: Heap>(alloc: A, term: Term<A>) -> Result<Term<A>, Failure<Reason>>
    ensures { Gives (λ t. term_of t) result (rules.push_under_left (term_of term)) }
{
    match term {
        Term::Filtered { condition, input } => match Box::into_inner(input) {
            Term::LeftJoined { on, left, right } => {
                if !reads_only(alloc, &left, &condition)? {
                    return Err(Failure::Error(Reason::Unmet));
                }
                let left = boxed(
                    alloc,
                    Term::Filtered {
                        condition,
                        input: left,
                    },
                )?;
                Ok(Term::LeftJoined { on, left, right })
            }
            _ => Err(Failure::Error(Reason::Misfit)),
        },
        _ => Err(Failure::Error(Reason::Misfit)),
    }
}

/// `(F f X) + e Y` to `F f (X + e Y)`, where the entries of `f` are in `X`.
pub(crate) fn pull_over_left<A: Heap>(alloc: A, term: Term<A>) -> Result<Term<A>, Failure<Reason>>
    ensures { Gives (λ t. term_of t) result (rules.pull_over_left (term_of term)) }
{
    match term {
        Term::LeftJoined { on, left, right } => match Box::into_inner(left) {
            Term::Filtered { condition, input } => {
                if !reads_only(alloc, &input, &condition)? {
                    return Err(Failure::Error(Reason::Unmet));
                }
                let left = input;
                let input = boxed(alloc, Term::LeftJoined { on, left, right })?;
                Ok(Term::Filtered { condition, input })
            }
            _ => Err(Failure::Error(Reason::Misfit)),
        },
        _ => Err(Failure::Error(Reason::Misfit)),
    }
}
