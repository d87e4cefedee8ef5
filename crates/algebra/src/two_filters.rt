//! Rules of filters that stand one on another.

ghost use Rattle.std.specs.Prelude.{◌≡◌};
ghost use Rattle.memory.specs.Gives.{Gives};
ghost use Rattle.row_terms.specs.View.{term_of};
ghost use Rattle.algebra.specs.Rules as rules;

use crate::runs::{filter_at, stands_in_run};
use crate::step::Reason;
use memory::{Failure, Heap, boxed};
use predicates::{both, conjunct_count, parted};
use row_terms::Term;
use value::MOST_CONJUNCTS;

/// `F (a AND rest) X` to `F rest (F a X)`.
pub(crate) fn split_filter<A: Heap>(alloc: A, term: Term<A>) -> Result<Term<A>, Failure<Reason>>
    ensures { Gives (λ t. term_of t) result (rules.split_filter (term_of term)) }
{
    match term {
        Term::Filtered { condition, input } => match parted(alloc, condition)? {
            Some((first, rest)) => {
                let lower = boxed(
                    alloc,
                    Term::Filtered {
                        condition: first,
                        input,
                    },
                )?;
                Ok(Term::Filtered {
                    condition: rest,
                    input: lower,
                })
            }
            None => Err(Failure::Error(Reason::Unmet)),
        },
        _ => Err(Failure::Error(Reason::Misfit)),
    }
}

/// `F b (F a X)` to `F (a AND b) X`, where the AND has at most 64 members.
pub(crate) fn merge_filters<A: Heap>(alloc: A, term: Term<A>) -> Result<Term<A>, Failure<Reason>>
    ensures { Gives (λ t. term_of t) result (rules.merge_filters (term_of term)) }
{
    match term {
        Term::Filtered {
            condition: upper,
            input,
        } => match Box::into_inner(input) {
            Term::Filtered {
                condition: lower,
                input,
            } => {
                let condition = both(alloc, lower, upper)?;
                if conjunct_count(&condition) > MOST_CONJUNCTS {
                    return Err(Failure::Error(Reason::Unmet));
                }
                Ok(Term::Filtered { condition, input })
            }
            _ => Err(Failure::Error(Reason::Misfit)),
        },
        _ => Err(Failure::Error(Reason::Misfit)),
    }
}

/// `F b (F a X)` to `F a (F b X)`.
pub(crate) fn swap_filters<A: Heap>(alloc: A, term: Term<A>) -> Result<Term<A>, Failure<Reason>>
    ensures { Gives (λ t. term_of t) result (rules.swap_filters (term_of term)) }
{
    match term {
        Term::Filtered {
            condition: upper,
            input,
        } => match Box::into_inner(input) {
            Term::Filtered {
                condition: lower,
                input,
            } => {
                let input = boxed(
                    alloc,
                    Term::Filtered {
                        condition: upper,
                        input,
                    },
                )?;
                Ok(Term::Filtered {
                    condition: lower,
                    input,
                })
            }
            _ => Err(Failure::Error(Reason::Misfit)),
        },
        _ => Err(Failure::Error(Reason::Misfit)),
    }
}

/// `F e X` to `X`, where `e` stands in the run at `X`.
pub(crate) fn drop_filter<A: Heap>(term: Term<A>) -> Result<Term<A>, Failure<Reason>>
    ensures { Gives (λ t. term_of t) result (rules.drop_filter (term_of term)) }
{
    match term {
        Term::Filtered { condition, input } => {
            if !stands_in_run(&condition, &input) {
                return Err(Failure::Error(Reason::Unmet));
            }
            Ok(Box::into_inner(input))
        }
        _ => Err(Failure::Error(Reason::Misfit)),
    }
}

/// `X` to `F e X`, where `e` is the filter of that number in the run at `X`.
pub(crate) fn copy_filter<A: Heap>(
    alloc: A,
    number: u64,
    term: Term<A>,
) -> Result<Term<A>, Failure<Reason>>
    ensures { Gives (λ t. term_of t) result (rules.copy_filter number (term_of term)) }
{
    let condition = match filter_at(&term, number) {
        Some(condition) => condition.copy(alloc)?,
        None => return Err(Failure::Error(Reason::Unmet)),
    };
    Ok(Term::Filtered {
        condition,
        input: boxed(alloc, term)?,
    })
}
