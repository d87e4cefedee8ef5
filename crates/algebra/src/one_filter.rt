//! Rules of one filter, whose condition takes another form.

ghost use Rattle.std.specs.Prelude.{◌≡◌};
ghost use Rattle.memory.specs.Gives.{Gives};
ghost use Rattle.row_terms.specs.View.{term_of};
ghost use Rattle.algebra.specs.Rules as rules;

use crate::step::Reason;
use memory::{Failure, Heap};
use predicates::{factored, folded, inward, not_null_form};
use row_terms::Term;

/// `F e X` to `F n X`, where `n` is `e` with NOT carried inward.
pub(crate) fn carry_not<A: Heap>(alloc: A, term: Term<A>) -> Result<Term<A>, Failure<Reason>>
    ensures { Gives (λ t. term_of t) result (rules.carry_not (term_of term)) }
{
    match term {
        Term::Filtered { condition, input } => {
            let condition = inward(alloc, &condition)?;
            Ok(Term::Filtered { condition, input })
        }
        _ => Err(Failure::Error(Reason::Misfit)),
    }
}

/// `F e X` to `F f X`, where `f` is `e` with its literals folded.
pub(crate) fn fold_literals<A: Heap>(alloc: A, term: Term<A>) -> Result<Term<A>, Failure<Reason>>
    ensures { Gives (λ t. term_of t) result (rules.fold_literals (term_of term)) }
{
    match term {
        Term::Filtered { condition, input } => {
            let condition = folded(alloc, &condition)?;
            Ok(Term::Filtered { condition, input })
        }
        _ => Err(Failure::Error(Reason::Misfit)),
    }
}

/// `F ((a AND b) OR (a AND c) OR ..) X` to `F (a AND (b OR c OR ..)) X`.
pub(crate) fn factor_out<A: Heap>(alloc: A, term: Term<A>) -> Result<Term<A>, Failure<Reason>>
    ensures { Gives (λ t. term_of t) result (rules.factor_out (term_of term)) }
{
    match term {
        Term::Filtered { condition, input } => match factored(alloc, &condition)? {
            Some(condition) => Ok(Term::Filtered { condition, input }),
            None => Err(Failure::Error(Reason::Unmet)),
        },
        _ => Err(Failure::Error(Reason::Misfit)),
    }
}

/// `F (x = x) X` to `F (x IS NOT NULL) X`.
pub(crate) fn not_null<A: Heap>(alloc: A, term: Term<A>) -> Result<Term<A>, Failure<Reason>>
    ensures { Gives (λ t. term_of t) result (rules.not_null (term_of term)) }
{
    match term {
        Term::Filtered { condition, input } => match not_null_form(alloc, &condition)? {
            Some(condition) => Ok(Term::Filtered { condition, input }),
            None => Err(Failure::Error(Reason::Unmet)),
        },
        _ => Err(Failure::Error(Reason::Misfit)),
    }
}
