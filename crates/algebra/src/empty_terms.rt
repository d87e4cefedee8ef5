//! Rules of empty terms.

ghost use Rattle.std.specs.Prelude.{◌≡◌};
ghost use Rattle.memory.specs.Gives.{Gives};
ghost use Rattle.row_terms.specs.View.{term_of};
ghost use Rattle.algebra.specs.Rules as rules;

use crate::runs::emptied;
use crate::step::Reason;
use memory::{Failure, Heap};
use predicates::is_never_true;
use row_terms::Term;

/// `F e X` to `E`, where `e` is FALSE or NULL and there are so many entries.
pub(crate) fn empty_filter<A: Heap>(
    alloc: A,
    count: usize,
    term: Term<A>,
) -> Result<Term<A>, Failure<Reason>>
    ensures { Gives (λ t. term_of t) result (rules.empty_filter count (term_of term)) }
{
    match term {
        Term::Filtered { condition, input } => {
            if !is_never_true(&condition) {
                return Err(Failure::Error(Reason::Unmet));
            }
            Ok(emptied(alloc, count, &input)?)
        }
        _ => Err(Failure::Error(Reason::Misfit)),
    }
}

// True where the term is empty.
fn is_empty<A: Heap>(term: &Term<A>) -> bool
    ensures { result ≡ rules.is_empty (term_of term.now) }
{
    matches!(term, Term::Empty { .. })
}

// True where the term takes no combination from what it stands on.
fn has_empty_input<A: Heap>(term: &Term<A>) -> bool
    ensures { result ≡ rules.has_empty_input (term_of term.now) }
{
    match term {
        Term::Joined { left, right } => is_empty(left) || is_empty(right),
        Term::Filtered { input, .. } => is_empty(input),
        Term::Guarded { input, .. } => is_empty(input),
        _ => false,
    }
}

/// `E * X`, `X * E`, `F e E`, `G i E` to `E`, where there are so many entries.
pub(crate) fn empty_input<A: Heap>(
    alloc: A,
    count: usize,
    term: Term<A>,
) -> Result<Term<A>, Failure<Reason>>
    ensures { Gives (λ t. term_of t) result (rules.empty_input count (term_of term)) }
{
    if !has_empty_input(&term) {
        return Err(Failure::Error(Reason::Misfit));
    }
    Ok(emptied(alloc, count, &term)?)
}
