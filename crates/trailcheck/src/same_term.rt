//! The test if two terms are the same.

ghost use Rattle.std.specs.Prelude.{◌≡◌};
ghost use Rattle.row_terms.specs.View.{term_of};
ghost use Rattle.trailcheck.specs.SameTerm as spec;

use memory::Heap;
use predicates::is_same;
use row_terms::Term;

// True where they are the same entries in the same order.
fn are_same_entries(some: &[usize], others: &[usize]) -> bool
    ensures { result ≡ spec.same_entries some.now others.now }
{
    let [i, some @ ..] = some else {
        return others.is_empty();
    };
    let [j, others @ ..] = others else {
        return false;
    };
    *i == *j && are_same_entries(some, others)
}

/// True where the two terms are the same.
pub fn is_same_term<A: Heap>(one: &Term<A>, other: &Term<A>) -> bool
    ensures { result ≡ spec.same_term (term_of one.now) (term_of other.now) }
{
    match (one, other) {
        (Term::Raw { entry }, Term::Raw { entry: next }) => *entry == *next,
        (
            Term::Guarded { entry, input },
            Term::Guarded {
                entry: next,
                input: other,
            },
        ) => { *entry == *next && is_same_term(input, other) }
        (
            Term::Filtered { condition, input },
            Term::Filtered {
                condition: next,
                input: other,
            },
        ) => { is_same(condition.expression(), next.expression()) && is_same_term(input, other) }
        (
            Term::Joined { left, right },
            Term::Joined {
                left: other,
                right: next,
            },
        ) => { is_same_term(left, other) && is_same_term(right, next) }
        (
            Term::LeftJoined { on, left, right },
            Term::LeftJoined {
                on: other_on,
                left: other,
                right: next,
            },
        ) => {
            is_same(on.expression(), other_on.expression())
                && (is_same_term(left, other) && is_same_term(right, next))
        }
        (Term::Empty { entries }, Term::Empty { entries: others }) => {
            are_same_entries(entries.as_slice(), others.as_slice())
        }
        _ => false,
    }
}
