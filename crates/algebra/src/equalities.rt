//! Rules of equalities that follow from two others.

ghost use Rattle.std.specs.Prelude.{◌≡◌, IfOk, option_map};
ghost use Rattle.memory.specs.Gives.{Gives};
ghost use Rattle.row_terms.specs.View.{term_of};
ghost use Rattle.algebra.specs.Rules as rules;
ghost use Rattle.algebra.specs.Runs.{run};

use crate::runs::filter_at;
use crate::step::Reason;
use expr::{ColumnId, MovableExpr, is_column};
use memory::{Failure, Heap, boxed};
use predicates::{column_equals, column_sides, columns_equal, is_same, literal_side};
use row_terms::Term;
use std::alloc::AllocError;

// The other columns of two pairs that share one.
fn other_columns(p: (ColumnId, ColumnId), q: (ColumnId, ColumnId)) -> Option<(ColumnId, ColumnId)>
    ensures { result ≡ rules.other_columns p q }
{
    if is_column(p.0, q.0) {
        return Some((p.1, q.1));
    }
    if is_column(p.0, q.1) {
        return Some((p.1, q.0));
    }
    if is_column(p.1, q.0) {
        return Some((p.0, q.1));
    }
    if is_column(p.1, q.1) {
        return Some((p.0, q.0));
    }
    None
}

// a = c, of a = b and b = c, each either way round.
fn equality_of<A: Heap>(
    alloc: A,
    first: &MovableExpr<A>,
    second: &MovableExpr<A>,
) -> Result<Option<MovableExpr<A>>, AllocError>
    ensures { IfOk result (λ e. e ≡ rules.equality_of first.now second.now) }
{
    let Some(p) = column_sides(first) else {
        return Ok(None);
    };
    let Some(q) = column_sides(second) else {
        return Ok(None);
    };
    let Some((a, c)) = other_columns(p, q) else {
        return Ok(None);
    };
    Ok(Some(columns_equal(alloc, a, c)?))
}

// The other column of a pair than that.
fn other_column(p: (ColumnId, ColumnId), a: ColumnId) -> Option<ColumnId>
    ensures { result ≡ rules.other_column p a }
{
    if is_column(a, p.0) {
        return Some(p.1);
    }
    if is_column(a, p.1) {
        return Some(p.0);
    }
    None
}

/// `b = v`, of `a = b` and `a = v`, each either way round.
pub(crate) fn constant_of<A: Heap>(
    alloc: A,
    first: &MovableExpr<A>,
    second: &MovableExpr<A>,
) -> Result<Option<MovableExpr<A>>, AllocError>
    ensures { IfOk result (λ e. e ≡ rules.constant_of first.now second.now) }
{
    let Some(p) = column_sides(first) else {
        return Ok(None);
    };
    let Some((a, value)) = literal_side(second) else {
        return Ok(None);
    };
    let Some(b) = other_column(p, a) else {
        return Ok(None);
    };
    Ok(Some(column_equals(alloc, b, value)?))
}

// The equality that follows from two filters of the run at the term: of columns, or of a column and a literal.
fn by_run<A: Heap>(
    alloc: A,
    is_constant: bool,
    p: u64,
    q: u64,
    term: &Term<A>,
) -> Result<Option<MovableExpr<A>>, AllocError>
    ensures { IfOk result (λ e. e ≡ rules.by_run (rules.following is_constant) p q (run (term_of term.now))) }
{
    let Some(first) = filter_at(term, p) else {
        return Ok(None);
    };
    let Some(second) = filter_at(term, q) else {
        return Ok(None);
    };
    if is_constant {
        constant_of(alloc, first, second)
    } else {
        equality_of(alloc, first, second)
    }
}

/// `X` to `F e X`, where `e` follows from two filters of the run at `X`.
pub(crate) fn add_filter<A: Heap>(
    alloc: A,
    is_constant: bool,
    p: u64,
    q: u64,
    term: Term<A>,
) -> Result<Term<A>, Failure<Reason>>
    ensures { Gives (λ t. term_of t) result (rules.add_filter (rules.following is_constant) p q (term_of term)) }
{
    match by_run(alloc, is_constant, p, q, &term)? {
        Some(condition) => Ok(Term::Filtered {
            condition,
            input: boxed(alloc, term)?,
        }),
        None => Err(Failure::Error(Reason::Unmet)),
    }
}

// True where the condition is the one that is given.
fn is_given<A: Heap>(condition: &MovableExpr<A>, given: Option<MovableExpr<A>>) -> bool
    ensures { result ≡ rules.is_given condition.now given }
{
    match given {
        Some(given) => is_same(condition.expression(), given.expression()),
        None => false,
    }
}

/// `F e X` to `X`, where `e` follows from two filters of the run at `X`.
pub(crate) fn drop_added<A: Heap>(
    alloc: A,
    is_constant: bool,
    p: u64,
    q: u64,
    term: Term<A>,
) -> Result<Term<A>, Failure<Reason>>
    ensures { Gives (λ t. term_of t) result (rules.drop_added (rules.following is_constant) p q (term_of term)) }
{
    match term {
        Term::Filtered { condition, input } => {
            let given = by_run(alloc, is_constant, p, q, &input)?;
            if !is_given(&condition, given) {
                return Err(Failure::Error(Reason::Unmet));
            }
            Ok(Box::into_inner(input))
        }
        _ => Err(Failure::Error(Reason::Misfit)),
    }
}
