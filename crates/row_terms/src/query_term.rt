//! The term of a query as it is written.

ghost use Rattle.std.specs.Prelude.{◌≡◌, ◌+◌, ◌<◌, ◌^◌, ◌++◌, IfOk, OnOk, length, map, option_map, true};
ghost use Rattle.std.specs.List.{flat_map, list_all};
ghost use Rattle.expr.specs.Movable.{movable};
ghost use Rattle.expr.specs.View.{bound_expr_of, bound_query_of};
ghost use Rattle.predicates.specs.Offsets.{without_offsets};
ghost use Rattle.row_terms.specs.Terms as terms;
ghost use Rattle.row_terms.specs.View.{term_of};
ghost use Rattle.row_terms.specs.Written as spec;

use crate::term::Term;
use expr::{BoundCondition, BoundExpr, BoundQuery, MovableExpr, is_movable, movable_conjuncts};
use memory::{Heap, Items, boxed};
use predicates::{copy_without_offsets, law_offsets_keep_value};
use std::alloc::AllocError;

// The rows of an entry that its guard shows.
fn guarded_entry<A: Heap>(alloc: A, entry: usize) -> Result<Term<A>, AllocError>
    ensures { IfOk result (λ t. term_of t ≡ spec.guarded_entry entry) }
{
    let input = boxed(alloc, Term::Raw { entry })?;
    Ok(Term::Guarded { entry, input })
}

// The combinations of a term, each with each row of an entry that its guard shows.
fn with_entry<A: Heap>(alloc: A, term: Term<A>, entry: usize) -> Result<Term<A>, AllocError>
    ensures { IfOk result (λ t. term_of t ≡ terms.Joined (term_of term) (spec.guarded_entry entry)) }
{
    let left = boxed(alloc, term)?;
    let right = boxed(alloc, guarded_entry(alloc, entry)?)?;
    Ok(Term::Joined { left, right })
}

// The first entries joined in the order of FROM.
fn joins<A: Heap>(alloc: A, count: usize) -> Result<Term<A>, AllocError>
    ensures { IfOk result (λ t. term_of t ≡ spec.joins count) }
{
    if count == 0 {
        return Ok(Term::Empty {
            entries: Items::new(alloc),
        });
    }
    let mut term = guarded_entry(alloc, 0)?;
    for entry in 1..count {
        term = with_entry(alloc, term, entry)?;
    }
    Ok(term)
}

// The combinations of a term, each with the rows of an entry on which a condition is true, or with its null row.
fn with_left_entry<A: Heap>(
    alloc: A,
    term: Term<A>,
    entry: usize,
    on: &MovableExpr<A>,
) -> Result<Term<A>, AllocError>
    ensures { IfOk result (λ t. term_of t ≡ terms.LeftJoined on.now (term_of term) (spec.guarded_entry entry)) }
{
    let on = on.copy(alloc)?;
    let left = boxed(alloc, term)?;
    let right = boxed(alloc, guarded_entry(alloc, entry)?)?;
    Ok(Term::LeftJoined { on, left, right })
}

// The entries from the first on left joined to a term, each by its condition.
fn left_joins<A: Heap>(
    alloc: A,
    term: Term<A>,
    first: usize,
    conditions: &[MovableExpr<A>],
) -> Result<Term<A>, AllocError>
    requires { first + length conditions.now < 2 ^ 64 }
    ensures { IfOk result (λ t. term_of t ≡ spec.left_joins first conditions.now (term_of term)) }
{
    let [on, rest @ ..] = conditions else {
        return Ok(term);
    };
    let next = with_left_entry(alloc, term, first, on)?;
    left_joins(alloc, next, first + 1, rest)
}

// Adds the ON of a left joined entry without its offsets, where it cannot fault.
fn push_left_condition<A: Heap>(
    alloc: A,
    known: &mut Items<MovableExpr<A>, A>,
    condition: &BoundCondition<A>,
) -> Result<(), AllocError>
    ensures { OnOk result (known.new ≡ known.old ++ spec.left_condition_in (option_map (λ b. bound_expr_of b.value) condition.now)) }
{
    let Some(on) = condition else {
        return Ok(());
    };
    if !is_movable(on) {
        return Ok(());
    }
    law_offsets_keep_value();
    known.push(MovableExpr::of_movable(copy_without_offsets(alloc, on)?))
}

// Adds those of several entries.
fn push_left_conditions<A: Heap>(
    alloc: A,
    known: &mut Items<MovableExpr<A>, A>,
    conditions: &[BoundCondition<A>],
) -> Result<(), AllocError>
    ensures { OnOk result (known.new ≡ known.old ++ flat_map spec.left_condition_in (map (λ o. option_map (λ b. bound_expr_of b.value) o) conditions.now)) }
{
    for condition in conditions {
        push_left_condition(alloc, known, condition)?;
    }
    Ok(())
}

/// The ONs of the left joined entries without their offsets, those that cannot fault; of an admitted query these are all. It fails
/// where memory runs out.
pub fn left_conditions<A: Heap>(
    alloc: A,
    query: &BoundQuery<A>,
) -> Result<Items<MovableExpr<A>, A>, AllocError>
    ensures { IfOk result (λ known. known ≡ spec.left_conditions (bound_query_of query.now)) }
{
    let ons = query.ons.as_slice();
    let inner = ons.len().saturating_sub(query.left_count);
    let mut known = Items::new(alloc);
    push_left_conditions(alloc, &mut known, &ons[inner..])?;
    Ok(known)
}

// The combinations of a term on which a condition is true, which stands there without its offsets.
fn filtered<A: Heap>(
    alloc: A,
    term: Term<A>,
    condition: &BoundExpr<A>,
) -> Result<Term<A>, AllocError>
    requires { movable (bound_expr_of condition.now) ≡ true }
    ensures { IfOk result (λ t. term_of t ≡ terms.Filtered (without_offsets (bound_expr_of condition.now)) (term_of term)) }
{
    law_offsets_keep_value();
    let condition = MovableExpr::of_movable(copy_without_offsets(alloc, condition)?);
    let input = boxed(alloc, term)?;
    Ok(Term::Filtered { condition, input })
}

// The same of several conditions, the first innermost.
fn filters<A: Heap>(
    alloc: A,
    term: Term<A>,
    conditions: &[&BoundExpr<A>],
) -> Result<Term<A>, AllocError>
    requires { list_all movable (map (λ e. bound_expr_of e.now) conditions.now) ≡ true }
    ensures { IfOk result (λ t. term_of t ≡ spec.filters (map without_offsets (map (λ e. bound_expr_of e.now) conditions.now)) (term_of term)) }
{
    let mut term = term;
    for condition in conditions {
        term = filtered(alloc, term, *condition)?;
    }
    Ok(term)
}

// So many entries, the first ones joined and those of the conditions left joined to them.
fn all_joins<A: Heap>(
    alloc: A,
    count: usize,
    conditions: &[MovableExpr<A>],
) -> Result<Term<A>, AllocError>
    ensures { IfOk result (λ t. term_of t ≡ spec.all_joins count conditions.now) }
{
    let first = count.saturating_sub(conditions.len());
    let term = joins(alloc, first)?;
    left_joins(alloc, term, first, conditions)
}

/// The written term of a query over so many entries: their joins and left joins in the order of FROM, each entry under its
/// guard, and over them one filter for each movable conjunct, the first written innermost. An ON of a left joined entry that
/// may fault is left out; an admitted query has none.
pub fn written<A: Heap>(
    alloc: A,
    count: usize,
    query: &BoundQuery<A>,
) -> Result<Term<A>, AllocError>
    ensures { IfOk result (λ t. term_of t ≡ spec.written count (bound_query_of query.now)) }
{
    let conjuncts = movable_conjuncts(alloc, query)?;
    let lefts = left_conditions(alloc, query)?;
    let term = all_joins(alloc, count, lefts.as_slice())?;
    filters(alloc, term, &conjuncts)
}
