//! The filters that stand one on another, and the entries of terms and conditions.

ghost use Rattle.std.specs.Prelude.{◌≡◌, ◌==◌, ◌++◌, ◌∷◌, [], IfOk, OnOk, filter, option_map, option_to_list, slice_get, nat_le};
ghost use Rattle.std.specs.List.{list_all, list_any};
ghost use Rattle.expr.specs.Columns.{columns};
ghost use Rattle.predicates.specs.NullRows.{rejects_null_rows};
ghost use Rattle.row_terms.specs.Terms as terms;
ghost use Rattle.row_terms.specs.View.{term_of};
ghost use Rattle.algebra.specs.Runs as spec;

use expr::{ColumnId, MovableExpr, push_columns};
use memory::{Heap, Items};
use predicates::{is_same, rejecting_columns};
use row_terms::{Term, covers};
use std::alloc::AllocError;

/// The filter of that number in the run at the term.
pub(crate) fn filter_at<A: Heap>(term: &Term<A>, number: u64) -> Option<&MovableExpr<A>>
    ensures { option_map (λ e. e.now) result ≡ slice_get (spec.run (term_of term.now)) number }
{
    match term {
        Term::Filtered { condition, input } => {
            if number == 0 {
                Some(condition)
            } else {
                filter_at(input, number - 1)
            }
        }
        _ => None,
    }
}

/// True where the condition is one of the run at the term.
pub(crate) fn stands_in_run<A: Heap>(condition: &MovableExpr<A>, term: &Term<A>) -> bool
    ensures { result ≡ spec.stands_in condition.now (spec.run (term_of term.now)) }
{
    match term {
        Term::Filtered {
            condition: other,
            input,
        } => {
            is_same(condition.expression(), other.expression()) || stands_in_run(condition, input)
        }
        _ => false,
    }
}

// True where the term covers the entry of each column.
fn covers_all<A: Heap>(term: &Term<A>, columns: &[ColumnId]) -> bool
    ensures { result ≡ list_all (λ id. terms.covers (term_of term.now) id.entry) columns.now }
{
    columns.iter().all(|id| covers(term, id.entry))
}

/// True where each entry that the condition names is one of the term.
pub fn reads_only<A: Heap>(
    alloc: A,
    term: &Term<A>,
    condition: &MovableExpr<A>,
) -> Result<bool, AllocError>
    ensures { IfOk result (λ b. b ≡ spec.reads_only (term_of term.now) condition.now) }
{
    let mut columns = Items::new(alloc);
    push_columns(&mut columns, condition.expression())?;
    Ok(covers_all(term, columns.as_slice()))
}

/// True where each column is of the entry or of one before it.
pub fn all_up_to(columns: &[ColumnId], entry: usize) -> bool
    ensures { result ≡ list_all (λ id. nat_le id.entry entry) columns.now }
{
    columns.iter().all(|id| id.entry <= entry)
}

/// True where the condition names no entry after that.
pub(crate) fn reads_up_to<A: Heap>(
    alloc: A,
    entry: usize,
    condition: &MovableExpr<A>,
) -> Result<bool, AllocError>
    ensures { IfOk result (λ b. b ≡ spec.reads_up_to entry condition.now) }
{
    let mut columns = Items::new(alloc);
    push_columns(&mut columns, condition.expression())?;
    Ok(all_up_to(columns.as_slice(), entry))
}

// True where there is a column, and the term covers its entry.
fn covers_column<A: Heap>(term: &Term<A>, column: Option<ColumnId>) -> bool
    ensures { result ≡ list_any (λ id. terms.covers (term_of term.now) id.entry) (option_to_list column) }
{
    match column {
        Some(id) => covers(term, id.entry),
        None => false,
    }
}

/// True where the condition is true on no null row of the term.
pub(crate) fn rejects_nulls_of<A: Heap>(term: &Term<A>, condition: &MovableExpr<A>) -> bool
    ensures { result ≡ rejects_null_rows (terms.covers (term_of term.now)) condition.now }
{
    let (one, other) = rejecting_columns(condition);
    covers_column(term, one) || covers_column(term, other)
}

// True where all are the entry.
fn are_all(entries: &[usize], entry: usize) -> bool
    ensures { result ≡ list_all (λ i. i == entry) entries.now }
{
    entries.iter().all(|i| *i == entry)
}

// True where no other entry is one of the term.
fn no_other<A: Heap>(entry: usize, term: &Term<A>) -> bool
    ensures { result ≡ spec.no_other entry (term_of term.now) }
{
    match term {
        Term::Raw { entry: own } => *own == entry,
        Term::Guarded { input, .. } => no_other(entry, input),
        Term::Filtered { input, .. } => no_other(entry, input),
        Term::Joined { left, right } => no_other(entry, left) && no_other(entry, right),
        Term::LeftJoined { left, right, .. } => no_other(entry, left) && no_other(entry, right),
        Term::Empty { entries } => are_all(entries.as_slice(), entry),
    }
}

/// True where the entry is the only one of the term.
pub(crate) fn is_only<A: Heap>(entry: usize, term: &Term<A>) -> bool
    ensures { result ≡ spec.is_only entry (term_of term.now) }
{
    covers(term, entry) && no_other(entry, term)
}

// Adds the entry where the term covers it.
fn push_if_covered<A: Heap>(
    entries: &mut Items<usize, A>,
    term: &Term<A>,
    entry: usize,
) -> Result<(), AllocError>
    ensures { OnOk result (entries.new ≡ entries.old ++ filter (terms.covers (term_of term.now)) (entry ∷ [])) }
{
    if covers(term, entry) {
        entries.push(entry)
    } else {
        Ok(())
    }
}

/// No combination, of the entries of the term, where there are so many.
pub(crate) fn emptied<A: Heap>(
    alloc: A,
    count: usize,
    term: &Term<A>,
) -> Result<Term<A>, AllocError>
    ensures { IfOk result (λ t. term_of t ≡ spec.emptied count (term_of term.now)) }
{
    let mut entries = Items::new(alloc);
    for entry in 0..count {
        push_if_covered(&mut entries, term, entry)?;
    }
    Ok(Term::Empty { entries })
}
