//! The entries that conditions name.

ghost use Rattle.std.specs.Prelude.{◌≡◌, ◌==◌, ◌&&◌, ◌||◌, IfOk, nat_lt};
ghost use Rattle.std.specs.List.{list_all, list_any};
ghost use Rattle.expr.specs.Columns.{columns};
ghost use Rattle.trailcheck.specs.Entries as spec;

use algebra::all_up_to;
use expr::{ColumnId, MovableExpr, push_columns};
use memory::{Heap, Items};
use std::alloc::AllocError;

/// True where the entry is one of the list.
pub(crate) fn is_among(entries: &[usize], entry: usize) -> bool
    ensures { result ≡ spec.is_among entries.now entry }
{
    entries.iter().any(|i| *i == entry)
}

// True where some column is of the entry.
fn some_of(columns: &[ColumnId], entry: usize) -> bool
    ensures { result ≡ list_any (λ id. id.entry == entry) columns.now }
{
    columns.iter().any(|id| id.entry == entry)
}

// True where each column is of the entry.
fn all_of(columns: &[ColumnId], entry: usize) -> bool
    ensures { result ≡ list_all (λ id. id.entry == entry) columns.now }
{
    columns.iter().all(|id| id.entry == entry)
}

// True where some column is of an entry of the list.
fn some_among(columns: &[ColumnId], entries: &[usize]) -> bool
    ensures { result ≡ list_any (λ id. spec.is_among entries.now id.entry) columns.now }
{
    columns.iter().any(|id| is_among(entries, id.entry))
}

// True where each column is of the entry or of one of the list.
fn all_within(columns: &[ColumnId], entries: &[usize], entry: usize) -> bool
    ensures { result ≡ list_all (λ id. (id.entry == entry) || spec.is_among entries.now id.entry) columns.now }
{
    columns
        .iter()
        .all(|id| id.entry == entry || is_among(entries, id.entry))
}

// True where some column is of the entry and some of one of the list, and each of one of these.
fn are_joining(columns: &[ColumnId], entries: &[usize], entry: usize) -> bool
    ensures { result ≡ ((list_any (λ id. id.entry == entry) columns.now && list_any (λ id. spec.is_among entries.now id.entry) columns.now) && list_all (λ id. (id.entry == entry) || spec.is_among entries.now id.entry) columns.now) }
{
    some_of(columns, entry) && some_among(columns, entries) && all_within(columns, entries, entry)
}

// The columns that the condition names.
fn columns_of<A: Heap>(
    alloc: A,
    condition: &MovableExpr<A>,
) -> Result<Items<ColumnId, A>, AllocError>
    ensures { IfOk result (λ ids. ids ≡ columns condition.now) }
{
    let mut columns = Items::new(alloc);
    push_columns(&mut columns, condition.expression())?;
    Ok(columns)
}

/// True where the condition names the entry, and no other.
pub(crate) fn only_of<A: Heap>(
    alloc: A,
    condition: &MovableExpr<A>,
    entry: usize,
) -> Result<bool, AllocError>
    ensures { IfOk result (λ b. b ≡ spec.only_of condition.now entry) }
{
    let columns = columns_of(alloc, condition)?;
    Ok(some_of(columns.as_slice(), entry) && all_of(columns.as_slice(), entry))
}

/// True where the condition names the entry and some of the list, and no other.
pub(crate) fn joins<A: Heap>(
    alloc: A,
    condition: &MovableExpr<A>,
    entries: &[usize],
    entry: usize,
) -> Result<bool, AllocError>
    ensures { IfOk result (λ b. b ≡ spec.joins condition.now entries.now entry) }
{
    let columns = columns_of(alloc, condition)?;
    Ok(are_joining(columns.as_slice(), entries, entry))
}

/// True where the condition names the entry, and no later one.
pub(crate) fn completes<A: Heap>(
    alloc: A,
    condition: &MovableExpr<A>,
    entry: usize,
) -> Result<bool, AllocError>
    ensures { IfOk result (λ b. b ≡ spec.completes entry condition.now) }
{
    let columns = columns_of(alloc, condition)?;
    Ok(some_of(columns.as_slice(), entry) && all_up_to(columns.as_slice(), entry))
}

// True where each column is of one of the first so many entries.
fn all_below(columns: &[ColumnId], count: usize) -> bool
    ensures { result ≡ list_all (λ id. nat_lt id.entry count) columns.now }
{
    columns.iter().all(|id| id.entry < count)
}

/// True where the condition names entries, and only the first so many.
pub(crate) fn is_over<A: Heap>(
    alloc: A,
    condition: &MovableExpr<A>,
    count: usize,
) -> Result<bool, AllocError>
    ensures { IfOk result (λ b. b ≡ spec.is_over count condition.now) }
{
    let columns = columns_of(alloc, condition)?;
    Ok(columns.len() != 0 && all_below(columns.as_slice(), count))
}
