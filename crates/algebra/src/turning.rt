//! Conditions that make left joined entries inner.

ghost use Rattle.std.specs.Prelude.{◌≡◌, ◌==◌, IfOk, option_to_list};
ghost use Rattle.std.specs.List.{list_any};
ghost use Rattle.algebra.specs.PlanningList as spec;

use crate::runs::reads_up_to;
use expr::{ColumnId, MovableExpr};
use memory::Heap;
use predicates::rejecting_columns;
use std::alloc::AllocError;

// True where there is a column, and it is of the entry.
fn is_of(entry: usize, column: Option<ColumnId>) -> bool
    ensures { result ≡ list_any (λ id. entry == id.entry) (option_to_list column) }
{
    match column {
        Some(id) => entry == id.entry,
        None => false,
    }
}

// True where the condition makes a left joined entry inner: it names no later entry, and is true on no null row of this one.
fn turns<A: Heap>(alloc: A, entry: usize, condition: &MovableExpr<A>) -> Result<bool, AllocError>
    ensures { IfOk result (λ b. b ≡ spec.turns entry condition.now) }
{
    let (one, other) = rejecting_columns(condition);
    if !(is_of(entry, one) || is_of(entry, other)) {
        return Ok(false);
    }
    reads_up_to(alloc, entry, condition)
}

/// The index of the first condition that makes a left joined entry inner, if there is one.
pub fn first_turning<A: Heap>(
    alloc: A,
    entry: usize,
    conditions: &[MovableExpr<A>],
) -> Result<Option<usize>, AllocError>
    ensures { IfOk result (λ i. i ≡ spec.first_turning entry conditions.now) }
{
    for (i, condition) in conditions.iter().enumerate() {
        if turns(alloc, entry, condition)? {
            return Ok(Some(i));
        }
    }
    Ok(None)
}
