//! The filters of a plan against the planning list of its query.

ghost use Rattle.std.specs.Prelude.{◌≡◌, IfOk, map};
ghost use Rattle.row_ast.specs.View.{expr_of};
ghost use Rattle.scope.specs.View.{entries_of};
ghost use Rattle.bound_plans.specs.Filters as spec;

use expr::MovableExpr;
use memory::{Failure, Heap};
use predicates::is_same;
use row_ast::Expr;
use scope::{Entry, bind_expr, everywhere};
use std::alloc::AllocError;

// True where the filter with its columns found is the condition.
pub(crate) fn is_filter<A: Heap>(
    alloc: A,
    entries: &[Entry<'_, A>],
    filter: &Expr<A>,
    condition: &MovableExpr<A>,
) -> Result<bool, AllocError>
    ensures { IfOk result (λ b. b ≡ spec.is_filter (entries_of entries.now) (expr_of filter.now) condition.now) }
{
    match bind_expr(alloc, entries, everywhere(entries), filter) {
        Ok(bound) => Ok(is_same(&bound, condition.expression())),
        Err(Failure::Error(_)) => Ok(false),
        Err(Failure::OutOfMemory) => Err(AllocError),
    }
}

/// True where the filters of a plan, with their columns found, are the conditions, in the same order.
pub fn are_filters<A: Heap>(
    alloc: A,
    entries: &[Entry<'_, A>],
    filters: &[Expr<A>],
    conditions: &[MovableExpr<A>],
) -> Result<bool, AllocError>
    ensures { IfOk result (λ b. b ≡ spec.are_filters (entries_of entries.now) (map expr_of filters.now) conditions.now) }
{
    if filters.len() != conditions.len() {
        return Ok(false);
    }
    for (filter, condition) in filters.iter().zip(conditions.iter()) {
        if !is_filter(alloc, entries, filter, condition)? {
            return Ok(false);
        }
    }
    Ok(true)
}
