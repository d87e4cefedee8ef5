//! Expressions that never fault.

ghost use Rattle.std.specs.Prelude.{◌≡◌, Ok, true};
ghost use Rattle.value.specs.Datum.{datum_of};
ghost use Rattle.value.specs.Orders as orders;
ghost use Rattle.expr.specs.View.{bound_expr_of};
ghost use Rattle.expr.specs.Movable.{movable};
ghost use Rattle.eval.specs.Comparing as comparing;
ghost use Rattle.eval.specs.Meaning.{holds, is_true_outcome, meaning};
ghost use Rattle.eval.specs.Operators.{comparison_of};

use crate::evaluating::eval;
use crate::operators::compare;
use crate::row::Row;
use expr::{BoundExpr, ColumnId};
use memory::Heap;
use value::{Comparison, Truth, Val, as_condition};

/// The value of a movable expression on a row, for a role. It takes no memory.
pub fn eval_movable<'a, A: Heap, R: Row<A>>(
    alloc: A,
    expression: &'a BoundExpr<A>,
    row: &'a R,
    role: &'a str,
) -> Val<'a, A>
    requires { movable (bound_expr_of expression.now) ≡ true }
    ensures { Ok (datum_of result) ≡ meaning (R.cells row.now) role.now (bound_expr_of expression.now) }
{
    match eval(alloc, expression, row, role) {
        Ok(value) => value,
        Err(_) => Val::Null,
    }
}

// True for a value that is true: neither false nor null.
fn is_true<A: Heap>(value: &Val<'_, A>) -> bool
    ensures { result ≡ is_true_outcome (Ok (datum_of value.now)) }
{
    as_condition(value) == Truth::True
}

// The comparison of two columns that an expression is, if it is one.
fn column_comparison<A: Heap>(expression: &BoundExpr<A>) -> Option<(Comparison, ColumnId, ColumnId)>
    ensures { result ≡ comparing.column_comparison (bound_expr_of expression.now) }
{
    let BoundExpr::Comparison {
        operator,
        left,
        right,
        ..
    } = expression
    else {
        return None;
    };
    match (&**left, &**right) {
        (BoundExpr::Column(one), BoundExpr::Column(other)) => Some((*operator, *one, *other)),
        _ => None,
    }
}

// True where a comparison of two columns is true on a row.
fn is_comparison_true<A: Heap, R: Row<A>>(
    operator: Comparison,
    one: ColumnId,
    other: ColumnId,
    row: &R,
) -> bool
    ensures { result ≡ orders.is_true (comparison_of operator ((R.cells row.now).column one) ((R.cells row.now).column other)) }
{
    compare(operator, &row.cell(one), &row.cell(other)) == Truth::True
}

/// True where a movable expression is true on a row, for a role: neither false nor null.
pub fn is_true_on<A: Heap, R: Row<A>>(
    alloc: A,
    expression: &BoundExpr<A>,
    row: &R,
    role: &str,
) -> bool
    requires { movable (bound_expr_of expression.now) ≡ true }
    ensures { result ≡ holds (R.cells row.now) role.now (bound_expr_of expression.now) }
{
    match column_comparison(expression) {
        Some((operator, one, other)) => is_comparison_true(operator, one, other, row),
        None => is_true(&eval_movable(alloc, expression, row, role)),
    }
}
