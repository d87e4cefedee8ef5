//! Equalities of columns and of a column and a value, and conditions that are never true.

ghost use Rattle.std.specs.Prelude.{◌≡◌, IfOk, option_map};
ghost use Rattle.value.specs.Datum.{datum};
ghost use Rattle.expr.specs.View.{bound_expr_of};
ghost use Rattle.predicates.specs.Equalities.{column_equals, column_sides, columns_equal, is_never_true, literal_side, not_null_form, unless_null};

use expr::{BoundExpr, ColumnId, Copied, MovableExpr, comparison, is_column, literal, null_check};
use memory::{Heap, boxed};
use std::alloc::AllocError;
use value::{Comparison, Value};

/// The two columns of an equality of columns.
pub fn equated_columns<A: Heap>(expression: &BoundExpr<A>) -> Option<(ColumnId, ColumnId)>
    ensures { result ≡ column_sides (bound_expr_of expression.now) }
{
    match expression {
        BoundExpr::Comparison {
            operator: Comparison::Equal,
            left,
            right,
            ..
        } => match &**left {
            BoundExpr::Column(one) => match &**right {
                BoundExpr::Column(other) => Some((*one, *other)),
                _ => None,
            },
            _ => None,
        },
        _ => None,
    }
}

/// The same of a condition that cannot fault.
pub fn column_sides<A: Heap>(condition: &MovableExpr<A>) -> Option<(ColumnId, ColumnId)>
    ensures { result ≡ column_sides condition.now }
{
    equated_columns(condition.expression())
}

fn unless_null<A: Heap>(column: ColumnId, value: &Value<A>) -> Option<(ColumnId, &Value<A>)>
    ensures { option_map (λ p. (p.0, datum p.1.now)) result ≡ unless_null column (datum value.now) }
{
    match value {
        Value::Null => None,
        _ => Some((column, value)),
    }
}

/// The column and the value of an equality of a column and a literal that is not null.
pub fn literal_side<A: Heap>(condition: &MovableExpr<A>) -> Option<(ColumnId, &Value<A>)>
    ensures { option_map (λ p. (p.0, datum p.1.now)) result ≡ literal_side condition.now }
{
    match condition.expression() {
        BoundExpr::Comparison {
            operator: Comparison::Equal,
            left,
            right,
            ..
        } => match &**left {
            BoundExpr::Column(column) => match &**right {
                BoundExpr::Literal(value) => unless_null(*column, value),
                _ => None,
            },
            BoundExpr::Literal(value) => match &**right {
                BoundExpr::Column(column) => unless_null(*column, value),
                _ => None,
            },
            _ => None,
        },
        _ => None,
    }
}

/// `one = other`, of two columns.
pub fn columns_equal<A: Heap>(
    alloc: A,
    one: ColumnId,
    other: ColumnId,
) -> Result<MovableExpr<A>, AllocError>
    ensures { IfOk result (λ equality. equality ≡ columns_equal one other) }
{
    let left = boxed(alloc, BoundExpr::Column(one))?;
    let right = boxed(alloc, BoundExpr::Column(other));
    let equality = comparison(alloc, Comparison::Equal, 0, left, right)?;
    Ok(MovableExpr::of_movable(equality))
}

/// `column = value`.
pub fn column_equals<A: Heap>(
    alloc: A,
    column: ColumnId,
    value: &Value<A>,
) -> Result<MovableExpr<A>, AllocError>
    ensures { IfOk result (λ equality. equality ≡ column_equals column (datum value.now)) }
{
    let left = boxed(alloc, BoundExpr::Column(column))?;
    let right = literal(alloc, value.copy(alloc));
    let equality = comparison(alloc, Comparison::Equal, 0, left, right)?;
    Ok(MovableExpr::of_movable(equality))
}

/// Tests if the condition is the literal FALSE or NULL.
pub fn is_never_true<A: Heap>(condition: &MovableExpr<A>) -> bool
    ensures { result ≡ is_never_true condition.now }
{
    match condition.expression() {
        BoundExpr::Literal(value) => match value {
            Value::Null => true,
            Value::Bool(truth) => !*truth,
            _ => false,
        },
        _ => false,
    }
}

/// `column IS NOT NULL` for `column = column`, if the condition is such an equality.
pub fn not_null_form<A: Heap>(
    alloc: A,
    condition: &MovableExpr<A>,
) -> Result<Option<MovableExpr<A>>, AllocError>
    ensures { IfOk result (λ form. form ≡ not_null_form condition.now) }
{
    match column_sides(condition) {
        Some((one, other)) => {
            if !is_column(one, other) {
                return Ok(None);
            }
            let column = boxed(alloc, BoundExpr::Column(one));
            let test = null_check(alloc, true, 0, column)?;
            Ok(Some(MovableExpr::of_movable(test)))
        }
        None => Ok(None),
    }
}
