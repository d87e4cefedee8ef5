//! Conditions on all rows of a table.

ghost use Rattle.std.specs.Prelude.{◌≡◌, ◌||◌, ℕ, List, map, Ok, IfOk, IfSome};
ghost use Rattle.std.specs.Option.{is_some};
ghost use Rattle.eval.specs.Meaning as meaning;
ghost use Rattle.expr.specs.Bound as bound;
ghost use Rattle.expr.specs.View.{bound_expr_of, bound_exprs};
ghost use Rattle.tuples.specs.Rows.{cells_of};
ghost use Rattle.lane_filters.specs.ByLanes.{all_by_lanes, are_numbers, by_lanes, tests_text};
ghost use Rattle.columns.specs.Rows.{types_of};
ghost use Rattle.lane_filters.specs.Outcomes.{AreTruths};

use crate::leaves::{between, comparison, null_check};
use crate::sizes::row_count;
use crate::texts::{text_membership, text_test};
use crate::truths::Truths;
use expr::BoundExpr;
use memory::Heap;
use std::alloc::AllocError;
use tables::Table;
use value::Comparison;

// The role for which conditions are evaluated: a &str in a struct, of which no call in the cycle has to show that it is text.
#[derive(Clone, Copy, Debug)]
struct Role<'a> {
    name: &'a str,
}

// A comparison, if both operands are numbers, or it tests a text column by one text.
fn compared_by_lanes<A: Heap>(
    alloc: A,
    table: &Table<A>,
    role: &str,
    op: Comparison,
    left: &BoundExpr<A>,
    right: &BoundExpr<A>,
) -> Result<Option<Truths<A>>, AllocError>
    ensures exact { IfOk result (λ o. is_some o ≡ (are_numbers (types_of table.now.columns) (bound_expr_of left.now) (bound_expr_of right.now) || tests_text (types_of table.now.columns) op (bound_expr_of left.now) (bound_expr_of right.now))) }
    ensures truths { (offset : ℕ) → IfOk result (λ o. IfSome o (λ t. AreTruths role.now table.now.rows (bound.Comparison op offset (bound_expr_of left.now) (bound_expr_of right.now)) t)) }
{
    match comparison(alloc, table, op, left, right)? {
        Some(truths) => Ok(Some(truths)),
        None => text_test(alloc, table, role, op, left, right),
    }
}

/// The truth values of a condition on the rows of a table for a role, if it is one that is evaluated for all rows at once; such a
/// condition never faults. It fails where memory runs out.
pub fn truths_of<A: Heap>(
    alloc: A,
    table: &Table<A>,
    role: &str,
    expression: &BoundExpr<A>,
) -> Result<Option<Truths<A>>, AllocError>
    ensures exact { IfOk result (λ o. is_some o ≡ by_lanes (types_of table.now.columns) (bound_expr_of expression.now)) }
    ensures truths { IfOk result (λ o. IfSome o (λ t. AreTruths role.now table.now.rows (bound_expr_of expression.now) t)) }
{
    let role = Role { name: role };
    evaluated(alloc, table, &role, expression)
}

// The same, in the cycle with those of AND and OR.
#[cycle(truths)]
fn evaluated<A: Heap>(
    alloc: A,
    table: &Table<A>,
    role: &Role<'_>,
    expression: &BoundExpr<A>,
) -> Result<Option<Truths<A>>, AllocError>
    ensures exact { IfOk result (λ o. is_some o ≡ by_lanes (types_of table.now.columns) (bound_expr_of expression.now)) }
    ensures truths { IfOk result (λ o. IfSome o (λ t. AreTruths role.now.name.now table.now.rows (bound_expr_of expression.now) t)) }
{
    match expression {
        BoundExpr::Comparison {
            operator,
            left,
            right,
            ..
        } => compared_by_lanes(alloc, table, role.name, *operator, left, right),
        BoundExpr::Between {
            negated,
            operand,
            low,
            high,
            ..
        } => between(alloc, table, *negated, operand, low, high),
        BoundExpr::In {
            negated,
            values,
            operand,
            ..
        } => text_membership(alloc, table, *negated, values.as_slice(), operand),
        BoundExpr::IsNull {
            negated,
            operand,
            ..
        } => null_check(alloc, table, *negated, operand),
        BoundExpr::Not { operand, .. } => match evaluated(alloc, table, role, operand)? {
            Some(mut truths) => {
                truths.negate();
                Ok(Some(truths))
            }
            None => Ok(None),
        },
        BoundExpr::And { members, .. } => conjunction(alloc, table, role, members),
        BoundExpr::Or { members, .. } => disjunction(alloc, table, role, members),
        _ => Ok(None),
    }
}

// AND of conditions, if each of them is evaluated for all rows at once.
#[cycle(truths)]
fn conjunction<A: Heap>(
    alloc: A,
    table: &Table<A>,
    role: &Role<'_>,
    members: &[BoundExpr<A>],
) -> Result<Option<Truths<A>>, AllocError>
    ensures exact { IfOk result (λ o. is_some o ≡ all_by_lanes (types_of table.now.columns) (bound_exprs members.now)) }
    ensures truths { IfOk result (λ o. IfSome o (λ t. map (λ row. meaning.conjunction (cells_of row) role.now.name.now (bound_exprs members.now)) table.now.rows ≡ map Ok t)) }
{
    let mut known = Truths::all(alloc, row_count(table), true)?;
    let mut left = members.len();
    while left > 0 {
        left -= 1;
        let Some(mut truths) = evaluated(alloc, table, role, &members[left])? else {
            return Ok(None);
        };
        truths.and(&known);
        known = truths;
    }
    Ok(Some(known))
}

// OR of conditions, if each of them is evaluated for all rows at once.
#[cycle(truths)]
fn disjunction<A: Heap>(
    alloc: A,
    table: &Table<A>,
    role: &Role<'_>,
    members: &[BoundExpr<A>],
) -> Result<Option<Truths<A>>, AllocError>
    ensures exact { IfOk result (λ o. is_some o ≡ all_by_lanes (types_of table.now.columns) (bound_exprs members.now)) }
    ensures truths { IfOk result (λ o. IfSome o (λ t. map (λ row. meaning.disjunction (cells_of row) role.now.name.now (bound_exprs members.now)) table.now.rows ≡ map Ok t)) }
{
    let mut known = Truths::all(alloc, row_count(table), false)?;
    let mut left = members.len();
    while left > 0 {
        left -= 1;
        let Some(mut truths) = evaluated(alloc, table, role, &members[left])? else {
            return Ok(None);
        };
        truths.or(&known);
        known = truths;
    }
    Ok(Some(known))
}
