//! Conditions that are true on no null row.

ghost use Rattle.std.specs.Prelude.{◌≡◌, ◌++◌, option_to_list};
ghost use Rattle.expr.specs.View.{bound_expr_of};
ghost use Rattle.predicates.specs.NullRows.{column_alone, rejecting_columns};

use expr::{BoundExpr, ColumnId, MovableExpr};
use memory::Heap;

// The column that the expression is, if it is one.
fn column_alone<A: Heap>(expression: &BoundExpr<A>) -> Option<ColumnId>
    ensures { result ≡ column_alone (bound_expr_of expression.now) }
{
    match expression {
        BoundExpr::Column(id) => Some(*id),
        _ => None,
    }
}

/// The columns, at most two, that are a whole side of a comparison, or the operand of IS NOT NULL or IN: where one of them
/// is null, the condition is not true (`law_null_rows_are_rejected`).
pub fn rejecting_columns<A: Heap>(
    condition: &MovableExpr<A>,
) -> (Option<ColumnId>, Option<ColumnId>)
    ensures { option_to_list result.0 ++ option_to_list result.1 ≡ rejecting_columns condition.now }
{
    match condition.expression() {
        BoundExpr::Comparison { left, right, .. } => (column_alone(left), column_alone(right)),
        BoundExpr::IsNull {
            negated: true,
            operand,
            ..
        } => (column_alone(operand), None),
        BoundExpr::In {
            negated: false,
            operand,
            ..
        } => (column_alone(operand), None),
        _ => (None, None),
    }
}
