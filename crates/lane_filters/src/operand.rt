//! Operands that are numbers.

ghost use Rattle.std.specs.Prelude.{◌≡◌, ℕ, List, length, IfSome};
ghost use Rattle.std.specs.Option.{is_some};
ghost use Rattle.expr.specs.View.{bound_expr_of};
ghost use Rattle.lane_filters.specs.ByLanes.{is_number};
ghost use Rattle.columns.specs.Rows.{types_of};
ghost use Rattle.lane_filters.specs.Outcomes.{AreValues};
ghost use Rattle.lane_filters.specs.View.{values_of};

use crate::sizes::column_count;
use columns::{ColumnData, Ints};
use expr::BoundExpr;
use memory::Heap;
use tables::Table;
use value::Value;

/// A number on each row: the value of a bigint column, which may be null, or a literal.
#[derive(Drop)]
pub(crate) enum Operand<'t, A: Heap> {
    Column(&'t Ints<A>),
    Number(i64),
}

/// The operand that an expression is, if it is a bigint column or a bigint literal.
pub(crate) fn operand_of<'t, A: Heap>(
    table: &'t Table<A>,
    expression: &BoundExpr<A>,
) -> Option<Operand<'t, A>>
    ensures exact { is_some result ≡ is_number (types_of table.now.columns) (bound_expr_of expression.now) }
    ensures values { (role : List ℕ) → IfSome result (λ o. AreValues role table.now.rows (bound_expr_of expression.now) (values_of (length table.now.rows) o)) }
{
    match expression {
        BoundExpr::Column(id) => {
            if id.column >= column_count(table) {
                return None;
            }
            match table.data(id.column as u64) {
                ColumnData::Ints(values) => Some(Operand::Column(values)),
                _ => None,
            }
        }
        BoundExpr::Literal(value) => match value {
            Value::Int(n) => Some(Operand::Number(*n)),
            _ => None,
        },
        _ => None,
    }
}
