//! Tests of an expression.

ghost use Rattle.std.specs.Prelude.{◌≡◌, option_map};
ghost use Rattle.row_ast.specs.Ast.{column_in};
ghost use Rattle.row_ast.specs.View.{column_ref_of, expr_of};

use crate::expr::{ColumnRef, Expr};
use memory::Heap;

/// The column, where an expression is one.
pub fn column_in<A: Heap>(expression: &Expr<A>) -> Option<&ColumnRef<A>>
    ensures { option_map (λ c. column_ref_of c.now) result ≡ column_in (expr_of expression.now) }
{
    match expression {
        Expr::Column(column) => Some(column),
        _ => None,
    }
}
