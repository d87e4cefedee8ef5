//! The column by which the rows of a query are wanted in order.

ghost use Rattle.std.specs.Prelude.{◌≡◌};
ghost use Rattle.expr.specs.View.{bound_expr_of, bound_items_of, bound_query_of};
ghost use Rattle.planning.specs.Wanted as spec;

use expr::{BoundExpr, BoundItem, BoundQuery, ColumnId, OutputKey};
use memory::Heap;

// The column that an expression is, if it is one.
fn plain_column<A: Heap>(expression: &BoundExpr<A>) -> Option<ColumnId>
    ensures { result ≡ spec.plain_column (bound_expr_of expression.now) }
{
    match expression {
        BoundExpr::Column(id) => Some(*id),
        _ => None,
    }
}

// The column of a key's item, if the key ascends and the item is a column.
fn key_column<A: Heap>(items: &[BoundItem<A>], key: OutputKey) -> Option<ColumnId>
    ensures { result ≡ spec.key_column (bound_items_of items.now) key }
{
    if key.descending {
        return None;
    }
    match items.get(key.index) {
        Some(item) => plain_column(&item.value),
        None => None,
    }
}

/// The first column of GROUP BY; without GROUP BY that of the first key of ORDER BY, if the key ascends and its item is a column.
/// A plan whose combinations come in its order needs no sort for it (Selinger et al. 1979, section 4: interesting orders).
pub fn wanted_column<A: Heap>(query: &BoundQuery<A>) -> Option<ColumnId>
    ensures { result ≡ spec.wanted_column (bound_query_of query.now) }
{
    match query.group_by.as_slice() {
        [column, ..] => Some(*column),
        [] => match query.order_by.as_slice() {
            [key, ..] => key_column(query.items.as_slice(), *key),
            [] => None,
        },
    }
}
