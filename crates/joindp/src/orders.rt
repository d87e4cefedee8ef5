//! The orders that combinations may come in.

ghost use Rattle.std.specs.Prelude.{◌≡◌, ℕ, IfOk, OnOk, Some, slice_get};
ghost use Rattle.std.specs.List.{list_any};
ghost use Rattle.expr.specs.Bound.{BoundExpr};
ghost use Rattle.predicates.specs.Equalities as equalities;
ghost use Rattle.stats.specs.View.{members};
ghost use Rattle.joindp.specs.Search as spec;
ghost use Rattle.joindp.specs.Search.{AreKept, HasOrders, HasSides, IsListed};
ghost use Rattle.code_costs.specs.View.{problem_of};

use code_costs::Problem;
use expr::{ColumnId, MovableExpr};
use joins::is_ordered_by;
use memory::{Heap, Items};
use predicates::column_sides;
use stats::EntrySet;
use std::alloc::AllocError;

/// The index of a listed order.
pub(crate) fn order_index(orders: &[Option<ColumnId>], order: Option<ColumnId>) -> usize
    requires { IsListed orders.now order }
    ensures { slice_get orders.now result ≡ Some order }
{
    orders.iter().position(|known| *known == order).unwrap()
}

// Adds an order, unless it is there.
fn push_order<A: Heap>(
    orders: &mut Items<Option<ColumnId>, A>,
    order: Option<ColumnId>,
) -> Result<(), AllocError>
    ensures kept { OnOk result (AreKept orders.old orders.new) }
    ensures there { OnOk result (IsListed orders.new order) }
{
    if orders.as_slice().iter().any(|known| *known == order) {
        return Ok(());
    }
    orders.push(order)
}

// Adds the orders of both columns, where the condition is an equality of columns.
fn push_sides<A: Heap>(
    orders: &mut Items<Option<ColumnId>, A>,
    condition: &MovableExpr<A>,
) -> Result<(), AllocError>
    ensures kept { OnOk result (AreKept orders.old orders.new) }
    ensures there { OnOk result (HasSides orders.new (equalities.column_sides condition.now)) }
{
    match column_sides(condition) {
        Some((a, b)) => {
            push_order(orders, Some(a))?;
            push_order(orders, Some(b))
        }
        None => Ok(()),
    }
}

// Adds the orders of the columns by which sides may be merged.
fn push_all_sides<A: Heap>(
    orders: &mut Items<Option<ColumnId>, A>,
    conditions: &[MovableExpr<A>],
) -> Result<(), AllocError>
    ensures kept { OnOk result (AreKept orders.old orders.new) }
    ensures there { OnOk result ((k : ℕ) (e : BoundExpr) → slice_get conditions.now k ≡ Some e → HasSides orders.new (equalities.column_sides e)) }
{
    for condition in conditions {
        push_sides(orders, condition)?;
    }
    Ok(())
}

/// All orders that a merge may ask for, or that are wanted, and none.
pub(crate) fn orders<A: Heap>(
    alloc: A,
    problem: &Problem<'_, A>,
) -> Result<Items<Option<ColumnId>, A>, AllocError>
    ensures { IfOk result (λ orders. HasOrders (problem_of problem.now) orders) }
{
    let mut orders = Items::new(alloc);
    push_order(&mut orders, None)?;
    push_order(&mut orders, problem.wanted)?;
    push_all_sides(&mut orders, problem.setting.conditions.as_slice())?;
    Ok(orders)
}

// ---- which of them somebody will ask for

// True where the rows are wanted in that order.
fn is_wanted<A: Heap>(problem: &Problem<'_, A>, order: Option<ColumnId>) -> bool
    ensures { result ≡ spec.is_wanted (problem_of problem.now).wanted order }
{
    match problem.wanted {
        Some(id) => is_ordered_by(order, id),
        None => false,
    }
}

// True where the condition equates the column of the order with one of an entry that has no place yet.
fn asks_for<A: Heap>(condition: &MovableExpr<A>, placed: EntrySet, order: Option<ColumnId>) -> bool
    ensures { result ≡ spec.asks_for (members placed) order (equalities.column_sides condition.now) }
{
    match column_sides(condition) {
        Some((a, b)) => {
            (is_ordered_by(order, a) && !placed.contains(b.entry))
                || (is_ordered_by(order, b) && !placed.contains(a.entry))
        }
        None => false,
    }
}

// True where one of the conditions does so.
fn some_asks_for<A: Heap>(
    conditions: &[MovableExpr<A>],
    placed: EntrySet,
    order: Option<ColumnId>,
) -> bool
    ensures { result ≡ list_any (λ e. spec.asks_for (members placed) order (equalities.column_sides e)) conditions.now }
{
    conditions
        .iter()
        .any(|condition| asks_for(condition, placed, order))
}

/// True where a merge may ask for the combinations of the placed entries in that order, or they are wanted in it in the end; or it
/// is none.
pub(crate) fn is_live<A: Heap>(
    problem: &Problem<'_, A>,
    placed: EntrySet,
    order: Option<ColumnId>,
) -> bool
    ensures { result ≡ spec.is_live (problem_of problem.now) (members placed) order }
{
    let conditions = problem.setting.conditions.as_slice();
    order.is_none() || is_wanted(problem, order) || some_asks_for(conditions, placed, order)
}
