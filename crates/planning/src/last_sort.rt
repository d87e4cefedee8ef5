//! The order of the combinations of a code, and the sort that is left in the end.

ghost use Rattle.std.specs.Prelude.{◌≡◌, map, None, Some};
ghost use Rattle.expr.specs.View.{code_of};
ghost use Rattle.stats.specs.Statistics.{Stats};
ghost use Rattle.code_costs.specs.Best.{Problem};
ghost use Rattle.joins.specs.Orders as orders;
ghost use Rattle.trailcheck.specs.View.{setting_of};
ghost use Rattle.planning.specs.LastSort as spec;

use expr::{Code, CodeStep, ColumnId, MovableExpr};
use joins::{is_ordered_by, order_after, order_of};
use memory::Heap;
use trailcheck::{Setting, entry_index, inner_steps};

// An order, after further steps.
fn order_after_all<A: Heap>(
    conditions: &[MovableExpr<A>],
    order: Option<ColumnId>,
    steps: &[CodeStep],
) -> Option<ColumnId>
    ensures { result ≡ orders.order_after_all conditions.now order steps.now }
{
    let mut known = order;
    for step in steps {
        known = order_after(conditions, entry_index(*step), known, step.method);
    }
    known
}

// The order of the combinations of all steps.
fn steps_order<A: Heap>(conditions: &[MovableExpr<A>], steps: &[CodeStep]) -> Option<ColumnId>
    ensures { result ≡ orders.steps_order conditions.now steps.now }
{
    match steps {
        [first, joins @ ..] => {
            let order = order_of(entry_index(*first), first.access);
            order_after_all(conditions, order, joins)
        }
        [] => None,
    }
}

// The column that is wanted in order, unless the combinations come so.
fn unless_ordered(order: Option<ColumnId>, wanted: Option<ColumnId>) -> Option<ColumnId>
    ensures { result ≡ spec.unless_ordered order wanted }
{
    match wanted {
        Some(id) if !is_ordered_by(order, id) => Some(id),
        _ => None,
    }
}

/// The column by which the combinations of a code are sorted in the end, if they are.
pub(crate) fn last_sort<A: Heap>(
    setting: &Setting<A>,
    code: &Code<A>,
    wanted: Option<ColumnId>,
) -> Option<ColumnId>
    ensures { (p : Problem) → p.setting ≡ setting_of setting.now → p.wanted ≡ wanted → result ≡ spec.last_sort p (code_of code.now) }
{
    match code {
        Code::Empty => None,
        Code::Steps(steps) => {
            let inner = inner_steps(setting, steps.as_slice());
            let order = steps_order(setting.conditions.as_slice(), inner);
            unless_ordered(order, wanted)
        }
    }
}
