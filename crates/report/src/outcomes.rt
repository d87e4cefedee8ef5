//! The outcomes of conditions and items on one row or group.

ghost use Rattle.std.specs.Prelude.{◌≡◌, map};
ghost use Rattle.memory.specs.Gives.{Gives};
ghost use Rattle.value.specs.Datum.{datum_of};
ghost use Rattle.expr.specs.View.{bound_expr_of, bound_item_of, bound_items_of};
ghost use Rattle.eval.specs.Meaning.{Outcome, meaning};
ghost use Rattle.report.specs.Pushed.{value_after, values_after};
ghost use Rattle.report.specs.QueryStages.{truth_in, keeps, values_of};

use answer_rows::AnswerRows;
use eval::{Row, eval};
use expr::{BoundExpr, BoundItem};
use memory::{Failure, Heap};
use value::{Fault, Truth, Val, as_condition};

/// True where the outcome of a condition is true; null and false are not.
pub(crate) fn truth_in<A: Heap>(
    outcome: Result<Val<'_, A>, Failure<Fault>>,
) -> Result<bool, Failure<Fault>>
    ensures { (m : Outcome) → Gives datum_of outcome.entry m → Gives (λ b. b) result (truth_in m) }
{
    match outcome {
        Ok(value) => Ok(as_condition(&value) == Truth::True),
        Err(failure) => Err(failure),
    }
}

// True where the conditions keep the row: the first that is not true drops it, the first that faults gives its fault.
pub(crate) fn keeps<A: Heap, R: Row<A>>(
    alloc: A,
    conditions: &[&BoundExpr<A>],
    row: &R,
    role: &str,
) -> Result<bool, Failure<Fault>>
    ensures { Gives (λ b. b) result (keeps (R.cells row.now) role.now (map (λ e. bound_expr_of e.now) conditions.now)) }
{
    for condition in conditions {
        if !truth_in(eval(alloc, condition, row, role))? {
            return Ok(false);
        }
    }
    Ok(true)
}

// Pushes the value of an item on the row, or gives its fault.
fn push_value<A: Heap, R: Row<A>>(
    alloc: A,
    item: &BoundItem<A>,
    row: &R,
    role: &str,
    rows: &mut AnswerRows<A>,
) -> Result<(), Failure<Fault>>
    ensures value { Gives (λ _. rows.new.unfinished) result (value_after rows.old.unfinished (meaning (R.cells row.now) role.now (bound_item_of item.now).value)) }
    ensures rows { rows.new.rows ≡ rows.old.rows }
{
    match eval(alloc, &item.value, row, role) {
        Ok(value) => {
            rows.push(&value)?;
            Ok(())
        }
        Err(failure) => Err(failure),
    }
}

/// Pushes the values of items on the row, or gives the first fault from left to right.
pub(crate) fn push_values<A: Heap, R: Row<A>>(
    alloc: A,
    items: &[BoundItem<A>],
    row: &R,
    role: &str,
    rows: &mut AnswerRows<A>,
) -> Result<(), Failure<Fault>>
    ensures values { Gives (λ _. rows.new.unfinished) result (values_after rows.old.unfinished (values_of (R.cells row.now) role.now (bound_items_of items.now))) }
    ensures rows { rows.new.rows ≡ rows.old.rows }
{
    for item in items {
        push_value(alloc, item, row, role, rows)?;
    }
    Ok(())
}
