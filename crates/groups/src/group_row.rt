//! The row of a group, and the cells that HAVING and items read of it.

ghost use Rattle.std.specs.Prelude.{◌≡◌};
ghost use Rattle.memory.specs.Gives.{Gives};
ghost use Rattle.value.specs.Datum.{datum_of, row_of};
ghost use Rattle.expr.specs.View.{aggregate_calls_of};
ghost use Rattle.groups.specs.GroupRow as spec;
ghost use Rattle.groups.specs.Running.{all_finished};
ghost use Rattle.groups.specs.View.{group_row_of, totals_of};

use crate::totals::{Total, finish_all};
use eval::Row;
use expr::{AggregateCall, ColumnId, is_column};
use memory::{Failure, Heap, Items};
use value::{Fault, Val, Value};

/// The key of a group, and the values of its aggregates.
#[derive(Drop)]
pub struct GroupRow<A: Heap> {
    /// The values of the GROUP BY columns.
    pub key: Items<Value<A>, A>,
    /// The values of the aggregates, in written order.
    pub totals: Items<Value<A>, A>,
}

/// The cells of a group: its GROUP BY columns and its aggregates.
#[derive(Drop)]
pub struct GroupCells<'g, A: Heap> {
    /// The GROUP BY columns.
    pub columns: &'g [ColumnId],
    /// The aggregates.
    pub calls: &'g [AggregateCall<'g, A>],
    /// The row of the group.
    pub row: &'g GroupRow<A>,
}

// The value of a GROUP BY column.
fn key_cell<'g, A: Heap>(columns: &[ColumnId], key: &'g [Value<A>], id: ColumnId) -> Val<'g, A>
    ensures { datum_of result ≡ spec.key_cell columns.now (row_of key.now) id }
{
    for (column, value) in columns.iter().zip(key) {
        if is_column(*column, id) {
            return value.as_val();
        }
    }
    Val::Null
}

// The value of the aggregate whose name is at an offset.
fn total_at<'g, A: Heap>(
    calls: &[AggregateCall<'_, A>],
    totals: &'g [Value<A>],
    offset: u32,
) -> Val<'g, A>
    ensures { datum_of result ≡ spec.total_at (aggregate_calls_of calls.now) (row_of totals.now) offset }
{
    for (call, value) in calls.iter().zip(totals) {
        if call.offset == offset {
            return value.as_val();
        }
    }
    Val::Null
}

impl<A: Heap> Row<A> for GroupCells<'_, A> {
    ghost cells = { λ g. spec.group_cells g.columns.now (aggregate_calls_of g.calls.now) (group_row_of g.row.now) };

    fn cell(&self, id: ColumnId) -> Val<'_, A> {
        key_cell(self.columns, self.row.key.as_slice(), id)
    }

    fn aggregate(&self, offset: u32) -> Val<'_, A> {
        total_at(self.calls, self.row.totals.as_slice(), offset)
    }
}

/// The row of a group, or the first fault of the aggregates.
pub fn row_of_group<A: Heap>(
    alloc: A,
    calls: &[AggregateCall<'_, A>],
    key: Items<Value<A>, A>,
    totals: &[Total<A>],
) -> Result<GroupRow<A>, Failure<Fault>>
    ensures { Gives (λ g. group_row_of g) result (spec.with_totals (row_of key) (all_finished (aggregate_calls_of calls.now) (totals_of totals.now))) }
{
    let totals = finish_all(alloc, calls, totals)?;
    Ok(GroupRow { key, totals })
}
