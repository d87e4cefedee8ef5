//! The rows of a table.

ghost use Rattle.std.specs.Prelude.{◌≡◌, ◌<◌, length};
ghost use Rattle.value.specs.Datum.{datum_of, cell, row_at};

use eval::Row;
use expr::ColumnId;
use memory::Heap;
use std::marker::Model;
use value::Val;

/// A row of a table. A contract sees its values.
#[derive(Drop)]
pub struct TableRow<'t, A: Heap> {
    rows: &'t tables::Table<A>,
    number: u64,
}

impl<'t, A: Heap> Model for TableRow<'t, A> {
    ghost use Rattle.std.specs.Prelude.{◌<◌, length};
    ghost use Rattle.value.specs.Datum as value;

    ghost Value = { value.Row };

    ghost view = { λ t. value.row_at t.rows.now.rows t.number };

    ghost invariant = { λ t. t.number < length t.rows.now.rows };
}

impl<'t, A: Heap> TableRow<'t, A> {
    /// The row of this number, counted from 0.
    pub fn new(rows: &'t tables::Table<A>, number: u64) -> TableRow<'t, A>
        requires { number < length rows.now.rows }
        ensures { result ≡ row_at rows.now.rows number }
    {
        TableRow { rows, number }
    }
}

// The value at an index of the row of this number. A row has a value for each column, so that null never replaces
// one.
fn cell<A: Heap>(rows: &tables::Table<A>, number: u64, index: usize) -> Val<'_, A>
    requires { number < length rows.now.rows }
    ensures { datum_of result ≡ cell (row_at rows.now.rows number) index }
{
    if index < rows.columns().len() {
        rows.cell(number, index as u64)
    } else {
        let _wide = rows.rows();
        Val::Null
    }
}

impl<'t, A: Heap> Row<A> for TableRow<'t, A> {
    ghost use Rattle.tuples.specs.Rows.{cells_of};

    ghost cells = { cells_of };

    fn cell(&self, id: ColumnId) -> Val<'_, A> {
        cell(self.rows, self.number, id.column)
    }

    fn aggregate(&self, _offset: u32) -> Val<'_, A> {
        Val::Null
    }
}
