//! The numbers of rows and columns of a table.

ghost use Rattle.std.specs.Prelude.{◌≡◌, length};
ghost use Rattle.columns.specs.Rows.{types_of};

use memory::Heap;
use tables::Table;

/// The number of rows.
pub(crate) fn row_count<A: Heap>(table: &Table<A>) -> usize
    ensures { result ≡ length table.now.rows }
{
    table.rows() as usize
}

/// The number of columns.
pub(crate) fn column_count<A: Heap>(table: &Table<A>) -> usize
    ensures { result ≡ length (types_of table.now.columns) }
{
    table.columns().len()
}
