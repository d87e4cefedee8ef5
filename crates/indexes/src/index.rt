//! The indexes of a table.

ghost use Rattle.std.specs.Prelude.{◌≡◌, ◌<◌, IfOk, length, map};
ghost use Rattle.value.specs.Datum.{cell, datum_of, row_at};
ghost use Rattle.value.specs.Orders.{datum_cmp};
ghost use Rattle.indexes.specs.Indexes.{AreIndexes, IsIndex, IsIndexOn};

use memory::{Heap, Items};
use std::alloc::AllocError;
use std::cmp::Ordering;
use tables::Table;
use value::{Val, cmp_values};

// The cell in a column of the row of that number; null beyond the rows and columns of the table.
fn cell_of<A: Heap>(table: &Table<A>, number: u32, column: usize) -> Val<'_, A>
    ensures { datum_of result ≡ cell (row_at table.now.rows number) column }
{
    Val::of(table.get(number, column))
}

// The order of the cells of two rows, nulls last.
fn compare<A: Heap>(table: &Table<A>, column: usize, one: u32, other: u32) -> Ordering
    ensures { result ≡ datum_cmp (cell (row_at table.now.rows one) column) (cell (row_at table.now.rows other) column) }
{
    cmp_values(&cell_of(table, one, column), &cell_of(table, other, column))
}

/// The numbers of all rows of a table, ascending by their cells in a column, nulls last. It fails where memory runs out.
pub fn index_of<A: Heap>(
    alloc: A,
    table: &Table<A>,
    column: usize,
) -> Result<Items<u32, A>, AllocError>
    ensures { IfOk result (λ numbers. IsIndex table.now.rows column numbers) }
{
    let mut numbers = Vec::new(alloc);
    for number in 0..table.rows() as u32 {
        numbers.push(number)?;
    }
    numbers.sort_unstable_by(|one, other| compare(table, column, *one, *other));
    Ok(Items::from(numbers))
}

/// The rows of an index.
#[derive(Drop)]
pub struct IndexRows<A: Heap> {
    /// The number of its column, from 1.
    pub column: u64,
    /// The numbers of the rows.
    pub numbers: Items<u32, A>,
}

/// The index of a table on the column of this number, which counts from 1. It fails where memory runs out.
pub fn index_on<A: Heap>(
    alloc: A,
    table: &Table<A>,
    column: u64,
) -> Result<IndexRows<A>, AllocError>
    ensures { IfOk result (λ index. IsIndexOn table.now.rows column index) }
{
    let numbers = index_of(alloc, table, column.saturating_sub(1) as usize)?;
    Ok(IndexRows { column, numbers })
}

/// The indexes of a table on columns of these numbers, which count from 1. It fails where memory runs out.
pub fn indexes_of<A: Heap>(
    alloc: A,
    table: &Table<A>,
    columns: &[u64],
) -> Result<Items<IndexRows<A>, A>, AllocError>
    ensures { IfOk result (λ indexes. AreIndexes table.now.rows columns.now indexes) }
{
    let mut indexes = Items::new(alloc);
    for column in columns {
        indexes.push(index_on(alloc, table, *column)?)?;
    }
    Ok(indexes)
}

/// The indexes of a table on the columns of others. It fails where memory runs out.
pub fn remade<A: Heap>(
    alloc: A,
    table: &Table<A>,
    others: &[IndexRows<A>],
) -> Result<Vec<IndexRows<A>, A>, AllocError>
    ensures { IfOk result (λ indexes. AreIndexes table.now.rows (map (λ index. index.column) others.now) indexes.items) }
{
    let mut indexes = Vec::new(alloc);
    for other in others {
        indexes.push(index_on(alloc, table, other.column)?)?;
    }
    Ok(indexes)
}
