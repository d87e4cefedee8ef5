//! Rows that are held as columns.

ghost use Rattle.std.specs.Prelude.{◌≡◌, ◌+◌, ◌<◌, ◌≤◌, ◌^◌, ◌++◌, [], ◌∷◌, true, length, map, take, get_or, All, IfOk, OnErr, OnOk};
ghost use Rattle.value.specs.Columns.{columns_of, fits_type};
ghost use Rattle.value.specs.Datum.{cell, null_or, row_at};
ghost use Rattle.value.specs.declared.types.ColType.TheVariants.{Bigint};
ghost use Rattle.columns.specs.Data.{cells_of, type_of};
ghost use Rattle.columns.specs.Rows.{types_of};

use crate::data::ColumnData;
use memory::Heap;
use std::alloc::AllocError;
use std::marker::Model;
use value::{Column, Lent};

/// Rows that are held as columns, and a row that is not finished. A contract sees the types of the columns, the rows, and the
/// values of the unfinished row.
#[derive(Drop)]
pub struct Rows<A: Heap> {
    columns: Vec<ColumnData<A>, A>,
    len: usize,
    // The number of values of the unfinished row.
    started: usize,
}

impl<A: Heap> Model for Rows<A> {
    ghost use Rattle.columns.specs.Rows.{TypedRows};

    ghost Value = { TypedRows };

    ghost use Rattle.columns.specs.Held.{rows_in, AreRows};

    ghost view = { rows_in };

    ghost invariant = { AreRows };
}

// A column of values for each column, with no values.
fn empty_columns<A: Heap>(
    alloc: A,
    columns: &[Column<A>],
) -> Result<Vec<ColumnData<A>, A>, AllocError>
    ensures types { IfOk result (λ d. map type_of d.items ≡ types_of (columns_of columns.now)) }
    ensures cells { IfOk result (λ d. All (λ cells. length cells ≡ 0) (map cells_of d.items)) }
{
    let mut made = Vec::new(alloc);
    for column in columns {
        made.push(ColumnData::new(alloc, column.data_type))?;
    }
    Ok(made)
}

// Drops the values of each column from an index on.
fn truncate_all<A: Heap>(columns: &mut Vec<ColumnData<A>, A>, len: usize)
    requires { All (λ cells. len ≤ length cells) (map cells_of columns.old.items) }
    ensures types { map type_of columns.new.items ≡ map type_of columns.old.items }
    ensures cells { map cells_of columns.new.items ≡ map (take len) (map cells_of columns.old.items) }
{
    for i in 0..columns.len() {
        columns[i].truncate(len);
    }
}

impl<A: Heap> Rows<A> {
    /// No rows of these columns.
    pub fn new(alloc: A, columns: &[Column<A>]) -> Result<Rows<A>, AllocError>
        ensures types { IfOk result (λ r. r.types ≡ types_of (columns_of columns.now)) }
        ensures rows { IfOk result (λ r. r.rows ≡ []) }
        ensures unfinished { IfOk result (λ r. r.unfinished ≡ []) }
    {
        Ok(Rows {
            columns: empty_columns(alloc, columns)?,
            len: 0,
            started: 0,
        })
    }

    /// The number of rows.
    pub fn len(&self) -> usize
        ensures { result ≡ length self.now.rows }
    {
        self.len
    }

    /// The value of a column in a row, both counted from 0, unless it is null.
    pub fn cell(&self, row: usize, column: usize) -> Option<Lent<'_>>
        requires row { row < length self.now.rows }
        requires column { column < length self.now.types }
        ensures { null_or result ≡ cell (row_at self.now.rows row) column }
    {
        self.columns[column].get(row)
    }

    /// The values of a column, in the order of the rows, where no row is unfinished.
    pub fn data(&self, column: usize) -> &ColumnData<A>
        requires column { column < length self.now.types }
        requires finished { self.now.unfinished ≡ [] }
        ensures data_type { type_of result.now ≡ get_or self.now.types column Bigint }
        ensures cells { cells_of result.now ≡ map (λ row. cell row column) self.now.rows }
    {
        &self.columns[column]
    }

    /// Drops the rows from an index on, and the unfinished row.
    pub fn truncate(&mut self, len: usize)
        requires { len ≤ length self.old.rows }
        ensures types { self.new.types ≡ self.old.types }
        ensures rows { self.new.rows ≡ take len self.old.rows }
        ensures unfinished { self.new.unfinished ≡ [] }
    {
        truncate_all(&mut self.columns, len);
        self.len = len;
        self.started = 0;
    }

    /// The next value of the unfinished row, of its column's type or null. Where memory is refused, all stays as it was.
    pub fn push_cell(&mut self, value: Option<Lent<'_>>) -> Result<(), AllocError>
        requires within { length self.old.unfinished < length self.old.types }
        requires fits { fits_type (get_or self.old.types (length self.old.unfinished) Bigint) (null_or value) ≡ true }
        requires room { length self.old.rows < 2 ^ 63 }
        ensures types { self.new.types ≡ self.old.types }
        ensures rows { self.new.rows ≡ self.old.rows }
        ensures ok { OnOk result (self.new.unfinished ≡ self.old.unfinished ++ null_or value.entry ∷ []) }
        ensures err { OnErr result (self.new ≡ self.old) }
    {
        let next = self.started;
        self.columns[next].push(value)?;
        self.started = next + 1;
        Ok(())
    }

    /// The unfinished row, which has a value for each column, is the last row.
    pub fn finish_row(&mut self)
        requires whole { length self.old.unfinished ≡ length self.old.types }
        requires room { length self.old.rows < 2 ^ 63 }
        ensures types { self.new.types ≡ self.old.types }
        ensures rows { self.new.rows ≡ self.old.rows ++ self.old.unfinished ∷ [] }
        ensures unfinished { self.new.unfinished ≡ [] }
    {
        self.len += 1;
        self.started = 0;
    }
}
