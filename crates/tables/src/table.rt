//! A table and its rows.

ghost use Rattle.std.specs.Prelude.{◌≡◌, ◌-◌, ◌<◌, ◌≤◌, None, List, [], length, map, get_or, All, IfOk, IfSome, IsErrOf, OnErr, OnOk, take};
ghost use Rattle.memory.specs.Gives.{Gives};
ghost use Rattle.csv_records.specs.Left.{records_of};
ghost use Rattle.value.specs.Columns.{columns_of};
ghost use Rattle.value.specs.Datum.{cell, datum_of, null_or, row_at};
ghost use Rattle.value.specs.declared.types.ColType.TheVariants.{Bigint};
ghost use Rattle.columns.specs.Data.{cells_of, type_of};
ghost use Rattle.columns.specs.Rows.{types_of};
ghost use Rattle.tables.specs.Loading.{Fields, NoTextIsNull, StopsAfterGood, UnlessUnread, appended, load_of, reported};
ghost use Rattle.tables.specs.declared.TheConstants.{MAX_ROWS};

use crate::load::add_records;
use crate::{LoadError, MAX_ROWS};
use columns::{ColumnData, Rows};
use csv_records::Records;
use memory::{Failure, Heap, Items};
use std::alloc::AllocError;
use std::io::Read;
use std::marker::Model;
use value::{Column, Lent, Val};

/// A table: its columns, and its rows in the order in which they were read.
#[derive(Drop)]
pub struct Table<A: Heap> {
    alloc: A,
    columns: Items<Column<A>, A>,
    rows: Rows<A>,
}

impl<A: Heap> Model for Table<A> {
    ghost use Rattle.tables.specs.Loading.{TableRows};

    ghost Value = { TableRows };

    ghost use Rattle.tables.specs.Holding.{contents_of, IsHeld};

    ghost view = { contents_of };

    ghost invariant = { IsHeld };
}

impl<A: Heap> Table<A> {
    /// A table with no rows.
    pub fn new(alloc: A, columns: Items<Column<A>, A>) -> Result<Table<A>, AllocError>
        ensures columns { IfOk result (λ t. t.columns ≡ columns_of columns) }
        ensures rows { IfOk result (λ t. t.rows ≡ []) }
    {
        let rows = Rows::new(alloc, columns.as_slice())?;
        Ok(Table {
            alloc,
            columns,
            rows,
        })
    }

    /// The table of the records that a reader gives, of which the first is the names of the columns (PostgreSQL: COPY
    /// with `FORMAT csv`, `HEADER MATCH` and `NULL '\N'`, but here a quoted `\N` is null too). A read that failed is
    /// reported at the row that was not read, or as out of memory; another error is the first one of the records.
    pub fn load<R: Read + Drop>(
        alloc: A,
        reader: R,
        columns: Items<Column<A>, A>,
    ) -> Result<Table<A>, Failure<LoadError>>
        ensures columns { IfOk result (λ t. t.columns ≡ columns_of columns) }
        ensures exact { IfSome (R.remaining reader) (λ bytes. UnlessUnread result (Gives (λ t. t.rows) result (load_of (columns_of columns) MAX_ROWS (records_of bytes)))) }
        // The same of bytes that are not known: some records were read.
        ensures some_records { UnlessUnread result ((recs : List Fields) × Gives (λ t. t.rows) result (load_of (columns_of columns) MAX_ROWS recs)) }
        ensures stops { IfSome (R.remaining reader) (λ bytes. StopsAfterGood (columns_of columns) MAX_ROWS (records_of bytes) result) }
    {
        let mut records = Records::new(alloc.global(), reader);
        Table::load_records(alloc, &mut records, columns)
    }

    /// Adds all the rows of the records that a reader gives, as `load` reads them, or reports an error and adds none.
    pub fn append<R: Read + Drop>(&mut self, reader: R) -> Result<(), Failure<LoadError>>
        ensures columns { self.new.columns ≡ self.old.columns }
        ensures unchanged { OnErr result (self.new ≡ self.old) }
        ensures exact { IfSome (R.remaining reader) (λ bytes. UnlessUnread result (Gives (λ _. self.new.rows) result (appended self.old.rows (load_of self.old.columns (MAX_ROWS - length self.old.rows) (records_of bytes))))) }
        // The same of bytes that are not known: some records were read.
        ensures some_records { UnlessUnread result ((recs : List Fields) × Gives (λ _. self.new.rows) result (appended self.old.rows (load_of self.old.columns (MAX_ROWS - length self.old.rows) recs))) }
        ensures stops { IfSome (R.remaining reader) (λ bytes. StopsAfterGood self.old.columns (MAX_ROWS - length self.old.rows) (records_of bytes) result) }
    {
        let mut records = Records::new(self.alloc.global(), reader);
        self.append_records(&mut records)
    }

    /// The table of records, of which none was read before, as `load` reads them. A contract sees the failure of a
    /// read, if there was one: then the error is the one that is reported of it; otherwise it is the first one of the
    /// records.
    pub fn load_records<R: Read>(
        alloc: A,
        records: &mut Records<R>,
        columns: Items<Column<A>, A>,
    ) -> Result<Table<A>, Failure<LoadError>>
        requires expected { records.old.expected ≡ None }
        requires given { records.old.given ≡ 0 }
        requires fresh { records.old.failure ≡ None }
        ensures columns { IfOk result (λ t. t.columns ≡ columns_of columns) }
        ensures exact { records.new.failure ≡ None → IfSome records.old.records (λ recs. Gives (λ t. t.rows) result (load_of (columns_of columns) MAX_ROWS recs)) }
        // The same of records that are not known: some records were read, as many as were given.
        ensures some_records { records.new.failure ≡ None → (recs : List Fields) × Gives (λ t. t.rows) result (load_of (columns_of columns) MAX_ROWS recs) × OnOk result (length recs ≡ records.new.given) }
        ensures failed { IfSome records.new.failure (λ why. IsErrOf result (reported why records.new.given)) }
        ensures stops { IfSome records.old.records (λ recs. StopsAfterGood (columns_of columns) MAX_ROWS recs result) }
    {
        let mut table = Table::new(alloc, columns)?;
        table.append_records(records)?;
        Ok(table)
    }

    /// Adds all the rows of records, as `load_records` reads them, or reports an error and adds none.
    pub fn append_records<R: Read>(
        &mut self,
        records: &mut Records<R>,
    ) -> Result<(), Failure<LoadError>>
        requires expected { records.old.expected ≡ None }
        requires given { records.old.given ≡ 0 }
        requires fresh { records.old.failure ≡ None }
        ensures columns { self.new.columns ≡ self.old.columns }
        ensures unchanged { OnErr result (self.new ≡ self.old) }
        ensures exact { records.new.failure ≡ None → IfSome records.old.records (λ recs. Gives (λ _. self.new.rows) result (appended self.old.rows (load_of self.old.columns (MAX_ROWS - length self.old.rows) recs))) }
        // The same of records that are not known: some records were read, as many as were given.
        ensures some_records { records.new.failure ≡ None → (recs : List Fields) × Gives (λ _. self.new.rows) result (appended self.old.rows (load_of self.old.columns (MAX_ROWS - length self.old.rows) recs)) × OnOk result (length recs ≡ records.new.given) }
        ensures failed { IfSome records.new.failure (λ why. IsErrOf result (reported why records.new.given)) }
        ensures stops { IfSome records.old.records (λ recs. StopsAfterGood self.old.columns (MAX_ROWS - length self.old.rows) recs result) }
    {
        let before = self.rows.len();
        let room = MAX_ROWS - before as u64;
        let columns = self.columns.as_slice();
        match add_records(columns, records, room, &mut self.rows) {
            Ok(()) => Ok(()),
            Err(error) => {
                self.rows.truncate(before);
                Err(error)
            }
        }
    }

    /// Drops the rows from a number on, which counts from 0. It takes no memory.
    pub fn truncate(&mut self, rows: u64)
        ensures columns { self.new.columns ≡ self.old.columns }
        ensures rows { self.new.rows ≡ take rows self.old.rows }
    {
        let len = self.rows.len();
        self.rows.truncate(len.min(rows as usize));
    }

    /// The columns, in order.
    pub fn columns(&self) -> &[Column<A>]
        ensures { columns_of result.now ≡ self.now.columns }
    {
        self.columns.as_slice()
    }

    /// The number of rows.
    pub fn rows(&self) -> u64
        ensures rows { result ≡ length self.now.rows }
        ensures few { result ≤ MAX_ROWS }
        ensures wide { All (λ r. length r ≡ length self.now.columns) self.now.rows }
    {
        self.rows.len() as u64
    }

    /// The value of a cell, with row and column counted from 0, unless it is null.
    pub fn value(&self, row: u64, column: u64) -> Option<Lent<'_>>
        requires row { row < length self.now.rows }
        requires column { column < length self.now.columns }
        ensures { null_or result ≡ cell (row_at self.now.rows row) column }
    {
        self.rows.cell(row as usize, column as usize)
    }

    /// A cell, with row and column counted from 0.
    pub fn cell(&self, row: u64, column: u64) -> Val<'_, A>
        requires row { row < length self.now.rows }
        requires column { column < length self.now.columns }
        ensures { datum_of result ≡ cell (row_at self.now.rows row) column }
    {
        Val::of(self.value(row, column))
    }

    /// The value in a column of the row of that number, both counted from 0; none for null, and beyond the rows and columns of the
    /// table.
    pub fn get(&self, number: u32, column: usize) -> Option<Lent<'_>>
        ensures { null_or result ≡ cell (row_at self.now.rows number) column }
    {
        let number = u64::from(number);
        if number < self.rows() && column < self.columns().len() {
            self.value(number, column as u64)
        } else {
            None
        }
    }

    /// The values of a column, which is counted from 0, in the order of the rows.
    pub fn data(&self, column: u64) -> &ColumnData<A>
        requires { column < length self.now.columns }
        ensures data_type { type_of result.now ≡ get_or (types_of self.now.columns) column Bigint }
        ensures cells { cells_of result.now ≡ map (λ row. cell row column) self.now.rows }
    {
        self.rows.data(column as usize)
    }
}

/// No text that a load gives is the null mark.
pub fn law_no_null_text()
    ensures { NoTextIsNull }
{}
