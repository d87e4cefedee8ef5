//! Rows from records.

ghost use Rattle.std.specs.Prelude.{◌≡◌, ◌≢◌, ◌+◌, ◌<◌, ◌^◌, ℕ, [], length, true, None, Some, IfOk, IfErr, IfSome, IsErrOf, OnErr, OnOk};
ghost use Rattle.memory.specs.Gives.{Gives, IsFailure};
ghost use Rattle.memory.specs.declared.failure.Failure.TheVariants.{Error};
ghost use Rattle.csv_records.specs.Left.{TakesNext, counted};
ghost use Rattle.value.specs.Columns.{column_of, columns_of, fits_type};
ghost use Rattle.value.specs.Datum.{null_or};
ghost use Rattle.columns.specs.Rows.{types_of};
ghost use Rattle.tables.specs.Loading.{cell_of, cells_of, names, reported};
ghost use Rattle.tables.specs.Reading.{Added, AddsRow, HeaderIs, LoadFollows, Refuses, RowsFollow};
ghost use Rattle.tables.specs.declared.LoadError.TheVariants.{Reader};

use crate::LoadError;
use columns::Rows;
use csv_records::{Record, RecordError, Records};
use memory::{Failure, Heap};
use std::io::Read;
use value::{Column, Lent, read_value};

// The value of a cell, or none for null. A field of a bigint or boolean column is not tested for UTF-8, since only ASCII spells one.
fn read_cell<'f, A: Heap>(
    column: &Column<A>,
    field: &'f [u8],
    row: u64,
    at: u64,
) -> Result<Option<Lent<'f>>, Failure<LoadError>>
    ensures cell { Gives null_or result (cell_of (column_of column.now) row at field.now) }
    ensures fits { IfOk result (λ v. fits_type column.now.data_type (null_or v) ≡ true) }
    ensures no_reader { IfErr result (λ e. (r : ℕ) → e ≢ Error (Reader r)) }
{
    if field == b"\\N".as_slice() {
        if column.not_null {
            return Err(Failure::Error(LoadError::NotNull { row, column: at }));
        }
        return Ok(None);
    }
    match read_value(column.data_type, field) {
        Ok(value) => Ok(Some(value)),
        Err(_) => Err(Failure::Error(LoadError::Cell { row, column: at })),
    }
}

// Adds the values of a row to the unfinished row, which has none.
fn add_cells<A: Heap>(
    columns: &[Column<A>],
    cells: &Record<'_>,
    row: u64,
    rows: &mut Rows<A>,
) -> Result<(), Failure<LoadError>>
    requires none { rows.old.unfinished ≡ [] }
    requires types { rows.old.types ≡ types_of (columns_of columns.now) }
    requires wide { length cells.now ≡ length columns.now }
    requires room { length rows.old.rows < 2 ^ 63 }
    ensures types { rows.new.types ≡ rows.old.types }
    ensures rows { rows.new.rows ≡ rows.old.rows }
    ensures wide { OnOk result (length rows.new.unfinished ≡ length columns.now) }
    ensures cells { Gives (λ _. rows.new.unfinished) result (cells_of (columns_of columns.now) row 0 cells.now) }
    ensures no_reader { IfErr result (λ e. (r : ℕ) → e ≢ Error (Reader r)) }
{
    for (i, column) in columns.iter().enumerate() {
        let Some(field) = cells.get(i) else {
            return Err(Failure::Error(LoadError::Reader { row }));
        };
        let value = read_cell(column, field, row, i as u64)?;
        rows.push_cell(value)?;
    }
    Ok(())
}

// Adds a row. After an error its first values may be there, in the unfinished row.
fn add_row<A: Heap>(
    columns: &[Column<A>],
    cells: &Record<'_>,
    row: u64,
    rows: &mut Rows<A>,
) -> Result<(), Failure<LoadError>>
    requires none { rows.old.unfinished ≡ [] }
    requires types { rows.old.types ≡ types_of (columns_of columns.now) }
    requires wide { length cells.now ≡ length columns.now }
    requires room { length rows.old.rows < 2 ^ 63 }
    ensures types { rows.new.types ≡ rows.old.types }
    ensures finished { OnOk result (rows.new.unfinished ≡ []) }
    ensures row { OnOk result (AddsRow (columns_of columns.now) row cells.now rows.old.rows rows.new.rows) }
    ensures kept { OnErr result (rows.new.rows ≡ rows.old.rows) }
    ensures refused { IfErr result (λ e. IsFailure e (cells_of (columns_of columns.now) row 0 cells.now)) }
    ensures no_reader { IfErr result (λ e. (r : ℕ) → e ≢ Error (Reader r)) }
{
    add_cells(columns, cells, row, rows)?;
    rows.finish_row();
    Ok(())
}

// The error that is reported where the record of a row was not read.
fn reported(error: Failure<RecordError>, row: u64) -> Failure<LoadError>
    ensures { result ≡ reported error row }
{
    match error {
        Failure::Error(_) => Failure::Error(LoadError::Reader { row }),
        Failure::OutOfMemory => Failure::OutOfMemory,
    }
}

// Reads the next record: true where there was one.
fn next_record<R: Read>(records: &mut Records<R>, row: u64) -> Result<bool, Failure<LoadError>>
    ensures gives { IfOk result (λ found. TakesNext records.old records.new found records.new.fields) }
    ensures given { IfOk result (λ found. records.new.given ≡ counted found records.old.given) }
    ensures no_more { OnErr result (records.new.given ≡ records.old.given) }
    ensures goes_on { OnOk result (records.new.failure ≡ records.old.failure) }
    ensures refuses { IfErr result (λ e. Refuses row records.old records.new e) }
{
    match records.read() {
        Ok(found) => Ok(found),
        Err(error) => Err(reported(error, row)),
    }
}

// Adds the rows of the records that are left, where there is room for so many. After an error some of them may be there.
fn add_rows<A: Heap, R: Read>(
    columns: &[Column<A>],
    records: &mut Records<R>,
    room: u64,
    rows: &mut Rows<A>,
) -> Result<(), Failure<LoadError>>
    requires none { rows.old.unfinished ≡ [] }
    requires types { rows.old.types ≡ types_of (columns_of columns.now) }
    requires expected { records.old.expected ≡ Some (length columns.now) }
    requires given { records.old.given ≡ 1 }
    requires fresh { records.old.failure ≡ None }
    requires room { length rows.old.rows + room < 2 ^ 63 }
    ensures types { rows.new.types ≡ rows.old.types }
    ensures finished { OnOk result (rows.new.unfinished ≡ []) }
    ensures failed { IfSome records.new.failure (λ why. IsErrOf result (reported why records.new.given)) }
    ensures rows { Added (columns_of columns.now) room (RowsFollow (columns_of columns.now) room records.old.records records.new) rows.old.rows rows.new.rows result }
{
    for done in 0..room {
        let row = done + 1;
        if !next_record(records, row)? {
            return Ok(());
        }
        add_row(columns, &records.record(), row, rows)?;
    }
    if next_record(records, room + 1)? {
        return Err(Failure::Error(LoadError::TooMany));
    }
    Ok(())
}

// True where the fields are the names of the columns.
fn has_names<A: Heap>(columns: &[Column<A>], cells: &Record<'_>) -> bool
    ensures names { result ≡ names (columns_of columns.now) cells.now }
    ensures len { result ≡ true → length cells.now ≡ length columns.now }
{
    if cells.len() != columns.len() {
        return false;
    }
    for (i, column) in columns.iter().enumerate() {
        let Some(field) = cells.get(i) else {
            return false;
        };
        if field != column.name.as_str().as_bytes() {
            return false;
        }
    }
    true
}

// Reads the header.
fn read_header<A: Heap, R: Read>(
    columns: &[Column<A>],
    records: &mut Records<R>,
) -> Result<(), Failure<LoadError>>
    requires expected { records.old.expected ≡ None }
    requires given { records.old.given ≡ 0 }
    requires fresh { records.old.failure ≡ None }
    ensures expected { OnOk result (records.new.expected ≡ Some (length columns.now)) }
    ensures given { OnOk result (records.new.given ≡ 1) }
    ensures fresh { OnOk result (records.new.failure ≡ None) }
    ensures failed { IfSome records.new.failure (λ why. IsErrOf result (reported why records.new.given)) }
    ensures header { HeaderIs (columns_of columns.now) records.old records.new result }
{
    if next_record(records, 0)? && has_names(columns, &records.record()) {
        Ok(())
    } else {
        Err(Failure::Error(LoadError::Header))
    }
}

/// Adds the rows of all the records, the header among them, where there is room for so many rows. After an error some of
/// them may be there.
pub(crate) fn add_records<A: Heap, R: Read>(
    columns: &[Column<A>],
    records: &mut Records<R>,
    room: u64,
    rows: &mut Rows<A>,
) -> Result<(), Failure<LoadError>>
    requires none { rows.old.unfinished ≡ [] }
    requires types { rows.old.types ≡ types_of (columns_of columns.now) }
    requires expected { records.old.expected ≡ None }
    requires given { records.old.given ≡ 0 }
    requires fresh { records.old.failure ≡ None }
    requires room { length rows.old.rows + room < 2 ^ 63 }
    ensures types { rows.new.types ≡ rows.old.types }
    ensures finished { OnOk result (rows.new.unfinished ≡ []) }
    ensures failed { IfSome records.new.failure (λ why. IsErrOf result (reported why records.new.given)) }
    ensures rows { Added (columns_of columns.now) room (LoadFollows (columns_of columns.now) room records.old.records records.new) rows.old.rows rows.new.rows result }
{
    read_header(columns, records)?;
    add_rows(columns, records, room, rows)
}
