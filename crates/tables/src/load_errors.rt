//! The column and the line of a load error.

ghost use Rattle.std.specs.Prelude.{◌≡◌, ◌++◌, OnOk, slice_get};
ghost use Rattle.value.specs.Columns.{columns_of};
ghost use Rattle.tables.specs.LoadErrors.{column_name, in_column, in_row, load_error_line, name_at};

use crate::LoadError;
use memory::{Heap, push_number, push_str};
use std::alloc::AllocError;
use value::Column;

// The name of the column at an index; empty where there is none.
fn name_at<A: Heap>(columns: &[Column<A>], index: u64) -> &str
    ensures { result.now ≡ name_at (slice_get (columns_of columns.now) index) }
{
    match columns.get(index as usize) {
        Some(column) => column.name.as_str(),
        None => "",
    }
}

/// The name of the column of a load error; empty for an error of no column.
pub fn column_name<A: Heap>(columns: &[Column<A>], error: LoadError) -> &str
    ensures { result.now ≡ column_name (columns_of columns.now) error }
{
    match error {
        LoadError::Cell { row: _, column } | LoadError::NotNull { row: _, column } => {
            name_at(columns, column)
        }
        LoadError::Header | LoadError::Reader { .. } | LoadError::TooMany => "",
    }
}

fn push_row<A: Heap>(line: &mut Vec<u8, A>, row: u64) -> Result<(), AllocError>
    ensures { OnOk result (line.new.items ≡ line.old.items ++ in_row row) }
{
    push_str(line, " row ")?;
    push_number(line, row)
}

fn push_column<A: Heap>(line: &mut Vec<u8, A>, column: &str) -> Result<(), AllocError>
    ensures { OnOk result (line.new.items ≡ line.old.items ++ in_column column.now) }
{
    push_str(line, " column ")?;
    push_str(line, column)
}

/// Adds the line of a load error of a table, with the name of its column, and without LF; rows count from 1, and row 0 is the
/// header.
pub fn push_load_error<A: Heap>(
    line: &mut Vec<u8, A>,
    table: &str,
    column: &str,
    error: LoadError,
) -> Result<(), AllocError>
    ensures { OnOk result (line.new.items ≡ line.old.items ++ load_error_line table.now column.now error) }
{
    push_str(line, "data ")?;
    push_str(line, table)?;
    match error {
        LoadError::Header => push_str(line, " header"),
        LoadError::Reader { row } => push_row(line, row),
        LoadError::Cell { row, column: _ } => {
            push_row(line, row)?;
            push_column(line, column)
        }
        LoadError::NotNull { row, column: _ } => {
            push_row(line, row)?;
            push_column(line, column)?;
            push_str(line, " null")
        }
        LoadError::TooMany => push_str(line, " limit"),
    }
}
