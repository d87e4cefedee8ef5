//! The tables a and b, as bench/join.sh writes them for others.

use memory::{Items, Text};
use std::alloc::{AllocError, Global};
use tables::Table;
use value::{ColType, Column};

// The key of the row of that number, which counts from 1. So many rows have the keys from 1 on, each once, unless the step, a prime
// number, divides their number.
fn key(row: u64, step: u64, rows: u64) -> u64 {
    row.wrapping_mul(step)
        .checked_rem(rows)
        .unwrap_or(0)
        .wrapping_add(1)
}

// The CSV text of so many rows, whose names begin with a letter.
fn csv(alloc: Global, rows: u64, step: u64, letter: &str) -> Result<String, AllocError> {
    let mut text = String::new(alloc);
    text.push_str("id,name\n")?;
    for row in 1..=rows {
        let key = key(row, step, rows);
        let name = row % 7;
        write!(text, "{key},{letter}{name}\n")?;
    }
    Ok(text)
}

fn column(alloc: Global, name: &str, data_type: ColType) -> Result<Column<Global>, AllocError> {
    Ok(Column {
        name: Text::new(alloc, name)?,
        data_type,
        not_null: false,
    })
}

// The table of that text. The text is one of its columns, so that it fails only where memory runs out.
fn made_table(
    alloc: Global,
    rows: u64,
    step: u64,
    letter: &str,
) -> Result<Table<Global>, AllocError> {
    let mut columns = Items::new(alloc);
    columns.push(column(alloc, "id", ColType::Bigint)?)?;
    columns.push(column(alloc, "name", ColType::Text)?)?;
    let text = csv(alloc, rows, step, letter)?;
    match Table::load(alloc, text.as_bytes(), columns) {
        Ok(table) => Ok(table),
        Err(_) => Err(AllocError),
    }
}

/// The table a of so many rows.
pub(crate) fn table_a(alloc: Global, rows: u64) -> Result<Table<Global>, AllocError> {
    made_table(alloc, rows, 7919, "o")
}

/// The table b of so many rows.
pub(crate) fn table_b(alloc: Global, rows: u64) -> Result<Table<Global>, AllocError> {
    made_table(alloc, rows, 104_729, "n")
}
