//! The rows of the tables.

use memory::{Items, Text};
use std::alloc::{AllocError, Global};
use value::{ColType, Column};

/// The lengths of the tables: none, a few, about a word, about two words.
pub static LENGTHS: [usize; 7] = [0, 1, 7, 63, 64, 65, 130];

/// The values of a column, over and over; null where there is none.
pub static VALUES: [Option<i64>; 9] = [
    Some(-3),
    None,
    Some(i64::MIN),
    Some(7),
    Some(i64::MAX),
    Some(0),
    None,
    Some(7),
    Some(-1),
];

/// The value of the first column in a row.
pub fn first(row: usize) -> Option<i64> {
    VALUES[row % 9]
}

/// The value of the second column in a row.
pub fn second(row: usize) -> Option<i64> {
    VALUES[(row % 9 * 2 + row / 9 % 9 + 4) % 9]
}

fn push_cell(text: &mut String, value: Option<i64>) -> Result<(), AllocError> {
    match value {
        Some(n) => write!(text, "{n}"),
        None => text.push_str("\\N"),
    }
}

/// The text of a table of so many rows: two columns of numbers, and one of texts.
pub fn csv(alloc: Global, rows: usize) -> Result<String, AllocError> {
    let mut text = String::new(alloc);
    text.push_str("a,b,t\n")?;
    for row in 0..rows {
        push_cell(&mut text, first(row))?;
        text.push_str(",")?;
        push_cell(&mut text, second(row))?;
        text.push_str(",x\n")?;
    }
    Ok(text)
}

fn column(alloc: Global, name: &str, data_type: ColType) -> Result<Column<Global>, AllocError> {
    Ok(Column {
        name: Text::new(alloc, name)?,
        data_type,
        not_null: false,
    })
}

/// The columns of the tables.
pub fn columns(alloc: Global) -> Result<Items<Column<Global>, Global>, AllocError> {
    let mut columns = Items::new(alloc);
    columns.push(column(alloc, "a", ColType::Bigint)?)?;
    columns.push(column(alloc, "b", ColType::Bigint)?)?;
    columns.push(column(alloc, "t", ColType::Text)?)?;
    Ok(columns)
}
