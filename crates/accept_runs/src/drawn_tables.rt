//! Tables that are drawn from a seed.

use fixture_plans::Random;
use memory::{Items, Text};
use std::alloc::{AllocError, AllocGlobal, Global};
use std::process::Abort;
use tables::Table;
use value::{ColType, Column};

// Adds a number below 4, or null.
fn push_cell(text: &mut String, random: &mut Random) -> Result<(), AllocError> {
    match random.below(5) {
        4 => text.push_str("\\N"),
        number => write!(text, "{number}"),
    }
}

// A text of up to so many rows of two columns.
fn csv(alloc: Global, random: &mut Random, most: u64) -> Result<String, AllocError> {
    let mut text = String::new(alloc);
    text.push_str("a,b\n")?;
    for _ in 0..random.below(most.saturating_add(1)) {
        push_cell(&mut text, random)?;
        text.push_str(",")?;
        push_cell(&mut text, random)?;
        text.push_str("\n")?;
    }
    Ok(text)
}

fn column(alloc: Global, name: &str) -> Result<Column<Global>, AllocError> {
    Ok(Column {
        name: Text::new(alloc, name)?,
        data_type: ColType::Bigint,
        not_null: false,
    })
}

fn drawn_table(
    rt: &(impl Abort + AllocGlobal),
    random: &mut Random,
    most: u64,
) -> Result<Table<Global>, AllocError> {
    let mut columns = Items::new(rt.alloc());
    columns.push(column(rt.alloc(), "a")?)?;
    columns.push(column(rt.alloc(), "b")?)?;
    let text = csv(rt.alloc(), random, most)?;
    match Table::load(rt.alloc(), text.as_bytes(), columns) {
        Ok(table) => Ok(table),
        Err(_) => panic!(rt; "no table"),
    }
}

/// So many tables of two columns: of up to ten rows, or six where there are more than two tables.
pub fn drawn_tables(
    rt: &(impl Abort + AllocGlobal),
    random: &mut Random,
    count: u64,
) -> Result<Vec<Table<Global>>, AllocError> {
    let most = if count > 2 { 6 } else { 10 };
    let mut tables = Vec::new(rt.alloc());
    for _ in 0..count {
        tables.push(drawn_table(rt, random, most)?)?;
    }
    Ok(tables)
}
