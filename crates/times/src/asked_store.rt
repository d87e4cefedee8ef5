//! Tables t1, t2 and so on, each with an index on its key, and the query that is asked of them.

use engine::Store;
use setup::apply_schema;
use std::alloc::{AllocError, Global};

// The schema of so many tables.
fn schema(alloc: Global, tables: u64) -> Result<String, AllocError> {
    let mut text = String::new(alloc);
    for t in 1..=tables {
        write!(
            text,
            "CREATE TABLE t{t} (id bigint, val bigint); CREATE INDEX t{t}_id ON t{t} (id);\n"
        )?;
    }
    Ok(text)
}

/// The key of the row of that number, which counts from 1: each of 1 to so many once, unless 7919 divides their number.
pub(crate) fn key(row: u64, rows: u64) -> u64 {
    row.wrapping_mul(7919)
        .checked_rem(rows)
        .unwrap_or(0)
        .wrapping_add(1)
}

// The CSV text of so many rows.
fn csv(alloc: Global, rows: u64) -> Result<String, AllocError> {
    let mut text = String::new(alloc);
    text.push_str("id,val\n")?;
    for row in 1..=rows {
        let key = key(row, rows);
        write!(text, "{key},{row}\n")?;
    }
    Ok(text)
}

// Loads each table; false where one is not loaded.
fn load_all(
    alloc: Global,
    store: &mut Store<Global>,
    tables: u64,
    rows: &str,
) -> Result<bool, AllocError> {
    for t in 1..=tables {
        let name = format!(in alloc; "t{t}")?;
        if store.load(name.as_str(), rows.as_bytes()).is_err() {
            return Ok(false);
        }
    }
    Ok(true)
}

/// A store of so many tables of so many rows, or nothing where it is not made.
pub(crate) fn made_store(
    alloc: Global,
    tables: u64,
    rows: u64,
) -> Result<Option<Store<Global>>, AllocError> {
    let mut store = Store::new(alloc)?;
    let schema = schema(alloc, tables)?;
    let rows = csv(alloc, rows)?;
    let made = apply_schema(alloc, &mut store, schema.as_str()).is_ok()
        && load_all(alloc, &mut store, tables, rows.as_str())?;
    if made { Ok(Some(store)) } else { Ok(None) }
}

/// The query, with a number in the name of its column: of one table a row by its key; of more the number of the combinations of a
/// chain, each joined with the next by its key.
pub(crate) fn query(alloc: Global, tables: u64, number: u64) -> Result<String, AllocError> {
    if tables == 1 {
        return format!(in alloc; "SELECT val AS n{number} FROM t1 WHERE id = 77");
    }
    let mut text = format!(in alloc; "SELECT count(*) AS n{number} FROM t1")?;
    for t in 2..=tables {
        let before = t.wrapping_sub(1);
        write!(text, " JOIN t{t} ON t{before}.id = t{t}.id")?;
    }
    Ok(text)
}
