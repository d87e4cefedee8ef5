//! A query of a table of which the role sees one row in 500.

use crate::asked_store::key;
use crate::numbers::number_of;
use crate::stop::Stop;
use crate::texts::{Query, Texts, Wanted, asked};
use engine::Store;
use setup::apply_schema;
use std::alloc::{AllocError, Global};

const SCHEMA: &str = "CREATE ROLE r; CREATE TABLE t (id bigint, owner text, val bigint);
CREATE INDEX ti ON t (id); ALTER TABLE t ENABLE ROW LEVEL SECURITY;
CREATE POLICY own ON t USING (owner = CURRENT_USER); GRANT SELECT ON t TO r;";

/// The most rows of the table, and the most texts.
const MOST: u64 = 1_000_000;

// What is asked of the table, and how often.
#[derive(Clone, Copy, Debug)]
struct Arguments {
    // The rows or the plan.
    wanted: Wanted,
    // How many rows the table has.
    rows: u64,
    // How many texts there are.
    texts: u64,
}

// The arguments that the words say, if they say any.
fn read_arguments(words: &[String]) -> Option<Arguments> {
    match words {
        [wanted, rows, texts] => Some(Arguments {
            wanted: Wanted::named(wanted.as_str())?,
            rows: number_of(rows.as_str(), 1, MOST)?,
            texts: number_of(texts.as_str(), 0, MOST)?,
        }),
        _ => None,
    }
}

// The CSV text of so many rows.
fn csv(alloc: Global, rows: u64) -> Result<String, AllocError> {
    let mut text = String::new(alloc);
    text.push_str("id,owner,val\n")?;
    for row in 1..=rows {
        let key = key(row, rows);
        let owner = if row % 500 == 0 { "r" } else { "other" };
        write!(text, "{key},{owner},{row}\n")?;
    }
    Ok(text)
}

// The store of the table, or nothing where it is not made.
fn made_store(alloc: Global, rows: u64) -> Result<Option<Store<Global>>, AllocError> {
    let mut store = Store::new(alloc)?;
    let rows = csv(alloc, rows)?;
    let made = apply_schema(alloc, &mut store, SCHEMA).is_ok()
        && store.load("t", rows.as_str().as_bytes()).is_ok();
    if made { Ok(Some(store)) } else { Ok(None) }
}

/// Asks as the words say, and returns the status of the last reply with its length.
pub(crate) fn known_line(alloc: Global, words: &[String]) -> Result<String, Stop> {
    let Some(arguments) = read_arguments(words) else {
        return Err(Stop::Usage);
    };
    let Some(store) = made_store(alloc, arguments.rows)? else {
        return Err(Stop::OutOfMemory);
    };
    let texts = Texts {
        role: "r",
        query: Query::Key,
        count: arguments.texts,
    };
    Ok(asked(alloc, store, arguments.wanted, texts)?)
}
