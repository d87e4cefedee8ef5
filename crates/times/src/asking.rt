//! A query of tables that the role sees whole.

use crate::asked_store::made_store;
use crate::numbers::number_of;
use crate::stop::Stop;
use crate::texts::{Query, Texts, Wanted, asked};
use std::alloc::Global;
use value::MOST_ENTRIES;

/// The most rows of a table, and the most times.
const MOST: u64 = 1_000_000;

// The tables, and how often their query is asked.
#[derive(Clone, Copy, Debug)]
struct Arguments {
    // Its rows or its plan.
    wanted: Wanted,
    // How many tables there are.
    tables: u64,
    // How many rows each has.
    rows: u64,
    // How often it is asked.
    times: u64,
}

// The arguments that the words say, if they say any.
fn read_arguments(words: &[String]) -> Option<Arguments> {
    match words {
        [wanted, tables, rows, times] => Some(Arguments {
            wanted: Wanted::named(wanted.as_str())?,
            tables: number_of(tables.as_str(), 1, MOST_ENTRIES as u64)?,
            rows: number_of(rows.as_str(), 1, MOST)?,
            times: number_of(times.as_str(), 0, MOST)?,
        }),
        _ => None,
    }
}

/// Asks as the words say, and returns the status of the last reply with its length.
pub(crate) fn asked_line(alloc: Global, words: &[String]) -> Result<String, Stop> {
    let Some(arguments) = read_arguments(words) else {
        return Err(Stop::Usage);
    };
    let Some(store) = made_store(alloc, arguments.tables, arguments.rows)? else {
        return Err(Stop::OutOfMemory);
    };
    let texts = Texts {
        role: "root",
        query: Query::Tables(arguments.tables),
        count: arguments.times,
    };
    Ok(asked(alloc, store, arguments.wanted, texts)?)
}
