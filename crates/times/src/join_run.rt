//! The run of a join of two tables.

use crate::join::Join;
use crate::join_code::{Counts, joined};
use crate::join_tables::{table_a, table_b};
use crate::numbers::number_of;
use crate::stop::Stop;
use std::alloc::Global;

/// The most rows of a table.
const MOST_ROWS: u64 = 1_000_000;

// The join that is run, and the tables that it is run over.
#[derive(Clone, Copy, Debug)]
struct Arguments {
    // The join.
    join: Join,
    // How many rows each table has.
    rows: u64,
}

// The arguments that the words say, if they say any.
fn read_arguments(words: &[String]) -> Option<Arguments> {
    match words {
        [join, rows] => Some(Arguments {
            join: Join::named(join.as_str())?,
            rows: number_of(rows.as_str(), 1, MOST_ROWS)?,
        }),
        _ => None,
    }
}

// The counts of the join that the arguments say, over tables of as many rows as they say. Without a join the tables alone are made.
fn counted(alloc: Global, arguments: Arguments) -> Result<Counts, Stop> {
    let a = table_a(alloc, arguments.rows)?;
    let b = table_b(alloc, arguments.rows)?;
    let Some(method) = arguments.join.method() else {
        return Ok(Counts {
            combinations: 0,
            steps: 0,
        });
    };
    match joined(alloc, &a, &b, arguments.join, method)? {
        Some(counts) => Ok(counts),
        None => Err(Stop::Code),
    }
}

/// Joins as the words say, and returns how many combinations and steps there were.
pub(crate) fn run_line(alloc: Global, words: &[String]) -> Result<String, Stop> {
    let Some(arguments) = read_arguments(words) else {
        return Err(Stop::Usage);
    };
    let counts = counted(alloc, arguments)?;
    Ok(format!(in alloc; "{} {}", counts.combinations, counts.steps)?)
}
