//! What plans of queries are made from, and what their costs are estimated from.

use crate::costed_queries::query_text;
use crate::rows::{has_number, index_of};
use access::frame;
use expr::{BoundExpr, ColumnId, copy_expr};
use memory::{Items, boxed};
use resolve::{Bound, bind};
use rewrite::{Simplified, simplify};
use row_ast::Query;
use stats::Stats;
use std::alloc::{AllocError, AllocGlobal, Global};
use std::process::Abort;
use store::Store;
use syntax::parse_query;
use tables::Table;
use trailcheck::Setting;
use tuples::Guard;

/// A query, of which some entries have indexes and some have statistics that are not known.
#[derive(Clone, Copy)]
pub struct Asked<'r> {
    /// The query, or its name.
    pub query: &'r str,
    /// The columns that have an index: the number of an entry and that of a column, with a dot between them.
    pub indexes: &'r str,
    /// The numbers of the entries whose statistics are not known.
    pub unknown: &'r str,
}

/// What its plans are made from, the statistics of each entry, and WHERE.
#[derive(Drop)]
pub struct Planned {
    /// The guards, the indexes and the conditions.
    pub setting: Box<Setting<Global>, Global>,
    /// The statistics of each entry.
    pub statistics: Items<Stats<Global>, Global>,
    /// WHERE.
    pub filter: Option<Box<BoundExpr<Global>, Global>>,
}

/// The column of a text.
pub fn column_of(text: &str) -> Option<ColumnId> {
    let (entry, column) = text.split_once('.')?;
    Some(ColumnId {
        entry: index_of(entry)?,
        column: index_of(column)?,
    })
}

// The number of a column of an entry, where the text is such a column.
fn indexed_column(text: &str, entry: usize) -> Option<u64> {
    let (number, column) = text.split_once('.')?;
    if index_of(number) == Some(entry) {
        column.parse::<u64>().ok()
    } else {
        None
    }
}

// The numbers of the columns of an entry that have an index.
fn indexed_columns(
    alloc: Global,
    indexes: &str,
    entry: usize,
) -> Result<Items<u64, Global>, AllocError> {
    let mut columns = Items::new(alloc);
    for word in indexes.split(' ') {
        if let Some(column) = indexed_column(word, entry) {
            columns.push(column)?;
        }
    }
    Ok(columns)
}

/// Those of each entry.
pub fn indexed(
    alloc: Global,
    indexes: &str,
    entries: usize,
) -> Result<Items<Items<u64, Global>, Global>, AllocError> {
    let mut all = Items::new(alloc);
    for entry in 0..entries {
        all.push(indexed_columns(alloc, indexes, entry)?)?;
    }
    Ok(all)
}

/// The statistics of all rows of a table, of at most six columns.
pub fn whole_stats(alloc: Global, table: &Table<Global>) -> Result<Stats<Global>, AllocError> {
    let columns = [0, 1, 2, 3, 4, 5];
    Stats::of_seen(alloc, table, &Guard::All, "root", &columns)
}

// The statistics of a table, unless they are not known.
fn stats_of(
    rt: &(impl Abort + AllocGlobal),
    store: &Store<Global>,
    table: &str,
    is_unknown: bool,
) -> Result<Stats<Global>, AllocError> {
    if is_unknown {
        return Ok(Stats::unknown());
    }
    match store.contents(table) {
        Some(contents) => whole_stats(rt.alloc(), contents),
        None => panic!(rt; "{table}: no table"),
    }
}

fn statistics(
    rt: &(impl Abort + AllocGlobal),
    store: &Store<Global>,
    bound: &Bound<'_, Global>,
    unknown: &str,
) -> Result<Items<Stats<Global>, Global>, AllocError> {
    let mut all = Items::new(rt.alloc());
    for (i, entry) in bound.entries.as_slice().iter().enumerate() {
        all.push(stats_of(rt, store, entry.table.name(), has_number(unknown, i))?)?;
    }
    Ok(all)
}

fn planned_bound(
    rt: &(impl Abort + AllocGlobal),
    store: &Store<Global>,
    bound: &Bound<'_, Global>,
    asked: Asked<'_>,
) -> Result<Planned, AllocError> {
    let entries = bound.entries.as_slice();
    let Simplified {
        conditions,
        lefts,
        ..
    } = simplify(rt.alloc(), &bound.query)?;
    let setting = Setting {
        frame: frame(rt.alloc(), store.catalog(), "root", entries)?,
        indexed: indexed(rt.alloc(), asked.indexes, entries.len())?,
        conditions,
        lefts,
    };
    let filter = match &bound.query.filter {
        Some(condition) => Some(copy_expr(rt.alloc(), condition)?),
        None => None,
    };
    Ok(Planned {
        setting: boxed(rt.alloc(), setting)?,
        statistics: statistics(rt, store, bound, asked.unknown)?,
        filter,
    })
}

fn planned_query(
    rt: &(impl Abort + AllocGlobal),
    store: &Store<Global>,
    query: &Query<Global>,
    asked: Asked<'_>,
) -> Result<Planned, AllocError> {
    match bind(rt.alloc(), store.catalog(), query) {
        Ok(bound) => planned_bound(rt, store, &bound, asked),
        Err(_) => panic!(rt; "{}: not bound", asked.query),
    }
}

/// What the plans of a query are made from.
pub fn make_planned(
    rt: &(impl Abort + AllocGlobal),
    store: &Store<Global>,
    asked: Asked<'_>,
) -> Result<Planned, AllocError> {
    match parse_query(rt.alloc(), query_text(asked.query)) {
        Ok(query) => planned_query(rt, store, &query, asked),
        Err(_) => panic!(rt; "{}: no query", asked.query),
    }
}

/// The statistics, lent.
pub fn lent(
    alloc: Global,
    statistics: &[Stats<Global>],
) -> Result<Vec<&Stats<Global>, Global>, AllocError> {
    let mut all = Vec::new(alloc);
    for stats in statistics {
        all.push(stats)?;
    }
    Ok(all)
}
