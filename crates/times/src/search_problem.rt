//! The problem of the search: what it reads of a query.
//!
//! Each table has 1,000 rows and 64 columns, an id, one for each table, and others; each column has the numbers from 1 to 1,000, and
//! the first ones have an index. A condition joins an entry's column for another table to the id of that table; there are no more
//! than a query may have.

ghost use Rattle.std.specs.Prelude.{◌≡◌, ◌≤◌, IfOk, length};
ghost use Rattle.value.specs.Limits.{most_entries};

use crate::shape::Shape;
use expr::{ColumnId, MovableExpr};
use memory::Items;
use predicates::columns_equal;
use stats::{Bounds, ColumnStats, Stats};
use std::alloc::{AllocError, Global};
use trailcheck::Setting;
use tuples::Guard;
use value::MOST_CONJUNCTS;

/// The number of rows of each table.
const ROWS: u64 = 1000;

/// The number of columns of each table.
const COLUMNS: usize = 64;

// A guard for each entry, which shows every row.
fn frame(alloc: Global, entries: usize) -> Result<Items<Guard<Global>, Global>, AllocError>
    ensures { IfOk result (λ frame. length frame ≡ entries) }
{
    let mut frame = Items::new(alloc);
    for _ in 0..entries {
        frame.push(Guard::All)?;
    }
    Ok(frame)
}

// So many columns, from the first on.
fn first_columns(alloc: Global, count: u64) -> Result<Items<u64, Global>, AllocError> {
    let mut columns = Items::new(alloc);
    for k in 0..count {
        columns.push(k + 1)?;
    }
    Ok(columns)
}

// Of each entry, so many columns.
fn indexed(
    alloc: Global,
    entries: usize,
    indexes: u64,
) -> Result<Items<Items<u64, Global>, Global>, AllocError> {
    let mut indexed = Items::new(alloc);
    for _ in 0..entries {
        let columns = first_columns(alloc, indexes)?;
        indexed.push(columns)?;
    }
    Ok(indexed)
}

// Adds the conditions that join earlier entries to an entry.
fn push_joins(
    alloc: Global,
    known: &mut Items<MovableExpr<Global>, Global>,
    shape: Shape,
    other: usize,
) -> Result<(), AllocError>
    requires { other ≤ most_entries }
{
    for one in 0..other {
        if known.len() < MOST_CONJUNCTS && shape.joins(one, other) {
            let column = ColumnId {
                entry: one,
                column: other + 1,
            };
            let id = ColumnId {
                entry: other,
                column: 0,
            };
            known.push(columns_equal(alloc, column, id)?)?;
        }
    }
    Ok(())
}

// The conditions of a query of a shape.
fn conditions(
    alloc: Global,
    shape: Shape,
    entries: usize,
) -> Result<Items<MovableExpr<Global>, Global>, AllocError>
    requires { entries ≤ most_entries }
{
    let mut conditions = Items::new(alloc);
    for other in 0..entries {
        push_joins(alloc, &mut conditions, shape, other)?;
    }
    Ok(conditions)
}

/// What plans of a query of a shape are made from.
pub(crate) fn setting(
    alloc: Global,
    shape: Shape,
    entries: usize,
    indexes: u64,
) -> Result<Setting<Global>, AllocError>
    requires { entries ≤ most_entries }
    ensures entries { IfOk result (λ s. length s.frame ≡ entries) }
    ensures lefts { IfOk result (λ s. length s.lefts ≡ 0) }
{
    Ok(Setting {
        frame: frame(alloc, entries)?,
        indexed: indexed(alloc, entries, indexes)?,
        conditions: conditions(alloc, shape, entries)?,
        lefts: Items::new(alloc),
    })
}

/// The statistics of each table.
pub(crate) fn table_stats(alloc: Global) -> Result<Stats<Global>, AllocError> {
    let bounds = Bounds {
        least: 1,
        greatest: 1000,
    };
    let mut columns = Items::new(alloc);
    for _ in 0..COLUMNS {
        columns.push(ColumnStats {
            distinct: ROWS,
            bounds: Some(bounds),
        })?;
    }
    Ok(Stats::Known {
        rows: ROWS,
        columns,
    })
}

/// The same statistics for each entry.
pub(crate) fn for_each_entry(
    alloc: Global,
    stats: &Stats<Global>,
    entries: usize,
) -> Result<Vec<&Stats<Global>>, AllocError>
    ensures { IfOk result (λ v. length v.items ≡ entries) }
{
    let mut all = Vec::new(alloc);
    for _ in 0..entries {
        all.push(stats)?;
    }
    Ok(all)
}
