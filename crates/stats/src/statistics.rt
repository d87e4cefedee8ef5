//! The statistics of the rows of a table that a role sees.

ghost use Rattle.std.specs.Prelude.{◌≡◌, IfOk, filter, length};
ghost use Rattle.tuples.specs.Guards.{shows};
ghost use Rattle.tuples.specs.View.{guard_of};
ghost use Rattle.stats.specs.Statistics as spec;
ghost use Rattle.stats.specs.View.{stats_of};

use crate::marked_stats::MarkedStats;
use lane_filters::seen_rows;
use memory::{Heap, Items};
use std::alloc::AllocError;
use tables::Table;
use tuples::Guard;

/// The least and the greatest of some whole numbers.
#[derive(Clone, Copy, Debug, PartialEq, Eq)]
pub struct Bounds {
    /// The least.
    pub least: i64,
    /// The greatest.
    pub greatest: i64,
}

/// The statistics of a column.
#[derive(Clone, Copy, Debug, PartialEq, Eq)]
pub struct ColumnStats {
    /// How many of its values are distinct, apart from null.
    pub distinct: u64,
    /// The bounds of its whole numbers, if it has any.
    pub bounds: Option<Bounds>,
}

/// Those of a column without values.
pub(crate) const NO_VALUES: ColumnStats = ColumnStats {
    distinct: 0,
    bounds: None,
};

/// The statistics of rows of a table (Selinger et al. 1979, section 4).
#[derive(Debug, Drop)]
pub enum Stats<A: Heap> {
    /// They are not known, or not to be used.
    Unknown,
    /// Those of the rows.
    Known {
        /// The number of rows.
        rows: u64,
        /// The statistics of each column.
        columns: Items<ColumnStats, A>,
    },
}

impl<A: Heap> Stats<A> {
    /// The statistics of the rows of a table that a guard shows to a role, restricted to some columns, counted from 0; the others
    /// count as columns without values. It fails where memory runs out.
    pub fn of_seen(
        alloc: A,
        table: &Table<A>,
        guard: &Guard<A>,
        role: &str,
        columns: &[usize],
    ) -> Result<Stats<A>, AllocError>
        ensures { IfOk result (λ s. stats_of s ≡ spec.seen_stats columns.now (length table.now.columns) (filter (shows role.now (guard_of guard.now)) table.now.rows)) }
    {
        let seen = seen_rows(alloc, table, guard, role)?;
        MarkedStats::new(alloc, seen).statistics(alloc, table, columns)
    }

    /// Those of a table whose rows are not to be counted: 1,000 rows, and ten distinct values in each column. The engine has no use
    /// for them, since a role may count the rows that it sees.
    pub fn unknown() -> Stats<A>
        ensures { stats_of result ≡ spec.Unknown }
    {
        Stats::Unknown
    }

    /// The number of rows.
    pub fn rows(&self) -> u64
        ensures { result ≡ spec.row_count (stats_of self.now) }
    {
        match self {
            Stats::Unknown => 1000,
            Stats::Known { rows, .. } => *rows,
        }
    }

    /// The statistics of a column, counted from 0.
    pub fn column(&self, column: usize) -> ColumnStats
        ensures { result ≡ spec.column_stats (stats_of self.now) column }
    {
        match self {
            Stats::Unknown => ColumnStats {
                distinct: 10,
                bounds: None,
            },
            Stats::Known { columns, .. } => match columns.get(column) {
                Some(stats) => *stats,
                None => NO_VALUES,
            },
        }
    }
}
