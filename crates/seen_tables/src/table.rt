//! What is known of one table for one role.

ghost use Rattle.std.specs.Prelude.{◌≡◌, IfOk, length};
ghost use Rattle.stats.specs.Marked.{AreStatsOf, marked};
ghost use Rattle.stats.specs.Statistics.{seen_stats};
ghost use Rattle.stats.specs.View.{stats_of};
ghost use Rattle.tuples.specs.GuardView.{guard_of};
ghost use Rattle.seen_tables.specs.Known.{IsSeen, is_of};

use columns::Mask;
use lane_filters::seen_rows;
use memory::{Heap, Text};
use stats::{MarkedStats, Stats};
use std::alloc::AllocError;
use std::marker::Model;
use tables::Table;
use tuples::Guard;

/// A table, and the guard of the rows that a role sees of it.
#[derive(Drop)]
pub struct RoleTable<'t, A: Heap> {
    /// The role.
    pub role: &'t str,
    /// The name of the table.
    pub name: &'t str,
    /// The table.
    pub rows: &'t Table<A>,
    /// The guard.
    pub guard: &'t Guard<A>,
}

/// Which rows of a table a role sees, and statistics of these rows.
#[derive(Drop)]
pub(crate) struct SeenTable<A: Heap> {
    role: Text<A>,
    table: Text<A>,
    statistics: MarkedStats<A>,
}

impl<A: Heap> Model for SeenTable<A> {
    ghost use Rattle.seen_tables.specs.Known as spec;

    ghost Value = { spec.SeenTable };

    ghost view = { λ t. record { role = t.role; table = t.table; statistics = t.statistics } };
}

impl<A: Heap> SeenTable<A> {
    /// Which rows of a table a role sees; no column is counted yet. It fails where memory runs out.
    pub(crate) fn new(alloc: A, of: &RoleTable<'_, A>) -> Result<SeenTable<A>, AllocError>
        ensures { IfOk result (λ x. IsSeen of.now.role.now of.now.name.now (guard_of of.now.guard.now) of.now.rows.now.rows x) }
    {
        let marks = seen_rows(alloc, of.rows, of.guard, of.role)?;
        Ok(SeenTable {
            role: Text::new(alloc, of.role)?,
            table: Text::new(alloc, of.name)?,
            statistics: MarkedStats::new(alloc, marks),
        })
    }

    /// True where it is of this role and a table of this name.
    pub(crate) fn is_of(&self, role: &str, table: &str) -> bool
        ensures { result ≡ is_of role.now table.now self.now }
    {
        self.role.as_str() == role && self.table.as_str() == table
    }

    /// Of each row whether the role sees it.
    pub(crate) fn marks(&self) -> &Mask<A>
        ensures { result.now ≡ self.now.statistics.marks }
    {
        self.statistics.marks()
    }

    /// The statistics of the rows that the role sees, restricted to some columns; what was not counted is counted now.
    pub(crate) fn statistics(
        &mut self,
        alloc: A,
        rows: &Table<A>,
        columns: &[usize],
    ) -> Result<Stats<A>, AllocError>
        requires { AreStatsOf rows.now.rows self.old.statistics }
        ensures value { IfOk result (λ s. stats_of s ≡ seen_stats columns.now (length rows.now.columns) (marked self.old.statistics.marks rows.now.rows)) }
        ensures role { self.new.role ≡ self.old.role }
        ensures table { self.new.table ≡ self.old.table }
        ensures marks { self.new.statistics.marks ≡ self.old.statistics.marks }
        ensures stats { AreStatsOf rows.now.rows self.new.statistics }
    {
        self.statistics.statistics(alloc, rows, columns)
    }
}
