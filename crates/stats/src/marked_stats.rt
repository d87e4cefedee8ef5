//! The statistics of the rows of a table that are marked.

ghost use Rattle.std.specs.Prelude.{◌≡◌, ◌<◌, Bool, List, IfOk, IfSome, if◌then◌else◌, length, map};
ghost use Rattle.std.specs.List.{Contains};
ghost use Rattle.value.specs.Datum.{Row};
ghost use Rattle.value.specs.Restricted.{is_one_of};
ghost use Rattle.stats.specs.Marked.{AreStatsOf, marked};
ghost use Rattle.stats.specs.Statistics as spec;
ghost use Rattle.stats.specs.View.{stats_of};

use crate::counting::{count_marks, marked_stats};
use crate::statistics::{ColumnStats, NO_VALUES, Stats};
use columns::Mask;
use memory::{Heap, Items};
use std::alloc::AllocError;
use std::marker::Model;
use tables::Table;

/// The statistics of the rows of a table that are marked, of the columns that were counted so far. A contract sees the marks, the number
/// of the rows and the counted columns.
#[derive(Drop)]
pub struct MarkedStats<A: Heap> {
    marks: Mask<A>,
    rows: u64,
    columns: Items<(usize, ColumnStats), A>,
}

impl<A: Heap> Model for MarkedStats<A> {
    ghost use Rattle.stats.specs.Marked as spec;

    ghost Value = { spec.MarkedStats };

    ghost view = { λ s. record { marks = s.marks; rows = s.rows; columns = s.columns } };
}

// Of some counted columns the statistics of one, if it is among them.
fn counted(columns: &[(usize, ColumnStats)], column: usize) -> Option<ColumnStats>
    ensures { IfSome result (λ s. Contains columns.now (column, s)) }
{
    for (counted, stats) in columns {
        if *counted == column {
            return Some(*stats);
        }
    }
    None
}

impl<A: Heap> MarkedStats<A> {
    /// Those of the marked rows of a table, no column of which is counted yet.
    pub fn new(alloc: A, marks: Mask<A>) -> MarkedStats<A>
        ensures marks { result.marks ≡ marks }
        ensures stats { (test : Row → Bool) (rows : List Row) → marks ≡ map test rows → AreStatsOf rows result }
    {
        let rows = count_marks(&marks);
        MarkedStats {
            marks,
            rows,
            columns: Items::new(alloc),
        }
    }

    /// The marks, one for each row.
    pub fn marks(&self) -> &Mask<A>
        ensures { result.now ≡ self.now.marks }
    {
        &self.marks
    }

    // The statistics of a column, which is counted where it was not.
    fn column(
        &mut self,
        alloc: A,
        table: &Table<A>,
        column: usize,
    ) -> Result<ColumnStats, AllocError>
        requires column { column < length table.now.columns }
        requires stats { AreStatsOf table.now.rows self.old }
        ensures value { IfOk result (λ s. s ≡ spec.stats_of_values (spec.values_in (marked self.old.marks table.now.rows) column)) }
        ensures marks { self.new.marks ≡ self.old.marks }
        ensures stats { AreStatsOf table.now.rows self.new }
    {
        if let Some(stats) = counted(self.columns.as_slice(), column) {
            return Ok(stats);
        }
        let stats = marked_stats(alloc, table, &self.marks, column as u64)?;
        self.columns.push((column, stats))?;
        Ok(stats)
    }

    // The statistics of a column, if it is one of those that are wanted.
    fn column_if(
        &mut self,
        alloc: A,
        table: &Table<A>,
        columns: &[usize],
        column: usize,
    ) -> Result<ColumnStats, AllocError>
        requires column { column < length table.now.columns }
        requires stats { AreStatsOf table.now.rows self.old }
        ensures value { IfOk result (λ s. s ≡ (if is_one_of columns.now column then spec.stats_of_values (spec.values_in (marked self.old.marks table.now.rows) column) else spec.no_values)) }
        ensures marks { self.new.marks ≡ self.old.marks }
        ensures stats { AreStatsOf table.now.rows self.new }
    {
        if columns.contains(&column) {
            self.column(alloc, table, column)
        } else {
            Ok(NO_VALUES)
        }
    }

    /// The statistics of these rows, restricted to some columns, counted from 0; the others count as columns without values. Columns
    /// that were not counted are counted now. It fails where memory runs out.
    pub fn statistics(
        &mut self,
        alloc: A,
        table: &Table<A>,
        columns: &[usize],
    ) -> Result<Stats<A>, AllocError>
        requires stats { AreStatsOf table.now.rows self.old }
        ensures value { IfOk result (λ s. stats_of s ≡ spec.seen_stats columns.now (length table.now.columns) (marked self.old.marks table.now.rows)) }
        ensures marks { self.new.marks ≡ self.old.marks }
        ensures stats { AreStatsOf table.now.rows self.new }
    {
        let mut all = Items::new(alloc);
        for column in 0..table.columns().len() {
            all.push(self.column_if(alloc, table, columns, column)?)?;
        }
        Ok(Stats::Known {
            rows: self.rows,
            columns: all,
        })
    }
}
