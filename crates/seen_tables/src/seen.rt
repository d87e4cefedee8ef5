//! What is known of several tables.

ghost use Rattle.std.specs.Prelude.{◌≡◌, ◌⊎◌, ◌<◌, [], IfOk, IfSome, filter, is_some, length};
ghost use Rattle.std.specs.List.{Contains, position_from, slice_get};
ghost use Rattle.stats.specs.Statistics.{seen_stats};
ghost use Rattle.stats.specs.View.{stats_of};
ghost use Rattle.tuples.specs.GuardView.{guard_of};
ghost use Rattle.tuples.specs.Guards.{shows};
ghost use Rattle.seen_tables.specs.Known.{AreKnown, IsSeen, Keeps, SeenTable as spec, is_of};

use crate::table::{RoleTable, SeenTable};
use columns::Mask;
use memory::Heap;
use stats::Stats;
use std::alloc::AllocError;
use std::marker::Model;

/// The most tables of which something is kept, each for a role.
pub const MOST_SEEN: usize = 64;

/// Which rows of some tables some roles see, and statistics of these rows: of the 64 pairs of a role and a table that were asked for
/// last. A contract sees them; it holds for one content of the tables and one set of guards.
#[derive(Drop)]
pub struct Seen<A: Heap> {
    alloc: A,
    tables: Vec<SeenTable<A>, A>,
}

impl<A: Heap> Model for Seen<A> {
    ghost use Rattle.std.specs.Prelude.{List};
    ghost use Rattle.seen_tables.specs.Known.{SeenTable};

    ghost Value = { List SeenTable };

    ghost view = { λ s. s.tables.items };
}

impl<A: Heap> Seen<A> {
    /// Nothing is known. It takes no memory.
    pub fn new(alloc: A) -> Seen<A>
        ensures { result ≡ [] }
    {
        Seen {
            alloc,
            tables: Vec::new(alloc),
        }
    }

    /// Forgets all.
    pub fn clear(&mut self)
        ensures { self.new ≡ [] }
    {
        self.tables.clear();
    }

    // The place of what is known of a table for a role.
    fn place(&self, role: &str, table: &str) -> Option<usize>
        ensures place { result ≡ position_from (is_of role.now table.now) 0 self.now }
        ensures found { IfSome result (λ i. (x : spec) × (slice_get self.now i ≡ Some x) × (x.role ≡ role.now) × (x.table ≡ table.now)) }
    {
        for (place, one) in self.tables.iter().enumerate() {
            if one.is_of(role, table) {
                return Some(place);
            }
        }
        None
    }

    /// Of each row of a table whether a role sees it, where that is known.
    pub fn marks(&self, role: &str, table: &str) -> Option<&Mask<A>>
        ensures known { is_some result ≡ is_some (position_from (is_of role.now table.now) 0 self.now) }
        ensures found { IfSome result (λ marks. (x : spec) × Contains self.now x × (x.role ≡ role.now) × (x.table ≡ table.now) × (x.statistics.marks ≡ marks.now)) }
    {
        let place = self.place(role, table)?;
        Some(self.tables[place].marks())
    }

    // Takes out what is known of a table for a role; where nothing is, which rows the role sees is found out.
    fn taken_out(&mut self, of: &RoleTable<'_, A>) -> Result<SeenTable<A>, AllocError>
        requires { AreKnown of.now.role.now of.now.name.now (guard_of of.now.guard.now) of.now.rows.now.rows self.old }
        ensures seen { IfOk result (λ x. IsSeen of.now.role.now of.now.name.now (guard_of of.now.guard.now) of.now.rows.now.rows x) }
        ensures others { (x : spec) → Contains self.new x → Contains self.old x }
    {
        match self.place(of.role, of.name) {
            Some(place) => Ok(self.tables.remove(place)),
            None => SeenTable::new(self.alloc, of),
        }
    }

    // Keeps one more, and forgets the one that was asked for longest ago where there are too many.
    fn keep(&mut self, one: SeenTable<A>) -> Result<(), AllocError>
        ensures { (x : spec) → Contains self.new x → Contains self.old x ⊎ (one ≡ x) }
    {
        if self.tables.len() >= MOST_SEEN {
            drop(self.tables.remove(0));
        }
        self.tables.push(one)?;
        Ok(())
    }

    /// The statistics of the rows of a table that a guard shows to a role, restricted to some columns, counted from 0; the others
    /// count as columns without values. What is not known yet is found out, and kept. It fails where memory runs out.
    pub fn statistics(
        &mut self,
        of: &RoleTable<'_, A>,
        columns: &[usize],
    ) -> Result<Stats<A>, AllocError>
        requires known { AreKnown of.now.role.now of.now.name.now (guard_of of.now.guard.now) of.now.rows.now.rows self.old }
        ensures value { IfOk result (λ s. stats_of s ≡ seen_stats columns.now (length of.now.rows.now.columns) (filter (shows of.now.role.now (guard_of of.now.guard.now)) of.now.rows.now.rows)) }
        // Whatever is kept was kept before, or is of this table and role.
        ensures kept { Keeps of.now.role.now of.now.name.now (guard_of of.now.guard.now) of.now.rows.now.rows self.old self.new }
    {
        let mut one = self.taken_out(of)?;
        let statistics = one.statistics(self.alloc, of.rows, columns)?;
        self.keep(one)?;
        Ok(statistics)
    }
}
