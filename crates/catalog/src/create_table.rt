//! `CREATE TABLE name (column type [NOT NULL], ..)` (PostgreSQL: CREATE TABLE).

ghost use Rattle.std.specs.Prelude.{◌≡◌, OnErr, OnOk, false};
ghost use Rattle.value.specs.Columns.{columns_of};
ghost use Rattle.catalog.specs.Catalog.{is_table};
ghost use Rattle.catalog.specs.Checks.{first_refusal, unless};
ghost use Rattle.catalog.specs.CreateTable.{after_create_table, checks_create_table};
ghost use Rattle.catalog.specs.Changes.{IsChange};

use crate::catalog::Catalog;
use memory::Heap;
use row_objects::{has_name_twice, new_table};
use std::alloc::AllocError;
use value::{Column, Refusal};

/// The most tables of a catalogue.
pub const MOST_TABLES: usize = 64;

/// The most columns of a table.
pub const MOST_COLUMNS: usize = 64;

fn check_create_table<A: Heap>(
    catalog: &Catalog<A>,
    name: &str,
    columns: &[Column<A>],
) -> Option<Refusal>
    ensures { result ≡ first_refusal (checks_create_table catalog.now name.now (columns_of columns.now)) }
{
    if catalog.is_table(name) {
        Some(Refusal::DuplicateTable)
    } else if catalog.is_index(name) {
        Some(Refusal::DuplicateTable)
    } else if has_name_twice(columns) {
        Some(Refusal::DuplicateColumn)
    } else if catalog.tables() >= MOST_TABLES || columns.len() > MOST_COLUMNS {
        Some(Refusal::ProgramLimitExceeded)
    } else {
        None
    }
}

impl<A: Heap> Catalog<A> {
    fn add_table(
        &mut self,
        actor: &str,
        name: &str,
        columns: &[Column<A>],
    ) -> Result<(), AllocError>
        requires { is_table self.old name.now ≡ false }
        ensures done { OnOk result (self.new ≡ after_create_table self.old actor.now name.now (columns_of columns.now)) }
        ensures unchanged { OnErr result (self.new ≡ self.old) }
    {
        let table = new_table(self.alloc, actor, columns)?;
        self.tables.insert(self.alloc, name, table)
    }

    /// Makes a table that the actor owns, if no check refuses it.
    pub(crate) fn create_table(
        &mut self,
        actor: &str,
        name: &str,
        columns: &[Column<A>],
    ) -> Result<(), Refusal>
        ensures { IsChange self.old self.new (unless (first_refusal (checks_create_table self.old name.now (columns_of columns.now))) (after_create_table self.old actor.now name.now (columns_of columns.now))) result }
    {
        if let Some(why) = check_create_table(self, name, columns) {
            return Err(why);
        }
        match self.add_table(actor, name, columns) {
            Ok(()) => Ok(()),
            Err(_) => Err(Refusal::OutOfMemory),
        }
    }
}
