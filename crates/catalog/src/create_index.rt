//! `CREATE INDEX name ON table (column)` (PostgreSQL: CREATE INDEX).

ghost use Rattle.std.specs.Prelude.{◌≡◌, ◌<◌, IfOk, OnErr, OnOk, length};
ghost use Rattle.row_objects.specs.View.{table_of};
ghost use Rattle.row_objects.specs.TableChanges.{changed_at, with_index};
ghost use Rattle.catalog.specs.Catalog.{table_index};
ghost use Rattle.catalog.specs.Checks.{first_refusal, unless, Checked};
ghost use Rattle.catalog.specs.CreateIndex.{after_create_index, checks_create_index, checks_new_index};
ghost use Rattle.catalog.specs.Changes.{IsChange};

use crate::catalog::Catalog;
use memory::Heap;
use row_objects::{Table, add_index, column_index, is_indexed};
use std::alloc::AllocError;
use value::Refusal;

fn check_new_index<A: Heap>(
    catalog: &Catalog<A>,
    name: &str,
    table: Table<'_, A>,
    column: usize,
) -> Option<Refusal>
    ensures { result ≡ first_refusal (checks_new_index catalog.now name.now (table_of table.entry) column) }
{
    if catalog.is_table(name) {
        Some(Refusal::DuplicateTable)
    } else if catalog.is_index(name) {
        Some(Refusal::DuplicateTable)
    } else if is_indexed(table.indexes(), column) {
        Some(Refusal::DuplicateObject)
    } else {
        None
    }
}

fn check_create_index<A: Heap>(
    catalog: &Catalog<A>,
    actor: &str,
    name: &str,
    table: &str,
    column: &str,
) -> Result<usize, Refusal>
    ensures checked { Checked result (first_refusal (checks_create_index catalog.now actor.now name.now table.now column.now)) (table_index table.now catalog.now) }
    ensures within { IfOk result (λ index. index < length catalog.now.tables) }
{
    let Some((found, table)) = catalog.find_table(table) else {
        return Err(Refusal::UndefinedTable);
    };
    if !catalog.owns(actor, table) {
        return Err(Refusal::InsufficientPrivilege);
    }
    let Some(column) = column_index(table.columns(), column) else {
        return Err(Refusal::UndefinedColumn);
    };
    match check_new_index(catalog, name, table, column) {
        Some(why) => Err(why),
        None => Ok(found),
    }
}

impl<A: Heap> Catalog<A> {
    fn add_index_at(&mut self, index: usize, name: &str, column: &str) -> Result<(), AllocError>
        requires { index < length self.old.tables }
        ensures done { OnOk result (self.new ≡ record self.old { tables = changed_at index (with_index name.now column.now) self.old.tables }) }
        ensures unchanged { OnErr result (self.new ≡ self.old) }
    {
        add_index(self.alloc, &mut self.tables, index, name, column)
    }

    /// Makes an index, if no check refuses it.
    pub(crate) fn create_index(
        &mut self,
        actor: &str,
        name: &str,
        table: &str,
        column: &str,
    ) -> Result<(), Refusal>
        ensures { IsChange self.old self.new (unless (first_refusal (checks_create_index self.old actor.now name.now table.now column.now)) (after_create_index self.old name.now table.now column.now)) result }
    {
        match check_create_index(self, actor, name, table, column) {
            Err(why) => Err(why),
            Ok(index) => match self.add_index_at(index, name, column) {
                Ok(()) => Ok(()),
                Err(_) => Err(Refusal::OutOfMemory),
            },
        }
    }
}
