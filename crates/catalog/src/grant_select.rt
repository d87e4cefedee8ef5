//! `GRANT SELECT [(columns)] ON table TO roles` (PostgreSQL: GRANT).

ghost use Rattle.std.specs.Prelude.{◌≡◌, ◌<◌, IfOk, OnErr, OnOk, length};
ghost use Rattle.row_ast.specs.View.{grant_of};
ghost use Rattle.row_objects.specs.TableChanges.{changed_at, with_grants_to};
ghost use Rattle.catalog.specs.Catalog.{table_index};
ghost use Rattle.catalog.specs.Checks.{first_refusal, unless, Checked};
ghost use Rattle.catalog.specs.GrantSelect.{after_grant_select, checks_select};
ghost use Rattle.catalog.specs.Changes.{IsChange};

use crate::catalog::Catalog;
use memory::Heap;
use row_ast::Grant;
use row_objects::{are_columns, grant_select};
use std::alloc::AllocError;
use value::Refusal;

/// The index of the table, or the first refusal of a GRANT SELECT or a REVOKE SELECT.
pub(crate) fn check_select<A: Heap>(
    catalog: &Catalog<A>,
    actor: &str,
    grant: &Grant<A>,
) -> Result<usize, Refusal>
    ensures checked { Checked result (first_refusal (checks_select catalog.now actor.now (grant_of grant.now))) (table_index grant.now.table catalog.now) }
    ensures within { IfOk result (λ index. index < length catalog.now.tables) }
{
    let Some((index, table)) = catalog.find_table(grant.table.as_str()) else {
        return Err(Refusal::UndefinedTable);
    };
    if !catalog.owns(actor, table) {
        Err(Refusal::InsufficientPrivilege)
    } else if !are_columns(table.columns(), &grant.columns) {
        Err(Refusal::UndefinedColumn)
    } else if !catalog.are_known(grant.roles.as_slice()) {
        Err(Refusal::UndefinedObject)
    } else {
        Ok(index)
    }
}

impl<A: Heap> Catalog<A> {
    fn grant_at(&mut self, index: usize, grant: &Grant<A>) -> Result<(), AllocError>
        requires { index < length self.old.tables }
        ensures done { OnOk result (self.new ≡ record self.old { tables = changed_at index (with_grants_to (grant_of grant.now)) self.old.tables }) }
        ensures unchanged { OnErr result (self.new ≡ self.old) }
    {
        grant_select(self.alloc, &mut self.tables, index, grant)
    }

    /// Grants SELECT on a table, or on columns of it, to roles, if no check refuses it. A grant that is there already
    /// stays as it is.
    pub(crate) fn grant_select(&mut self, actor: &str, grant: &Grant<A>) -> Result<(), Refusal>
        ensures { IsChange self.old self.new (unless (first_refusal (checks_select self.old actor.now (grant_of grant.now))) (after_grant_select self.old (grant_of grant.now))) result }
    {
        match check_select(self, actor, grant) {
            Err(why) => Err(why),
            Ok(index) => match self.grant_at(index, grant) {
                Ok(()) => Ok(()),
                Err(_) => Err(Refusal::OutOfMemory),
            },
        }
    }
}
