//! `ALTER TABLE table OWNER TO owner` (PostgreSQL: ALTER TABLE).

ghost use Rattle.std.specs.Prelude.{◌≡◌, ◌<◌, ◌&&◌, ◌||◌, IfOk, OnErr, OnOk, length};
ghost use Rattle.row_objects.specs.View.{table_of};
ghost use Rattle.row_objects.specs.TableChanges.{changed_at, with_owner};
ghost use Rattle.catalog.specs.Catalog.{belongs, is_superuser, table_index};
ghost use Rattle.catalog.specs.Checks.{first_refusal, unless, Checked};
ghost use Rattle.catalog.specs.SetOwner.{after_set_owner, checks_set_owner};
ghost use Rattle.catalog.specs.Changes.{IsChange};

use crate::catalog::Catalog;
use memory::{Heap, Text};
use row_objects::{Table, give_table};
use std::alloc::AllocError;
use value::Refusal;

fn may_give<A: Heap>(catalog: &Catalog<A>, actor: &str, table: Table<'_, A>, owner: &str) -> bool
    ensures { result ≡ (is_superuser catalog.now actor.now || (belongs catalog.now actor.now (table_of table.entry).owner && belongs catalog.now actor.now owner.now)) }
{
    catalog.is_superuser(actor)
        || (catalog.is_member(actor, table.owner()) && catalog.is_member(actor, owner))
}

fn check_set_owner<A: Heap>(
    catalog: &Catalog<A>,
    actor: &str,
    table: &str,
    owner: &str,
) -> Result<usize, Refusal>
    ensures checked { Checked result (first_refusal (checks_set_owner catalog.now actor.now table.now owner.now)) (table_index table.now catalog.now) }
    ensures within { IfOk result (λ index. index < length catalog.now.tables) }
{
    let Some((index, table)) = catalog.find_table(table) else {
        return Err(Refusal::UndefinedTable);
    };
    if !catalog.is_role(owner) {
        Err(Refusal::UndefinedObject)
    } else if !may_give(catalog, actor, table, owner) {
        Err(Refusal::InsufficientPrivilege)
    } else {
        Ok(index)
    }
}

impl<A: Heap> Catalog<A> {
    fn set_owner_at(&mut self, index: usize, owner: &str) -> Result<(), AllocError>
        requires { index < length self.old.tables }
        ensures done { OnOk result (self.new ≡ record self.old { tables = changed_at index (with_owner owner.now) self.old.tables }) }
        ensures unchanged { OnErr result (self.new ≡ self.old) }
    {
        let owner = Text::new(self.alloc, owner)?;
        give_table(&mut self.tables, index, owner);
        Ok(())
    }

    /// Gives a table to an owner, if no check refuses it.
    pub(crate) fn set_owner(&mut self, actor: &str, table: &str, owner: &str) -> Result<(), Refusal>
        ensures { IsChange self.old self.new (unless (first_refusal (checks_set_owner self.old actor.now table.now owner.now)) (after_set_owner self.old table.now owner.now)) result }
    {
        match check_set_owner(self, actor, table, owner) {
            Err(why) => Err(why),
            Ok(index) => match self.set_owner_at(index, owner) {
                Ok(()) => Ok(()),
                Err(_) => Err(Refusal::OutOfMemory),
            },
        }
    }
}
