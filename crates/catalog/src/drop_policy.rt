//! `DROP POLICY name ON table` (PostgreSQL: DROP POLICY).

ghost use Rattle.std.specs.Prelude.{◌≡◌, ◌<◌, IfOk, length};
ghost use Rattle.row_objects.specs.TableChanges.{changed_at, without_policy_named};
ghost use Rattle.catalog.specs.Catalog.{table_index};
ghost use Rattle.catalog.specs.Checks.{first_refusal, unless, Checked};
ghost use Rattle.catalog.specs.DropPolicy.{after_drop_policy, checks_drop_policy};
ghost use Rattle.catalog.specs.Changes.{IsExactChange};

use crate::catalog::Catalog;
use memory::Heap;
use row_objects::{drop_policy, has_policy};
use value::Refusal;

fn check_drop_policy<A: Heap>(
    catalog: &Catalog<A>,
    actor: &str,
    name: &str,
    table: &str,
) -> Result<usize, Refusal>
    ensures checked { Checked result (first_refusal (checks_drop_policy catalog.now actor.now name.now table.now)) (table_index table.now catalog.now) }
    ensures within { IfOk result (λ index. index < length catalog.now.tables) }
{
    let Some((index, table)) = catalog.find_table(table) else {
        return Err(Refusal::UndefinedTable);
    };
    if !catalog.owns(actor, table) {
        Err(Refusal::InsufficientPrivilege)
    } else if !has_policy(table.policies(), name) {
        Err(Refusal::UndefinedObject)
    } else {
        Ok(index)
    }
}

impl<A: Heap> Catalog<A> {
    fn drop_policy_at(&mut self, index: usize, name: &str)
        requires { index < length self.old.tables }
        ensures { self.new ≡ record self.old { tables = changed_at index (without_policy_named name.now) self.old.tables } }
    {
        drop_policy(self.alloc, &mut self.tables, index, name);
    }

    /// Takes a policy from a table, if no check refuses it. It takes no memory.
    pub(crate) fn drop_policy(
        &mut self,
        actor: &str,
        name: &str,
        table: &str,
    ) -> Result<(), Refusal>
        ensures { IsExactChange self.old self.new (unless (first_refusal (checks_drop_policy self.old actor.now name.now table.now)) (after_drop_policy self.old name.now table.now)) result }
    {
        match check_drop_policy(self, actor, name, table) {
            Err(why) => Err(why),
            Ok(index) => {
                self.drop_policy_at(index, name);
                Ok(())
            }
        }
    }
}
