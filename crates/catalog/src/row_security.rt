//! `ALTER TABLE table ENABLE`, `DISABLE`, `FORCE` or `NO FORCE ROW LEVEL SECURITY` (PostgreSQL: ALTER TABLE).

ghost use Rattle.std.specs.Prelude.{◌≡◌, ◌<◌, IfOk, length};
ghost use Rattle.row_objects.specs.TableChanges.{changed_at, with_row_security};
ghost use Rattle.catalog.specs.Catalog.{table_index};
ghost use Rattle.catalog.specs.Checks.{first_refusal, unless, Checked};
ghost use Rattle.catalog.specs.RowSecurity.{after_row_security, checks_row_security};
ghost use Rattle.catalog.specs.Changes.{IsExactChange};

use crate::catalog::Catalog;
use memory::Heap;
use row_ast::RowSecurity;
use row_objects::set_row_security;
use value::Refusal;

fn check_row_security<A: Heap>(
    catalog: &Catalog<A>,
    actor: &str,
    table: &str,
) -> Result<usize, Refusal>
    ensures checked { Checked result (first_refusal (checks_row_security catalog.now actor.now table.now)) (table_index table.now catalog.now) }
    ensures within { IfOk result (λ index. index < length catalog.now.tables) }
{
    let Some((index, table)) = catalog.find_table(table) else {
        return Err(Refusal::UndefinedTable);
    };
    if !catalog.owns(actor, table) {
        Err(Refusal::InsufficientPrivilege)
    } else {
        Ok(index)
    }
}

impl<A: Heap> Catalog<A> {
    fn set_row_security_at(&mut self, index: usize, setting: RowSecurity)
        requires { index < length self.old.tables }
        ensures { self.new ≡ record self.old { tables = changed_at index (with_row_security setting) self.old.tables } }
    {
        set_row_security(&mut self.tables, index, setting);
    }

    /// Sets row security, if no check refuses it. It takes no memory.
    pub(crate) fn set_row_security(
        &mut self,
        actor: &str,
        table: &str,
        setting: RowSecurity,
    ) -> Result<(), Refusal>
        ensures { IsExactChange self.old self.new (unless (first_refusal (checks_row_security self.old actor.now table.now)) (after_row_security self.old table.now setting)) result }
    {
        match check_row_security(self, actor, table) {
            Err(why) => Err(why),
            Ok(index) => {
                self.set_row_security_at(index, setting);
                Ok(())
            }
        }
    }
}
