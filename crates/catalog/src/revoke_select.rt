//! `REVOKE SELECT [(columns)] ON table FROM roles` (PostgreSQL: REVOKE).

ghost use Rattle.std.specs.Prelude.{◌≡◌, ◌<◌, length};
ghost use Rattle.row_ast.specs.View.{grant_of};
ghost use Rattle.row_objects.specs.TableChanges.{changed_at, without_grants_to};
ghost use Rattle.catalog.specs.Checks.{first_refusal, unless};
ghost use Rattle.catalog.specs.GrantSelect.{checks_select};
ghost use Rattle.catalog.specs.RevokeSelect.{after_revoke_select};
ghost use Rattle.catalog.specs.Changes.{IsExactChange};

use crate::catalog::Catalog;
use crate::grant_select::check_select;
use memory::Heap;
use row_ast::Grant;
use row_objects::revoke_select;
use value::Refusal;

impl<A: Heap> Catalog<A> {
    fn revoke_at(&mut self, index: usize, grant: &Grant<A>)
        requires { index < length self.old.tables }
        ensures { self.new ≡ record self.old { tables = changed_at index (without_grants_to (grant_of grant.now)) self.old.tables } }
    {
        revoke_select(self.alloc, &mut self.tables, index, grant);
    }

    /// Revokes SELECT on a table and on each of its columns, or on columns alone, from roles, if no check refuses it. It takes
    /// no memory.
    pub(crate) fn revoke_select(&mut self, actor: &str, grant: &Grant<A>) -> Result<(), Refusal>
        ensures { IsExactChange self.old self.new (unless (first_refusal (checks_select self.old actor.now (grant_of grant.now))) (after_revoke_select self.old (grant_of grant.now))) result }
    {
        match check_select(self, actor, grant) {
            Err(why) => Err(why),
            Ok(index) => {
                self.revoke_at(index, grant);
                Ok(())
            }
        }
    }
}
