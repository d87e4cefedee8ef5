//! `CREATE POLICY name ON table [AS RESTRICTIVE] TO roles USING (predicate)` (PostgreSQL: CREATE POLICY).

ghost use Rattle.std.specs.Prelude.{◌≡◌, ◌<◌, IfOk, OnErr, OnOk, length};
ghost use Rattle.row_ast.specs.View.{create_policy_of};
ghost use Rattle.row_objects.specs.Policies.{new_policy as made_policy};
ghost use Rattle.row_objects.specs.TableChanges.{changed_at, with_new_policy};
ghost use Rattle.catalog.specs.Checks.{first_refusal, unless};
ghost use Rattle.catalog.specs.CreatePolicy.{after_create_policy, checks_create_policy, CheckedPolicy};
ghost use Rattle.catalog.specs.Changes.{IsChange};

use crate::catalog::Catalog;
use crate::predicate::check_predicate;
use expr::MovableExpr;
use memory::Heap;
use row_ast::CreatePolicy;
use row_objects::{add_policy, has_policy, new_policy};
use std::alloc::AllocError;
use value::Refusal;

// The index of the table, and the bound condition.
fn check_create_policy<A: Heap>(
    catalog: &Catalog<A>,
    actor: &str,
    policy: &CreatePolicy<A>,
) -> Result<(usize, MovableExpr<A>), Refusal>
    ensures checked { CheckedPolicy result (first_refusal (checks_create_policy catalog.now actor.now (create_policy_of policy.now))) catalog.now (create_policy_of policy.now) }
    ensures within { IfOk result (λ found. found.0 < length catalog.now.tables) }
{
    let Some((index, table)) = catalog.find_table(policy.table.as_str()) else {
        return Err(Refusal::UndefinedTable);
    };
    if !catalog.owns(actor, table) {
        Err(Refusal::InsufficientPrivilege)
    } else if !catalog.are_known(policy.roles.as_slice()) {
        Err(Refusal::UndefinedObject)
    } else if has_policy(table.policies(), policy.name.as_str()) {
        Err(Refusal::DuplicateObject)
    } else {
        let has_room = catalog.has_policy_room();
        match check_predicate(catalog.alloc, has_room, table, &policy.predicate) {
            Err(why) => Err(why),
            Ok(predicate) => Ok((index, predicate)),
        }
    }
}

impl<A: Heap> Catalog<A> {
    fn add_policy_at(
        &mut self,
        index: usize,
        policy: &CreatePolicy<A>,
        predicate: MovableExpr<A>,
    ) -> Result<(), AllocError>
        requires { index < length self.old.tables }
        ensures done { OnOk result (self.new ≡ record self.old { tables = changed_at index (with_new_policy (made_policy (create_policy_of policy.now) predicate)) self.old.tables }) }
        ensures unchanged { OnErr result (self.new ≡ self.old) }
    {
        match new_policy(self.alloc, policy, predicate) {
            Err(error) => Err(error),
            Ok(made) => add_policy(&mut self.tables, index, made),
        }
    }

    /// Makes a policy, if no check refuses it.
    pub(crate) fn create_policy(
        &mut self,
        actor: &str,
        policy: &CreatePolicy<A>,
    ) -> Result<(), Refusal>
        ensures { IsChange self.old self.new (unless (first_refusal (checks_create_policy self.old actor.now (create_policy_of policy.now))) (after_create_policy self.old (create_policy_of policy.now))) result }
    {
        match check_create_policy(self, actor, policy) {
            Err(why) => Err(why),
            Ok((index, predicate)) => match self.add_policy_at(index, policy, predicate) {
                Ok(()) => Ok(()),
                Err(_) => Err(Refusal::OutOfMemory),
            },
        }
    }
}
