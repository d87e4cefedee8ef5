//! The policies of a table, each under a name of its own, and of all tables.

ghost use Rattle.std.specs.Prelude.{◌≡◌, IfOk, map};
ghost use Rattle.row_ast.specs.View.{create_policy_of};
ghost use Rattle.row_objects.specs.Policies as spec;
ghost use Rattle.row_objects.specs.Policies.{has_policy, has_policy_room, without_policy};
ghost use Rattle.row_objects.specs.View.{policy_of, policies_of, table_entry};

use crate::by_name::ByName;
use crate::copies::copy_names;
use crate::objects::{Policy, TableDef};
use expr::MovableExpr;
use memory::{Heap, Items, Text};
use row_ast::CreatePolicy;
use std::alloc::AllocError;
use std::mem::replace;

/// The most policies of all tables of a catalogue.
pub const MOST_POLICIES: usize = 256;

/// The policy of a statement, with its bound condition.
pub fn new_policy<A: Heap>(
    alloc: A,
    policy: &CreatePolicy<A>,
    predicate: MovableExpr<A>,
) -> Result<Policy<A>, AllocError>
    ensures { IfOk result (λ p. policy_of p ≡ spec.new_policy (create_policy_of policy.now) predicate) }
{
    let name = Text::new(alloc, policy.name.as_str())?;
    let roles = copy_names(alloc, policy.roles.as_slice())?;
    Ok(Policy {
        name,
        restrictive: policy.restrictive,
        roles,
        predicate,
    })
}

/// True where there is a policy of that name.
pub fn has_policy<A: Heap>(policies: &[Policy<A>], name: &str) -> bool
    ensures { result ≡ has_policy (policies_of policies.now) name.now }
{
    for policy in policies {
        if name == policy.name.as_str() {
            return true;
        }
    }
    false
}

fn keep_others<A: Heap>(policies: &mut Vec<Policy<A>, A>, name: &str)
    ensures { policies_of policies.new.items ≡ without_policy name.now (policies_of policies.old.items) }
{
    policies.retain(move |policy| !(name == policy.name.as_str()));
}

/// Takes out the policy of that name. It takes no memory.
pub fn remove_policy<A: Heap>(alloc: A, policies: &mut Items<Policy<A>, A>, name: &str)
    ensures { policies_of policies.new ≡ without_policy name.now (policies_of policies.old) }
{
    let mut list = replace(policies, Items::new(alloc)).into_vec();
    keep_others(&mut list, name);
    *policies = Items::from(list);
}

/// True where all tables have fewer policies than they may have.
pub fn has_policy_room<A: Heap>(tables: &ByName<TableDef<A>, A>) -> bool
    ensures { result ≡ has_policy_room (map (λ t. table_entry t) tables.now) }
{
    let mut room = MOST_POLICIES;
    for index in 0..tables.len() {
        let count = tables.at(index).policies.len();
        if count >= room {
            return false;
        }
        room -= count;
    }
    true
}
