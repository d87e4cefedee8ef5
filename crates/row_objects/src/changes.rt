//! A table changed at its index. The checks of a statement come before.

ghost use Rattle.std.specs.Prelude.{◌≡◌, ◌<◌, List, OnErr, OnOk, length, map, ℕ};
ghost use Rattle.row_ast.specs.View.{grant_of};
ghost use Rattle.row_objects.specs.View.{policy_of, table_entry};
ghost use Rattle.row_objects.specs.TableChanges.{changed_at, with_grants_to, with_index, with_new_policy, with_owner, with_row_security, without_grants_to, without_policy_named};

use crate::by_name::ByName;
use crate::grants::{add_grants, remove_grants};
use crate::indexes::new_index;
use crate::objects::{Policy, TableDef};
use crate::policies::remove_policy;
use memory::{Heap, Text};
use row_ast::{Grant, RowSecurity};
use std::alloc::AllocError;

/// Gives a table to an owner. It takes no memory.
pub fn give_table<A: Heap>(tables: &mut ByName<TableDef<A>, A>, index: usize, owner: Text<A>)
    requires { index < length tables.old }
    ensures { map (λ t. table_entry t) tables.new ≡ changed_at index (with_owner owner) (map (λ t. table_entry t) tables.old) }
{
    tables.at_mut(index).owner = owner;
}

fn set<A: Heap>(table: &mut TableDef<A>, setting: RowSecurity)
    ensures { (name : List ℕ) → table_entry (name, table.new) ≡ with_row_security setting (table_entry (name, table.old)) }
{
    match setting {
        RowSecurity::Enable => table.row_security = true,
        RowSecurity::Disable => table.row_security = false,
        RowSecurity::Force => table.forced = true,
        RowSecurity::NoForce => table.forced = false,
    }
}

/// Sets row security of a table. It takes no memory.
pub fn set_row_security<A: Heap>(
    tables: &mut ByName<TableDef<A>, A>,
    index: usize,
    setting: RowSecurity,
)
    requires { index < length tables.old }
    ensures { map (λ t. table_entry t) tables.new ≡ changed_at index (with_row_security setting) (map (λ t. table_entry t) tables.old) }
{
    set(tables.at_mut(index), setting);
}

/// Grants SELECT on a table, or on columns of it, to roles; out of memory, the tables stay as they were.
pub fn grant_select<A: Heap>(
    alloc: A,
    tables: &mut ByName<TableDef<A>, A>,
    index: usize,
    grant: &Grant<A>,
) -> Result<(), AllocError>
    requires { index < length tables.old }
    ensures done { OnOk result (map (λ t. table_entry t) tables.new ≡ changed_at index (with_grants_to (grant_of grant.now)) (map (λ t. table_entry t) tables.old)) }
    ensures unchanged { OnErr result (map (λ t. table_entry t) tables.new ≡ map (λ t. table_entry t) tables.old) }
{
    let table = tables.at_mut(index);
    add_grants(
        alloc,
        &mut table.grants,
        &grant.columns,
        grant.roles.as_slice(),
    )
}

/// Revokes SELECT on a table, or on columns of it, from roles. It takes no memory.
pub fn revoke_select<A: Heap>(
    alloc: A,
    tables: &mut ByName<TableDef<A>, A>,
    index: usize,
    grant: &Grant<A>,
)
    requires { index < length tables.old }
    ensures { map (λ t. table_entry t) tables.new ≡ changed_at index (without_grants_to (grant_of grant.now)) (map (λ t. table_entry t) tables.old) }
{
    let table = tables.at_mut(index);
    remove_grants(
        alloc,
        &mut table.grants,
        &grant.columns,
        grant.roles.as_slice(),
    );
}

/// Adds a policy to a table; out of memory, the tables stay as they were.
pub fn add_policy<A: Heap>(
    tables: &mut ByName<TableDef<A>, A>,
    index: usize,
    policy: Policy<A>,
) -> Result<(), AllocError>
    requires { index < length tables.old }
    ensures done { OnOk result (map (λ t. table_entry t) tables.new ≡ changed_at index (with_new_policy (policy_of policy)) (map (λ t. table_entry t) tables.old)) }
    ensures unchanged { OnErr result (map (λ t. table_entry t) tables.new ≡ map (λ t. table_entry t) tables.old) }
{
    let table = tables.at_mut(index);
    table.policies.push(policy)
}

/// Takes the policy of that name from a table. It takes no memory.
pub fn drop_policy<A: Heap>(alloc: A, tables: &mut ByName<TableDef<A>, A>, index: usize, name: &str)
    requires { index < length tables.old }
    ensures { map (λ t. table_entry t) tables.new ≡ changed_at index (without_policy_named name.now) (map (λ t. table_entry t) tables.old) }
{
    let table = tables.at_mut(index);
    remove_policy(alloc, &mut table.policies, name);
}

/// Adds an index on a column, if the table has it; out of memory, the tables stay as they were.
pub fn add_index<A: Heap>(
    alloc: A,
    tables: &mut ByName<TableDef<A>, A>,
    index: usize,
    name: &str,
    column: &str,
) -> Result<(), AllocError>
    requires { index < length tables.old }
    ensures done { OnOk result (map (λ t. table_entry t) tables.new ≡ changed_at index (with_index name.now column.now) (map (λ t. table_entry t) tables.old)) }
    ensures unchanged { OnErr result (map (λ t. table_entry t) tables.new ≡ map (λ t. table_entry t) tables.old) }
{
    let table = tables.at_mut(index);
    if let Some(made) = new_index(alloc, name, column, table.columns.as_slice())? {
        table.indexes.push(made)?;
    }
    Ok(())
}
