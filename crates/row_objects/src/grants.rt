//! The set of grants on a table and its columns (PostgreSQL: GRANT, REVOKE).

ghost use Rattle.std.specs.Prelude.{◌≡◌, ◌||◌, ◌++◌, ◌∷◌, [], IfOk, List, None, OnErr, OnOk, Some, not, option_copied, ℕ};
ghost use Rattle.std.specs.Str.{bytes_eq};
ghost use Rattle.std.specs.List.{list_any};
ghost use Rattle.row_objects.specs.Grants.{grants_to, grants_to_all, has_grant, is_revoked, same_grant, takes, with_grant, with_grants, without_grants, IsFront};
ghost use Rattle.row_objects.specs.HeldColumns.{on_column, AreHeld};
ghost use Rattle.row_objects.specs.View.{grant_of, grants_of};

use crate::once::{each_once, each_once_of, is_among};
use memory::{Heap, Items, Text};
use std::alloc::AllocError;
use std::mem::replace;

/// SELECT on a column, or on the whole table, for a role or for everyone (PostgreSQL: GRANT).
#[derive(Drop)]
pub struct Grant<A: Heap> {
    /// The role, `public` for all.
    pub to: Text<A>,
    /// The column; without one the whole table.
    pub column: Option<Text<A>>,
}

// ---- more grants

fn is_same<A: Heap>(grant: &Grant<A>, to: &str, column: Option<&str>) -> bool
    ensures { result ≡ same_grant (grant_of grant.now) (record { to = to.now; column = option_copied column.entry }) }
{
    if grant.to.as_str() != to {
        return false;
    }
    match (&grant.column, column) {
        (None, None) => true,
        (Some(name), Some(other)) => name.as_str() == other,
        (None, Some(_)) | (Some(_), None) => false,
    }
}

fn has_grant<A: Heap>(grants: &[Grant<A>], to: &str, column: Option<&str>) -> bool
    ensures { result ≡ has_grant (grants_of grants.now) (record { to = to.now; column = option_copied column.entry }) }
{
    for grant in grants {
        if is_same(grant, to, column) {
            return true;
        }
    }
    false
}

fn copy_name<A: Heap>(alloc: A, name: Option<&str>) -> Result<Option<Text<A>>, AllocError>
    ensures { IfOk result (λ copy. copy ≡ option_copied name.entry) }
{
    match name {
        None => Ok(None),
        Some(name) => Ok(Some(Text::new(alloc, name)?)),
    }
}

fn push_grant<A: Heap>(
    alloc: A,
    grants: &mut Vec<Grant<A>, A>,
    to: &str,
    column: Option<&str>,
) -> Result<(), AllocError>
    ensures done { OnOk result (grants_of grants.new.items ≡ grants_of grants.old.items ++ record { to = to.now; column = option_copied column.entry } ∷ []) }
    ensures front { IsFront grants.old.items grants.new.items }
{
    let to = Text::new(alloc, to)?;
    let column = copy_name(alloc, column)?;
    grants.push(Grant { to, column })?;
    Ok(())
}

fn push_on_table<A: Heap>(
    alloc: A,
    grants: &mut Vec<Grant<A>, A>,
    to: &str,
) -> Result<(), AllocError>
    ensures done { OnOk result (grants_of grants.new.items ≡ with_grant (grants_of grants.old.items) (record { to = to.now; column = None })) }
    ensures front { IsFront grants.old.items grants.new.items }
{
    if has_grant(grants.as_slice(), to, None) {
        return Ok(());
    }
    push_grant(alloc, grants, to, None)
}

// Notes the column of a grant to the role.
fn push_held<A: Heap>(
    alloc: A,
    held: &mut Items<Text<A>, A>,
    to: &str,
    grant: &Grant<A>,
) -> Result<(), AllocError>
    ensures { OnOk result ((column : List ℕ) → list_any (bytes_eq column) held.new ≡ (list_any (bytes_eq column) held.old || same_grant (grant_of grant.now) (on_column to.now column))) }
{
    if grant.to.as_str() != to {
        return Ok(());
    }
    match &grant.column {
        Some(column) => held.push(Text::new(alloc, column.as_str())?),
        None => Ok(()),
    }
}

// The columns on which a role holds grants.
fn held_columns<A: Heap>(
    alloc: A,
    grants: &[Grant<A>],
    to: &str,
) -> Result<Items<Text<A>, A>, AllocError>
    ensures { IfOk result (λ held. AreHeld (grants_of grants.now) to.now held) }
{
    let mut held = Items::new(alloc);
    for grant in grants {
        push_held(alloc, &mut held, to, grant)?;
    }
    Ok(held)
}

// Adds a grant on a column, unless it is held, and notes it.
fn push_on_column<A: Heap>(
    alloc: A,
    grants: &mut Vec<Grant<A>, A>,
    held: &mut Items<Text<A>, A>,
    to: &str,
    column: &str,
) -> Result<(), AllocError>
    requires { AreHeld (grants_of grants.old.items) to.now held.old }
    ensures done { OnOk result (grants_of grants.new.items ≡ with_grant (grants_of grants.old.items) (on_column to.now column.now)) }
    ensures held { OnOk result (AreHeld (grants_of grants.new.items) to.now held.new) }
    ensures front { IsFront grants.old.items grants.new.items }
{
    if is_among(held.as_slice(), column) {
        return Ok(());
    }
    push_grant(alloc, grants, to, Some(column))?;
    held.push(Text::new(alloc, column)?)
}

fn push_columns<A: Heap>(
    alloc: A,
    grants: &mut Vec<Grant<A>, A>,
    to: &str,
    columns: &[Text<A>],
) -> Result<(), AllocError>
    ensures done { OnOk result (grants_of grants.new.items ≡ with_grants (grants_of grants.old.items) (grants_to (Some columns.now) to.now)) }
    ensures front { IsFront grants.old.items grants.new.items }
{
    let mut held = held_columns(alloc, grants.as_slice(), to)?;
    for column in columns {
        push_on_column(alloc, grants, &mut held, to, column.as_str())?;
    }
    Ok(())
}

fn push_to<A: Heap>(
    alloc: A,
    grants: &mut Vec<Grant<A>, A>,
    to: &str,
    columns: &Option<Items<Text<A>, A>>,
) -> Result<(), AllocError>
    ensures done { OnOk result (grants_of grants.new.items ≡ with_grants (grants_of grants.old.items) (grants_to columns.now to.now)) }
    ensures front { IsFront grants.old.items grants.new.items }
{
    match columns {
        None => push_on_table(alloc, grants, to),
        Some(columns) => push_columns(alloc, grants, to, columns.as_slice()),
    }
}

fn push_all<A: Heap>(
    alloc: A,
    grants: &mut Vec<Grant<A>, A>,
    columns: &Option<Items<Text<A>, A>>,
    roles: &[Text<A>],
) -> Result<(), AllocError>
    ensures done { OnOk result (grants_of grants.new.items ≡ with_grants (grants_of grants.old.items) (grants_to_all columns.now roles.now)) }
    ensures front { IsFront grants.old.items grants.new.items }
{
    for role in roles {
        push_to(alloc, grants, role.as_str(), columns)?;
    }
    Ok(())
}

// Adds grants to roles. Where memory runs out, those that were added are cut off.
fn add_all<A: Heap>(
    alloc: A,
    grants: &mut Items<Grant<A>, A>,
    columns: &Option<Items<Text<A>, A>>,
    roles: &[Text<A>],
) -> Result<(), AllocError>
    ensures done { OnOk result (grants_of grants.new ≡ with_grants (grants_of grants.old) (grants_to_all columns.now roles.now)) }
    ensures unchanged { OnErr result (grants.new ≡ grants.old) }
{
    let mut list = replace(grants, Items::new(alloc)).into_vec();
    let before = list.len();
    match push_all(alloc, &mut list, columns, roles) {
        Ok(()) => {
            *grants = Items::from(list);
            Ok(())
        }
        Err(e) => {
            list.truncate(before);
            *grants = Items::from(list);
            Err(e)
        }
    }
}

/// Adds grants to roles on the whole table, or on each of the columns. One that is there already stays as it is. The
/// grants stay as they were where memory runs out. A name that the statement repeats is looked up once.
pub fn add_grants<A: Heap>(
    alloc: A,
    grants: &mut Items<Grant<A>, A>,
    columns: &Option<Items<Text<A>, A>>,
    roles: &[Text<A>],
) -> Result<(), AllocError>
    ensures done { OnOk result (grants_of grants.new ≡ with_grants (grants_of grants.old) (grants_to_all columns.now roles.now)) }
    ensures unchanged { OnErr result (grants.new ≡ grants.old) }
{
    let columns = each_once_of(alloc, columns)?;
    let roles = each_once(alloc, roles)?;
    add_all(alloc, grants, &columns, roles.as_slice())
}

// ---- fewer grants

fn takes<A: Heap>(columns: &Option<Items<Text<A>, A>>, column: &Option<Text<A>>) -> bool
    ensures { result ≡ takes columns.now column.now }
{
    match columns {
        None => true,
        Some(columns) => match column {
            None => false,
            Some(column) => is_among(columns.as_slice(), column.as_str()),
        },
    }
}

fn is_revoked<A: Heap>(
    columns: &Option<Items<Text<A>, A>>,
    roles: &[Text<A>],
    grant: &Grant<A>,
) -> bool
    ensures { result ≡ is_revoked columns.now roles.now (grant_of grant.now) }
{
    is_among(roles, grant.to.as_str()) && takes(columns, &grant.column)
}

fn keep_others<A: Heap>(
    grants: &mut Vec<Grant<A>, A>,
    columns: &Option<Items<Text<A>, A>>,
    roles: &[Text<A>],
)
    ensures { grants_of grants.new.items ≡ without_grants columns.now roles.now (grants_of grants.old.items) }
{
    grants.retain(|grant| !is_revoked(columns, roles, grant));
}

/// Takes from roles all the grants, or those on the columns alone. It takes no memory.
pub fn remove_grants<A: Heap>(
    alloc: A,
    grants: &mut Items<Grant<A>, A>,
    columns: &Option<Items<Text<A>, A>>,
    roles: &[Text<A>],
)
    ensures { grants_of grants.new ≡ without_grants columns.now roles.now (grants_of grants.old) }
{
    let mut list = replace(grants, Items::new(alloc)).into_vec();
    keep_others(&mut list, columns, roles);
    *grants = Items::from(list);
}
