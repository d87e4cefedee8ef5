//! The columns that a role may read (PostgreSQL: Privileges).

ghost use Rattle.std.specs.Prelude.{◌≡◌, ◌&&◌, option_map};
ghost use Rattle.std.specs.List.{list_any};
ghost use Rattle.row_objects.specs.View.{grant_of, grants_of};
ghost use Rattle.catalog.specs.Reached.{AreMarksOf};
ghost use Rattle.access.specs.Access.{includes_role, covers, granted, denial};
ghost use Rattle.access.specs.View.{privilege_of, privileges_of};

use catalog::{Catalog, RoleMarks};
use memory::{Heap, Text};
use row_objects::{Grant, Table};

/// SELECT on a column of a table, or on any part of it.
#[derive(Clone, Copy)]
pub struct RequiredPrivilege<'s, A: Heap> {
    /// The table.
    pub table: Table<'s, A>,
    /// The column's name; none for any part of the table.
    pub column: Option<&'s Text<A>>,
}

// True where the name is the role's, that of a role that it belongs to, or `public`.
fn includes_role<A: Heap>(catalog: &Catalog<A>, marks: &RoleMarks, role: &str, name: &str) -> bool
    requires { AreMarksOf catalog.now role.now marks.now }
    ensures { result ≡ includes_role catalog.now role.now name.now }
{
    name == "public" || catalog.reaches(marks, role, name)
}

// True where one of the names is the role's, that of a role that it belongs to, or `public`.
pub(crate) fn any_includes_role<A: Heap>(
    catalog: &Catalog<A>,
    marks: &RoleMarks,
    role: &str,
    names: &[Text<A>],
) -> bool
    requires { AreMarksOf catalog.now role.now marks.now }
    ensures { result ≡ list_any (includes_role catalog.now role.now) names.now }
{
    for name in names {
        if includes_role(catalog, marks, role, name.as_str()) {
            return true;
        }
    }
    false
}

// True where a grant on a column or on the whole table covers the required privilege.
fn covers<A: Heap>(held: &Option<Text<A>>, required: Option<&Text<A>>) -> bool
    ensures { result ≡ covers held.now (option_map (λ c. c.now) required.entry) }
{
    match (held, required) {
        (None, _) => true,
        (Some(_), None) => true,
        (Some(name), Some(column)) => name.as_str() == column.as_str(),
    }
}

// The column is compared first, since the role has to be looked up.
fn grants_to<A: Heap>(
    catalog: &Catalog<A>,
    marks: &RoleMarks,
    role: &str,
    grant: &Grant<A>,
    required: Option<&Text<A>>,
) -> bool
    requires { AreMarksOf catalog.now role.now marks.now }
    ensures { result ≡ (includes_role catalog.now role.now (grant_of grant.now).to && covers (grant_of grant.now).column (option_map (λ c. c.now) required.entry)) }
{
    covers(&grant.column, required) && includes_role(catalog, marks, role, grant.to.as_str())
}

fn any_grants_to<A: Heap>(
    catalog: &Catalog<A>,
    marks: &RoleMarks,
    role: &str,
    grants: &[Grant<A>],
    required: Option<&Text<A>>,
) -> bool
    requires { AreMarksOf catalog.now role.now marks.now }
    ensures { result ≡ list_any (λ g. includes_role catalog.now role.now g.to && covers g.column (option_map (λ c. c.now) required.entry)) (grants_of grants.now) }
{
    for grant in grants {
        if grants_to(catalog, marks, role, grant, required) {
            return true;
        }
    }
    false
}

/// True where the role has a privilege, by the marks of the roles that it belongs to.
pub fn is_granted_by<A: Heap>(
    catalog: &Catalog<A>,
    marks: &RoleMarks,
    role: &str,
    privilege: RequiredPrivilege<'_, A>,
) -> bool
    requires { AreMarksOf catalog.now role.now marks.now }
    ensures { result ≡ granted catalog.now role.now (privilege_of privilege.entry) }
{
    catalog.is_superuser(role)
        || catalog.reaches(marks, role, privilege.table.owner())
        || any_grants_to(
            catalog,
            marks,
            role,
            privilege.table.grants(),
            privilege.column,
        )
}

/// True where the role has a privilege: SELECT on a column of a table, or on any part of it.
pub fn is_granted<A: Heap>(
    catalog: &Catalog<A>,
    role: &str,
    privilege: RequiredPrivilege<'_, A>,
) -> bool
    ensures { result ≡ granted catalog.now role.now (privilege_of privilege.entry) }
{
    let marks = catalog.reached(role);
    is_granted_by(catalog, &marks, role, privilege)
}

/// The first of these privileges that the role lacks. The roles that it belongs to are found once.
pub fn denied<'s, A: Heap>(
    catalog: &Catalog<A>,
    role: &str,
    needed: &[RequiredPrivilege<'s, A>],
) -> Option<RequiredPrivilege<'s, A>>
    ensures { option_map (λ p. privilege_of p) result ≡ denial catalog.now role.now (privileges_of needed.now) }
{
    let marks = catalog.reached(role);
    for privilege in needed {
        if !is_granted_by(catalog, &marks, role, *privilege) {
            return Some(*privilege);
        }
    }
    None
}
