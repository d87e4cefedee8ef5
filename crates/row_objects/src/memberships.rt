//! The memberships of roles (PostgreSQL: Role Membership).

ghost use Rattle.std.specs.Prelude.{◌≡◌, ◌≤◌, ◌++◌, ◌∷◌, Contains, IsTrue, List, OnErr, OnOk, [], false, length, true};
ghost use Rattle.std.specs.List.{list_all, list_any};
ghost use Rattle.value.specs.Names.{Name};
ghost use Rattle.row_objects.specs.Memberships as spec;
ghost use Rattle.row_objects.specs.Memberships.{belongs_by, closes_loop, is_membership, most_roles, with_membership, without_membership, Leads, HasNoLoop};
ghost use Rattle.row_objects.specs.Reached.{is_marked, is_of_roles, is_reached, next_group};
ghost use Rattle.row_objects.specs.MembershipView.{memberships_of};

use crate::by_name::ByName;
use memory::{Heap, Text};
use std::alloc::AllocError;
use std::marker::Model;

/// A member, and the group whose rights it has (PostgreSQL: Role Membership).
#[derive(Drop)]
pub struct Membership<A: Heap> {
    /// The member.
    pub member: Text<A>,
    /// The group.
    pub group: Text<A>,
}

/// The most roles of a catalogue.
pub const MOST_ROLES: usize = 256;

fn is_marked<V, A: Heap>(roles: &ByName<V, A>, marks: &[bool], name: &str) -> bool
    requires { length roles.now ≤ length marks.now }
    ensures { result ≡ is_marked roles.now marks.now name.now }
{
    match roles.index(name) {
        Some(i) => marks[i],
        None => false,
    }
}

// The index of a group that is not marked and has a member that is.
fn next_group<V, A: Heap>(
    roles: &ByName<V, A>,
    memberships: &[Membership<A>],
    marks: &[bool],
) -> Option<usize>
    requires { length roles.now ≤ length marks.now }
    ensures { result ≡ next_group roles.now marks.now (memberships_of memberships.now) }
{
    for m in memberships {
        if is_marked(roles, marks, m.member.as_str())
            && !is_marked(roles, marks, m.group.as_str())
        {
            return roles.index(m.group.as_str());
        }
    }
    None
}

/// The roles that a role belongs to, as a mark for each role, by its index.
#[derive(Drop)]
pub struct RoleMarks {
    marks: [bool; MOST_ROLES],
}

impl Model for RoleMarks {
    ghost use Rattle.std.specs.Prelude.{Bool, List};

    ghost Value = { List Bool };

    ghost view = { λ m. m.marks };
}

/// Marks the roles that r belongs to, until no membership leads to a further one: as many look-ups as there are
/// memberships, for each role that is reached. It takes no memory.
pub fn reached_by<V, A: Heap>(
    roles: &ByName<V, A>,
    memberships: &[Membership<A>],
    r: &str,
) -> RoleMarks
    requires few { length roles.now ≤ most_roles }
    requires known { list_all (is_of_roles roles.now) (memberships_of memberships.now) ≡ true }
    ensures long { length roles.now ≤ length result }
    ensures marks { (s : Name) → is_reached roles.now r.now result s ≡ belongs_by (memberships_of memberships.now) r.now s }
{
    let mut marks = [false; MOST_ROLES];
    let Some(start) = roles.index(r) else {
        return RoleMarks { marks };
    };
    marks[start] = true;
    while let Some(next) = next_group(roles, memberships, &marks) {
        marks[next] = true;
    }
    RoleMarks { marks }
}

/// True where r is s, or s is marked.
pub fn is_reached<V, A: Heap>(roles: &ByName<V, A>, marks: &RoleMarks, r: &str, s: &str) -> bool
    requires { length roles.now ≤ length marks.now }
    ensures { result ≡ is_reached roles.now r.now marks.now s.now }
{
    r == s || is_marked(roles, &marks.marks, s)
}

/// True where r is s, or finitely many memberships lead from r to s.
pub fn belongs_by<V, A: Heap>(
    roles: &ByName<V, A>,
    memberships: &[Membership<A>],
    r: &str,
    s: &str,
) -> bool
    requires few { length roles.now ≤ most_roles }
    requires known { list_all (is_of_roles roles.now) (memberships_of memberships.now) ≡ true }
    ensures { result ≡ belongs_by (memberships_of memberships.now) r.now s.now }
{
    let marks = reached_by(roles, memberships, r);
    is_reached(roles, &marks, r, s)
}

/// True where a grant of the group to the member would make a role belong to itself: where the group belongs to the
/// member.
pub fn closes_loop<V, A: Heap>(
    roles: &ByName<V, A>,
    memberships: &[Membership<A>],
    group: &str,
    member: &str,
) -> bool
    requires few { length roles.now ≤ most_roles }
    requires known { list_all (is_of_roles roles.now) (memberships_of memberships.now) ≡ true }
    ensures { result ≡ closes_loop (memberships_of memberships.now) group.now member.now }
{
    belongs_by(roles, memberships, group, member)
}

// ---- the set of memberships

fn is_there<A: Heap>(memberships: &[Membership<A>], group: &str, member: &str) -> bool
    ensures { result ≡ list_any (is_membership group.now member.now) (memberships_of memberships.now) }
{
    for m in memberships {
        if m.group.as_str() == group && m.member.as_str() == member {
            return true;
        }
    }
    false
}

/// One more membership at the end. One that is there already stays as it is.
pub fn add_membership<A: Heap>(
    alloc: A,
    memberships: &mut Vec<Membership<A>, A>,
    group: &str,
    member: &str,
) -> Result<(), AllocError>
    ensures done { OnOk result (memberships_of memberships.new.items ≡ with_membership group.now member.now (memberships_of memberships.old.items)) }
    ensures unchanged { OnErr result (memberships.new.items ≡ memberships.old.items) }
{
    if is_there(memberships.as_slice(), group, member) {
        return Ok(());
    }
    let member = Text::new(alloc, member)?;
    let group = Text::new(alloc, group)?;
    memberships.push(Membership { member, group })?;
    Ok(())
}

/// Takes a membership out, if it is there.
pub fn remove_membership<A: Heap>(
    memberships: &mut Vec<Membership<A>, A>,
    group: &str,
    member: &str,
)
    ensures { memberships_of memberships.new.items ≡ without_membership group.now member.now (memberships_of memberships.old.items) }
{
    memberships.retain(move |m| !(m.group.as_str() == group && m.member.as_str() == member));
}

// ---- laws

/// A role belongs to another exactly where memberships lead from the one to the other.
pub fn law_belongs_by_paths()
    ensures path { (ms : List spec.Membership) (r s : Name) → IsTrue (belongs_by ms r s) → (path : List spec.Membership) × Leads ms r s path }
    ensures all { (ms path : List spec.Membership) (r s : Name) → Leads ms r s path → IsTrue (belongs_by ms r s) }
{}

/// Memberships have no loop where each was new and its group did not belong to its member, and none where some were taken
/// out.
pub fn law_no_loop()
    ensures first { HasNoLoop [] }
    ensures granted { (ms : List spec.Membership) (m : spec.Membership) → HasNoLoop ms → belongs_by ms m.group m.member ≡ false → HasNoLoop (ms ++ m ∷ []) }
    ensures revoked { (ms all : List spec.Membership) → ((m : spec.Membership) → Contains ms m → Contains all m) → HasNoLoop all → HasNoLoop ms }
{}
