//! Why a role reads of a table what it reads.

ghost use Rattle.std.specs.Prelude.{◌≡◌, ◌++◌, ◌==◌, [], codes, if◌then◌else◌, IfOk, OnOk, filter, length, string_bytes};
ghost use Rattle.row_objects.specs.View.{policies_of, policy_of, table_of};
ghost use Rattle.catalog.specs.Reached.{AreMarksOf};
ghost use Rattle.access.specs.Access as access;
ghost use Rattle.access_matrix.specs.Reasons as spec;

use access::{RequiredPrivilege, applies, is_granted_by};
use catalog::{Catalog, RoleMarks};
use memory::Heap;
use row_objects::{Policy, Table};
use std::alloc::AllocError;

/// Why a role reads of a table what it reads.
#[derive(Clone, Copy, Debug, PartialEq, Eq)]
pub enum Reason {
    /// It has SELECT on no part of the table.
    NoGrant,
    /// It is a superuser.
    Superuser,
    /// It has BYPASSRLS.
    BypassRls,
    /// It belongs to the owner, on whom row security is not forced.
    Owner,
    /// Row security is off.
    RowSecurityOff,
    /// The policies decide.
    Policies,
}

// The first reason that holds.
fn reason_of<A: Heap>(
    catalog: &Catalog<A>,
    marks: &RoleMarks,
    role: &str,
    table: Table<'_, A>,
) -> Reason
    requires { AreMarksOf catalog.now role.now marks.now }
    ensures { result ≡ spec.reason catalog.now role.now (table_of table.entry) }
{
    let privilege = RequiredPrivilege {
        table,
        column: None,
    };
    if !is_granted_by(catalog, marks, role, privilege) {
        Reason::NoGrant
    } else if catalog.is_superuser(role) {
        Reason::Superuser
    } else if catalog.bypasses_rls(role) {
        Reason::BypassRls
    } else if catalog.reaches(marks, role, table.owner()) && !table.forced() {
        Reason::Owner
    } else if !table.row_security() {
        Reason::RowSecurityOff
    } else {
        Reason::Policies
    }
}

// Adds the name of a policy, and whether it is restrictive.
fn push_policy<A: Heap>(words: &mut String<A>, policy: &Policy<A>) -> Result<(), AllocError>
    ensures { OnOk result (string_bytes words.new ≡ string_bytes words.old ++ spec.policy_words (policy_of policy.now)) }
{
    words.push_str(policy.name.as_str())?;
    if policy.restrictive {
        words.push_str(" (restrictive)")?;
    }
    Ok(())
}

// The words before a policy that comes after these words.
fn before(words: &str) -> &'static str
    ensures { result.now ≡ (if length words.now == 0 then codes "by " else codes ", ") }
{
    if words.is_empty() { "by " } else { ", " }
}

// Adds a policy after others, or the first one.
fn push_next<A: Heap>(words: &mut String<A>, policy: &Policy<A>) -> Result<(), AllocError>
    ensures { OnOk result (string_bytes words.new ≡ string_bytes words.old ++ ((if length (string_bytes words.old) == 0 then codes "by " else codes ", ") ++ spec.policy_words (policy_of policy.now))) }
{
    let first = before(words.as_str());
    words.push_str(first)?;
    push_policy(words, policy)
}

// The words of the policies that apply to the role.
fn policies_words<A: Heap>(
    alloc: A,
    catalog: &Catalog<A>,
    marks: &RoleMarks,
    role: &str,
    policies: &[Policy<A>],
) -> Result<String<A>, AllocError>
    requires { AreMarksOf catalog.now role.now marks.now }
    ensures { IfOk result (λ s. string_bytes s ≡ spec.policies_words (filter (access.applies catalog.now role.now) (policies_of policies.now))) }
{
    let mut words = String::new(alloc);
    for policy in policies {
        if applies(catalog, marks, role, policy) {
            push_next(&mut words, policy)?;
        }
    }
    if words.as_str().is_empty() {
        return String::from_str(alloc, "no policy");
    }
    Ok(words)
}

/// The reason in words.
pub(crate) fn reason_words<A: Heap>(
    alloc: A,
    catalog: &Catalog<A>,
    marks: &RoleMarks,
    role: &str,
    table: Table<'_, A>,
) -> Result<String<A>, AllocError>
    requires { AreMarksOf catalog.now role.now marks.now }
    ensures { IfOk result (λ s. string_bytes s ≡ spec.reason_words catalog.now role.now (table_of table.entry)) }
{
    match reason_of(catalog, marks, role, table) {
        Reason::NoGrant => String::from_str(alloc, "no grant"),
        Reason::Superuser => String::from_str(alloc, "superuser"),
        Reason::BypassRls => String::from_str(alloc, "BYPASSRLS"),
        Reason::Owner => String::from_str(alloc, "owner"),
        Reason::RowSecurityOff => String::from_str(alloc, "row security off"),
        Reason::Policies => policies_words(alloc, catalog, marks, role, table.policies()),
    }
}
