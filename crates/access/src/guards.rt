//! The guard of a table: the rows of it that a role sees (PostgreSQL: Row Security Policies).

ghost use Rattle.std.specs.Prelude.{◌≡◌, ◌∷◌, ◌++◌, [], true, IfOk, IsOk, OnOk, filter, map};
ghost use Rattle.value.specs.Datum as value;
ghost use Rattle.expr.specs.Bound as bound;
ghost use Rattle.expr.specs.Bound.{bound_exprs_of, one_expr};
ghost use Rattle.expr.specs.Movable.{all_movable, movable};
ghost use Rattle.expr.specs.View.{bound_expr_of, bound_exprs};
ghost use Rattle.row_objects.specs.View.{policy_of, policies_of, table_of};
ghost use Rattle.scope.specs.View.{entries_of};
ghost use Rattle.catalog.specs.Reached.{AreMarksOf};
ghost use Rattle.access.specs.Access.{applies, bypasses_policies, permits, restricts, sees};
ghost use Rattle.tuples.specs.Guards as row_guards;
ghost use Rattle.access.specs.Guards as spec;
ghost use Rattle.access.specs.Guards.{predicates};
ghost use Rattle.tuples.specs.View.{guard_of};

use crate::privileges::any_includes_role;
use catalog::{Catalog, RoleMarks};
use expr::{BoundExpr, MovableExpr, copy_expr};
use memory::{Heap, Items, boxed};
use row_objects::{Policy, Table};
use scope::Entry;
use std::alloc::AllocError;
use tuples::Guard;

type Predicates<A> = Result<Vec<BoundExpr<A>, A>, AllocError>;

/// True where a policy applies to a role, by the marks of the roles that the role belongs to.
pub fn applies<A: Heap>(
    catalog: &Catalog<A>,
    marks: &RoleMarks,
    role: &str,
    policy: &Policy<A>,
) -> bool
    requires { AreMarksOf catalog.now role.now marks.now }
    ensures { result ≡ applies catalog.now role.now (policy_of policy.now) }
{
    any_includes_role(catalog, marks, role, policy.roles.as_slice())
}

fn permits<A: Heap>(catalog: &Catalog<A>, marks: &RoleMarks, role: &str, policy: &Policy<A>) -> bool
    requires { AreMarksOf catalog.now role.now marks.now }
    ensures { result ≡ permits catalog.now role.now (policy_of policy.now) }
{
    !policy.restrictive && applies(catalog, marks, role, policy)
}

fn restricts<A: Heap>(
    catalog: &Catalog<A>,
    marks: &RoleMarks,
    role: &str,
    policy: &Policy<A>,
) -> bool
    requires { AreMarksOf catalog.now role.now marks.now }
    ensures { result ≡ restricts catalog.now role.now (policy_of policy.now) }
{
    policy.restrictive && applies(catalog, marks, role, policy)
}

// Adds the predicate of a policy, which is movable.
fn push_predicate<A: Heap>(
    alloc: A,
    list: &mut Items<BoundExpr<A>, A>,
    policy: &Policy<A>,
) -> Result<(), AllocError>
    ensures value { OnOk result (map bound_expr_of list.new ≡ map bound_expr_of list.old ++ (policy_of policy.now).predicate ∷ []) }
    ensures movable { movable (policy_of policy.now).predicate ≡ true }
{
    match copy_expr(alloc, policy.predicate.expression()) {
        Ok(copy) => list.push(Box::into_inner(copy)),
        Err(error) => Err(error),
    }
}

// The predicates of the permissive policies that apply to the role.
fn permissive<A: Heap>(
    alloc: A,
    catalog: &Catalog<A>,
    marks: &RoleMarks,
    role: &str,
    policies: &[Policy<A>],
) -> Predicates<A>
    requires { AreMarksOf catalog.now role.now marks.now }
    ensures value { IfOk result (λ v. map bound_expr_of v.items ≡ predicates (filter (permits catalog.now role.now) (policies_of policies.now))) }
    ensures movable { IfOk result (λ v. all_movable (bound_exprs v.items) ≡ true) }
{
    let mut all = Items::new(alloc);
    for policy in policies {
        if permits(catalog, marks, role, policy) {
            push_predicate(alloc, &mut all, policy)?;
        }
    }
    Ok(all.into_vec())
}

// An expression, and the predicates of the restrictive policies that apply to the role.
fn with_restrictive<A: Heap>(
    alloc: A,
    first: Box<BoundExpr<A>, A>,
    catalog: &Catalog<A>,
    marks: &RoleMarks,
    role: &str,
    policies: &[Policy<A>],
) -> Predicates<A>
    requires movable { movable (bound_expr_of first.value) ≡ true }
    requires marks { AreMarksOf catalog.now role.now marks.now }
    ensures value { IfOk result (λ v. map bound_expr_of v.items ≡ bound_expr_of first.value ∷ predicates (filter (restricts catalog.now role.now) (policies_of policies.now))) }
    ensures movable { IfOk result (λ v. all_movable (bound_exprs v.items) ≡ true) }
{
    let mut all = Items::new(alloc);
    all.push(Box::into_inner(first))?;
    for policy in policies {
        if restricts(catalog, marks, role, policy) {
            push_predicate(alloc, &mut all, policy)?;
        }
    }
    Ok(all.into_vec())
}

fn disjunction<A: Heap>(
    alloc: A,
    members: Vec<BoundExpr<A>, A>,
) -> Result<Box<BoundExpr<A>, A>, AllocError>
    ensures { IfOk result (λ b. bound_expr_of b.value ≡ bound.Or 0 (bound_exprs members.items)) }
{
    boxed(alloc, BoundExpr::Or { offset: 0, members })
}

// The guard of members that are joined by AND and are movable.
fn conjunction<A: Heap>(alloc: A, members: Vec<BoundExpr<A>, A>) -> Result<Guard<A>, AllocError>
    requires { all_movable (bound_exprs members.items) ≡ true }
    ensures { IfOk result (λ g. guard_of g ≡ row_guards.Expr (bound.And 0 (bound_exprs members.items))) }
{
    match boxed(alloc, BoundExpr::And { offset: 0, members }) {
        Ok(whole) => Ok(Guard::Expr(MovableExpr::of_movable(whole))),
        Err(error) => Err(error),
    }
}

// The guard of one of the permissive predicates and all restrictive ones.
fn combined<A: Heap>(
    alloc: A,
    permissive: Vec<BoundExpr<A>, A>,
    catalog: &Catalog<A>,
    marks: &RoleMarks,
    role: &str,
    policies: &[Policy<A>],
) -> Result<Guard<A>, AllocError>
    requires movable { all_movable (bound_exprs permissive.items) ≡ true }
    requires marks { AreMarksOf catalog.now role.now marks.now }
    ensures { IfOk result (λ g. guard_of g ≡ row_guards.Expr (bound.And 0 (one_expr (bound.Or 0 (bound_exprs permissive.items)) (bound_exprs_of (predicates (filter (restricts catalog.now role.now) (policies_of policies.now))))))) }
{
    let first = match disjunction(alloc, permissive) {
        Ok(first) => first,
        Err(error) => return Err(error),
    };
    match with_restrictive(alloc, first, catalog, marks, role, policies) {
        Ok(members) => conjunction(alloc, members),
        Err(error) => Err(error),
    }
}

// The guard by the policies that apply to the role.
fn guard_by<A: Heap>(
    alloc: A,
    catalog: &Catalog<A>,
    marks: &RoleMarks,
    role: &str,
    policies: &[Policy<A>],
) -> Result<Guard<A>, AllocError>
    requires { AreMarksOf catalog.now role.now marks.now }
    ensures value { IfOk result (λ g. guard_of g ≡ spec.guard_by (filter (permits catalog.now role.now) (policies_of policies.now)) (filter (restricts catalog.now role.now) (policies_of policies.now))) }
    ensures movable { OnOk result (all_movable (bound_exprs_of (predicates (filter (permits catalog.now role.now) (policies_of policies.now)))) ≡ true) }
{
    match permissive(alloc, catalog, marks, role, policies) {
        Ok(permissive) => {
            if permissive.is_empty() {
                Ok(Guard::None)
            } else {
                combined(alloc, permissive, catalog, marks, role, policies)
            }
        }
        Err(error) => Err(error),
    }
}

// True where the role bypasses the policies of the table.
fn bypasses_policies<A: Heap>(
    catalog: &Catalog<A>,
    marks: &RoleMarks,
    role: &str,
    table: Table<'_, A>,
) -> bool
    requires { AreMarksOf catalog.now role.now marks.now }
    ensures { result ≡ bypasses_policies catalog.now role.now (table_of table.entry) }
{
    !table.row_security()
        || catalog.is_superuser(role)
        || catalog.bypasses_rls(role)
        || (catalog.reaches(marks, role, table.owner()) && !table.forced())
}

/// The guard of a table for a role, by the marks of the roles that the role belongs to.
pub fn guard_with<A: Heap>(
    alloc: A,
    catalog: &Catalog<A>,
    marks: &RoleMarks,
    role: &str,
    table: Table<'_, A>,
) -> Result<Guard<A>, AllocError>
    requires { AreMarksOf catalog.now role.now marks.now }
    ensures value { IfOk result (λ g. guard_of g ≡ spec.guard catalog.now role.now (table_of table.entry)) }
    ensures shows { IfOk result (λ g. (row : value.Row) → row_guards.shows role.now (guard_of g) row ≡ sees catalog.now role.now (table_of table.entry) row) }
    ensures exact { bypasses_policies catalog.now role.now (table_of table.entry) ≡ true → IsOk result }
{
    if bypasses_policies(catalog, marks, role, table) {
        Ok(Guard::All)
    } else {
        guard_by(alloc, catalog, marks, role, table.policies())
    }
}

/// The guard of a table for a role. It takes memory only where the policies act on the role.
pub fn guard<A: Heap>(
    alloc: A,
    catalog: &Catalog<A>,
    role: &str,
    table: Table<'_, A>,
) -> Result<Guard<A>, AllocError>
    ensures value { IfOk result (λ g. guard_of g ≡ spec.guard catalog.now role.now (table_of table.entry)) }
    ensures shows { IfOk result (λ g. (row : value.Row) → row_guards.shows role.now (guard_of g) row ≡ sees catalog.now role.now (table_of table.entry) row) }
    // No memory is taken where the role bypasses the policies.
    ensures exact { bypasses_policies catalog.now role.now (table_of table.entry) ≡ true → IsOk result }
{
    let marks = catalog.reached(role);
    guard_with(alloc, catalog, &marks, role, table)
}

/// The guard of each entry, in order; it shows exactly the rows of the entry that the role sees. The roles that the role
/// belongs to are found once.
pub fn frame<'s, A: Heap>(
    alloc: A,
    catalog: &Catalog<A>,
    role: &str,
    entries: &[Entry<'s, A>],
) -> Result<Items<Guard<A>, A>, AllocError>
    ensures value { IfOk result (λ guards. map guard_of guards ≡ spec.frame catalog.now role.now (entries_of entries.now)) }
    ensures shows { IfOk result (λ guards. (row : value.Row) → map (λ g. row_guards.shows role.now (guard_of g) row) guards ≡ map (λ e. sees catalog.now role.now (table_of e.table) row) entries.now) }
{
    let marks = catalog.reached(role);
    let mut guards = Items::new(alloc);
    for entry in entries {
        match guard_with(alloc, catalog, &marks, role, entry.table) {
            Ok(guard) => guards.push(guard)?,
            Err(error) => return Err(error),
        }
    }
    Ok(guards)
}
