//! The conjuncts of a query, those that cannot fault apart from those that may.

ghost use Rattle.std.specs.Prelude.{◌≡◌, ◌++◌, OnOk, IfOk, true, map, filter, option_map};
ghost use Rattle.std.specs.List.{flat_map, list_all};
ghost use Rattle.expr.specs.Movable.{movable};
ghost use Rattle.expr.specs.View.{bound_expr_of, bound_exprs, bound_query_of};
ghost use Rattle.expr.specs.Conjuncts as spec;

use crate::bound::BoundExpr;
use crate::movable::is_movable;
use crate::query::{BoundCondition, BoundQuery};
use memory::Heap;
use std::alloc::AllocError;

fn push_members<'q, A: Heap>(
    known: &mut Vec<&'q BoundExpr<A>, A>,
    members: &'q [BoundExpr<A>],
) -> Result<(), AllocError>
    ensures { OnOk result (map (λ e. bound_expr_of e.now) known.new.items ≡ map (λ e. bound_expr_of e.now) known.old.items ++ map (λ e. bound_expr_of e) members.now) }
{
    for member in members {
        known.push(member)?;
    }
    Ok(())
}

// Adds the conjuncts of a predicate.
fn push_conjuncts<'q, A: Heap>(
    known: &mut Vec<&'q BoundExpr<A>, A>,
    predicate: &'q BoundExpr<A>,
) -> Result<(), AllocError>
    ensures { OnOk result (map (λ e. bound_expr_of e.now) known.new.items ≡ map (λ e. bound_expr_of e.now) known.old.items ++ spec.conjuncts_of (bound_expr_of predicate.now)) }
{
    match predicate {
        BoundExpr::And { members, .. } => push_members(known, members),
        BoundExpr::Column(_)
        | BoundExpr::Literal(_)
        | BoundExpr::CurrentUser
        | BoundExpr::Negate { .. }
        | BoundExpr::Arithmetic { .. }
        | BoundExpr::Comparison { .. }
        | BoundExpr::Between { .. }
        | BoundExpr::In { .. }
        | BoundExpr::IsNull { .. }
        | BoundExpr::Not { .. }
        | BoundExpr::Or { .. }
        | BoundExpr::Cast { .. }
        | BoundExpr::Case { .. }
        | BoundExpr::CountStar { .. }
        | BoundExpr::Call { .. } => {
            known.push(predicate)?;
            Ok(())
        }
    }
}

fn push_condition<'q, A: Heap>(
    known: &mut Vec<&'q BoundExpr<A>, A>,
    condition: &'q BoundCondition<A>,
) -> Result<(), AllocError>
    ensures { OnOk result (map (λ e. bound_expr_of e.now) known.new.items ≡ map (λ e. bound_expr_of e.now) known.old.items ++ spec.conjuncts_in (option_map (λ b. bound_expr_of b.value) condition.now)) }
{
    match condition {
        Some(predicate) => push_conjuncts(known, predicate),
        None => Ok(()),
    }
}

fn push_conditions<'q, A: Heap>(
    known: &mut Vec<&'q BoundExpr<A>, A>,
    conditions: &'q [BoundCondition<A>],
) -> Result<(), AllocError>
    ensures { OnOk result (map (λ e. bound_expr_of e.now) known.new.items ≡ map (λ e. bound_expr_of e.now) known.old.items ++ flat_map spec.conjuncts_in (map (λ o. option_map (λ b. bound_expr_of b.value) o) conditions.now)) }
{
    for condition in conditions {
        push_condition(known, condition)?;
    }
    Ok(())
}

// Of each ON in the order of FROM, those of left joins left out, and then of WHERE.
fn conjuncts<'q, A: Heap>(
    alloc: A,
    query: &'q BoundQuery<A>,
) -> Result<Vec<&'q BoundExpr<A>, A>, AllocError>
    ensures { IfOk result (λ v. map (λ e. bound_expr_of e.now) v.items ≡ spec.conjuncts (bound_query_of query.now)) }
{
    let mut known = Vec::new(alloc);
    let ons = query.ons.as_slice();
    let inner = ons.len().saturating_sub(query.left_count);
    push_conditions(&mut known, &ons[..inner])?;
    push_condition(&mut known, &query.filter)?;
    Ok(known)
}

// The conjuncts that cannot fault, or those that may.
fn parted<'q, A: Heap>(
    alloc: A,
    conjuncts: &[&'q BoundExpr<A>],
    cannot_fault: bool,
) -> Result<Vec<&'q BoundExpr<A>, A>, AllocError>
    ensures { IfOk result (λ v. map (λ e. bound_expr_of e.now) v.items ≡ filter (spec.is_in_part cannot_fault) (map (λ e. bound_expr_of e.now) conjuncts.now)) }
{
    let mut part = Vec::new(alloc);
    for conjunct in conjuncts {
        if is_movable(*conjunct) == cannot_fault {
            part.push(*conjunct)?;
        }
    }
    Ok(part)
}

/// The conjuncts that cannot fault, in written order: of each ON in the order of FROM, those of left joins left out, and then of WHERE.
pub fn movable_conjuncts<'q, A: Heap>(
    alloc: A,
    query: &'q BoundQuery<A>,
) -> Result<Vec<&'q BoundExpr<A>, A>, AllocError>
    ensures value { IfOk result (λ v. map (λ e. bound_expr_of e.now) v.items ≡ spec.movable_conjuncts (bound_query_of query.now)) }
    ensures movable { IfOk result (λ v. list_all movable (map (λ e. bound_expr_of e.now) v.items) ≡ true) }
{
    let all = conjuncts(alloc, query)?;
    parted(alloc, &all, true)
}

/// The conjuncts that may fault, in written order: of each ON in the order of FROM, those of left joins left out, and then of WHERE.
pub fn fragile_conjuncts<'q, A: Heap>(
    alloc: A,
    query: &'q BoundQuery<A>,
) -> Result<Vec<&'q BoundExpr<A>, A>, AllocError>
    ensures value { IfOk result (λ v. map (λ e. bound_expr_of e.now) v.items ≡ spec.fragile_conjuncts (bound_query_of query.now)) }
{
    let all = conjuncts(alloc, query)?;
    parted(alloc, &all, false)
}
