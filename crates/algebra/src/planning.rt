//! The conditions that a query is planned with.

ghost use Rattle.std.specs.Prelude.{◌≡◌, ◌++◌, IfOk, OnOk, map, true};
ghost use Rattle.std.specs.List.{flat_map, list_all};
ghost use Rattle.expr.specs.Movable.{all_movable, movable};
ghost use Rattle.expr.specs.View.{bound_expr_of, bound_exprs, bound_query_of};
ghost use Rattle.predicates.specs.Offsets.{without_offsets};
ghost use Rattle.algebra.specs.PlanningList as spec;
ghost use Rattle.algebra.specs.Runs.{stands_in};

use crate::equalities::constant_of;
use expr::{BoundExpr, BoundQuery, MovableExpr, movable_conjuncts};
use memory::{Heap, Items, boxed};
use predicates::{
    column_sides, conjunct_count, copy_without_offsets, folded, inward, is_same,
    law_offsets_keep_value,
};
use std::alloc::AllocError;
use value::MOST_CONJUNCTS;

/// Conditions that never fault.
type Conditions<A> = Items<MovableExpr<A>, A>;

// The condition without its offsets.
fn as_written<A: Heap>(alloc: A, condition: &BoundExpr<A>) -> Result<MovableExpr<A>, AllocError>
    requires { movable (bound_expr_of condition.now) ≡ true }
    ensures { IfOk result (λ e. e ≡ without_offsets (bound_expr_of condition.now)) }
{
    law_offsets_keep_value();
    Ok(MovableExpr::of_movable(copy_without_offsets(alloc, condition)?))
}

fn all_as_written<A: Heap>(
    alloc: A,
    conditions: &[&BoundExpr<A>],
) -> Result<Conditions<A>, AllocError>
    requires { list_all movable (map (λ e. bound_expr_of e.now) conditions.now) ≡ true }
    ensures { IfOk result (λ l. l ≡ map without_offsets (map (λ e. bound_expr_of e.now) conditions.now)) }
{
    let mut all = Items::new(alloc);
    for condition in conditions {
        all.push(as_written(alloc, *condition)?)?;
    }
    Ok(all)
}

/// The movable conjuncts as they are written.
pub fn written_conditions<A: Heap>(
    alloc: A,
    query: &BoundQuery<A>,
) -> Result<Conditions<A>, AllocError>
    ensures { IfOk result (λ l. l ≡ spec.written_conditions (bound_query_of query.now)) }
{
    let conjuncts = movable_conjuncts(alloc, query)?;
    all_as_written(alloc, &conjuncts)
}

// The condition with NOT carried inward, and then its literals folded.
fn simplified<A: Heap>(alloc: A, condition: &MovableExpr<A>) -> Result<MovableExpr<A>, AllocError>
    ensures { IfOk result (λ e. e ≡ spec.simplified condition.now) }
{
    let form = inward(alloc, condition)?;
    folded(alloc, &form)
}

/// Each condition with NOT carried inward, and then its literals folded.
pub fn all_simplified<A: Heap>(
    alloc: A,
    conditions: &[MovableExpr<A>],
) -> Result<Conditions<A>, AllocError>
    ensures { IfOk result (λ l. l ≡ map spec.simplified conditions.now) }
{
    let mut all = Items::new(alloc);
    for condition in conditions {
        all.push(simplified(alloc, condition)?)?;
    }
    Ok(all)
}

// Adds the members of an AND.
fn push_members<A: Heap>(
    alloc: A,
    known: &mut Conditions<A>,
    members: Vec<BoundExpr<A>, A>,
) -> Result<(), AllocError>
    requires { all_movable (bound_exprs members.items) ≡ true }
    ensures { OnOk result (known.new ≡ known.old ++ map (λ e. bound_expr_of e) members.items) }
{
    for member in members {
        let member = boxed(alloc, member)?;
        known.push(MovableExpr::of_movable(member))?;
    }
    Ok(())
}

/// Adds the parts of the condition.
pub fn push_parts<A: Heap>(
    alloc: A,
    known: &mut Conditions<A>,
    condition: MovableExpr<A>,
) -> Result<(), AllocError>
    ensures { OnOk result (known.new ≡ known.old ++ spec.parts_of condition) }
{
    if conjunct_count(&condition) < 2 {
        return known.push(condition);
    }
    match Box::into_inner(condition.into_expression()) {
        BoundExpr::And { members, .. } => push_members(alloc, known, members),
        part => {
            let part = boxed(alloc, part)?;
            known.push(MovableExpr::of_movable(part))
        }
    }
}

/// Adds the parts of each condition.
pub fn push_all_parts<A: Heap>(
    alloc: A,
    known: &mut Conditions<A>,
    conditions: Conditions<A>,
) -> Result<(), AllocError>
    ensures { OnOk result (known.new ≡ known.old ++ flat_map spec.parts_of conditions) }
{
    for condition in conditions.into_vec() {
        push_parts(alloc, known, condition)?;
    }
    Ok(())
}

/// The parts of each condition.
pub fn all_parts<A: Heap>(alloc: A, conditions: Conditions<A>) -> Result<Conditions<A>, AllocError>
    ensures { IfOk result (λ l. l ≡ flat_map spec.parts_of conditions) }
{
    let mut parts = Items::new(alloc);
    push_all_parts(alloc, &mut parts, conditions)?;
    Ok(parts)
}

// True where the condition equates columns of two different entries.
fn is_across<A: Heap>(condition: &MovableExpr<A>) -> bool
    ensures { result ≡ spec.is_across condition.now }
{
    match column_sides(condition) {
        Some((one, other)) => one.entry != other.entry,
        None => false,
    }
}

/// The equality with a literal that follows from `p` and `q` for the column of the other entry.
pub fn consequence<A: Heap>(
    alloc: A,
    p: &MovableExpr<A>,
    q: &MovableExpr<A>,
) -> Result<Option<MovableExpr<A>>, AllocError>
    ensures { IfOk result (λ e. e ≡ spec.consequence p.now q.now) }
{
    if !is_across(p) {
        return Ok(None);
    }
    constant_of(alloc, p, q)
}

/// True where the condition is one of the list.
pub fn stands_in<A: Heap>(condition: &MovableExpr<A>, conditions: &[MovableExpr<A>]) -> bool
    ensures { result ≡ stands_in condition.now conditions.now }
{
    conditions.iter().any(|other| is_same(condition.expression(), other.expression()))
}

/// Copies of the conditions.
pub fn copies<A: Heap>(alloc: A, conditions: &[MovableExpr<A>]) -> Result<Conditions<A>, AllocError>
    ensures { IfOk result (λ l. l ≡ conditions.now) }
{
    let mut all = Items::new(alloc);
    for condition in conditions {
        all.push(condition.copy(alloc)?)?;
    }
    Ok(all)
}

/// True where there are more than a planning list may have.
pub fn is_too_long<A: Heap>(conditions: &[MovableExpr<A>]) -> bool
    ensures { result ≡ spec.is_too_long conditions.now }
{
    conditions.len() > MOST_CONJUNCTS
}
