//! Expressions with their literals folded.

ghost use Rattle.std.specs.Prelude.{◌≡◌, IfOk, option_map};
ghost use Rattle.value.specs.Datum.{datum};
ghost use Rattle.expr.specs.View.{bound_arms, bound_expr_of, bound_exprs, otherwise_of};
ghost use Rattle.predicates.specs.Folded.{are_literal_arms, are_literals, folded, folded_node, is_literal, is_literal_otherwise, of_literals, value_alone};

use crate::rebuilding::{Rule, rebuild};
use eval::{Row, eval};
use expr::{BoundArm, BoundExpr, ColumnId, Copied};
use memory::{Failure, Heap, boxed};
use std::alloc::AllocError;
use value::{Val, Value};

fn is_literal<A: Heap>(expression: &BoundExpr<A>) -> bool
    ensures { result ≡ is_literal (bound_expr_of expression.now) }
{
    match expression {
        BoundExpr::Literal(_) => true,
        _ => false,
    }
}

fn are_literals<A: Heap>(members: &[BoundExpr<A>]) -> bool
    ensures { result ≡ are_literals (bound_exprs members.now) }
{
    for member in members {
        if !is_literal(member) {
            return false;
        }
    }
    true
}

fn are_literal_arms<A: Heap>(arms: &[BoundArm<A>]) -> bool
    ensures { result ≡ are_literal_arms (bound_arms arms.now) }
{
    for arm in arms {
        if !is_literal(&arm.when) {
            return false;
        }
        if !is_literal(&arm.result) {
            return false;
        }
    }
    true
}

// All operands are literals. False of a column, a literal, CURRENT_USER and an aggregate.
fn is_of_literals<A: Heap>(node: &BoundExpr<A>) -> bool
    ensures { result ≡ of_literals (bound_expr_of node.now) }
{
    match node {
        BoundExpr::Column(_)
        | BoundExpr::Literal(_)
        | BoundExpr::CurrentUser
        | BoundExpr::CountStar { .. }
        | BoundExpr::Call { .. } => false,
        BoundExpr::Negate { operand, .. } => is_literal(operand),
        BoundExpr::Arithmetic { left, right, .. } => is_literal(left) && is_literal(right),
        BoundExpr::Comparison { left, right, .. } => is_literal(left) && is_literal(right),
        BoundExpr::Between {
            operand,
            low,
            high,
            ..
        } => is_literal(operand) && is_literal(low) && is_literal(high),
        BoundExpr::In { operand, .. } => is_literal(operand),
        BoundExpr::IsNull { operand, .. } => is_literal(operand),
        BoundExpr::Not { operand, .. } => is_literal(operand),
        BoundExpr::And { members, .. } => are_literals(members),
        BoundExpr::Or { members, .. } => are_literals(members),
        BoundExpr::Cast { operand, .. } => is_literal(operand),
        BoundExpr::Case {
            arms,
            otherwise,
            ..
        } => {
            if !are_literal_arms(arms) {
                return false;
            }
            match otherwise {
                Some(value) => is_literal(value),
                None => true,
            }
        }
    }
}

// No columns, and no aggregates.
struct NoRow;

impl<A: Heap> Row<A> for NoRow {
    ghost use Rattle.predicates.specs.Folded.{nothing};

    ghost cells = { λ s. nothing };

    fn cell(&self, _id: ColumnId) -> Val<'_, A> {
        Val::Null
    }

    fn aggregate(&self, _offset: u32) -> Val<'_, A> {
        Val::Null
    }
}

// The value of an expression that needs no row and no role, if it does not fault.
fn value_alone<A: Heap>(alloc: A, expression: &BoundExpr<A>) -> Result<Option<Value<A>>, AllocError>
    ensures { IfOk result (λ v. option_map datum v ≡ value_alone (bound_expr_of expression.now)) }
{
    match eval(alloc, expression, &NoRow, "") {
        Ok(value) => match value.to_value(alloc) {
            Ok(value) => Ok(Some(value)),
            Err(failure) => Err(failure),
        },
        Err(Failure::Error(_)) => Ok(None),
        Err(Failure::OutOfMemory) => Err(AllocError),
    }
}

// The literal of the node's value, if its operands are literals.
fn fold_node<A: Heap>(alloc: A, node: Box<BoundExpr<A>, A>) -> Copied<A>
    ensures { IfOk result (λ b. bound_expr_of b.value ≡ folded_node (bound_expr_of node.value)) }
{
    if !is_of_literals(&node) {
        return Ok(node);
    }
    match value_alone(alloc, &node) {
        Ok(Some(value)) => boxed(alloc, BoundExpr::Literal(value)),
        Ok(None) => Ok(node),
        Err(failure) => Err(failure),
    }
}

// Folds each node.
struct Folding;

impl Rule for Folding {
    ghost use Rattle.std.specs.Prelude.{◌≡◌, IfOk};
    ghost use Rattle.expr.specs.Bound as bound;
    ghost use Rattle.expr.specs.View.{bound_expr_of};
    ghost use Rattle.predicates.specs.Folded.{folded_node};

    ghost at = { λ s. folded_node };

    fn apply<A: Heap>(&self, alloc: A, node: Copied<A>) -> Copied<A>
        ensures { (e : bound.BoundExpr) → IfOk node (λ b. bound_expr_of b.value ≡ e) → IfOk result (λ b. bound_expr_of b.value ≡ folded_node e) }
    {
        match node {
            Ok(node) => fold_node(alloc, node),
            Err(failure) => Err(failure),
        }
    }
}

/// A copy of the expression in which each part without column, CURRENT_USER and aggregate is the literal of its value.
pub fn fold<A: Heap>(alloc: A, expression: &BoundExpr<A>) -> Copied<A>
    ensures { IfOk result (λ copy. bound_expr_of copy.value ≡ folded (bound_expr_of expression.now)) }
{
    rebuild(alloc, expression, &Folding)
}
