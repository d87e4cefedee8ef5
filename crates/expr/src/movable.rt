//! Expressions that never fault.

ghost use Rattle.std.specs.Prelude.{◌≡◌};
ghost use Rattle.expr.specs.View.{bound_arms, bound_expr_of, bound_exprs};
ghost use Rattle.expr.specs.Movable.{movable, all_movable, arms_movable};

use crate::bound::{BoundArm, BoundExpr};
use memory::Heap;

/// True where an expression never faults: it has no arithmetic, no cast and no aggregate.
#[cycle(movable)]
pub fn is_movable<A: Heap>(expression: &BoundExpr<A>) -> bool
    ensures { result ≡ movable (bound_expr_of expression.now) }
{
    match expression {
        BoundExpr::Column(_) | BoundExpr::Literal(_) | BoundExpr::CurrentUser => true,
        BoundExpr::Negate { .. }
        | BoundExpr::Arithmetic { .. }
        | BoundExpr::Cast { .. }
        | BoundExpr::CountStar { .. }
        | BoundExpr::Call { .. } => false,
        BoundExpr::Comparison { left, right, .. } => is_movable(left) && is_movable(right),
        BoundExpr::Between {
            operand,
            low,
            high,
            ..
        } => is_movable(operand) && is_movable(low) && is_movable(high),
        BoundExpr::In { operand, .. } => is_movable(operand),
        BoundExpr::IsNull { operand, .. } => is_movable(operand),
        BoundExpr::Not { operand, .. } => is_movable(operand),
        BoundExpr::And { members, .. } => are_movable(members),
        BoundExpr::Or { members, .. } => are_movable(members),
        BoundExpr::Case {
            arms,
            otherwise,
            ..
        } => {
            if !are_arms_movable(arms) {
                return false;
            }
            match otherwise {
                Some(value) => is_movable(value),
                None => true,
            }
        }
    }
}

#[cycle(movable)]
fn are_movable<A: Heap>(members: &[BoundExpr<A>]) -> bool
    ensures { result ≡ all_movable (bound_exprs members.now) }
{
    for member in members {
        if !is_movable(member) {
            return false;
        }
    }
    true
}

#[cycle(movable)]
fn are_arms_movable<A: Heap>(arms: &[BoundArm<A>]) -> bool
    ensures { result ≡ arms_movable (bound_arms arms.now) }
{
    for arm in arms {
        if !is_movable(&arm.when) {
            return false;
        }
        if !is_movable(&arm.result) {
            return false;
        }
    }
    true
}
