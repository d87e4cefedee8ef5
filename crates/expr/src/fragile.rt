//! The first thing in an expression that may fault.

ghost use Rattle.std.specs.Prelude.{◌≡◌};
ghost use Rattle.expr.specs.View.{bound_arms, bound_expr_of, bound_exprs};
ghost use Rattle.expr.specs.Fragile.{first_fragile, fragile_members, fragile_arms};

use crate::bound::{BoundArm, BoundExpr};
use crate::offsets::least_of;
use memory::Heap;

/// The least offset of an arithmetic sign, a CAST or an aggregate in an expression, if there is one.
#[cycle(fragile)]
pub fn first_fragile<A: Heap>(expression: &BoundExpr<A>) -> Option<u32>
    ensures { result ≡ first_fragile (bound_expr_of expression.now) }
{
    match expression {
        BoundExpr::Column(_) | BoundExpr::Literal(_) | BoundExpr::CurrentUser => None,
        BoundExpr::Negate { offset, operand } => least_of(Some(*offset), first_fragile(operand)),
        BoundExpr::Arithmetic {
            offset,
            left,
            right,
            ..
        } => {
            let left = first_fragile(left);
            least_of(Some(*offset), least_of(left, first_fragile(right)))
        }
        BoundExpr::Comparison { left, right, .. } => {
            let left = first_fragile(left);
            least_of(left, first_fragile(right))
        }
        BoundExpr::Between {
            operand,
            low,
            high,
            ..
        } => {
            let operand = first_fragile(operand);
            let low = first_fragile(low);
            let high = first_fragile(high);
            least_of(operand, least_of(low, high))
        }
        BoundExpr::In { operand, .. } => first_fragile(operand),
        BoundExpr::IsNull { operand, .. } => first_fragile(operand),
        BoundExpr::Not { operand, .. } => first_fragile(operand),
        BoundExpr::And { members, .. } => fragile_members(members),
        BoundExpr::Or { members, .. } => fragile_members(members),
        BoundExpr::Cast {
            offset,
            operand,
            ..
        } => least_of(Some(*offset), first_fragile(operand)),
        BoundExpr::Case {
            arms,
            otherwise,
            ..
        } => {
            let arms = fragile_arms(arms);
            match otherwise {
                Some(value) => least_of(arms, first_fragile(value)),
                None => least_of(arms, None),
            }
        }
        BoundExpr::CountStar { offset } => Some(*offset),
        BoundExpr::Call {
            offset,
            argument,
            ..
        } => least_of(Some(*offset), first_fragile(argument)),
    }
}

#[cycle(fragile)]
fn fragile_members<A: Heap>(members: &[BoundExpr<A>]) -> Option<u32>
    ensures { result ≡ fragile_members (bound_exprs members.now) }
{
    let mut known = None;
    for member in members {
        known = least_of(known, first_fragile(member));
    }
    known
}

#[cycle(fragile)]
fn fragile_arms<A: Heap>(arms: &[BoundArm<A>]) -> Option<u32>
    ensures { result ≡ fragile_arms (bound_arms arms.now) }
{
    let mut known = None;
    for arm in arms {
        let when = first_fragile(&arm.when);
        let result = first_fragile(&arm.result);
        known = least_of(known, least_of(when, result));
    }
    known
}
