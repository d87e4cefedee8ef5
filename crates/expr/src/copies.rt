//! Copies of bound expressions.

ghost use Rattle.std.specs.Prelude.{◌≡◌, IfOk};
ghost use Rattle.expr.specs.View.{bound_arms, bound_expr_of, bound_exprs};

use crate::bound::{BoundArm, BoundExpr};
use crate::nodes::{
    Arms, Copied, Members, arithmetic, arm, between, call, cast, comparison, conjunction,
    disjunction, literal, logical_not, membership, negation, null_check, with_otherwise,
    without_otherwise,
};
use memory::{Heap, Items, boxed};
use std::alloc::AllocError;

/// A copy of the expression.
#[cycle(copy)]
pub fn copy_expr<A: Heap>(alloc: A, expression: &BoundExpr<A>) -> Copied<A>
    ensures { IfOk result (λ copy. bound_expr_of copy.value ≡ bound_expr_of expression.now) }
{
    match expression {
        BoundExpr::Column(id) => boxed(alloc, BoundExpr::Column(*id)),
        BoundExpr::Literal(value) => literal(alloc, value.copy(alloc)),
        BoundExpr::CurrentUser => boxed(alloc, BoundExpr::CurrentUser),
        BoundExpr::Negate { offset, operand } => {
            negation(alloc, *offset, copy_expr(alloc, operand))
        }
        BoundExpr::Arithmetic {
            operator,
            offset,
            left,
            right,
        } => {
            let left = copy_expr(alloc, left)?;
            arithmetic(alloc, *operator, *offset, left, copy_expr(alloc, right))
        }
        BoundExpr::Comparison {
            operator,
            offset,
            left,
            right,
        } => {
            let left = copy_expr(alloc, left)?;
            comparison(alloc, *operator, *offset, left, copy_expr(alloc, right))
        }
        BoundExpr::Between {
            negated,
            offset,
            operand,
            low,
            high,
        } => {
            let operand = copy_expr(alloc, operand)?;
            let low = copy_expr(alloc, low)?;
            between(
                alloc,
                *negated,
                *offset,
                operand,
                low,
                copy_expr(alloc, high),
            )
        }
        BoundExpr::In {
            negated,
            offset,
            values,
            operand,
        } => {
            let operand = copy_expr(alloc, operand);
            membership(alloc, *negated, *offset, operand, values.as_slice())
        }
        BoundExpr::IsNull {
            negated,
            offset,
            operand,
        } => { null_check(alloc, *negated, *offset, copy_expr(alloc, operand)) }
        BoundExpr::Not { offset, operand } => {
            logical_not(alloc, *offset, copy_expr(alloc, operand))
        }
        BoundExpr::And { offset, members } => {
            conjunction(alloc, *offset, copy_members(alloc, members))
        }
        BoundExpr::Or { offset, members } => {
            disjunction(alloc, *offset, copy_members(alloc, members))
        }
        BoundExpr::Cast {
            offset,
            to,
            operand,
        } => { cast(alloc, *offset, *to, copy_expr(alloc, operand)) }
        BoundExpr::Case {
            offset,
            arms,
            otherwise,
        } => {
            let arms = copy_arms(alloc, arms);
            match otherwise {
                Some(value) => {
                    let value = copy_expr(alloc, value);
                    with_otherwise(alloc, *offset, arms, value)
                }
                None => without_otherwise(alloc, *offset, arms),
            }
        }
        BoundExpr::CountStar { offset } => boxed(alloc, BoundExpr::CountStar { offset: *offset }),
        BoundExpr::Call {
            aggregate,
            offset,
            argument,
        } => { call(alloc, *aggregate, *offset, copy_expr(alloc, argument)) }
    }
}

// The same of several expressions.
#[cycle(copy)]
fn copy_members<A: Heap>(alloc: A, members: &[BoundExpr<A>]) -> Members<A>
    ensures { IfOk result (λ v. bound_exprs v.items ≡ bound_exprs members.now) }
{
    let mut all = Items::new(alloc);
    for member in members {
        match copy_expr(alloc, member) {
            Ok(member) => all.push(Box::into_inner(member))?,
            Err(failure) => return Err(failure),
        }
    }
    Ok(all.into_vec())
}

// The same of the arms of a CASE.
#[cycle(copy)]
fn copy_arms<A: Heap>(alloc: A, arms: &[BoundArm<A>]) -> Arms<A>
    ensures { IfOk result (λ v. bound_arms v.items ≡ bound_arms arms.now) }
{
    let mut all = Items::new(alloc);
    for next in arms {
        let when = copy_expr(alloc, &next.when);
        let result = copy_expr(alloc, &next.result);
        match arm(when, result) {
            Ok(arm) => all.push(arm)?,
            Err(failure) => return Err(failure),
        }
    }
    Ok(all.into_vec())
}
