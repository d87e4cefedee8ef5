//! The value of an expression.

ghost use Rattle.std.specs.Prelude.{◌≡◌, ◌≢◌, Err, true};
ghost use Rattle.memory.specs.Gives.{Gives};
ghost use Rattle.value.specs.Datum.{datum_of};
ghost use Rattle.expr.specs.View.{bound_arms, bound_expr_of, bound_exprs, otherwise_of};
ghost use Rattle.expr.specs.Movable.{movable};
ghost use Rattle.eval.specs.Meaning as spec;
ghost use Rattle.eval.specs.Meaning.{meaning};
ghost use Rattle.eval.specs.Memory.{takes_no_memory, all_take_no_memory, arms_take_no_memory, otherwise_takes_no_memory};

use crate::outcomes::{
    arithmetic, as_value, between, cast_at, comparison, condition, logical_not, membership,
    negation, null_check,
};
use crate::row::Row;
use expr::{BoundArm, BoundExpr};
use memory::{Failure, Heap};
use std::borrow::CowStr;
use value::{Fault, Truth, Val, and3, or3};

// The role for which an expression is evaluated: a &str in a struct, of which no call in the cycle has to show that it is text.
#[derive(Clone, Copy)]
struct Role<'a> {
    name: &'a str,
}

/// The value on a row or on a group, for a role, or the first fault from left to right.
#[tactic(auto, using(crate::proofs::Movables::takes_none))]
pub fn eval<'a, A: Heap, R: Row<A>>(
    alloc: A,
    expression: &'a BoundExpr<A>,
    row: &'a R,
    role: &'a str,
) -> Result<Val<'a, A>, Failure<Fault>>
    ensures value { Gives datum_of result (meaning (R.cells row.now) role.now (bound_expr_of expression.now)) }
    // Only a cast to text takes memory.
    ensures exact { takes_no_memory (bound_expr_of expression.now) ≡ true → result ≢ Err Failure.OutOfMemory }
    // A cast is not movable.
    ensures memory { movable (bound_expr_of expression.now) ≡ true → result ≢ Err Failure.OutOfMemory }
{
    evaluate(alloc, expression, row, &Role { name: role })
}

// The value, in the cycle with those of AND, OR and CASE.
#[cycle(eval)]
fn evaluate<'a, A: Heap, R: Row<A>>(
    alloc: A,
    expression: &'a BoundExpr<A>,
    row: &'a R,
    role: &Role<'a>,
) -> Result<Val<'a, A>, Failure<Fault>>
    ensures value { Gives datum_of result (meaning (R.cells row.now) role.now.name.now (bound_expr_of expression.now)) }
    ensures memory { takes_no_memory (bound_expr_of expression.now) ≡ true → result ≢ Err Failure.OutOfMemory }
{
    match expression {
        BoundExpr::Column(id) => Ok(row.cell(*id)),
        BoundExpr::Literal(value) => Ok(value.as_val()),
        BoundExpr::CurrentUser => Ok(Val::Text(CowStr::Borrowed(role.name))),
        BoundExpr::Negate { offset, operand } => negation(
            *offset,
            evaluate(alloc, operand, row, role),
        ),
        BoundExpr::Arithmetic {
            operator,
            offset,
            left,
            right,
        } => {
            let x = evaluate(alloc, left, row, role)?;
            arithmetic(*operator, *offset, x, evaluate(alloc, right, row, role))
        }
        BoundExpr::Comparison {
            operator,
            left,
            right,
            ..
        } => {
            let x = evaluate(alloc, left, row, role)?;
            comparison(*operator, x, evaluate(alloc, right, row, role))
        }
        BoundExpr::Between {
            negated,
            operand,
            low,
            high,
            ..
        } => {
            let x = evaluate(alloc, operand, row, role)?;
            let y = evaluate(alloc, low, row, role)?;
            between(*negated, x, y, evaluate(alloc, high, row, role))
        }
        BoundExpr::In {
            negated,
            values,
            operand,
            ..
        } => {
            membership(
                *negated,
                evaluate(alloc, operand, row, role),
                values.as_slice(),
            )
        }
        BoundExpr::IsNull {
            negated,
            operand,
            ..
        } => { null_check(*negated, evaluate(alloc, operand, row, role)) }
        BoundExpr::Not { operand, .. } => logical_not(evaluate(alloc, operand, row, role)),
        BoundExpr::And { members, .. } => as_value(conjunction(alloc, members, row, role)),
        BoundExpr::Or { members, .. } => as_value(disjunction(alloc, members, row, role)),
        BoundExpr::Cast {
            offset,
            to,
            operand,
        } => { cast_at(alloc, *to, *offset, evaluate(alloc, operand, row, role)) }
        BoundExpr::Case {
            arms,
            otherwise,
            ..
        } => { chosen(alloc, arms, otherwise, row, role) }
        BoundExpr::CountStar { offset } | BoundExpr::Call { offset, .. } => {
            Ok(row.aggregate(*offset))
        }
    }
}

// The AND of the conditions, up to the first that is false.
#[cycle(eval)]
fn conjunction<A: Heap, R: Row<A>>(
    alloc: A,
    members: &[BoundExpr<A>],
    row: &R,
    role: &Role<'_>,
) -> Result<Truth, Failure<Fault>>
    ensures value { Gives (λ t. t) result (spec.conjunction (R.cells row.now) role.now.name.now (bound_exprs members.now)) }
    ensures memory { all_take_no_memory (bound_exprs members.now) ≡ true → result ≢ Err Failure.OutOfMemory }
{
    let mut known = Truth::True;
    for member in members {
        known = and3(known, condition(evaluate(alloc, member, row, role))?);
        if known == Truth::False {
            return Ok(Truth::False);
        }
    }
    Ok(known)
}

// The OR of the conditions, up to the first that is true.
#[cycle(eval)]
fn disjunction<A: Heap, R: Row<A>>(
    alloc: A,
    members: &[BoundExpr<A>],
    row: &R,
    role: &Role<'_>,
) -> Result<Truth, Failure<Fault>>
    ensures value { Gives (λ t. t) result (spec.disjunction (R.cells row.now) role.now.name.now (bound_exprs members.now)) }
    ensures memory { all_take_no_memory (bound_exprs members.now) ≡ true → result ≢ Err Failure.OutOfMemory }
{
    let mut known = Truth::False;
    for member in members {
        known = or3(known, condition(evaluate(alloc, member, row, role))?);
        if known == Truth::True {
            return Ok(Truth::True);
        }
    }
    Ok(known)
}

// The result of the first arm whose condition is true, or else that of ELSE.
#[cycle(eval)]
fn chosen<'a, A: Heap, R: Row<A>>(
    alloc: A,
    arms: &'a [BoundArm<A>],
    otherwise: &'a Option<Box<BoundExpr<A>, A>>,
    row: &'a R,
    role: &Role<'a>,
) -> Result<Val<'a, A>, Failure<Fault>>
    ensures value { Gives datum_of result (spec.chosen (R.cells row.now) role.now.name.now (bound_arms arms.now) (spec.otherwise (R.cells row.now) role.now.name.now (otherwise_of otherwise.now))) }
    ensures memory { arms_take_no_memory (bound_arms arms.now) ≡ true → otherwise_takes_no_memory (otherwise_of otherwise.now) ≡ true → result ≢ Err Failure.OutOfMemory }
{
    for arm in arms {
        if condition(evaluate(alloc, &arm.when, row, role))? == Truth::True {
            return evaluate(alloc, &arm.result, row, role);
        }
    }
    match otherwise {
        Some(other) => evaluate(alloc, other, row, role),
        None => Ok(Val::Null),
    }
}
