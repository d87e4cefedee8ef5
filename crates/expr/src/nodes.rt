//! Nodes made of the copies of their parts.

ghost use Rattle.std.specs.Prelude.{◌≡◌, IfOk, map};
ghost use Rattle.value.specs.Datum.{Datum, datum};
ghost use Rattle.expr.specs.Bound as bound;
ghost use Rattle.expr.specs.View.{bound_arm_pair, bound_arms, bound_expr_of, bound_exprs};

use crate::bound::{BoundArm, BoundExpr};
use memory::{Heap, boxed};
use std::alloc::AllocError;
use value::{Aggregate, Arithmetic, ColType, Comparison, Value, copy_values};

/// An expression that was made, if there was memory.
pub type Copied<A> = Result<Box<BoundExpr<A>, A>, AllocError>;

/// The members of a connective that were made.
pub type Members<A> = Result<Vec<BoundExpr<A>, A>, AllocError>;

/// The arms of a CASE that were made.
pub type Arms<A> = Result<Vec<BoundArm<A>, A>, AllocError>;

/// A literal, of what was made of its parts; out of memory where a part was not made.
pub fn literal<A: Heap>(alloc: A, value: Result<Value<A>, AllocError>) -> Copied<A>
    ensures { (d : Datum) → IfOk value (λ v. datum v ≡ d) → IfOk result (λ b. bound_expr_of b.value ≡ bound.Literal d) }
{
    match value {
        Ok(value) => boxed(alloc, BoundExpr::Literal(value)),
        Err(failure) => Err(failure),
    }
}

/// `- operand`, of what was made of its parts; out of memory where a part was not made.
pub fn negation<A: Heap>(alloc: A, offset: u32, operand: Copied<A>) -> Copied<A>
    ensures { (e : bound.BoundExpr) → IfOk operand (λ b. bound_expr_of b.value ≡ e) → IfOk result (λ b. bound_expr_of b.value ≡ bound.Negate offset e) }
{
    match operand {
        Ok(operand) => boxed(alloc, BoundExpr::Negate { offset, operand }),
        Err(failure) => Err(failure),
    }
}

/// `left + right` and the like, of what was made of its parts; out of memory where a part was not made.
pub fn arithmetic<A: Heap>(
    alloc: A,
    operator: Arithmetic,
    offset: u32,
    left: Box<BoundExpr<A>, A>,
    right: Copied<A>,
) -> Copied<A>
    ensures { (e : bound.BoundExpr) → IfOk right (λ b. bound_expr_of b.value ≡ e) → IfOk result (λ b. bound_expr_of b.value ≡ bound.Arithmetic operator offset (bound_expr_of left.value) e) }
{
    match right {
        Ok(right) => {
            let whole = BoundExpr::Arithmetic {
                operator,
                offset,
                left,
                right,
            };
            boxed(alloc, whole)
        }
        Err(failure) => Err(failure),
    }
}

/// `left = right` and the like, of what was made of its parts; out of memory where a part was not made.
pub fn comparison<A: Heap>(
    alloc: A,
    operator: Comparison,
    offset: u32,
    left: Box<BoundExpr<A>, A>,
    right: Copied<A>,
) -> Copied<A>
    ensures { (e : bound.BoundExpr) → IfOk right (λ b. bound_expr_of b.value ≡ e) → IfOk result (λ b. bound_expr_of b.value ≡ bound.Comparison operator offset (bound_expr_of left.value) e) }
{
    match right {
        Ok(right) => {
            let whole = BoundExpr::Comparison {
                operator,
                offset,
                left,
                right,
            };
            boxed(alloc, whole)
        }
        Err(failure) => Err(failure),
    }
}

/// `operand [NOT] BETWEEN low AND high`, of what was made of its parts; out of memory where a part was not made.
pub fn between<A: Heap>(
    alloc: A,
    negated: bool,
    offset: u32,
    operand: Box<BoundExpr<A>, A>,
    low: Box<BoundExpr<A>, A>,
    high: Copied<A>,
) -> Copied<A>
    ensures { (e : bound.BoundExpr) → IfOk high (λ b. bound_expr_of b.value ≡ e) → IfOk result (λ b. bound_expr_of b.value ≡ bound.Between negated offset (bound_expr_of operand.value) (bound_expr_of low.value) e) }
{
    match high {
        Ok(high) => {
            let whole = BoundExpr::Between {
                negated,
                offset,
                operand,
                low,
                high,
            };
            boxed(alloc, whole)
        }
        Err(failure) => Err(failure),
    }
}

/// `operand [NOT] IN (value, ..)`, of what was made of its parts; out of memory where a part was not made.
pub fn membership<A: Heap>(
    alloc: A,
    negated: bool,
    offset: u32,
    operand: Copied<A>,
    values: &[Value<A>],
) -> Copied<A>
    ensures { (e : bound.BoundExpr) → IfOk operand (λ b. bound_expr_of b.value ≡ e) → IfOk result (λ b. bound_expr_of b.value ≡ bound.In negated offset (map datum values.now) e) }
{
    let operand = match operand {
        Ok(operand) => operand,
        Err(failure) => return Err(failure),
    };
    match copy_values(alloc, values) {
        Ok(values) => {
            let whole = BoundExpr::In {
                negated,
                offset,
                values,
                operand,
            };
            boxed(alloc, whole)
        }
        Err(failure) => Err(failure),
    }
}

/// `operand IS [NOT] NULL`, of what was made of its parts; out of memory where a part was not made.
pub fn null_check<A: Heap>(alloc: A, negated: bool, offset: u32, operand: Copied<A>) -> Copied<A>
    ensures { (e : bound.BoundExpr) → IfOk operand (λ b. bound_expr_of b.value ≡ e) → IfOk result (λ b. bound_expr_of b.value ≡ bound.IsNull negated offset e) }
{
    match operand {
        Ok(operand) => {
            let whole = BoundExpr::IsNull {
                negated,
                offset,
                operand,
            };
            boxed(alloc, whole)
        }
        Err(failure) => Err(failure),
    }
}

/// `NOT operand`, of what was made of its parts; out of memory where a part was not made.
pub fn logical_not<A: Heap>(alloc: A, offset: u32, operand: Copied<A>) -> Copied<A>
    ensures { (e : bound.BoundExpr) → IfOk operand (λ b. bound_expr_of b.value ≡ e) → IfOk result (λ b. bound_expr_of b.value ≡ bound.Not offset e) }
{
    match operand {
        Ok(operand) => boxed(alloc, BoundExpr::Not { offset, operand }),
        Err(failure) => Err(failure),
    }
}

/// `CAST(operand AS to)`, of what was made of its parts; out of memory where a part was not made.
pub fn cast<A: Heap>(alloc: A, offset: u32, to: ColType, operand: Copied<A>) -> Copied<A>
    ensures { (e : bound.BoundExpr) → IfOk operand (λ b. bound_expr_of b.value ≡ e) → IfOk result (λ b. bound_expr_of b.value ≡ bound.Cast offset to e) }
{
    match operand {
        Ok(operand) => {
            let whole = BoundExpr::Cast {
                offset,
                to,
                operand,
            };
            boxed(alloc, whole)
        }
        Err(failure) => Err(failure),
    }
}

/// An aggregate of an expression, of what was made of its parts; out of memory where a part was not made.
pub fn call<A: Heap>(alloc: A, aggregate: Aggregate, offset: u32, argument: Copied<A>) -> Copied<A>
    ensures { (e : bound.BoundExpr) → IfOk argument (λ b. bound_expr_of b.value ≡ e) → IfOk result (λ b. bound_expr_of b.value ≡ bound.Call aggregate offset e) }
{
    match argument {
        Ok(argument) => {
            let whole = BoundExpr::Call {
                aggregate,
                offset,
                argument,
            };
            boxed(alloc, whole)
        }
        Err(failure) => Err(failure),
    }
}

/// `member AND member AND ..`, of what was made of its parts; out of memory where a part was not made.
pub fn conjunction<A: Heap>(alloc: A, offset: u32, members: Members<A>) -> Copied<A>
    ensures { (es : bound.BoundExprs) → IfOk members (λ v. bound_exprs v.items ≡ es) → IfOk result (λ b. bound_expr_of b.value ≡ bound.And offset es) }
{
    match members {
        Ok(members) => boxed(alloc, BoundExpr::And { offset, members }),
        Err(failure) => Err(failure),
    }
}

/// `member OR member OR ..`, of what was made of its parts; out of memory where a part was not made.
pub fn disjunction<A: Heap>(alloc: A, offset: u32, members: Members<A>) -> Copied<A>
    ensures { (es : bound.BoundExprs) → IfOk members (λ v. bound_exprs v.items ≡ es) → IfOk result (λ b. bound_expr_of b.value ≡ bound.Or offset es) }
{
    match members {
        Ok(members) => boxed(alloc, BoundExpr::Or { offset, members }),
        Err(failure) => Err(failure),
    }
}

/// A CASE without ELSE, of what was made of its parts; out of memory where a part was not made.
pub fn without_otherwise<A: Heap>(alloc: A, offset: u32, arms: Arms<A>) -> Copied<A>
    ensures { (as_ : bound.BoundArms) → IfOk arms (λ v. bound_arms v.items ≡ as_) → IfOk result (λ b. bound_expr_of b.value ≡ bound.Case offset as_ bound.Nothing) }
{
    match arms {
        Ok(arms) => {
            let otherwise = None;
            boxed(
                alloc,
                BoundExpr::Case {
                    offset,
                    arms,
                    otherwise,
                },
            )
        }
        Err(failure) => Err(failure),
    }
}

/// A CASE with ELSE, of what was made of its parts; out of memory where a part was not made.
pub fn with_otherwise<A: Heap>(
    alloc: A,
    offset: u32,
    arms: Arms<A>,
    otherwise: Copied<A>,
) -> Copied<A>
    ensures { (as_ : bound.BoundArms) (e : bound.BoundExpr) → IfOk arms (λ v. bound_arms v.items ≡ as_) → IfOk otherwise (λ b. bound_expr_of b.value ≡ e) → IfOk result (λ b. bound_expr_of b.value ≡ bound.Case offset as_ (bound.Value e)) }
{
    let arms = match arms {
        Ok(arms) => arms,
        Err(failure) => return Err(failure),
    };
    match otherwise {
        Ok(value) => {
            let otherwise = Some(value);
            boxed(
                alloc,
                BoundExpr::Case {
                    offset,
                    arms,
                    otherwise,
                },
            )
        }
        Err(failure) => Err(failure),
    }
}

/// `WHEN when THEN result`, of what was made of its parts; out of memory where a part was not made.
pub fn arm<A: Heap>(when: Copied<A>, then: Copied<A>) -> Result<BoundArm<A>, AllocError>
    ensures { (d e : bound.BoundExpr) → IfOk when (λ b. bound_expr_of b.value ≡ d) → IfOk then (λ b. bound_expr_of b.value ≡ e) → IfOk result (λ a. bound_arm_pair a ≡ (d, e)) }
{
    let when = match when {
        Ok(when) => when,
        Err(failure) => return Err(failure),
    };
    match then {
        Ok(then) => Ok(BoundArm {
            when: Box::into_inner(when),
            result: Box::into_inner(then),
        }),
        Err(failure) => Err(failure),
    }
}
