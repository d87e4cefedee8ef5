//! Bound nodes, each made of its parts as they were bound: it, or the first error of a part.

ghost use Rattle.std.specs.Prelude.{◌≡◌, ◌++◌, [], ◌∷◌, IfOk, List, Result, Ok, Err, map};
ghost use Rattle.std.specs.Result.{MatchResult};
ghost use Rattle.memory.specs.Gives.{Gives};
ghost use Rattle.memory.specs.declared.failure.Failure.TheVariants.{OutOfMemory};
ghost use Rattle.value.specs.Datum.{datum};
ghost use Rattle.expr.specs.Bound as bound;
ghost use Rattle.expr.specs.Bound.{BoundExpr as SpecExpr, Nothing};
ghost use Rattle.expr.specs.View.{bound_arm_pair, bound_expr_of};
ghost use Rattle.scope.specs.declared.error.BindError.{BindError as SpecFault};
ghost use Rattle.scope.specs.BoundExprs as spec;
ghost use Rattle.memory.specs.Results.{and_then};

use crate::error::BindError;
use expr::{BoundArm, BoundExpr, ColumnId};
use memory::{Failure, Heap, Items, boxed};
use std::alloc::AllocError;
use value::{Aggregate, Arithmetic, ColType, Comparison, Value};

/// A bound expression, or the first error of its names.
pub type BindResult<A> = Result<Box<BoundExpr<A>, A>, Failure<BindError>>;

// The same of several expressions.
pub(crate) type Members<A> = Result<Vec<BoundExpr<A>, A>, Failure<BindError>>;

// The same of the arms of a CASE.
pub(crate) type Arms<A> = Result<Vec<BoundArm<A>, A>, Failure<BindError>>;

// Both, or the first failure. What is not returned is dropped here and not in the caller, whose proof would contain the
// whole drop of a tree.
fn both<X: Drop, Y: Drop>(
    x: Result<X, Failure<BindError>>,
    y: Result<Y, Failure<BindError>>,
) -> Result<(X, Y), Failure<BindError>>
    ensures { result ≡ and_then x (λ a. and_then y (λ b. Ok (a, b))) }
{
    match x {
        Ok(a) => match y {
            Ok(b) => Ok((a, b)),
            Err(failure) => Err(failure),
        },
        Err(failure) => Err(failure),
    }
}

// One item more, or the failure instead. The list is dropped here, for the same reason.
fn extended<T: Drop, A: Heap>(
    mut all: Items<T, A>,
    next: Result<T, Failure<BindError>>,
) -> Result<Items<T, A>, Failure<BindError>>
    ensures { MatchResult next (λ x. MatchResult result (λ v. v ≡ all ++ x ∷ []) (λ e. e ≡ OutOfMemory)) (λ e. result ≡ Err e) }
{
    match next {
        Ok(item) => {
            all.push(item)?;
            Ok(all)
        }
        Err(failure) => Err(failure),
    }
}

fn copies<A: Heap>(alloc: A, values: &[Value<A>]) -> Result<Items<Value<A>, A>, AllocError>
    ensures { IfOk result (λ copies. map datum copies ≡ map datum values.now) }
{
    let mut copies = Items::new(alloc);
    for value in values {
        copies.push(value.copy(alloc)?)?;
    }
    Ok(copies)
}

// A node in a box of its own.
pub(crate) fn made<A: Heap>(alloc: A, node: BoundExpr<A>) -> BindResult<A>
    ensures { (stated : Result SpecExpr SpecFault) → stated ≡ Ok (bound_expr_of node) → Gives (λ b. bound_expr_of b.value) result stated }
{
    Ok(boxed(alloc, node)?)
}

// A column.
pub(crate) fn column<A: Heap>(alloc: A, found: Result<ColumnId, BindError>) -> BindResult<A>
    ensures { Gives (λ b. bound_expr_of b.value) result (and_then found (λ id. Ok (bound.Column id))) }
{
    match found {
        Ok(id) => made(alloc, BoundExpr::Column(id)),
        Err(fault) => Err(Failure::Error(fault)),
    }
}

// A literal.
pub(crate) fn literal<A: Heap>(alloc: A, value: &Value<A>) -> BindResult<A>
    ensures { Gives (λ b. bound_expr_of b.value) result (Ok (bound.Literal (datum value.now))) }
{
    let value = value.copy(alloc)?;
    made(alloc, BoundExpr::Literal(value))
}

// `- operand`.
pub(crate) fn negation<A: Heap>(alloc: A, offset: u32, operand: BindResult<A>) -> BindResult<A>
    ensures { (x : Result SpecExpr SpecFault) → Gives (λ b. bound_expr_of b.value) operand x → Gives (λ b. bound_expr_of b.value) result (and_then x (λ e. Ok (bound.Negate offset e))) }
{
    match operand {
        Ok(operand) => made(alloc, BoundExpr::Negate { offset, operand }),
        Err(failure) => Err(failure),
    }
}

// `left + right` and the like.
pub(crate) fn arithmetic<A: Heap>(
    alloc: A,
    operator: Arithmetic,
    offset: u32,
    left: BindResult<A>,
    right: BindResult<A>,
) -> BindResult<A>
    ensures { (x y : Result SpecExpr SpecFault) → Gives (λ b. bound_expr_of b.value) left x → Gives (λ b. bound_expr_of b.value) right y → Gives (λ b. bound_expr_of b.value) result (and_then x (λ e. and_then y (λ f. Ok (bound.Arithmetic operator offset e f)))) }
{
    match both(left, right) {
        Ok((left, right)) => made(
            alloc,
            BoundExpr::Arithmetic {
                operator,
                offset,
                left,
                right,
            },
        ),
        Err(failure) => Err(failure),
    }
}

// `left = right` and the like.
pub(crate) fn comparison<A: Heap>(
    alloc: A,
    operator: Comparison,
    offset: u32,
    left: BindResult<A>,
    right: BindResult<A>,
) -> BindResult<A>
    ensures { (x y : Result SpecExpr SpecFault) → Gives (λ b. bound_expr_of b.value) left x → Gives (λ b. bound_expr_of b.value) right y → Gives (λ b. bound_expr_of b.value) result (and_then x (λ e. and_then y (λ f. Ok (bound.Comparison operator offset e f)))) }
{
    match both(left, right) {
        Ok((left, right)) => made(
            alloc,
            BoundExpr::Comparison {
                operator,
                offset,
                left,
                right,
            },
        ),
        Err(failure) => Err(failure),
    }
}

// `operand [NOT] BETWEEN low AND high`.
pub(crate) fn between<A: Heap>(
    alloc: A,
    negated: bool,
    offset: u32,
    operand: BindResult<A>,
    low: BindResult<A>,
    high: BindResult<A>,
) -> BindResult<A>
    ensures { (x y z : Result SpecExpr SpecFault) → Gives (λ b. bound_expr_of b.value) operand x → Gives (λ b. bound_expr_of b.value) low y → Gives (λ b. bound_expr_of b.value) high z → Gives (λ b. bound_expr_of b.value) result (and_then x (λ e. and_then y (λ l. and_then z (λ h. Ok (bound.Between negated offset e l h))))) }
{
    match both(operand, both(low, high)) {
        Ok((operand, (low, high))) => made(
            alloc,
            BoundExpr::Between {
                negated,
                offset,
                operand,
                low,
                high,
            },
        ),
        Err(failure) => Err(failure),
    }
}

// `operand [NOT] IN (value, ..)`.
pub(crate) fn membership<A: Heap>(
    alloc: A,
    negated: bool,
    offset: u32,
    values: &[Value<A>],
    operand: BindResult<A>,
) -> BindResult<A>
    ensures { (x : Result SpecExpr SpecFault) → Gives (λ b. bound_expr_of b.value) operand x → Gives (λ b. bound_expr_of b.value) result (and_then x (λ e. Ok (bound.In negated offset (map datum values.now) e))) }
{
    let operand = match operand {
        Ok(operand) => operand,
        Err(failure) => return Err(failure),
    };
    let values = copies(alloc, values)?;
    made(
        alloc,
        BoundExpr::In {
            negated,
            offset,
            values,
            operand,
        },
    )
}

// `operand IS [NOT] NULL`.
pub(crate) fn null_check<A: Heap>(
    alloc: A,
    negated: bool,
    offset: u32,
    operand: BindResult<A>,
) -> BindResult<A>
    ensures { (x : Result SpecExpr SpecFault) → Gives (λ b. bound_expr_of b.value) operand x → Gives (λ b. bound_expr_of b.value) result (and_then x (λ e. Ok (bound.IsNull negated offset e))) }
{
    match operand {
        Ok(operand) => made(
            alloc,
            BoundExpr::IsNull {
                negated,
                offset,
                operand,
            },
        ),
        Err(failure) => Err(failure),
    }
}

// `NOT operand`.
pub(crate) fn logical_not<A: Heap>(alloc: A, offset: u32, operand: BindResult<A>) -> BindResult<A>
    ensures { (x : Result SpecExpr SpecFault) → Gives (λ b. bound_expr_of b.value) operand x → Gives (λ b. bound_expr_of b.value) result (and_then x (λ e. Ok (bound.Not offset e))) }
{
    match operand {
        Ok(operand) => made(alloc, BoundExpr::Not { offset, operand }),
        Err(failure) => Err(failure),
    }
}

// `CAST(operand AS to)`.
pub(crate) fn cast<A: Heap>(
    alloc: A,
    offset: u32,
    to: ColType,
    operand: BindResult<A>,
) -> BindResult<A>
    ensures { (x : Result SpecExpr SpecFault) → Gives (λ b. bound_expr_of b.value) operand x → Gives (λ b. bound_expr_of b.value) result (and_then x (λ e. Ok (bound.Cast offset to e))) }
{
    match operand {
        Ok(operand) => made(
            alloc,
            BoundExpr::Cast {
                offset,
                to,
                operand,
            },
        ),
        Err(failure) => Err(failure),
    }
}

// An aggregate of an argument.
pub(crate) fn call<A: Heap>(
    alloc: A,
    aggregate: Aggregate,
    offset: u32,
    argument: BindResult<A>,
) -> BindResult<A>
    ensures { (x : Result SpecExpr SpecFault) → Gives (λ b. bound_expr_of b.value) argument x → Gives (λ b. bound_expr_of b.value) result (and_then x (λ e. Ok (bound.Call aggregate offset e))) }
{
    match argument {
        Ok(argument) => made(
            alloc,
            BoundExpr::Call {
                aggregate,
                offset,
                argument,
            },
        ),
        Err(failure) => Err(failure),
    }
}

// `member AND member AND ..`.
pub(crate) fn conjunction<A: Heap>(alloc: A, offset: u32, members: Members<A>) -> BindResult<A>
    ensures { (stated : Result (List SpecExpr) SpecFault) → Gives (λ v. map bound_expr_of v.items) members stated → Gives (λ b. bound_expr_of b.value) result (spec.conjunction offset stated) }
{
    match members {
        Ok(members) => made(alloc, BoundExpr::And { offset, members }),
        Err(failure) => Err(failure),
    }
}

// `member OR member OR ..`.
pub(crate) fn disjunction<A: Heap>(alloc: A, offset: u32, members: Members<A>) -> BindResult<A>
    ensures { (stated : Result (List SpecExpr) SpecFault) → Gives (λ v. map bound_expr_of v.items) members stated → Gives (λ b. bound_expr_of b.value) result (spec.disjunction offset stated) }
{
    match members {
        Ok(members) => made(alloc, BoundExpr::Or { offset, members }),
        Err(failure) => Err(failure),
    }
}

// `CASE` without ELSE.
pub(crate) fn without_otherwise<A: Heap>(alloc: A, offset: u32, arms: Arms<A>) -> BindResult<A>
    ensures { (stated : Result (List (SpecExpr × SpecExpr)) SpecFault) → Gives (λ v. map bound_arm_pair v.items) arms stated → Gives (λ b. bound_expr_of b.value) result (spec.choice offset stated (Ok Nothing)) }
{
    match arms {
        Ok(arms) => {
            let otherwise = None;
            made(
                alloc,
                BoundExpr::Case {
                    offset,
                    arms,
                    otherwise,
                },
            )
        }
        Err(failure) => Err(failure),
    }
}

// `CASE` with ELSE.
pub(crate) fn with_otherwise<A: Heap>(
    alloc: A,
    offset: u32,
    arms: Arms<A>,
    otherwise: BindResult<A>,
) -> BindResult<A>
    ensures { (stated : Result (List (SpecExpr × SpecExpr)) SpecFault) (last : Result SpecExpr SpecFault) → Gives (λ v. map bound_arm_pair v.items) arms stated → Gives (λ b. bound_expr_of b.value) otherwise last → Gives (λ b. bound_expr_of b.value) result (spec.choice offset stated (spec.as_otherwise last)) }
{
    let arms = match arms {
        Ok(arms) => arms,
        Err(failure) => return Err(failure),
    };
    match otherwise {
        Ok(value) => {
            let otherwise = Some(value);
            made(
                alloc,
                BoundExpr::Case {
                    offset,
                    arms,
                    otherwise,
                },
            )
        }
        Err(failure) => Err(failure),
    }
}

// `WHEN when THEN then`.
fn arm<A: Heap>(when: BindResult<A>, then: BindResult<A>) -> Result<BoundArm<A>, Failure<BindError>>
    ensures { (x y : Result SpecExpr SpecFault) → Gives (λ b. bound_expr_of b.value) when x → Gives (λ b. bound_expr_of b.value) then y → Gives (λ a. bound_arm_pair a) result (spec.pair x y) }
{
    match both(when, then) {
        Ok((when, then)) => Ok(BoundArm {
            when: Box::into_inner(when),
            result: Box::into_inner(then),
        }),
        Err(failure) => Err(failure),
    }
}

// One member more.
pub(crate) fn with_member<A: Heap>(
    all: Items<BoundExpr<A>, A>,
    next: BindResult<A>,
) -> Result<Items<BoundExpr<A>, A>, Failure<BindError>>
    ensures { (x : Result SpecExpr SpecFault) → Gives (λ b. bound_expr_of b.value) next x → Gives (λ v. map bound_expr_of v) result (and_then x (λ e. Ok (map bound_expr_of all ++ e ∷ []))) }
{
    match next {
        Ok(next) => extended(all, Ok(Box::into_inner(next))),
        Err(failure) => extended(all, Err(failure)),
    }
}

// One arm more: `WHEN when THEN then`.
pub(crate) fn with_arm<A: Heap>(
    all: Items<BoundArm<A>, A>,
    when: BindResult<A>,
    then: BindResult<A>,
) -> Result<Items<BoundArm<A>, A>, Failure<BindError>>
    ensures { (x y : Result SpecExpr SpecFault) → Gives (λ b. bound_expr_of b.value) when x → Gives (λ b. bound_expr_of b.value) then y → Gives (λ v. map bound_arm_pair v) result (and_then (spec.pair x y) (λ p. Ok (map bound_arm_pair all ++ p ∷ []))) }
{
    extended(all, arm(when, then))
}
