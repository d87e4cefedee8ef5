//! Nodes of trees, each made of its parts as they were made; out of memory where a part was not made.

ghost use Rattle.std.specs.Prelude.{◌≡◌, IfOk, map};
ghost use Rattle.value.specs.Datum.{Datum, datum};
ghost use Rattle.row_ast.specs.Ast as ast;
ghost use Rattle.row_ast.specs.View.{arm_pair, arms as arms_of, column_ref_of, expr_of, exprs};

use memory::{Heap, boxed};
use row_ast::{Arm, ColumnRef, Expr};
use std::alloc::AllocError;
use value::{Aggregate, Arithmetic, ColType, Comparison, Value, copy_values};

// A tree that was made, if there was memory.
pub(crate) type Made<A> = Result<Box<Expr<A>, A>, AllocError>;

// The members of a connective that were made.
pub(crate) type Members<A> = Result<Vec<Expr<A>, A>, AllocError>;

// The arms of a CASE that were made.
pub(crate) type Arms<A> = Result<Vec<Arm<A>, A>, AllocError>;

// A column.
pub(crate) fn column<A: Heap>(alloc: A, name: Result<ColumnRef<A>, AllocError>) -> Made<A>
    ensures { (c : ast.ColumnRef) → IfOk name (λ n. column_ref_of n ≡ c) → IfOk result (λ b. expr_of b.value ≡ ast.Column c) }
{
    match name {
        Ok(name) => boxed(alloc, Expr::Column(name)),
        Err(failure) => Err(failure),
    }
}

// A literal.
pub(crate) fn literal<A: Heap>(alloc: A, value: Result<Value<A>, AllocError>) -> Made<A>
    ensures { (d : Datum) → IfOk value (λ v. datum v ≡ d) → IfOk result (λ b. expr_of b.value ≡ ast.Literal d) }
{
    match value {
        Ok(value) => boxed(alloc, Expr::Literal(value)),
        Err(failure) => Err(failure),
    }
}

// `- operand`.
pub(crate) fn negation<A: Heap>(alloc: A, offset: u32, operand: Made<A>) -> Made<A>
    ensures { (e : ast.Expr) → IfOk operand (λ b. expr_of b.value ≡ e) → IfOk result (λ b. expr_of b.value ≡ ast.Negate offset e) }
{
    match operand {
        Ok(operand) => boxed(alloc, Expr::Negate { offset, operand }),
        Err(failure) => Err(failure),
    }
}

// `left + right` and the like.
pub(crate) fn arithmetic<A: Heap>(
    alloc: A,
    operator: Arithmetic,
    offset: u32,
    left: Box<Expr<A>, A>,
    right: Made<A>,
) -> Made<A>
    ensures { (e : ast.Expr) → IfOk right (λ b. expr_of b.value ≡ e) → IfOk result (λ b. expr_of b.value ≡ ast.Arithmetic operator offset (expr_of left.value) e) }
{
    match right {
        Ok(right) => {
            let whole = Expr::Arithmetic {
                operator,
                offset,
                left,
                right,
            };
            boxed(alloc, whole)
        }
        Err(failure) => Err(failure),
    }
}

// `left = right` and the like.
pub(crate) fn comparison<A: Heap>(
    alloc: A,
    operator: Comparison,
    offset: u32,
    left: Box<Expr<A>, A>,
    right: Made<A>,
) -> Made<A>
    ensures { (e : ast.Expr) → IfOk right (λ b. expr_of b.value ≡ e) → IfOk result (λ b. expr_of b.value ≡ ast.Comparison operator offset (expr_of left.value) e) }
{
    match right {
        Ok(right) => {
            let whole = Expr::Comparison {
                operator,
                offset,
                left,
                right,
            };
            boxed(alloc, whole)
        }
        Err(failure) => Err(failure),
    }
}

// `operand [NOT] BETWEEN low AND high`.
pub(crate) fn between<A: Heap>(
    alloc: A,
    negated: bool,
    offset: u32,
    operand: Box<Expr<A>, A>,
    low: Box<Expr<A>, A>,
    high: Made<A>,
) -> Made<A>
    ensures { (e : ast.Expr) → IfOk high (λ b. expr_of b.value ≡ e) → IfOk result (λ b. expr_of b.value ≡ ast.Between negated offset (expr_of operand.value) (expr_of low.value) e) }
{
    match high {
        Ok(high) => {
            let whole = Expr::Between {
                negated,
                offset,
                operand,
                low,
                high,
            };
            boxed(alloc, whole)
        }
        Err(failure) => Err(failure),
    }
}

// `operand [NOT] IN (value, ..)`.
pub(crate) fn membership<A: Heap>(
    alloc: A,
    negated: bool,
    offset: u32,
    operand: Made<A>,
    values: &[Value<A>],
) -> Made<A>
    ensures { (e : ast.Expr) → IfOk operand (λ b. expr_of b.value ≡ e) → IfOk result (λ b. expr_of b.value ≡ ast.In negated offset (map datum values.now) e) }
{
    let operand = match operand {
        Ok(operand) => operand,
        Err(failure) => return Err(failure),
    };
    match copy_values(alloc, values) {
        Ok(values) => {
            let whole = Expr::In {
                negated,
                offset,
                values,
                operand,
            };
            boxed(alloc, whole)
        }
        Err(failure) => Err(failure),
    }
}

// `operand IS [NOT] NULL`.
pub(crate) fn null_check<A: Heap>(alloc: A, negated: bool, offset: u32, operand: Made<A>) -> Made<A>
    ensures { (e : ast.Expr) → IfOk operand (λ b. expr_of b.value ≡ e) → IfOk result (λ b. expr_of b.value ≡ ast.IsNull negated offset e) }
{
    match operand {
        Ok(operand) => {
            let whole = Expr::IsNull {
                negated,
                offset,
                operand,
            };
            boxed(alloc, whole)
        }
        Err(failure) => Err(failure),
    }
}

// `NOT operand`.
pub(crate) fn logical_not<A: Heap>(alloc: A, offset: u32, operand: Made<A>) -> Made<A>
    ensures { (e : ast.Expr) → IfOk operand (λ b. expr_of b.value ≡ e) → IfOk result (λ b. expr_of b.value ≡ ast.Not offset e) }
{
    match operand {
        Ok(operand) => boxed(alloc, Expr::Not { offset, operand }),
        Err(failure) => Err(failure),
    }
}

// `CAST(operand AS to)`.
pub(crate) fn cast<A: Heap>(alloc: A, offset: u32, to: ColType, operand: Made<A>) -> Made<A>
    ensures { (e : ast.Expr) → IfOk operand (λ b. expr_of b.value ≡ e) → IfOk result (λ b. expr_of b.value ≡ ast.Cast offset to e) }
{
    match operand {
        Ok(operand) => {
            let whole = Expr::Cast {
                offset,
                to,
                operand,
            };
            boxed(alloc, whole)
        }
        Err(failure) => Err(failure),
    }
}

// An aggregate of an expression.
pub(crate) fn call<A: Heap>(
    alloc: A,
    aggregate: Aggregate,
    offset: u32,
    argument: Made<A>,
) -> Made<A>
    ensures { (e : ast.Expr) → IfOk argument (λ b. expr_of b.value ≡ e) → IfOk result (λ b. expr_of b.value ≡ ast.Call aggregate offset e) }
{
    match argument {
        Ok(argument) => {
            let whole = Expr::Call {
                aggregate,
                offset,
                argument,
            };
            boxed(alloc, whole)
        }
        Err(failure) => Err(failure),
    }
}

// `member AND member AND ..`.
pub(crate) fn conjunction<A: Heap>(alloc: A, offset: u32, members: Members<A>) -> Made<A>
    ensures { (es : ast.Exprs) → IfOk members (λ v. exprs v.items ≡ es) → IfOk result (λ b. expr_of b.value ≡ ast.And offset es) }
{
    match members {
        Ok(members) => boxed(alloc, Expr::And { offset, members }),
        Err(failure) => Err(failure),
    }
}

// `member OR member OR ..`.
pub(crate) fn disjunction<A: Heap>(alloc: A, offset: u32, members: Members<A>) -> Made<A>
    ensures { (es : ast.Exprs) → IfOk members (λ v. exprs v.items ≡ es) → IfOk result (λ b. expr_of b.value ≡ ast.Or offset es) }
{
    match members {
        Ok(members) => boxed(alloc, Expr::Or { offset, members }),
        Err(failure) => Err(failure),
    }
}

// A CASE without ELSE.
pub(crate) fn without_otherwise<A: Heap>(alloc: A, offset: u32, arms: Arms<A>) -> Made<A>
    ensures { (as_ : ast.Arms) → IfOk arms (λ v. arms_of v.items ≡ as_) → IfOk result (λ b. expr_of b.value ≡ ast.Case offset as_ ast.Nothing) }
{
    match arms {
        Ok(arms) => {
            let otherwise = None;
            boxed(
                alloc,
                Expr::Case {
                    offset,
                    arms,
                    otherwise,
                },
            )
        }
        Err(failure) => Err(failure),
    }
}

// A CASE with ELSE.
pub(crate) fn with_otherwise<A: Heap>(
    alloc: A,
    offset: u32,
    arms: Arms<A>,
    otherwise: Made<A>,
) -> Made<A>
    ensures { (as_ : ast.Arms) (e : ast.Expr) → IfOk arms (λ v. arms_of v.items ≡ as_) → IfOk otherwise (λ b. expr_of b.value ≡ e) → IfOk result (λ b. expr_of b.value ≡ ast.Case offset as_ (ast.Value e)) }
{
    let arms = match arms {
        Ok(arms) => arms,
        Err(failure) => return Err(failure),
    };
    match otherwise {
        Ok(value) => {
            let otherwise = Some(value);
            boxed(
                alloc,
                Expr::Case {
                    offset,
                    arms,
                    otherwise,
                },
            )
        }
        Err(failure) => Err(failure),
    }
}

// `WHEN when THEN result`.
pub(crate) fn arm<A: Heap>(when: Made<A>, then: Made<A>) -> Result<Arm<A>, AllocError>
    ensures { (d e : ast.Expr) → IfOk when (λ b. expr_of b.value ≡ d) → IfOk then (λ b. expr_of b.value ≡ e) → IfOk result (λ a. arm_pair a ≡ (d, e)) }
{
    let when = match when {
        Ok(when) => when,
        Err(failure) => return Err(failure),
    };
    match then {
        Ok(then) => Ok(Arm {
            when: Box::into_inner(when),
            result: Box::into_inner(then),
        }),
        Err(failure) => Err(failure),
    }
}
