//! The conditions as bound expressions.

use crate::cases::Case;
use expr::{
    BoundExpr, ColumnId, Copied, between, comparison, conjunction, disjunction, literal, null_check,
};
use memory::{Text, boxed};
use std::alloc::{AllocError, Global};
use value::{Comparison, Value};

/// A column of the table.
pub fn column(alloc: Global, index: usize) -> Copied<Global> {
    let id = ColumnId {
        entry: 3,
        column: index,
    };
    boxed(alloc, BoundExpr::Column(id))
}

fn number(alloc: Global, n: i64) -> Copied<Global> {
    literal(alloc, Ok(Value::Int(n)))
}

fn compared(
    alloc: Global,
    op: Comparison,
    left: Copied<Global>,
    right: Copied<Global>,
) -> Copied<Global> {
    comparison(alloc, op, 0, left?, right)
}

/// `t < 'x'`.
pub fn below_x(alloc: Global) -> Copied<Global> {
    let text: Result<Text<Global>, AllocError> = Text::new(alloc, "x");
    let right = literal(alloc, Ok(Value::Text(text?)));
    compared(alloc, Comparison::Less, column(alloc, 2), right)
}

/// A connective of two conditions.
pub fn joined(
    alloc: Global,
    is_and: bool,
    one: Copied<Global>,
    other: Copied<Global>,
) -> Copied<Global> {
    let mut members = Vec::new(alloc);
    members.push(Box::into_inner(one?))?;
    members.push(Box::into_inner(other?))?;
    if is_and {
        conjunction(alloc, 0, Ok(members))
    } else {
        disjunction(alloc, 0, Ok(members))
    }
}

fn three(alloc: Global, is_and: bool, op: Comparison, n: i64) -> Copied<Global> {
    let less = compared(alloc, Comparison::Less, column(alloc, 0), number(alloc, n));
    let null = null_check(alloc, is_and, 0, column(alloc, 1));
    let pair = compared(alloc, op, column(alloc, 0), column(alloc, 1));
    let last = joined(alloc, is_and, null, pair);
    joined(alloc, is_and, less, last)
}

/// The bound expression of a condition.
pub fn expression(alloc: Global, case: Case) -> Copied<Global> {
    match case {
        Case::Literal(op, n) => compared(alloc, op, column(alloc, 0), number(alloc, n)),
        Case::LiteralLeft(op, n) => compared(alloc, op, number(alloc, n), column(alloc, 0)),
        Case::Columns(op) => compared(alloc, op, column(alloc, 0), column(alloc, 1)),
        Case::Between(negated, low, high) => {
            let operand = column(alloc, 0)?;
            let low = number(alloc, low)?;
            between(alloc, negated, 0, operand, low, number(alloc, high))
        }
        Case::BetweenColumn(n) => {
            let operand = column(alloc, 0)?;
            let low = column(alloc, 1)?;
            between(alloc, false, 0, operand, low, number(alloc, n))
        }
        Case::Null(negated) => null_check(alloc, negated, 0, column(alloc, 1)),
        Case::And(n) => three(alloc, true, Comparison::NotEqual, n),
        Case::Or(n) => three(alloc, false, Comparison::Equal, n),
        Case::NoMember => conjunction(alloc, 0, Ok(Vec::new(alloc))),
    }
}
