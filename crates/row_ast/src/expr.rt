//! Expressions.

use memory::{Heap, Items, Text};
use value::{Aggregate, Arithmetic, ColType, Comparison, Value};

/// A column as a text names it.
#[derive(Drop)]
pub struct ColumnRef<A: Heap> {
    /// The table's name before the dot, if there is one.
    pub table: Option<Text<A>>,
    /// The column's name.
    pub name: Text<A>,
    /// The offset of its first word.
    pub offset: u32,
}

/// An expression (PostgreSQL: Value Expressions). The offset of an operation is that of its word or sign: of `NOT IN` and
/// `NOT BETWEEN` that of the `NOT`, of an AND or OR of several that of the first.
#[cycle(expr)]
#[derive(Drop)]
pub enum Expr<A: Heap> {
    /// A column.
    Column(ColumnRef<A>),
    /// A literal, a number with its sign.
    Literal(Value<A>),
    /// `CURRENT_USER`: the name of the role that asks.
    CurrentUser,
    /// `- operand`.
    Negate {
        offset: u32,
        operand: Box<Expr<A>, A>,
    },
    /// `left + right` and the like.
    Arithmetic {
        operator: Arithmetic,
        offset: u32,
        left: Box<Expr<A>, A>,
        right: Box<Expr<A>, A>,
    },
    /// `left = right` and the like.
    Comparison {
        operator: Comparison,
        offset: u32,
        left: Box<Expr<A>, A>,
        right: Box<Expr<A>, A>,
    },
    /// `operand [NOT] BETWEEN low AND high`.
    Between {
        negated: bool,
        offset: u32,
        operand: Box<Expr<A>, A>,
        low: Box<Expr<A>, A>,
        high: Box<Expr<A>, A>,
    },
    /// `operand [NOT] IN (value, ..)`.
    In {
        negated: bool,
        offset: u32,
        values: Items<Value<A>, A>,
        operand: Box<Expr<A>, A>,
    },
    /// `operand IS [NOT] NULL`.
    IsNull {
        negated: bool,
        offset: u32,
        operand: Box<Expr<A>, A>,
    },
    /// `NOT operand`.
    Not {
        offset: u32,
        operand: Box<Expr<A>, A>,
    },
    /// `member AND member AND ..`; a member is no AND.
    And {
        offset: u32,
        members: Vec<Expr<A>, A>,
    },
    /// `member OR member OR ..`; a member is no OR.
    Or {
        offset: u32,
        members: Vec<Expr<A>, A>,
    },
    /// `CAST(operand AS to)`.
    Cast {
        offset: u32,
        to: ColType,
        operand: Box<Expr<A>, A>,
    },
    /// `CASE WHEN .. THEN .. [ELSE otherwise] END`.
    Case {
        offset: u32,
        arms: Vec<Arm<A>, A>,
        otherwise: Option<Box<Expr<A>, A>>,
    },
    /// `count(*)`.
    CountStar {
        offset: u32,
    },
    /// An aggregate of an expression.
    Call {
        aggregate: Aggregate,
        offset: u32,
        argument: Box<Expr<A>, A>,
    },
}

/// `WHEN when THEN result`.
#[cycle(expr)]
#[derive(Drop)]
pub struct Arm<A: Heap> {
    /// The condition.
    pub when: Expr<A>,
    /// The value where it is true.
    pub result: Expr<A>,
}
