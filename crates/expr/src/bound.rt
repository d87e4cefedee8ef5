//! Expressions whose columns are found.

ghost use Rattle.std.specs.Prelude.{◌≡◌};
ghost use Rattle.expr.specs.Bound as spec;

use memory::{Heap, Items};
use value::{Aggregate, Arithmetic, ColType, Comparison, Value};

/// A column: the index of its entry in FROM, and its index in the entry's table, each from 0.
#[derive(Clone, Copy, Debug, PartialEq, Eq)]
pub struct ColumnId {
    /// The index of its entry.
    pub entry: usize,
    /// Its index in the entry's table.
    pub column: usize,
}

/// True where two are the same column.
pub fn is_column(id: ColumnId, other: ColumnId) -> bool
    ensures { result ≡ spec.is_column id other }
{
    id.entry == other.entry && id.column == other.column
}

/// An expression whose columns are found: that of the text in all else.
#[cycle(bound)]
#[derive(Drop)]
pub enum BoundExpr<A: Heap> {
    /// A column.
    Column(ColumnId),
    /// A literal.
    Literal(Value<A>),
    /// `CURRENT_USER`.
    CurrentUser,
    /// `- operand`.
    Negate {
        offset: u32,
        operand: Box<BoundExpr<A>, A>,
    },
    /// `left + right` and the like.
    Arithmetic {
        operator: Arithmetic,
        offset: u32,
        left: Box<BoundExpr<A>, A>,
        right: Box<BoundExpr<A>, A>,
    },
    /// `left = right` and the like.
    Comparison {
        operator: Comparison,
        offset: u32,
        left: Box<BoundExpr<A>, A>,
        right: Box<BoundExpr<A>, A>,
    },
    /// `operand [NOT] BETWEEN low AND high`.
    Between {
        negated: bool,
        offset: u32,
        operand: Box<BoundExpr<A>, A>,
        low: Box<BoundExpr<A>, A>,
        high: Box<BoundExpr<A>, A>,
    },
    /// `operand [NOT] IN (value, ..)`.
    In {
        negated: bool,
        offset: u32,
        values: Items<Value<A>, A>,
        operand: Box<BoundExpr<A>, A>,
    },
    /// `operand IS [NOT] NULL`.
    IsNull {
        negated: bool,
        offset: u32,
        operand: Box<BoundExpr<A>, A>,
    },
    /// `NOT operand`.
    Not {
        offset: u32,
        operand: Box<BoundExpr<A>, A>,
    },
    /// `member AND member AND ..`.
    And {
        offset: u32,
        members: Vec<BoundExpr<A>, A>,
    },
    /// `member OR member OR ..`.
    Or {
        offset: u32,
        members: Vec<BoundExpr<A>, A>,
    },
    /// `CAST(operand AS to)`.
    Cast {
        offset: u32,
        to: ColType,
        operand: Box<BoundExpr<A>, A>,
    },
    /// `CASE WHEN .. THEN .. [ELSE otherwise] END`.
    Case {
        offset: u32,
        arms: Vec<BoundArm<A>, A>,
        otherwise: Option<Box<BoundExpr<A>, A>>,
    },
    /// `count(*)`.
    CountStar {
        offset: u32,
    },
    /// An aggregate of an expression.
    Call {
        aggregate: Aggregate,
        offset: u32,
        argument: Box<BoundExpr<A>, A>,
    },
}

/// `WHEN when THEN result`.
#[cycle(bound)]
#[derive(Drop)]
pub struct BoundArm<A: Heap> {
    /// The condition.
    pub when: BoundExpr<A>,
    /// The value where it is true.
    pub result: BoundExpr<A>,
}
