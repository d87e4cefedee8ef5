//! The operands of an expression, and the test if two nodes are the same but for these.

ghost use Rattle.std.specs.Prelude.{◌≡◌, map};
ghost use Rattle.value.specs.Datum.{datum};
ghost use Rattle.expr.specs.View.{bound_expr_of};
ghost use Rattle.predicates.specs.Operands.{aggregate_number, arithmetic_number, comparison_number, operands, same_bool, same_node, same_value, same_values, type_number};
ghost use Rattle.predicates.specs.OperandsView.{operands_of};

use expr::{BoundArm, BoundExpr, is_column};
use memory::Heap;
use value::{Aggregate, Arithmetic, ColType, Comparison, Value, cmp_values};

/// The operands of an expression.
#[derive(Clone, Copy)]
pub enum Operands<'e, A: Heap> {
    /// It has none.
    None,
    /// One.
    One(&'e BoundExpr<A>),
    /// Two, in written order.
    Two(&'e BoundExpr<A>, &'e BoundExpr<A>),
    /// Three, in written order.
    Three(&'e BoundExpr<A>, &'e BoundExpr<A>, &'e BoundExpr<A>),
    /// The members of an AND or OR.
    Members(&'e [BoundExpr<A>]),
    /// The arms of a CASE, and its ELSE.
    Arms(&'e [BoundArm<A>], &'e Option<Box<BoundExpr<A>, A>>),
}

/// The operands of an expression.
pub fn operands_in<'e, A: Heap>(expression: &'e BoundExpr<A>) -> Operands<'e, A>
    ensures { operands_of result ≡ operands (bound_expr_of expression.now) }
{
    match expression {
        BoundExpr::Column(_)
        | BoundExpr::Literal(_)
        | BoundExpr::CurrentUser
        | BoundExpr::CountStar { .. } => Operands::None,
        BoundExpr::Negate { operand, .. } => Operands::One(operand),
        BoundExpr::Arithmetic { left, right, .. } => Operands::Two(left, right),
        BoundExpr::Comparison { left, right, .. } => Operands::Two(left, right),
        BoundExpr::Between {
            operand,
            low,
            high,
            ..
        } => Operands::Three(operand, low, high),
        BoundExpr::In { operand, .. } => Operands::One(operand),
        BoundExpr::IsNull { operand, .. } => Operands::One(operand),
        BoundExpr::Not { operand, .. } => Operands::One(operand),
        BoundExpr::And { members, .. } => Operands::Members(members),
        BoundExpr::Or { members, .. } => Operands::Members(members),
        BoundExpr::Cast { operand, .. } => Operands::One(operand),
        BoundExpr::Case {
            arms,
            otherwise,
            ..
        } => Operands::Arms(arms, otherwise),
        BoundExpr::Call { argument, .. } => Operands::One(argument),
    }
}

fn arithmetic_number(operator: Arithmetic) -> u8
    ensures { result ≡ arithmetic_number operator }
{
    match operator {
        Arithmetic::Add => 0,
        Arithmetic::Subtract => 1,
        Arithmetic::Multiply => 2,
        Arithmetic::Divide => 3,
        Arithmetic::Remainder => 4,
    }
}

fn comparison_number(operator: Comparison) -> u8
    ensures { result ≡ comparison_number operator }
{
    match operator {
        Comparison::Equal => 0,
        Comparison::NotEqual => 1,
        Comparison::Less => 2,
        Comparison::LessOrEqual => 3,
        Comparison::Greater => 4,
        Comparison::GreaterOrEqual => 5,
    }
}

fn type_number(column_type: ColType) -> u8
    ensures { result ≡ type_number column_type }
{
    match column_type {
        ColType::Bigint => 0,
        ColType::Text => 1,
        ColType::Boolean => 2,
    }
}

fn aggregate_number(aggregate: Aggregate) -> u8
    ensures { result ≡ aggregate_number aggregate }
{
    match aggregate {
        Aggregate::Count => 0,
        Aggregate::Sum => 1,
        Aggregate::Min => 2,
        Aggregate::Max => 3,
    }
}

fn is_same_bool(one: bool, other: bool) -> bool
    ensures { result ≡ same_bool one other }
{
    if one { other } else { !other }
}

fn is_same_value<A: Heap>(one: &Value<A>, other: &Value<A>) -> bool
    ensures { result ≡ same_value (datum one.now) (datum other.now) }
{
    cmp_values(&one.as_val(), &other.as_val()).is_eq()
}

fn are_same_values<A: Heap>(some: &[Value<A>], others: &[Value<A>]) -> bool
    ensures { result ≡ same_values (map datum some.now) (map datum others.now) }
{
    if some.len() != others.len() {
        return false;
    }
    for i in 0..some.len() {
        if !is_same_value(&some[i], &others[i]) {
            return false;
        }
    }
    true
}

/// Tests if two nodes are the same but for their operands.
pub fn is_same_node<A: Heap>(one: &BoundExpr<A>, other: &BoundExpr<A>) -> bool
    ensures { result ≡ same_node (bound_expr_of one.now) (bound_expr_of other.now) }
{
    match one {
        BoundExpr::Column(id) => match other {
            BoundExpr::Column(x) => is_column(*id, *x),
            _ => false,
        },
        BoundExpr::Literal(value) => match other {
            BoundExpr::Literal(x) => is_same_value(value, x),
            _ => false,
        },
        BoundExpr::CurrentUser => match other {
            BoundExpr::CurrentUser => true,
            _ => false,
        },
        BoundExpr::Negate { offset, .. } => match other {
            BoundExpr::Negate { offset: at, .. } => *offset == *at,
            _ => false,
        },
        BoundExpr::Arithmetic {
            operator,
            offset,
            ..
        } => match other {
            BoundExpr::Arithmetic {
                operator: x,
                offset: at,
                ..
            } => arithmetic_number(*operator) == arithmetic_number(*x) && *offset == *at,
            _ => false,
        },
        BoundExpr::Comparison {
            operator,
            offset,
            ..
        } => match other {
            BoundExpr::Comparison {
                operator: x,
                offset: at,
                ..
            } => comparison_number(*operator) == comparison_number(*x) && *offset == *at,
            _ => false,
        },
        BoundExpr::Between {
            negated,
            offset,
            ..
        } => match other {
            BoundExpr::Between {
                negated: x,
                offset: at,
                ..
            } => is_same_bool(*negated, *x) && *offset == *at,
            _ => false,
        },
        BoundExpr::In {
            negated,
            offset,
            values,
            ..
        } => match other {
            BoundExpr::In {
                negated: x,
                offset: at,
                values: y,
                ..
            } => {
                is_same_bool(*negated, *x)
                    && *offset == *at
                    && are_same_values(values.as_slice(), y.as_slice())
            }
            _ => false,
        },
        BoundExpr::IsNull {
            negated,
            offset,
            ..
        } => match other {
            BoundExpr::IsNull {
                negated: x,
                offset: at,
                ..
            } => is_same_bool(*negated, *x) && *offset == *at,
            _ => false,
        },
        BoundExpr::Not { offset, .. } => match other {
            BoundExpr::Not { offset: at, .. } => *offset == *at,
            _ => false,
        },
        BoundExpr::And { offset, .. } => match other {
            BoundExpr::And { offset: at, .. } => *offset == *at,
            _ => false,
        },
        BoundExpr::Or { offset, .. } => match other {
            BoundExpr::Or { offset: at, .. } => *offset == *at,
            _ => false,
        },
        BoundExpr::Cast { offset, to, .. } => match other {
            BoundExpr::Cast {
                offset: at,
                to: x,
                ..
            } => *offset == *at && type_number(*to) == type_number(*x),
            _ => false,
        },
        BoundExpr::Case { offset, .. } => match other {
            BoundExpr::Case { offset: at, .. } => *offset == *at,
            _ => false,
        },
        BoundExpr::CountStar { offset } => match other {
            BoundExpr::CountStar { offset: at } => *offset == *at,
            _ => false,
        },
        BoundExpr::Call {
            aggregate,
            offset,
            ..
        } => match other {
            BoundExpr::Call {
                aggregate: x,
                offset: at,
                ..
            } => aggregate_number(*aggregate) == aggregate_number(*x) && *offset == *at,
            _ => false,
        },
    }
}
