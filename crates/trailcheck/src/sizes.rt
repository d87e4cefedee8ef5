//! The memory that copies of conditions take, about. No contract speaks of it: it is counted so that an audit stays within an
//! allowance.

use expr::{BoundArm, BoundExpr};
use memory::Heap;
use value::Value;

// The bytes of a node, and of a literal but for those of its text.
const NODE_SIZE: u64 = 128;

const LITERAL_SIZE: u64 = 64;

fn add_literal<A: Heap>(bytes: &mut u64, value: &Value<A>) {
    *bytes = bytes.saturating_add(LITERAL_SIZE);
    if let Value::Text(text) = value {
        *bytes = bytes.saturating_add(text.as_str().len() as u64);
    }
}

fn add_literals<A: Heap>(bytes: &mut u64, values: &[Value<A>]) {
    for value in values {
        add_literal(bytes, value);
    }
}

/// Adds the bytes that a copy of an expression takes.
#[cycle(size)]
pub(crate) fn add_size<A: Heap>(bytes: &mut u64, expression: &BoundExpr<A>) {
    *bytes = bytes.saturating_add(NODE_SIZE);
    match expression {
        BoundExpr::Column(_) | BoundExpr::CurrentUser | BoundExpr::CountStar { .. } => {}
        BoundExpr::Literal(value) => add_literal(bytes, value),
        BoundExpr::Negate { operand, .. } => add_size(bytes, operand),
        BoundExpr::Arithmetic { left, right, .. } => {
            add_size(bytes, left);
            add_size(bytes, right)
        }
        BoundExpr::Comparison { left, right, .. } => {
            add_size(bytes, left);
            add_size(bytes, right)
        }
        BoundExpr::Between {
            operand,
            low,
            high,
            ..
        } => {
            add_size(bytes, operand);
            add_size(bytes, low);
            add_size(bytes, high)
        }
        BoundExpr::In {
            values,
            operand,
            ..
        } => {
            add_literals(bytes, values.as_slice());
            add_size(bytes, operand)
        }
        BoundExpr::IsNull { operand, .. } => add_size(bytes, operand),
        BoundExpr::Not { operand, .. } => add_size(bytes, operand),
        BoundExpr::And { members, .. } => add_sizes(bytes, members),
        BoundExpr::Or { members, .. } => add_sizes(bytes, members),
        BoundExpr::Cast { operand, .. } => add_size(bytes, operand),
        BoundExpr::Case {
            arms,
            otherwise,
            ..
        } => {
            add_arms(bytes, arms);
            match otherwise {
                Some(value) => add_size(bytes, value),
                None => {}
            }
        }
        // A condition of a term has no aggregate.
        BoundExpr::Call { .. } => {}
    }
}

// Adds those of some expressions.
#[cycle(size)]
fn add_sizes<A: Heap>(bytes: &mut u64, members: &[BoundExpr<A>]) {
    for member in members {
        add_size(bytes, member);
    }
}

// Adds those of the arms of a CASE.
#[cycle(size)]
fn add_arms<A: Heap>(bytes: &mut u64, arms: &[BoundArm<A>]) {
    for arm in arms {
        add_size(bytes, &arm.when);
        add_size(bytes, &arm.result);
    }
}
