//! The aggregates of an expression.

ghost use Rattle.std.specs.Prelude.{◌≡◌, ◌++◌, OnOk};
ghost use Rattle.expr.specs.View.{aggregate_calls_of, bound_arms, bound_expr_of, bound_exprs};
ghost use Rattle.expr.specs.Aggregates.{aggregates, all_aggregates, arms_aggregates};

use crate::bound::{BoundArm, BoundExpr};
use memory::{Heap, Items};
use std::alloc::AllocError;
use value::Aggregate;

/// An aggregate as it is written.
#[derive(Clone, Copy)]
pub struct AggregateCall<'e, A: Heap> {
    /// Its function.
    pub aggregate: Aggregate,
    /// The offset of its name.
    pub offset: u32,
    /// Its argument; `count(*)` has none.
    pub argument: Option<&'e BoundExpr<A>>,
}

/// Adds the aggregates of an expression, in written order.
#[cycle(aggregates)]
pub fn push_aggregates<'e, A: Heap>(
    known: &mut Items<AggregateCall<'e, A>, A>,
    expression: &'e BoundExpr<A>,
) -> Result<(), AllocError>
    ensures { OnOk result (aggregate_calls_of known.new ≡ aggregate_calls_of known.old ++ aggregates (bound_expr_of expression.now)) }
{
    match expression {
        BoundExpr::Column(_) | BoundExpr::Literal(_) | BoundExpr::CurrentUser => Ok(()),
        BoundExpr::Negate { operand, .. } => push_aggregates(known, operand),
        BoundExpr::Arithmetic { left, right, .. } => {
            push_aggregates(known, left)?;
            push_aggregates(known, right)
        }
        BoundExpr::Comparison { left, right, .. } => {
            push_aggregates(known, left)?;
            push_aggregates(known, right)
        }
        BoundExpr::Between {
            operand,
            low,
            high,
            ..
        } => {
            push_aggregates(known, operand)?;
            push_aggregates(known, low)?;
            push_aggregates(known, high)
        }
        BoundExpr::In { operand, .. } => push_aggregates(known, operand),
        BoundExpr::IsNull { operand, .. } => push_aggregates(known, operand),
        BoundExpr::Not { operand, .. } => push_aggregates(known, operand),
        BoundExpr::And { members, .. } => push_all_aggregates(known, members),
        BoundExpr::Or { members, .. } => push_all_aggregates(known, members),
        BoundExpr::Cast { operand, .. } => push_aggregates(known, operand),
        BoundExpr::Case {
            arms,
            otherwise,
            ..
        } => {
            push_arms_aggregates(known, arms)?;
            match otherwise {
                Some(value) => push_aggregates(known, value),
                None => Ok(()),
            }
        }
        BoundExpr::CountStar { offset } => {
            known.push(AggregateCall {
                aggregate: Aggregate::Count,
                offset: *offset,
                argument: None,
            })
        }
        BoundExpr::Call {
            aggregate,
            offset,
            argument,
        } => {
            known.push(AggregateCall {
                aggregate: *aggregate,
                offset: *offset,
                argument: Some(argument),
            })
        }
    }
}

// Adds those of some expressions.
#[cycle(aggregates)]
fn push_all_aggregates<'e, A: Heap>(
    known: &mut Items<AggregateCall<'e, A>, A>,
    members: &'e [BoundExpr<A>],
) -> Result<(), AllocError>
    ensures { OnOk result (aggregate_calls_of known.new ≡ aggregate_calls_of known.old ++ all_aggregates (bound_exprs members.now)) }
{
    for member in members {
        push_aggregates(known, member)?;
    }
    Ok(())
}

// Adds those of the arms of a CASE.
#[cycle(aggregates)]
fn push_arms_aggregates<'e, A: Heap>(
    known: &mut Items<AggregateCall<'e, A>, A>,
    arms: &'e [BoundArm<A>],
) -> Result<(), AllocError>
    ensures { OnOk result (aggregate_calls_of known.new ≡ aggregate_calls_of known.old ++ arms_aggregates (bound_arms arms.now)) }
{
    for arm in arms {
        push_aggregates(known, &arm.when)?;
        push_aggregates(known, &arm.result)?;
    }
    Ok(())
}
