//! The columns that an expression names.

ghost use Rattle.std.specs.Prelude.{◌≡◌, ◌++◌, OnOk};
ghost use Rattle.expr.specs.View.{bound_arms, bound_expr_of, bound_exprs};
ghost use Rattle.expr.specs.Columns.{columns, all_columns, arms_columns};

use crate::bound::{BoundArm, BoundExpr, ColumnId};
use memory::{Heap, Items};
use std::alloc::AllocError;

/// Adds the columns that an expression names, in written order.
#[cycle(columns)]
pub fn push_columns<A: Heap>(
    known: &mut Items<ColumnId, A>,
    expression: &BoundExpr<A>,
) -> Result<(), AllocError>
    ensures { OnOk result (known.new ≡ known.old ++ columns (bound_expr_of expression.now)) }
{
    match expression {
        BoundExpr::Column(id) => known.push(*id),
        BoundExpr::Literal(_) | BoundExpr::CurrentUser | BoundExpr::CountStar { .. } => Ok(()),
        BoundExpr::Negate { operand, .. } => push_columns(known, operand),
        BoundExpr::Arithmetic { left, right, .. } => {
            push_columns(known, left)?;
            push_columns(known, right)
        }
        BoundExpr::Comparison { left, right, .. } => {
            push_columns(known, left)?;
            push_columns(known, right)
        }
        BoundExpr::Between {
            operand,
            low,
            high,
            ..
        } => {
            push_columns(known, operand)?;
            push_columns(known, low)?;
            push_columns(known, high)
        }
        BoundExpr::In { operand, .. } => push_columns(known, operand),
        BoundExpr::IsNull { operand, .. } => push_columns(known, operand),
        BoundExpr::Not { operand, .. } => push_columns(known, operand),
        BoundExpr::And { members, .. } => push_all_columns(known, members),
        BoundExpr::Or { members, .. } => push_all_columns(known, members),
        BoundExpr::Cast { operand, .. } => push_columns(known, operand),
        BoundExpr::Case {
            arms,
            otherwise,
            ..
        } => {
            push_arms_columns(known, arms)?;
            match otherwise {
                Some(value) => push_columns(known, value),
                None => Ok(()),
            }
        }
        BoundExpr::Call { argument, .. } => push_columns(known, argument),
    }
}

// Adds those of some expressions.
#[cycle(columns)]
fn push_all_columns<A: Heap>(
    known: &mut Items<ColumnId, A>,
    members: &[BoundExpr<A>],
) -> Result<(), AllocError>
    ensures { OnOk result (known.new ≡ known.old ++ all_columns (bound_exprs members.now)) }
{
    for member in members {
        push_columns(known, member)?;
    }
    Ok(())
}

// Adds those of the arms of a CASE.
#[cycle(columns)]
fn push_arms_columns<A: Heap>(
    known: &mut Items<ColumnId, A>,
    arms: &[BoundArm<A>],
) -> Result<(), AllocError>
    ensures { OnOk result (known.new ≡ known.old ++ arms_columns (bound_arms arms.now)) }
{
    for arm in arms {
        push_columns(known, &arm.when)?;
        push_columns(known, &arm.result)?;
    }
    Ok(())
}
