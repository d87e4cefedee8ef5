//! The outcome of an expression on a row, kept by itself.

ghost use Rattle.std.specs.Prelude.{◌≡◌, IfOk};
ghost use Rattle.expr.specs.View.{bound_expr_of};
ghost use Rattle.eval.specs.Marks.{outcome_of};
ghost use Rattle.eval.specs.Meaning.{meaning};

use crate::evaluating::eval;
use crate::marks::Mark;
use crate::row::Row;
use expr::BoundExpr;
use memory::{Failure, Heap};
use std::alloc::AllocError;

/// The outcome of an expression on a row, for a role. It fails where memory runs out.
pub fn mark<A: Heap, R: Row<A>>(
    alloc: A,
    expression: &BoundExpr<A>,
    row: &R,
    role: &str,
) -> Result<Mark<A>, AllocError>
    ensures { IfOk result (λ m. outcome_of m ≡ meaning (R.cells row.now) role.now (bound_expr_of expression.now)) }
{
    match eval(alloc, expression, row, role) {
        Ok(value) => Ok(Mark::Value(value.to_value(alloc)?)),
        Err(Failure::Error(fault)) => Ok(Mark::Fault(fault)),
        Err(Failure::OutOfMemory) => Err(AllocError),
    }
}
