//! Expressions that never fault, with that fact.

ghost use Rattle.std.specs.Prelude.{◌≡◌, IfOk, true};
ghost use Rattle.expr.specs.Movable.{if_movable, movable};
ghost use Rattle.expr.specs.View.{bound_expr_of};

use crate::bound::BoundExpr;
use crate::copies::copy_expr;
use crate::movable::is_movable;
use memory::Heap;
use std::alloc::AllocError;
use std::marker::Model;

/// An expression that never faults. A contract sees the expression.
#[derive(Drop)]
pub struct MovableExpr<A: Heap> {
    expression: Box<BoundExpr<A>, A>,
}

impl<A: Heap> Model for MovableExpr<A> {
    ghost use Rattle.std.specs.Prelude.{◌≡◌, true};
    ghost use Rattle.std.specs.Coded.{codes};
    ghost use Rattle.expr.specs.Bound as bound;
    ghost use Rattle.expr.specs.Coding.{coded_bound_expr};
    ghost use Rattle.expr.specs.Movable.{movable};
    ghost use Rattle.expr.specs.View.{bound_expr_of};

    ghost Value = { bound.BoundExpr };

    ghost coded = { coded_bound_expr (Prim.hlevel codes) };

    ghost view = { λ e. bound_expr_of e.expression.value };

    ghost invariant = { λ e. movable (bound_expr_of e.expression.value) ≡ true };
}

impl<A: Heap> MovableExpr<A> {
    /// The expression, if it never faults.
    pub fn new(expression: Box<BoundExpr<A>, A>) -> Option<MovableExpr<A>>
        ensures { result ≡ if_movable (bound_expr_of expression.value) }
    {
        if is_movable(&expression) {
            Some(MovableExpr { expression })
        } else {
            None
        }
    }

    /// The expression, which never faults.
    pub fn of_movable(expression: Box<BoundExpr<A>, A>) -> MovableExpr<A>
        requires { movable (bound_expr_of expression.value) ≡ true }
        ensures { result ≡ bound_expr_of expression.value }
    {
        MovableExpr { expression }
    }

    /// A copy; it fails where memory runs out.
    pub fn copy(&self, alloc: A) -> Result<MovableExpr<A>, AllocError>
        ensures { IfOk result (λ copy. copy ≡ self.now) }
    {
        let expression = copy_expr(alloc, &self.expression)?;
        Ok(MovableExpr { expression })
    }

    /// The expression, by value.
    pub fn into_expression(self) -> Box<BoundExpr<A>, A>
        ensures value { bound_expr_of result.value ≡ self }
        ensures movable { movable (bound_expr_of result.value) ≡ true }
    {
        self.expression
    }

    /// The expression.
    pub fn expression(&self) -> &BoundExpr<A>
        ensures value { bound_expr_of result.now ≡ self.now }
        ensures movable { movable (bound_expr_of result.now) ≡ true }
    {
        &self.expression
    }
}
