//! The test if two expressions are the same.

ghost use Rattle.std.specs.Prelude.{◌≡◌};
ghost use Rattle.expr.specs.View.{bound_arms, bound_expr_of, bound_exprs, otherwise_of};
ghost use Rattle.predicates.specs.Same.{all_same, arms_same, otherwise_same, same};

use crate::operands::{Operands, is_same_node, operands_in};
use expr::{BoundArm, BoundExpr};
use memory::Heap;

/// Tests if two expressions are the same, offsets too.
#[cycle(same)]
pub fn is_same<A: Heap>(one: &BoundExpr<A>, other: &BoundExpr<A>) -> bool
    ensures { result ≡ same (bound_expr_of one.now) (bound_expr_of other.now) }
{
    if !is_same_node(one, other) {
        return false;
    }
    match operands_in(one) {
        Operands::None => true,
        Operands::One(x) => match operands_in(other) {
            Operands::One(y) => is_same(x, y),
            _ => false,
        },
        Operands::Two(x, x2) => match operands_in(other) {
            Operands::Two(y, y2) => is_same(x, y) && is_same(x2, y2),
            _ => false,
        },
        Operands::Three(x, x2, x3) => match operands_in(other) {
            Operands::Three(y, y2, y3) => is_same(x, y) && is_same(x2, y2) && is_same(x3, y3),
            _ => false,
        },
        Operands::Members(xs) => match operands_in(other) {
            Operands::Members(ys) => are_same(xs, ys),
            _ => false,
        },
        Operands::Arms(xs, x) => match operands_in(other) {
            Operands::Arms(ys, y) => {
                if !are_arms_same(xs, ys) {
                    return false;
                }
                match x {
                    None => y.is_none(),
                    Some(x) => match y {
                        Some(y) => is_same(x, y),
                        None => false,
                    },
                }
            }
            _ => false,
        },
    }
}

#[cycle(same)]
fn are_same<A: Heap>(some: &[BoundExpr<A>], others: &[BoundExpr<A>]) -> bool
    ensures { result ≡ all_same (bound_exprs some.now) (bound_exprs others.now) }
{
    if some.len() != others.len() {
        return false;
    }
    for i in 0..some.len() {
        if !is_same(&some[i], &others[i]) {
            return false;
        }
    }
    true
}

#[cycle(same)]
fn are_arms_same<A: Heap>(some: &[BoundArm<A>], others: &[BoundArm<A>]) -> bool
    ensures { result ≡ arms_same (bound_arms some.now) (bound_arms others.now) }
{
    if some.len() != others.len() {
        return false;
    }
    for i in 0..some.len() {
        let arm = &some[i];
        let next = &others[i];
        if !is_same(&arm.when, &next.when) {
            return false;
        }
        if !is_same(&arm.result, &next.result) {
            return false;
        }
    }
    true
}
