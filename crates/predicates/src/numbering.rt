//! The conditions of a list, and the conjuncts of a condition, by their numbers.

ghost use Rattle.std.specs.Prelude.{◌≡◌, option_map, slice_get};
ghost use Rattle.expr.specs.Conjuncts.{conjuncts_of};
ghost use Rattle.expr.specs.View.{bound_expr_of};
ghost use Rattle.predicates.specs.Numbered.{numbered};

use expr::{BoundExpr, MovableExpr};
use memory::Heap;

/// The condition of that number, from 1, if there is one.
pub fn numbered<A: Heap>(conditions: &[MovableExpr<A>], number: u64) -> Option<&MovableExpr<A>>
    ensures { option_map (λ e. e.now) result ≡ numbered conditions.now number }
{
    if number == 0 {
        return None;
    }
    conditions.get((number - 1) as usize)
}

// The member of that index of an AND, if there is one; all else is its own first.
fn conjunct_at<A: Heap>(expression: &BoundExpr<A>, index: usize) -> Option<&BoundExpr<A>>
    ensures { option_map (λ e. bound_expr_of e.now) result ≡ slice_get (conjuncts_of (bound_expr_of expression.now)) index }
{
    match expression {
        BoundExpr::And { members, .. } => members.get(index),
        _ => { if index == 0 { Some(expression) } else { None } }
    }
}

/// The conjunct of that number, from 1, of a condition, if there is one.
pub fn conjunct_numbered<A: Heap>(condition: &MovableExpr<A>, number: u64) -> Option<&BoundExpr<A>>
    ensures { option_map (λ e. bound_expr_of e.now) result ≡ numbered (conjuncts_of condition.now) number }
{
    if number == 0 {
        return None;
    }
    conjunct_at(condition.expression(), (number - 1) as usize)
}
