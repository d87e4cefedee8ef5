//! Expressions with their columns found.

ghost use Rattle.std.specs.Prelude.{map};
ghost use Rattle.memory.specs.Gives.{Gives};
ghost use Rattle.row_ast.specs.View.{expr_of, exprs, arms as arms_of};
ghost use Rattle.expr.specs.View.{bound_arm_pair, bound_expr_of};
ghost use Rattle.scope.specs.BoundExprs as spec;
ghost use Rattle.scope.specs.View.{entries_of};

use crate::entry::Entry;
use crate::lookup::{Scope, find_column};
use crate::nodes::{
    Arms, BindResult, Members, arithmetic, between, call, cast, column, comparison, conjunction,
    disjunction, literal, logical_not, made, membership, negation, null_check, with_arm,
    with_member, with_otherwise, without_otherwise,
};
use expr::BoundExpr;
use memory::{Heap, Items};
use row_ast::{Arm, Expr};

/// The expression with each column found among the entries in scope, or the first name that does not resolve.
#[cycle(bind)]
pub fn bind_expr<A: Heap>(
    alloc: A,
    entries: &[Entry<'_, A>],
    scope: Scope,
    expression: &Expr<A>,
) -> BindResult<A>
    ensures { Gives (λ b. bound_expr_of b.value) result (spec.bound_expr (entries_of entries.now) scope (expr_of expression.now)) }
{
    match expression {
        Expr::Column(name) => column(alloc, find_column(entries, scope, name)),
        Expr::Literal(value) => literal(alloc, value),
        Expr::CurrentUser => made(alloc, BoundExpr::CurrentUser),
        Expr::Negate { offset, operand } => {
            negation(alloc, *offset, bind_expr(alloc, entries, scope, operand))
        }
        Expr::Arithmetic {
            operator,
            offset,
            left,
            right,
        } => {
            let left = bind_expr(alloc, entries, scope, left);
            let right = bind_expr(alloc, entries, scope, right);
            arithmetic(alloc, *operator, *offset, left, right)
        }
        Expr::Comparison {
            operator,
            offset,
            left,
            right,
        } => {
            let left = bind_expr(alloc, entries, scope, left);
            let right = bind_expr(alloc, entries, scope, right);
            comparison(alloc, *operator, *offset, left, right)
        }
        Expr::Between {
            negated,
            offset,
            operand,
            low,
            high,
        } => {
            let operand = bind_expr(alloc, entries, scope, operand);
            let low = bind_expr(alloc, entries, scope, low);
            let high = bind_expr(alloc, entries, scope, high);
            between(alloc, *negated, *offset, operand, low, high)
        }
        Expr::In {
            negated,
            offset,
            values,
            operand,
        } => {
            let operand = bind_expr(alloc, entries, scope, operand);
            membership(alloc, *negated, *offset, values.as_slice(), operand)
        }
        Expr::IsNull {
            negated,
            offset,
            operand,
        } => {
            let operand = bind_expr(alloc, entries, scope, operand);
            null_check(alloc, *negated, *offset, operand)
        }
        Expr::Not { offset, operand } => {
            logical_not(alloc, *offset, bind_expr(alloc, entries, scope, operand))
        }
        Expr::And { offset, members } => {
            conjunction(alloc, *offset, bind_members(alloc, entries, scope, members))
        }
        Expr::Or { offset, members } => {
            disjunction(alloc, *offset, bind_members(alloc, entries, scope, members))
        }
        Expr::Cast {
            offset,
            to,
            operand,
        } => {
            let operand = bind_expr(alloc, entries, scope, operand);
            cast(alloc, *offset, *to, operand)
        }
        Expr::Case {
            offset,
            arms,
            otherwise,
        } => {
            let arms = bind_arms(alloc, entries, scope, arms);
            match otherwise {
                Some(value) => {
                    let value = bind_expr(alloc, entries, scope, value);
                    with_otherwise(alloc, *offset, arms, value)
                }
                None => without_otherwise(alloc, *offset, arms),
            }
        }
        Expr::CountStar { offset } => made(alloc, BoundExpr::CountStar { offset: *offset }),
        Expr::Call {
            aggregate,
            offset,
            argument,
        } => {
            let argument = bind_expr(alloc, entries, scope, argument);
            call(alloc, *aggregate, *offset, argument)
        }
    }
}

// The same of several expressions.
#[cycle(bind)]
fn bind_members<A: Heap>(
    alloc: A,
    entries: &[Entry<'_, A>],
    scope: Scope,
    members: &[Expr<A>],
) -> Members<A>
    ensures { Gives (λ v. map bound_expr_of v.items) result (spec.bound_members (entries_of entries.now) scope (exprs members.now)) }
{
    let mut all = Items::new(alloc);
    for member in members {
        match with_member(all, bind_expr(alloc, entries, scope, member)) {
            Ok(more) => all = more,
            Err(failure) => return Err(failure),
        }
    }
    Ok(all.into_vec())
}

// The same of the arms of a CASE.
#[cycle(bind)]
fn bind_arms<A: Heap>(alloc: A, entries: &[Entry<'_, A>], scope: Scope, arms: &[Arm<A>]) -> Arms<A>
    ensures { Gives (λ v. map bound_arm_pair v.items) result (spec.bound_arms (entries_of entries.now) scope (arms_of arms.now)) }
{
    let mut all = Items::new(alloc);
    for next in arms {
        let when = bind_expr(alloc, entries, scope, &next.when);
        let result = bind_expr(alloc, entries, scope, &next.result);
        match with_arm(all, when, result) {
            Ok(more) => all = more,
            Err(failure) => return Err(failure),
        }
    }
    Ok(all.into_vec())
}
