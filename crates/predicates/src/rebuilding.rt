//! Expressions made anew from their operands upward.

ghost use Rattle.std.specs.Prelude.{◌≡◌, IfOk};
ghost use Rattle.expr.specs.Bound as bound;
ghost use Rattle.expr.specs.View.{bound_arms, bound_expr_of, bound_exprs};
ghost use Rattle.predicates.specs.Rebuilt.{rebuilt, all_rebuilt, arms_rebuilt};

use expr::{
    Arms, BoundArm, BoundExpr, Copied, Members, arithmetic, arm, between, call, cast, comparison,
    conjunction, disjunction, literal, logical_not, membership, negation, null_check,
    with_otherwise, without_otherwise,
};
use memory::{Heap, Items, boxed};

/// A rule for the nodes of an expression.
pub trait Rule {
    ghost at: { Self → bound.BoundExpr → bound.BoundExpr };

    /// The node that comes in place of one.
    fn apply<A: Heap>(&self, alloc: A, node: Copied<A>) -> Copied<A>
        ensures { (e : bound.BoundExpr) → IfOk node (λ b. bound_expr_of b.value ≡ e) → IfOk result (λ b. bound_expr_of b.value ≡ at self.now e) };
}

/// The expression with each node replaced, its operands before it.
#[cycle(rebuild)]
pub fn rebuild<A: Heap, R: Rule>(alloc: A, expression: &BoundExpr<A>, rule: &R) -> Copied<A>
    ensures { IfOk result (λ copy. bound_expr_of copy.value ≡ rebuilt (R.at rule.now) (bound_expr_of expression.now)) }
{
    match expression {
        BoundExpr::Column(id) => rule.apply(alloc, boxed(alloc, BoundExpr::Column(*id))),
        BoundExpr::Literal(value) => rule.apply(alloc, literal(alloc, value.copy(alloc))),
        BoundExpr::CurrentUser => rule.apply(alloc, boxed(alloc, BoundExpr::CurrentUser)),
        BoundExpr::Negate { offset, operand } => {
            rule.apply(
                alloc,
                negation(alloc, *offset, rebuild(alloc, operand, rule)),
            )
        }
        BoundExpr::Arithmetic {
            operator,
            offset,
            left,
            right,
        } => {
            let left = rebuild(alloc, left, rule)?;
            rule.apply(
                alloc,
                arithmetic(alloc, *operator, *offset, left, rebuild(alloc, right, rule)),
            )
        }
        BoundExpr::Comparison {
            operator,
            offset,
            left,
            right,
        } => {
            let left = rebuild(alloc, left, rule)?;
            rule.apply(
                alloc,
                comparison(alloc, *operator, *offset, left, rebuild(alloc, right, rule)),
            )
        }
        BoundExpr::Between {
            negated,
            offset,
            operand,
            low,
            high,
        } => {
            let operand = rebuild(alloc, operand, rule)?;
            let low = rebuild(alloc, low, rule)?;
            rule.apply(
                alloc,
                between(
                    alloc,
                    *negated,
                    *offset,
                    operand,
                    low,
                    rebuild(alloc, high, rule),
                ),
            )
        }
        BoundExpr::In {
            negated,
            offset,
            values,
            operand,
        } => {
            let operand = rebuild(alloc, operand, rule);
            rule.apply(
                alloc,
                membership(alloc, *negated, *offset, operand, values.as_slice()),
            )
        }
        BoundExpr::IsNull {
            negated,
            offset,
            operand,
        } => {
            rule.apply(
                alloc,
                null_check(alloc, *negated, *offset, rebuild(alloc, operand, rule)),
            )
        }
        BoundExpr::Not { offset, operand } => {
            rule.apply(
                alloc,
                logical_not(alloc, *offset, rebuild(alloc, operand, rule)),
            )
        }
        BoundExpr::And { offset, members } => {
            rule.apply(
                alloc,
                conjunction(alloc, *offset, rebuild_all(alloc, members, rule)),
            )
        }
        BoundExpr::Or { offset, members } => {
            rule.apply(
                alloc,
                disjunction(alloc, *offset, rebuild_all(alloc, members, rule)),
            )
        }
        BoundExpr::Cast {
            offset,
            to,
            operand,
        } => {
            rule.apply(
                alloc,
                cast(alloc, *offset, *to, rebuild(alloc, operand, rule)),
            )
        }
        BoundExpr::Case {
            offset,
            arms,
            otherwise,
        } => {
            let arms = rebuild_arms(alloc, arms, rule);
            match otherwise {
                Some(value) => {
                    let value = rebuild(alloc, value, rule);
                    rule.apply(alloc, with_otherwise(alloc, *offset, arms, value))
                }
                None => rule.apply(alloc, without_otherwise(alloc, *offset, arms)),
            }
        }
        BoundExpr::CountStar { offset } => rule.apply(
            alloc,
            boxed(alloc, BoundExpr::CountStar { offset: *offset }),
        ),
        BoundExpr::Call {
            aggregate,
            offset,
            argument,
        } => {
            rule.apply(
                alloc,
                call(alloc, *aggregate, *offset, rebuild(alloc, argument, rule)),
            )
        }
    }
}

// The same of several expressions.
#[cycle(rebuild)]
fn rebuild_all<A: Heap, R: Rule>(alloc: A, members: &[BoundExpr<A>], rule: &R) -> Members<A>
    ensures { IfOk result (λ v. bound_exprs v.items ≡ all_rebuilt (R.at rule.now) (bound_exprs members.now)) }
{
    let mut all = Items::new(alloc);
    for member in members {
        match rebuild(alloc, member, rule) {
            Ok(member) => all.push(Box::into_inner(member))?,
            Err(failure) => return Err(failure),
        }
    }
    Ok(all.into_vec())
}

// The same of the arms of a CASE.
#[cycle(rebuild)]
fn rebuild_arms<A: Heap, R: Rule>(alloc: A, arms: &[BoundArm<A>], rule: &R) -> Arms<A>
    ensures { IfOk result (λ v. bound_arms v.items ≡ arms_rebuilt (R.at rule.now) (bound_arms arms.now)) }
{
    let mut all = Items::new(alloc);
    for next in arms {
        let when = rebuild(alloc, &next.when, rule);
        let result = rebuild(alloc, &next.result, rule);
        match arm(when, result) {
            Ok(arm) => all.push(arm)?,
            Err(failure) => return Err(failure),
        }
    }
    Ok(all.into_vec())
}
