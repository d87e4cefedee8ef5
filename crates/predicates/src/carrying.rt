//! NOT carried inward.

ghost use Rattle.std.specs.Prelude.{◌≡◌, IfOk, OnOk};
ghost use Rattle.value.specs.Datum.{datum, datum_of};
ghost use Rattle.expr.specs.Bound as bound;
ghost use Rattle.expr.specs.View.{bound_expr_of, bound_exprs};
ghost use Rattle.predicates.specs.Inward.{all_carried, and_members, before, carried, inward, joined, leaf_carried, members_of, not_leaf, or_members, negated_literal};

use expr::{
    BoundExpr, Copied, Members, between, comparison, conjunction, copy_expr, disjunction, literal,
    logical_not, membership, null_check,
};
use memory::Heap;
use std::alloc::AllocError;
use value::{Value, as_condition, not3, of_truth};

// TRUE for FALSE and FALSE for TRUE; NULL stays.
fn negated_literal<A: Heap>(alloc: A, value: &Value<A>) -> Result<Value<A>, AllocError>
    ensures { IfOk result (λ v. datum v ≡ negated_literal (datum value.now)) }
{
    of_truth(not3(as_condition(&value.as_val()))).to_value(alloc)
}

// NOT of what is no AND, OR or NOT.
fn not_leaf<A: Heap>(alloc: A, expression: &BoundExpr<A>) -> Copied<A>
    ensures { IfOk result (λ b. bound_expr_of b.value ≡ not_leaf (bound_expr_of expression.now)) }
{
    match expression {
        BoundExpr::Comparison {
            operator,
            offset,
            left,
            right,
        } => {
            let left = copy_expr(alloc, left)?;
            comparison(
                alloc,
                operator.negator(),
                *offset,
                left,
                copy_expr(alloc, right),
            )
        }
        BoundExpr::Between {
            negated,
            offset,
            operand,
            low,
            high,
        } => {
            let operand = copy_expr(alloc, operand)?;
            let low = copy_expr(alloc, low)?;
            between(
                alloc,
                !*negated,
                *offset,
                operand,
                low,
                copy_expr(alloc, high),
            )
        }
        BoundExpr::In {
            negated,
            offset,
            values,
            operand,
        } => {
            let operand = copy_expr(alloc, operand);
            membership(alloc, !*negated, *offset, operand, values.as_slice())
        }
        BoundExpr::IsNull {
            negated,
            offset,
            operand,
        } => { null_check(alloc, !*negated, *offset, copy_expr(alloc, operand)) }
        BoundExpr::Literal(value) => literal(alloc, negated_literal(alloc, value)),
        _ => logical_not(alloc, 0, copy_expr(alloc, expression)),
    }
}

fn leaf<A: Heap>(alloc: A, expression: &BoundExpr<A>, negate: bool) -> Copied<A>
    ensures { IfOk result (λ b. bound_expr_of b.value ≡ leaf_carried negate (bound_expr_of expression.now)) }
{
    if negate {
        not_leaf(alloc, expression)
    } else {
        copy_expr(alloc, expression)
    }
}

fn alone<A: Heap>(alloc: A, member: BoundExpr<A>) -> Members<A>
    ensures { IfOk result (λ v. bound_exprs v.items ≡ bound.one_expr (bound_expr_of member) bound.no_expr) }
{
    let mut members = Vec::new(alloc);
    members.push(member)?;
    Ok(members)
}

pub(crate) fn and_members<A: Heap>(alloc: A, member: Box<BoundExpr<A>, A>) -> Members<A>
    ensures { IfOk result (λ v. bound_exprs v.items ≡ and_members (bound_expr_of member.value)) }
{
    match Box::into_inner(member) {
        BoundExpr::And { members, .. } => Ok(members),
        member => alone(alloc, member),
    }
}

fn or_members<A: Heap>(alloc: A, member: Box<BoundExpr<A>, A>) -> Members<A>
    ensures { IfOk result (λ v. bound_exprs v.items ≡ or_members (bound_expr_of member.value)) }
{
    match Box::into_inner(member) {
        BoundExpr::Or { members, .. } => Ok(members),
        member => alone(alloc, member),
    }
}

fn members_of<A: Heap>(alloc: A, conjunction: bool, member: Box<BoundExpr<A>, A>) -> Members<A>
    ensures { IfOk result (λ v. bound_exprs v.items ≡ members_of conjunction (bound_expr_of member.value)) }
{
    if conjunction {
        and_members(alloc, member)
    } else {
        or_members(alloc, member)
    }
}

pub(crate) fn extend<A: Heap>(
    alloc: A,
    conjunction: bool,
    members: &mut Vec<BoundExpr<A>, A>,
    next: Box<BoundExpr<A>, A>,
) -> Result<(), AllocError>
    ensures { OnOk result (bound_exprs members.new.items ≡ before (bound_exprs members.old.items) (members_of conjunction (bound_expr_of next.value))) }
{
    let mut more = members_of(alloc, conjunction, next)?;
    members.append(&mut more)?;
    Ok(())
}

// An AND or OR of members.
fn joined<A: Heap>(alloc: A, is_conjunction: bool, offset: u32, members: Members<A>) -> Copied<A>
    ensures { (es : bound.BoundExprs) → IfOk members (λ v. bound_exprs v.items ≡ es) → IfOk result (λ b. bound_expr_of b.value ≡ joined is_conjunction offset es) }
{
    if is_conjunction {
        conjunction(alloc, offset, members)
    } else {
        disjunction(alloc, offset, members)
    }
}

// The expression, or its NOT.
#[cycle(inward)]
fn carry<A: Heap>(alloc: A, expression: &BoundExpr<A>, negate: bool) -> Copied<A>
    ensures { IfOk result (λ b. bound_expr_of b.value ≡ carried negate (bound_expr_of expression.now)) }
{
    match expression {
        BoundExpr::And { offset, members } => {
            joined(
                alloc,
                !negate,
                *offset,
                carry_all(alloc, members, !negate, negate),
            )
        }
        BoundExpr::Or { offset, members } => {
            joined(
                alloc,
                negate,
                *offset,
                carry_all(alloc, members, negate, negate),
            )
        }
        BoundExpr::Not { operand, .. } => carry(alloc, operand, !negate),
        _ => leaf(alloc, expression, negate),
    }
}

// The members of an AND or OR, an AND in an AND and an OR in an OR merged.
#[cycle(inward)]
fn carry_all<A: Heap>(
    alloc: A,
    members: &[BoundExpr<A>],
    is_conjunction: bool,
    negate: bool,
) -> Members<A>
    ensures { IfOk result (λ v. bound_exprs v.items ≡ all_carried is_conjunction negate (bound_exprs members.now)) }
{
    let mut all = Vec::new(alloc);
    for member in members {
        match carry(alloc, member, negate) {
            Ok(carried) => extend(alloc, is_conjunction, &mut all, carried)?,
            Err(failure) => return Err(failure),
        }
    }
    Ok(all)
}

/// A copy of the expression with NOT carried inward.
pub fn carry_inward<A: Heap>(alloc: A, expression: &BoundExpr<A>) -> Copied<A>
    ensures { IfOk result (λ copy. bound_expr_of copy.value ≡ inward (bound_expr_of expression.now)) }
{
    carry(alloc, expression, false)
}
