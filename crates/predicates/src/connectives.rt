//! Conditions joined by AND and OR, and taken apart.

ghost use Rattle.std.specs.Prelude.{◌≡◌, IfOk, length, option_map};
ghost use Rattle.expr.specs.Bound as bound;
ghost use Rattle.expr.specs.Conjuncts.{conjuncts_of};
ghost use Rattle.expr.specs.View.{bound_expr_of, bound_exprs};
ghost use Rattle.predicates.specs.Connectives.{and_of, both, factored, factored_of, first_and_rest, or_of, parted, rest_after, rests_after, with_first};

use crate::carrying::{and_members, extend};
use crate::same::is_same;
use expr::{BoundExpr, Copied, MovableExpr, conjunction, copy_expr, disjunction};
use memory::{Heap, boxed};
use std::alloc::AllocError;

// The first member of an AND and the AND of the others.
type Parts<A> = Option<(Box<BoundExpr<A>, A>, Box<BoundExpr<A>, A>)>;

fn and_of<A: Heap>(alloc: A, members: Vec<BoundExpr<A>, A>) -> Copied<A>
    ensures { IfOk result (λ b. bound_expr_of b.value ≡ and_of (bound_exprs members.items)) }
{
    let mut members = members;
    if members.len() == 1 {
        boxed(alloc, members.remove(0))
    } else {
        conjunction(alloc, 0, Ok(members))
    }
}

fn or_of<A: Heap>(alloc: A, members: Vec<BoundExpr<A>, A>) -> Copied<A>
    ensures { IfOk result (λ b. bound_expr_of b.value ≡ or_of (bound_exprs members.items)) }
{
    let mut members = members;
    if members.len() == 1 {
        boxed(alloc, members.remove(0))
    } else {
        disjunction(alloc, 0, Ok(members))
    }
}

fn and_both<A: Heap>(
    alloc: A,
    first: Box<BoundExpr<A>, A>,
    second: Box<BoundExpr<A>, A>,
) -> Copied<A>
    ensures { IfOk result (λ b. bound_expr_of b.value ≡ both (bound_expr_of first.value) (bound_expr_of second.value)) }
{
    let mut members = and_members(alloc, first)?;
    extend(alloc, true, &mut members, second)?;
    and_of(alloc, members)
}

/// One AND of two conditions, in which an AND is its members.
pub fn both<A: Heap>(
    alloc: A,
    first: MovableExpr<A>,
    second: MovableExpr<A>,
) -> Result<MovableExpr<A>, AllocError>
    ensures { IfOk result (λ whole. whole ≡ both first second) }
{
    let whole = and_both(alloc, first.into_expression(), second.into_expression())?;
    Ok(MovableExpr::of_movable(whole))
}

/// The number of the conjuncts of a condition.
pub fn conjunct_count<A: Heap>(condition: &MovableExpr<A>) -> usize
    ensures { result ≡ length (conjuncts_of condition.now) }
{
    match condition.expression() {
        BoundExpr::And { members, .. } => members.len(),
        _ => 1,
    }
}

fn part_members<A: Heap>(alloc: A, members: Vec<BoundExpr<A>, A>) -> Result<Parts<A>, AllocError>
    ensures { IfOk result (λ parts. option_map (λ p. (bound_expr_of p.0.value, bound_expr_of p.1.value)) parts ≡ first_and_rest (bound_exprs members.items)) }
{
    let mut members = members;
    if members.len() < 2 {
        return Ok(None);
    }
    let first = boxed(alloc, members.remove(0))?;
    let rest = and_of(alloc, members)?;
    Ok(Some((first, rest)))
}

fn part<A: Heap>(alloc: A, condition: Box<BoundExpr<A>, A>) -> Result<Parts<A>, AllocError>
    ensures { IfOk result (λ parts. option_map (λ p. (bound_expr_of p.0.value, bound_expr_of p.1.value)) parts ≡ parted (bound_expr_of condition.value)) }
{
    match Box::into_inner(condition) {
        BoundExpr::And { members, .. } => part_members(alloc, members),
        _ => Ok(None),
    }
}

/// The first member of an AND of two or more, and the AND of the others.
pub fn parted<A: Heap>(
    alloc: A,
    condition: MovableExpr<A>,
) -> Result<Option<(MovableExpr<A>, MovableExpr<A>)>, AllocError>
    ensures { IfOk result (λ parts. parts ≡ parted condition) }
{
    match part(alloc, condition.into_expression())? {
        Some((first, rest)) => {
            let first = MovableExpr::of_movable(first);
            let rest = MovableExpr::of_movable(rest);
            Ok(Some((first, rest)))
        }
        None => Ok(None),
    }
}

// The rest of an AND with this first member.
fn rest_after<A: Heap>(
    alloc: A,
    first: &BoundExpr<A>,
    member: &BoundExpr<A>,
) -> Result<Option<Box<BoundExpr<A>, A>>, AllocError>
    ensures { IfOk result (λ rest. option_map (λ b. bound_expr_of b.value) rest ≡ rest_after (bound_expr_of first.now) (parted (bound_expr_of member.now))) }
{
    match part(alloc, copy_expr(alloc, member)?)? {
        Some((other, rest)) => {
            if is_same(first, &other) {
                Ok(Some(rest))
            } else {
                Ok(None)
            }
        }
        None => Ok(None),
    }
}

// The rests of members that each are an AND with this first member.
fn rests_after<A: Heap>(
    alloc: A,
    first: &BoundExpr<A>,
    members: &[BoundExpr<A>],
) -> Result<Option<Vec<BoundExpr<A>, A>>, AllocError>
    ensures { IfOk result (λ rests. option_map (λ v. bound_exprs v.items) rests ≡ rests_after (bound_expr_of first.now) (bound_exprs members.now)) }
{
    let mut rests = Vec::new(alloc);
    for member in members {
        match rest_after(alloc, first, member)? {
            Some(rest) => extend(alloc, false, &mut rests, rest)?,
            None => return Ok(None),
        }
    }
    Ok(Some(rests))
}

// The first member AND the OR of the rests.
fn with_first<A: Heap>(
    alloc: A,
    first: Box<BoundExpr<A>, A>,
    members: &[BoundExpr<A>],
) -> Result<Option<Box<BoundExpr<A>, A>>, AllocError>
    ensures { IfOk result (λ form. option_map (λ b. bound_expr_of b.value) form ≡ with_first (bound_expr_of first.value) (bound_exprs members.now)) }
{
    match rests_after(alloc, &first, members)? {
        Some(rests) => {
            let rest = or_of(alloc, rests)?;
            Ok(Some(and_both(alloc, first, rest)?))
        }
        None => Ok(None),
    }
}

fn factor_members<A: Heap>(
    alloc: A,
    members: &[BoundExpr<A>],
) -> Result<Option<Box<BoundExpr<A>, A>>, AllocError>
    ensures { IfOk result (λ form. option_map (λ b. bound_expr_of b.value) form ≡ factored_of (bound_exprs members.now)) }
{
    if members.is_empty() {
        return Ok(None);
    }
    match part(alloc, copy_expr(alloc, &members[0])?)? {
        Some((first, _)) => with_first(alloc, first, members),
        None => Ok(None),
    }
}

fn factor<A: Heap>(
    alloc: A,
    condition: &BoundExpr<A>,
) -> Result<Option<Box<BoundExpr<A>, A>>, AllocError>
    ensures { IfOk result (λ form. option_map (λ b. bound_expr_of b.value) form ≡ factored (bound_expr_of condition.now)) }
{
    match condition {
        BoundExpr::Or { members, .. } => factor_members(alloc, members),
        _ => Ok(None),
    }
}

/// Of an OR of ANDs that have one first member: that member AND the OR of the rests.
pub fn factored<A: Heap>(
    alloc: A,
    condition: &MovableExpr<A>,
) -> Result<Option<MovableExpr<A>>, AllocError>
    ensures { IfOk result (λ form. form ≡ factored condition.now) }
{
    match factor(alloc, condition.expression())? {
        Some(form) => Ok(Some(MovableExpr::of_movable(form))),
        None => Ok(None),
    }
}
