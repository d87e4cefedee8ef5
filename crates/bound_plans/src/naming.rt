//! Bound conditions with their columns named.

ghost use Rattle.std.specs.Prelude.{◌≡◌, IfOk, slice_get};
ghost use Rattle.value.specs.Columns.{columns_of};
ghost use Rattle.row_ast.specs.View.{arms as arms_of, column_ref_of, expr_of, exprs};
ghost use Rattle.expr.specs.View.{bound_arms, bound_expr_of, bound_exprs};
ghost use Rattle.scope.specs.View.{entries_of};
ghost use Rattle.bound_plans.specs.Named as spec;

use crate::nodes::{
    Arms, Members, arithmetic, arm, between, call, cast, column, comparison, conjunction,
    disjunction, literal, logical_not, membership, negation, null_check, with_otherwise,
    without_otherwise,
};
use expr::{BoundArm, BoundExpr, ColumnId};
use memory::{Heap, Items, Text, boxed};
use row_ast::{ColumnRef, Expr};
use scope::Entry;
use std::alloc::AllocError;
use value::Column;

// The alias of the entry at an index, empty where there is none.
fn alias_at<'s, A: Heap>(entries: &[Entry<'s, A>], index: usize) -> &'s str
    ensures { result.now ≡ spec.alias_of_entry (slice_get (entries_of entries.now) index) }
{
    match entries.get(index) {
        Some(entry) => entry.alias,
        None => "",
    }
}

// The name of the column at an index, empty where there is none.
fn name_at<'c, A: Heap>(columns: &'c [Column<A>], index: usize) -> &'c str
    ensures { result.now ≡ spec.name_of_column (slice_get (columns_of columns.now) index) }
{
    match columns.get(index) {
        Some(column) => column.name.as_str(),
        None => "",
    }
}

// The name of a column, empty where there is none.
fn column_name<'s, A: Heap>(entries: &[Entry<'s, A>], id: ColumnId) -> &'s str
    ensures { result.now ≡ spec.column_name (slice_get (entries_of entries.now) id.entry) id.column }
{
    match entries.get(id.entry) {
        Some(entry) => name_at(entry.table.columns(), id.column),
        None => "",
    }
}

// `alias.column`.
fn column_ref<A: Heap>(
    alloc: A,
    entries: &[Entry<'_, A>],
    id: ColumnId,
) -> Result<ColumnRef<A>, AllocError>
    ensures { IfOk result (λ c. column_ref_of c ≡ spec.name_of (entries_of entries.now) id) }
{
    let table = Text::new(alloc, alias_at(entries, id.entry))?;
    let name = Text::new(alloc, column_name(entries, id))?;
    Ok(ColumnRef {
        table: Some(table),
        name,
        offset: 0,
    })
}

/// The tree of a bound condition: each column by the alias of its entry, all else kept.
#[cycle(named)]
pub fn named<A: Heap>(
    alloc: A,
    entries: &[Entry<'_, A>],
    condition: &BoundExpr<A>,
) -> Result<Box<Expr<A>, A>, AllocError>
    ensures { IfOk result (λ e. expr_of e.value ≡ spec.named (entries_of entries.now) (bound_expr_of condition.now)) }
{
    match condition {
        BoundExpr::Column(id) => column(alloc, column_ref(alloc, entries, *id)),
        BoundExpr::Literal(value) => literal(alloc, value.copy(alloc)),
        BoundExpr::CurrentUser => boxed(alloc, Expr::CurrentUser),
        BoundExpr::Negate { offset, operand } => {
            negation(alloc, *offset, named(alloc, entries, operand))
        }
        BoundExpr::Arithmetic {
            operator,
            offset,
            left,
            right,
        } => {
            let left = named(alloc, entries, left)?;
            arithmetic(
                alloc,
                *operator,
                *offset,
                left,
                named(alloc, entries, right),
            )
        }
        BoundExpr::Comparison {
            operator,
            offset,
            left,
            right,
        } => {
            let left = named(alloc, entries, left)?;
            comparison(
                alloc,
                *operator,
                *offset,
                left,
                named(alloc, entries, right),
            )
        }
        BoundExpr::Between {
            negated,
            offset,
            operand,
            low,
            high,
        } => {
            let operand = named(alloc, entries, operand)?;
            let low = named(alloc, entries, low)?;
            between(
                alloc,
                *negated,
                *offset,
                operand,
                low,
                named(alloc, entries, high),
            )
        }
        BoundExpr::In {
            negated,
            offset,
            values,
            operand,
        } => {
            let operand = named(alloc, entries, operand);
            membership(alloc, *negated, *offset, operand, values.as_slice())
        }
        BoundExpr::IsNull {
            negated,
            offset,
            operand,
        } => { null_check(alloc, *negated, *offset, named(alloc, entries, operand)) }
        BoundExpr::Not { offset, operand } => {
            logical_not(alloc, *offset, named(alloc, entries, operand))
        }
        BoundExpr::And { offset, members } => {
            conjunction(alloc, *offset, named_members(alloc, entries, members))
        }
        BoundExpr::Or { offset, members } => {
            disjunction(alloc, *offset, named_members(alloc, entries, members))
        }
        BoundExpr::Cast {
            offset,
            to,
            operand,
        } => { cast(alloc, *offset, *to, named(alloc, entries, operand)) }
        BoundExpr::Case {
            offset,
            arms,
            otherwise,
        } => {
            let arms = named_arms(alloc, entries, arms);
            match otherwise {
                Some(value) => {
                    let value = named(alloc, entries, value);
                    with_otherwise(alloc, *offset, arms, value)
                }
                None => without_otherwise(alloc, *offset, arms),
            }
        }
        BoundExpr::CountStar { offset } => boxed(alloc, Expr::CountStar { offset: *offset }),
        BoundExpr::Call {
            aggregate,
            offset,
            argument,
        } => { call(alloc, *aggregate, *offset, named(alloc, entries, argument)) }
    }
}

// The same of several expressions.
#[cycle(named)]
fn named_members<A: Heap>(
    alloc: A,
    entries: &[Entry<'_, A>],
    members: &[BoundExpr<A>],
) -> Members<A>
    ensures { IfOk result (λ v. exprs v.items ≡ spec.named_members (entries_of entries.now) (bound_exprs members.now)) }
{
    let mut all = Items::new(alloc);
    for member in members {
        match named(alloc, entries, member) {
            Ok(member) => all.push(Box::into_inner(member))?,
            Err(failure) => return Err(failure),
        }
    }
    Ok(all.into_vec())
}

// The same of the arms of a CASE.
#[cycle(named)]
fn named_arms<A: Heap>(alloc: A, entries: &[Entry<'_, A>], arms: &[BoundArm<A>]) -> Arms<A>
    ensures { IfOk result (λ v. arms_of v.items ≡ spec.named_arms (entries_of entries.now) (bound_arms arms.now)) }
{
    let mut all = Items::new(alloc);
    for next in arms {
        let when = named(alloc, entries, &next.when);
        let result = named(alloc, entries, &next.result);
        match arm(when, result) {
            Ok(arm) => all.push(arm)?,
            Err(failure) => return Err(failure),
        }
    }
    Ok(all.into_vec())
}
