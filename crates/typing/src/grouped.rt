//! Aggregates, and columns beside them, where they may not be.

ghost use Rattle.std.specs.Prelude.{◌≡◌};
ghost use Rattle.std.specs.List.{list_any};
ghost use Rattle.row_ast.specs.View.{expr_of, exprs, arms as arms_of};
ghost use Rattle.expr.specs.Bound.{is_column};
ghost use Rattle.scope.specs.View.{entries_of};
ghost use Rattle.typing.specs.Grouping as spec;

use expr::{ColumnId, is_column, least_of};
use memory::Heap;
use row_ast::{Arm, Expr};
use scope::{BindError, Entry, Scope, find_column};

/// True where a column is one of several.
pub fn is_among(id: ColumnId, group_by: &[ColumnId]) -> bool
    ensures { result ≡ list_any (is_column id) group_by.now }
{
    for other in group_by {
        if is_column(id, *other) {
            return true;
        }
    }
    false
}

fn misplaced_column(
    group_by: &[ColumnId],
    of_groups: bool,
    offset: u32,
    found: Result<ColumnId, BindError>,
) -> Option<u32>
    ensures { result ≡ spec.misplaced_column group_by.now of_groups offset found }
{
    if !of_groups {
        return None;
    }
    let Ok(id) = found else {
        return None;
    };
    if is_among(id, group_by) {
        None
    } else {
        Some(offset)
    }
}

fn misplaced_call(of_groups: bool, offset: u32, inner: Option<u32>) -> Option<u32>
    ensures { result ≡ spec.misplaced_call of_groups offset inner }
{
    if of_groups {
        inner
    } else {
        least_of(Some(offset), inner)
    }
}

/// The least offset of an aggregate, or of a column beside one, that is not allowed there. `of_groups`: the expression is in
/// an item or HAVING of a grouped query, outside aggregates.
#[cycle(misplaced)]
pub fn misplaced<A: Heap>(
    entries: &[Entry<'_, A>],
    scope: Scope,
    group_by: &[ColumnId],
    of_groups: bool,
    expression: &Expr<A>,
) -> Option<u32>
    ensures { result ≡ spec.misplaced (entries_of entries.now) scope group_by.now of_groups (expr_of expression.now) }
{
    match expression {
        Expr::Column(column) => {
            let found = find_column(entries, scope, column);
            misplaced_column(group_by, of_groups, column.offset, found)
        }
        Expr::Literal(_) | Expr::CurrentUser => None,
        Expr::Negate { operand, .. } => misplaced(entries, scope, group_by, of_groups, operand),
        Expr::Arithmetic { left, right, .. } => {
            let left = misplaced(entries, scope, group_by, of_groups, left);
            least_of(left, misplaced(entries, scope, group_by, of_groups, right))
        }
        Expr::Comparison { left, right, .. } => {
            let left = misplaced(entries, scope, group_by, of_groups, left);
            least_of(left, misplaced(entries, scope, group_by, of_groups, right))
        }
        Expr::Between {
            operand,
            low,
            high,
            ..
        } => {
            let operand = misplaced(entries, scope, group_by, of_groups, operand);
            let low = misplaced(entries, scope, group_by, of_groups, low);
            let high = misplaced(entries, scope, group_by, of_groups, high);
            least_of(operand, least_of(low, high))
        }
        Expr::In { operand, .. } => misplaced(entries, scope, group_by, of_groups, operand),
        Expr::IsNull { operand, .. } => misplaced(entries, scope, group_by, of_groups, operand),
        Expr::Not { operand, .. } => misplaced(entries, scope, group_by, of_groups, operand),
        Expr::And { members, .. } => {
            misplaced_members(entries, scope, group_by, of_groups, members)
        }
        Expr::Or { members, .. } => misplaced_members(entries, scope, group_by, of_groups, members),
        Expr::Cast { operand, .. } => misplaced(entries, scope, group_by, of_groups, operand),
        Expr::Case {
            arms,
            otherwise,
            ..
        } => {
            let arms = misplaced_arms(entries, scope, group_by, of_groups, arms);
            match otherwise {
                Some(value) => {
                    least_of(arms, misplaced(entries, scope, group_by, of_groups, value))
                }
                None => least_of(arms, None),
            }
        }
        Expr::CountStar { offset } => misplaced_call(of_groups, *offset, None),
        Expr::Call {
            offset,
            argument,
            ..
        } => {
            let inner = misplaced(entries, scope, group_by, false, argument);
            misplaced_call(of_groups, *offset, inner)
        }
    }
}

// The same of several expressions.
#[cycle(misplaced)]
fn misplaced_members<A: Heap>(
    entries: &[Entry<'_, A>],
    scope: Scope,
    group_by: &[ColumnId],
    of_groups: bool,
    members: &[Expr<A>],
) -> Option<u32>
    ensures { result ≡ spec.misplaced_members (entries_of entries.now) scope group_by.now of_groups (exprs members.now) }
{
    let mut known = None;
    for member in members {
        known = least_of(
            known,
            misplaced(entries, scope, group_by, of_groups, member),
        );
    }
    known
}

// The same of the arms of a CASE.
#[cycle(misplaced)]
fn misplaced_arms<A: Heap>(
    entries: &[Entry<'_, A>],
    scope: Scope,
    group_by: &[ColumnId],
    of_groups: bool,
    arms: &[Arm<A>],
) -> Option<u32>
    ensures { result ≡ spec.misplaced_arms (entries_of entries.now) scope group_by.now of_groups (arms_of arms.now) }
{
    let mut known = None;
    for arm in arms {
        let when = misplaced(entries, scope, group_by, of_groups, &arm.when);
        let result = misplaced(entries, scope, group_by, of_groups, &arm.result);
        known = least_of(known, least_of(when, result));
    }
    known
}
