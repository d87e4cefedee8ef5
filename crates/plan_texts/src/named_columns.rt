//! The columns that a filter names.

ghost use Rattle.std.specs.Prelude.{◌≡◌, ◌&&◌, map};
ghost use Rattle.row_ast.specs.View.{arms as arms_of, column_ref_of, expr_of, exprs};
ghost use Rattle.plan_texts.specs.Columns.{all_columns, arms_columns, members_columns};
ghost use Rattle.plan_texts.specs.Reading.{is_found};
ghost use Rattle.plan_texts.specs.View.{plan_entry_of};

use crate::names::{column_number, entry_number};
use crate::plan::PlanEntry;
use memory::Heap;
use row_ast::{Arm, ColumnRef, Expr};

// True where a column is named by the alias of an entry and the name of a column of its table.
fn is_found<A: Heap>(entries: &[PlanEntry<A>], column: &ColumnRef<A>) -> bool
    ensures { result ≡ is_found (map plan_entry_of entries.now) (column_ref_of column.now) }
{
    let Some(alias) = &column.table else {
        return false;
    };
    match entry_number(entries, alias.as_str()) {
        Some(entry) => column_number(entries, entry, column.name.as_str()).is_some(),
        None => false,
    }
}

// True where both are.
fn both(a: bool, b: bool) -> bool
    ensures { result ≡ (a && b) }
{
    a && b
}

/// True where each column of an expression is named by the alias of an entry and the name of a column of its table.
#[cycle(found)]
pub(crate) fn columns_found<A: Heap>(entries: &[PlanEntry<A>], expression: &Expr<A>) -> bool
    ensures { result ≡ all_columns (is_found (map plan_entry_of entries.now)) (expr_of expression.now) }
{
    match expression {
        Expr::Column(column) => is_found(entries, column),
        Expr::Literal(_) | Expr::CurrentUser | Expr::CountStar { .. } => true,
        Expr::Negate { operand, .. } => columns_found(entries, operand),
        Expr::Arithmetic { left, right, .. } => {
            let left = columns_found(entries, left);
            both(left, columns_found(entries, right))
        }
        Expr::Comparison { left, right, .. } => {
            let left = columns_found(entries, left);
            both(left, columns_found(entries, right))
        }
        Expr::Between {
            operand,
            low,
            high,
            ..
        } => {
            let operand = columns_found(entries, operand);
            let low = columns_found(entries, low);
            let high = columns_found(entries, high);
            both(operand, both(low, high))
        }
        Expr::In { operand, .. } => columns_found(entries, operand),
        Expr::IsNull { operand, .. } => columns_found(entries, operand),
        Expr::Not { operand, .. } => columns_found(entries, operand),
        Expr::And { members, .. } => members_found(entries, members),
        Expr::Or { members, .. } => members_found(entries, members),
        Expr::Cast { operand, .. } => columns_found(entries, operand),
        Expr::Case {
            arms,
            otherwise,
            ..
        } => {
            let arms = arms_found(entries, arms);
            match otherwise {
                Some(value) => both(arms, columns_found(entries, value)),
                None => arms,
            }
        }
        Expr::Call { argument, .. } => columns_found(entries, argument),
    }
}

// The same of several expressions.
#[cycle(found)]
fn members_found<A: Heap>(entries: &[PlanEntry<A>], members: &[Expr<A>]) -> bool
    ensures { result ≡ members_columns (is_found (map plan_entry_of entries.now)) (exprs members.now) }
{
    let mut known = true;
    for member in members {
        known = both(known, columns_found(entries, member));
    }
    known
}

// The same of the arms of a CASE.
#[cycle(found)]
fn arms_found<A: Heap>(entries: &[PlanEntry<A>], arms: &[Arm<A>]) -> bool
    ensures { result ≡ arms_columns (is_found (map plan_entry_of entries.now)) (arms_of arms.now) }
{
    let mut known = true;
    for arm in arms {
        let when = columns_found(entries, &arm.when);
        let result = columns_found(entries, &arm.result);
        known = both(known, both(when, result));
    }
    known
}
