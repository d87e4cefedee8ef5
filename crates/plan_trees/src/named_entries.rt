//! The entries that a condition names.

ghost use Rattle.std.specs.Prelude.{◌≡◌, ◌∷◌, ◌&&◌, map};
ghost use Rattle.row_ast.specs.Ast as ast;
ghost use Rattle.row_ast.specs.View.{arms as arms_of, column_ref_of, expr_of, exprs};
ghost use Rattle.plan_texts.specs.Columns.{arms_columns, members_columns};
ghost use Rattle.plan_texts.specs.View.{plan_entry_of};
ghost use Rattle.plan_trees.specs.PlanTrees as spec;

use crate::names::is_alias_of;
use memory::Heap;
use plan_texts::{PlanEntry, PlanStep};
use row_ast::{Arm, ColumnRef, Expr};

// True where the alias before a column, if there is one, is of the entry of the step or of one before it.
fn is_of<A: Heap>(
    entries: &[PlanEntry<A>],
    step: PlanStep,
    before: &[PlanStep],
    column: &ColumnRef<A>,
) -> bool
    ensures { result ≡ spec.is_of (map plan_entry_of entries.now) (step ∷ before.now) (column_ref_of column.now).table }
{
    match &column.table {
        Some(alias) => is_alias_of(entries, step, before, alias.as_str()),
        None => true,
    }
}

// True where both are.
fn both(a: bool, b: bool) -> bool
    ensures { result ≡ (a && b) }
{
    a && b
}

/// True where each entry that an expression names is that of the step or of one before it.
#[cycle(named)]
pub(crate) fn names_only<A: Heap>(
    entries: &[PlanEntry<A>],
    step: PlanStep,
    before: &[PlanStep],
    expression: &Expr<A>,
) -> bool
    ensures { result ≡ spec.names_only (map plan_entry_of entries.now) (step ∷ before.now) (expr_of expression.now) }
{
    match expression {
        Expr::Column(column) => is_of(entries, step, before, column),
        Expr::Literal(_) | Expr::CurrentUser | Expr::CountStar { .. } => true,
        Expr::Negate { operand, .. } => names_only(entries, step, before, operand),
        Expr::Arithmetic { left, right, .. } => {
            let left = names_only(entries, step, before, left);
            both(left, names_only(entries, step, before, right))
        }
        Expr::Comparison { left, right, .. } => {
            let left = names_only(entries, step, before, left);
            both(left, names_only(entries, step, before, right))
        }
        Expr::Between {
            operand,
            low,
            high,
            ..
        } => {
            let operand = names_only(entries, step, before, operand);
            let low = names_only(entries, step, before, low);
            let high = names_only(entries, step, before, high);
            both(operand, both(low, high))
        }
        Expr::In { operand, .. } => names_only(entries, step, before, operand),
        Expr::IsNull { operand, .. } => names_only(entries, step, before, operand),
        Expr::Not { operand, .. } => names_only(entries, step, before, operand),
        Expr::And { members, .. } => members_named(entries, step, before, members),
        Expr::Or { members, .. } => members_named(entries, step, before, members),
        Expr::Cast { operand, .. } => names_only(entries, step, before, operand),
        Expr::Case {
            arms,
            otherwise,
            ..
        } => {
            let arms = arms_named(entries, step, before, arms);
            match otherwise {
                Some(value) => both(arms, names_only(entries, step, before, value)),
                None => arms,
            }
        }
        Expr::Call { argument, .. } => names_only(entries, step, before, argument),
    }
}

// The same of several expressions.
#[cycle(named)]
fn members_named<A: Heap>(
    entries: &[PlanEntry<A>],
    step: PlanStep,
    before: &[PlanStep],
    members: &[Expr<A>],
) -> bool
    ensures { result ≡ members_columns (λ (c : ast.ColumnRef). spec.is_of (map plan_entry_of entries.now) (step ∷ before.now) c.table) (exprs members.now) }
{
    let mut known = true;
    for member in members {
        known = both(known, names_only(entries, step, before, member));
    }
    known
}

// The same of the arms of a CASE.
#[cycle(named)]
fn arms_named<A: Heap>(
    entries: &[PlanEntry<A>],
    step: PlanStep,
    before: &[PlanStep],
    arms: &[Arm<A>],
) -> bool
    ensures { result ≡ arms_columns (λ (c : ast.ColumnRef). spec.is_of (map plan_entry_of entries.now) (step ∷ before.now) c.table) (arms_of arms.now) }
{
    let mut known = true;
    for arm in arms {
        let when = names_only(entries, step, before, &arm.when);
        let result = names_only(entries, step, before, &arm.result);
        known = both(known, both(when, result));
    }
    known
}
