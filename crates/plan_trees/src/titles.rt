//! The titles of nodes.

ghost use Rattle.std.specs.Prelude.{◌≡◌, ◌++◌, OnOk, map, codes, if◌then◌else◌};
ghost use Rattle.row_ast.specs.View.{expr_of};
ghost use Rattle.plan_texts.specs.View.{on_of, plan_of};
ghost use Rattle.plan_trees.specs.PlanTrees as spec;
ghost use Rattle.plan_trees.specs.View.{node_of, source_of};

use crate::names::{alias, column_name, table_name};
use crate::source::{Node, Source};
use expr::{Access, Method};
use expr_texts::push_expr;
use memory::{Heap, push_str};
use plan_texts::{OnCondition, Plan, PlanStep};
use row_ast::Expr;
use std::alloc::AllocError;

// The text of the filter of that number, from 1; nothing where there is none.
fn push_filter<A: Heap>(
    out: &mut Vec<u8, A>,
    filters: &[Expr<A>],
    number: u64,
) -> Result<(), AllocError>
    ensures { OnOk result (out.new.items ≡ out.old.items ++ spec.filter_text (map expr_of filters.now) number) }
{
    if number == 0 {
        return Ok(());
    }
    match filters.get((number - 1) as usize) {
        Some(filter) => push_expr(out, filter),
        None => Ok(()),
    }
}

// The text of the ON of an entry; nothing where it has none.
fn push_on<A: Heap>(
    out: &mut Vec<u8, A>,
    ons: &[OnCondition<A>],
    entry: u64,
) -> Result<(), AllocError>
    ensures { OnOk result (out.new.items ≡ out.old.items ++ spec.on_text (map on_of ons.now) entry) }
{
    for on in ons {
        if on.entry == entry {
            return push_expr(out, &on.condition);
        }
    }
    Ok(())
}

// The table of an entry, by its name and alias.
fn push_relation<A: Heap>(
    out: &mut Vec<u8, A>,
    source: &Source<'_, A>,
    entry: u64,
) -> Result<(), AllocError>
    ensures { OnOk result (out.new.items ≡ out.old.items ++ spec.relation (source_of source.now) entry) }
{
    let table = table_name(source.tables, entry);
    let own = alias(source.entries, entry);
    push_str(out, table)?;
    if own == table {
        return Ok(());
    }
    push_str(out, " ")?;
    push_str(out, own)
}

/// A column of an entry, in parentheses.
pub(crate) fn push_column<A: Heap>(
    out: &mut Vec<u8, A>,
    source: &Source<'_, A>,
    entry: u64,
    column: u64,
) -> Result<(), AllocError>
    ensures { OnOk result (out.new.items ≡ out.old.items ++ spec.column_text (source_of source.now) entry column) }
{
    push_str(out, "(")?;
    push_str(out, alias(source.entries, entry))?;
    push_str(out, ".")?;
    push_str(out, column_name(source.entries, entry, column))?;
    push_str(out, ")")
}

// The scan of an entry.
fn push_scan_title<A: Heap>(
    out: &mut Vec<u8, A>,
    source: &Source<'_, A>,
    entry: u64,
    access: Access,
) -> Result<(), AllocError>
    ensures { OnOk result (out.new.items ≡ out.old.items ++ spec.scan_title (source_of source.now) entry access) }
{
    match access {
        Access::Full => {
            push_str(out, "Seq Scan on ")?;
            push_relation(out, source, entry)
        }
        Access::Index { column } => {
            push_str(out, "Index Scan on ")?;
            push_relation(out, source, entry)?;
            push_str(out, "  ")?;
            push_column(out, source, entry, column)
        }
        Access::Range { bound, .. } => {
            push_str(out, "Index Scan on ")?;
            push_relation(out, source, entry)?;
            push_str(out, "  ")?;
            push_filter(out, source.plan.filters.as_slice(), bound)
        }
    }
}

// The method of a left join.
fn left_title(method: Method) -> &'static str
    ensures { result.now ≡ spec.left_title method }
{
    match method {
        Method::Nested => "Nested Loop Left Join",
        Method::Hash { .. } => "Hash Left Join",
        Method::Merge { .. } => "Merge Left Join",
    }
}

// The method of an inner join and its filter.
fn push_inner_title<A: Heap>(
    out: &mut Vec<u8, A>,
    filters: &[Expr<A>],
    method: Method,
) -> Result<(), AllocError>
    ensures { OnOk result (out.new.items ≡ out.old.items ++ spec.inner_title (map expr_of filters.now) method) }
{
    match method {
        Method::Nested => push_str(out, "Nested Loop"),
        Method::Hash { conjunct } => {
            push_str(out, "Hash Join  ")?;
            push_filter(out, filters, conjunct)
        }
        Method::Merge { conjunct } => {
            push_str(out, "Merge Join  ")?;
            push_filter(out, filters, conjunct)
        }
    }
}

// The join of a step.
fn push_join_title<A: Heap>(
    out: &mut Vec<u8, A>,
    plan: &Plan<A>,
    step: PlanStep,
) -> Result<(), AllocError>
    ensures { OnOk result (out.new.items ≡ out.old.items ++ spec.join_title (plan_of plan.now) step) }
{
    if step.is_left {
        push_str(out, left_title(step.step.method))?;
        push_str(out, "  ")?;
        push_on(out, plan.ons.as_slice(), step.step.entry)
    } else {
        push_inner_title(out, plan.filters.as_slice(), step.step.method)
    }
}

/// The title of a node.
pub(crate) fn push_title<A: Heap>(
    out: &mut Vec<u8, A>,
    source: &Source<'_, A>,
    node: &Node<'_>,
) -> Result<(), AllocError>
    ensures { OnOk result (out.new.items ≡ out.old.items ++ spec.title (source_of source.now) (node_of node.now)) }
{
    let step = node.step.step;
    if node.is_scan {
        push_scan_title(out, source, step.entry, step.access)
    } else {
        push_join_title(out, source.plan, node.step)
    }
}
