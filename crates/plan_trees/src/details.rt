//! The filters that are tested at a node.

ghost use Rattle.std.specs.Prelude.{◌≡◌, ◌++◌, [], OnOk, map, if◌then◌else◌};
ghost use Rattle.row_ast.specs.View.{expr_of};
ghost use Rattle.plan_texts.specs.View.{plan_entry_of};
ghost use Rattle.plan_trees.specs.PlanTrees as spec;
ghost use Rattle.plan_trees.specs.View.{node_of};

use crate::named_entries::names_only;
use crate::nodes::push_indentation;
use crate::source::Node;
use expr::{Access, Method};
use expr_texts::push_expr;
use memory::{Heap, push_str};
use plan_texts::{PlanEntry, PlanStep};
use row_ast::Expr;
use std::alloc::AllocError;

// True where an inner join hashes or merges on the filter of that number.
fn method_shows(method: Method, number: u64) -> bool
    ensures { result ≡ spec.method_shows method number }
{
    match method {
        Method::Nested => false,
        Method::Hash { conjunct } => conjunct == number,
        Method::Merge { conjunct } => conjunct == number,
    }
}

// True where the filter of that number bounds the part of an index.
fn access_shows(access: Access, number: u64) -> bool
    ensures { result ≡ spec.access_shows access number }
{
    match access {
        Access::Full => false,
        Access::Index { .. } => false,
        Access::Range { bound, .. } => bound == number,
    }
}

// True where the titles of a step show the filter of that number.
fn is_shown(step: PlanStep, number: u64) -> bool
    ensures { result ≡ spec.is_shown step number }
{
    let by_join = !step.is_left && method_shows(step.step.method, number);
    by_join || access_shows(step.step.access, number)
}

// True where a filter is tested at the last of these steps, or before it.
fn is_tested_by<A: Heap>(entries: &[PlanEntry<A>], steps: &[PlanStep], filter: &Expr<A>) -> bool
    ensures { result ≡ spec.is_tested_by (map plan_entry_of entries.now) steps.now (expr_of filter.now) }
{
    match steps {
        [] => false,
        [step, before @ ..] => names_only(entries, *step, before, filter),
    }
}

// True where a filter that is tested at a step is tested by its scan.
fn is_of_scan<A: Heap>(entries: &[PlanEntry<A>], node: &Node<'_>, filter: &Expr<A>) -> bool
    ensures { result ≡ spec.is_of_scan (map plan_entry_of entries.now) node.now.step node.now.before.now (expr_of filter.now) }
{
    match node.before {
        [] => true,
        [_, ..] => !node.step.is_left && names_only(entries, node.step, &[], filter),
    }
}

// True where a filter is tested first at the step of a node.
fn is_tested_first<A: Heap>(entries: &[PlanEntry<A>], node: &Node<'_>, filter: &Expr<A>) -> bool
    ensures { result ≡ spec.is_tested_first (map plan_entry_of entries.now) (node_of node.now) (expr_of filter.now) }
{
    names_only(entries, node.step, node.before, filter)
        && !is_tested_by(entries, node.before, filter)
}

// True where a filter that is tested first at the step of a node is tested there.
fn is_of_node<A: Heap>(entries: &[PlanEntry<A>], node: &Node<'_>, filter: &Expr<A>) -> bool
    ensures { result ≡ spec.is_of_node (map plan_entry_of entries.now) (node_of node.now) (expr_of filter.now) }
{
    let of_scan = is_of_scan(entries, node, filter);
    if node.is_scan { of_scan } else { !of_scan }
}

// True where the filter of that number is a detail of the node.
fn is_detail<A: Heap>(
    entries: &[PlanEntry<A>],
    node: &Node<'_>,
    number: u64,
    filter: &Expr<A>,
) -> bool
    ensures { result ≡ spec.is_detail (map plan_entry_of entries.now) (node_of node.now) number (expr_of filter.now) }
{
    let is_here = is_tested_first(entries, node, filter) && is_of_node(entries, node, filter);
    is_here && !is_shown(node.step, number)
}

// The word before a filter.
fn filter_word(node: &Node<'_>) -> &'static str
    ensures { result.now ≡ spec.filter_word (node_of node.now) }
{
    if node.is_scan || node.step.is_left {
        "Filter: "
    } else {
        "Join Filter: "
    }
}

// The line of a filter.
fn push_detail<A: Heap>(
    out: &mut Vec<u8, A>,
    node: &Node<'_>,
    filter: &Expr<A>,
) -> Result<(), AllocError>
    ensures { OnOk result (out.new.items ≡ out.old.items ++ spec.detail_text (node_of node.now) (expr_of filter.now)) }
{
    push_indentation(out, node.depth)?;
    push_str(out, "  ")?;
    push_str(out, filter_word(node))?;
    push_expr(out, filter)?;
    push_str(out, "\n")
}

// The line of the filter of that number, where it is a detail of the node.
fn push_if_detail<A: Heap>(
    out: &mut Vec<u8, A>,
    entries: &[PlanEntry<A>],
    node: &Node<'_>,
    number: u64,
    filter: &Expr<A>,
) -> Result<(), AllocError>
    ensures { OnOk result (out.new.items ≡ out.old.items ++ (if spec.is_detail (map plan_entry_of entries.now) (node_of node.now) number (expr_of filter.now) then spec.detail_text (node_of node.now) (expr_of filter.now) else [])) }
{
    let tested = is_detail(entries, node, number, filter);
    if tested {
        push_detail(out, node, filter)
    } else {
        Ok(())
    }
}

/// A line for each filter that is a detail of the node.
pub(crate) fn push_details<A: Heap>(
    out: &mut Vec<u8, A>,
    entries: &[PlanEntry<A>],
    filters: &[Expr<A>],
    node: &Node<'_>,
) -> Result<(), AllocError>
    ensures { OnOk result (out.new.items ≡ out.old.items ++ spec.details (map plan_entry_of entries.now) (node_of node.now) 1 (map expr_of filters.now)) }
{
    for (index, filter) in filters.iter().enumerate() {
        push_if_detail(out, entries, node, index as u64 + 1, filter)?;
    }
    Ok(())
}
