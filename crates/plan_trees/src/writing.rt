//! Trees, written as text.

ghost use Rattle.std.specs.Prelude.{◌≡◌, ◌++◌, ◌+◌, ◌<◌, ◌^◌, IfOk, OnOk, length, map, reverse};
ghost use Rattle.plan_texts.specs.View.{plan_code_of, plan_entry_of, plan_of};
ghost use Rattle.plan_trees.specs.PlanTrees as spec;
ghost use Rattle.plan_trees.specs.View.{node_of, source_of};

use crate::details::push_details;
use crate::nodes::{push_end, push_indentation, push_start};
use crate::source::{Node, Source};
use crate::titles::{push_column, push_title};
use memory::{Heap, Items, push_str};
use plan_texts::{Plan, PlanCode, PlanEntry, PlanStep};
use std::alloc::AllocError;

// A node with its filters.
fn push_node<A: Heap>(
    out: &mut Vec<u8, A>,
    source: &Source<'_, A>,
    node: &Node<'_>,
) -> Result<(), AllocError>
    ensures { OnOk result (out.new.items ≡ out.old.items ++ spec.node_text (source_of source.now) (node_of node.now)) }
{
    push_start(out, node.depth)?;
    push_title(out, source, node)?;
    push_end(out, source.plan.cost, node.depth)?;
    push_details(out, source.entries, source.plan.filters.as_slice(), node)
}

// The tree of steps, of which the last is first.
fn push_steps<A: Heap>(
    out: &mut Vec<u8, A>,
    source: &Source<'_, A>,
    depth: u64,
    steps: &[PlanStep],
) -> Result<(), AllocError>
    requires { depth + length steps.now < 2 ^ 64 }
    ensures { OnOk result (out.new.items ≡ out.old.items ++ spec.steps_text (source_of source.now) depth steps.now) }
{
    match steps {
        [] => Ok(()),
        [step] => {
            let scan = Node {
                is_scan: true,
                step: *step,
                before: &[],
                depth,
            };
            push_node(out, source, &scan)
        }
        [step, before @ ..] => {
            let join = Node {
                is_scan: false,
                step: *step,
                before,
                depth,
            };
            push_node(out, source, &join)?;
            push_steps(out, source, depth + 1, before)?;
            let scan = Node {
                is_scan: true,
                step: *step,
                before,
                depth: depth + 1,
            };
            push_node(out, source, &scan)
        }
    }
}

// Steps, the last first.
fn reversed<A: Heap>(alloc: A, steps: &[PlanStep]) -> Result<Vec<PlanStep, A>, AllocError>
    ensures { IfOk result (λ all. all.items ≡ reverse steps.now) }
{
    let mut all = Vec::new(alloc);
    all.extend_from_slice(steps)?;
    all.reverse();
    Ok(all)
}

// The tree of a code.
fn push_code<A: Heap>(
    alloc: A,
    out: &mut Vec<u8, A>,
    source: &Source<'_, A>,
    depth: u64,
) -> Result<(), AllocError>
    requires { depth < 2 }
    ensures { OnOk result (out.new.items ≡ out.old.items ++ spec.code_text (source_of source.now) depth (source_of source.now).plan.code) }
{
    match &source.plan.code {
        PlanCode::Empty => {
            push_start(out, depth)?;
            push_str(out, "Result")?;
            push_end(out, source.plan.cost, depth)?;
            push_indentation(out, depth)?;
            push_str(out, "  One-Time Filter: false\n")
        }
        PlanCode::Steps(steps) => {
            let all = reversed(alloc, steps.as_slice())?;
            push_steps(out, source, depth, all.as_slice())
        }
    }
}

// The tree of a plan, a last sort at its root.
fn push_sorted<A: Heap>(
    alloc: A,
    out: &mut Vec<u8, A>,
    source: &Source<'_, A>,
) -> Result<(), AllocError>
    ensures { OnOk result (out.new.items ≡ out.old.items ++ spec.sorted_text (source_of source.now) (source_of source.now).plan.sort) }
{
    match source.plan.sort {
        None => push_code(alloc, out, source, 0),
        Some(sort) => {
            push_str(out, "Sort  ")?;
            push_column(out, source, sort.entry, sort.column)?;
            push_end(out, source.plan.cost, 0)?;
            push_code(alloc, out, source, 1)
        }
    }
}

/// The tree of a plan, by the entries of its query and the names of their tables (PostgreSQL: EXPLAIN).
pub fn write_tree<A: Heap>(
    alloc: A,
    entries: &[PlanEntry<A>],
    tables: &[&str],
    plan: &Plan<A>,
) -> Result<Vec<u8, A>, AllocError>
    ensures { IfOk result (λ v. v.items ≡ spec.tree_text (map plan_entry_of entries.now) (map (λ t. t.now) tables.now) (plan_of plan.now)) }
{
    let source = Source {
        entries,
        tables,
        plan,
    };
    let mut out = Vec::new(alloc);
    push_sorted(alloc, &mut out, &source)?;
    Ok(out)
}
