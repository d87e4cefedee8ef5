//! Plans, written as text. Each function but the last writes at the end of a text.

ghost use Rattle.std.specs.Prelude.{◌≡◌, ◌++◌, IfOk, OnOk, map, option_map, codes, flat_map, if◌then◌else◌};
ghost use Rattle.std.specs.Fmt.{decimal};
ghost use Rattle.row_ast.specs.View.{expr_of};
ghost use Rattle.algebra.specs.View.{step_of};
ghost use Rattle.plan_texts.specs.PlanTexts as spec;
ghost use Rattle.plan_texts.specs.View.{on_of, plan_code_of, plan_entry_of, plan_of};

use crate::plan::{OnCondition, Plan, PlanCode, PlanEntry, PlanStep, SortColumn};
use algebra::Step;
use expr::{Access, CodeStep, Method};
use expr_texts::push_expr;
use itoa::Buffer;
use memory::{Heap, Text, push_number, push_str};
use row_ast::Expr;
use row_terms::Branch;
use std::alloc::AllocError;

// A cost.
fn push_cost<A: Heap>(out: &mut Vec<u8, A>, n: u128) -> Result<(), AllocError>
    ensures { OnOk result (out.new.items ≡ out.old.items ++ decimal n) }
{
    let mut buffer = Buffer::new();
    push_str(out, buffer.format(n))
}

// ---- names

// The name of that number, from 1; nothing where there is none.
fn push_name<A: Heap>(
    out: &mut Vec<u8, A>,
    names: &[Text<A>],
    number: u64,
) -> Result<(), AllocError>
    ensures { OnOk result (out.new.items ≡ out.old.items ++ spec.or_nothing (spec.item_at names.now number)) }
{
    if number == 0 {
        return Ok(());
    }
    match names.get((number - 1) as usize) {
        Some(name) => push_str(out, name.as_str()),
        None => Ok(()),
    }
}

// The alias of an entry.
fn push_alias<A: Heap>(
    out: &mut Vec<u8, A>,
    entries: &[PlanEntry<A>],
    entry: u64,
) -> Result<(), AllocError>
    ensures { OnOk result (out.new.items ≡ out.old.items ++ spec.alias (map plan_entry_of entries.now) entry) }
{
    if entry == 0 {
        return Ok(());
    }
    match entries.get((entry - 1) as usize) {
        Some(found) => push_str(out, found.alias.as_str()),
        None => Ok(()),
    }
}

// The name of a column of an entry.
fn push_column_name<A: Heap>(
    out: &mut Vec<u8, A>,
    entries: &[PlanEntry<A>],
    entry: u64,
    column: u64,
) -> Result<(), AllocError>
    ensures { OnOk result (out.new.items ≡ out.old.items ++ spec.column_name (map plan_entry_of entries.now) entry column) }
{
    if entry == 0 {
        return Ok(());
    }
    match entries.get((entry - 1) as usize) {
        Some(found) => push_name(out, found.columns.as_slice(), column),
        None => Ok(()),
    }
}

// ---- the code

// The access to an entry.
fn push_access<A: Heap>(
    out: &mut Vec<u8, A>,
    entries: &[PlanEntry<A>],
    entry: u64,
    access: Access,
) -> Result<(), AllocError>
    ensures { OnOk result (out.new.items ≡ out.old.items ++ spec.access_text (map plan_entry_of entries.now) entry access) }
{
    match access {
        Access::Full => push_str(out, "full"),
        Access::Index { column } => {
            push_str(out, "index ")?;
            push_column_name(out, entries, entry, column)
        }
        Access::Range { column, bound } => {
            push_str(out, "index ")?;
            push_column_name(out, entries, entry, column)?;
            push_str(out, " by ")?;
            push_number(out, bound)
        }
    }
}

// The entry of a step and the access to it.
fn push_scan<A: Heap>(
    out: &mut Vec<u8, A>,
    entries: &[PlanEntry<A>],
    step: CodeStep,
) -> Result<(), AllocError>
    ensures { OnOk result (out.new.items ≡ out.old.items ++ spec.scan_text (map plan_entry_of entries.now) step) }
{
    push_alias(out, entries, step.entry)?;
    push_str(out, " ")?;
    push_access(out, entries, step.entry, step.access)
}

// The method of a join, and its conjunct.
fn push_method<A: Heap>(out: &mut Vec<u8, A>, method: Method) -> Result<(), AllocError>
    ensures { OnOk result (out.new.items ≡ out.old.items ++ spec.method_text method) }
{
    match method {
        Method::Nested => push_str(out, "nested "),
        Method::Hash { conjunct } => {
            push_str(out, "hash ")?;
            push_number(out, conjunct)?;
            push_str(out, " ")
        }
        Method::Merge { conjunct } => {
            push_str(out, "merge ")?;
            push_number(out, conjunct)?;
            push_str(out, " ")
        }
    }
}

// The word before a left join, or nothing.
fn left_word(is_left: bool) -> &'static str
    ensures { result.now ≡ spec.left_word is_left }
{
    if is_left { "left " } else { "" }
}

// A line for each step after the first.
fn push_joins<A: Heap>(
    out: &mut Vec<u8, A>,
    entries: &[PlanEntry<A>],
    joins: &[PlanStep],
) -> Result<(), AllocError>
    ensures { OnOk result (out.new.items ≡ out.old.items ++ spec.text_of_lines (map (spec.join_text (map plan_entry_of entries.now)) joins.now)) }
{
    for join in joins {
        push_str(out, left_word(join.is_left))?;
        push_method(out, join.step.method)?;
        push_scan(out, entries, join.step)?;
        push_str(out, "\n")?;
    }
    Ok(())
}

// A line for each step of the code.
fn push_code<A: Heap>(
    out: &mut Vec<u8, A>,
    entries: &[PlanEntry<A>],
    code: &PlanCode<A>,
) -> Result<(), AllocError>
    ensures { OnOk result (out.new.items ≡ out.old.items ++ spec.text_of_lines (spec.code_lines (map plan_entry_of entries.now) (plan_code_of code.now))) }
{
    match code {
        PlanCode::Empty => push_str(out, "empty\n"),
        PlanCode::Steps(steps) => match steps.as_slice() {
            [] => Ok(()),
            [first, joins @ ..] => {
                push_str(out, "first ")?;
                push_scan(out, entries, first.step)?;
                push_str(out, "\n")?;
                push_joins(out, entries, joins)
            }
        },
    }
}

// The line of a last sort, if there is one.
fn push_sort<A: Heap>(
    out: &mut Vec<u8, A>,
    entries: &[PlanEntry<A>],
    sort: Option<SortColumn>,
) -> Result<(), AllocError>
    ensures { OnOk result (out.new.items ≡ out.old.items ++ spec.text_of_lines (spec.sort_lines (map plan_entry_of entries.now) sort)) }
{
    match sort {
        None => Ok(()),
        Some(sort) => {
            push_str(out, "sort ")?;
            push_alias(out, entries, sort.entry)?;
            push_str(out, ".")?;
            push_column_name(out, entries, sort.entry, sort.column)?;
            push_str(out, "\n")
        }
    }
}

// ---- the trail

// The digit of a branch.
fn branch_digit(branch: Branch) -> u8
    ensures { result ≡ spec.branch_digit branch }
{
    match branch {
        Branch::First => b'0',
        Branch::Second => b'1',
    }
}

// A digit for each branch.
fn push_branches<A: Heap>(out: &mut Vec<u8, A>, path: &[Branch]) -> Result<(), AllocError>
    ensures { OnOk result (out.new.items ≡ out.old.items ++ map spec.branch_digit path.now) }
{
    for branch in path {
        out.push(branch_digit(*branch))?;
    }
    Ok(())
}

// A dot for the root, else a digit for each branch.
fn push_path<A: Heap>(out: &mut Vec<u8, A>, path: &[Branch]) -> Result<(), AllocError>
    ensures { OnOk result (out.new.items ≡ out.old.items ++ spec.path_text path.now) }
{
    match path {
        [] => push_str(out, "."),
        [_, ..] => push_branches(out, path),
    }
}

// The arguments of a step, each after a space.
fn push_arguments<A: Heap>(out: &mut Vec<u8, A>, arguments: &[u64]) -> Result<(), AllocError>
    ensures { OnOk result (out.new.items ≡ out.old.items ++ flat_map spec.argument_text arguments.now) }
{
    for argument in arguments {
        push_str(out, " ")?;
        push_number(out, *argument)?;
    }
    Ok(())
}

// A minus, or nothing.
fn reverse_sign(is_reverse: bool) -> &'static str
    ensures { result.now ≡ if is_reverse then codes "-" else codes "" }
{
    if is_reverse { "-" } else { "" }
}

// A step of the trail.
fn push_step<A: Heap>(out: &mut Vec<u8, A>, step: &Step<A>) -> Result<(), AllocError>
    ensures { OnOk result (out.new.items ≡ out.old.items ++ spec.step_text (step_of step.now)) }
{
    push_number(out, step.rule)?;
    push_str(out, reverse_sign(step.is_reverse))?;
    push_str(out, " ")?;
    push_path(out, step.path.as_slice())?;
    push_arguments(out, step.arguments.as_slice())
}

// A line for each step of the trail.
fn push_trail<A: Heap>(out: &mut Vec<u8, A>, trail: &[Step<A>]) -> Result<(), AllocError>
    ensures { OnOk result (out.new.items ≡ out.old.items ++ spec.text_of_lines (map spec.step_text (map step_of trail.now))) }
{
    for step in trail {
        push_step(out, step)?;
        push_str(out, "\n")?;
    }
    Ok(())
}

// ---- the plan

// A line for each filter, numbered from 1 on.
fn push_filters<A: Heap>(out: &mut Vec<u8, A>, filters: &[Expr<A>]) -> Result<(), AllocError>
    ensures { OnOk result (out.new.items ≡ out.old.items ++ spec.text_of_lines (spec.filter_lines 1 (map expr_of filters.now))) }
{
    for (index, filter) in filters.iter().enumerate() {
        push_str(out, "filter ")?;
        push_number(out, index as u64 + 1)?;
        push_str(out, " ")?;
        push_expr(out, filter)?;
        push_str(out, "\n")?;
    }
    Ok(())
}

// The ON of an entry.
fn push_on<A: Heap>(
    out: &mut Vec<u8, A>,
    entries: &[PlanEntry<A>],
    on: &OnCondition<A>,
) -> Result<(), AllocError>
    ensures { OnOk result (out.new.items ≡ out.old.items ++ spec.on_text (map plan_entry_of entries.now) (on_of on.now)) }
{
    push_str(out, "on ")?;
    push_alias(out, entries, on.entry)?;
    push_str(out, " ")?;
    push_expr(out, &on.condition)
}

// A line for each ON.
fn push_ons<A: Heap>(
    out: &mut Vec<u8, A>,
    entries: &[PlanEntry<A>],
    ons: &[OnCondition<A>],
) -> Result<(), AllocError>
    ensures { OnOk result (out.new.items ≡ out.old.items ++ spec.text_of_lines (map (spec.on_text (map plan_entry_of entries.now)) (map on_of ons.now))) }
{
    for on in ons {
        push_on(out, entries, on)?;
        push_str(out, "\n")?;
    }
    Ok(())
}

/// The text of a plan, its columns and entries by the names of the query's entries.
pub fn write_plan<A: Heap>(
    alloc: A,
    entries: &[PlanEntry<A>],
    plan: &Plan<A>,
) -> Result<Vec<u8, A>, AllocError>
    ensures { IfOk result (λ v. v.items ≡ spec.plan_text (map plan_entry_of entries.now) (plan_of plan.now)) }
{
    let mut out = Vec::new(alloc);
    push_str(&mut out, "cost ")?;
    push_cost(&mut out, plan.cost)?;
    push_str(&mut out, "\n")?;
    push_filters(&mut out, plan.filters.as_slice())?;
    push_ons(&mut out, entries, plan.ons.as_slice())?;
    push_code(&mut out, entries, &plan.code)?;
    push_sort(&mut out, entries, plan.sort)?;
    push_str(&mut out, "trail\n")?;
    push_trail(&mut out, plan.trail.as_slice())?;
    Ok(out)
}
