//! The content of a line.

ghost use Rattle.std.specs.Prelude.{◌≡◌, ◌∷◌, ◌==◌, IfOk, map, option_and_then, option_map};
ghost use Rattle.std.specs.List.{slice_split};
ghost use Rattle.plan_texts.specs.Reading as spec;
ghost use Rattle.plan_texts.specs.View.{line_of, plan_entry_of, texts_of};

use crate::code::{read_hash, read_left, read_merge, read_scan};
use crate::named_columns::columns_found;
use crate::names::{column_number, entry_number};
use crate::parts::{cut, dotted, parts_of};
use crate::plan::{PlanEntry, PlanStep, SortColumn};
use crate::steps::read_step;
use algebra::Step;
use expr::{Access, CodeStep, Method};
use expr_texts::read_expr;
use memory::Heap;
use row_ast::Expr;
use std::alloc::AllocError;
use value::{read_number, read_wide_number};

/// A line of a plan.
#[derive(Drop)]
pub enum Line<A: Heap> {
    /// The cost.
    Cost(u128),
    /// A filter, by its number in the planning list.
    Filter {
        number: u64,
        filter: Box<Expr<A>, A>,
    },
    /// The ON of an entry.
    On {
        entry: u64,
        condition: Box<Expr<A>, A>,
    },
    /// No row is read.
    Empty,
    /// The first step of the code.
    First(CodeStep),
    /// A further step of the code.
    Join(PlanStep),
    /// The last sort.
    Sort(SortColumn),
    /// The start of the trail.
    Trail,
    /// A step of the trail.
    Step(Step<A>),
}

// The line of a filter, after its word.
fn read_filter<A: Heap>(
    alloc: A,
    entries: &[PlanEntry<A>],
    rest: &str,
) -> Result<Option<Line<A>>, AllocError>
    ensures { IfOk result (λ line. option_map line_of line ≡ spec.filter_at (map plan_entry_of entries.now) (spec.cut rest.now)) }
{
    let Some((number, source)) = cut(rest) else {
        return Ok(None);
    };
    let Some(number) = read_number(number) else {
        return Ok(None);
    };
    let Some(filter) = read_expr(alloc, source)? else {
        return Ok(None);
    };
    if !columns_found(entries, &filter) {
        return Ok(None);
    }
    Ok(Some(Line::Filter { number, filter }))
}

// The line of an ON, after its word.
fn read_on<A: Heap>(
    alloc: A,
    entries: &[PlanEntry<A>],
    rest: &str,
) -> Result<Option<Line<A>>, AllocError>
    ensures { IfOk result (λ line. option_map line_of line ≡ spec.on_at (map plan_entry_of entries.now) (spec.cut rest.now)) }
{
    let Some((alias, source)) = cut(rest) else {
        return Ok(None);
    };
    let Some(entry) = entry_number(entries, alias) else {
        return Ok(None);
    };
    let Some(condition) = read_expr(alloc, source)? else {
        return Ok(None);
    };
    if !columns_found(entries, &condition) {
        return Ok(None);
    }
    Ok(Some(Line::On { entry, condition }))
}

// The line of the cost, after its word.
fn cost_line<A: Heap>(parts: &[&str]) -> Option<Line<A>>
    ensures { option_map line_of result ≡ spec.cost_at (texts_of parts.now) }
{
    match parts {
        [cost] => Some(Line::Cost(read_wide_number(cost)?)),
        _ => None,
    }
}

// The column of a last sort.
fn read_sort<A: Heap>(entries: &[PlanEntry<A>], name: &str) -> Option<SortColumn>
    ensures { result ≡ spec.sort_column_at (map plan_entry_of entries.now) (slice_split (λ b. b == 46) name.now) }
{
    let (alias, column) = dotted(name)?;
    let entry = entry_number(entries, alias)?;
    let column = column_number(entries, entry, column)?;
    Some(SortColumn { entry, column })
}

// The line of a last sort, after its word.
fn sort_line<A: Heap>(entries: &[PlanEntry<A>], parts: &[&str]) -> Option<Line<A>>
    ensures { option_map line_of result ≡ spec.sort_at (map plan_entry_of entries.now) (texts_of parts.now) }
{
    match parts {
        [name] => Some(Line::Sort(read_sort(entries, name)?)),
        _ => None,
    }
}

// The line of a join that is no left join, by the step that was read.
fn join_line<A: Heap>(step: Option<CodeStep>) -> Option<Line<A>>
    ensures { option_map line_of result ≡ option_map spec.inner_line step }
{
    let step = step?;
    Some(Line::Join(PlanStep {
        step,
        is_left: false,
    }))
}

// The line of a left join, by the step that was read: all rows are.
fn left_line<A: Heap>(step: Option<CodeStep>) -> Option<Line<A>>
    ensures { option_map line_of result ≡ option_and_then spec.left_line step }
{
    let step = step?;
    match step.access {
        Access::Full => Some(Line::Join(PlanStep {
            step,
            is_left: true,
        })),
        _ => None,
    }
}

// A step of the trail.
fn step_line<A: Heap>(alloc: A, parts: &[&str]) -> Result<Option<Line<A>>, AllocError>
    ensures { IfOk result (λ line. option_map line_of line ≡ option_map spec.StepLine (spec.step_at (texts_of parts.now))) }
{
    match read_step(alloc, parts)? {
        Some(step) => Ok(Some(Line::Step(step))),
        None => Ok(None),
    }
}

// A line that has no expression, by its parts.
fn read_other<A: Heap>(
    alloc: A,
    entries: &[PlanEntry<A>],
    parts: &[&str],
) -> Result<Option<Line<A>>, AllocError>
    ensures { IfOk result (λ line. option_map line_of line ≡ spec.other_line (map plan_entry_of entries.now) (texts_of parts.now)) }
{
    let [word, more @ ..] = parts else {
        return Ok(None);
    };
    if *word == "cost" {
        Ok(cost_line(more))
    } else if *word == "first" {
        match read_scan(entries, Method::Nested, more) {
            Some(step) => Ok(Some(Line::First(step))),
            None => Ok(None),
        }
    } else if *word == "nested" {
        Ok(join_line(read_scan(entries, Method::Nested, more)))
    } else if *word == "hash" {
        Ok(join_line(read_hash(entries, more)))
    } else if *word == "merge" {
        Ok(join_line(read_merge(entries, more)))
    } else if *word == "left" {
        Ok(left_line(read_left(entries, more)))
    } else if *word == "sort" {
        Ok(sort_line(entries, more))
    } else {
        step_line(alloc, parts)
    }
}

// The content of a line that is no single word.
fn read_words<A: Heap>(
    alloc: A,
    entries: &[PlanEntry<A>],
    line: &str,
) -> Result<Option<Line<A>>, AllocError>
    ensures { IfOk result (λ l. option_map line_of l ≡ spec.after_word (map plan_entry_of entries.now) (spec.cut line.now) (spec.parts line.now)) }
{
    if let Some((word, rest)) = cut(line) {
        if word == "filter" {
            return read_filter(alloc, entries, rest);
        }
        if word == "on" {
            return read_on(alloc, entries, rest);
        }
    }
    let parts = parts_of(alloc, line)?;
    read_other(alloc, entries, parts.as_slice())
}

// The content of a line.
fn read_content<A: Heap>(
    alloc: A,
    entries: &[PlanEntry<A>],
    line: &str,
) -> Result<Option<Line<A>>, AllocError>
    ensures { IfOk result (λ l. option_map line_of l ≡ spec.content_at (map plan_entry_of entries.now) line.now) }
{
    if line == "empty" {
        Ok(Some(Line::Empty))
    } else if line == "trail" {
        Ok(Some(Line::Trail))
    } else {
        read_words(alloc, entries, line)
    }
}

/// The content of a line in UTF-8, if it is a line of a plan.
pub fn read_line<A: Heap>(
    alloc: A,
    entries: &[PlanEntry<A>],
    line: &[u8],
) -> Result<Option<Line<A>>, AllocError>
    ensures { IfOk result (λ l. option_map line_of l ≡ spec.line_at (map plan_entry_of entries.now) line.now) }
{
    match std::str::from_utf8(line) {
        Ok(text) => read_content(alloc, entries, text),
        Err(_) => Ok(None),
    }
}
