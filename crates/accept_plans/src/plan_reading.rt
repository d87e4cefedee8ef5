//! Plans read from texts, or the number of the first unreadable line.

use crate::rows::bytes_of;
use algebra::Step;
use expr::{Access, Method};
use memory::{Failure, Items, Text};
use plan_texts::{Plan, PlanCode, PlanEntry, PlanStep, read_plan};
use row_terms::Branch;
use std::alloc::{AllocError, AllocGlobal, Global};
use std::process::Abort;
use std::test::Fail;

// A text, and the plan or the unreadable line, with ` | ` between them. In the texts `;` stands for an LF.
const ROWS: &str = "\
cost 7;empty;trail; | 7, 0 filters, empty
cost 340282366920938463463374607431768211455;empty;trail; | 340282366920938463463374607431768211455, 0 filters, empty
cost 340282366920938463463374607431768211456;empty;trail; | line 1
cost 07;empty;trail; | line 1
 | line 1
; | line 1
cost 7 ;empty;trail; | line 1
cost 7;empty;trail | line 3
cost 7;empty; | line 3
cost 7;empty;trail;; | line 4
cost 7;empty;nested r full;trail; | line 3
cost 7;empty;sort r.id;trail; | 7, 0 filters, empty, sort 2.1
cost 7;filter 2 r.id;empty;trail; | line 2
cost 7;filter 1 (r.name = 'it''s; ''a'' line');filter 2 r.id=1;empty;trail; | 7, 2 filters, empty
cost 7;filter 1 r.id = ;empty;trail; | line 2
cost 7;filter 1 deal.region = 'x' AND r.region = 'x';empty;trail; | line 2
cost 7;filter 1 x.id = 1;empty;trail; | line 2
cost 7;filter 1 CASE WHEN r.id = 1 THEN id END = 1;empty;trail; | line 2
cost 7;first r full;trail; | 7, 0 filters, 2 full nested
cost 7;first x full;trail; | line 2
cost 7;first r index id by 0;hash 1 deal full;merge 2 r index name;trail; | 7, 0 filters, 2 range 1 0 nested, 1 full hash 1, 2 index 2 merge 2
cost 7;first r index region;trail; | line 2
cost 7;first deal full;nested r full;sort deal.region;trail;4- .;11 011 0 1; | 7, 0 filters, 1 full nested, 2 full nested, sort 1.3, 4 reverse, 11 left right right 0 1
cost 7;on r deal.region = r.id;first deal full;left hash 1 r full;trail; | 7, 0 filters, on 2, 1 full nested, 2 left full hash 1
cost 7;filter 1 deal.id = 1;on r r.id = 1;first deal full;left nested r full;trail; | 7, 1 filters, on 2, 1 full nested, 2 left full nested
cost 7;on x deal.region = r.id;empty;trail; | line 2
cost 7;on r deal.region = x.id;empty;trail; | line 2
cost 7;on r;empty;trail; | line 2
cost 7;on r deal.region = r.id;filter 1 r.id = 1;empty;trail; | line 3
cost 7;first deal full;left merge 1 r full;trail; | line 3
cost 7;first deal full;left nested r index id;trail; | line 3
cost 7;left nested r full;trail; | line 2
cost 7;first deal full;on r deal.id = r.id;trail; | line 3
cost 7;empty;trail;1 012; | line 4
cost 7;empty;trail;1 0 1 2 3; | line 4
cost 7;empty;trail;1 ; | line 4
";

fn entry(alloc: Global, alias: &str, names: &str) -> Result<PlanEntry<Global>, AllocError> {
    let mut columns = Items::new(alloc);
    for name in names.split(' ') {
        columns.push(Text::new(alloc, name)?)?;
    }
    Ok(PlanEntry {
        alias: Text::new(alloc, alias)?,
        columns,
    })
}

fn show_access(access: Access, out: &mut String) -> Result<(), AllocError> {
    match access {
        Access::Full => out.push_str("full"),
        Access::Index { column } => write!(out, "index {column}"),
        Access::Range { column, bound } => write!(out, "range {column} {bound}"),
    }
}

fn show_method(method: Method, out: &mut String) -> Result<(), AllocError> {
    match method {
        Method::Nested => out.push_str(" nested"),
        Method::Hash { conjunct } => write!(out, " hash {conjunct}"),
        Method::Merge { conjunct } => write!(out, " merge {conjunct}"),
    }
}

fn show_code(code: &PlanCode<Global>, out: &mut String) -> Result<(), AllocError> {
    match code {
        PlanCode::Empty => out.push_str(", empty"),
        PlanCode::Steps(steps) => {
            for PlanStep { step, is_left } in steps.as_slice() {
                write!(out, ", {} ", step.entry)?;
                if *is_left {
                    out.push_str("left ")?;
                }
                show_access(step.access, out)?;
                show_method(step.method, out)?;
            }
            Ok(())
        }
    }
}

fn show_step(step: &Step<Global>, out: &mut String) -> Result<(), AllocError> {
    write!(out, ", {}", step.rule)?;
    if step.is_reverse {
        out.push_str(" reverse")?;
    }
    for branch in step.path.as_slice() {
        out.push_str(match branch {
            Branch::First => " left",
            Branch::Second => " right",
        })?;
    }
    for argument in step.arguments.as_slice() {
        write!(out, " {argument}")?;
    }
    Ok(())
}

fn show_plan(plan: &Plan<Global>, out: &mut String) -> Result<(), AllocError> {
    write!(out, "{}, {} filters", plan.cost, plan.filters.len())?;
    for on in plan.ons.as_slice() {
        write!(out, ", on {}", on.entry)?;
    }
    show_code(&plan.code, out)?;
    if let Some(sort) = plan.sort {
        write!(out, ", sort {}.{}", sort.entry, sort.column)?;
    }
    for step in plan.trail.as_slice() {
        show_step(step, out)?;
    }
    Ok(())
}

fn read(
    rt: &(impl Abort + AllocGlobal),
    entries: &[PlanEntry<Global>],
    row: &str,
) -> Result<(), AllocError> {
    let (text, want) = row.split_once(" | ").unwrap_or((row, ""));
    let bytes = bytes_of(rt.alloc(), text)?;
    let mut got = String::new(rt.alloc());
    match read_plan(rt.alloc(), entries, bytes.as_slice()) {
        Ok(plan) => show_plan(&plan, &mut got)?,
        Err(Failure::Error(line)) => write!(got, "line {line}")?,
        Err(Failure::OutOfMemory) => return Err(AllocError),
    }
    assert_eq!(rt; got.as_str(), want, "{text}");
    Ok(())
}

#[test]
fn plans_are_read_from_texts(rt: HostRuntime) -> Result<(), Fail> {
    let mut entries = Vec::new(rt.alloc());
    entries.push(entry(rt.alloc(), "deal", "id name region")?)?;
    entries.push(entry(rt.alloc(), "r", "id name")?)?;
    assert!(rt; !ROWS.is_empty());
    for row in ROWS.lines() {
        read(&rt, entries.as_slice(), row)?;
    }
    Ok(())
}
