//! Plans, read from text.

ghost use Rattle.std.specs.Prelude.{◌≡◌, IfOk, map, option_map, option_and_then};
ghost use Rattle.memory.specs.Gives.{Gives};
ghost use Rattle.plan_texts.specs.Reading as spec;
ghost use Rattle.plan_texts.specs.View.{draft_of, plan_entry_of, plan_of};

use crate::draft::Draft;
use crate::line::read_line;
use crate::lines::next_line;
use crate::plan::{Plan, PlanEntry};
use memory::{Failure, Heap};
use std::alloc::AllocError;

// The draft with one more line of the text, where the line may stand there.
fn with_text<A: Heap>(
    alloc: A,
    entries: &[PlanEntry<A>],
    draft: Draft<A>,
    line: &[u8],
) -> Result<Option<Draft<A>>, AllocError>
    ensures { IfOk result (λ d. option_map draft_of d ≡ option_and_then (spec.with_line (draft_of draft)) (spec.line_at (map plan_entry_of entries.now) line.now)) }
{
    match read_line(alloc, entries, line)? {
        Some(line) => draft.with_line(alloc, line),
        None => Ok(None),
    }
}

/// The plan of a text, its columns and entries found by the names of the query's entries; else the number of the first
/// unreadable line, from 1.
pub fn read_plan<A: Heap>(
    alloc: A,
    entries: &[PlanEntry<A>],
    text: &[u8],
) -> Result<Plan<A>, Failure<u64>>
    ensures { Gives plan_of result (spec.plan_at (map plan_entry_of entries.now) text.now) }
{
    let mut draft = Draft::Begun;
    let mut rest = text;
    let mut number = 1;
    while let Some(next) = next_line(rest) {
        match with_text(alloc, entries, draft, next.line)? {
            Some(longer) => draft = longer,
            None => return Err(Failure::Error(number)),
        }
        rest = next.rest;
        number += 1;
    }
    draft.finish(rest, number)
}
