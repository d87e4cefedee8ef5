//! The texts of the plans of a bound query.

ghost use Rattle.std.specs.Prelude.{◌≡◌, IfOk};
ghost use Rattle.memory.specs.Gives.{Gives};
ghost use Rattle.scope.specs.View.{entries_of};
ghost use Rattle.plan_texts.specs.PlanTexts.{plan_text};
ghost use Rattle.plan_texts.specs.Reading.{plan_at};
ghost use Rattle.plan_texts.specs.View.{plan_of};
ghost use Rattle.bound_plans.specs.Entries as spec;

use crate::entries::plan_entries;
use memory::{Failure, Heap};
use plan_texts::{Plan, read_plan, write_plan};
use scope::Entry;
use std::alloc::AllocError;

/// The plan of a text for a query over the entries, with its filters, its code and its trail; else the number of the first
/// unreadable line, from 1.
pub fn read_trail<A: Heap>(
    alloc: A,
    entries: &[Entry<'_, A>],
    text: &[u8],
) -> Result<Plan<A>, Failure<u64>>
    ensures { Gives plan_of result (plan_at (spec.plan_entries (entries_of entries.now)) text.now) }
{
    let named = plan_entries(alloc, entries)?;
    read_plan(alloc, named.as_slice(), text)
}

/// The text of a plan of a query over the entries.
pub fn write_trail<A: Heap>(
    alloc: A,
    entries: &[Entry<'_, A>],
    plan: &Plan<A>,
) -> Result<Vec<u8, A>, AllocError>
    ensures { IfOk result (λ text. text.items ≡ plan_text (spec.plan_entries (entries_of entries.now)) (plan_of plan.now)) }
{
    let named = plan_entries(alloc, entries)?;
    write_plan(alloc, named.as_slice(), plan)
}
