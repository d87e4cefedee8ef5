//! The steps after a set of placed entries that can be in a least code.

ghost use Rattle.std.specs.Prelude.{◌≡◌, ◌-◌, ◌<◌, ◌^◌, ◌++◌, IfOk, OnOk, filter};
ghost use Rattle.stats.specs.View.{members};
ghost use Rattle.joindp.specs.FewSteps as spec;
ghost use Rattle.joindp.specs.Following as following;
ghost use Rattle.joindp.specs.Search.{AreAccesses};
ghost use Rattle.code_costs.specs.View.{problem_of};

use crate::following::{equalities, may_be_next, some_joined, step_of};
use code_costs::{Problem, access_cost};
use expr::{Access, CodeStep, ColumnId, Method};
use joins::{is_ordered_by, order_of, sides};
use memory::{Heap, Items};
use stats::EntrySet;
use std::alloc::AllocError;

// ---- the least way to read the rows of an entry

// True where one way to read the rows of the entry comes before another: it costs less, or as much and its numbers come first.
fn is_before<A: Heap>(problem: &Problem<'_, A>, entry: usize, one: Access, other: Access) -> bool
    ensures { result ≡ spec.is_before (problem_of problem.now) entry one other }
{
    let cost = access_cost(problem, entry, one);
    let cost_of_other = access_cost(problem, entry, other);
    let numbers = step_of(0, one, Method::Nested).numbers();
    let numbers_of_other = step_of(0, other, Method::Nested).numbers();
    cost.cmp(&cost_of_other)
        .then(numbers.cmp(&numbers_of_other))
        .is_lt()
}

// True where the rows come in the order of the column, if one is given.
fn comes_by(entry: usize, column: Option<ColumnId>, access: Access) -> bool
    ensures { result ≡ spec.comes_by entry column access }
{
    match column {
        None => true,
        Some(id) => is_ordered_by(order_of(entry, access), id),
    }
}

// The lesser of the least way so far and one more, where that gives the rows in the order of the column, if one is given.
fn lesser<A: Heap>(
    problem: &Problem<'_, A>,
    entry: usize,
    column: Option<ColumnId>,
    best: Option<Access>,
    access: Access,
) -> Option<Access>
    ensures { result ≡ spec.lesser_by (problem_of problem.now) entry column best access }
{
    if !comes_by(entry, column, access) {
        return best;
    }
    let Some(known) = best else {
        return Some(access);
    };
    if is_before(problem, entry, access, known) {
        Some(access)
    } else {
        best
    }
}

// The least way to read the rows of the entry, in the order of the column, if one is given.
fn least_access<A: Heap>(
    problem: &Problem<'_, A>,
    entry: usize,
    column: Option<ColumnId>,
    accesses: &[Access],
) -> Option<Access>
    ensures { result ≡ spec.least (problem_of problem.now) entry column accesses.now }
{
    let mut best = None;
    for access in accesses {
        best = lesser(problem, entry, column, best, *access);
    }
    best
}

// ---- the steps to an entry

// Unless the cheapest way gives the rows in the order of the column by which the condition of that number joins the entry, the
// least way that does.
fn ordered_access<A: Heap>(
    problem: &Problem<'_, A>,
    entry: usize,
    accesses: &[Access],
    cheapest: Access,
    number: u64,
) -> Option<Access>
    ensures { result ≡ spec.ordered_access (problem_of problem.now) entry accesses.now cheapest number }
{
    let (_, own) = sides(problem.setting.conditions.as_slice(), entry, number)?;
    if is_ordered_by(order_of(entry, cheapest), own) {
        None
    } else {
        least_access(problem, entry, Some(own), accesses)
    }
}

// Adds the join by the first of these equalities.
fn push_hash<A: Heap>(
    known: &mut Items<CodeStep, A>,
    entry: usize,
    cheapest: Access,
    equalities: &[u64],
) -> Result<(), AllocError>
    requires { entry < 2 ^ 64 - 1 }
    ensures { OnOk result (known.new ≡ known.old ++ spec.hashes entry cheapest equalities.now) }
{
    match equalities.first() {
        Some(number) => known.push(step_of(entry, cheapest, Method::Hash { conjunct: *number })),
        None => Ok(()),
    }
}

// Adds the merges on the equality of that number.
fn push_merges<A: Heap>(
    known: &mut Items<CodeStep, A>,
    problem: &Problem<'_, A>,
    entry: usize,
    accesses: &[Access],
    cheapest: Access,
    number: u64,
) -> Result<(), AllocError>
    requires { entry < 2 ^ 64 - 1 }
    ensures { OnOk result (known.new ≡ known.old ++ spec.merges (problem_of problem.now) entry accesses.now cheapest number) }
{
    let method = Method::Merge { conjunct: number };
    known.push(step_of(entry, cheapest, method))?;
    match ordered_access(problem, entry, accesses, cheapest, number) {
        Some(access) => known.push(step_of(entry, access, method)),
        None => Ok(()),
    }
}

// Adds the steps to the entry; `equalities` are the numbers of those that join it.
fn push_few_to<A: Heap>(
    known: &mut Items<CodeStep, A>,
    problem: &Problem<'_, A>,
    entry: usize,
    accesses: &[Access],
    equalities: &[u64],
) -> Result<(), AllocError>
    requires { entry < 2 ^ 64 - 1 }
    ensures { OnOk result (known.new ≡ known.old ++ spec.few_of (problem_of problem.now) entry accesses.now equalities.now) }
{
    let Some(cheapest) = least_access(problem, entry, None, accesses) else {
        return Ok(());
    };
    known.push(step_of(entry, cheapest, Method::Nested))?;
    push_hash(known, entry, cheapest, equalities)?;
    for number in equalities {
        push_merges(known, problem, entry, accesses, cheapest, *number)?;
    }
    Ok(())
}

// ---- all of them

/// The steps after a set of placed entries that can be in a least code; `accesses` are the ways in which the rows of each entry may
/// be read.
pub(crate) fn few_steps<A: Heap>(
    alloc: A,
    problem: &Problem<'_, A>,
    accesses: &[Items<Access, A>],
    placed: EntrySet,
) -> Result<Items<CodeStep, A>, AllocError>
    requires { AreAccesses (problem_of problem.now) accesses.now }
    ensures { IfOk result (λ steps. steps ≡ spec.few_steps (problem_of problem.now) (members placed)) }
{
    let some = some_joined(problem, placed);
    let mut steps = Items::new(alloc);
    for (entry, accesses) in accesses.iter().enumerate() {
        if may_be_next(problem, placed, entry, some) {
            let equalities = equalities(alloc, problem, placed, entry)?;
            push_few_to(
                &mut steps,
                problem,
                entry,
                accesses.as_slice(),
                equalities.as_slice(),
            )?;
        }
    }
    Ok(steps)
}
