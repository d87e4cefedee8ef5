//! Which steps may come first, and what may follow a set of placed entries.

ghost use Rattle.std.specs.Prelude.{◌≡◌, ◌==◌, ◌&&◌, ◌||◌, ◌-◌, ◌<◌, ◌^◌, ◌++◌, IfOk, OnOk, filter, map, not, slice_get};
ghost use Rattle.std.specs.List.{list_all, list_any};
ghost use Rattle.stats.specs.View.{members};
ghost use Rattle.trailcheck.specs.Admissible as admissible;
ghost use Rattle.trailcheck.specs.Admissible.{condition_at, is_some_and};
ghost use Rattle.joindp.specs.Following as spec;
ghost use Rattle.joindp.specs.Search.{AreAccesses};
ghost use Rattle.code_costs.specs.View.{problem_of};

use code_costs::Problem;
use expr::{Access, CodeStep, ColumnId, Method};
use memory::{Heap, Items};
use predicates::column_sides;
use stats::{EntrySet, Selection};
use std::alloc::AllocError;
use trailcheck::{bounds, condition_at, inner_count};

// ---- which entries may be next

// True where some column is of the entry.
fn some_of(ids: &[ColumnId], entry: usize) -> bool
    ensures { result ≡ list_any (λ id. id.entry == entry) ids.now }
{
    ids.iter().any(|id| id.entry == entry)
}

// True where some column is of the set.
fn some_in(ids: &[ColumnId], placed: EntrySet) -> bool
    ensures { result ≡ list_any (λ id. members placed id.entry) ids.now }
{
    ids.iter().any(|id| placed.contains(id.entry))
}

// True where each column is of the entry or of the set.
fn all_within(ids: &[ColumnId], placed: EntrySet, entry: usize) -> bool
    ensures { result ≡ list_all (λ id. (id.entry == entry) || members placed id.entry) ids.now }
{
    ids.iter()
        .all(|id| id.entry == entry || placed.contains(id.entry))
}

// True where one of these columns is of the entry, one of the set, and each of the entry or of the set.
fn join(ids: &[ColumnId], placed: EntrySet, entry: usize) -> bool
    ensures { result ≡ spec.join ids.now (members placed) entry }
{
    some_of(ids, entry) && some_in(ids, placed) && all_within(ids, placed, entry)
}

// True where the columns of one of these conditions join the entry to the set.
fn some_join<A: Heap>(selections: &[Selection<A>], placed: EntrySet, entry: usize) -> bool
    ensures { result ≡ list_any (λ s. spec.join s.columns (members placed) entry) selections.now }
{
    selections.iter().any(|selection| join(selection.columns.as_slice(), placed, entry))
}

// True where a condition joins the entry to the set.
fn is_joined_to<A: Heap>(problem: &Problem<'_, A>, placed: EntrySet, entry: usize) -> bool
    ensures { result ≡ spec.is_joined_to (problem_of problem.now).setting (members placed) entry }
{
    some_join(problem.selections.as_slice(), placed, entry)
}

// True where the entry is joined to the set and not of it.
fn is_waiting<A: Heap>(problem: &Problem<'_, A>, placed: EntrySet, entry: usize) -> bool
    ensures { result ≡ (not (members placed entry) && spec.is_joined_to (problem_of problem.now).setting (members placed) entry) }
{
    !placed.contains(entry) && is_joined_to(problem, placed, entry)
}

/// True where some entry is joined to the set and not of it.
pub(crate) fn some_joined<A: Heap>(problem: &Problem<'_, A>, placed: EntrySet) -> bool
    ensures { result ≡ spec.some_joined (problem_of problem.now).setting (members placed) }
{
    let count = inner_count(problem.setting);
    for entry in 0..count {
        if is_waiting(problem, placed, entry) {
            return true;
        }
    }
    false
}

/// True where the entry may be the next one; `some` is true where some entry is joined to the set and not of it.
pub(crate) fn may_be_next<A: Heap>(
    problem: &Problem<'_, A>,
    placed: EntrySet,
    entry: usize,
    some: bool,
) -> bool
    requires { some ≡ spec.some_joined (problem_of problem.now).setting (members placed) }
    ensures { result ≡ spec.may_be_next (problem_of problem.now).setting (members placed) entry }
{
    !placed.contains(entry) && (is_joined_to(problem, placed, entry) || !some)
}

// ---- how their rows are read

// True where the condition of that number compares the column of the entry with a literal.
fn is_bound<A: Heap>(problem: &Problem<'_, A>, entry: usize, column: u64, number: u64) -> bool
    ensures { result ≡ is_some_and (admissible.bounds entry column) (condition_at (problem_of problem.now).setting number) }
{
    match condition_at(problem.setting, number) {
        Some(condition) => bounds(entry, column, condition),
        None => false,
    }
}

// Adds the index on a column, and the parts of it that conditions bound.
fn push_index<A: Heap>(
    known: &mut Items<Access, A>,
    problem: &Problem<'_, A>,
    entry: usize,
    column: u64,
) -> Result<(), AllocError>
    ensures { OnOk result (known.new ≡ known.old ++ spec.by_index (problem_of problem.now).setting entry column) }
{
    known.push(Access::Index { column })?;
    let count = problem.setting.conditions.len() as u64;
    for k in 0..count {
        if is_bound(problem, entry, column, k + 1) {
            known.push(Access::Range {
                column,
                bound: k + 1,
            })?;
        }
    }
    Ok(())
}

// The columns of the entry that have an index.
fn columns_indexed<'p, A: Heap>(problem: &Problem<'p, A>, entry: usize) -> &'p [u64]
    ensures { result.now ≡ spec.columns_indexed (slice_get (problem_of problem.now).setting.indexed entry) }
{
    match problem.setting.indexed.get(entry) {
        Some(columns) => columns.as_slice(),
        None => &[],
    }
}

/// The ways in which the rows of the entry may be read.
pub(crate) fn accesses<A: Heap>(
    alloc: A,
    problem: &Problem<'_, A>,
    entry: usize,
) -> Result<Items<Access, A>, AllocError>
    ensures { IfOk result (λ accesses. accesses ≡ spec.accesses (problem_of problem.now).setting entry) }
{
    let mut accesses = Items::new(alloc);
    accesses.push(Access::Full)?;
    for column in columns_indexed(problem, entry) {
        push_index(&mut accesses, problem, entry, *column)?;
    }
    Ok(accesses)
}

// ---- how they are joined

// True where the condition of that number equates a column of the set with one of the entry.
fn is_equality<A: Heap>(
    problem: &Problem<'_, A>,
    placed: EntrySet,
    entry: usize,
    number: u64,
) -> bool
    ensures { result ≡ spec.is_equality (problem_of problem.now).setting (members placed) entry number }
{
    let Some(condition) = condition_at(problem.setting, number) else {
        return false;
    };
    match column_sides(condition) {
        Some((a, b)) => {
            (placed.contains(a.entry) && b.entry == entry)
                || (a.entry == entry && placed.contains(b.entry))
        }
        None => false,
    }
}

/// The numbers of the conditions that equate a column of the set with one of the entry.
pub(crate) fn equalities<A: Heap>(
    alloc: A,
    problem: &Problem<'_, A>,
    placed: EntrySet,
    entry: usize,
) -> Result<Items<u64, A>, AllocError>
    ensures { IfOk result (λ numbers. numbers ≡ filter (spec.is_equality (problem_of problem.now).setting (members placed) entry) (spec.all_numbers (problem_of problem.now).setting)) }
{
    let mut numbers = Items::new(alloc);
    let count = problem.setting.conditions.len() as u64;
    for k in 0..count {
        if is_equality(problem, placed, entry, k + 1) {
            numbers.push(k + 1)?;
        }
    }
    Ok(numbers)
}

// ---- steps

/// The step of the entry of that index.
pub(crate) fn step_of(entry: usize, access: Access, method: Method) -> CodeStep
    requires { entry < 2 ^ 64 - 1 }
    ensures { result ≡ spec.step_of entry access method }
{
    CodeStep {
        entry: entry as u64 + 1,
        access,
        method,
    }
}

// Adds the first steps that read the rows of the entry.
fn push_first_steps<A: Heap>(
    known: &mut Items<CodeStep, A>,
    entry: usize,
    accesses: &[Access],
) -> Result<(), AllocError>
    requires { entry < 2 ^ 64 - 1 }
    ensures { OnOk result (known.new ≡ known.old ++ map (spec.first_step entry) accesses.now) }
{
    for access in accesses {
        known.push(step_of(entry, *access, Method::Nested))?;
    }
    Ok(())
}

/// The steps that may come first; `accesses` are the ways in which the rows of each entry may be read.
pub(crate) fn first_steps<A: Heap>(
    alloc: A,
    problem: &Problem<'_, A>,
    accesses: &[Items<Access, A>],
) -> Result<Items<CodeStep, A>, AllocError>
    requires { AreAccesses (problem_of problem.now) accesses.now }
    ensures { IfOk result (λ steps. steps ≡ spec.first_steps (problem_of problem.now).setting) }
{
    let placed = EntrySet::none();
    let some = some_joined(problem, placed);
    let mut steps = Items::new(alloc);
    for (entry, accesses) in accesses.iter().enumerate() {
        if may_be_next(problem, placed, entry, some) {
            push_first_steps(&mut steps, entry, accesses.as_slice())?;
        }
    }
    Ok(steps)
}
