//! The shape of a code: the term that its plan computes, under the conditions of the planning list.

ghost use Rattle.std.specs.Prelude.{◌≡◌, IfOk, filter, if◌then◌else◌};
ghost use Rattle.std.specs.List.{range_with_len};
ghost use Rattle.expr.specs.View.{code_of};
ghost use Rattle.row_terms.specs.Terms as terms;
ghost use Rattle.row_terms.specs.Written.{filters};
ghost use Rattle.row_terms.specs.View.{term_of};
ghost use Rattle.trailcheck.specs.Settings as settings;
ghost use Rattle.trailcheck.specs.Shapes as spec;
ghost use Rattle.trailcheck.specs.View.{setting_of, wanted_by};

use crate::entries::{completes, is_over, joins, only_of};
use crate::setting::{Setting, inner_count};
use expr::{Code, CodeStep, MovableExpr};
use memory::{Heap, Items, boxed};
use row_terms::Term;
use std::alloc::AllocError;
use tuples::Guard;

/// A test of conditions by the entries that they name.
#[derive(Clone, Copy)]
pub enum Wanted<'p> {
    /// The entry, and no other.
    Alone { entry: usize },
    /// The entry, and no later one.
    Completing { entry: usize },
    /// The entry and some of the placed ones, and no other.
    Joining { placed: &'p [usize], entry: usize },
    /// No entry, of so many that there are.
    OnTop { count: usize },
}

/// True where the condition passes the test.
pub fn is_wanted<A: Heap>(
    alloc: A,
    wanted: Wanted<'_>,
    condition: &MovableExpr<A>,
) -> Result<bool, AllocError>
    ensures { IfOk result (λ b. b ≡ wanted_by wanted.entry condition.now) }
{
    match wanted {
        Wanted::Alone { entry } => only_of(alloc, condition, entry),
        Wanted::Completing { entry } => completes(alloc, condition, entry),
        Wanted::Joining { placed, entry } => joins(alloc, condition, placed, entry),
        Wanted::OnTop { count } => Ok(!is_over(alloc, condition, count)?),
    }
}

// The term under the condition, where it is a wanted one.
fn filtered_if<A: Heap>(
    alloc: A,
    wanted: Wanted<'_>,
    condition: &MovableExpr<A>,
    term: Term<A>,
) -> Result<Term<A>, AllocError>
    ensures { IfOk result (λ t. term_of t ≡ (if wanted_by wanted.entry condition.now then terms.Filtered condition.now (term_of term) else term_of term)) }
{
    if !is_wanted(alloc, wanted, condition)? {
        return Ok(term);
    }
    let condition = condition.copy(alloc)?;
    Ok(Term::Filtered {
        condition,
        input: boxed(alloc, term)?,
    })
}

// The term under the wanted conditions, the first innermost.
fn filtered_by<A: Heap>(
    alloc: A,
    wanted: Wanted<'_>,
    conditions: &[MovableExpr<A>],
    term: Term<A>,
) -> Result<Term<A>, AllocError>
    ensures { IfOk result (λ t. term_of t ≡ filters (filter (wanted_by wanted.entry) conditions.now) (term_of term)) }
{
    let mut term = term;
    for condition in conditions {
        term = filtered_if(alloc, wanted, condition, term)?;
    }
    Ok(term)
}

// The term under the guard of the entry, unless that shows all rows.
fn under_guard<A: Heap>(
    alloc: A,
    setting: &Setting<A>,
    entry: usize,
    term: Term<A>,
) -> Result<Term<A>, AllocError>
    ensures { IfOk result (λ t. term_of t ≡ spec.under_guard (setting_of setting.now) entry (term_of term)) }
{
    match setting.frame.as_slice().get(entry) {
        Some(Guard::All) => Ok(term),
        _ => Ok(Term::Guarded {
            entry,
            input: boxed(alloc, term)?,
        }),
    }
}

// The rows of an entry on which the conditions over it alone are true, and which its guard shows.
fn scan<A: Heap>(alloc: A, setting: &Setting<A>, entry: usize) -> Result<Term<A>, AllocError>
    ensures { IfOk result (λ t. term_of t ≡ spec.scan (setting_of setting.now) entry) }
{
    let wanted = Wanted::Alone { entry };
    let rows = filtered_by(
        alloc,
        wanted,
        setting.conditions.as_slice(),
        Term::Raw { entry },
    )?;
    under_guard(alloc, setting, entry, rows)
}

// Each combination of the left term with each of the right one.
fn joined<A: Heap>(alloc: A, left: Term<A>, right: Term<A>) -> Result<Term<A>, AllocError>
    ensures { IfOk result (λ t. term_of t ≡ terms.Joined (term_of left) (term_of right)) }
{
    Ok(Term::Joined {
        left: boxed(alloc, left)?,
        right: boxed(alloc, right)?,
    })
}

// The combinations of the placed entries with each row of one more, on which the conditions that join it to them are true.
fn with_entry<A: Heap>(
    alloc: A,
    setting: &Setting<A>,
    placed: &[usize],
    term: Term<A>,
    entry: usize,
) -> Result<Term<A>, AllocError>
    ensures { IfOk result (λ t. term_of t ≡ spec.with_entry (setting_of setting.now) placed.now (term_of term) entry) }
{
    let next = scan(alloc, setting, entry)?;
    let both = joined(alloc, term, next)?;
    let wanted = Wanted::Joining { placed, entry };
    filtered_by(alloc, wanted, setting.conditions.as_slice(), both)
}

/// The steps of the entries that are not left joined, which come first.
pub fn inner_steps<'s, A: Heap>(setting: &Setting<A>, steps: &'s [CodeStep]) -> &'s [CodeStep]
    ensures { result.now ≡ spec.inner_steps (setting_of setting.now) steps.now }
{
    let count = inner_count(setting);
    &steps[..count.min(steps.len())]
}

/// Those of the left joined entries.
pub fn left_steps<'s, A: Heap>(setting: &Setting<A>, steps: &'s [CodeStep]) -> &'s [CodeStep]
    ensures { result.now ≡ spec.left_steps (setting_of setting.now) steps.now }
{
    let count = inner_count(setting);
    &steps[count.min(steps.len())..]
}

/// The index of a step's entry, which the step counts from 1.
pub fn entry_index(step: CodeStep) -> usize
    ensures { result ≡ spec.entry_index step }
{
    step.entry.saturating_sub(1) as usize
}

// The entries of the steps, one after another, from the first on.
fn joined_from<A: Heap>(
    alloc: A,
    setting: &Setting<A>,
    first: usize,
    steps: &[CodeStep],
) -> Result<Term<A>, AllocError>
    ensures { IfOk result (λ t. term_of t ≡ spec.joined_from (setting_of setting.now) first steps.now) }
{
    let mut placed = Items::new(alloc);
    placed.push(first)?;
    let mut term = scan(alloc, setting, first)?;
    for step in steps {
        let entry = entry_index(*step);
        term = with_entry(alloc, setting, placed.as_slice(), term, entry)?;
        placed.push(entry)?;
    }
    Ok(term)
}

// The combinations of the term, each with the rows of a left joined entry on which its ON is true, or with the null row; those on
// which the conditions are true whose last entry it is.
fn with_left<A: Heap>(
    alloc: A,
    setting: &Setting<A>,
    entry: usize,
    on: &MovableExpr<A>,
    term: Term<A>,
) -> Result<Term<A>, AllocError>
    ensures { IfOk result (λ t. term_of t ≡ spec.with_left (setting_of setting.now) entry on.now (term_of term)) }
{
    let right = under_guard(alloc, setting, entry, Term::Raw { entry })?;
    let both = Term::LeftJoined {
        on: on.copy(alloc)?,
        left: boxed(alloc, term)?,
        right: boxed(alloc, right)?,
    };
    let wanted = Wanted::Completing { entry };
    filtered_by(alloc, wanted, setting.conditions.as_slice(), both)
}

// The left joined entries, one after another.
fn left_over<A: Heap>(alloc: A, setting: &Setting<A>, term: Term<A>) -> Result<Term<A>, AllocError>
    ensures { IfOk result (λ t. term_of t ≡ spec.left_over (setting_of setting.now) (settings.inner_count (setting_of setting.now)) setting.now.lefts (term_of term)) }
{
    let mut term = term;
    let mut entry = inner_count(setting);
    for on in setting.lefts.as_slice() {
        term = with_left(alloc, setting, entry, on, term)?;
        entry += 1;
    }
    Ok(term)
}

// The entries of the steps, one after another.
fn joined_all<A: Heap>(
    alloc: A,
    setting: &Setting<A>,
    steps: &[CodeStep],
) -> Result<Term<A>, AllocError>
    ensures { IfOk result (λ t. term_of t ≡ spec.joined_all (setting_of setting.now) steps.now) }
{
    match steps {
        [] => Ok(Term::Empty {
            entries: Items::new(alloc),
        }),
        [first, rest @ ..] => joined_from(alloc, setting, entry_index(*first), rest),
    }
}

// The term under the conditions that are not over entries of the query.
fn under_others<A: Heap>(
    alloc: A,
    setting: &Setting<A>,
    term: Term<A>,
) -> Result<Term<A>, AllocError>
    ensures { IfOk result (λ t. term_of t ≡ spec.under_others (setting_of setting.now) (term_of term)) }
{
    let wanted = Wanted::OnTop {
        count: setting.frame.len(),
    };
    filtered_by(alloc, wanted, setting.conditions.as_slice(), term)
}

// So many numbers, from 0 on.
fn first_entries<A: Heap>(alloc: A, count: usize) -> Result<Items<usize, A>, AllocError>
    ensures { IfOk result (λ entries. entries ≡ range_with_len 0 count) }
{
    let mut entries = Items::new(alloc);
    for entry in 0..count {
        entries.push(entry)?;
    }
    Ok(entries)
}

// No combination of any entry.
fn no_rows<A: Heap>(alloc: A, setting: &Setting<A>) -> Result<Term<A>, AllocError>
    ensures { IfOk result (λ t. term_of t ≡ spec.no_rows (setting_of setting.now)) }
{
    let entries = first_entries(alloc, setting.frame.len())?;
    Ok(Term::Empty { entries })
}

/// The shape of a code: each entry under its conditions and its guard, joined in the order of the steps, the left joined ones
/// last, each under its guard alone; the other conditions where all the entries that they name are there.
pub fn shape<A: Heap>(alloc: A, setting: &Setting<A>, code: &Code<A>) -> Result<Term<A>, AllocError>
    ensures { IfOk result (λ t. term_of t ≡ spec.shape (setting_of setting.now) (code_of code.now)) }
{
    match code {
        Code::Empty => no_rows(alloc, setting),
        Code::Steps(steps) => {
            let inner = inner_steps(setting, steps.as_slice());
            let term = joined_all(alloc, setting, inner)?;
            let term = left_over(alloc, setting, term)?;
            under_others(alloc, setting, term)
        }
    }
}
