//! The joins in the order of a code, with a guard only where it hides a row.

ghost use Rattle.std.specs.Prelude.{◌≡◌, ◌==◌, ◌++◌, IfOk, OnOk, map, position, reverse};
ghost use Rattle.std.specs.List.{range_with_len};
ghost use Rattle.tuples.specs.View.{guard_of};
ghost use Rattle.row_terms.specs.View.{term_of};
ghost use Rattle.algebra.specs.Rules as rules;
ghost use Rattle.algebra.specs.View.{step_of};
ghost use Rattle.trailcheck.specs.Shapes as shapes;
ghost use Rattle.trailcheck.specs.View.{setting_of};
ghost use Rattle.rewrite.specs.Placing as spec;
ghost use Rattle.rewrite.specs.Trails.{below_path};

use crate::nodes::{guarded, joined, left_joined};
use crate::steps::{further, push_step};
use algebra::Step;
use expr::CodeStep;
use memory::{Heap, Items};
use row_terms::{Branch, Term};
use std::alloc::AllocError;
use trailcheck::{Setting, entry_index, inner_count};
use tuples::Guard;

// The first so many entries, the last first.
fn from_entries<A: Heap>(alloc: A, count: usize) -> Result<Items<usize, A>, AllocError>
    ensures { IfOk result (λ l. l ≡ reverse (range_with_len 0 count)) }
{
    let mut entries = Items::new(alloc);
    for k in 0..count {
        entries.push(count - 1 - k)?;
    }
    Ok(entries)
}

/// The entries of the steps of a code, the last first.
pub(crate) fn code_entries<A: Heap>(
    alloc: A,
    steps: &[CodeStep],
) -> Result<Items<usize, A>, AllocError>
    ensures { IfOk result (λ l. l ≡ reverse (map shapes.entry_index steps.now)) }
{
    let [step, rest @ ..] = steps else {
        return Ok(Items::new(alloc));
    };
    let mut entries = code_entries(alloc, rest)?;
    entries.push(entry_index(*step))?;
    Ok(entries)
}

// The index of the first such entry in the list.
fn index_of(entry: usize, entries: &[usize]) -> Option<usize>
    ensures { result ≡ position (λ i. i == entry) entries.now }
{
    entries.iter().position(|i| *i == entry)
}

// The list without the first such entry.
fn without<A: Heap>(
    alloc: A,
    entry: usize,
    entries: &[usize],
) -> Result<Items<usize, A>, AllocError>
    ensures { IfOk result (λ l. l ≡ spec.without entry entries.now) }
{
    let mut rest = Vec::from_slice(alloc, entries)?;
    let Some(index) = index_of(entry, entries) else {
        return Ok(Items::from(rest));
    };
    rest.remove(index);
    Ok(Items::from(rest))
}

// Adds the step by which an entry and the first of those below it change places, at the node of the path.
fn push_exchanging<A: Heap>(
    alloc: A,
    trail: &mut Items<Step<A>, A>,
    path: &[Branch],
    below: &[usize],
) -> Result<(), AllocError>
    ensures { OnOk result (map step_of trail.new ≡ map step_of trail.old ++ below_path path.now (spec.exchanging below.now)) }
{
    match below {
        [] => Ok(()),
        [_] => push_step(alloc, trail, path, 6),
        _ => push_step(alloc, trail, path, 7),
    }
}

// Adds the steps by which the entry becomes the last that is joined.
fn push_raising<A: Heap>(
    alloc: A,
    trail: &mut Items<Step<A>, A>,
    path: &[Branch],
    entry: usize,
    entries: &[usize],
) -> Result<(), AllocError>
    ensures { OnOk result (map step_of trail.new ≡ map step_of trail.old ++ below_path path.now (spec.raising entry entries.now)) }
{
    let [i, below @ ..] = entries else {
        return Ok(());
    };
    if *i == entry {
        return Ok(());
    }
    let deeper = further(alloc, path, Branch::First)?;
    push_raising(alloc, trail, deeper.as_slice(), entry, below)?;
    push_exchanging(alloc, trail, path, below)
}

// Adds the steps from the joins of the entries to those of the wanted ones.
fn push_ordering<A: Heap>(
    alloc: A,
    trail: &mut Items<Step<A>, A>,
    path: &[Branch],
    wanted: &[usize],
    entries: &[usize],
) -> Result<(), AllocError>
    ensures { OnOk result (map step_of trail.new ≡ map step_of trail.old ++ below_path path.now (spec.ordering wanted.now entries.now)) }
{
    let [entry, wanted @ ..] = wanted else {
        return Ok(());
    };
    push_raising(alloc, trail, path, *entry, entries)?;
    let rest = without(alloc, *entry, entries)?;
    let deeper = further(alloc, path, Branch::First)?;
    push_ordering(alloc, trail, deeper.as_slice(), wanted, rest.as_slice())
}

// True where the guard of the entry shows all rows.
fn is_open<A: Heap>(frame: &[Guard<A>], entry: usize) -> bool
    ensures { result ≡ rules.is_open (map guard_of frame.now) entry }
{
    matches!(frame.get(entry), Some(Guard::All))
}

// Adds the step that drops the guard of the entry, where it shows all rows.
fn push_opening_one<A: Heap>(
    alloc: A,
    trail: &mut Items<Step<A>, A>,
    path: &[Branch],
    frame: &[Guard<A>],
    entry: usize,
) -> Result<(), AllocError>
    ensures { OnOk result (map step_of trail.new ≡ map step_of trail.old ++ below_path path.now (spec.opening_one (map guard_of frame.now) entry)) }
{
    if is_open(frame, entry) {
        push_step(alloc, trail, path, 9)
    } else {
        Ok(())
    }
}

// Adds the steps that drop the guards of the entries that show all rows.
fn push_opening<A: Heap>(
    alloc: A,
    trail: &mut Items<Step<A>, A>,
    path: &[Branch],
    frame: &[Guard<A>],
    entries: &[usize],
) -> Result<(), AllocError>
    ensures { OnOk result (map step_of trail.new ≡ map step_of trail.old ++ below_path path.now (spec.opening (map guard_of frame.now) entries.now)) }
{
    match entries {
        [] => Ok(()),
        [entry] => push_opening_one(alloc, trail, path, frame, *entry),
        [entry, rest @ ..] => {
            let side = further(alloc, path, Branch::Second)?;
            push_opening_one(alloc, trail, side.as_slice(), frame, *entry)?;
            let deeper = further(alloc, path, Branch::First)?;
            push_opening(alloc, trail, deeper.as_slice(), frame, rest)
        }
    }
}

// Adds the steps from the joins in the order of FROM to those of the entries, the last first, with a guard only where it hides a row.
fn push_joining<A: Heap>(
    alloc: A,
    setting: &Setting<A>,
    trail: &mut Items<Step<A>, A>,
    path: &[Branch],
    inner: &[usize],
) -> Result<(), AllocError>
    ensures { OnOk result (map step_of trail.new ≡ map step_of trail.old ++ below_path path.now (spec.joining (setting_of setting.now) inner.now)) }
{
    let entries = from_entries(alloc, inner_count(setting))?;
    push_ordering(alloc, trail, path, inner, entries.as_slice())?;
    push_opening(alloc, trail, path, setting.frame.as_slice(), inner)
}

/// Adds the steps from the joins and left joins in the order of FROM to those of the entries, the last first, with a guard only
/// where it hides a row.
pub(crate) fn push_arranging<A: Heap>(
    alloc: A,
    setting: &Setting<A>,
    trail: &mut Items<Step<A>, A>,
    path: &[Branch],
    lefts: &[usize],
    inner: &[usize],
) -> Result<(), AllocError>
    ensures { OnOk result (map step_of trail.new ≡ map step_of trail.old ++ below_path path.now (spec.arranging (setting_of setting.now) lefts.now inner.now)) }
{
    let [entry, lefts @ ..] = lefts else {
        return push_joining(alloc, setting, trail, path, inner);
    };
    let side = further(alloc, path, Branch::Second)?;
    let frame = setting.frame.as_slice();
    push_opening_one(alloc, trail, side.as_slice(), frame, *entry)?;
    let deeper = further(alloc, path, Branch::First)?;
    push_arranging(alloc, setting, trail, deeper.as_slice(), lefts, inner)
}

// The rows of an entry, under its guard unless that shows all.
fn opened<A: Heap>(alloc: A, setting: &Setting<A>, entry: usize) -> Result<Term<A>, AllocError>
    ensures { IfOk result (λ t. term_of t ≡ spec.opened (setting_of setting.now) entry) }
{
    let rows = Term::Raw { entry };
    if is_open(setting.frame.as_slice(), entry) {
        Ok(rows)
    } else {
        guarded(alloc, entry, rows)
    }
}

// The joins of the entries, with a guard only where it hides a row; the last entry is the first of the list.
fn opened_back<A: Heap>(
    alloc: A,
    setting: &Setting<A>,
    entries: &[usize],
) -> Result<Term<A>, AllocError>
    ensures { IfOk result (λ t. term_of t ≡ spec.opened_back (setting_of setting.now) entries.now) }
{
    match entries {
        [] => Ok(Term::Empty {
            entries: Items::new(alloc),
        }),
        [entry] => opened(alloc, setting, *entry),
        [entry, rest @ ..] => {
            let left = opened_back(alloc, setting, rest)?;
            let right = opened(alloc, setting, *entry)?;
            joined(alloc, left, right)
        }
    }
}

/// The same below the left joined entries, one after another.
pub(crate) fn all_opened<A: Heap>(
    alloc: A,
    setting: &Setting<A>,
    entries: &[usize],
) -> Result<Term<A>, AllocError>
    ensures { IfOk result (λ t. term_of t ≡ spec.all_opened (setting_of setting.now) entries.now) }
{
    let mut term = opened_back(alloc, setting, entries)?;
    let mut entry = inner_count(setting);
    for on in setting.lefts.as_slice() {
        let right = opened(alloc, setting, entry)?;
        term = left_joined(alloc, on.copy(alloc)?, term, right)?;
        entry += 1;
    }
    Ok(term)
}
