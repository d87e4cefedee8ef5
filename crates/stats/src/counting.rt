//! The statistics of a column, counted.

ghost use Rattle.std.specs.Prelude.{◌≡◌, ◌<◌, ◌≤◌, ◌+ℤ◌, ◌<ℤ◌, ◌≤ℤ◌, All, IfOk, IfSome, Some, if◌then◌else◌, length, option_map, pos};
ghost use Rattle.std.specs.Ordering.{bool_cmp, int_cmp, nat_cmp};
ghost use Rattle.std.specs.Cmp.Lexicographic.{slice_cmp};
ghost use Rattle.bags.specs.Least.{lesser};
ghost use Rattle.value.specs.Datum.{cell, null, null_or, row_at};
ghost use Rattle.tables.specs.declared.TheConstants.{MAX_ROWS};
ghost use Rattle.stats.specs.Marked.{count_marks, is_marked, marked};
ghost use Rattle.stats.specs.Repeats.{without_repeats};
ghost use Rattle.stats.specs.Runs.{ends_run, runs};
ghost use Rattle.stats.specs.Statistics as spec;
ghost use Rattle.stats.specs.Types.{texts, truths};

use crate::statistics::{Bounds, ColumnStats};
use columns::Mask;
use memory::Heap;
use std::alloc::AllocError;
use std::collections::HashSet;
use std::hash::{BuildHasherDefault, FoldHasher};
use tables::Table;
use value::Lent;

// The numbers and the truth values among some values, and the count of the distinct texts.
#[derive(Drop)]
struct Values<A: Heap> {
    numbers: Vec<i64, A>,
    distinct_texts: u64,
    truths: Vec<bool, A>,
}

// The value of a cell, unless it is null or its row is not marked.
fn marked_value<'t, A: Heap>(
    table: &'t Table<A>,
    marks: &Mask<A>,
    row: u64,
    column: u64,
) -> Option<Lent<'t>>
    requires row { row < length table.now.rows }
    requires column { column < length table.now.columns }
    requires marks { length marks.now ≡ length table.now.rows }
    ensures { null_or result ≡ (if is_marked marks.now row then cell (row_at table.now.rows row) column else null) }
{
    if marks.get(row as usize) {
        table.value(row, column)
    } else {
        None
    }
}

// The values of a column in the rows that are marked, apart from null.
fn values_in<A: Heap>(
    alloc: A,
    table: &Table<A>,
    marks: &Mask<A>,
    column: u64,
) -> Result<Values<A>, AllocError>
    requires column { column < length table.now.columns }
    requires marks { length marks.now ≡ length table.now.rows }
    ensures numbers { IfOk result (λ values. values.numbers.items ≡ spec.numbers (spec.values_in (marked marks.now table.now.rows) column)) }
    ensures texts { IfOk result (λ values. values.distinct_texts ≡ length (without_repeats (slice_cmp nat_cmp) (texts (spec.values_in (marked marks.now table.now.rows) column)))) }
    ensures truths { IfOk result (λ values. values.truths.items ≡ truths (spec.values_in (marked marks.now table.now.rows) column)) }
    ensures few { length table.now.rows ≤ MAX_ROWS }
{
    let mut numbers = Vec::new(alloc);
    let mut texts: HashSet<&str, BuildHasherDefault<FoldHasher>, A> = HashSet::new(alloc);
    let mut truths = Vec::new(alloc);
    for row in 0..table.rows() {
        match marked_value(table, marks, row, column) {
            None => {}
            Some(Lent::Int(number)) => numbers.push(number)?,
            Some(Lent::Text(text)) => {
                texts.insert(text)?;
            }
            Some(Lent::Bool(truth)) => truths.push(truth)?,
        }
    }
    Ok(Values {
        numbers,
        distinct_texts: texts.len() as u64,
        truths,
    })
}

// The bounds, with one number more.
fn widened(bounds: Option<Bounds>, number: i64) -> Bounds
    ensures least { Some result.least ≡ lesser int_cmp (option_map (λ b. b.least) bounds) (Some number) }
    ensures greatest { Some result.greatest ≡ lesser (λ x y. int_cmp y x) (option_map (λ b. b.greatest) bounds) (Some number) }
{
    match bounds {
        None => Bounds {
            least: number,
            greatest: number,
        },
        Some(bounds) => Bounds {
            least: bounds.least.min(number),
            greatest: bounds.greatest.max(number),
        },
    }
}

// The least and the greatest number.
fn bounds_of(numbers: &[i64]) -> Option<Bounds>
    ensures { result ≡ spec.bounds_of numbers.now }
{
    let mut bounds = None;
    for number in numbers {
        bounds = Some(widened(bounds, *number));
    }
    bounds
}

// Whether a number is the last of its run, before the next one, if there is one.
fn ends_run(number: i64, next: Option<&i64>) -> bool
    ensures { result ≡ ends_run int_cmp number (option_map (λ n. n.now) next.entry) }
{
    match next {
        None => true,
        Some(next) => number.cmp(next).is_ne(),
    }
}

// How many runs of equal neighbours there are.
fn count_runs(numbers: &[i64]) -> u64
    ensures { result ≡ runs int_cmp numbers.now }
{
    let mut count = 0;
    for (i, number) in numbers.iter().enumerate() {
        if ends_run(*number, numbers.get(i + 1)) {
            count += 1;
        }
    }
    count
}

// The count of the distinct numbers. They are sorted, so that equal ones stand side by side.
fn distinct_by_sorting<A: Heap>(numbers: &mut Vec<i64, A>) -> u64
    ensures { result ≡ length (without_repeats int_cmp numbers.old.items) }
{
    numbers.sort_unstable();
    count_runs(numbers)
}

// The count of the distinct numbers. Each number from the least on has a place, which is marked when the number comes.
fn distinct_by_marks<A: Heap>(
    alloc: A,
    numbers: &[i64],
    least: i64,
    places: usize,
) -> Result<u64, AllocError>
    requires { All (λ n. (least ≤ℤ n) × (n <ℤ (least +ℤ pos places))) numbers.now }
    ensures { IfOk result (λ count. count ≡ length (without_repeats int_cmp numbers.now)) }
{
    let mut marks = Vec::from_elem(alloc, false, places)?;
    let mut count = 0;
    for number in numbers {
        let place = number.abs_diff(least) as usize;
        if !marks[place] {
            marks[place] = true;
            count += 1;
        }
    }
    Ok(count)
}

// The count of the places from the least number to the greatest, where marks in them take no more memory than so many numbers.
fn few_places(bounds: Bounds, numbers: usize) -> Option<usize>
    ensures { IfSome result (λ places. bounds.greatest <ℤ (bounds.least +ℤ pos places)) }
{
    let places = bounds.greatest.abs_diff(bounds.least).checked_add(1)?;
    if places.div_ceil(8) <= numbers as u64 {
        Some(places as usize)
    } else {
        None
    }
}

// The count of the distinct numbers, which have these bounds.
fn distinct_numbers<A: Heap>(
    alloc: A,
    numbers: &mut Vec<i64, A>,
    bounds: Option<Bounds>,
) -> Result<u64, AllocError>
    requires { bounds ≡ spec.bounds_of numbers.old.items }
    ensures { IfOk result (λ count. count ≡ length (without_repeats int_cmp numbers.old.items)) }
{
    let Some(bounds) = bounds else {
        return Ok(0);
    };
    match few_places(bounds, numbers.len()) {
        Some(places) => distinct_by_marks(alloc, numbers, bounds.least, places),
        None => Ok(distinct_by_sorting(numbers)),
    }
}

// How many truth values are distinct.
fn distinct_truths(truths: &[bool]) -> u64
    ensures { result ≡ length (without_repeats bool_cmp truths.now) }
{
    u64::from(truths.contains(&false)) + u64::from(truths.contains(&true))
}

/// The statistics of a column, counted from 0, in the rows of a table that are marked.
pub(crate) fn marked_stats<A: Heap>(
    alloc: A,
    table: &Table<A>,
    marks: &Mask<A>,
    column: u64,
) -> Result<ColumnStats, AllocError>
    requires column { column < length table.now.columns }
    requires marks { length marks.now ≡ length table.now.rows }
    ensures { IfOk result (λ s. s ≡ spec.stats_of_values (spec.values_in (marked marks.now table.now.rows) column)) }
{
    let mut values = values_in(alloc, table, marks, column)?;
    let bounds = bounds_of(&values.numbers);
    let truths = distinct_truths(&values.truths);
    let numbers = distinct_numbers(alloc, &mut values.numbers, bounds)?;
    Ok(ColumnStats {
        distinct: numbers + values.distinct_texts + truths,
        bounds,
    })
}

/// How many marks there are.
pub(crate) fn count_marks<A: Heap>(marks: &Mask<A>) -> u64
    ensures { result ≡ count_marks marks.now }
{
    let mut count = 0;
    for row in 0..marks.len() {
        if marks.get(row) {
            count += 1;
        }
    }
    count
}
