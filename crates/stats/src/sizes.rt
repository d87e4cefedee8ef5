//! Estimated numbers of combinations of rows.

ghost use Rattle.std.specs.Prelude.{◌≡◌, ◌≤◌, ◌^◌, All, map};
ghost use Rattle.std.specs.List.{list_all};
ghost use Rattle.stats.specs.Card as spec;
ghost use Rattle.stats.specs.Factors.{million};
ghost use Rattle.stats.specs.View.{members, selection_of, selections_of, stats_of};

use crate::entry_set::EntrySet;
use crate::selection::Selection;
use crate::statistics::Stats;
use expr::ColumnId;
use memory::Heap;

// No estimate is more.
const MOST_ROWS: u64 = 1 << 40;

// So many combinations with each of so many rows.
fn times(v: u64, rows: u64) -> u64
    requires { v ≤ 2 ^ 40 }
    ensures value { result ≡ spec.times v rows }
    ensures least { 1 ≤ result }
    ensures most { result ≤ 2 ^ 40 }
{
    let product = v as u128 * rows as u128;
    product.min(MOST_ROWS as u128).max(1) as u64
}

/// The part of so many rows that a factor leaves, at least 1.
pub fn reduced(rows: u64, factor: u64) -> u64
    requires { factor ≤ million }
    ensures value { result ≡ spec.reduced rows factor }
    ensures least { 1 ≤ result }
{
    let left = rows as u128 * factor as u128 / 1_000_000;
    left.max(1) as u64
}

// True where the entry of each column is of the set.
fn are_of(columns: &[ColumnId], entries: EntrySet) -> bool
    ensures { result ≡ list_all (λ id. members entries id.entry) columns.now }
{
    columns.iter().all(|id| entries.contains(id.entry))
}

// True where the condition names entries, and each of them is of the set.
fn is_about<A: Heap>(entries: EntrySet, selection: &Selection<A>) -> bool
    ensures { result ≡ spec.is_about (members entries) (selection_of selection.now) }
{
    let columns = selection.columns.as_slice();
    !columns.is_empty() && are_of(columns, entries)
}

// The rows of the entries of the set, in the order of FROM.
fn all_rows<A: Heap>(statistics: &[&Stats<A>], entries: EntrySet) -> u64
    ensures value { result ≡ spec.all_rows (map (λ s. stats_of s.now) statistics.now) (members entries) }
    ensures least { 1 ≤ result }
    ensures most { result ≤ 2 ^ 40 }
{
    let mut rows = 1;
    for (entry, stats) in statistics.iter().enumerate() {
        if entries.contains(entry) {
            rows = times(rows, stats.rows());
        }
    }
    rows
}

/// The estimated number of combinations of rows of a set of entries, on which those conditions that are about them alone are
/// true: from 1 to 2^40. It takes no memory.
pub fn card<A: Heap>(
    statistics: &[&Stats<A>],
    conditions: &[Selection<A>],
    entries: EntrySet,
) -> u64
    requires { All (λ s. s.factor ≤ million) conditions.now }
    ensures value { result ≡ spec.card (map (λ s. stats_of s.now) statistics.now) (selections_of conditions.now) (members entries) }
    ensures least { 1 ≤ result }
    ensures most { result ≤ 2 ^ 40 }
{
    let mut rows = all_rows(statistics, entries);
    for condition in conditions {
        if is_about(entries, condition) {
            rows = reduced(rows, condition.factor);
        }
    }
    rows
}
