//! The estimated numbers of combinations after left joined entries.

ghost use Rattle.std.specs.Prelude.{◌≡◌, ◌+◌, ◌==◌, ◌≤◌, ◌^◌, All, length, map, nat_le};
ghost use Rattle.std.specs.List.{list_all, list_any};
ghost use Rattle.stats.specs.Card as card;
ghost use Rattle.stats.specs.Factors.{million};
ghost use Rattle.stats.specs.View.{selection_of, selections_of, stats_of};
ghost use Rattle.left_tails.specs.Tails as spec;

use expr::{ColumnId, MovableExpr};
use memory::Heap;
use stats::{Selection, Stats, factor, reduced};

// No estimate is more.
const MOST_ROWS: u64 = 1 << 40;

/// The rows of an entry.
pub fn rows_of<A: Heap>(statistics: &[&Stats<A>], entry: usize) -> u64
    ensures { result ≡ card.rows_at (map (λ s. stats_of s.now) statistics.now) entry }
{
    match statistics.get(entry) {
        Some(stats) => stats.rows(),
        None => 1000,
    }
}

// So many combinations with the rows on which an ON of that factor is true: no fewer than before.
fn left_times(v: u64, rows: u64, factor: u64) -> u64
    requires few { v ≤ 2 ^ 40 }
    requires parts { factor ≤ million }
    ensures value { result ≡ spec.left_times v rows factor }
    ensures most { result ≤ 2 ^ 40 }
{
    let product = v as u128 * rows as u128;
    let pairs = product.min(MOST_ROWS as u128) as u64;
    reduced(pairs, factor).max(v)
}

// True where some column is of the entry.
fn some_of(columns: &[ColumnId], entry: usize) -> bool
    ensures { result ≡ list_any (λ id. id.entry == entry) columns.now }
{
    columns.iter().any(|id| id.entry == entry)
}

// True where each column is of the entry or of one before it.
fn all_up_to(columns: &[ColumnId], entry: usize) -> bool
    ensures { result ≡ list_all (λ id. nat_le id.entry entry) columns.now }
{
    columns.iter().all(|id| id.entry <= entry)
}

// True where the condition names the entry, and no later one.
fn is_completed<A: Heap>(entry: usize, selection: &Selection<A>) -> bool
    ensures { result ≡ spec.is_completed entry (selection_of selection.now) }
{
    let columns = selection.columns.as_slice();
    some_of(columns, entry) && all_up_to(columns, entry)
}

/// The estimated number of combinations after a left joined entry, of so many before it.
pub(crate) fn size_with_left<A: Heap>(
    statistics: &[&Stats<A>],
    conditions: &[Selection<A>],
    v: u64,
    entry: usize,
    on: &MovableExpr<A>,
) -> u64
    requires few { v ≤ 2 ^ 40 }
    requires parts { All (λ s. s.factor ≤ million) conditions.now }
    ensures value { result ≡ spec.size_with_left (map (λ s. stats_of s.now) statistics.now) (selections_of conditions.now) v entry on.now }
    ensures most { result ≤ 2 ^ 40 }
{
    let parts = factor(statistics, on.expression());
    let mut rows = left_times(v, rows_of(statistics, entry), parts);
    for condition in conditions {
        if is_completed(entry, condition) {
            rows = reduced(rows, condition.factor);
        }
    }
    rows
}

/// The estimated number of combinations after all left joined entries from that of the index on, of so many before them. It takes
/// no memory.
pub fn size_with_lefts<A: Heap>(
    statistics: &[&Stats<A>],
    conditions: &[Selection<A>],
    v: u64,
    entry: usize,
    lefts: &[MovableExpr<A>],
) -> u64
    requires few { v ≤ 2 ^ 40 }
    requires parts { All (λ s. s.factor ≤ million) conditions.now }
    requires entries { entry + length lefts.now ≤ 12 }
    ensures value { result ≡ spec.size_with_lefts (map (λ s. stats_of s.now) statistics.now) (selections_of conditions.now) v entry lefts.now }
    ensures most { result ≤ 2 ^ 40 }
{
    match lefts {
        [] => v,
        [on, lefts @ ..] => {
            let size = size_with_left(statistics, conditions, v, entry, on);
            size_with_lefts(statistics, conditions, size, entry + 1, lefts)
        }
    }
}
