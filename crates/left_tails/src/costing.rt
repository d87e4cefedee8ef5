//! The costs of the steps of left joined entries.

ghost use Rattle.std.specs.Prelude.{◌≡◌, ◌+◌, ◌*◌, ◌≤◌, ◌^◌, All, length, map};
ghost use Rattle.stats.specs.Factors.{million};
ghost use Rattle.stats.specs.View.{selections_of, stats_of};
ghost use Rattle.left_tails.specs.Tails as spec;

use crate::sizes::{rows_of, size_with_left};
use expr::{CodeStep, Method, MovableExpr};
use memory::Heap;
use stats::{Selection, Stats};

/// The cost of joining so many combinations with the rows of a left joined entry.
pub(crate) fn left_join_cost<A: Heap>(
    statistics: &[&Stats<A>],
    v: u64,
    entry: usize,
    method: Method,
) -> u128
    requires { v ≤ 2 ^ 40 }
    ensures value { result ≡ spec.left_join_cost (map (λ s. stats_of s.now) statistics.now) v entry method }
    ensures small { result ≤ 2 ^ 104 }
{
    let rows = rows_of(statistics, entry).max(1) as u128;
    match method {
        Method::Nested => v as u128 * rows,
        Method::Hash { .. } => v as u128 + 2 * rows,
        Method::Merge { .. } => 0,
    }
}

/// The cost of the steps of the left joined entries from that of the index on, after so many combinations. It takes no memory.
pub fn tail_cost<A: Heap>(
    statistics: &[&Stats<A>],
    conditions: &[Selection<A>],
    v: u64,
    entry: usize,
    lefts: &[MovableExpr<A>],
    steps: &[CodeStep],
) -> u128
    requires few { v ≤ 2 ^ 40 }
    requires parts { All (λ s. s.factor ≤ million) conditions.now }
    requires entries { entry + length lefts.now ≤ 12 }
    ensures value { result ≡ spec.tail_cost (map (λ s. stats_of s.now) statistics.now) (selections_of conditions.now) v entry lefts.now steps.now }
    ensures small { result ≤ length lefts.now * 2 ^ 105 }
{
    match (lefts.split_first(), steps.split_first()) {
        (Some((on, lefts)), Some((step, steps))) => {
            let first = left_join_cost(statistics, v, entry, step.method)
                + rows_of(statistics, entry) as u128;
            let size = size_with_left(statistics, conditions, v, entry, on);
            first + tail_cost(statistics, conditions, size, entry + 1, lefts, steps)
        }
        _ => 0,
    }
}
