//! The best steps of left joined entries.

ghost use Rattle.std.specs.Prelude.{◌≡◌, ◌+◌, ◌++◌, ◌<◌, ◌≤◌, ◌^◌, All, IfOk, OnOk, length, map, true};
ghost use Rattle.stats.specs.Factors.{million};
ghost use Rattle.stats.specs.View.{selections_of, stats_of};
ghost use Rattle.trailcheck.specs.Admissible.{are_left_steps};
ghost use Rattle.left_tails.specs.Best as spec;
ghost use Rattle.left_tails.specs.Best.{IsBestTail};

use crate::costing::left_join_cost;
use crate::sizes::size_with_left;
use expr::{Access, CodeStep, Method, MovableExpr};
use memory::{Heap, Items};
use stats::{Selection, Stats};
use std::alloc::AllocError;
use trailcheck::first_equality;

// Nested loops, or a hash table by the conjunct of that number, if there is one and it costs less.
fn better_method<A: Heap>(
    statistics: &[&Stats<A>],
    v: u64,
    entry: usize,
    number: Option<u64>,
) -> Method
    requires { v ≤ 2 ^ 40 }
    ensures { result ≡ spec.better_method (map (λ s. stats_of s.now) statistics.now) v entry number }
{
    let Some(conjunct) = number else {
        return Method::Nested;
    };
    let hash = Method::Hash { conjunct };
    let cost = left_join_cost(statistics, v, entry, hash);
    if cost < left_join_cost(statistics, v, entry, Method::Nested) {
        hash
    } else {
        Method::Nested
    }
}

// The best step of a left joined entry after so many combinations.
fn best_left_step<A: Heap>(
    statistics: &[&Stats<A>],
    v: u64,
    entry: usize,
    on: &MovableExpr<A>,
) -> CodeStep
    requires few { v ≤ 2 ^ 40 }
    requires entry { entry < 12 }
    ensures { result ≡ spec.best_left_step (map (λ s. stats_of s.now) statistics.now) v entry on.now }
{
    CodeStep {
        entry: entry as u64 + 1,
        access: Access::Full,
        method: better_method(statistics, v, entry, first_equality(on, entry)),
    }
}

// Adds the best steps of the left joined entries from that of the index on.
fn push_best_tail<A: Heap>(
    known: &mut Items<CodeStep, A>,
    statistics: &[&Stats<A>],
    conditions: &[Selection<A>],
    v: u64,
    entry: usize,
    lefts: &[MovableExpr<A>],
) -> Result<(), AllocError>
    requires few { v ≤ 2 ^ 40 }
    requires parts { All (λ s. s.factor ≤ million) conditions.now }
    requires entries { entry + length lefts.now ≤ 12 }
    ensures { OnOk result (known.new ≡ known.old ++ spec.best_tail (map (λ s. stats_of s.now) statistics.now) (selections_of conditions.now) v entry lefts.now) }
{
    match lefts {
        [] => Ok(()),
        [on, lefts @ ..] => {
            known.push(best_left_step(statistics, v, entry, on))?;
            let size = size_with_left(statistics, conditions, v, entry, on);
            push_best_tail(known, statistics, conditions, size, entry + 1, lefts)
        }
    }
}

/// The steps of the left joined entries from that of the index on, after so many combinations, that are least by their cost and
/// then by their numbers. It fails where memory runs out.
pub fn best_tail<A: Heap>(
    alloc: A,
    statistics: &[&Stats<A>],
    conditions: &[Selection<A>],
    v: u64,
    entry: usize,
    lefts: &[MovableExpr<A>],
) -> Result<Items<CodeStep, A>, AllocError>
    requires few { v ≤ 2 ^ 40 }
    requires parts { All (λ s. s.factor ≤ million) conditions.now }
    requires entries { entry + length lefts.now ≤ 12 }
    ensures admissible { IfOk result (λ tail. are_left_steps entry lefts.now tail ≡ true) }
    ensures least { IfOk result (λ tail. IsBestTail (map (λ s. stats_of s.now) statistics.now) (selections_of conditions.now) v entry lefts.now tail) }
{
    let mut tail = Items::new(alloc);
    push_best_tail(&mut tail, statistics, conditions, v, entry, lefts)?;
    Ok(tail)
}
