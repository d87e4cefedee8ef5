//! The sets of entries that codes place, and the orders in which their combinations can come.

ghost use Rattle.std.specs.Prelude.{◌≡◌, ◌≤◌, ◌<◌, ◌^◌, ◌==◌, ◌&&◌, ◌||◌, ℕ, IfOk, length, nat_lt, true};
ghost use Rattle.stats.specs.View.{members};
ghost use Rattle.joindp.specs.Following as following;
ghost use Rattle.joindp.specs.Search as spec;
ghost use Rattle.joindp.specs.Search.{AreNexts, entry_count, set_of};
ghost use Rattle.code_costs.specs.View.{problem_of};

use crate::following::{may_be_next, some_joined};
use code_costs::Problem;
use expr::ColumnId;
use memory::{Heap, Items};
use stats::EntrySet;
use std::alloc::AllocError;
use trailcheck::inner_count;

/// The bits of the set of one entry.
pub(crate) fn bit_of(entry: usize) -> usize
    requires { entry < 64 }
    ensures { result ≡ 2 ^ entry }
{
    1 << entry
}

/// True where combinations of the set can come in that order.
pub(crate) fn is_order_of(set: EntrySet, order: Option<ColumnId>) -> bool
    ensures { result ≡ spec.is_order_of set.bits order }
{
    match order {
        Some(id) => set.contains(id.entry),
        None => true,
    }
}

// True where the entry is of the set, and may be the next one after its others.
fn is_last(nexts: &[u64], set: usize, entry: usize) -> bool
    requires some { 0 < set }
    requires within { set ≤ length nexts.now }
    requires entry { entry < 64 }
    ensures { result ≡ spec.is_last nexts.now set entry }
{
    let placed = EntrySet { bits: set as u64 };
    if !placed.contains(entry) {
        return false;
    }
    let before = set.saturating_sub(bit_of(entry));
    EntrySet {
        bits: nexts[before],
    }
    .contains(entry)
}

/// True where some code places the set; `nexts` has the entries that may be next after each lesser set, of at most 12 entries.
pub(crate) fn is_reached(nexts: &[u64], set: usize, count: usize) -> bool
    requires within { set ≤ length nexts.now }
    requires few { count ≤ 12 }
    ensures { result ≡ spec.is_reached count nexts.now set }
{
    if set == 0 {
        return true;
    }
    for entry in 0..count {
        if is_last(nexts, set, entry) {
            return true;
        }
    }
    false
}

// The set with the entry, where it may be the next one.
fn with_next(next: EntrySet, entry: usize, may_be_next: bool) -> EntrySet
    requires { entry < 64 }
    ensures { (i : ℕ) → members result i ≡ ((may_be_next && (entry == i)) || members next i) }
{
    if may_be_next { next.with(entry) } else { next }
}

// The entries that may be next after a set.
fn next_entries<A: Heap>(problem: &Problem<'_, A>, placed: EntrySet) -> EntrySet
    ensures { (i : ℕ) → members result i ≡ (nat_lt i (entry_count (problem_of problem.now)) && following.may_be_next (problem_of problem.now).setting (members placed) i) }
{
    let some = some_joined(problem, placed);
    let mut next = EntrySet::none();
    let count = inner_count(problem.setting);
    for entry in 0..count {
        next = with_next(next, entry, may_be_next(problem, placed, entry, some));
    }
    next
}

// The bits of the entries that may be next after a set, where some code places it; else none.
fn next_bits<A: Heap>(problem: &Problem<'_, A>, nexts: &[u64], set: usize) -> u64
    requires { set ≤ length nexts.now }
    ensures { spec.is_reached (entry_count (problem_of problem.now)) nexts.now set ≡ true → (i : ℕ) → set_of result i ≡ (nat_lt i (entry_count (problem_of problem.now)) && following.may_be_next (problem_of problem.now).setting (set_of set) i) }
{
    if !is_reached(nexts, set, inner_count(problem.setting)) {
        return 0;
    }
    next_entries(problem, EntrySet { bits: set as u64 }).bits
}

/// The bits of the entries that may be next after each set that some code places, by its bits.
pub(crate) fn nexts<A: Heap>(
    alloc: A,
    problem: &Problem<'_, A>,
) -> Result<Items<u64, A>, AllocError>
    ensures { IfOk result (λ nexts. AreNexts (problem_of problem.now) nexts) }
{
    let mut nexts = Items::new(alloc);
    let sets = bit_of(inner_count(problem.setting));
    for set in 0..sets {
        let next = next_bits(problem, nexts.as_slice(), set);
        nexts.push(next)?;
    }
    Ok(nexts)
}
