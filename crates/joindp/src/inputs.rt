//! What the search reads.

ghost use Rattle.std.specs.Prelude.{◌≡◌, None, Some, slice_get};
ghost use Rattle.joindp.specs.Search.{AreAccesses, AreNexts, AreSizes};
ghost use Rattle.code_costs.specs.View.{problem_of};

use code_costs::Problem;
use expr::{Access, ColumnId};
use memory::{Heap, Items};

/// What the search reads: the estimated number of combinations of each set of entries, by its bits, the orders that somebody may
/// ask for, with the index of none, how the rows of each entry may be read, and which entries may be next after each set.
#[derive(Drop)]
pub(crate) struct Inputs<'s, 'p, A: Heap> {
    pub problem: &'s Problem<'p, A>,
    pub sizes: &'s [u64],
    pub orders: &'s [Option<ColumnId>],
    pub none: usize,
    pub accesses: &'s [Items<Access, A>],
    pub nexts: &'s [u64],
    ghost unordered: { slice_get orders.now none ≡ Some None },
    ghost sized: { AreSizes (problem_of problem.now) sizes.now },
    ghost following: { AreNexts (problem_of problem.now) nexts.now },
    ghost read: { AreAccesses (problem_of problem.now) accesses.now },
}
