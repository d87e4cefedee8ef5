//! The steps after a set that can be in a least code, with what is the same of each whatever order the combinations come in.

ghost use Rattle.std.specs.Prelude.{◌≡◌, ◌+◌, ◌<◌, ◌≤◌, ◌^◌, IfOk, slice_get, Some, true, ℕ};
ghost use Rattle.trailcheck.specs.Shapes as shapes;
ghost use Rattle.code_costs.specs.Best.{estimates};
ghost use Rattle.joindp.specs.Candidates as spec;
ghost use Rattle.joindp.specs.Candidates.{AreCandidates, Asks, IsCandidate};
ghost use Rattle.code_costs.specs.Cost as cost_spec;
ghost use Rattle.joins.specs.Orders.{Order};
ghost use Rattle.joindp.specs.Following.{may_follow};
ghost use Rattle.joindp.specs.Search.{HasOrders, entry_count, set_of};
ghost use Rattle.code_costs.specs.View.{problem_of};

use crate::few_steps::few_steps;
use crate::inputs::Inputs;
use crate::orders::order_index;
use crate::reaching::bit_of;
use code_costs::step_cost;
use expr::{CodeStep, ColumnId, Method};
use joins::{is_ordered_by, sides, sort_steps};
use memory::{Heap, Items};
use stats::EntrySet;
use std::alloc::AllocError;
use trailcheck::entry_index;

/// The order that a merge asks for.
#[derive(Clone, Copy)]
pub(crate) struct MergeOrder {
    /// The column that the combinations are sorted by.
    pub column: ColumnId,
    /// The index of the order by this column.
    pub index: usize,
    /// What sorting the combinations costs.
    pub sorting: u128,
}

/// A step that may follow a set.
#[derive(Clone, Copy)]
pub(crate) struct Candidate {
    /// The step.
    pub step: CodeStep,
    /// The bits of the set of its entry.
    pub bit: usize,
    /// Its cost where the combinations come in the order that it asks for.
    pub cost: u128,
    /// That order, of a merge.
    pub merge: Option<MergeOrder>,
}

// ---- by the order in which the combinations come

// The cost of sorting combinations that come in an order, for a step that may ask for one.
fn sorting_for(order: Option<ColumnId>, merge: Option<MergeOrder>) -> u128
    ensures { result ≡ spec.sorting_for order merge }
{
    match merge {
        Some(merge) if !is_ordered_by(order, merge.column) => merge.sorting,
        _ => 0,
    }
}

/// The cost of a step where the combinations come in that order.
pub(crate) fn cost_with(order: Option<ColumnId>, candidate: &Candidate) -> u128
    requires { candidate.now.cost + spec.sorting_for order candidate.now.merge ≤ 2 ^ 81 }
    ensures { result ≡ candidate.now.cost + spec.sorting_for order candidate.now.merge }
{
    candidate.cost + sorting_for(order, candidate.merge)
}

/// The index of the order after a step, where the combinations come in the order of that index.
pub(crate) fn index_after(index: usize, merge: Option<MergeOrder>) -> usize
    ensures { result ≡ spec.index_after index merge }
{
    match merge {
        Some(merge) => merge.index,
        None => index,
    }
}

// ---- by the set

// The order that a step asks for after so many combinations, if it is a merge.
fn merge_order<A: Heap>(
    inputs: &Inputs<'_, '_, A>,
    x: u64,
    set: usize,
    step: CodeStep,
) -> Option<MergeOrder>
    requires orders { HasOrders (problem_of inputs.now.problem.now) inputs.now.orders.now }
    requires allowed { may_follow (problem_of inputs.now.problem.now).setting (set_of set) step ≡ true }
    requires few { x ≤ 2 ^ 40 }
    ensures { Asks (estimates (problem_of inputs.now.problem.now)) inputs.now.orders.now x step result }
{
    let Method::Merge { conjunct } = step.method else {
        return None;
    };
    let conditions = inputs.problem.setting.conditions.as_slice();
    let (column, _) = sides(conditions, entry_index(step), conjunct)?;
    Some(MergeOrder {
        column,
        index: order_index(inputs.orders, Some(column)),
        sorting: sort_steps(x),
    })
}

// The order that a step asks for.
fn asked(merge: Option<MergeOrder>) -> Option<ColumnId>
    ensures { result ≡ spec.asked merge }
{
    match merge {
        Some(merge) => Some(merge.column),
        None => None,
    }
}

// A step that may follow a set.
fn candidate_of<A: Heap>(inputs: &Inputs<'_, '_, A>, set: usize, step: CodeStep) -> Candidate
    requires orders { HasOrders (problem_of inputs.now.problem.now) inputs.now.orders.now }
    requires within { set < 2 ^ entry_count (problem_of inputs.now.problem.now) }
    requires allowed { may_follow (problem_of inputs.now.problem.now).setting (set_of set) step ≡ true }
    ensures step { result.step ≡ step }
    ensures candidate { IsCandidate (problem_of inputs.now.problem.now) inputs.now.orders.now set result }
{
    let bit = bit_of(entry_index(step));
    let x = inputs.sizes[set];
    let y = inputs.sizes[bit];
    let merge = merge_order(inputs, x, set, step);
    Candidate {
        step,
        bit,
        cost: step_cost(inputs.problem, x, y, asked(merge), step),
        merge,
    }
}

/// The steps after a set that can be in a least code.
pub(crate) fn candidates<A: Heap>(
    alloc: A,
    inputs: &Inputs<'_, '_, A>,
    set: usize,
) -> Result<Items<Candidate, A>, AllocError>
    requires orders { HasOrders (problem_of inputs.now.problem.now) inputs.now.orders.now }
    requires within { set < 2 ^ entry_count (problem_of inputs.now.problem.now) }
    ensures { IfOk result (λ candidates. AreCandidates (problem_of inputs.now.problem.now) inputs.now.orders.now set candidates) }
{
    let placed = EntrySet { bits: set as u64 };
    let steps = few_steps(alloc, inputs.problem, inputs.accesses, placed)?;
    let mut candidates = Vec::with_capacity(alloc, steps.len())?;
    for step in steps.as_slice() {
        candidates.push(candidate_of(inputs, set, *step))?;
    }
    Ok(Items::from(candidates))
}
