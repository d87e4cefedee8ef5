//! The search for the least code.

ghost use Rattle.std.specs.Prelude.{◌≡◌, ◌+◌, ◌-◌, ◌*◌, ◌<◌, ◌≤◌, ◌^◌, [], ◌∷◌, ◌++◌, IfOk, List, Some, false, length, slice_get, true};
ghost use Rattle.expr.specs.declared.code.CodeStep.{CodeStep};
ghost use Rattle.expr.specs.View.{code_of};
ghost use Rattle.trailcheck.specs.Admissible.{are_left_steps, is_admissible};
ghost use Rattle.trailcheck.specs.Settings.{inner_count};
ghost use Rattle.code_costs.specs.Best.{IsLeast, estimates};
ghost use Rattle.code_costs.specs.Cost as cost_spec;
ghost use Rattle.joins.specs.Orders.{Order};
ghost use Rattle.joindp.specs.Following as following;
ghost use Rattle.joindp.specs.Following.{may_follow};
ghost use Rattle.joindp.specs.Search as spec;
ghost use Rattle.joindp.specs.Search.{After, AreAccesses, AreSizes, HasOrders, IsKept, IsRow, IsSmall, IsTable, Start, entry_count, is_order_of, is_reached, live_order, plan_of, set_of};
ghost use Rattle.joindp.specs.Candidates.{AreCandidates, IsCandidate, picked};
ghost use Rattle.code_costs.specs.View.{problem_of};
ghost use Rattle.joindp.specs.Walks as walks;
ghost use Rattle.joindp.specs.Walks.{IsBestFrom, IsNoLater, IsNoWorse, IsPick, numbers};

use crate::best::{Best, Pick};
use crate::candidates::{Candidate, candidates, cost_with, index_after};
use crate::following::{accesses, first_steps};
use crate::inputs::Inputs;
use crate::orders::{is_live, order_index, orders};
use crate::reaching::{bit_of, is_order_of, is_reached, nexts};
use code_costs::{Problem, access_cost, cost, inner_size, last_sorting, size};
use expr::{Access, Code, CodeStep, ColumnId};
use joins::order_of;
use left_tails::best_tail;
use memory::{Heap, Items};
use stats::EntrySet;
use std::alloc::AllocError;
use std::cmp::Ordering;
use trailcheck::{entry_index, inner_count, some_never_true};

// ---- the better of two plans

// True where the numbers of some steps are no later than those of others.
fn are_no_later(steps: &[CodeStep], others: &[CodeStep]) -> bool
    ensures yes { result ≡ true → IsNoLater (numbers steps.now) (numbers others.now) }
    ensures no { result ≡ false → IsNoLater (numbers others.now) (numbers steps.now) }
{
    match (steps.split_first(), others.split_first()) {
        (None, _) => true,
        (Some(_), None) => false,
        (Some((step, steps)), Some((other, others))) => {
            match step.numbers().cmp(&other.numbers()) {
                Ordering::Less => true,
                Ordering::Equal => are_no_later(steps, others),
                Ordering::Greater => false,
            }
        }
    }
}

// True where the one is no worse.
fn is_no_worse(best: Pick<'_>, other: Pick<'_>) -> bool
    ensures yes { result ≡ true → IsNoWorse (best.entry.cost, best.entry.first.now ∷ best.entry.rest.now) (other.entry.cost, other.entry.first.now ∷ other.entry.rest.now) }
    ensures no { result ≡ false → IsNoWorse (other.entry.cost, other.entry.first.now ∷ other.entry.rest.now) (best.entry.cost, best.entry.first.now ∷ best.entry.rest.now) }
{
    if best.cost != other.cost {
        return best.cost < other.cost;
    }
    match best.first.numbers().cmp(&other.first.numbers()) {
        Ordering::Less => true,
        Ordering::Equal => are_no_later(best.rest, other.rest),
        Ordering::Greater => false,
    }
}

// Of the best pick so far and that of a step, with its cost, and of the best rest after it, the better one.
fn better<'t, A: Heap>(
    best: Option<Pick<'t>>,
    cost: u128,
    first: &'t CodeStep,
    rest: &'t Option<Best<A>>,
) -> Option<Pick<'t>>
    requires cost { cost ≤ 2 ^ 81 }
    requires rest { IsSmall (2 ^ 12) (plan_of rest.now) }
    ensures { IsPick (picked best.entry) (walks.with_first cost first.now (plan_of rest.now)) (picked result) }
{
    let Some(rest) = rest else {
        return best;
    };
    let pick = Pick {
        cost: cost + rest.cost,
        first,
        rest: rest.steps.as_slice(),
    };
    match best {
        Some(best) => Some(if is_no_worse(best, pick) { best } else { pick }),
        None => Some(pick),
    }
}

// The plan of a pick.
fn plan<A: Heap>(alloc: A, pick: Option<Pick<'_>>) -> Result<Option<Best<A>>, AllocError>
    ensures { IfOk result (λ b. plan_of b ≡ picked pick.entry) }
{
    let Some(pick) = pick else {
        return Ok(None);
    };
    let count = pick.rest.len().saturating_add(1);
    let mut steps = Vec::with_capacity(alloc, count)?;
    steps.push(*pick.first)?;
    steps.extend_from_slice(pick.rest)?;
    Ok(Some(Best {
        cost: pick.cost,
        steps: Items::from(steps),
    }))
}

// ---- the table

// The best plan from a set on, in the table, for the order of that index: where none is kept of it, that for no order.
fn best_in<'t, A: Heap>(
    inputs: &Inputs<'_, '_, A>,
    table: &'t [Vec<Option<Best<A>>, A>],
    low: usize,
    set: usize,
    index: usize,
) -> &'t Option<Best<A>>
    requires table { IsTable (problem_of inputs.now.problem.now) inputs.now.nexts.now inputs.now.orders.now low table.now }
    requires above { low < set }
    requires within { set < 2 ^ entry_count (problem_of inputs.now.problem.now) }
    requires reached { is_reached (entry_count (problem_of inputs.now.problem.now)) inputs.now.nexts.now set ≡ true }
    requires index { index < length inputs.now.orders.now }
    ensures best { (order : Order) → slice_get inputs.now.orders.now index ≡ Some order → is_order_of set order ≡ true → IsBestFrom (spec.search (problem_of inputs.now.problem.now)) (After set order) (plan_of result.now) }
    ensures small { (order : Order) → slice_get inputs.now.orders.now index ≡ Some order → is_order_of set order ≡ true → IsSmall (2 ^ entry_count (problem_of inputs.now.problem.now) - set) (plan_of result.now) }
{
    let count = inputs.sizes.len();
    let row = &table[count - 1 - set];
    match &row[index] {
        None => &row[inputs.none],
        best => best,
    }
}

// ---- one step

// The best rest after a step after a set, of which the combinations come in the order of that index.
fn rest_after<'t, A: Heap>(
    inputs: &Inputs<'_, '_, A>,
    table: &'t [Vec<Option<Best<A>>, A>],
    set: usize,
    index: usize,
    order: Option<ColumnId>,
    candidate: &Candidate,
) -> &'t Option<Best<A>>
    requires table { IsTable (problem_of inputs.now.problem.now) inputs.now.nexts.now inputs.now.orders.now set table.now }
    requires within { set < 2 ^ entry_count (problem_of inputs.now.problem.now) }
    requires reached { is_reached (entry_count (problem_of inputs.now.problem.now)) inputs.now.nexts.now set ≡ true }
    requires fits { is_order_of set order ≡ true }
    requires order { slice_get inputs.now.orders.now index ≡ Some order }
    requires allowed { may_follow (problem_of inputs.now.problem.now).setting (set_of set) candidate.now.step ≡ true }
    requires candidate { IsCandidate (problem_of inputs.now.problem.now) inputs.now.orders.now set candidate.now }
    ensures best { IsBestFrom (spec.search (problem_of inputs.now.problem.now)) (spec.next (problem_of inputs.now.problem.now) (After set order) candidate.now.step) (plan_of result.now) }
    ensures small { IsSmall (2 ^ entry_count (problem_of inputs.now.problem.now) - set - 1) (plan_of result.now) }
{
    let next = index_after(index, candidate.merge);
    best_in(inputs, table, set, set + candidate.bit, next)
}

// The index of an order, or that of none where nobody will ask for it after the set.
fn live_index<A: Heap>(inputs: &Inputs<'_, '_, A>, set: usize, order: Option<ColumnId>) -> usize
    requires { HasOrders (problem_of inputs.now.problem.now) inputs.now.orders.now }
    ensures { slice_get inputs.now.orders.now result ≡ Some (live_order (problem_of inputs.now.problem.now) (set_of set) order) }
{
    if is_live(inputs.problem, EntrySet { bits: set as u64 }, order) {
        order_index(inputs.orders, order)
    } else {
        inputs.none
    }
}

// The best rest after the first step.
fn rest_after_first<'t, A: Heap>(
    inputs: &Inputs<'_, '_, A>,
    table: &'t [Vec<Option<Best<A>>, A>],
    step: CodeStep,
) -> &'t Option<Best<A>>
    requires orders { HasOrders (problem_of inputs.now.problem.now) inputs.now.orders.now }
    requires table { IsTable (problem_of inputs.now.problem.now) inputs.now.nexts.now inputs.now.orders.now 0 table.now }
    requires allowed { may_follow (problem_of inputs.now.problem.now).setting (λ entry. false) step ≡ true }
    ensures best { IsBestFrom (spec.search (problem_of inputs.now.problem.now)) (spec.next (problem_of inputs.now.problem.now) Start step) (plan_of result.now) }
    ensures small { IsSmall (2 ^ 12) (plan_of result.now) }
{
    let entry = entry_index(step);
    let set = bit_of(entry);
    let index = live_index(inputs, set, order_of(entry, step.access));
    best_in(inputs, table, 0, set, index)
}

// ---- the best of all steps

// The best plan from a set on, where its combinations come in the order of that index, of which the steps are those that may follow.
fn best_after<'t, A: Heap>(
    alloc: A,
    inputs: &Inputs<'_, '_, A>,
    table: &'t [Vec<Option<Best<A>>, A>],
    set: usize,
    index: usize,
    order: Option<ColumnId>,
    candidates: &'t [Candidate],
) -> Result<Option<Best<A>>, AllocError>
    requires table { IsTable (problem_of inputs.now.problem.now) inputs.now.nexts.now inputs.now.orders.now set table.now }
    requires within { set + 1 < 2 ^ entry_count (problem_of inputs.now.problem.now) }
    requires reached { is_reached (entry_count (problem_of inputs.now.problem.now)) inputs.now.nexts.now set ≡ true }
    requires fits { is_order_of set order ≡ true }
    requires order { slice_get inputs.now.orders.now index ≡ Some order }
    requires candidates { AreCandidates (problem_of inputs.now.problem.now) inputs.now.orders.now set candidates.now }
    ensures best { IfOk result (λ b. IsBestFrom (spec.search (problem_of inputs.now.problem.now)) (After set order) (plan_of b)) }
    ensures small { IfOk result (λ b. IsSmall (2 ^ entry_count (problem_of inputs.now.problem.now) - set) (plan_of b)) }
{
    let mut best = None;
    for candidate in candidates {
        let cost = cost_with(order, candidate);
        let rest = rest_after(inputs, table, set, index, order, candidate);
        best = better(best, cost, &candidate.step, rest);
    }
    plan(alloc, best)
}

// The best plan of all, of which the steps are those that may come first.
fn best_of_all<'t, A: Heap>(
    alloc: A,
    inputs: &Inputs<'_, '_, A>,
    table: &'t [Vec<Option<Best<A>>, A>],
    steps: &'t [CodeStep],
) -> Result<Option<Best<A>>, AllocError>
    requires orders { HasOrders (problem_of inputs.now.problem.now) inputs.now.orders.now }
    requires table { IsTable (problem_of inputs.now.problem.now) inputs.now.nexts.now inputs.now.orders.now 0 table.now }
    requires some { 0 < entry_count (problem_of inputs.now.problem.now) }
    requires steps { steps.now ≡ following.first_steps (problem_of inputs.now.problem.now).setting }
    ensures { IfOk result (λ b. IsBestFrom (spec.search (problem_of inputs.now.problem.now)) Start (plan_of b)) }
{
    let mut best = None;
    for step in steps {
        let cost = access_cost(inputs.problem, entry_index(*step), step.access);
        let rest = rest_after_first(inputs, table, *step);
        best = better(best, cost, step, rest);
    }
    plan(alloc, best)
}

// The plan where all entries are placed.
fn at_end<A: Heap>(alloc: A, problem: &Problem<'_, A>, order: Option<ColumnId>) -> Option<Best<A>>
    ensures value { plan_of result ≡ Some (cost_spec.last_sorting (estimates (problem_of problem.now)) order (problem_of problem.now).wanted, []) }
    ensures small { IsSmall 1 (plan_of result) }
{
    Some(Best {
        cost: last_sorting(problem, order),
        steps: Items::new(alloc),
    })
}

// The best plan from a set on, of which these steps can be in a least code, for an order that its combinations can come in and that
// somebody may ask for. None follow where it is the set of all entries.
fn best_from<A: Heap>(
    alloc: A,
    inputs: &Inputs<'_, '_, A>,
    table: &[Vec<Option<Best<A>>, A>],
    set: usize,
    index: usize,
    order: Option<ColumnId>,
    candidates: &[Candidate],
) -> Result<Option<Best<A>>, AllocError>
    requires table { IsTable (problem_of inputs.now.problem.now) inputs.now.nexts.now inputs.now.orders.now set table.now }
    requires within { set < 2 ^ entry_count (problem_of inputs.now.problem.now) }
    requires reached { is_reached (entry_count (problem_of inputs.now.problem.now)) inputs.now.nexts.now set ≡ true }
    requires order { slice_get inputs.now.orders.now index ≡ Some order }
    requires candidates { AreCandidates (problem_of inputs.now.problem.now) inputs.now.orders.now set candidates.now }
    ensures { IfOk result (λ b. is_order_of set order ≡ true → IsKept (problem_of inputs.now.problem.now) set order (plan_of b)) }
{
    let placed = EntrySet { bits: set as u64 };
    if !is_order_of(placed, order) {
        return Ok(None);
    }
    if !is_live(inputs.problem, placed, order) {
        return Ok(None);
    }
    if set + 1 == inputs.sizes.len() {
        return Ok(at_end(alloc, inputs.problem, order));
    }
    best_after(alloc, inputs, table, set, index, order, candidates)
}

// The best plans from a set on, for each order that its combinations can come in and that somebody may ask for; none where no code
// places the set.
fn row_of<A: Heap>(
    alloc: A,
    inputs: &Inputs<'_, '_, A>,
    table: &[Vec<Option<Best<A>>, A>],
    set: usize,
) -> Result<Vec<Option<Best<A>>, A>, AllocError>
    requires orders { HasOrders (problem_of inputs.now.problem.now) inputs.now.orders.now }
    requires table { IsTable (problem_of inputs.now.problem.now) inputs.now.nexts.now inputs.now.orders.now set table.now }
    requires within { set < 2 ^ entry_count (problem_of inputs.now.problem.now) }
    ensures { IfOk result (λ row. is_reached (entry_count (problem_of inputs.now.problem.now)) inputs.now.nexts.now set ≡ true → IsRow (problem_of inputs.now.problem.now) inputs.now.orders.now set row.items) }
{
    if !is_reached(inputs.nexts, set, inner_count(inputs.problem.setting)) {
        return Ok(Vec::new(alloc));
    }
    let candidates = candidates(alloc, inputs, set)?;
    let mut row = Vec::with_capacity(alloc, inputs.orders.len())?;
    for (index, order) in inputs.orders.iter().enumerate() {
        let best = best_from(
            alloc,
            inputs,
            table,
            set,
            index,
            *order,
            candidates.as_slice(),
        )?;
        row.push(best)?;
    }
    Ok(row)
}

// ---- the search

// The estimated number of combinations of each set of entries, by its bits.
fn sizes<A: Heap>(alloc: A, problem: &Problem<'_, A>) -> Result<Items<u64, A>, AllocError>
    ensures { IfOk result (λ sizes. AreSizes (problem_of problem.now) sizes) }
{
    let mut sizes = Items::new(alloc);
    let count = bit_of(inner_count(problem.setting)) as u64;
    for bits in 0..count {
        sizes.push(size(problem, EntrySet { bits }))?;
    }
    Ok(sizes)
}

// The ways in which the rows of each entry may be read.
fn all_accesses<A: Heap>(
    alloc: A,
    problem: &Problem<'_, A>,
) -> Result<Items<Items<Access, A>, A>, AllocError>
    ensures { IfOk result (λ lists. AreAccesses (problem_of problem.now) lists) }
{
    let mut lists = Items::new(alloc);
    let count = inner_count(problem.setting);
    for entry in 0..count {
        lists.push(accesses(alloc, problem, entry)?)?;
    }
    Ok(lists)
}

// The best plan of all: the best plans from each set on, the whole one first, and then the best first step.
fn best_plan<A: Heap>(alloc: A, inputs: &Inputs<'_, '_, A>) -> Result<Option<Best<A>>, AllocError>
    requires { HasOrders (problem_of inputs.now.problem.now) inputs.now.orders.now }
    ensures { IfOk result (λ b. IsBestFrom (spec.search (problem_of inputs.now.problem.now)) Start (plan_of b)) }
{
    let count = inputs.sizes.len();
    let mut table = Vec::with_capacity(alloc, count)?;
    for set in (1..count).rev() {
        let row = row_of(alloc, inputs, &table, set)?;
        table.push(row)?;
    }
    if count == 1 {
        return Ok(at_end(alloc, inputs.problem, None));
    }
    let steps = first_steps(alloc, inputs.problem, inputs.accesses)?;
    best_of_all(alloc, inputs, &table, steps.as_slice())
}

// The steps of the least code, where no condition is never true.
fn best_steps<A: Heap>(alloc: A, problem: &Problem<'_, A>) -> Result<Option<Best<A>>, AllocError>
    ensures { IfOk result (λ b. IsBestFrom (spec.search (problem_of problem.now)) Start (plan_of b)) }
{
    let sizes = sizes(alloc, problem)?;
    let orders = orders(alloc, problem)?;
    let listed = orders.as_slice();
    let none = order_index(listed, None);
    let accesses = all_accesses(alloc, problem)?;
    let nexts = nexts(alloc, problem)?;
    let inputs = Inputs {
        problem,
        sizes: sizes.as_slice(),
        orders: listed,
        none,
        accesses: accesses.as_slice(),
        nexts: nexts.as_slice(),
    };
    best_plan(alloc, &inputs)
}

// The best steps of the left joined entries.
fn best_left_steps<A: Heap>(
    alloc: A,
    problem: &Problem<'_, A>,
) -> Result<Items<CodeStep, A>, AllocError>
    ensures admissible { IfOk result (λ tail. are_left_steps (inner_count (problem_of problem.now).setting) (problem_of problem.now).setting.lefts tail ≡ true) }
    ensures least { IfOk result (λ tail. (other : List CodeStep) → are_left_steps (inner_count (problem_of problem.now).setting) (problem_of problem.now).setting.lefts other ≡ true → IsNoWorse (cost_spec.left_cost (estimates (problem_of problem.now)) tail, tail) (cost_spec.left_cost (estimates (problem_of problem.now)) other, other)) }
{
    let tail = best_tail(
        alloc,
        problem.statistics,
        problem.selections.as_slice(),
        inner_size(problem),
        inner_count(problem.setting),
        problem.setting.lefts.as_slice(),
    )?;
    Ok(tail)
}

// Some steps, and then others.
fn with_tail<A: Heap>(
    alloc: A,
    steps: &[CodeStep],
    tail: &[CodeStep],
) -> Result<Items<CodeStep, A>, AllocError>
    ensures { IfOk result (λ all. all ≡ steps.now ++ tail.now) }
{
    let mut all = Vec::from_slice(alloc, steps)?;
    all.extend_from_slice(tail)?;
    Ok(Items::from(all))
}

/// The code that a plan may have and that is least by its cost and then by its numbers, and its cost (Selinger et al. 1979,
/// section 5). It keeps the best rest of a code from each set of placed entries and each order that their combinations may come in
/// and that somebody may ask for: of n entries and k orders (one more than the columns that are equated or wanted), at most 2^n
/// times k plans of up to n steps at once. It fails where memory runs out.
pub fn search<A: Heap>(alloc: A, problem: &Problem<'_, A>) -> Result<(Code<A>, u128), AllocError>
    ensures admissible { IfOk result (λ best. is_admissible (problem_of problem.now).setting (code_of best.0) ≡ true) }
    ensures cost { IfOk result (λ best. best.1 ≡ cost_spec.cost (estimates (problem_of problem.now)) (code_of best.0)) }
    ensures least { IfOk result (λ best. IsLeast (problem_of problem.now) best.1 (code_of best.0)) }
{
    if some_never_true(problem.setting.conditions.as_slice()) {
        return Ok((Code::Empty, 0));
    }
    let best = best_steps(alloc, problem)?.unwrap();
    let tail = best_left_steps(alloc, problem)?;
    let steps = with_tail(alloc, best.steps.as_slice(), tail.as_slice())?;
    let code = Code::Steps(steps);
    let total = cost(problem, &code);
    Ok((code, total))
}
