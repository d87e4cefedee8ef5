//! The running totals of the aggregates of a group.

ghost use Rattle.std.specs.Prelude.{◌≡◌, ◌+◌, ◌+ℤ◌, ◌^◌, ◌<◌, ◌≤◌, ◌++◌, [], ◌∷◌, List, drop, length, IfOk, IsOk, OnOk, OnErr, Ok, Some, option_map, pos, if◌then◌else◌, FitsSigned};
ghost use Rattle.std.specs.Int.{w128};
ghost use Rattle.memory.specs.Gives.{Gives};
ghost use Rattle.memory.specs.Results.{and_then};
ghost use Rattle.bags.specs.Least.{lesser};
ghost use Rattle.value.specs.Datum.{datum, datum_of, row_of};
ghost use Rattle.value.specs.Exact as exact;
ghost use Rattle.value.specs.Orders as orders;
ghost use Rattle.expr.specs.View.{aggregate_calls_of};
ghost use Rattle.eval.specs.Meaning.{Outcome};
ghost use Rattle.groups.specs.Aggregates as spec;
ghost use Rattle.groups.specs.Aggregates.{not_null, or_null, towards};
ghost use Rattle.groups.specs.Members.{all_of};
ghost use Rattle.groups.specs.Progress.{HasMemory};
ghost use Rattle.groups.specs.Running as running;
ghost use Rattle.groups.specs.View.{total_of, totals_of};

use crate::members::Arguments;
use expr::AggregateCall;
use memory::{Failure, Heap, Items};
use std::alloc::AllocError;
use std::cmp::Ordering;
use value::{Aggregate, Fault, FaultKind, Val, Value, cmp_values};

/// The aggregate of the values so far, nulls left out.
#[derive(Drop)]
pub enum Total<A: Heap> {
    /// The number of values.
    Count(u64),
    /// Their sum, none before the first value.
    Sum(Option<i128>),
    /// The least value, or the greatest.
    Best {
        /// The greatest.
        descends: bool,
        /// The value, none before the first.
        best: Option<Value<A>>,
    },
}

// The total of no values.
fn start<A: Heap>(aggregate: Aggregate) -> Total<A>
    ensures { total_of result ≡ running.total aggregate [] }
{
    match aggregate {
        Aggregate::Count => Total::Count(0),
        Aggregate::Sum => Total::Sum(None),
        Aggregate::Min => Total::Best {
            descends: false,
            best: None,
        },
        Aggregate::Max => Total::Best {
            descends: true,
            best: None,
        },
    }
}

// One more value in a count; out of memory past 64 bits, since so many values are in no memory.
fn count_more(count: u64) -> Result<u64, AllocError>
    ensures more { IfOk result (λ more. more ≡ count + 1) }
    ensures refused { OnErr result (2 ^ 64 ≤ count + 1) }
{
    match count.checked_add(1) {
        Some(more) => Ok(more),
        None => Err(AllocError),
    }
}

// The number in a value, 0 where it is none.
fn number<A: Heap>(value: &Val<'_, A>) -> i64
    ensures { result ≡ orders.number (datum_of value.now) }
{
    match value {
        Val::Int(n) => *n,
        _ => 0,
    }
}

// One more number in the exact sum: that of up to 2^64 numbers of 64 bits fits in 128.
fn sum_more(sum: Option<i128>, number: i64) -> Result<i128, AllocError>
    ensures more { IfOk result (λ more. more ≡ running.or_zero sum +ℤ number) }
    ensures refused { OnErr result (FitsSigned w128 (running.or_zero sum +ℤ number) → ⊥) }
{
    match sum.unwrap_or(0).checked_add(i128::from(number)) {
        Some(more) => Ok(more),
        None => Err(AllocError),
    }
}

fn compare<A: Heap>(a: &Val<'_, A>, b: &Val<'_, A>, descends: bool) -> Ordering
    ensures { result ≡ towards descends (datum_of a.now) (datum_of b.now) }
{
    let (first, second) = if descends { (b, a) } else { (a, b) };
    cmp_values(first, second)
}

// The value comes before the best so far.
fn is_better<A: Heap>(value: &Val<'_, A>, best: Option<&Value<A>>, descends: bool) -> bool
    ensures { lesser (towards descends) (option_map (λ v. datum v.now) best.entry) (Some (datum_of value.now)) ≡ (if result then Some (datum_of value.now) else option_map (λ v. datum v.now) best.entry) }
{
    match best {
        None => true,
        Some(best) => compare(&best.as_val(), value, descends).is_gt(),
    }
}

impl<A: Heap> Total<A> {
    // Adds a value that is not null.
    fn add_value(&mut self, alloc: A, value: &Val<'_, A>) -> Result<(), AllocError>
        ensures added { OnOk result (total_of self.new ≡ running.with_value (total_of self.old) (datum_of value.now)) }
        ensures in_place { running.IsInPlace (total_of self.old) (datum_of value.now) → IsOk result }
    {
        match self {
            Total::Count(count) => *count = count_more(*count)?,
            Total::Sum(sum) => *sum = Some(sum_more(*sum, number(value))?),
            Total::Best { descends, best } => {
                if is_better(value, best.as_ref(), *descends) {
                    *best = Some(value.to_value(alloc)?);
                }
            }
        }
        Ok(())
    }

    // Adds an argument, of which a null is no value.
    fn add(&mut self, alloc: A, argument: &Val<'_, A>) -> Result<(), AllocError>
        ensures added { OnOk result (total_of self.new ≡ running.with_argument (total_of self.old) (not_null (datum_of argument.now))) }
        ensures in_place { running.IsArgumentInPlace (total_of self.old) (not_null (datum_of argument.now)) → IsOk result }
    {
        match argument {
            Val::Null => Ok(()),
            value => self.add_value(alloc, value),
        }
    }

    // The value of the aggregate, or its fault at an offset.
    fn finish(&self, alloc: A, offset: u32) -> Result<Value<A>, Failure<Fault>>
        ensures { Gives (λ v. datum v) result (running.finished offset (total_of self.now)) }
    {
        match self {
            Total::Count(count) => number_at(offset, counted(*count)),
            Total::Sum(None) => Ok(Value::Null),
            Total::Sum(Some(sum)) => number_at(offset, in_range(*sum)),
            Total::Best { best, .. } => Ok(copy_or_null(alloc, best.as_ref())?),
        }
    }
}

// The count, where it fits in 64 bits with a sign.
fn counted(count: u64) -> Result<i64, FaultKind>
    ensures { result ≡ exact.in_range (pos count) }
{
    match i64::try_from(count) {
        Ok(n) => Ok(n),
        Err(_) => Err(FaultKind::Range),
    }
}

// The sum, where it fits in 64 bits.
fn in_range(sum: i128) -> Result<i64, FaultKind>
    ensures { result ≡ exact.in_range sum }
{
    match i64::try_from(sum) {
        Ok(n) => Ok(n),
        Err(_) => Err(FaultKind::Range),
    }
}

// A number, or its fault at an offset.
fn number_at<A: Heap>(
    offset: u32,
    number: Result<i64, FaultKind>,
) -> Result<Value<A>, Failure<Fault>>
    ensures { Gives (λ v. datum v) result (spec.number_at offset number) }
{
    match number {
        Ok(n) => Ok(Value::Int(n)),
        Err(kind) => Err(Failure::Error(Fault { offset, kind })),
    }
}

// A copy of a value, null where there is none.
fn copy_or_null<A: Heap>(alloc: A, value: Option<&Value<A>>) -> Result<Value<A>, AllocError>
    ensures { IfOk result (λ copy. datum copy ≡ or_null (option_map (λ v. datum v.now) value.entry)) }
{
    match value {
        None => Ok(Value::Null),
        Some(value) => value.copy(alloc),
    }
}

/// Adds the totals of no members.
pub fn push_fresh<A: Heap>(
    totals: &mut Vec<Total<A>, A>,
    calls: &[AggregateCall<'_, A>],
) -> Result<(), AllocError>
    ensures { OnOk result (totals_of totals.new.items ≡ totals_of totals.old.items ++ running.fresh (aggregate_calls_of calls.now)) }
{
    for call in calls {
        totals.push(start(call.aggregate))?;
    }
    Ok(())
}

// Adds an argument to the total at an index, if there is one.
fn add_at<A: Heap>(
    alloc: A,
    totals: &mut Vec<Total<A>, A>,
    index: usize,
    argument: &Val<'_, A>,
) -> Result<(), AllocError>
    ensures added { OnOk result (totals_of totals.new.items ≡ running.with_argument_at index (totals_of totals.old.items) (not_null (datum_of argument.now))) }
    ensures in_place { (outcomes : List Outcome) → running.AreOutcomesInPlace (drop index (totals_of totals.old.items)) (Ok (datum_of argument.now) ∷ outcomes) → IsOk result }
{
    if index < totals.len() {
        totals[index].add(alloc, argument)?;
    }
    Ok(())
}

// Adds the totals of no members, where none is there yet.
fn start_totals<A: Heap>(
    totals: &mut Vec<Total<A>, A>,
    calls: &[AggregateCall<'_, A>],
) -> Result<(), AllocError>
    ensures started { OnOk result (totals_of totals.new.items ≡ running.started (aggregate_calls_of calls.now) (totals_of totals.old.items)) }
    ensures in_place { 0 < length totals.old.items → IsOk result }
{
    if totals.is_empty() {
        push_fresh(totals, calls)?;
    }
    Ok(())
}

/// Adds the arguments of a member to the totals of its group, which has none before its first member, each as it is evaluated, so that
/// no list is made of them. At the first fault it stops.
pub fn add_arguments<A: Heap, G: Arguments<A>>(
    alloc: A,
    calls: &[AggregateCall<'_, A>],
    totals: &mut Vec<Total<A>, A>,
    arguments: &G,
) -> Result<(), Failure<Fault>>
    ensures added { Gives (λ done. totals_of totals.new.items) result (and_then (all_of (G.outcomes arguments.now)) (λ ds. Ok (running.with_arguments (running.started (aggregate_calls_of calls.now) (totals_of totals.old.items)) ds))) }
    ensures in_place { G.are_there arguments.now → 0 < length totals.old.items → running.AreOutcomesInPlace (totals_of totals.old.items) (G.outcomes arguments.now) → HasMemory result }
{
    start_totals(totals, calls)?;
    for index in 0..arguments.count() {
        let argument = arguments.argument(alloc, index)?;
        add_at(alloc, totals, index, &argument)?;
    }
    Ok(())
}

/// The values of all aggregates of a group, or the first fault.
#[tactic(auto, using(crate::proofs::Walks::walks))]
pub fn finish_all<A: Heap>(
    alloc: A,
    calls: &[AggregateCall<'_, A>],
    totals: &[Total<A>],
) -> Result<Items<Value<A>, A>, Failure<Fault>>
    ensures { Gives (λ values. row_of values) result (running.all_finished (aggregate_calls_of calls.now) (totals_of totals.now)) }
{
    let mut values = Items::new(alloc);
    for (call, total) in calls.iter().zip(totals) {
        values.push(total.finish(alloc, call.offset)?)?;
    }
    Ok(values)
}
