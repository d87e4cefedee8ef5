//! The operators on the outcomes of their operands: faults with their offsets, and values as conditions.

ghost use Rattle.std.specs.Prelude.{◌≡◌, ◌≢◌, Result, Ok, Err, map};
ghost use Rattle.memory.specs.Gives.{Gives};
ghost use Rattle.value.specs.Datum.{datum, datum_of, datums_of};
ghost use Rattle.value.specs.declared.order.Truth.{Truth};
ghost use Rattle.value.specs.declared.faults.Fault.{Fault};
ghost use Rattle.eval.specs.Meaning as spec;
ghost use Rattle.eval.specs.Meaning.{Outcome, at_offset};

use crate::operators::{compare, is_between, is_in, is_null, negate_if, operate};
use memory::{Failure, Heap};
use value::{
    Arithmetic, ColType, Comparison, Fault, FaultKind, Truth, Val, Value, as_condition, cast, neg,
    not3, of_truth,
};

// The outcome of arithmetic on numbers, its fault at an offset.
fn located<'a, A: Heap>(
    offset: u32,
    outcome: Result<Val<'a, A>, FaultKind>,
) -> Result<Val<'a, A>, Failure<Fault>>
    ensures value { Gives datum_of result (at_offset offset (datums_of outcome.entry)) }
    ensures memory { result ≢ Err Failure.OutOfMemory }
{
    match outcome {
        Ok(value) => Ok(value),
        Err(kind) => Err(Failure::Error(Fault { offset, kind })),
    }
}

// `- operand`.
pub(crate) fn negation<'a, A: Heap>(
    offset: u32,
    operand: Result<Val<'a, A>, Failure<Fault>>,
) -> Result<Val<'a, A>, Failure<Fault>>
    ensures value { (m : Outcome) → Gives datum_of operand.entry m → Gives datum_of result (spec.negation offset m) }
    ensures memory { operand.entry ≢ Err Failure.OutOfMemory → result ≢ Err Failure.OutOfMemory }
{
    match operand {
        Ok(x) => located(offset, neg(&x)),
        Err(failure) => Err(failure),
    }
}

// `left + right` and the like.
pub(crate) fn arithmetic<'a, A: Heap>(
    operator: Arithmetic,
    offset: u32,
    left: Val<'a, A>,
    right: Result<Val<'a, A>, Failure<Fault>>,
) -> Result<Val<'a, A>, Failure<Fault>>
    ensures value { (m : Outcome) → Gives datum_of right.entry m → Gives datum_of result (spec.arithmetic operator offset (Ok (datum_of left.entry)) m) }
    ensures memory { right.entry ≢ Err Failure.OutOfMemory → result ≢ Err Failure.OutOfMemory }
{
    match right {
        Ok(y) => located(offset, operate(operator, &left, &y)),
        Err(failure) => Err(failure),
    }
}

// `left = right` and the like.
pub(crate) fn comparison<'a, A: Heap>(
    operator: Comparison,
    left: Val<'a, A>,
    right: Result<Val<'a, A>, Failure<Fault>>,
) -> Result<Val<'a, A>, Failure<Fault>>
    ensures value { (m : Outcome) → Gives datum_of right.entry m → Gives datum_of result (spec.comparison operator (Ok (datum_of left.entry)) m) }
    ensures memory { right.entry ≢ Err Failure.OutOfMemory → result ≢ Err Failure.OutOfMemory }
{
    match right {
        Ok(y) => Ok(of_truth(compare(operator, &left, &y))),
        Err(failure) => Err(failure),
    }
}

// `operand [NOT] BETWEEN low AND high`.
pub(crate) fn between<'a, A: Heap>(
    negated: bool,
    operand: Val<'a, A>,
    low: Val<'a, A>,
    high: Result<Val<'a, A>, Failure<Fault>>,
) -> Result<Val<'a, A>, Failure<Fault>>
    ensures value { (m : Outcome) → Gives datum_of high.entry m → Gives datum_of result (spec.between negated (Ok (datum_of operand.entry)) (Ok (datum_of low.entry)) m) }
    ensures memory { high.entry ≢ Err Failure.OutOfMemory → result ≢ Err Failure.OutOfMemory }
{
    match high {
        Ok(z) => Ok(of_truth(negate_if(negated, is_between(&operand, &low, &z)))),
        Err(failure) => Err(failure),
    }
}

// `operand [NOT] IN (value, ..)`.
pub(crate) fn membership<'a, A: Heap>(
    negated: bool,
    operand: Result<Val<'a, A>, Failure<Fault>>,
    values: &[Value<A>],
) -> Result<Val<'a, A>, Failure<Fault>>
    ensures value { (m : Outcome) → Gives datum_of operand.entry m → Gives datum_of result (spec.membership negated m (map datum values.now)) }
    ensures memory { operand.entry ≢ Err Failure.OutOfMemory → result ≢ Err Failure.OutOfMemory }
{
    match operand {
        Ok(x) => Ok(of_truth(negate_if(negated, is_in(&x, values)))),
        Err(failure) => Err(failure),
    }
}

// `operand IS [NOT] NULL`.
pub(crate) fn null_check<'a, A: Heap>(
    negated: bool,
    operand: Result<Val<'a, A>, Failure<Fault>>,
) -> Result<Val<'a, A>, Failure<Fault>>
    ensures value { (m : Outcome) → Gives datum_of operand.entry m → Gives datum_of result (spec.null_check negated m) }
    ensures memory { operand.entry ≢ Err Failure.OutOfMemory → result ≢ Err Failure.OutOfMemory }
{
    match operand {
        Ok(x) => Ok(of_truth(negate_if(negated, is_null(&x)))),
        Err(failure) => Err(failure),
    }
}

// `NOT operand`.
pub(crate) fn logical_not<'a, A: Heap>(
    operand: Result<Val<'a, A>, Failure<Fault>>,
) -> Result<Val<'a, A>, Failure<Fault>>
    ensures value { (m : Outcome) → Gives datum_of operand.entry m → Gives datum_of result (spec.logical_not m) }
    ensures memory { operand.entry ≢ Err Failure.OutOfMemory → result ≢ Err Failure.OutOfMemory }
{
    match operand {
        Ok(x) => Ok(of_truth(not3(as_condition(&x)))),
        Err(failure) => Err(failure),
    }
}

// `CAST(operand AS to)`.
pub(crate) fn cast_at<'a, A: Heap>(
    alloc: A,
    to: ColType,
    offset: u32,
    operand: Result<Val<'a, A>, Failure<Fault>>,
) -> Result<Val<'a, A>, Failure<Fault>>
    ensures value { (m : Outcome) → Gives datum_of operand.entry m → Gives datum_of result (spec.cast_at to offset m) }
    ensures memory { to ≢ ColType.Text → operand.entry ≢ Err Failure.OutOfMemory → result ≢ Err Failure.OutOfMemory }
{
    match operand {
        Ok(x) => match cast(alloc, to, x) {
            Ok(value) => Ok(value),
            Err(Failure::Error(kind)) => Err(Failure::Error(Fault { offset, kind })),
            Err(Failure::OutOfMemory) => Err(Failure::OutOfMemory),
        },
        Err(failure) => Err(failure),
    }
}

// A value as a condition.
pub(crate) fn condition<A: Heap>(
    outcome: Result<Val<'_, A>, Failure<Fault>>,
) -> Result<Truth, Failure<Fault>>
    ensures value { (m : Outcome) → Gives datum_of outcome.entry m → Gives (λ t. t) result (spec.condition m) }
    ensures memory { outcome.entry ≢ Err Failure.OutOfMemory → result ≢ Err Failure.OutOfMemory }
{
    match outcome {
        Ok(value) => Ok(as_condition(&value)),
        Err(failure) => Err(failure),
    }
}

// A condition as a value.
pub(crate) fn as_value<'a, A: Heap>(
    outcome: Result<Truth, Failure<Fault>>,
) -> Result<Val<'a, A>, Failure<Fault>>
    ensures value { (m : Result Truth Fault) → Gives (λ t. t) outcome m → Gives datum_of result (spec.as_datum m) }
    ensures memory { outcome ≢ Err Failure.OutOfMemory → result ≢ Err Failure.OutOfMemory }
{
    match outcome {
        Ok(truth) => Ok(of_truth(truth)),
        Err(failure) => Err(failure),
    }
}
