//! Logic of three values, and values as conditions (PostgreSQL: Logical Operators).

ghost use Rattle.std.specs.Prelude.{◌≡◌};
ghost use Rattle.value.specs.Datum.{datum_of};
ghost use Rattle.value.specs.Truths.{least, greatest, negated};
ghost use Rattle.value.specs.Conditions.{truth_at, at_truth};

use crate::order::Truth;
use crate::types::Val;
use memory::Heap;

/// Both: the least of two truth values.
pub fn and3(a: Truth, b: Truth) -> Truth
    ensures { result ≡ least a b }
{
    match (a, b) {
        (Truth::False, _) | (_, Truth::False) => Truth::False,
        (Truth::True, Truth::True) => Truth::True,
        _ => Truth::Unknown,
    }
}

/// Either: the greatest of two truth values.
pub fn or3(a: Truth, b: Truth) -> Truth
    ensures { result ≡ greatest a b }
{
    match (a, b) {
        (Truth::True, _) | (_, Truth::True) => Truth::True,
        (Truth::False, Truth::False) => Truth::False,
        _ => Truth::Unknown,
    }
}

/// Not: unknown stays unknown.
pub fn not3(a: Truth) -> Truth
    ensures { result ≡ negated a }
{
    match a {
        Truth::False => Truth::True,
        Truth::Unknown => Truth::Unknown,
        Truth::True => Truth::False,
    }
}

/// A value as a condition: null is unknown, and so is a value that is not a truth value.
pub fn as_condition<A: Heap>(value: &Val<'_, A>) -> Truth
    ensures { result ≡ truth_at (datum_of value.now) }
{
    match value {
        Val::Bool(true) => Truth::True,
        Val::Bool(false) => Truth::False,
        _ => Truth::Unknown,
    }
}

/// A condition as a value: unknown is null.
pub fn of_truth<'r, A: Heap>(truth: Truth) -> Val<'r, A>
    ensures { datum_of result ≡ at_truth truth }
{
    match truth {
        Truth::True => Val::Bool(true),
        Truth::False => Val::Bool(false),
        Truth::Unknown => Val::Null,
    }
}
