//! The operators of values.

ghost use Rattle.std.specs.Prelude.{◌≡◌, map};
ghost use Rattle.value.specs.Datum.{datum, datum_of, datums_of};
ghost use Rattle.value.specs.Orders.{equal_of};
ghost use Rattle.eval.specs.Operators.{arithmetic_of, comparison_of, between_of, in_of, null_test, negated_if};

use memory::Heap;
use value::{
    Arithmetic, Comparison, FaultKind, Truth, Val, Value, add, and3, cmp_values, div, eq3, mul,
    not3, or3, rem, sub,
};

pub(crate) fn operate<'a, A: Heap>(
    operator: Arithmetic,
    left: &Val<'_, A>,
    right: &Val<'_, A>,
) -> Result<Val<'a, A>, FaultKind>
    ensures { datums_of result ≡ arithmetic_of operator (datum_of left.now) (datum_of right.now) }
{
    match operator {
        Arithmetic::Add => add(left, right),
        Arithmetic::Subtract => sub(left, right),
        Arithmetic::Multiply => mul(left, right),
        Arithmetic::Divide => div(left, right),
        Arithmetic::Remainder => rem(left, right),
    }
}

pub(crate) fn compare<A: Heap>(operator: Comparison, left: &Val<'_, A>, right: &Val<'_, A>) -> Truth
    ensures { result ≡ comparison_of operator (datum_of left.now) (datum_of right.now) }
{
    let order = match (left, right) {
        (Val::Null, _) | (_, Val::Null) => return Truth::Unknown,
        _ => cmp_values(left, right),
    };
    let holds = match operator {
        Comparison::Equal => order.is_eq(),
        Comparison::NotEqual => order.is_ne(),
        Comparison::Less => order.is_lt(),
        Comparison::LessOrEqual => order.is_le(),
        Comparison::Greater => order.is_gt(),
        Comparison::GreaterOrEqual => order.is_ge(),
    };
    if holds { Truth::True } else { Truth::False }
}

pub(crate) fn is_between<A: Heap>(value: &Val<'_, A>, low: &Val<'_, A>, high: &Val<'_, A>) -> Truth
    ensures { result ≡ between_of (datum_of value.now) (datum_of low.now) (datum_of high.now) }
{
    and3(
        compare(Comparison::GreaterOrEqual, value, low),
        compare(Comparison::LessOrEqual, value, high),
    )
}

fn equals<A: Heap>(value: &Val<'_, A>, member: &Value<A>) -> Truth
    ensures { result ≡ equal_of (datum_of value.now) (datum member.now) }
{
    eq3(value, &member.as_val())
}

/// Membership of a value among some: the OR of the equalities.
pub(crate) fn is_in<A: Heap>(value: &Val<'_, A>, members: &[Value<A>]) -> Truth
    ensures { result ≡ in_of (datum_of value.now) (map datum members.now) }
{
    let mut known = Truth::False;
    for member in members {
        known = or3(known, equals(value, member));
    }
    known
}

pub(crate) fn is_null<A: Heap>(value: &Val<'_, A>) -> Truth
    ensures { result ≡ null_test (datum_of value.now) }
{
    match value {
        Val::Null => Truth::True,
        _ => Truth::False,
    }
}

/// The negation where NOT is written.
pub(crate) fn negate_if(negated: bool, truth: Truth) -> Truth
    ensures { result ≡ negated_if negated truth }
{
    if negated { not3(truth) } else { truth }
}
