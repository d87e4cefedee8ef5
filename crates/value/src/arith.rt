//! Arithmetic on bigints: exact, or the fault (PostgreSQL: Mathematical Functions and Operators).

ghost use Rattle.std.specs.Prelude.{◌≡◌};
ghost use Rattle.value.specs.Datum.{datum_of, datums_of};
ghost use Rattle.value.specs.Exact.{with_numbers, with_number, sum_of, difference_of, product_of, quotient_of, remainder_of, negated_of};

use crate::types::{FaultKind, Val};
use memory::Heap;

fn sum(a: i64, b: i64) -> Result<i64, FaultKind>
    ensures { result ≡ sum_of a b }
{
    a.checked_add(b).ok_or(FaultKind::Range)
}

fn difference(a: i64, b: i64) -> Result<i64, FaultKind>
    ensures { result ≡ difference_of a b }
{
    a.checked_sub(b).ok_or(FaultKind::Range)
}

fn product(a: i64, b: i64) -> Result<i64, FaultKind>
    ensures { result ≡ product_of a b }
{
    a.checked_mul(b).ok_or(FaultKind::Range)
}

// Toward zero.
fn quotient(a: i64, b: i64) -> Result<i64, FaultKind>
    ensures { result ≡ quotient_of a b }
{
    if b == 0 {
        return Err(FaultKind::Div0);
    }
    a.checked_div(b).ok_or(FaultKind::Range)
}

// With the sign of the dividend; the least number leaves 0 by -1, though the quotient is out of range.
fn remainder(a: i64, b: i64) -> Result<i64, FaultKind>
    ensures { result ≡ remainder_of a b }
{
    match b {
        0 => Err(FaultKind::Div0),
        -1 => Ok(0),
        _ => Ok(a % b),
    }
}

fn negated(a: i64) -> Result<i64, FaultKind>
    ensures { result ≡ negated_of a }
{
    a.checked_neg().ok_or(FaultKind::Range)
}

/// The sum of two bigints, or `Range`; null where an operand is null.
pub fn add<'r, A: Heap>(a: &Val<'_, A>, b: &Val<'_, A>) -> Result<Val<'r, A>, FaultKind>
    ensures { datums_of result ≡ with_numbers sum_of (datum_of a.now) (datum_of b.now) }
{
    match (a, b) {
        (Val::Int(m), Val::Int(n)) => Ok(Val::Int(sum(*m, *n)?)),
        _ => Ok(Val::Null),
    }
}

/// The difference of two bigints, or `Range`; null where an operand is null.
pub fn sub<'r, A: Heap>(a: &Val<'_, A>, b: &Val<'_, A>) -> Result<Val<'r, A>, FaultKind>
    ensures { datums_of result ≡ with_numbers difference_of (datum_of a.now) (datum_of b.now) }
{
    match (a, b) {
        (Val::Int(m), Val::Int(n)) => Ok(Val::Int(difference(*m, *n)?)),
        _ => Ok(Val::Null),
    }
}

/// The product of two bigints, or `Range`; null where an operand is null.
pub fn mul<'r, A: Heap>(a: &Val<'_, A>, b: &Val<'_, A>) -> Result<Val<'r, A>, FaultKind>
    ensures { datums_of result ≡ with_numbers product_of (datum_of a.now) (datum_of b.now) }
{
    match (a, b) {
        (Val::Int(m), Val::Int(n)) => Ok(Val::Int(product(*m, *n)?)),
        _ => Ok(Val::Null),
    }
}

/// The quotient of two bigints, toward zero, or `Div0` or `Range`; null where an operand is null, also for null divided by 0.
pub fn div<'r, A: Heap>(a: &Val<'_, A>, b: &Val<'_, A>) -> Result<Val<'r, A>, FaultKind>
    ensures { datums_of result ≡ with_numbers quotient_of (datum_of a.now) (datum_of b.now) }
{
    match (a, b) {
        (Val::Int(m), Val::Int(n)) => Ok(Val::Int(quotient(*m, *n)?)),
        _ => Ok(Val::Null),
    }
}

/// The remainder of a division of bigints, with the sign of the dividend, or `Div0`; null where an operand is null, also for null divided by 0.
pub fn rem<'r, A: Heap>(a: &Val<'_, A>, b: &Val<'_, A>) -> Result<Val<'r, A>, FaultKind>
    ensures { datums_of result ≡ with_numbers remainder_of (datum_of a.now) (datum_of b.now) }
{
    match (a, b) {
        (Val::Int(m), Val::Int(n)) => Ok(Val::Int(remainder(*m, *n)?)),
        _ => Ok(Val::Null),
    }
}

/// The negation of a bigint, or `Range`; null for null.
pub fn neg<'r, A: Heap>(a: &Val<'_, A>) -> Result<Val<'r, A>, FaultKind>
    ensures { datums_of result ≡ with_number negated_of (datum_of a.now) }
{
    match a {
        Val::Int(m) => Ok(Val::Int(negated(*m)?)),
        _ => Ok(Val::Null),
    }
}
