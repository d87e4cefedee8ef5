//! The order of values and of rows, and comparison.

ghost use Rattle.std.specs.Prelude.{◌≡◌, IsTrue, ◌↔◌, List, IsPermutation, IsSorted};
ghost use Rattle.bags.specs.Sorting.{sorted_by};
ghost use Rattle.value.specs.Datum.{Row, datum_of, null, row_of};
ghost use Rattle.value.specs.Orders.{datum_cmp, row_cmp, compared, equal_of, less_of, class};

use crate::types::{Val, Value};
use memory::Heap;
use std::cmp::Ordering;

/// A truth value of three, ordered as false, unknown, true (PostgreSQL: Logical Operators).
#[derive(Clone, Copy, Debug, PartialEq, Eq, PartialOrd, Ord)]
pub enum Truth {
    /// False.
    False,
    /// Null.
    Unknown,
    /// True.
    True,
}

fn class<A: Heap>(a: &Val<'_, A>) -> u8
    ensures { result ≡ class (datum_of a.now) }
{
    match a {
        Val::Bool(false) => 0,
        Val::Bool(true) => 1,
        Val::Int(_) => 2,
        Val::Text(_) => 3,
        Val::Null => 4,
    }
}

/// The order of values, ascending with nulls last; texts by their bytes.
pub fn cmp_values<A: Heap>(a: &Val<'_, A>, b: &Val<'_, A>) -> Ordering
    ensures { result ≡ datum_cmp (datum_of a.now) (datum_of b.now) }
{
    match (a, b) {
        (Val::Int(m), Val::Int(n)) => m.cmp(n),
        (Val::Text(s), Val::Text(t)) => s.as_str().cmp(t.as_str()),
        _ => class(a).cmp(&class(b)),
    }
}

fn is_null<A: Heap>(a: &Val<'_, A>) -> bool
    ensures { IsTrue result ↔ (datum_of a.now ≡ null) }
{
    matches!(a, Val::Null)
}

// The truth value of a comparison; unknown where a value is null.
fn unless_null<A: Heap>(a: &Val<'_, A>, b: &Val<'_, A>, holds: bool) -> Truth
    ensures { result ≡ compared (λ _. holds) (datum_of a.now) (datum_of b.now) }
{
    if is_null(a) || is_null(b) {
        Truth::Unknown
    } else if holds {
        Truth::True
    } else {
        Truth::False
    }
}

/// Equality of two values; unknown where one is null (PostgreSQL: Comparison Functions and Operators).
pub fn eq3<A: Heap>(a: &Val<'_, A>, b: &Val<'_, A>) -> Truth
    ensures { result ≡ equal_of (datum_of a.now) (datum_of b.now) }
{
    unless_null(a, b, cmp_values(a, b).is_eq())
}

/// The test that a value is less than another; unknown where one is null (PostgreSQL: Comparison Functions and
/// Operators).
pub fn lt3<A: Heap>(a: &Val<'_, A>, b: &Val<'_, A>) -> Truth
    ensures { result ≡ less_of (datum_of a.now) (datum_of b.now) }
{
    unless_null(a, b, cmp_values(a, b).is_lt())
}

/// The order of rows, by all columns from left to right.
pub fn cmp_rows<A: Heap>(a: &[Value<A>], b: &[Value<A>]) -> Ordering
    ensures { result ≡ row_cmp (row_of a.now) (row_of b.now) }
{
    match (a.split_first(), b.split_first()) {
        (None, None) => Ordering::Equal,
        (None, Some(_)) => Ordering::Less,
        (Some(_), None) => Ordering::Greater,
        (Some((x, xs)), Some((y, ys))) => match cmp_values(&x.as_val(), &y.as_val()) {
            Ordering::Equal => cmp_rows(xs, ys),
            other => other,
        },
    }
}

/// The order of rows is total and distinguishes all rows, so a list of rows has one sorted order.
pub fn law_sorted_rows()
    ensures { (rows ys : List Row) → (ys ≡ sorted_by row_cmp rows) ↔ (IsPermutation rows ys × IsSorted row_cmp ys) }
{}
