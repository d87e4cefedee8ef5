//! The order of the rows of an answer.

ghost use Rattle.std.specs.Prelude.{◌≡◌};
ghost use Rattle.value.specs.Datum.{cell};
ghost use Rattle.value.specs.Orders.{datum_cmp, row_cmp};
ghost use Rattle.answer_rows.specs.Ordered.{by_key, by_keys, output_cmp};

use crate::row::AnswerRow;
use expr::OutputKey;
use memory::Heap;
use std::cmp::Ordering;
use value::cmp_values;

fn cmp_cells<A: Heap>(a: &AnswerRow<'_, A>, b: &AnswerRow<'_, A>, index: usize) -> Ordering
    ensures { result ≡ datum_cmp (cell a.now index) (cell b.now index) }
{
    cmp_values(&a.get(index), &b.get(index))
}

fn cmp_by_key<A: Heap>(key: OutputKey, a: &AnswerRow<'_, A>, b: &AnswerRow<'_, A>) -> Ordering
    ensures { result ≡ by_key key a.now b.now }
{
    if key.descending {
        cmp_cells(b, a, key.index)
    } else {
        cmp_cells(a, b, key.index)
    }
}

// By the first key, then by the others.
fn cmp_by_keys<A: Heap>(keys: &[OutputKey], a: &AnswerRow<'_, A>, b: &AnswerRow<'_, A>) -> Ordering
    ensures { result ≡ by_keys keys.now a.now b.now }
{
    match keys.split_first() {
        None => Ordering::Equal,
        Some((key, keys)) => match cmp_by_key(*key, a, b) {
            Ordering::Equal => cmp_by_keys(keys, a, b),
            other => other,
        },
    }
}

// By all columns, from left to right.
fn cmp_rows<A: Heap>(a: &AnswerRow<'_, A>, b: &AnswerRow<'_, A>) -> Ordering
    ensures { result ≡ row_cmp a.now b.now }
{
    match (a.split_first(), b.split_first()) {
        (None, None) => Ordering::Equal,
        (None, Some(_)) => Ordering::Less,
        (Some(_), None) => Ordering::Greater,
        (Some((x, xs)), Some((y, ys))) => match cmp_values(&x, &y) {
            Ordering::Equal => cmp_rows(&xs, &ys),
            other => other,
        },
    }
}

/// By the keys, and then by all columns from left to right.
pub(crate) fn cmp_outputs<A: Heap>(
    keys: &[OutputKey],
    a: &AnswerRow<'_, A>,
    b: &AnswerRow<'_, A>,
) -> Ordering
    ensures { result ≡ output_cmp keys.now a.now b.now }
{
    match cmp_by_keys(keys, a, b) {
        Ordering::Equal => cmp_rows(a, b),
        other => other,
    }
}
