//! Comparisons of columns of numbers, with literals and with each other.

ghost use Rattle.std.specs.Prelude.{◌<◌, ◌≤◌};

use crate::bits::{LENGTHS, MOST, bit, set_bit, words_for};
use crate::cases::holds;
use crate::numbers::VALUES;
use columns::{cmp_cols, cmp_lit};
use std::process::Abort;
use value::Comparison;

// The value of a column at an index.
fn left(i: usize) -> Option<i64> {
    VALUES[i % 9]
}

// The value of another column there.
fn right(i: usize) -> Option<i64>
    requires { i < 1000 }
{
    VALUES[(i * 2 + 4) % 9]
}

static COMPARISONS: [(&str, Comparison); 6] = [
    ("equal_to", Comparison::Equal),
    ("not_equal_to", Comparison::NotEqual),
    ("less_than", Comparison::Less),
    ("less_or_equal", Comparison::LessOrEqual),
    ("greater_than", Comparison::Greater),
    ("greater_or_equal", Comparison::GreaterOrEqual),
];

// The literals.
static LITERALS: [i64; 4] = [7, 0, i64::MIN, i64::MAX];

// The bits of a comparison: whether it is true, and whether it is null.
fn outcome(op: Comparison, a: Option<i64>, b: Option<i64>) -> (bool, bool) {
    match (a, b) {
        (Some(a), Some(b)) => (holds(op, a, b), false),
        _ => (false, true),
    }
}

fn number(value: Option<i64>) -> i64 {
    match value {
        Some(n) => n,
        None => 7,
    }
}

// The numbers of a column; at a null stands a number that a literal has, too.
fn numbers(second: bool) -> [i64; MOST] {
    let mut values = [0; MOST];
    for i in 0..MOST {
        values[i] = number(if second { right(i) } else { left(i) });
    }
    values
}

// A bit for each null among the first `len` values.
fn nulls(second: bool, len: usize) -> [u64; 2]
    requires { len ≤ 65 }
{
    let mut words = [0; 2];
    for i in 0..len {
        let value = if second { right(i) } else { left(i) };
        set_bit(&mut words, i, value.is_none());
    }
    words
}

// The bits of item `i` are those of the comparison, and past the items there are none.
fn is_outcome(
    rt: &impl Abort,
    found: (bool, bool),
    item: (usize, usize),
    want: (bool, bool),
    name: &str,
) {
    let (i, len) = item;
    let want = if i < len { want } else { (false, false) };
    assert_eq!(rt; found, want, "{name}: item {i} of {len}");
}

fn compares_with_literal(rt: &impl Abort, name: &str, op: Comparison, len: usize, lit: i64)
    requires { len ≤ 65 }
{
    let words = words_for(len);
    let (values, nulls) = (numbers(false), nulls(false, len));
    let (mut is_true, mut is_null) = ([u64::MAX; 2], [u64::MAX; 2]);
    cmp_lit(
        op,
        &values[..len],
        &nulls[..words],
        lit,
        &mut is_true[..words],
        &mut is_null[..words],
    );
    for i in 0..words * 64 {
        let found = (bit(&is_true, i), bit(&is_null, i));
        is_outcome(rt, found, (i, len), outcome(op, left(i), Some(lit)), name);
    }
}

fn compares_columns(rt: &impl Abort, name: &str, op: Comparison, len: usize)
    requires { len ≤ 65 }
{
    let words = words_for(len);
    let (values, others) = (numbers(false), numbers(true));
    let (first, second) = (nulls(false, len), nulls(true, len));
    let (mut is_true, mut is_null) = ([u64::MAX; 2], [u64::MAX; 2]);
    cmp_cols(
        op,
        &values[..len],
        &first[..words],
        &others[..len],
        &second[..words],
        &mut is_true[..words],
        &mut is_null[..words],
    );
    for i in 0..words * 64 {
        let found = (bit(&is_true, i), bit(&is_null, i));
        is_outcome(rt, found, (i, len), outcome(op, left(i), right(i)), name);
    }
}

fn compares(rt: &impl Abort, name: &str, op: Comparison, len: usize)
    requires { len ≤ 65 }
{
    for lit in &LITERALS {
        compares_with_literal(rt, name, op, len, *lit);
    }
    compares_columns(rt, name, op, len);
}

#[test]
fn columns_of_each_length_compare_as_their_values_do(rt: HostRuntime) {
    for (name, op) in &COMPARISONS {
        for len in &LENGTHS {
            assert!(&rt; *len <= MOST);
            compares(&rt, name, *op, *len);
        }
    }
}
