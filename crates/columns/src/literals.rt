//! Comparisons of the values of a column with a literal.

ghost use Rattle.std.specs.Prelude.{◌≡◌, ◌+◌, ◌*◌, ◌<◌, ◌≤◌, length, map, Bool, List, All, FitsSigned};
ghost use Rattle.std.specs.Int.{w64};
ghost use Rattle.std.specs.Simd.Lanes.{chunk, mask_l};
ghost use Rattle.value.specs.Datum.{int};
ghost use Rattle.value.specs.Orders.{compared, test_of};
ghost use Rattle.columns.specs.Bits.{IsMaskOf, words_for};
ghost use Rattle.columns.specs.Columns.{ints_of};
ghost use Rattle.columns.specs.Comparing.{holds, Show};

use crate::compare::{holds, known_to_fit};
use std::simd::prelude::*;
use value::Comparison;

// The comparison of the 64 values from an index on, a value to a bit.
fn literal_block(op: Comparison, values: &[i64], at: usize, lit: i64) -> u64
    requires room { at + 64 ≤ length values.now }
    requires fit { All (FitsSigned w64) values.now }
    ensures { result ≡ mask_l (chunk at 64 (map (λ z. holds op z lit) values.now)) }
{
    let block = i64x64::from_slice(&values[at..]);
    let other = i64x64::splat(lit);
    match op {
        Comparison::Equal => block.simd_eq(other).to_bitmask(),
        Comparison::NotEqual => block.simd_ne(other).to_bitmask(),
        Comparison::Less => block.simd_lt(other).to_bitmask(),
        Comparison::LessOrEqual => block.simd_le(other).to_bitmask(),
        Comparison::Greater => block.simd_gt(other).to_bitmask(),
        Comparison::GreaterOrEqual => block.simd_ge(other).to_bitmask(),
    }
}

// The comparison of the values from an index on, of which there are fewer than 64.
fn literal_rest(op: Comparison, values: &[i64], at: usize, lit: i64) -> u64
    requires within { at ≤ length values.now }
    requires few { length values.now < at + 64 }
    requires fit { All (FitsSigned w64) values.now }
    ensures { result ≡ mask_l (chunk at 64 (map (λ z. holds op z lit) values.now)) }
{
    let mut word = 0;
    let mut left = values.len();
    while left > at {
        left -= 1;
        word = word * 2 + u64::from(holds(op, values[left], lit));
    }
    word
}

// The comparison of the values of one word of a mask: 64 from an index on, or as many as there are.
fn literal_word(op: Comparison, values: &[i64], at: usize, lit: i64) -> u64
    requires within { at ≤ length values.now }
    requires fit { All (FitsSigned w64) values.now }
    ensures { result ≡ mask_l (chunk at 64 (map (λ z. holds op z lit) values.now)) }
{
    if values.len() - at >= 64 {
        literal_block(op, values, at, lit)
    } else {
        literal_rest(op, values, at, lit)
    }
}

/// Compares each value of a column, null where `nulls` has a bit, with a literal. Into `is_true` goes a bit for each
/// comparison that is true, into `is_null` one for each that is null (PostgreSQL: Comparison Functions and Operators).
pub fn cmp_lit(
    op: Comparison,
    values: &[i64],
    nulls: &[u64],
    lit: i64,
    is_true: &mut [u64],
    is_null: &mut [u64],
)
    requires words { length nulls.now ≡ words_for (length values.now) }
    requires true_words { length is_true.old ≡ words_for (length values.now) }
    requires null_words { length is_null.old ≡ words_for (length values.now) }
    ensures { (bits : List Bool) → length bits ≡ length values.now → IsMaskOf bits nulls.now → Show (map (λ d. compared (test_of op) d (int lit)) (ints_of values.now bits)) is_true.new is_null.new }
{
    known_to_fit(values);
    is_null.copy_from_slice(nulls);
    for (k, word) in is_true.iter_mut().enumerate() {
        *word = literal_word(op, values, k * 64, lit) & !nulls[k];
    }
}
