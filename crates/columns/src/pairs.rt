//! Comparisons of the values of two columns.

ghost use Rattle.std.specs.Prelude.{◌≡◌, ◌+◌, ◌*◌, ◌<◌, ◌≤◌, length, Bool, List, All, FitsSigned};
ghost use Rattle.std.specs.Int.{w64};
ghost use Rattle.std.specs.Simd.Lanes.{chunk, mask_l, zip2};
ghost use Rattle.value.specs.Orders.{compared, test_of};
ghost use Rattle.columns.specs.Bits.{IsMaskOf, words_for};
ghost use Rattle.columns.specs.Columns.{ints_of};
ghost use Rattle.columns.specs.Comparing.{holds, Show};

use crate::compare::{holds, known_to_fit};
use std::simd::prelude::*;
use value::Comparison;

// The comparison of the 64 values of each column from an index on, a pair to a bit.
fn pair_block(op: Comparison, left: &[i64], right: &[i64], at: usize) -> u64
    requires same { length right.now ≡ length left.now }
    requires room { at + 64 ≤ length left.now }
    requires left_fit { All (FitsSigned w64) left.now }
    requires right_fit { All (FitsSigned w64) right.now }
    ensures { result ≡ mask_l (chunk at 64 (zip2 (holds op) left.now right.now)) }
{
    let first = i64x64::from_slice(&left[at..]);
    let second = i64x64::from_slice(&right[at..]);
    match op {
        Comparison::Equal => first.simd_eq(second).to_bitmask(),
        Comparison::NotEqual => first.simd_ne(second).to_bitmask(),
        Comparison::Less => first.simd_lt(second).to_bitmask(),
        Comparison::LessOrEqual => first.simd_le(second).to_bitmask(),
        Comparison::Greater => first.simd_gt(second).to_bitmask(),
        Comparison::GreaterOrEqual => first.simd_ge(second).to_bitmask(),
    }
}

// The comparison of the values from an index on, of which there are fewer than 64 in each column.
fn pair_rest(op: Comparison, left: &[i64], right: &[i64], at: usize) -> u64
    requires same { length right.now ≡ length left.now }
    requires within { at ≤ length left.now }
    requires few { length left.now < at + 64 }
    requires left_fit { All (FitsSigned w64) left.now }
    requires right_fit { All (FitsSigned w64) right.now }
    ensures { result ≡ mask_l (chunk at 64 (zip2 (holds op) left.now right.now)) }
{
    let mut word = 0;
    let mut over = left.len();
    while over > at {
        over -= 1;
        word = word * 2 + u64::from(holds(op, left[over], right[over]));
    }
    word
}

// The comparison of the values of one word of a mask: 64 of each column from an index on, or as many as there are.
fn pair_word(op: Comparison, left: &[i64], right: &[i64], at: usize) -> u64
    requires same { length right.now ≡ length left.now }
    requires within { at ≤ length left.now }
    requires left_fit { All (FitsSigned w64) left.now }
    requires right_fit { All (FitsSigned w64) right.now }
    ensures { result ≡ mask_l (chunk at 64 (zip2 (holds op) left.now right.now)) }
{
    if left.len() - at >= 64 {
        pair_block(op, left, right, at)
    } else {
        pair_rest(op, left, right, at)
    }
}

/// Compares each value of a column, null where `nulls` has a bit, with that of another column at the same index, null where
/// `other_nulls` has a bit. Into `is_true` goes a bit for each comparison that is true, into `is_null` one for each that is
/// null (PostgreSQL: Comparison Functions and Operators).
pub fn cmp_cols(
    op: Comparison,
    values: &[i64],
    nulls: &[u64],
    others: &[i64],
    other_nulls: &[u64],
    is_true: &mut [u64],
    is_null: &mut [u64],
)
    requires same { length others.now ≡ length values.now }
    requires words { length nulls.now ≡ words_for (length values.now) }
    requires other_words { length other_nulls.now ≡ words_for (length values.now) }
    requires true_words { length is_true.old ≡ words_for (length values.now) }
    requires null_words { length is_null.old ≡ words_for (length values.now) }
    ensures { (bits other_bits : List Bool) → length bits ≡ length values.now → length other_bits ≡ length values.now → IsMaskOf bits nulls.now → IsMaskOf other_bits other_nulls.now → Show (zip2 (compared (test_of op)) (ints_of values.now bits) (ints_of others.now other_bits)) is_true.new is_null.new }
{
    known_to_fit(values);
    known_to_fit(others);
    for k in 0..is_true.len() {
        is_null[k] = nulls[k] | other_nulls[k];
        is_true[k] = pair_word(op, values, others, k * 64) & !nulls[k] & !other_nulls[k];
    }
}
