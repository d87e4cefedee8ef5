//! The logic of three values over whole columns.

ghost use Rattle.std.specs.Prelude.{◌≡◌, ◌+◌, ◌*◌, ◌<◌, ◌≤◌, ℕ, length, List, map};
ghost use Rattle.std.specs.Int.{bit_at};
ghost use Rattle.std.specs.Simd.Lanes.{zip2};
ghost use Rattle.value.specs.Truths.{least, greatest, negated};
ghost use Rattle.value.specs.declared.order.Truth.{Truth};
ghost use Rattle.columns.specs.Bits.{words_for};
ghost use Rattle.columns.specs.Comparing.{Show};

/// AND, item by item, in place of the first operand: the least of the two truth values (PostgreSQL: Logical Operators).
pub fn and_masks(is_true: &mut [u64], is_null: &mut [u64], other_true: &[u64], other_null: &[u64])
    requires nulls { length is_null.old ≡ length is_true.old }
    requires other_trues { length other_true.now ≡ length is_true.old }
    requires other_nulls { length other_null.now ≡ length is_true.old }
    ensures { (xs ys : List Truth) → length xs ≡ length ys → Show xs is_true.old is_null.old → Show ys other_true.now other_null.now → Show (zip2 least xs ys) is_true.new is_null.new }
{
    for k in 0..is_true.len() {
        let first = is_true[k];
        let second = other_true[k];
        is_true[k] = first & second;
        is_null[k] = (first | is_null[k]) & (second | other_null[k]) & !(first & second);
    }
}

/// OR, item by item, in place of the first operand: the greatest of the two truth values (PostgreSQL: Logical Operators).
pub fn or_masks(is_true: &mut [u64], is_null: &mut [u64], other_true: &[u64], other_null: &[u64])
    requires nulls { length is_null.old ≡ length is_true.old }
    requires other_trues { length other_true.now ≡ length is_true.old }
    requires other_nulls { length other_null.now ≡ length is_true.old }
    ensures { (xs ys : List Truth) → length xs ≡ length ys → Show xs is_true.old is_null.old → Show ys other_true.now other_null.now → Show (zip2 greatest xs ys) is_true.new is_null.new }
{
    for k in 0..is_true.len() {
        let first = is_true[k];
        let second = other_true[k];
        is_true[k] = first | second;
        is_null[k] = (is_null[k] | other_null[k]) & !first & !second;
    }
}

// The bits of word `k` of a mask that stand for items, of which there are `len`.
fn item_bits(len: usize, k: usize) -> u64
    requires { k < words_for len }
    ensures items { (i : ℕ) → i < 64 → k * 64 + i < len → bit_at result i ≡ 1 }
    ensures past { (i : ℕ) → i < 64 → len ≤ k * 64 + i → bit_at result i ≡ 0 }
{
    let rest = len - k * 64;
    if rest >= 64 {
        u64::MAX
    } else {
        (1 << rest) - 1
    }
}

/// NOT, item by item, in place of the operand, which has `len` items; null stays null (PostgreSQL: Logical Operators).
pub fn not_masks(len: usize, is_true: &mut [u64], is_null: &[u64])
    requires trues { length is_true.old ≡ words_for len }
    requires nulls { length is_null.now ≡ words_for len }
    ensures { (xs : List Truth) → length xs ≡ len → Show xs is_true.old is_null.now → Show (map negated xs) is_true.new is_null.now }
{
    for k in 0..is_true.len() {
        is_true[k] = !is_true[k] & !is_null[k] & item_bits(len, k);
    }
}
