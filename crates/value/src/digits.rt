//! Numbers of at most 18 digits, which need no test of range, each read in one pass, eight digits at a time.

ghost use Rattle.std.specs.Prelude.{◌≡◌, ◌<◌, ◌≤◌, ◌^◌, ◌+◌, ◌*◌, ◌++◌, ◌≤ℤ◌, ◌<ℤ◌, pos, true, false, if◌then◌else◌, length, Some, None, IfSome, IfNone};
ghost use Rattle.std.specs.List.{list_all};
ghost use Rattle.std.specs.Char.{is_ascii_digit};
ghost use Rattle.std.specs.Int.{to_le_bytes, w64};
ghost use Rattle.std.specs.Str.Parse.{digits_value, digits_value_after};
ghost use Rattle.value.specs.Exact.{is_bigint};
ghost use Rattle.value.specs.Texts.{is_positive, is_spelled, spelled};

// The first eight bytes as a word, the first of them the lowest, and the bytes after them; none where there are fewer.
fn first_word(text: &[u8]) -> Option<(u64, &[u8])>
    ensures some { IfSome result (λ split. text.now ≡ to_le_bytes w64 split.0 ++ split.1.now) }
    ensures none { IfNone result (length text.now < 8) }
{
    match text {
        [a, b, c, d, e, f, g, h, rest @ ..] => {
            Some((u64::from_le_bytes([*a, *b, *c, *d, *e, *f, *g, *h]), rest))
        }
        _ => None,
    }
}

// True where the eight bytes of a word are digits, from 48 to 57. The first test is of bytes from 48 to 63. For these the
// second is of those that 6 more leave below 64; no sum of theirs carries into the next byte.
fn are_eight_digits(word: u64) -> bool
    ensures { result ≡ list_all is_ascii_digit (to_le_bytes w64 word) }
{
    word & 0xF0F0_F0F0_F0F0_F0F0 == 0x3030_3030_3030_3030
        && (word + 0x0606_0606_0606_0606) & 0xF0F0_F0F0_F0F0_F0F0 == 0x3030_3030_3030_3030
}

// The number that the bytes of a word spell, of which the lowest is the first digit. Three sums join neighbours, to numbers
// of two, of four and of eight digits; a mask keeps every other one.
fn eight_digits(word: u64) -> u64
    requires { list_all is_ascii_digit (to_le_bytes w64 word) ≡ true }
    ensures number { result ≡ digits_value 10 (to_le_bytes w64 word) }
    ensures small { result < 10 ^ 8 }
{
    let ones = word - 0x3030_3030_3030_3030;
    let pairs = (ones * 10 + (ones >> 8)) & 0x00FF_00FF_00FF_00FF;
    let fours = (pairs * 100 + (pairs >> 16)) & 0x0000_FFFF_0000_FFFF;
    (fours & 0xFFFF_FFFF) * 10_000 + (fours >> 32)
}

// The number that digits spell behind those of `start`; none where a byte is no digit.
fn digits_after(start: u64, text: &[u8]) -> Option<u64>
    requires { (start + 1) * 10 ^ length text.now ≤ 10 ^ 18 }
    ensures number { result ≡ (if list_all is_ascii_digit text.now then Some (digits_value_after 10 start text.now) else None) }
    ensures small { IfSome result (λ n. n < 10 ^ 18) }
{
    let mut n = start;
    for byte in text {
        // A byte below that of `0`, which is 48, becomes a large number.
        let digit = u64::from(*byte).wrapping_sub(48);
        if digit > 9 {
            return None;
        }
        n = n * 10 + digit;
    }
    Some(n)
}

// The number that digits spell, eight at a time; none where a byte is no digit. It is kept out of its callers, whose code for
// fewer digits then saves no registers for it.
#[inline(never)]
fn many_digits(text: &[u8]) -> Option<u64>
    requires { length text.now ≤ 18 }
    ensures number { result ≡ (if list_all is_ascii_digit text.now then Some (digits_value 10 text.now) else None) }
    ensures small { IfSome result (λ n. n < 10 ^ 18) }
{
    let mut n = 0;
    let mut rest = text;
    while let Some((word, more)) = first_word(rest) {
        if !are_eight_digits(word) {
            return None;
        }
        n = n * 100_000_000 + eight_digits(word);
        rest = more;
    }
    digits_after(n, rest)
}

// The number that digits spell; none where a byte is no digit. Fewer than eight are read one by one.
fn few_digits(text: &[u8]) -> Option<u64>
    requires { length text.now ≤ 18 }
    ensures number { result ≡ (if list_all is_ascii_digit text.now then Some (digits_value 10 text.now) else None) }
    ensures small { IfSome result (λ n. n < 10 ^ 18) }
{
    if text.len() < 8 {
        digits_after(0, text)
    } else {
        many_digits(text)
    }
}

// The number that digits spell which do not start with 0.
fn few_positive(text: &[u8]) -> Option<i64>
    requires { length text.now ≤ 18 }
    ensures number { result ≡ (if is_positive text.now then Some (pos (digits_value 10 text.now)) else None) }
    ensures low { IfSome result (λ z. pos 0 ≤ℤ z) }
    ensures small { IfSome result (λ z. z <ℤ pos (10 ^ 18)) }
{
    match text {
        [] => None,
        [b'0', ..] => None,
        _ => match few_digits(text) {
            Some(n) => Some(n as i64),
            None => None,
        },
    }
}

/// The number that an optional minus and digits that do not start with 0 spell, in at most 18 bytes.
pub(crate) fn few_spelled(text: &[u8]) -> Option<i64>
    requires { length text.now ≤ 18 }
    ensures some { IfSome result (λ z. (is_spelled text.now ≡ true) × (z ≡ spelled text.now) × (is_bigint z ≡ true)) }
    ensures none { IfNone result (is_spelled text.now ≡ false) }
{
    match text {
        [] => None,
        [b'-', digits @ ..] => match few_positive(digits) {
            Some(n) => Some(-n),
            None => None,
        },
        _ => few_positive(text),
    }
}
