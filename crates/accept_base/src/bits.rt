//! Bits of words, one at a time.

ghost use Rattle.std.specs.Prelude.{◌<◌, ◌≡◌, ◌+◌, ◌/◌};

/// The lengths of the columns: none, about a byte, about a word.
pub static LENGTHS: [usize; 8] = [0, 1, 7, 8, 9, 63, 64, 65];

/// The most values of a column.
pub const MOST: usize = 65;

/// The number of words for so many bits.
pub fn words_for(len: usize) -> usize
    requires { len < 1000 }
    ensures { result ≡ (len + 63) / 64 }
{
    (len + 63) / 64
}

/// Bit `i` of the words, or false past them.
pub fn bit(words: &[u64], i: usize) -> bool {
    match words.get(i / 64) {
        Some(word) => (*word >> (i % 64)) & 1 == 1,
        None => false,
    }
}

/// Sets bit `i` of the words, if it is to be.
pub fn set_bit(words: &mut [u64; 2], i: usize, set: bool)
    requires { i < 128 }
{
    if set {
        words[i / 64] |= 1 << (i % 64);
    }
}
