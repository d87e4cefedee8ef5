//! Lists of truth values, 64 to a word, as the nulls of a column and the outcomes of a condition on its values are kept.

ghost use Rattle.std.specs.Prelude.{◌≡◌, ◌+◌, ◌<◌, ◌≤◌, ◌^◌, ◌++◌, [], ◌∷◌, false, length, take, get_or, OnErr, OnOk};
ghost use Rattle.columns.specs.Bits.{IsMaskOf, words_for, bits_from};

use memory::Heap;
use std::alloc::AllocError;
use std::marker::Model;

/// A list of truth values, 64 to a word, with no bit past its end. A contract sees the list.
#[derive(Drop)]
pub struct Mask<A: Heap> {
    words: Vec<u64, A>,
    len: usize,
}

impl<A: Heap> Model for Mask<A> {
    ghost use Rattle.std.specs.Prelude.{List, Bool};

    ghost Value = { List Bool };

    ghost use Rattle.columns.specs.MaskView.{bits_of, IsMask};

    ghost view = { bits_of };

    ghost invariant = { IsMask };
}

// Adds a bit after the first `len`.
fn push_bit<A: Heap>(words: &mut Vec<u64, A>, len: usize, bit: bool) -> Result<(), AllocError>
    requires mask { IsMaskOf (bits_from words.old.items 0 len) words.old.items }
    ensures ok { OnOk result (IsMaskOf (bits_from words.old.items 0 len ++ bit ∷ []) words.new.items) }
    ensures err { OnErr result (words.new.items ≡ words.old.items) }
{
    if len % 64 == 0 {
        words.push(u64::from(bit))?;
    } else if bit {
        words[len / 64] |= 1 << (len % 64);
    }
    Ok(())
}

// Clears the bits from index `to` on, of `len` bits, and drops the words that are left without any.
fn truncate_bits<A: Heap>(words: &mut Vec<u64, A>, len: usize, to: usize)
    requires mask { IsMaskOf (bits_from words.old.items 0 len) words.old.items }
    requires within { to ≤ len }
    ensures { IsMaskOf (take to (bits_from words.old.items 0 len)) words.new.items }
{
    let whole = to / 64;
    if to % 64 == 0 {
        words.truncate(whole);
    } else {
        words.truncate(whole + 1);
        words[whole] &= (1 << (to % 64)) - 1;
    }
}

impl<A: Heap> Mask<A> {
    /// An empty list. It asks for no memory.
    pub fn new(alloc: A) -> Mask<A>
        ensures { result ≡ [] }
    {
        Mask {
            words: Vec::new(alloc),
            len: 0,
        }
    }

    /// The list whose words these are: so many bits, and no other bit set.
    pub fn of_words(words: Vec<u64, A>, len: usize) -> Mask<A>
        requires { IsMaskOf (bits_from words.items 0 len) words.items }
        ensures { result ≡ bits_from words.items 0 len }
    {
        Mask { words, len }
    }

    /// The number of items.
    pub fn len(&self) -> usize
        ensures { result ≡ length self.now }
    {
        self.len
    }

    /// The words: bit `i % 64` of word `i / 64` is set where item `i` is true, and no other bit is.
    pub fn words(&self) -> &[u64]
        ensures { IsMaskOf self.now result.now }
    {
        self.words.as_slice()
    }

    /// The item at an index.
    pub fn get(&self, i: usize) -> bool
        requires { i < length self.now }
        ensures { result ≡ get_or self.now i false }
    {
        (self.words[i / 64] >> (i % 64)) & 1 == 1
    }

    /// One more item at the end. Where memory is refused, the list stays as it was.
    pub fn push(&mut self, bit: bool) -> Result<(), AllocError>
        requires { length self.old < 2 ^ 63 }
        ensures ok { OnOk result (self.new ≡ self.old ++ bit ∷ []) }
        ensures err { OnErr result (self.new ≡ self.old) }
    {
        push_bit(&mut self.words, self.len, bit)?;
        self.len += 1;
        Ok(())
    }

    /// Drops the items from an index on.
    pub fn truncate(&mut self, len: usize)
        requires { len ≤ length self.old }
        ensures { self.new ≡ take len self.old }
    {
        truncate_bits(&mut self.words, self.len, len);
        self.len = len;
    }
}
