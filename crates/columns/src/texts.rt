//! Columns of texts (PostgreSQL: Character Types, `text`).

ghost use Rattle.std.specs.Prelude.{◌≡◌, ◌+◌, ◌<◌, ◌≤◌, ◌^◌, ◌++◌, [], ◌∷◌, length, map, take, get_or, OnErr, OnOk, IsUtf8, slice_range};
ghost use Rattle.columns.specs.Bits.{IsMaskOf};
ghost use Rattle.value.specs.Datum.{null, text};
ghost use Rattle.columns.specs.Ends.{end_before};
ghost use Rattle.columns.specs.Optional.{is_null, text_or_null};

use crate::masks::Mask;
use memory::Heap;
use std::alloc::AllocError;
use std::marker::Model;
use std::str;

/// A column of texts: the bytes of all, one text after the other, and the offset at which each ends; a null is a text of no
/// bytes. A contract sees the values.
#[derive(Drop)]
pub struct Texts<A: Heap> {
    bytes: Vec<u8, A>,
    ends: Vec<usize, A>,
    nulls: Mask<A>,
}

impl<A: Heap> Model for Texts<A> {
    ghost use Rattle.std.specs.Prelude.{List};
    ghost use Rattle.value.specs.Datum.{Datum};

    ghost Value = { List Datum };

    ghost use Rattle.columns.specs.View.{texts_in, AreTexts};

    ghost view = { texts_in };

    ghost invariant = { AreTexts };
}

// The offset at which text `i` starts.
fn end_before(ends: &[usize], i: usize) -> usize
    requires { i ≤ length ends.now }
    ensures { result ≡ end_before 0 ends.now i }
{
    if i == 0 { 0 } else { ends[i - 1] }
}

// The text between two offsets of the bytes.
fn text_in(bytes: &[u8], start: usize, end: usize) -> &str
    requires ordered { start ≤ end }
    requires within { end ≤ length bytes.now }
    requires utf8 { IsUtf8 (slice_range bytes.now start end) }
    ensures { result.now ≡ slice_range bytes.now start end }
{
    let part = &bytes[start..end];
    // It is UTF-8, as this function requires.
    unsafe { str::from_utf8_unchecked(part) }
}

// Adds the bytes of a text, its end and its bit, or none of them.
fn push_all<A: Heap>(
    bytes: &mut Vec<u8, A>,
    ends: &mut Vec<usize, A>,
    nulls: &mut Mask<A>,
    text: &[u8],
    is_null: bool,
) -> Result<(), AllocError>
    requires room { length nulls.old < 2 ^ 63 }
    ensures bytes { OnOk result (bytes.new.items ≡ bytes.old.items ++ text.now) }
    ensures ends { OnOk result (ends.new.items ≡ ends.old.items ++ (length bytes.old.items + length text.now) ∷ []) }
    ensures nulls { OnOk result (nulls.new ≡ nulls.old ++ is_null ∷ []) }
    ensures no_bytes { OnErr result (bytes.new.items ≡ bytes.old.items) }
    ensures no_ends { OnErr result (ends.new.items ≡ ends.old.items) }
    ensures no_nulls { OnErr result (nulls.new ≡ nulls.old) }
{
    let bytes_before = bytes.len();
    let before = nulls.len();
    nulls.push(is_null)?;
    if let Err(error) = bytes.extend_from_slice(text) {
        nulls.truncate(before);
        return Err(error);
    }
    match ends.push(bytes.len()) {
        Ok(()) => Ok(()),
        Err(error) => {
            bytes.truncate(bytes_before);
            nulls.truncate(before);
            Err(AllocError::from(error))
        }
    }
}

impl<A: Heap> Texts<A> {
    /// A column with no values. It asks for no memory.
    pub fn new(alloc: A) -> Texts<A>
        ensures { result ≡ [] }
    {
        Texts {
            bytes: Vec::new(alloc),
            ends: Vec::new(alloc),
            nulls: Mask::new(alloc),
        }
    }

    /// The number of values.
    pub fn len(&self) -> usize
        ensures { result ≡ length self.now }
    {
        self.nulls.len()
    }

    /// The text at an index, unless it is null.
    pub fn get(&self, i: usize) -> Option<&str>
        requires { i < length self.now }
        ensures { text_or_null result ≡ get_or self.now i null }
    {
        if self.nulls.get(i) {
            return None;
        }
        let start = end_before(self.ends.as_slice(), i);
        let end = self.ends[i];
        Some(text_in(self.bytes.as_slice(), start, end))
    }

    /// The words of the list that is true at each null.
    pub fn nulls(&self) -> &[u64]
        ensures { IsMaskOf (map is_null self.now) result.now }
    {
        self.nulls.words()
    }

    /// One more text at the end. Where memory is refused, the column stays as it was.
    pub fn push(&mut self, value: &str) -> Result<(), AllocError>
        requires { length self.old < 2 ^ 63 }
        ensures ok { OnOk result (self.new ≡ self.old ++ text value.now ∷ []) }
        ensures err { OnErr result (self.new ≡ self.old) }
    {
        push_all(
            &mut self.bytes,
            &mut self.ends,
            &mut self.nulls,
            value.as_bytes(),
            false,
        )?;
        Ok(())
    }

    /// A null at the end. Where memory is refused, the column stays as it was.
    pub fn push_null(&mut self) -> Result<(), AllocError>
        requires { length self.old < 2 ^ 63 }
        ensures ok { OnOk result (self.new ≡ self.old ++ null ∷ []) }
        ensures err { OnErr result (self.new ≡ self.old) }
    {
        push_all(
            &mut self.bytes,
            &mut self.ends,
            &mut self.nulls,
            b"".as_slice(),
            true,
        )?;
        Ok(())
    }

    /// Drops the values from an index on.
    pub fn truncate(&mut self, len: usize)
        requires { len ≤ length self.old }
        ensures { self.new ≡ take len self.old }
    {
        let end = end_before(self.ends.as_slice(), len);
        self.bytes.truncate(end);
        self.ends.truncate(len);
        self.nulls.truncate(len);
    }
}
