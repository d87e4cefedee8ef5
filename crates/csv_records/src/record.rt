//! Records whose fields are lent.

ghost use Rattle.std.specs.Prelude.{◌≡◌, ◌≤◌, ◌<◌, ◌^◌, length, option_map, slice_get, slice_range};
ghost use Rattle.csv_records.specs.Fields.{EndsWithin, fields_from, start_of};

use std::marker::Model;

/// The fields of a record, which are lent. A contract sees the fields.
#[derive(Drop)]
pub struct Record<'r> {
    bytes: &'r [u8],
    // Where each field ends; the next one starts one byte later.
    ends: &'r [usize],
}

impl<'r> Model for Record<'r> {
    ghost use Rattle.std.specs.Prelude.{List, ℕ};

    ghost Value = { List (List ℕ) };

    ghost use Rattle.csv_records.specs.Lent.{fields_in, AreFields};

    ghost view = { fields_in };

    ghost invariant = { AreFields };
}

// The offset at which a field starts.
fn start_of(ends: &[usize], i: usize) -> usize
    requires within { i < length ends.now }
    requires low { start_of 0 ends.now i < 2 ^ 64 }
    ensures { result ≡ start_of 0 ends.now i }
{
    if i == 0 { 0 } else { ends[i - 1] + 1 }
}

// The bytes between two offsets.
fn part(bytes: &[u8], start: usize, end: usize) -> &[u8]
    requires ordered { start ≤ end }
    requires within { end ≤ length bytes.now }
    ensures { result.now ≡ slice_range bytes.now start end }
{
    &bytes[start..end]
}

impl<'r> Record<'r> {
    /// The fields of bytes that end at these offsets, the next one starting one byte later.
    pub(crate) fn new(bytes: &'r [u8], ends: &'r [usize]) -> Record<'r>
        requires { EndsWithin (length bytes.now) 0 ends.now }
        ensures { result ≡ fields_from bytes.now 0 ends.now }
    {
        Record { bytes, ends }
    }

    /// The number of fields.
    pub fn len(&self) -> usize
        ensures { result ≡ length self.now }
    {
        self.ends.len()
    }

    /// The field at an index, if there are so many.
    pub fn get(&self, i: usize) -> Option<&'r [u8]>
        ensures { option_map (λ f. f.now) result ≡ slice_get self.now i }
    {
        if i >= self.ends.len() {
            return None;
        }
        let end = self.ends[i];
        Some(part(self.bytes, start_of(self.ends, i), end))
    }
}
