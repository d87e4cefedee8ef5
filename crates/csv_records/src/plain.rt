//! Records whose fields are not quoted, found where they stand.

ghost use Rattle.std.specs.Prelude.{◌≡◌, ◌+◌, ◌≤◌, ◌<◌, ◌==◌, ◌++◌, if◌then◌else◌, ℕ, List, length, drop, slice_index, IfOk, IfSome, MatchOption};
ghost use Rattle.std.specs.Int.{bit_at};
ghost use Rattle.csv_records.specs.Records.{IsPlainRecord, SameNext, ends_line};
ghost use Rattle.csv_records.specs.Scanned.{Scanned, is_special};

use std::alloc::AllocError;
use std::simd::prelude::*;

// True of CR and LF, each of which ends a line.
fn ends_line(byte: u8) -> bool
    ensures { result ≡ ends_line byte }
{
    byte == b'\r' || byte == b'\n'
}

/// How many bytes at the start end lines, so that they are no record.
pub(crate) fn line_ends(bytes: &[u8]) -> usize
    ensures within { result ≤ length bytes.now }
    ensures same { (more : List ℕ) → SameNext (bytes.now ++ more) (drop result (bytes.now ++ more)) }
{
    for i in 0..bytes.len() {
        if !ends_line(bytes[i]) {
            return i;
        }
    }
    bytes.len()
}

// 255 in each lane that is a byte, and 0 in the others.
fn lanes_of(block: u8x64, byte: u8) -> u8x64
    ensures long { length result ≡ 64 }
    ensures each { (k : ℕ) → k < 64 → slice_index result k ≡ if slice_index block k == byte then 255 else 0 }
{
    block
        .simd_eq(u8x64::splat(byte))
        .select(u8x64::splat(255), u8x64::splat(0))
}

// Which of the 64 bytes from an index on separate fields, quote them or end lines, a byte to a bit.
fn special_bits(bytes: &[u8], at: usize) -> u64
    requires { at + 64 ≤ length bytes.now }
    ensures { (k : ℕ) → k < 64 → bit_at result k ≡ if is_special (slice_index bytes.now (at + k)) then 1 else 0 }
{
    let block = u8x64::from_slice(&bytes[at..]);
    let commas = lanes_of(block, b',');
    let quotes = lanes_of(block, b'"');
    let returns = lanes_of(block, b'\r');
    let feeds = lanes_of(block, b'\n');
    (commas | quotes | returns | feeds)
        .simd_eq(u8x64::splat(255))
        .to_bitmask()
}

// Goes over the 64 bytes from an index on, in the field that begins at `start`, and keeps the ends of fields. The index of the first byte
// that ends a line or a quote at the start of a field; none where there is none.
fn scan_block(
    bytes: &[u8],
    at: usize,
    start: &mut usize,
    ends: &mut Vec<usize>,
) -> Result<Option<usize>, AllocError>
    requires room { at + 64 ≤ length bytes.now }
    requires scanned { Scanned bytes.now ends.old.items start.old at }
    ensures { IfOk result (λ found. MatchOption found (Scanned bytes.now ends.new.items start.new (at + 64)) (λ i. (i < length bytes.now) × Scanned bytes.now ends.new.items start.new i)) }
{
    let mut bits = special_bits(bytes, at);
    while bits != 0 {
        let bit = bits.trailing_zeros() as usize;
        let i = at + bit;
        let byte = bytes[i];
        if byte == b',' {
            ends.push(i)?;
            *start = i + 1;
        } else if byte != b'"' || i == *start {
            return Ok(Some(i));
        }
        bits &= bits - 1;
    }
    Ok(None)
}

// The record at the start, whose bytes before an index were gone over.
fn rest_of_record(
    bytes: &[u8],
    from: usize,
    field: usize,
    ends: &mut Vec<usize>,
) -> Result<Option<usize>, AllocError>
    requires within { from ≤ length bytes.now }
    requires scanned { Scanned bytes.now ends.old.items field from }
    ensures { IfOk result (λ found. IfSome found (λ count. IsPlainRecord bytes.now count ends.new.items)) }
{
    let mut start = field;
    for i in from..bytes.len() {
        let byte = bytes[i];
        if byte == b',' {
            ends.push(i)?;
            start = i + 1;
            continue;
        }
        if ends_line(byte) {
            if i == 0 {
                return Ok(None);
            }
            ends.push(i)?;
            return Ok(Some(i));
        }
        if byte == b'"' && i == start {
            return Ok(None);
        }
    }
    Ok(None)
}

/// The number of bytes of the record at the start, where the byte after it is there and ends it, and no field of it is quoted; with the
/// offsets at which its fields end. None where it is not so.
pub(crate) fn plain_record(bytes: &[u8], ends: &mut Vec<usize>) -> Result<Option<usize>, AllocError>
    ensures { IfOk result (λ found. IfSome found (λ count. IsPlainRecord bytes.now count ends.new.items)) }
{
    ends.clear();
    let mut start = 0;
    let mut at = 0;
    while bytes.len() - at >= 64 {
        if let Some(i) = scan_block(bytes, at, &mut start, ends)? {
            if i == 0 || !ends_line(bytes[i]) {
                return Ok(None);
            }
            ends.push(i)?;
            return Ok(Some(i));
        }
        at += 64;
    }
    rest_of_record(bytes, at, start, ends)
}
