//! Texts of tables that are cut or broken: the line that stops the program, or the reply over the rows that they are.

use fixtures::{SALES_DEALS, served};
use memory::{Failure, Heap};
use output::Output;
use setup::{Folder, SetupError, open_store, report};
use std::alloc::{AllocError, Global};
use std::process::Abort;
use std::test::Fail;

// A folder with the same file for each table.
#[derive(Clone, Copy)]
struct SameFile<'a> {
    bytes: &'a [u8],
}

impl<'a, A: Heap> Folder<A> for SameFile<'a> {
    type File = &'a [u8];

    ghost path = { λ _ table. table };

    fn open(&self, _alloc: A, _table: &str) -> Result<&'a [u8], Failure<SetupError<A>>> {
        Ok(self.bytes)
    }
}

/// A schema of one table, and a query of root.
pub type Asked = (&'static str, &'static str);

/// A table of numbers and texts, and all its rows.
pub const PAIRS: Asked = (
    "CREATE TABLE t (id bigint, name text);",
    "SELECT id, name FROM t",
);

// The table of deals, and the numbers of its rows.
const DEALS: Asked = (
    "CREATE TABLE deal (id bigint, owner text, region bigint, amount bigint, parts bigint);",
    "SELECT id FROM deal",
);

/// The line that is written where a table has these bytes: why there is no store, or the reply to the query.
pub fn outcome(alloc: Global, asked: Asked, bytes: &[u8]) -> Output<Vec<u8>> {
    let (schema, query) = asked;
    let mut out = Output {
        inner: Vec::new(alloc),
        failed: 0,
    };
    match open_store(alloc, schema, &SameFile { bytes }) {
        Ok(store) => served(alloc, &store, "root", query).1,
        Err(failure) => {
            report(alloc, &failure, &mut out);
            out
        }
    }
}

// The first and the last of some places in a text, and what is written for each.
type Places = (usize, usize, &'static str);

// The deals, whole up to so many bytes. Their header has 29 bytes, and the rows 16, 15, 13, 13 and 17.
static CUTS: [Places; 17] = [
    (0, 27, "data deal header\n"),
    (28, 29, "id\n"),
    (30, 42, "data deal row 1\n"),
    (43, 43, "data deal row 1 column parts\n"),
    (44, 45, "id\n1\n"),
    (46, 57, "data deal row 2\n"),
    (58, 58, "data deal row 2 column parts\n"),
    (59, 60, "id\n1\n2\n"),
    (61, 70, "data deal row 3\n"),
    (71, 71, "data deal row 3 column parts\n"),
    (72, 73, "id\n1\n2\n3\n"),
    (74, 83, "data deal row 4\n"),
    (84, 84, "data deal row 4 column parts\n"),
    (85, 86, "id\n1\n2\n3\n4\n"),
    (87, 100, "data deal row 5\n"),
    (101, 101, "data deal row 5 column parts\n"),
    (102, 103, "id\n1\n2\n3\n4\n5\n"),
];

fn cuts() -> &'static [Places] {
    &CUTS
}

// Two rows after their header, and what is written where a byte that is no UTF-8 stands before the one at a place.
const TWO: &[u8] = b"id,name\n1,a\n2,b\n";

static STRANGE: [Places; 6] = [
    (0, 7, "data t header\n"),
    (8, 9, "data t row 1 column id\n"),
    (10, 11, "data t row 1 column name\n"),
    (12, 13, "data t row 2 column id\n"),
    (14, 15, "data t row 2 column name\n"),
    (16, 16, "data t row 3\n"),
];

fn strange() -> &'static [Places] {
    &STRANGE
}

// A name, and bytes with what is written for them.
type Group = (&'static str, &'static [(&'static [u8], &'static str)]);

static BROKEN: [Group; 5] = [
    (
        "nul_is_a_byte_as_any_other",
        &[
            (b"id,name\n1,a\x00b\n", "id,name\n1,a\u{0}b\n"),
            (b"id,name\n1,\x00\n", "id,name\n1,\u{0}\n"),
            (b"id,name\n1\x00,a\n", "data t row 1 column id\n"),
            (b"id,name\n\x001,a\n", "data t row 1 column id\n"),
            (b"\x00id,name\n1,a\n", "data t header\n"),
            (b"id,name\x00\n1,a\n", "data t header\n"),
            (b"id,name\n1,a\n\x00", "data t row 2\n"),
            (b"\x00", "data t header\n"),
        ],
    ),
    (
        "cr_alone_ends_a_record",
        &[
            (b"id,name\r1,a\r2,b\r", "id,name\n1,a\n2,b\n"),
            (b"\r\r\nid,name\n\r1,a", "id,name\n1,a\n"),
            (b"id,name\n1,a\rb\n", "data t row 2\n"),
            (b"id,name\n1\r,a\n", "data t row 1\n"),
            (b"id,name\n1,\r\n", "id,name\n1,\"\"\n"),
            (b"id,name\n\"1\r\",a\n", "data t row 1 column id\n"),
            (b"id,name\n1,\"a\rb\"\n", "id,name\n1,\"a\rb\"\n"),
            (b"id\r,name\n1,a\n", "data t header\n"),
            (b"\r\r\r", "data t header\n"),
        ],
    ),
    // A quoted field without an end goes on to the end of the text.
    (
        "quotes_without_an_end",
        &[
            (b"id,name\n1,\"a\n2,b\n", "id,name\n1,\"a\n2,b\n\"\n"),
            (b"id,name\n1,\"", "id,name\n1,\"\"\n"),
            (b"id,name\n1,\"\"\"\n", "id,name\n1,\"\"\"\n\"\n"),
            (b"id,name\n\"1,a\n", "data t row 1\n"),
            (b"id,name\n1,a\n\"", "data t row 2\n"),
            (b"\"id,name\n1,a\n", "data t header\n"),
            (b"\"", "data t header\n"),
            (b"id,name\n1,a\"b\n", "id,name\n1,\"a\"\"b\"\n"),
            (b"id,name\n1,\"a\"b\n", "id,name\n1,ab\n"),
            (b"id,name\n1\",a\n", "data t row 1 column id\n"),
        ],
    ),
    (
        "byte_order_mark_at_the_start_alone",
        &[
            (b"\xef\xbb\xbfid,name\n1,a\n", "id,name\n1,a\n"),
            (b"\xef\xbb\xbf\xef\xbb\xbfid,name\n1,a\n", "data t header\n"),
            (b"id,name\n\xef\xbb\xbf1,a\n", "data t row 1 column id\n"),
            (b"id,name\n1,\xef\xbb\xbfa\n", "id,name\n1,\u{feff}a\n"),
            (b"\xef\xbb\xbf", "data t header\n"),
            (b"\xef\xbb", "data t header\n"),
            (b"\xef\xbbid,name\n", "data t header\n"),
            (
                b"\xff\xfei\x00d\x00,\x00n\x00a\x00m\x00e\x00\n\x00",
                "data t header\n",
            ),
        ],
    ),
    (
        "cells_are_whole_utf_8",
        &[
            (b"id,name\n1,\xc0\x80\n", "data t row 1 column name\n"),
            (b"id,name\n1,\xed\xa0\x80\n", "data t row 1 column name\n"),
            (
                b"id,name\n1,\xf4\x90\x80\x80\n",
                "data t row 1 column name\n",
            ),
            (b"id,name\n1,\xe2\x82\n", "data t row 1 column name\n"),
            (b"id,name\n1,\xe2\x82,\xac\n", "data t row 1\n"),
            (b"id,name\n1,\"\xe2\x82\"\xac\n", "id,name\n1,\u{20ac}\n"),
            (b"id,name\n1,\xf0\x9f\x98\x80\n", "id,name\n1,\u{1f600}\n"),
            (b"id,name\n1,a\n2,\xff\n", "data t row 2 column name\n"),
        ],
    ),
];

fn broken() -> &'static [Group] {
    &BROKEN
}

// The wanted text is written for these bytes.
fn gives(rt: &(impl Abort + AllocGlobal), asked: Asked, bytes: &[u8], want: &str, place: usize) {
    let out = outcome(rt.alloc(), asked, bytes);
    let written = std::str::from_utf8(out.inner.as_slice()).unwrap_or("no UTF-8");
    assert_eq!(rt; written, want, "at {place}");
}

fn cut_at(rt: &(impl Abort + AllocGlobal), places: &Places) {
    let (first, last, want) = *places;
    let whole = SALES_DEALS.as_bytes();
    for cut in first..last.saturating_add(1) {
        gives(rt, DEALS, whole.get(..cut).unwrap_or(whole), want, cut);
    }
}

#[test]
fn cut_texts_are_shorter_tables_or_refused(rt: HostRuntime) {
    assert_eq!(&rt; SALES_DEALS.len(), 103);
    for places in cuts() {
        cut_at(&rt, places);
    }
}

// The bytes of a text with one more before a place.
fn with_byte(alloc: Global, text: &[u8], place: usize, byte: u8) -> Result<Vec<u8>, AllocError> {
    let mut bytes = Vec::new(alloc);
    bytes.extend_from_slice(text.get(..place).unwrap_or(text))?;
    bytes.push(byte)?;
    bytes.extend_from_slice(text.get(place..).unwrap_or(b"".as_slice()))?;
    Ok(bytes)
}

// A byte that is none of UTF-8, one that goes on a character, and one that begins one.
fn strange_at(rt: &(impl Abort + AllocGlobal), places: &Places) -> Result<(), AllocError> {
    let (first, last, want) = *places;
    for place in first..last.saturating_add(1) {
        for byte in [255u8, 128, 195] {
            let bytes = with_byte(rt.alloc(), TWO, place, byte)?;
            gives(rt, PAIRS, bytes.as_slice(), want, place);
        }
    }
    Ok(())
}

#[test]
fn bytes_of_no_text_are_reported_in_each_place(rt: HostRuntime) -> Result<(), Fail> {
    for places in strange() {
        strange_at(&rt, places)?;
    }
    Ok(())
}

fn broken_as(rt: &(impl Abort + AllocGlobal), group: &Group) {
    let (name, rows) = group;
    for (place, (bytes, want)) in rows.iter().enumerate() {
        let out = outcome(rt.alloc(), PAIRS, bytes);
        let written = std::str::from_utf8(out.inner.as_slice()).unwrap_or("no UTF-8");
        assert_eq!(rt; written, *want, "{name}: {place}");
    }
}

#[test]
fn broken_texts_are_read_as_records_or_refused(rt: HostRuntime) {
    for group in broken() {
        broken_as(&rt, group);
    }
}
