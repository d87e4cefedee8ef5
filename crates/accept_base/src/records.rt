//! The records of comma-separated texts, read in place or copied, against those that the crate csv reads.

use csv::{ByteRecord, ReaderBuilder};
use csv_records::{RecordError, Records};
use fixtures::in_pieces;
use memory::Failure;
use std::alloc::{AllocError, AllocGlobal, Global};
use std::process::Abort;
use std::test::Fail;

// Fields in quotes or not, ends of lines, empty lines, a byte order mark, and what is none of these though it looks like it.
static TEXTS: [&str; 24] = [
    "",
    "\n",
    "\r\n\r\n",
    "a",
    "a,b",
    "a,b\n1,2\n",
    "a,b\r\n1,2\r\n\r\n3,4",
    "a,b\r1,2\r\r3,4\r",
    "\n\na,b\n\n1,2\n\n",
    ",\n,\n",
    "a,\n1,\n",
    "\"a\",\"b\"\n\"1\",2\n",
    "a,b\n1,\"x,y\"\n\"\"\"\",\"\"\n",
    "a,b\n1,\"x\ny\r\nz\"\n2,z\n",
    "a,b\n1,x\"y\"\n2,\"x\"y\n3,\"x\"\"\"y\n",
    "a,b\n1,\"x",
    "a,b\n1,\"x\"",
    "a,b\n1,\"x\"\r\n",
    "\u{feff}a,b\n1,2\n",
    "\u{feff}\"a\",b\n\u{feff}1,2\n",
    "\u{fefe}a,b\n1,2\n",
    "\u{e000}",
    "a,b\n1\n1,2\n1,2,3\n\"1\",\"2\"\n",
    "a,b\n \"1\", \"2\" \n",
];

// The records of a text that comes in pieces are those of csv, but where their lengths differ.
fn same_records(rt: &(impl Abort + AllocGlobal), text: &str, step: usize) {
    let mut ours = Records::new(rt.alloc(), in_pieces(text, step, u64::MAX));
    let mut theirs = ReaderBuilder::new()
        .has_headers(false)
        .flexible(true)
        .from_reader(rt.alloc(), text.as_bytes());
    let mut row = ByteRecord::new(rt.alloc());
    let mut first = None;
    for _ in 0..=text.len() {
        let Ok(found) = theirs.read_byte_record(&mut row) else {
            panic!(rt; "{}: csv fails", text);
        };
        let len = *first.get_or_insert(row.len());
        match ours.read() {
            Ok(read) => {
                assert_eq!(rt; read, found, "{}", text);
                if !read {
                    return;
                }
                let record = ours.record();
                assert_eq!(rt; record.len(), row.len(), "{}", text);
                for i in 0..=row.len() {
                    assert_eq!(rt; record.get(i), row.get(i), "{}", text);
                }
            }
            Err(error) => {
                assert_eq!(rt; error, Failure::Error(RecordError::Uneven), "{}", text);
                assert_ne!(rt; row.len(), len, "{}", text);
            }
        }
    }
    panic!(rt; "{}: too many records", text);
}

#[test]
fn records_are_those_of_csv(rt: HostRuntime) {
    for text in &TEXTS {
        for step in [1, 2, 3, 100] {
            same_records(&rt, *text, step);
        }
    }
}

// Rows of ten bytes up to an offset, and then rows in quotes and not.
fn long_text(alloc: Global, to: usize) -> Result<String, AllocError> {
    let mut text = String::new(alloc);
    text.push_str("a,b\n")?;
    for _ in 0..(to / 10).saturating_sub(1) {
        text.push_str("1234,5678\n")?;
    }
    text.push_str("1,")?;
    for _ in text.len()..to {
        text.push_str("x")?;
    }
    text.push_str("\n12,\"3,\"\"4\"\n\r\n5,67\r\n1\"2,3\"4\r")?;
    for _ in 0..70 {
        text.push_str("y")?;
    }
    text.push_str(",\"z\"\n\"8\",9")?;
    Ok(text)
}

// Each byte of the rows comes to stand where the bytes that are held at a time end.
#[test]
fn records_across_the_bytes_that_are_held(rt: HostRuntime) -> Result<(), Fail> {
    for to in 16350..16390 {
        let text = long_text(rt.alloc(), to)?;
        same_records(&rt, text.as_str(), 20000);
        same_records(&rt, text.as_str(), 7);
    }
    Ok(())
}
