//! Replies that are longer than what is written at once.

use answer_rows::AnswerRows;
use memory::{Heap, Items, Text};
use metered::Metered;
use output::Output;
use replies::{Reply, reply_text, write_reply};
use std::alloc::{AllocError, Global};
use std::borrow::CowStr;
use std::io;
use std::io::{ErrorKind, Write};
use std::process::Abort;
use std::test::Fail;
use value::Val;

// Rows with one text, which is a part so many times; how the part is written, and what stands before and after the field.
#[derive(Clone, Copy)]
struct Many {
    rows: i64,
    part: &'static str,
    times: usize,
    written: &'static str,
    quote: &'static str,
}

// Short texts; one that is longer than what is written at once; quotes and commas in many short texts, and in a long one; an empty text.
static ROWS: [Many; 5] = [
    Many {
        rows: 4000,
        part: "of the deals",
        times: 1,
        written: "of the deals",
        quote: "",
    },
    Many {
        rows: 1,
        part: "0123456789",
        times: 7000,
        written: "0123456789",
        quote: "",
    },
    Many {
        rows: 1500,
        part: "say \"yes\", or \"\"",
        times: 1,
        written: "say \"\"yes\"\", or \"\"\"\"",
        quote: "\"",
    },
    Many {
        rows: 1,
        part: "\"",
        times: 20_000,
        written: "\"\"",
        quote: "\"",
    },
    Many {
        rows: 1,
        part: "",
        times: 0,
        written: "",
        quote: "\"",
    },
];

// Takes at most `step` bytes a call, and `room` bytes in all; the next call fails.
#[derive(Drop)]
struct Narrow {
    held: Vec<u8>,
    room: usize,
    step: usize,
    calls: u64,
}

impl Write for Narrow {
    fn write(&mut self, buf: &[u8]) -> io::Result<usize> {
        self.calls = self.calls.wrapping_add(1);
        let n = buf.len().min(self.room).min(self.step);
        if n == 0 && !buf.is_empty() {
            return Err(io::Error::from(ErrorKind::BrokenPipe));
        }
        self.held.extend_from_slice(&buf[..n])?;
        self.room -= n;
        Ok(n)
    }

    fn flush(&mut self) -> io::Result<()> {
        Ok(())
    }
}

fn writer_of(alloc: Global, room: usize, step: usize) -> Output<Narrow> {
    Output {
        inner: Narrow {
            held: Vec::new(alloc),
            room,
            step,
            calls: 0,
        },
        failed: 0,
    }
}

fn repeated(alloc: Global, part: &str, times: usize) -> Result<String, AllocError> {
    let mut text = String::new(alloc);
    for _ in 0..times {
        text.push_str(part)?;
    }
    Ok(text)
}

// A row of a number, null and a text.
fn push_row<A: Heap>(rows: &mut AnswerRows<A>, number: i64, text: &str) -> Result<(), AllocError> {
    rows.push(&Val::Int(number))?;
    rows.push(&Val::Null)?;
    rows.push(&Val::Text(CowStr::Borrowed(text)))?;
    rows.finish_row()
}

fn push_rows<A: Heap>(
    rt: &(impl Abort + AllocGlobal),
    rows: &mut AnswerRows<A>,
    many: Many,
) -> Result<(), AllocError> {
    let text = repeated(rt.alloc(), many.part, many.times)?;
    for number in 0..many.rows {
        push_row(rows, number, text.as_str())?;
    }
    Ok(())
}

fn reply_of<A: Heap>(rt: &(impl Abort + AllocGlobal), alloc: A) -> Result<Reply<A>, AllocError> {
    let mut headings = Items::new(alloc);
    headings.push(Text::new(alloc, "id")?)?;
    headings.push(Text::new(alloc, "x,y")?)?;
    headings.push(Text::new(alloc, "text")?)?;
    let mut rows = AnswerRows::new(alloc);
    for many in &ROWS {
        push_rows(rt, &mut rows, *many)?;
    }
    Ok(Reply::Rows { headings, rows })
}

fn push_lines(alloc: Global, out: &mut String, many: Many) -> Result<(), AllocError> {
    let field = repeated(alloc, many.written, many.times)?;
    let quote = many.quote;
    for number in 0..many.rows {
        write!(out, "{number},\\N,{quote}{field}{quote}\n")?;
    }
    Ok(())
}

// The text of that reply.
fn whole(alloc: Global) -> Result<String, AllocError> {
    let mut text = String::new(alloc);
    text.push_str("id,\"x,y\",text\n")?;
    for many in &ROWS {
        push_lines(alloc, &mut text, *many)?;
    }
    Ok(text)
}

// All of the reply is written, by few calls, with one request for memory.
#[test]
fn long_replies_are_written_whole(rt: HostRuntime) -> Result<(), Fail> {
    let heap = Metered::counting(rt.alloc());
    let reply = reply_of(&rt, &heap)?;
    let want = whole(rt.alloc())?;
    let before = heap.requests(0);
    let mut out = writer_of(rt.alloc(), usize::MAX, usize::MAX);
    assert_eq!(rt; write_reply(&heap, &reply, &mut out), 0u8);
    assert_eq!(rt; heap.requests(0), before.wrapping_add(1));
    assert!(rt; out.inner.calls < 20);
    assert!(rt; out.inner.held.as_slice() == want.as_bytes());
    let text = reply_text(&heap, &reply)?;
    assert!(rt; text.as_slice() == want.as_bytes());
    Ok(())
}

// A writer of so much room has the beginning of the reply, and is called no more after it failed.
fn holds_beginning<A: Heap>(
    rt: &(impl Abort + AllocGlobal),
    alloc: A,
    reply: &Reply<A>,
    want: &[u8],
    room: usize,
    step: usize,
) {
    let mut out = writer_of(rt.alloc(), room, step);
    let status = write_reply(alloc, reply, &mut out);
    let fails = room < want.len();
    assert_eq!(rt; status, if fails { 8u8 } else { 0u8 }, "{room}");
    assert_eq!(rt; out.failed, u64::from(fails), "{room}");
    let beginning = want.get(..room).unwrap_or(want);
    assert!(rt; out.inner.held.as_slice() == beginning, "{room}");
}

// Rooms around the ends of what is written at once, and around that of the reply.
#[test]
fn failed_writers_have_the_beginning_of_long_replies(rt: HostRuntime) -> Result<(), Fail> {
    let reply = reply_of(&rt, rt.alloc())?;
    let want = whole(rt.alloc())?;
    let size = want.as_bytes().len();
    let near_end = [size.wrapping_sub(1), size, size.wrapping_add(1)];
    for room in [0, 1, 65_535, 65_536, 65_537, 131_072, 150_000] {
        holds_beginning(&rt, rt.alloc(), &reply, want.as_bytes(), room, usize::MAX);
    }
    for room in near_end {
        holds_beginning(&rt, rt.alloc(), &reply, want.as_bytes(), room, 1000);
    }
    holds_beginning(&rt, rt.alloc(), &reply, want.as_bytes(), 70_000, 1);
    Ok(())
}

// Where memory is refused, its line is all that is written.
#[test]
fn replies_are_refused_before_their_first_byte(rt: HostRuntime) -> Result<(), Fail> {
    let counted = Metered::counting(rt.alloc());
    drop(reply_of(&rt, &counted)?);
    let heap = Metered::refusing(rt.alloc(), counted.requests(0).wrapping_add(1));
    let reply = reply_of(&rt, &heap)?;
    let mut out = writer_of(rt.alloc(), usize::MAX, usize::MAX);
    assert_eq!(rt; write_reply(&heap, &reply, &mut out), 7u8);
    assert_eq!(rt; out.inner.held.as_slice(), b"refused 53200\n".as_slice());
    Ok(())
}
