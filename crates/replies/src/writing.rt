//! The texts of replies, put into a buffer.

ghost use Rattle.std.specs.Prelude.{◌≡◌, ◌<◌, ◌≤◌, ◌++◌, ◌∷◌, None, IfSome, map, flat_map, length, take, drop};
ghost use Rattle.std.specs.List.{list_any};
ghost use Rattle.value.specs.Datum.{datum_of, text as text_datum};
ghost use Rattle.replies.specs.Buffered.{Puts};
ghost use Rattle.replies.specs.Reply.{Refused as refused, Denied as denied, Faulted as faulted, Rows as answered};
ghost use Rattle.replies.specs.ReplyText.{is_special, needs_quotes, doubled, quoted_text, field_text, line_text, reply_text};
ghost use Rattle.replies.specs.View.{reply_of};

use crate::buffered::{put, put_all};
use crate::reply::Reply;
use answer_rows::{AnswerRow, AnswerRows};
use itoa::Buffer;
use memory::{Heap, Text};
use output::{Failed, Out};
use value::{Fault, Refusal, Val};

fn special(b: u8) -> bool
    ensures { result ≡ is_special b }
{
    b == b',' || b == b'"' || b == b'\n' || b == b'\r'
}

fn any_special(bytes: &[u8]) -> bool
    ensures { result ≡ list_any is_special bytes.now }
{
    bytes.iter().any(|b| special(*b))
}

fn wants_quotes(bytes: &[u8]) -> bool
    ensures { result ≡ needs_quotes bytes.now }
{
    bytes.is_empty() || any_special(bytes)
}

// The number of bytes up to the first quote, and with it.
fn through_quote(bytes: &[u8]) -> Option<usize>
    ensures none { result ≡ None → flat_map doubled bytes.now ≡ bytes.now }
    ensures some { IfSome result (λ n. (0 < n) × (n ≤ length bytes.now) × (flat_map doubled bytes.now ≡ take n bytes.now ++ 34 ∷ flat_map doubled (drop n bytes.now))) }
{
    for (i, b) in bytes.iter().enumerate() {
        if *b == b'"' {
            return Some(i + 1);
        }
    }
    None
}

// Each quote is written twice.
fn put_doubled<A: Heap, W: Out>(
    out: &mut W,
    buffer: &mut Vec<u8, A>,
    bytes: &[u8],
) -> Result<(), Failed>
    ensures { Puts W.taken W.failures out.old out.new buffer.old.items buffer.new.items (flat_map doubled bytes.now) result }
{
    let mut rest = bytes;
    while let Some(n) = through_quote(rest) {
        put(out, buffer, &rest[..n])?;
        put(out, buffer, b"\"")?;
        rest = &rest[n..];
    }
    put(out, buffer, rest)?;
    Ok(())
}

fn put_quoted<A: Heap, W: Out>(
    out: &mut W,
    buffer: &mut Vec<u8, A>,
    bytes: &[u8],
) -> Result<(), Failed>
    ensures { Puts W.taken W.failures out.old out.new buffer.old.items buffer.new.items (quoted_text bytes.now) result }
{
    if !wants_quotes(bytes) {
        return put(out, buffer, bytes);
    }
    put(out, buffer, b"\"")?;
    put_doubled(out, buffer, bytes)?;
    put(out, buffer, b"\"")?;
    Ok(())
}

fn put_field<A: Heap, W: Out>(
    out: &mut W,
    buffer: &mut Vec<u8, A>,
    value: &Val<'_, A>,
) -> Result<(), Failed>
    ensures { Puts W.taken W.failures out.old out.new buffer.old.items buffer.new.items (field_text (datum_of value.now)) result }
{
    match value {
        Val::Null => put(out, buffer, b"\\N"),
        Val::Int(n) => {
            let mut digits = Buffer::new();
            put(out, buffer, digits.format(*n).as_bytes())
        }
        Val::Text(text) => put_quoted(out, buffer, text.as_str().as_bytes()),
        Val::Bool(true) => put(out, buffer, b"t"),
        Val::Bool(false) => put(out, buffer, b"f"),
    }
}

fn put_further_fields<A: Heap, W: Out>(
    out: &mut W,
    buffer: &mut Vec<u8, A>,
    row: &AnswerRow<'_, A>,
) -> Result<(), Failed>
    ensures { Puts W.taken W.failures out.old out.new buffer.old.items buffer.new.items (flat_map (λ e. 44 ∷ field_text e) row.now) result }
{
    for i in 0..row.len() {
        put(out, buffer, b",")?;
        put_field(out, buffer, &row.get(i))?;
    }
    Ok(())
}

fn put_line<A: Heap, W: Out>(
    out: &mut W,
    buffer: &mut Vec<u8, A>,
    row: &AnswerRow<'_, A>,
) -> Result<(), Failed>
    ensures { Puts W.taken W.failures out.old out.new buffer.old.items buffer.new.items (line_text row.now) result }
{
    let Some((first, others)) = row.split_first() else {
        return put(out, buffer, b"\n");
    };
    put_field(out, buffer, &first)?;
    put_further_fields(out, buffer, &others)?;
    put(out, buffer, b"\n")?;
    Ok(())
}

fn put_further_names<A: Heap, W: Out>(
    out: &mut W,
    buffer: &mut Vec<u8, A>,
    names: &[Text<A>],
) -> Result<(), Failed>
    ensures { Puts W.taken W.failures out.old out.new buffer.old.items buffer.new.items (flat_map (λ e. 44 ∷ field_text e) (map text_datum names.now)) result }
{
    for name in names {
        put(out, buffer, b",")?;
        put_quoted(out, buffer, name.as_str().as_bytes())?;
    }
    Ok(())
}

fn put_header<A: Heap, W: Out>(
    out: &mut W,
    buffer: &mut Vec<u8, A>,
    names: &[Text<A>],
) -> Result<(), Failed>
    ensures { Puts W.taken W.failures out.old out.new buffer.old.items buffer.new.items (line_text (map text_datum names.now)) result }
{
    let Some((first, others)) = names.split_first() else {
        return put(out, buffer, b"\n");
    };
    put_quoted(out, buffer, first.as_str().as_bytes())?;
    put_further_names(out, buffer, others)?;
    put(out, buffer, b"\n")?;
    Ok(())
}

fn put_rows<A: Heap, W: Out>(
    out: &mut W,
    buffer: &mut Vec<u8, A>,
    rows: &AnswerRows<A>,
) -> Result<(), Failed>
    ensures { Puts W.taken W.failures out.old out.new buffer.old.items buffer.new.items (flat_map line_text rows.now.rows) result }
{
    for number in 0..rows.len() {
        put_line(out, buffer, &rows.row(number))?;
    }
    Ok(())
}

fn put_refusal<A: Heap, W: Out>(
    out: &mut W,
    buffer: &mut Vec<u8, A>,
    code: Refusal,
    offset: Option<u32>,
) -> Result<(), Failed>
    ensures { Puts W.taken W.failures out.old out.new buffer.old.items buffer.new.items (reply_text (refused code offset)) result }
{
    match offset {
        None => put_all(out, buffer, &["refused ", code.code(), "\n"]),
        Some(offset) => {
            let mut digits = Buffer::new();
            let offset = digits.format(offset);
            put_all(
                out,
                buffer,
                &["refused ", code.code(), " at ", offset, "\n"],
            )
        }
    }
}

fn put_denial<A: Heap, W: Out>(
    out: &mut W,
    buffer: &mut Vec<u8, A>,
    column: &Option<Text<A>>,
    table: &str,
) -> Result<(), Failed>
    ensures { Puts W.taken W.failures out.old out.new buffer.old.items buffer.new.items (reply_text (denied column.now table.now)) result }
{
    match column {
        None => put_all(out, buffer, &["denied 42501 table ", table, "\n"]),
        Some(column) => {
            let column = column.as_str();
            put_all(
                out,
                buffer,
                &["denied 42501 column ", column, " of table ", table, "\n"],
            )
        }
    }
}

fn put_fault<A: Heap, W: Out>(
    out: &mut W,
    buffer: &mut Vec<u8, A>,
    fault: Fault,
) -> Result<(), Failed>
    ensures { Puts W.taken W.failures out.old out.new buffer.old.items buffer.new.items (reply_text (faulted fault)) result }
{
    let mut digits = Buffer::new();
    let offset = digits.format(fault.offset);
    put_all(
        out,
        buffer,
        &["fault ", fault.kind.code(), " at ", offset, "\n"],
    )
}

fn put_answer<A: Heap, W: Out>(
    out: &mut W,
    buffer: &mut Vec<u8, A>,
    headings: &[Text<A>],
    rows: &AnswerRows<A>,
) -> Result<(), Failed>
    ensures { Puts W.taken W.failures out.old out.new buffer.old.items buffer.new.items (reply_text (answered headings.now rows.now.rows)) result }
{
    put_header(out, buffer, headings)?;
    put_rows(out, buffer, rows)?;
    Ok(())
}

/// Puts the text of a reply.
pub fn put_reply<A: Heap, W: Out>(
    out: &mut W,
    buffer: &mut Vec<u8, A>,
    reply: &Reply<A>,
) -> Result<(), Failed>
    ensures { Puts W.taken W.failures out.old out.new buffer.old.items buffer.new.items (reply_text (reply_of reply.now)) result }
{
    match reply {
        Reply::Refused { code, offset } => put_refusal(out, buffer, *code, *offset),
        Reply::Denied { column, table } => put_denial(out, buffer, column, table.as_str()),
        Reply::Faulted { fault } => put_fault(out, buffer, *fault),
        Reply::Rows { headings, rows } => put_answer(out, buffer, headings.as_slice(), rows),
    }
}
