//! Answers as texts.

use answer_rows::{AnswerRow, AnswerRows};
use memory::Failure;
use replies::Reply;
use std::alloc::{AllocError, Global};
use value::{Fault, Val};

/// The rows of an answer, or its fault.
pub type Answer = Result<AnswerRows<Global>, Failure<Fault>>;

/// Writes a value at the end of a text.
pub fn push_value(text: &mut String, value: &Val<'_, Global>) -> Result<(), AllocError> {
    match value {
        Val::Null => text.push_str("\\N"),
        Val::Int(number) => write!(text, "{number}"),
        Val::Text(word) => text.push_str(word.as_str()),
        Val::Bool(true) => text.push_str("t"),
        Val::Bool(false) => text.push_str("f"),
    }
}

// The values of a row with a comma between two.
fn line(alloc: Global, row: &AnswerRow<'_, Global>) -> Result<String, AllocError> {
    let mut text = String::new(alloc);
    for i in 0..row.len() {
        if i > 0 {
            text.push_str(",")?;
        }
        push_value(&mut text, &row.get(i))?;
    }
    Ok(text)
}

fn lines(alloc: Global, rows: &AnswerRows<Global>) -> Result<Vec<String, Global>, AllocError> {
    let mut lines = Vec::new(alloc);
    for number in 0..rows.len() {
        lines.push(line(alloc, &rows.row(number))?)?;
    }
    Ok(lines)
}

// The rows as lines, in the order of their texts.
fn sorted_lines(alloc: Global, rows: &AnswerRows<Global>) -> Result<String, AllocError> {
    let mut lines = lines(alloc, rows)?;
    lines.sort_unstable_by(|one, other| one.as_str().cmp(other.as_str()));
    let mut text = String::new(alloc);
    for line in &lines {
        write!(text, "{line}\n")?;
    }
    Ok(text)
}

/// An answer, its rows in the order of their texts.
pub fn answer_text(alloc: Global, answer: Answer) -> Result<String, AllocError> {
    match answer {
        Ok(rows) => sorted_lines(alloc, &rows),
        Err(Failure::Error(fault)) => {
            format!(in alloc; "fault {} at {}", fault.kind.code(), fault.offset)
        }
        Err(Failure::OutOfMemory) => Err(AllocError),
    }
}

/// A reply that is an answer, its rows in the order of their texts.
pub fn reply_text(alloc: Global, reply: Reply<Global>) -> Result<String, AllocError> {
    match reply {
        Reply::Rows { headings: _, rows } => answer_text(alloc, Ok(rows)),
        Reply::Faulted { fault } => answer_text(alloc, Err(Failure::Error(fault))),
        Reply::Refused { code, offset } => format!(in alloc; "refused {} {offset:?}", code.code()),
        Reply::Denied { column: _, table } => format!(in alloc; "denied {}", table.as_str()),
    }
}
