//! Rows of an answer: the first in order of many, and all in order.

use answer_rows::{AnswerRow, AnswerRows};
use expr::OutputKey;
use memory::Heap;
use std::alloc::AllocError;
use std::borrow::CowStr;
use std::process::Abort;
use std::test::Fail;
use value::Val;

const BY_NUMBER: [OutputKey; 1] = [OutputKey {
    index: 0,
    descending: false,
}];

fn is_row<A: Heap>(row: &AnswerRow<'_, A>, number: i64, text: &str) -> bool {
    let is_number = matches!(row.get(0), Val::Int(n) if n == number);
    let is_text = matches!(row.get(1), Val::Text(t) if t.as_str() == text);
    is_number && is_text && row.len() == 2
}

// These are the rows, each of a number and a text.
fn shows<A: Heap>(rt: &impl Abort, rows: &AnswerRows<A>, want: &[(i64, &str)]) {
    assert_eq!(rt; rows.len(), want.len());
    for i in 0..rows.len() {
        let row = rows.row(i);
        match want.get(i) {
            Some((number, text)) => assert!(rt; is_row(&row, *number, text), "row {i}"),
            None => {}
        }
    }
}

fn push<A: Heap>(rows: &mut AnswerRows<A>, number: i64) -> Result<(), AllocError> {
    let text = if number % 2 == 0 { "even" } else { "odd" };
    rows.push(&Val::Int(number))?;
    rows.push(&Val::Text(CowStr::Borrowed(text)))
}

// The first rows in order of a thousand in no order.
#[test]
fn first_rows_of_many(rt: HostRuntime) -> Result<(), Fail> {
    let mut rows = AnswerRows::new(rt.alloc());
    for i in 0..1000i64 {
        push(&mut rows, i ^ 341)?;
        rows.finish_among_first(&BY_NUMBER, 3)?;
    }
    shows(&rt, &rows, &[(0, "even"), (1, "odd"), (2, "even")]);
    Ok(())
}

// A hundred rows are sorted by words; a row that is forgotten is none of them.
#[test]
fn many_rows_in_order(rt: HostRuntime) -> Result<(), Fail> {
    let mut rows = AnswerRows::new(rt.alloc());
    for i in 0..100i64 {
        push(&mut rows, i ^ 85)?;
        rows.finish_row()?;
        push(&mut rows, -1)?;
        rows.forget_row();
    }
    rows.sort(&BY_NUMBER);
    rows.truncate(3);
    shows(&rt, &rows, &[(0, "even"), (1, "odd"), (2, "even")]);
    let copy = rows.copy(rt.alloc(), 1, 9)?;
    shows(&rt, &copy, &[(1, "odd"), (2, "even")]);
    Ok(())
}
