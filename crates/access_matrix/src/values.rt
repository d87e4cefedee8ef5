//! The values of the rows of a reply, and its headings.

ghost use Rattle.std.specs.Prelude.{◌≡◌, ℕ, IfOk, OnOk, map, pos};
ghost use Rattle.value.specs.Datum.{int, text as text_datum};
ghost use Rattle.answer_rows.specs.Growing.{with_value};

use answer_rows::AnswerRows;
use memory::{Heap, Items, Text};
use std::alloc::AllocError;
use std::borrow::CowStr;
use value::Val;

/// Adds a text.
pub(crate) fn push_text<A: Heap>(rows: &mut AnswerRows<A>, text: &str) -> Result<(), AllocError>
    ensures { OnOk result (rows.new ≡ with_value rows.old (text_datum text.now)) }
{
    rows.push(&Val::Text(CowStr::Borrowed(text)))
}

/// Adds a number.
pub(crate) fn push_count<A: Heap>(rows: &mut AnswerRows<A>, count: u64) -> Result<(), AllocError>
    ensures { OnOk result (rows.new ≡ with_value rows.old (int (pos count))) }
{
    match i64::try_from(count) {
        Ok(number) => rows.push(&Val::Int(number)),
        Err(_) => Err(AllocError),
    }
}

/// Copies of texts.
pub(crate) fn headings<A: Heap>(alloc: A, texts: &[&str]) -> Result<Items<Text<A>, A>, AllocError>
    ensures { IfOk result (λ headings. headings ≡ map (λ t. t.now) texts.now) }
{
    let mut headings = Items::new(alloc);
    for text in texts {
        headings.push(Text::new(alloc, text)?)?;
    }
    Ok(headings)
}
