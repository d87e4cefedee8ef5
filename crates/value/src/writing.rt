//! Texts of values.

ghost use Rattle.std.specs.Prelude.{◌≡◌, ℤ, IfOk, OnErr, string_bytes, option_map};
ghost use Rattle.std.specs.Cow.{cow_str_bytes};
ghost use Rattle.std.specs.Fmt.{signed_decimal};
ghost use Rattle.value.specs.Datum.{datum_of, int};
ghost use Rattle.value.specs.Texts.{text_at, WrittenReadsBack, ReadIsWritten};

use crate::types::Val;
use itoa::Buffer;
use memory::Heap;
use std::alloc::AllocError;
use std::borrow::CowStr;

/// The text of a bigint: decimal digits, with a minus before those of a negative one.
pub(crate) fn bigint_text<A: Heap>(alloc: A, n: i64) -> Result<String<A>, AllocError>
    ensures { IfOk result (λ text. string_bytes text ≡ signed_decimal n) }
{
    let mut buffer = Buffer::new();
    String::from_str(alloc, buffer.format(n))
}

/// The text of a value: a bigint in decimal, `t` or `f`, or the text itself; null has none.
pub fn text_of<'r, A: Heap>(
    alloc: A,
    value: &'r Val<'_, A>,
) -> Result<Option<CowStr<'r, A>>, AllocError>
    ensures text { IfOk result (λ text. option_map (λ t. cow_str_bytes t) text ≡ text_at (datum_of value.now)) }
    // Only the text of a bigint is made in memory.
    ensures memory { OnErr result ((n : ℤ) × (datum_of value.now ≡ int n)) }
{
    match value {
        Val::Null => Ok(None),
        Val::Int(n) => Ok(Some(CowStr::Owned(bigint_text(alloc, *n)?))),
        Val::Text(text) => Ok(Some(CowStr::Borrowed(text.as_str()))),
        Val::Bool(true) => Ok(Some(CowStr::Borrowed("t"))),
        Val::Bool(false) => Ok(Some(CowStr::Borrowed("f"))),
    }
}

/// The text of a value reads back as the value, and a text that reads as a value is its text.
pub fn law_texts_read_back()
    ensures written { WrittenReadsBack }
    ensures read { ReadIsWritten }
{}
