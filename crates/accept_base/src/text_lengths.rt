//! Texts of no bytes and of a million, beside nulls.

ghost use Rattle.std.specs.Prelude.{◌<◌, length};

use columns::Texts;
use memory::Heap;
use std::alloc::AllocError;
use std::process::Abort;
use std::test::Fail;

fn reads<A: Heap>(rt: &impl Abort, column: &Texts<A>, i: usize, want: Option<&str>)
    requires { i < length column.now }
{
    assert_eq!(rt; column.get(i), want, "text {i}");
}

// Empty texts and nulls side by side, and again after a truncation.
#[test]
fn empty_text_is_no_null(rt: HostRuntime) -> Result<(), Fail> {
    let mut column = Texts::new(rt.alloc());
    column.push("")?;
    column.push_null()?;
    column.push("a")?;
    column.push_null()?;
    column.push("")?;
    reads(&rt, &column, 0, Some(""));
    reads(&rt, &column, 1, None);
    reads(&rt, &column, 2, Some("a"));
    reads(&rt, &column, 3, None);
    reads(&rt, &column, 4, Some(""));
    column.truncate(2);
    column.push("b")?;
    reads(&rt, &column, 1, None);
    reads(&rt, &column, 2, Some("b"));
    Ok(())
}

// A text of so many letters of two bytes.
fn letters<A: Heap>(alloc: A, count: usize) -> Result<String<A>, AllocError> {
    let mut text = String::new(alloc);
    for _ in 0..count {
        text.push('é')?;
    }
    Ok(text)
}

// An empty text between two of a million bytes.
#[test]
fn texts_of_no_bytes_and_of_a_million(rt: HostRuntime) -> Result<(), Fail> {
    let long = letters(rt.alloc(), 500_000)?;
    assert_eq!(&rt; long.len(), 1_000_000);
    let mut column = Texts::new(rt.alloc());
    column.push(long.as_str())?;
    column.push("")?;
    column.push(long.as_str())?;
    reads(&rt, &column, 0, Some(long.as_str()));
    reads(&rt, &column, 1, Some(""));
    reads(&rt, &column, 2, Some(long.as_str()));
    Ok(())
}
