//! The rows of a reply as a table, against those of psql 15 with `\pset null '\\N'`.

use answer_rows::AnswerRows;
use memory::{Items, Text};
use replies::Reply;
use std::alloc::{AllocError, Global};
use std::borrow::CowStr;
use std::process::Abort;
use tabular::{reply_table, shown};
use value::{Refusal, Val};

fn texts(alloc: Global, words: &[&str]) -> Result<Items<Text<Global>, Global>, AllocError> {
    let mut all = Items::new(alloc);
    for word in words {
        all.push(Text::new(alloc, word)?)?;
    }
    Ok(all)
}

// `null` is null, `true` and `false` are truth values, digits are a number.
fn value_of(word: &str) -> Val<'_, Global> {
    match word {
        "null" => Val::Null,
        "true" => Val::Bool(true),
        "false" => Val::Bool(false),
        _ => match word.parse::<i64>() {
            Ok(n) => Val::Int(n),
            Err(_) => Val::Text(CowStr::Borrowed(word)),
        },
    }
}

fn push_row(rows: &mut AnswerRows<Global>, words: &[&str]) -> Result<(), AllocError> {
    for word in words {
        rows.push(&value_of(word))?;
    }
    rows.finish_row()
}

fn table(
    alloc: Global,
    headings: &[&str],
    given: &[&[&str]],
) -> Result<Vec<u8, Global>, AllocError> {
    let mut rows = AnswerRows::new(alloc);
    for words in given {
        push_row(&mut rows, words)?;
    }
    let headings = texts(alloc, headings)?;
    reply_table(alloc, &Reply::Rows { headings, rows })
}

fn is_printed(rt: &(impl Abort + AllocGlobal), headings: &[&str], rows: &[&[&str]], text: &str) {
    match table(rt.alloc(), headings, rows) {
        Ok(made) => assert_eq!(rt; made.as_slice(), text.as_bytes()),
        Err(_) => panic!(rt; "out of memory"),
    }
}

#[test]
fn psql_prints_the_same(rt: HostRuntime) {
    is_printed(
        &rt,
        &["id", "name", "ok"],
        &[&["1", "anna", "true"], &["-12345", "null", "false"]],
        "   id   | name | ok \n--------+------+----\n      1 | anna | t\n -12345 | \\N   | f\n(2 rows)\n\n",
    );
    is_printed(
        &rt,
        &["a_longer_header", "n"],
        &[&["1", "a longer text here"]],
        " a_longer_header |         n          \n-----------------+--------------------\n               1 | a longer text here\n(1 row)\n\n",
    );
    is_printed(&rt, &["id"], &[], " id \n----\n(0 rows)\n\n");
    is_printed(
        &rt,
        &["wide", "nul"],
        &[&["häß日本", ""]],
        "  wide   | nul \n---------+-----\n häß日本 | \n(1 row)\n\n",
    );
}

#[test]
fn control_characters_are_escaped(rt: HostRuntime) {
    match shown(rt.alloc(), "a\nb\rc\td\u{1}e\u{7f}\u{1b}\u{85}é") {
        Ok(cell) => assert_eq!(&rt; cell.as_str(), "a\\nb\\rc\\td\\x01e\\x7F\\x1B\\u0085é"),
        Err(_) => panic!(&rt; "out of memory"),
    }
}

#[test]
fn refusals_have_their_own_text(rt: HostRuntime) {
    let refused = Reply::Refused {
        code: Refusal::SyntaxError,
        offset: Some(7),
    };
    match reply_table(rt.alloc(), &refused) {
        Ok(text) => assert_eq!(&rt; text.as_slice(), b"refused 42601 at 7\n".as_slice()),
        Err(_) => panic!(&rt; "out of memory"),
    }
}
