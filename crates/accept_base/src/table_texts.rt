//! Tables that are read from comma-separated text, and the errors of refused ones.

use crate::compared::same;
use crate::deals::{DEAL, DEAL_ROWS, loaded, refusal, shows};
use fixtures::in_pieces;
use memory::Failure;
use std::alloc::{AllocError, Global};
use std::io::Read;
use std::process::Abort;
use std::test::Fail;
use tables::{LoadError, Table};
use value::Val;

// A name, a text before each row and one after it, and the rows with the load error of the whole.
type Group = (
    &'static str,
    &'static str,
    &'static str,
    &'static [(&'static str, LoadError)],
);

static REFUSED: [Group; 4] = [
    (
        "header_is_the_names_in_order",
        "",
        "",
        &[
            ("", LoadError::Header),
            ("\n\n", LoadError::Header),
            ("\u{feff}", LoadError::Header),
            ("id", LoadError::Header),
            ("id,owner,region,parts\n", LoadError::Header),
            ("id,owner,region,parts,open,\n", LoadError::Header),
            ("id,owner,region,parts,Open\n", LoadError::Header),
            ("id,owner,region,parts, open\n", LoadError::Header),
            ("owner,id,region,parts,open\n", LoadError::Header),
            ("1,alice,1,4,t\n", LoadError::Header),
            (
                "\u{feff}\u{feff}id,owner,region,parts,open\n",
                LoadError::Header,
            ),
        ],
    ),
    (
        "cells_of_no_value_are_reported",
        "id,owner,region,parts,open\n1,a,1,1,t\n",
        "\n2,b\n",
        &[
            ("-0,a,1,1,t", LoadError::Cell { row: 2, column: 0 }),
            ("007,a,1,1,t", LoadError::Cell { row: 2, column: 0 }),
            ("+1,a,1,1,t", LoadError::Cell { row: 2, column: 0 }),
            (" 1,a,1,1,t", LoadError::Cell { row: 2, column: 0 }),
            (
                "9223372036854775808,a,1,1,t",
                LoadError::Cell { row: 2, column: 0 },
            ),
            (
                "-9223372036854775809,a,1,1,t",
                LoadError::Cell { row: 2, column: 0 },
            ),
            ("\\n,a,1,1,t", LoadError::Cell { row: 2, column: 0 }),
            ("1,a,,1,t", LoadError::Cell { row: 2, column: 2 }),
            ("1,a,1,x,t", LoadError::Cell { row: 2, column: 3 }),
            ("1,a,1,1,T", LoadError::Cell { row: 2, column: 4 }),
            ("1,a,1,1,true", LoadError::Cell { row: 2, column: 4 }),
            ("1,a,1,1,", LoadError::Cell { row: 2, column: 4 }),
            // The first column decides.
            ("1,a,x,y,T", LoadError::Cell { row: 2, column: 2 }),
            ("x,\\N,1,1,t", LoadError::Cell { row: 2, column: 0 }),
        ],
    ),
    (
        "null_is_refused_where_one_is_not_taken",
        "id,owner,region,parts,open\n",
        "\n",
        &[
            ("\\N,a,1,1,t", LoadError::NotNull { row: 1, column: 0 }),
            ("1,\\N,1,1,t", LoadError::NotNull { row: 1, column: 1 }),
            ("1,\"\\N\",1,1,t", LoadError::NotNull { row: 1, column: 1 }),
            ("\\N,\\N,x,x,x", LoadError::NotNull { row: 1, column: 0 }),
        ],
    ),
    (
        "uneven_records_and_cut_texts",
        "",
        "",
        &[
            (
                "id,owner,region,parts,open\n1,alice,1,4\n",
                LoadError::Reader { row: 1 },
            ),
            (
                "id,owner,region,parts,open\n1,alice,1,4,t,t\n",
                LoadError::Reader { row: 1 },
            ),
            (
                "id,owner,region,parts,open\n1,alice,1,4,t\n2\n3,bob\n",
                LoadError::Reader { row: 2 },
            ),
            // The number of fields is reported before the cells, and an earlier row before both.
            (
                "id,owner,region,parts,open\nx,\\N,1,4\n",
                LoadError::Reader { row: 1 },
            ),
            (
                "id,owner,region,parts,open\n1,alice,1,4,t\n2,alice,2,0,f\n3,bob,1",
                LoadError::Reader { row: 3 },
            ),
            (
                "id,owner,region,parts,open\n1,alice,1,4,t\n2,alice,2,0,f\n3,bob,1,",
                LoadError::Reader { row: 3 },
            ),
            (
                "id,owner,region,parts,open\n1,alice,1,4,t\n2,alice,2,0,f\n3,bob,1,7,",
                LoadError::Cell { row: 3, column: 4 },
            ),
        ],
    ),
];

// Bytes of no text.
static NO_TEXTS: [(&[u8], LoadError); 3] = [
    (
        b"id,owner,region,parts,open\n1,a,1,1,t\n2,b\xff,1,1,t\n",
        LoadError::Cell { row: 2, column: 1 },
    ),
    (
        b"id,owner,region,parts,open\n1,a,1,\xc3,t\n",
        LoadError::Cell { row: 1, column: 3 },
    ),
    (b"id,owner,region,parts,op\xffn\n", LoadError::Header),
];

// Texts, and the rows that they give.
static GOOD: [(&str, &str); 12] = [
    (DEAL, DEAL_ROWS),
    ("id,owner,region,parts,open\n", ""),
    ("id,owner,region,parts,open", ""),
    (
        "id,owner,region,parts,open\r\n1,a,1,1,t\r\n\r\n2,b,1,1,f",
        "1;'a';1;1;t;/2;'b';1;1;f;/",
    ),
    (
        "\"id\",owner,\"region\",parts,open\n\"1\",\"x,y\",\"2\",3,\"t\"\n",
        "1;'x,y';2;3;t;/",
    ),
    (
        "id,owner,region,parts,open\n1,\"say \"\"hi\"\"\",1,1,t\n",
        "1;'say \"hi\"';1;1;t;/",
    ),
    (
        "id,owner,region,parts,open\n1,\"two\r\nlines\n\",1,1,t\n",
        "1;'two\r\nlines\n';1;1;t;/",
    ),
    (
        "id,owner,region,parts,open\n1,,\"\\N\",\\N,\"\\N\"\n2,\"\",1,1,f\n",
        "1;'';null;null;null;/2;'';1;1;f;/",
    ),
    (
        "id,owner,region,parts,open\n-9223372036854775808, \\N,9223372036854775807,0,f\n",
        "-9223372036854775808;' \\N';9223372036854775807;0;f;/",
    ),
    (
        "\u{feff}id,owner,region,parts,open\n1,\u{feff}a,1,1,t\n",
        "1;'\u{feff}a';1;1;t;/",
    ),
    (
        "\u{feff}\"id\",owner,region,parts,open\n1,\u{e4}\u{1f600},1,-1,t\n",
        "1;'\u{e4}\u{1f600}';1;-1;t;/",
    ),
    // A cut at a line's end is a shorter table.
    (
        "id,owner,region,parts,open\n1,alice,1,4,t\n2,alice,2,0,f\n",
        "1;'alice';1;4;t;/2;'alice';2;0;f;/",
    ),
];

fn refused() -> &'static [Group] {
    &REFUSED
}

fn no_texts() -> &'static [(&'static [u8], LoadError)] {
    &NO_TEXTS
}

fn good() -> &'static [(&'static str, &'static str)] {
    &GOOD
}

fn is_refused(
    rt: &(impl Abort + AllocGlobal),
    name: &str,
    parts: (&str, &str, &str),
    want: LoadError,
) -> Result<(), AllocError> {
    let (before, row, after) = parts;
    let text = format!(in rt.alloc(); "{before}{row}{after}")?;
    let found = refusal(rt.alloc(), text.as_str().as_bytes());
    let want = Some(Failure::Error(want));
    same(rt, &found, &want, name, &text.as_str());
    Ok(())
}

fn are_refused(rt: &(impl Abort + AllocGlobal), group: &Group) -> Result<(), AllocError> {
    let (name, before, after, rows) = group;
    for (row, want) in *rows {
        is_refused(rt, name, (before, row, after), *want)?;
    }
    Ok(())
}

fn bytes_of_no_text_are_reported(rt: &(impl Abort + AllocGlobal)) {
    for (row, (bytes, want)) in no_texts().iter().enumerate() {
        let found = refusal(rt.alloc(), *bytes);
        let want = Some(Failure::Error(*want));
        same(rt, &found, &want, "bytes_of_no_text_are_reported", &row);
    }
}

#[test]
fn refused_texts_of_tables(rt: HostRuntime) -> Result<(), Fail> {
    for group in refused() {
        are_refused(&rt, group)?;
    }
    bytes_of_no_text_are_reported(&rt);
    Ok(())
}

// A reader gives a text, of which the rows are shown.
fn gives<R: Read + Drop>(rt: &(impl Abort + AllocGlobal), name: &str, reader: R, want: &str) {
    let table = loaded(rt, rt.alloc(), reader, name, want);
    shows(rt, &table, want, name);
}

fn rows_do_not_depend_on_pieces(rt: &(impl Abort + AllocGlobal), text: &str, want: &str) {
    let name = "rows_do_not_depend_on_pieces";
    for step in [1usize, 2, 3, 5] {
        gives(rt, name, in_pieces(text, step, 1000), want);
    }
}

fn is_four(value: Val<'_, Global>) -> bool {
    matches!(value, Val::Int(4))
}

// The last row whose first cell is 4, or else row 0.
fn row_of_four(table: &Table<Global>) -> u64 {
    let mut found = 0u64;
    for row in 0..table.rows() {
        if table.columns().len() > 1 && is_four(table.cell(row, 0)) {
            found = row;
        }
    }
    found
}

fn cells_by_their_place(rt: &impl Abort, table: &Table<Global>) {
    let name = "cells_by_their_place";
    same(rt, &table.rows(), &5, name, &"rows");
    same(rt, &table.columns().len(), &5, name, &"columns");
    same(rt, &row_of_four(table), &3, name, &"the row of 4");
}

#[test]
fn rows_of_texts_whole_and_in_pieces(rt: HostRuntime) {
    for (text, want) in good() {
        gives(&rt, "rows_of_texts", text.as_bytes(), want);
        rows_do_not_depend_on_pieces(&rt, text, want);
    }
    let table = loaded(&rt, rt.alloc(), DEAL.as_bytes(), "cells", DEAL_ROWS);
    cells_by_their_place(&rt, &table);
}

// The number of lines that end among the first bytes of a text.
fn lines_in(text: &str, bytes: u64) -> u64 {
    let mut lines = 0u64;
    for (i, byte) in text.as_bytes().iter().enumerate() {
        if (i as u64) < bytes && *byte == b'\n' {
            lines = lines.saturating_add(1);
        }
    }
    lines
}

// A load of which so many bytes are read: a failed read is reported at its row, or the table is whole.
fn loads_after(rt: &(impl Abort + AllocGlobal), left: u64) -> bool {
    match refusal(rt.alloc(), in_pieces(DEAL, 1, left)) {
        None => true,
        Some(error) => {
            let row = lines_in(DEAL, left);
            let want = Failure::Error(LoadError::Reader { row });
            same(rt, &error, &want, "failed_read_gives_no_table: at", &left);
            false
        }
    }
}

fn failed_read_gives_no_table(rt: &(impl Abort + AllocGlobal)) {
    let mut refused = 0u64;
    for left in 0..1000u64 {
        if loads_after(rt, left) {
            break;
        }
        refused = left;
    }
    assert_eq!(rt; refused, DEAL.len() as u64);
}

fn failed_append(rt: &(impl Abort + AllocGlobal), table: &mut Table<Global>, left: u64) {
    let found = table.append(in_pieces(DEAL, 1, left)).err();
    let row = lines_in(DEAL, left);
    let want = Some(Failure::Error(LoadError::Reader { row }));
    same(rt, &found, &want, "failed_read_adds_no_rows: at", &left);
    shows(rt, table, DEAL_ROWS, "failed_read_adds_no_rows");
}

fn failed_read_adds_no_rows(rt: &(impl Abort + AllocGlobal)) {
    let mut table = loaded(rt, rt.alloc(), DEAL.as_bytes(), "append", DEAL_ROWS);
    for left in 0..80u64 {
        failed_append(rt, &mut table, left);
    }
}

#[test]
fn failed_reads_add_nothing(rt: HostRuntime) {
    failed_read_gives_no_table(&rt);
    failed_read_adds_no_rows(&rt);
}

// Texts that are refused for a table of deals.
static MORE_REFUSED: [&str; 3] = [
    "id,owner\n",
    "id,owner,region,parts,open\n7,dan,1,1,t\n8\n",
    "id,owner,region,parts,open\n7,dan,1,1,t\n\\N,dan,1,1,t\n",
];

fn more_refused() -> &'static [&'static str] {
    &MORE_REFUSED
}

// A table that refuses texts shows its rows as before.
fn adds_nothing(rt: &(impl Abort + AllocGlobal), table: &mut Table<Global>, want: &str) {
    for text in more_refused() {
        let refused = table.append(text.as_bytes()).is_err();
        assert!(rt; refused, "{text}");
        shows(rt, table, want, text);
    }
}

fn appends(rt: &(impl Abort + AllocGlobal), table: &mut Table<Global>, want: &str) {
    let name = "appended_rows_come_after_those_before";
    let more = "id,owner,region,parts,open\n6,carol,1,1,t\n";
    same(rt, &table.append(more.as_bytes()), &Ok(()), name, &more);
    shows(rt, table, want, more);
    adds_nothing(rt, table, want);
    let cut = "id,owner,region,parts,open\n7\n";
    let fault = Failure::Error(LoadError::Reader { row: 1 });
    same(rt, &table.append(cut.as_bytes()), &Err(fault), name, &cut);
    same(rt, &table.rows(), &6, name, &"rows");
}

#[test]
fn appended_rows_come_after_those_before(rt: HostRuntime) -> Result<(), Fail> {
    let want = format!(in rt.alloc(); "{DEAL_ROWS}6;'carol';1;1;t;/")?;
    let mut table = loaded(&rt, rt.alloc(), DEAL.as_bytes(), "append", DEAL_ROWS);
    appends(&rt, &mut table, want.as_str());
    Ok(())
}
