//! Truth values of conditions on texts, of all rows, against those that are said of each cell.

use crate::conditions::column;
use crate::numbers::LENGTHS;
use expr::{BoundExpr, Copied, comparison, literal, membership};
use lane_filters::truths_of;
use memory::{Items, Text, boxed};
use std::alloc::{AllocError, AllocGlobal, Global};
use std::process::Abort;
use std::test::Fail;
use tables::Table;
use value::{ColType, Column, Comparison, Value};

// The cells of the column, over and over.
static CELLS: [Option<&str>; 7] = [
    Some("x"),
    None,
    Some(""),
    Some("xy"),
    Some("X"),
    Some("x"),
    Some("y"),
];

// A condition on the column `t`: a comparison with 'x', which may be CURRENT_USER, on either side; or IN ('x', 'y').
#[derive(Clone, Copy, Debug)]
enum Tested {
    Compared(Comparison, bool, bool),
    Member(bool),
}

static TESTED: [Tested; 8] = [
    Tested::Compared(Comparison::Equal, false, false),
    Tested::Compared(Comparison::Equal, false, true),
    Tested::Compared(Comparison::Equal, true, false),
    Tested::Compared(Comparison::NotEqual, false, false),
    Tested::Compared(Comparison::NotEqual, true, false),
    Tested::Compared(Comparison::NotEqual, true, true),
    Tested::Member(false),
    Tested::Member(true),
];

// Whether it is true of a cell: never of null.
fn is_true_of(tested: Tested, cell: Option<&str>) -> bool {
    match (tested, cell) {
        (_, None) => false,
        (Tested::Compared(op, _, _), Some(text)) => (text == "x") == (op == Comparison::Equal),
        (Tested::Member(negated), Some(text)) => (text == "x" || text == "y") != negated,
    }
}

fn text_value(alloc: Global, text: &str) -> Result<Value<Global>, AllocError> {
    Ok(Value::Text(Text::new(alloc, text)?))
}

// 'x', or CURRENT_USER.
fn x(alloc: Global, is_role: bool) -> Copied<Global> {
    if is_role {
        boxed(alloc, BoundExpr::CurrentUser)
    } else {
        literal(alloc, text_value(alloc, "x"))
    }
}

fn condition(alloc: Global, tested: Tested) -> Copied<Global> {
    match tested {
        Tested::Compared(op, is_left, is_role) => {
            let text = x(alloc, is_role);
            if is_left {
                comparison(alloc, op, 0, text?, column(alloc, 0))
            } else {
                comparison(alloc, op, 0, column(alloc, 0)?, text)
            }
        }
        Tested::Member(negated) => {
            let mut values = Vec::new(alloc);
            values.push(text_value(alloc, "x")?)?;
            values.push(text_value(alloc, "y")?)?;
            membership(alloc, negated, 0, column(alloc, 0), &values)
        }
    }
}

// A field with an LF; one with no bytes is in quotes.
fn push_field(text: &mut String, field: &str) -> Result<(), AllocError> {
    if field.is_empty() {
        text.push_str("\"\"\n")
    } else {
        write!(text, "{field}\n")
    }
}

fn csv(alloc: Global, rows: usize) -> Result<String, AllocError> {
    let mut text = String::new(alloc);
    text.push_str("t\n")?;
    for row in 0..rows {
        let cell = CELLS[row % 7];
        match cell {
            Some(field) => push_field(&mut text, field)?,
            None => text.push_str("\\N\n")?,
        }
    }
    Ok(text)
}

fn table(rt: &(impl Abort + AllocGlobal), rows: usize) -> Result<Table<Global>, AllocError> {
    let alloc = rt.alloc();
    let mut columns = Items::new(alloc);
    columns.push(Column {
        name: Text::new(alloc, "t")?,
        data_type: ColType::Text,
        not_null: false,
    })?;
    let text = csv(alloc, rows)?;
    match Table::load(alloc, text.as_bytes(), columns) {
        Ok(table) => Ok(table),
        Err(_) => panic!(rt; "no table"),
    }
}

// The condition is true on the rows where it is to be, for the role x.
fn agrees(
    rt: &(impl Abort + AllocGlobal),
    table: &Table<Global>,
    tested: Tested,
) -> Result<(), AllocError> {
    let expression = condition(rt.alloc(), tested)?;
    let Some(truths) = truths_of(rt.alloc(), table, "x", &*expression)? else {
        panic!(rt; "{tested:?} does not go by lanes");
    };
    assert_eq!(rt; truths.len() as u64, table.rows(), "{tested:?}");
    for row in 0..truths.len() {
        let wanted = is_true_of(tested, CELLS[row % 7]);
        let found = truths.is_true(row);
        assert_eq!(rt; found, wanted, "{tested:?}: row {row}");
    }
    Ok(())
}

#[test]
fn conditions_on_texts_have_the_truth_values_of_their_rows(rt: HostRuntime) -> Result<(), Fail> {
    for rows in &LENGTHS {
        let table = table(&rt, *rows)?;
        for tested in &TESTED {
            agrees(&rt, &table, *tested)?;
        }
    }
    Ok(())
}

// Of another role no row is its own.
#[test]
fn current_user_is_the_role(rt: HostRuntime) -> Result<(), Fail> {
    let table = table(&rt, 7)?;
    let own = condition(rt.alloc(), Tested::Compared(Comparison::Equal, false, true))?;
    let Some(truths) = truths_of(rt.alloc(), &table, "z", &*own)? else {
        panic!(&rt; "no truth values");
    };
    for row in 0..truths.len() {
        assert!(&rt; !truths.is_true(row), "row {row}");
    }
    Ok(())
}
