//! A table of deals, which the tests read and show.

ghost use Rattle.std.specs.Prelude.{◌<◌, length};

use crate::compared::same;
use memory::{Failure, Heap, Items, Text};
use std::alloc::{AllocError, Global};
use std::io::Read;
use std::process::Abort;
use tables::{LoadError, Table};
use value::{ColType, Column, Val};

/// Five deals: numbers, texts, truth values and nulls.
pub const DEAL: &str =
    "id,owner,region,parts,open\n1,alice,1,4,t\n2,alice,2,0,f\n3,bob,1,7,t\n4,bob,2,\\N,\\N\n5,alice,\\N,5,f\n";

/// Their lines, without the header.
pub const DEAL_LINES: &str =
    "1,alice,1,4,t\n2,alice,2,0,f\n3,bob,1,7,t\n4,bob,2,\\N,\\N\n5,alice,\\N,5,f\n";

/// The same deals, as `shown` writes them.
pub const DEAL_ROWS: &str =
    "1;'alice';1;4;t;/2;'alice';2;0;f;/3;'bob';1;7;t;/4;'bob';2;null;null;/5;'alice';null;5;f;/";

// A name of a column, its type, and true where it refuses nulls.
type Named = (&'static str, ColType, bool);

static COLUMNS: [Named; 5] = [
    ("id", ColType::Bigint, true),
    ("owner", ColType::Text, true),
    ("region", ColType::Bigint, false),
    ("parts", ColType::Bigint, false),
    ("open", ColType::Boolean, false),
];

fn names() -> &'static [Named] {
    &COLUMNS
}

fn column<A: Heap>(alloc: A, named: &Named) -> Result<Column<A>, AllocError> {
    let (name, data_type, not_null) = *named;
    let name = Text::new(alloc, name)?;
    Ok(Column {
        name,
        data_type,
        not_null,
    })
}

fn add_column<A: Heap>(
    columns: &mut Items<Column<A>, A>,
    alloc: A,
    named: &Named,
) -> Result<(), AllocError> {
    columns.push(column(alloc, named)?)
}

fn deal_columns<A: Heap>(alloc: A) -> Result<Items<Column<A>, A>, AllocError> {
    let mut columns = Items::new(alloc);
    for named in names() {
        add_column(&mut columns, alloc, named)?;
    }
    Ok(columns)
}

/// The table of a reader's text.
pub fn load<A: Heap, R: Read + Drop>(alloc: A, reader: R) -> Result<Table<A>, Failure<LoadError>> {
    Table::load(alloc, reader, deal_columns(alloc)?)
}

/// The table of a reader's text, which has to be one.
pub fn loaded<A: Heap, R: Read + Drop>(
    rt: &impl Abort,
    alloc: A,
    reader: R,
    name: &str,
    rows: &str,
) -> Table<A> {
    match load(alloc, reader) {
        Ok(table) => table,
        Err(error) => panic!(rt; "{name}: {rows}: {error:?}"),
    }
}

/// The load error of a reader's text that is no table, if it is none.
pub fn refusal<R: Read + Drop>(alloc: Global, reader: R) -> Option<Failure<LoadError>> {
    load(alloc, reader).err()
}

fn show_value<A: Heap>(text: &mut String, value: Val<'_, A>) -> Result<(), AllocError> {
    match value {
        Val::Null => text.push_str("null;"),
        Val::Int(n) => write!(text, "{n};"),
        Val::Text(found) => write!(text, "'{}';", found.as_str()),
        Val::Bool(true) => text.push_str("t;"),
        Val::Bool(false) => text.push_str("f;"),
    }
}

fn show_row<A: Heap>(text: &mut String, table: &Table<A>, row: u64) -> Result<(), AllocError>
    requires { row < length table.now.rows }
{
    for column in 0..table.columns().len() {
        show_value(text, table.cell(row, column as u64))?;
    }
    text.push('/')
}

// The rows of a table in one text.
fn shown<A: Heap>(alloc: Global, table: &Table<A>) -> Result<String, AllocError> {
    let mut text = String::new(alloc);
    for row in 0..table.rows() {
        show_row(&mut text, table, row)?;
    }
    Ok(text)
}

/// A table shows these rows.
pub fn shows<A: Heap>(rt: &(impl Abort + AllocGlobal), table: &Table<A>, want: &str, name: &str) {
    match shown(rt.alloc(), table) {
        Ok(text) => same(rt, &text.as_str(), &want, name, &"rows"),
        Err(_) => panic!(rt; "{name}: out of memory"),
    }
}
