//! The rows of a reply as a table.

ghost use Rattle.std.specs.Prelude.{◌≡◌, IfOk, false, map};
ghost use Rattle.std.specs.List.{list_any};
ghost use Rattle.value.specs.Datum.{cell, datum_of, int};
ghost use Rattle.replies.specs.View.{reply_of};
ghost use Rattle.tabular.specs.Cells as cells;
ghost use Rattle.tabular.specs.ReplyTables as spec;
ghost use Rattle.tabular.specs.ReplyTables.{cell_of, cells_of, has_number, is_number, sides_from};
ghost use Rattle.tabular.specs.Tables.{table_text};

use crate::cells::shown;
use crate::lines::table_text;
use answer_rows::{AnswerRow, AnswerRows};
use itoa::Buffer;
use memory::{Heap, Items, Text};
use replies::{Reply, reply_text};
use std::alloc::AllocError;
use value::Val;

fn number_cell<A: Heap>(alloc: A, n: i64) -> Result<Text<A>, AllocError>
    ensures { IfOk result (λ made. made ≡ cell_of (int n)) }
{
    let mut buffer = Buffer::new();
    Text::new(alloc, buffer.format(n))
}

fn value_cell<A: Heap>(alloc: A, value: &Val<'_, A>) -> Result<Text<A>, AllocError>
    ensures { IfOk result (λ made. made ≡ cell_of (datum_of value.now)) }
{
    match value {
        Val::Null => Text::new(alloc, "\\N"),
        Val::Int(n) => number_cell(alloc, *n),
        Val::Text(text) => shown(alloc, text.as_str()),
        Val::Bool(true) => Text::new(alloc, "t"),
        Val::Bool(false) => Text::new(alloc, "f"),
    }
}

fn row_cells<A: Heap>(alloc: A, row: &AnswerRow<'_, A>) -> Result<Items<Text<A>, A>, AllocError>
    ensures { IfOk result (λ cells. cells ≡ cells_of row.now) }
{
    let mut cells = Items::new(alloc);
    for i in 0..row.len() {
        cells.push(value_cell(alloc, &row.get(i))?)?;
    }
    Ok(cells)
}

fn all_cells<A: Heap>(
    alloc: A,
    rows: &AnswerRows<A>,
) -> Result<Items<Items<Text<A>, A>, A>, AllocError>
    ensures { IfOk result (λ cells. cells ≡ map cells_of rows.now.rows) }
{
    let mut cells = Items::new(alloc);
    for number in 0..rows.len() {
        cells.push(row_cells(alloc, &rows.row(number))?)?;
    }
    Ok(cells)
}

fn heading_cells<A: Heap>(alloc: A, headings: &[Text<A>]) -> Result<Items<Text<A>, A>, AllocError>
    ensures { IfOk result (λ made. made ≡ map cells.shown headings.now) }
{
    let mut made = Items::new(alloc);
    for heading in headings {
        made.push(shown(alloc, heading.as_str())?)?;
    }
    Ok(made)
}

fn is_number<A: Heap>(row: &AnswerRow<'_, A>, j: usize) -> bool
    ensures { result ≡ is_number (cell row.now j) }
{
    match row.get(j) {
        Val::Int(_) => true,
        _ => false,
    }
}

fn has_number<A: Heap>(rows: &AnswerRows<A>, j: usize) -> bool
    ensures { result ≡ has_number j rows.now.rows }
{
    for number in 0..rows.len() {
        if is_number(&rows.row(number), j) {
            return true;
        }
    }
    false
}

fn sides<A: Heap>(
    alloc: A,
    headings: &[Text<A>],
    rows: &AnswerRows<A>,
) -> Result<Vec<bool, A>, AllocError>
    ensures { IfOk result (λ sides. sides.items ≡ sides_from 0 headings.now rows.now.rows) }
{
    let mut sides = Vec::new(alloc);
    for j in 0..headings.len() {
        sides.push(has_number(rows, j))?;
    }
    Ok(sides)
}

fn rows_table<A: Heap>(
    alloc: A,
    headings: &[Text<A>],
    rows: &AnswerRows<A>,
) -> Result<Vec<u8, A>, AllocError>
    ensures { IfOk result (λ text. text.items ≡ table_text (map cells.shown headings.now) (sides_from 0 headings.now rows.now.rows) (map cells_of rows.now.rows)) }
{
    let sides = sides(alloc, headings, rows)?;
    let cells = all_cells(alloc, rows)?;
    let headings = heading_cells(alloc, headings)?;
    table_text(alloc, headings.as_slice(), &sides, cells.as_slice())
}

/// The text of a reply: rows as a table, in which a column with a number stands on the right; any other reply as
/// `replies::reply_text` has it.
pub fn reply_table<A: Heap>(alloc: A, reply: &Reply<A>) -> Result<Vec<u8, A>, AllocError>
    ensures { IfOk result (λ text. text.items ≡ spec.reply_table (reply_of reply.now)) }
{
    match reply {
        Reply::Rows { headings, rows } => rows_table(alloc, headings.as_slice(), rows),
        _ => reply_text(alloc, reply),
    }
}
