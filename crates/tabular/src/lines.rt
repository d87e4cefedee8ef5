//! The lines of a table.

ghost use Rattle.std.specs.Prelude.{◌≡◌, ◌++◌, IfOk, OnOk, codes, drop, flat_map, replicate};
ghost use Rattle.tabular.specs.Tables as spec;
ghost use Rattle.tabular.specs.Tables.{centred, count_line, header_line, is_none_left, lines, mark, placed, room, row_line, rule_line, spaces};

use crate::cells::cell_width;
use crate::widths::{Column, cell_at, columns};
use memory::{Heap, Items, Text, push_number, push_str};
use std::alloc::AllocError;

#[tactic(auto, using(crate::proofs::Times::one_more))]
fn push_times<A: Heap>(out: &mut Vec<u8, A>, byte: u8, count: usize) -> Result<(), AllocError>
    ensures { OnOk result (out.new.items ≡ out.old.items ++ replicate count byte) }
{
    for _ in 0..count {
        out.push(byte)?;
    }
    Ok(())
}

fn push_spaces<A: Heap>(out: &mut Vec<u8, A>, count: usize) -> Result<(), AllocError>
    ensures { OnOk result (out.new.items ≡ out.old.items ++ spaces count) }
{
    push_times(out, b' ', count)
}

fn room(column: Column, cell: &str) -> usize
    ensures { result ≡ room column cell.now }
{
    column.width.saturating_sub(cell_width(cell))
}

fn push_centred<A: Heap>(out: &mut Vec<u8, A>, column: Column, cell: &str) -> Result<(), AllocError>
    ensures { OnOk result (out.new.items ≡ out.old.items ++ centred column cell.now) }
{
    let room = room(column, cell);
    push_spaces(out, room / 2)?;
    push_str(out, cell)?;
    push_spaces(out, room - room / 2)
}

fn push_placed<A: Heap>(
    out: &mut Vec<u8, A>,
    column: Column,
    is_last: bool,
    cell: &str,
) -> Result<(), AllocError>
    ensures { OnOk result (out.new.items ≡ out.old.items ++ placed column is_last cell.now) }
{
    if column.to_right {
        push_spaces(out, room(column, cell))?;
        return push_str(out, cell);
    }
    push_str(out, cell)?;
    if is_last {
        return Ok(());
    }
    push_spaces(out, room(column, cell))
}

// Adds a mark unless no column is left.
fn push_mark<A: Heap>(out: &mut Vec<u8, A>, bytes: &str, more: &[Column]) -> Result<(), AllocError>
    ensures { OnOk result (out.new.items ≡ out.old.items ++ mark bytes.now more.now) }
{
    if more.is_empty() {
        return Ok(());
    }
    push_str(out, bytes)
}

// Adds a heading with what is beside it.
fn push_heading<A: Heap>(
    out: &mut Vec<u8, A>,
    column: Column,
    cell: &str,
    more: &[Column],
) -> Result<(), AllocError>
    ensures { OnOk result (out.new.items ≡ out.old.items ++ codes " " ++ centred column cell.now ++ codes " " ++ mark (codes "|") more.now) }
{
    push_str(out, " ")?;
    push_centred(out, column, cell)?;
    push_str(out, " ")?;
    push_mark(out, "|", more)
}

fn push_header<A: Heap>(
    out: &mut Vec<u8, A>,
    columns: &[Column],
    headings: &[Text<A>],
) -> Result<(), AllocError>
    ensures { OnOk result (out.new.items ≡ out.old.items ++ header_line columns.now headings.now) }
{
    let mut columns = columns;
    let mut cells = headings;
    while let Some((column, more)) = columns.split_first() {
        push_heading(out, *column, cell_at(cells, 0), more)?;
        columns = more;
        cells = after_first(cells);
    }
    push_str(out, "\n")
}

// The cells after the first.
fn after_first<T>(cells: &[T]) -> &[T]
    ensures { result.now ≡ drop 1 cells.now }
{
    match cells.split_first() {
        Some((_, more)) => more,
        None => cells,
    }
}

fn push_rule<A: Heap>(out: &mut Vec<u8, A>, columns: &[Column]) -> Result<(), AllocError>
    ensures { OnOk result (out.new.items ≡ out.old.items ++ rule_line columns.now) }
{
    let mut columns = columns;
    while let Some((column, more)) = columns.split_first() {
        push_str(out, "-")?;
        push_times(out, b'-', column.width)?;
        push_str(out, "-")?;
        push_mark(out, "+", more)?;
        columns = more;
    }
    push_str(out, "\n")
}

// Adds a cell of a row with what is beside it.
fn push_cell<A: Heap>(
    out: &mut Vec<u8, A>,
    column: Column,
    cell: &str,
    more: &[Column],
) -> Result<(), AllocError>
    ensures { OnOk result (out.new.items ≡ out.old.items ++ codes " " ++ placed column (is_none_left more.now) cell.now ++ mark (codes " |") more.now) }
{
    push_str(out, " ")?;
    push_placed(out, column, more.is_empty(), cell)?;
    push_mark(out, " |", more)
}

fn push_row<A: Heap>(
    out: &mut Vec<u8, A>,
    columns: &[Column],
    cells: &[Text<A>],
) -> Result<(), AllocError>
    ensures { OnOk result (out.new.items ≡ out.old.items ++ row_line columns.now cells.now) }
{
    let mut columns = columns;
    let mut cells = cells;
    while let Some((column, more)) = columns.split_first() {
        push_cell(out, *column, cell_at(cells, 0), more)?;
        columns = more;
        cells = after_first(cells);
    }
    push_str(out, "\n")
}

fn push_rows<A: Heap>(
    out: &mut Vec<u8, A>,
    columns: &[Column],
    rows: &[Items<Text<A>, A>],
) -> Result<(), AllocError>
    ensures { OnOk result (out.new.items ≡ out.old.items ++ flat_map (row_line columns.now) rows.now) }
{
    for row in rows {
        push_row(out, columns, row.as_slice())?;
    }
    Ok(())
}

fn push_count<A: Heap>(out: &mut Vec<u8, A>, count: u64) -> Result<(), AllocError>
    ensures { OnOk result (out.new.items ≡ out.old.items ++ count_line count) }
{
    if count == 1 {
        return push_str(out, "(1 row)\n");
    }
    push_str(out, "(")?;
    push_number(out, count)?;
    push_str(out, " rows)\n")
}

fn push_lines<A: Heap>(
    out: &mut Vec<u8, A>,
    columns: &[Column],
    headings: &[Text<A>],
    rows: &[Items<Text<A>, A>],
) -> Result<(), AllocError>
    ensures { OnOk result (out.new.items ≡ out.old.items ++ lines columns.now headings.now rows.now) }
{
    push_header(out, columns, headings)?;
    push_rule(out, columns)?;
    push_rows(out, columns, rows)?;
    push_count(out, rows.len() as u64)?;
    push_str(out, "\n")
}

/// The text of a table: the headings, a line, the rows, their number and an empty line. A cell stands on the right where
/// `to_right` has true at the index of its column, and on the left else; a cell that a row lacks is empty.
pub fn table_text<A: Heap>(
    alloc: A,
    headings: &[Text<A>],
    to_right: &[bool],
    rows: &[Items<Text<A>, A>],
) -> Result<Vec<u8, A>, AllocError>
    ensures { IfOk result (λ text. text.items ≡ spec.table_text headings.now to_right.now rows.now) }
{
    let columns = columns(alloc, headings, to_right, rows)?;
    let mut out = Vec::new(alloc);
    push_lines(&mut out, &columns, headings, rows)?;
    Ok(out)
}
