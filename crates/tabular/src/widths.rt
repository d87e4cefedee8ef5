//! The columns of a table.

ghost use Rattle.std.specs.Prelude.{◌≡◌, IfOk, false, get_or, max};
ghost use Rattle.tabular.specs.Cells as cells;
ghost use Rattle.tabular.specs.Tables as spec;
ghost use Rattle.tabular.specs.Tables.{cell_at, column_width};

use crate::cells::cell_width;
use memory::{Heap, Items, Text};
use std::alloc::AllocError;

/// A column of a table.
#[derive(Clone, Copy, Debug, PartialEq, Eq)]
pub struct Column {
    /// The width of its widest cell, in columns of a terminal.
    pub width: usize,
    /// True where its cells stand on the right.
    pub to_right: bool,
}

/// The cell at an index of a line, or an empty one.
pub(crate) fn cell_at<A: Heap>(line: &[Text<A>], j: usize) -> &str
    ensures { result.now ≡ cell_at j line.now }
{
    match line.get(j) {
        Some(cell) => cell.as_str(),
        None => "",
    }
}

// The greatest width of the cells of a column.
fn column_width<A: Heap>(rows: &[Items<Text<A>, A>], j: usize) -> usize
    ensures { result ≡ column_width j rows.now }
{
    let mut width = 0;
    for row in rows {
        width = cell_width(cell_at(row.as_slice(), j)).max(width);
    }
    width
}

fn goes_right(to_right: &[bool], j: usize) -> bool
    ensures { result ≡ get_or to_right.now j false }
{
    match to_right.get(j) {
        Some(side) => *side,
        None => false,
    }
}

fn column_at<A: Heap>(
    heading: &str,
    to_right: &[bool],
    rows: &[Items<Text<A>, A>],
    j: usize,
) -> Column
    ensures width { result.width ≡ max (cells.cell_width heading.now) (column_width j rows.now) }
    ensures side { result.to_right ≡ get_or to_right.now j false }
{
    Column {
        width: cell_width(heading).max(column_width(rows, j)),
        to_right: goes_right(to_right, j),
    }
}

/// The columns of a table, each as wide as its heading or its widest cell.
pub(crate) fn columns<A: Heap>(
    alloc: A,
    headings: &[Text<A>],
    to_right: &[bool],
    rows: &[Items<Text<A>, A>],
) -> Result<Vec<Column, A>, AllocError>
    ensures { IfOk result (λ found. found.items ≡ spec.columns headings.now to_right.now rows.now) }
{
    let mut found = Vec::new(alloc);
    for heading in headings {
        let column = column_at(heading.as_str(), to_right, rows, found.len());
        found.push(column)?;
    }
    Ok(found)
}
