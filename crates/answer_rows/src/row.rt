//! One row of an answer.

ghost use Rattle.std.specs.Prelude.{◌≡◌, ◌∷◌, [], None, IfSome, length};
ghost use Rattle.value.specs.Datum.{cell, datum_of};
ghost use Rattle.answer_rows.specs.View.{row_in, values_in};
ghost use Rattle.answer_rows.specs.View as view;

use crate::cells::{Cell, Place};
use columns::Texts;
use memory::Heap;
use std::borrow::CowStr;
use std::marker::Model;
use value::Val;

/// A row of an answer, whose values are lent. A contract sees the values.
#[derive(Drop)]
pub struct AnswerRow<'r, A: Heap> {
    cells: &'r [Cell],
    texts: &'r Texts<A>,
}

impl<'r, A: Heap> Model for AnswerRow<'r, A> {
    ghost use Rattle.value.specs.Datum.{Row};

    ghost Value = { Row };

    ghost use Rattle.answer_rows.specs.View.{values_of};

    ghost view = { values_of };
}

// The text of a number.
fn text_at<A: Heap>(texts: &Texts<A>, i: usize) -> Val<'_, A>
    ensures { datum_of result ≡ cell texts.now i }
{
    if i >= texts.len() {
        return Val::Null;
    }
    match texts.get(i) {
        Some(text) => Val::Text(CowStr::Borrowed(text)),
        None => Val::Null,
    }
}

// The value of a cell, with its text lent.
fn value_in<A: Heap>(texts: &Texts<A>, cell: Cell) -> Val<'_, A>
    ensures { datum_of result ≡ view.value_in texts.now cell }
{
    match cell {
        Cell::Null => Val::Null,
        Cell::Int(n) => Val::Int(n),
        Cell::Text(i) => text_at(texts, i),
        Cell::Bool(b) => Val::Bool(b),
    }
}

/// The row of all cells.
pub(crate) fn row_of<'r, A: Heap>(cells: &'r [Cell], texts: &'r Texts<A>) -> AnswerRow<'r, A>
    ensures { result ≡ values_in texts.now cells.now }
{
    AnswerRow { cells, texts }
}

/// The row at a place.
pub(crate) fn row_at<'r, A: Heap>(
    cells: &'r [Cell],
    texts: &'r Texts<A>,
    place: Place,
) -> AnswerRow<'r, A>
    ensures { result ≡ row_in texts.now cells.now place }
{
    let start = cells.len().min(place.start as usize);
    let rest = &cells[start..];
    let len = rest.len().min(place.len as usize);
    AnswerRow {
        cells: &rest[..len],
        texts,
    }
}

impl<'r, A: Heap> AnswerRow<'r, A> {
    /// The number of values.
    pub fn len(&self) -> usize
        ensures { result ≡ length self.now }
    {
        self.cells.len()
    }

    /// The value at an index, counted from 0; null where there are not so many.
    pub fn get(&self, i: usize) -> Val<'r, A>
        ensures { datum_of result ≡ cell self.now i }
    {
        match self.cells.get(i) {
            Some(cell) => value_in(self.texts, *cell),
            None => Val::Null,
        }
    }

    /// The first value and the others; none of a row without values.
    pub fn split_first(&self) -> Option<(Val<'r, A>, AnswerRow<'r, A>)>
        ensures none { result ≡ None → self.now ≡ [] }
        ensures some { IfSome result (λ parts. self.now ≡ datum_of parts.0 ∷ parts.1) }
    {
        let (first, cells) = self.cells.split_first()?;
        let others = AnswerRow {
            cells,
            texts: self.texts,
        };
        Some((value_in(self.texts, *first), others))
    }
}
