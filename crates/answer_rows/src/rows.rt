//! The rows of an answer.

ghost use Rattle.std.specs.Prelude.{◌≡◌, ◌<◌, ◌≤◌, ◌++◌, ◌∷◌, [], List, IfOk, IsSorted, OnOk, OnErr, length, take, drop};
ghost use Rattle.std.specs.List.{insert};
ghost use Rattle.bags.specs.Sorting.{insert_sorted, sorted_by};
ghost use Rattle.value.specs.Datum.{Row, datum_of, row_at as row_of_number, text as text_datum};
ghost use Rattle.answer_rows.specs.Growing.{finished, only, with_value};
ghost use Rattle.answer_rows.specs.Ordered.{is_before_last, output_cmp};
ghost use Rattle.answer_rows.specs.View.{IsPutIn};

use crate::cells::{Cell, Place};
use crate::comparing::cmp_outputs;
use crate::row::{AnswerRow, row_at, row_of};
use crate::sorting::sort_places;
use columns::Texts;
use expr::OutputKey;
use memory::Heap;
use std::alloc::AllocError;
use std::marker::Model;
use value::Val;

// Of the first rows in order, cells of so many rows are held before those of rows that are no longer among them are given back.
const MANY: usize = 128;

/// The rows of an answer, and a row that is not finished: their values stand one after the other, and so do the bytes of their texts.
/// A contract sees the rows, and the values of the unfinished row.
#[derive(Drop)]
pub struct AnswerRows<A: Heap> {
    cells: Vec<Cell, A>,
    texts: Texts<A>,
    places: Vec<Place, A>,
    unfinished: Vec<Cell, A>,
    // The number of texts before those of the unfinished row.
    finished_texts: usize,
}

impl<A: Heap> Model for AnswerRows<A> {
    ghost use Rattle.answer_rows.specs.Growing.{Growing};

    ghost Value = { Growing };

    ghost use Rattle.answer_rows.specs.View.{growing_of, AreRows};

    ghost view = { growing_of };

    ghost invariant = { AreRows };
}

// A number of values or texts, which stays below 2^32.
fn number(n: usize) -> Result<u32, AllocError>
    ensures { IfOk result (λ m. m ≡ n) }
{
    match u32::try_from(n) {
        Ok(n) => Ok(n),
        Err(_) => Err(AllocError),
    }
}

// A text put after the others.
fn put_text<A: Heap>(texts: &mut Texts<A>, text: &str) -> Result<Cell, AllocError>
    ensures ok { IfOk result (λ c. IsPutIn texts.old texts.new c (text_datum text.now)) }
    ensures err { OnErr result (texts.new ≡ texts.old) }
{
    let i = number(texts.len())?;
    texts.push(text)?;
    Ok(Cell::Text(i as usize))
}

// A value as a cell, its text put after the others.
fn put_value<A: Heap>(texts: &mut Texts<A>, value: &Val<'_, A>) -> Result<Cell, AllocError>
    ensures ok { IfOk result (λ c. IsPutIn texts.old texts.new c (datum_of value.now)) }
    ensures err { OnErr result (texts.new ≡ texts.old) }
{
    match value {
        Val::Null => Ok(Cell::Null),
        Val::Int(n) => Ok(Cell::Int(*n)),
        Val::Text(text) => put_text(texts, text.as_str()),
        Val::Bool(b) => Ok(Cell::Bool(*b)),
    }
}

// Cells put after the others; they stand at the place.
fn put_cells<A: Heap>(cells: &mut Vec<Cell, A>, more: &[Cell]) -> Result<Place, AllocError>
    ensures place { IfOk result (λ p. (p.start ≡ length cells.old.items) × (p.len ≡ length more.now)) }
    ensures ok { OnOk result (cells.new.items ≡ cells.old.items ++ more.now) }
    ensures err { OnErr result (cells.new.items ≡ cells.old.items) }
{
    let place = Place {
        start: number(cells.len())?,
        len: number(more.len())?,
    };
    cells.extend_from_slice(more)?;
    Ok(place)
}

impl<A: Heap> AnswerRows<A> {
    /// No rows. It asks for no memory.
    pub fn new(alloc: A) -> AnswerRows<A>
        ensures { result ≡ only [] }
    {
        AnswerRows {
            cells: Vec::new(alloc),
            texts: Texts::new(alloc),
            places: Vec::new(alloc),
            unfinished: Vec::new(alloc),
            finished_texts: 0,
        }
    }

    /// The number of rows.
    pub fn len(&self) -> usize
        ensures { result ≡ length self.now.rows }
    {
        self.places.len()
    }

    /// The row of a number, counted from 0.
    pub fn row(&self, number: usize) -> AnswerRow<'_, A>
        requires { number < length self.now.rows }
        ensures { result ≡ row_of_number self.now.rows number }
    {
        row_at(&self.cells, &self.texts, self.places[number])
    }

    // The values of the unfinished row.
    fn unfinished_row(&self) -> AnswerRow<'_, A>
        ensures { result ≡ self.now.unfinished }
    {
        row_of(&self.unfinished, &self.texts)
    }

    /// One more value of the unfinished row. Where memory is refused, or there are 2^32 texts, all stays as it was.
    pub fn push(&mut self, value: &Val<'_, A>) -> Result<(), AllocError>
        ensures ok { OnOk result (self.new ≡ with_value self.old (datum_of value.now)) }
        ensures err { OnErr result (self.new ≡ self.old) }
    {
        let cell = put_value(&mut self.texts, value)?;
        self.unfinished.push(cell)?;
        Ok(())
    }

    // Puts the unfinished row before the row of a number.
    fn insert_row(&mut self, number: usize) -> Result<(), AllocError>
        requires { number ≤ length self.old.rows }
        ensures ok { OnOk result (self.new ≡ only (insert self.old.rows number self.old.unfinished)) }
        ensures err { OnErr result (self.new ≡ self.old) }
    {
        let place = put_cells(&mut self.cells, &self.unfinished)?;
        if let Err(error) = self.places.insert(number, place) {
            self.cells.truncate(place.start as usize);
            return Err(AllocError::from(error));
        }
        self.unfinished.clear();
        self.finished_texts = self.texts.len();
        Ok(())
    }

    /// The unfinished row is the last row. Where memory is refused, or there are 2^32 values, all stays as it was.
    pub fn finish_row(&mut self) -> Result<(), AllocError>
        ensures ok { OnOk result (self.new ≡ finished self.old) }
        ensures err { OnErr result (self.new ≡ self.old) }
    {
        let number = self.len();
        self.insert_row(number)
    }

    /// Forgets the values of the unfinished row.
    pub fn forget_row(&mut self)
        ensures { self.new ≡ only self.old.rows }
    {
        self.unfinished.clear();
        self.texts.truncate(self.finished_texts);
    }

    /// One more row, the values of which are copied.
    pub fn push_row(&mut self, row: &AnswerRow<'_, A>) -> Result<(), AllocError>
        requires { self.old.unfinished ≡ [] }
        ensures { OnOk result (self.new ≡ only (self.old.rows ++ row.now ∷ [])) }
    {
        for i in 0..row.len() {
            self.push(&row.get(i))?;
        }
        self.finish_row()
    }

    /// The rows from that of a number on, at most so many, in memory of their own.
    pub fn copy(&self, alloc: A, start: usize, count: usize) -> Result<AnswerRows<A>, AllocError>
        ensures { IfOk result (λ copy. copy ≡ only (take count (drop start self.now.rows))) }
    {
        let len = count.min(self.len().saturating_sub(start));
        let mut copy = AnswerRows::new(alloc);
        for i in 0..len {
            copy.push_row(&self.row(start + i))?;
        }
        Ok(copy)
    }

    /// The first rows alone, at most so many.
    pub fn truncate(&mut self, len: usize)
        ensures rows { self.new.rows ≡ take len self.old.rows }
        ensures unfinished { self.new.unfinished ≡ self.old.unfinished }
    {
        self.places.truncate(len);
    }

    /// The rows in order of the keys, and then of all columns from left to right.
    pub fn sort(&mut self, keys: &[OutputKey])
        ensures rows { self.new.rows ≡ sorted_by (output_cmp keys.now) self.old.rows }
        ensures unfinished { self.new.unfinished ≡ self.old.unfinished }
    {
        sort_places(keys, &self.cells, &self.texts, &mut self.places);
    }

    // True where the unfinished row comes before the last row.
    fn comes_before_last(&self, keys: &[OutputKey]) -> bool
        ensures { result ≡ is_before_last keys.now self.now.unfinished self.now.rows }
    {
        match self.places.last() {
            Some(last) => {
                let last = row_at(&self.cells, &self.texts, *last);
                cmp_outputs(keys, &self.unfinished_row(), &last).is_lt()
            }
            None => false,
        }
    }

    // The number that the unfinished row has where it comes into rows that are in order.
    fn number_in_order(&self, keys: &[OutputKey]) -> usize
        ensures within { result ≤ length self.now.rows }
        ensures number { IsSorted (output_cmp keys.now) self.now.rows →
            insert self.now.rows result self.now.unfinished ≡ insert_sorted (output_cmp keys.now) self.now.unfinished self.now.rows }
    {
        let row = self.unfinished_row();
        let cells = self.cells.as_slice();
        let texts = &self.texts;
        self.places.partition_point(|place| cmp_outputs(
            keys,
            &row_at(cells, texts, *place),
            &row,
        ).is_lt())
    }

    // Gives back the cells of rows that are no longer there, where they are many.
    fn give_back(&mut self) -> Result<(), AllocError>
        requires { self.old.unfinished ≡ [] }
        ensures { OnOk result (self.new ≡ self.old) }
    {
        let Some(first) = self.places.first() else {
            return Ok(());
        };
        if self.cells.len() / MANY > first.len as usize {
            let copy = self.copy(*self.cells.allocator(), 0, self.places.len())?;
            *self = copy;
        }
        Ok(())
    }

    /// Finishes the row and keeps, of all rows so far, the first `n` in order, which are in order.
    pub fn finish_among_first(&mut self, keys: &[OutputKey], n: usize) -> Result<(), AllocError>
        ensures { (all : List Row) → self.old.rows ≡ take n (sorted_by (output_cmp keys.now) all) →
            OnOk result (self.new ≡ only (take n (sorted_by (output_cmp keys.now) (all ++ self.old.unfinished ∷ [])))) }
    {
        if self.places.len() >= n && !self.comes_before_last(keys) {
            self.forget_row();
            return Ok(());
        }
        let number = self.number_in_order(keys);
        self.insert_row(number)?;
        self.truncate(n);
        self.give_back()
    }
}
