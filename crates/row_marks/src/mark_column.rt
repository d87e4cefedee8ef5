//! Outcomes of one expression, by the numbers of rows.

ghost use Rattle.std.specs.Prelude.{◌≤◌, All, length};

use eval::Mark;
use memory::Heap;
use std::alloc::AllocError;

/// Outcomes of an expression on the rows of a table, those that were put.
#[derive(Drop)]
pub struct MarkColumn<A: Heap> {
    // Of each row up to the greatest of which one was put the number, from 1, of its mark; 0 where there is none.
    places: Vec<u32, A>,
    // The marks in the order in which they were put.
    made: Vec<Mark<A>, A>,
    ghost within: { All (λ p. p ≤ length made.items) places.items },
}

impl<A: Heap> MarkColumn<A> {
    ghost use Rattle.std.specs.Prelude.{◌≡◌, ◌≢◌, ◌<◌, ◌+◌, ℕ, None, OnOk, Some, length, option_map};
    ghost use Rattle.eval.specs.Marks.{outcome_of};
    ghost use Rattle.eval.specs.Meaning.{Outcome};
    ghost use Rattle.row_marks.specs.Marks.{AreMarks, mark_at};

    /// Of no row.
    pub fn new(alloc: A) -> MarkColumn<A>
        ensures { (number : ℕ) → mark_at result number ≡ None }
    {
        MarkColumn {
            places: Vec::new(alloc),
            made: Vec::new(alloc),
        }
    }

    /// The mark of the row of a number, if there is one.
    pub fn get(&self, number: u32) -> Option<&Mark<A>>
        ensures { option_map (λ m. outcome_of m.now) result ≡ mark_at self.now number }
    {
        match self.places.get(number as usize) {
            None => None,
            Some(0) => None,
            Some(place) => self.made.get(*place as usize - 1),
        }
    }

    // Adds a place for one more row, of which there is no mark.
    fn grow(&mut self) -> Result<(), AllocError>
        ensures same { (k : ℕ) → mark_at self.new k ≡ mark_at self.old k }
        ensures longer { OnOk result (length self.new.places.items ≡ length self.old.places.items + 1) }
    {
        self.places.push(0)?;
        Ok(())
    }

    // Adds places up to that of a row.
    fn reach(&mut self, number: usize) -> Result<(), AllocError>
        ensures same { (k : ℕ) → mark_at self.new k ≡ mark_at self.old k }
        ensures there { OnOk result (number < length self.new.places.items) }
    {
        while self.places.len() <= number {
            self.grow()?;
        }
        Ok(())
    }

    // Puts the mark of a row that has a place.
    fn put_in_place(&mut self, number: usize, mark: Mark<A>) -> Result<(), AllocError>
        requires { number < length self.old.places.items }
        ensures marks { (outcome : ℕ → Outcome) → AreMarks outcome self.old → outcome_of mark ≡ outcome number → AreMarks outcome self.new }
        ensures put { OnOk result (mark_at self.new number ≡ Some (outcome_of mark)) }
        ensures others { (k : ℕ) → k ≢ number → mark_at self.new k ≡ mark_at self.old k }
    {
        let place = self.made.len();
        if place >= u32::MAX as usize {
            return Err(AllocError);
        }
        self.made.push(mark)?;
        self.places[number] = place as u32 + 1;
        Ok(())
    }

    /// Puts the mark of a row; the others stay. It fails where memory runs out, and then no mark has changed.
    pub fn put(&mut self, number: u32, mark: Mark<A>) -> Result<(), AllocError>
        ensures marks { (outcome : ℕ → Outcome) → AreMarks outcome self.old → outcome_of mark ≡ outcome number → AreMarks outcome self.new }
        ensures put { OnOk result (mark_at self.new number ≡ Some (outcome_of mark)) }
        ensures others { (k : ℕ) → k ≢ number → mark_at self.new k ≡ mark_at self.old k }
    {
        self.reach(number as usize)?;
        self.put_in_place(number as usize, mark)
    }
}
