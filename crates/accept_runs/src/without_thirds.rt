//! A sink that does not want each third row of an entry, and notes of which entries each row comes once.

use memory::Items;
use std::alloc::{AllocError, Global};
use tuples::{Combo, Sink, Slot};

/// The combinations that it took. Of each entry it does not want the third row, the sixth, and so on.
#[derive(Drop)]
pub struct WithoutThirds {
    taken: Items<Combo<Global>, Global>,
    // A bit for each entry of which no fewer rows were read than combinations come.
    once: u8,
}

// The bit of an entry; those from the eighth on share the last one.
fn bit_of(entry: usize) -> u8 {
    1 << entry.min(7)
}

impl WithoutThirds {
    ghost use Rattle.std.specs.Prelude.{◌≡◌, []};

    /// One that has taken nothing.
    pub fn new(alloc: Global) -> WithoutThirds
        ensures { result.taken ≡ [] }
    {
        WithoutThirds {
            taken: Items::new(alloc),
            once: 0,
        }
    }

    /// The combinations that it took.
    pub fn taken(&self) -> &[Combo<Global>] {
        self.taken.as_slice()
    }

    /// True where no more combinations come than rows of an entry were read, as the run said.
    pub fn reads_once(&self, entry: usize) -> bool {
        self.once & bit_of(entry) != 0
    }
}

impl Sink<Combo<Global>> for WithoutThirds {
    ghost use Rattle.std.specs.Prelude.{◌≡◌, ◌==◌, ◌%◌, not};

    ghost took = { λ s _ these. s.taken ≡ these };

    ghost wants = { λ _ _ number. not (number % 3 == 2) };

    fn chooses(&self, _entry: usize) -> bool {
        true
    }

    fn wants(&mut self, _entry: usize, number: u32) -> Result<bool, AllocError> {
        Ok(number % 3 != 2)
    }

    fn reads_once(&mut self, entry: usize) {
        self.once |= bit_of(entry);
    }

    fn take(&mut self, combination: Combo<Global>) -> Result<(), AllocError> {
        self.taken.push(combination)
    }
}

// True for a third row of a table.
fn is_third(slot: Slot) -> bool {
    matches!(slot, Slot::Row(number) if number % 3 == 2)
}

/// True where it wants a combination of so many entries.
pub fn has_no_third(combination: &Combo<Global>, entries: usize) -> bool {
    for entry in 0..entries {
        if is_third(combination.row(entry)) {
            return false;
        }
    }
    true
}
