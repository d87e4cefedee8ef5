//! The arguments of aggregates on a combination, by their marks.

ghost use Rattle.memory.specs.Gives.{Gives};
ghost use Rattle.value.specs.Datum.{datum_of};
ghost use Rattle.groups.specs.Progress.{HasMemory};
ghost use Rattle.row_marks.specs.Marks.{IsThere, argument_in};

use crate::marked::MarkedArgument;
use eval::Row;
use groups::Arguments;
use memory::{Failure, Heap};
use tuples::Combo;
use value::{Fault, Val};

/// The arguments of aggregates on a combination: their marks, where these are made.
#[derive(Drop)]
pub struct MarkedArguments<'r, A: Heap, R> {
    /// The arguments.
    pub arguments: &'r [MarkedArgument<'r, A>],
    /// The combination.
    pub combination: &'r Combo<A>,
    /// Its rows.
    pub row: &'r R,
    /// The role.
    pub role: &'r str,
}

// The value of an argument; count(*) has none, and counts every combination.
fn argument_on<'r, A: Heap, R: Row<A>>(
    alloc: A,
    argument: &'r MarkedArgument<'r, A>,
    combination: &Combo<A>,
    row: &'r R,
    role: &'r str,
) -> Result<Val<'r, A>, Failure<Fault>>
    ensures value { Gives datum_of result (argument_in (R.cells row.now) role.now combination.now argument.now) }
    ensures in_place { IsThere combination.now argument.now → HasMemory result }
{
    match &argument.marked {
        None => Ok(Val::Bool(true)),
        Some(marked) => marked.outcome(alloc, combination, row, role),
    }
}

impl<'r, A: Heap, R: Row<A>> Arguments<A> for MarkedArguments<'r, A, R> {
    ghost use Rattle.std.specs.Prelude.{All, map};
    ghost use Rattle.row_marks.specs.Marks.{IsThere, argument_in};

    ghost outcomes = { λ s. map (λ m. argument_in (R.cells s.row.now) s.role.now s.combination.now m) s.arguments.now };

    ghost are_there = { λ s. All (IsThere s.combination.now) s.arguments.now };

    fn count(&self) -> usize {
        self.arguments.len()
    }

    fn argument(&self, alloc: A, index: usize) -> Result<Val<'_, A>, Failure<Fault>> {
        argument_on(
            alloc,
            &self.arguments[index],
            self.combination,
            self.row,
            self.role,
        )
    }
}
