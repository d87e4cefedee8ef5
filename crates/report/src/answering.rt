//! The answer of a query over combinations that come one after the other.

ghost use Rattle.std.specs.Prelude.{[], ◌∷◌, ◌++◌, List, IfOk, IsPermutation, OnOk, map};
ghost use Rattle.memory.specs.Gives.{Gives};
ghost use Rattle.tuples.specs.Combinations.{Combination};
ghost use Rattle.tuples.specs.View.{world_of};
ghost use Rattle.tuples.specs.World as spec;
ghost use Rattle.row_marks.specs.Marks.{AreMarksOf};
ghost use Rattle.report.specs.Answer.{answer};
ghost use Rattle.report.specs.Answering.{Took};

use crate::conditions::{keeps_by_marks, keeps_combination};
use crate::gathered::Gathered;
use answer_rows::AnswerRows;
use expr::AggregateCall;
use groups::Stage;
use memory::{Failure, Heap, Items};
use row_marks::{Marks, query_aggregates};
use std::alloc::AllocError;
use tuples::{Combo, Sink, World};
use value::Fault;

/// The answer of a query over combinations that come one after the other. It holds no combination: of those that stage WHERE
/// keeps it holds the groups, or the rows of the items, of which, where the limit is small, the first in order alone.
#[derive(Drop)]
pub struct Answering<'w, A: Heap> {
    alloc: A,
    world: &'w World<'w, A>,
    // The aggregates of the query.
    calls: Items<AggregateCall<'w, A>, A>,
    // Its expressions, with the marks that are made.
    marks: Marks<'w, A>,
    // The least fault of stage WHERE; no value is given on.
    filter: Stage<(), A>,
    gathered: Gathered<A>,
}

impl<'w, A: Heap> Answering<'w, A> {
    /// Before the first combination. It fails where memory runs out.
    pub fn new(alloc: A, world: &'w World<'w, A>) -> Result<Answering<'w, A>, AllocError>
        ensures { IfOk result (λ s. Took (world_of world.now) s []) }
    {
        let calls = query_aggregates(alloc, world.query)?;
        let marks = Marks::new(alloc, &*world, calls.as_slice())?;
        let gathered = Gathered::new(alloc, &*world, calls.as_slice())?;
        Ok(Answering {
            alloc,
            world,
            calls,
            marks,
            filter: Stage::new(alloc),
            gathered,
        })
    }

    /// Takes one more, by marks that are handed in: where one is not made, the expression is evaluated. It fails where memory runs out.
    pub(crate) fn take_marked(
        &mut self,
        marks: &Marks<'_, A>,
        combination: &Combo<A>,
    ) -> Result<(), AllocError>
        ensures { (w : spec.World) (these : List Combination) → AreMarksOf w marks.now → Took w self.old these →
            OnOk result (Took w self.new (these ++ spec.combination_at w.tables combination.now ∷ [])) }
    {
        let conditions = marks.conditions.as_slice();
        match keeps_by_marks(self.alloc, self.world, conditions, combination) {
            Ok(true) => {
                let calls = self.calls.as_slice();
                self.gathered
                    .put(self.alloc, self.world, calls, marks, combination)
            }
            Ok(false) => Ok(()),
            Err(failed) => self.filter.add(Err(failed)),
        }
    }

    /// The answer over the combinations that were taken, in any order, on which every movable conjunct is true: its rows in order,
    /// or the least fault of the first stage in which one faults.
    pub fn end(self) -> Result<AnswerRows<A>, Failure<Fault>>
        ensures { (w : spec.World) (these same : List Combination) → Took w self.entry these → IsPermutation these same →
            Gives (λ rows. rows.rows) result (answer w.role w.query same) }
    {
        match self.filter.least {
            None => self.gathered.end(self.alloc, self.world),
            Some(fault) => Err(Failure::Error(fault)),
        }
    }
}

impl<'w, A: Heap> Sink<Combo<A>> for Answering<'w, A> {
    ghost use Rattle.std.specs.Prelude.{map};
    ghost use Rattle.tuples.specs.World.{combination_at};
    ghost use Rattle.report.specs.Answering.{Took};
    ghost use Rattle.row_marks.specs.Marked.{keeps_row};

    ghost took = { λ s w these. Took w s (map (combination_at w.tables) these) };

    ghost wants = { λ w entry number. keeps_row w entry number };

    fn chooses(&self, entry: usize) -> bool {
        self.marks.chooses(entry)
    }

    fn wants(&mut self, entry: usize, number: u32) -> Result<bool, AllocError> {
        self.marks.keeps_row(self.alloc, self.world, entry, number)
    }

    fn reads_once(&mut self, entry: usize) {
        self.marks.forgo(entry);
    }

    fn take(&mut self, combination: Combo<A>) -> Result<(), AllocError> {
        match keeps_combination(
            self.alloc,
            self.world,
            &mut self.marks.conditions,
            &combination,
        ) {
            Ok(true) => {
                self.gathered.add(
                    self.alloc,
                    self.world,
                    self.calls.as_slice(),
                    &mut self.marks,
                    &combination,
                )
            }
            Ok(false) => Ok(()),
            Err(failure) => self.filter.add(Err(failure)),
        }
    }
}
