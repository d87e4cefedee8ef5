//! The answer of a query over a list of combinations, by marks.

ghost use Rattle.std.specs.Prelude.{List, IsPermutation, map};
ghost use Rattle.memory.specs.Gives.{Gives};
ghost use Rattle.tuples.specs.Combinations.{Combination};
ghost use Rattle.tuples.specs.View.{world_of};
ghost use Rattle.tuples.specs.World.{combination_at};
ghost use Rattle.row_marks.specs.Marks.{AreMarksOf};
ghost use Rattle.report.specs.Answer.{answer};

use crate::answering::Answering;
use answer_rows::AnswerRows;
use memory::{Failure, Heap};
use row_marks::{Marks, query_aggregates};
use tuples::{Combo, World};
use value::Fault;

/// The answer over combinations, in any order, on which every movable conjunct is true, by marks of the query that are only read: an
/// expression whose mark is not made is evaluated. The rows come in order, or the least fault of the first stage in which one faults.
pub fn finish_marked<A: Heap>(
    alloc: A,
    world: &World<'_, A>,
    combinations: &[Combo<A>],
    marks: &Marks<'_, A>,
) -> Result<AnswerRows<A>, Failure<Fault>>
    ensures { let w = world_of world.now in AreMarksOf w marks.now → (same : List Combination) → IsPermutation (map (combination_at w.tables) combinations.now) same →
        Gives (λ rows. rows.rows) result (answer w.role w.query same) }
{
    let mut answering = Answering::new(alloc, world)?;
    for combination in combinations {
        answering.take_marked(marks, combination)?;
    }
    answering.end()
}

/// The same without marks: each expression is evaluated on each combination.
pub fn finish<A: Heap>(
    alloc: A,
    world: &World<'_, A>,
    combinations: &[Combo<A>],
) -> Result<AnswerRows<A>, Failure<Fault>>
    ensures { let w = world_of world.now in (same : List Combination) → IsPermutation (map (combination_at w.tables) combinations.now) same →
        Gives (λ rows. rows.rows) result (answer w.role w.query same) }
{
    let calls = query_aggregates(alloc, world.query)?;
    let marks = Marks::new(alloc, world, calls.as_slice())?;
    finish_marked(alloc, world, combinations, &marks)
}
