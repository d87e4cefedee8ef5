//! What is held of the combinations that stage WHERE keeps.

ghost use Rattle.std.specs.Prelude.{◌≡◌, ◌++◌, [], ◌∷◌, List, IfOk, OnOk, map};
ghost use Rattle.memory.specs.Gives.{Gives};
ghost use Rattle.expr.specs.View.{aggregate_calls_of};
ghost use Rattle.tuples.specs.Combinations.{Combination};
ghost use Rattle.tuples.specs.View.{world_of};
ghost use Rattle.tuples.specs.World.{combination_at};
ghost use Rattle.row_marks.specs.Marks.{AreMarksOf};
ghost use Rattle.report.specs.Answer.{rows_of_kept};
ghost use Rattle.report.specs.Answering.{Gathers};
ghost use Rattle.report.specs.QueryStages.{query_aggregates};

use crate::grouped::{put_combination, rows_of_groups};
use crate::taken_rows::TakenRows;
use crate::ungrouped::put_items;
use answer_rows::AnswerRows;
use expr::AggregateCall;
use groups::Groups;
use memory::{Failure, Heap};
use row_marks::Marks;
use std::alloc::AllocError;
use tuples::{Combo, World};
use value::Fault;

/// What is held of the combinations that stage WHERE keeps.
#[derive(Drop)]
pub enum Gathered<A: Heap> {
    /// Their groups.
    Groups(Groups<A>),
    /// The rows of the items.
    Rows(TakenRows<A>),
}

impl<A: Heap> Gathered<A> {
    /// Of no combinations.
    pub fn new(
        alloc: A,
        world: &World<'_, A>,
        calls: &[AggregateCall<'_, A>],
    ) -> Result<Gathered<A>, AllocError>
        requires calls { aggregate_calls_of calls.now ≡ query_aggregates (world_of world.now).query }
        ensures { IfOk result (λ g. Gathers (world_of world.now) g []) }
    {
        if world.query.is_grouped {
            let columns = world.query.group_by.as_slice();
            Ok(Gathered::Groups(Groups::new(alloc, columns, calls)?))
        } else {
            Ok(Gathered::Rows(TakenRows::new(alloc)))
        }
    }

    /// Takes one more that stage WHERE keeps, by the marks that are made.
    pub fn put(
        &mut self,
        alloc: A,
        world: &World<'_, A>,
        calls: &[AggregateCall<'_, A>],
        marks: &Marks<'_, A>,
        combination: &Combo<A>,
    ) -> Result<(), AllocError>
        ensures { let w = world_of world.now in (kept : List Combination) → aggregate_calls_of calls.now ≡ query_aggregates w.query → AreMarksOf w marks.now → Gathers w self.old kept →
            OnOk result (Gathers w self.new (kept ++ combination_at w.tables combination.now ∷ [])) }
    {
        match self {
            Gathered::Groups(groups) => {
                let arguments = marks.arguments.as_slice();
                put_combination(alloc, world, calls, arguments, groups, combination)
            }
            Gathered::Rows(rows) => {
                put_items(alloc, world, marks.items.as_slice(), rows, combination)
            }
        }
    }

    /// Takes one more that stage WHERE keeps. The marks of what is evaluated on it are made, unless they are made already.
    pub fn add(
        &mut self,
        alloc: A,
        world: &World<'_, A>,
        calls: &[AggregateCall<'_, A>],
        marks: &mut Marks<'_, A>,
        combination: &Combo<A>,
    ) -> Result<(), AllocError>
        ensures taken { let w = world_of world.now in (kept : List Combination) → aggregate_calls_of calls.now ≡ query_aggregates w.query → AreMarksOf w marks.old → Gathers w self.old kept →
            OnOk result (Gathers w self.new (kept ++ combination_at w.tables combination.now ∷ [])) }
        ensures marks { AreMarksOf (world_of world.now) marks.old → OnOk result (AreMarksOf (world_of world.now) marks.new) }
    {
        marks.make_kept(alloc, world, combination)?;
        self.put(alloc, world, calls, &*marks, combination)
    }

    /// Their rows in order and cut by the limit, or the least fault of the first stage that has one.
    pub fn end(self, alloc: A, world: &World<'_, A>) -> Result<AnswerRows<A>, Failure<Fault>>
        ensures { let w = world_of world.now in (kept : List Combination) → Gathers w self kept →
            Gives (λ rows. rows.rows) result (rows_of_kept w.role w.query kept) }
    {
        match self {
            Gathered::Groups(groups) => rows_of_groups(alloc, world, groups),
            Gathered::Rows(rows) => rows.end(world.query),
        }
    }
}
