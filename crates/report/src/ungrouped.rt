//! The items of a query without groups.

ghost use Rattle.std.specs.Prelude.{◌≡◌, ◌++◌, [], ◌∷◌, List, OnOk, map};
ghost use Rattle.memory.specs.Gives.{Gives};
ghost use Rattle.groups.specs.Members.{all_of};
ghost use Rattle.tuples.specs.Combinations.{Combination};
ghost use Rattle.tuples.specs.View.{world_of};
ghost use Rattle.tuples.specs.World.{combination_at};
ghost use Rattle.row_marks.specs.Marks.{AreMarked, exprs_of, outcome_in};
ghost use Rattle.report.specs.Answering.{HoldsRows};
ghost use Rattle.report.specs.Pushed.{value_after, values_after};
ghost use Rattle.report.specs.QueryStages as spec;

use crate::taken_rows::TakenRows;
use answer_rows::AnswerRows;
use eval::Row;
use memory::{Failure, Heap};
use row_marks::Marked;
use std::alloc::AllocError;
use tuples::{Combo, JoinedRow, World};
use value::Fault;

// Pushes the value of an item on a combination: that of its mark, where it is made; or gives its fault.
fn push_item<A: Heap, R: Row<A>>(
    alloc: A,
    item: &Marked<'_, A>,
    combination: &Combo<A>,
    row: &R,
    role: &str,
    rows: &mut AnswerRows<A>,
) -> Result<(), Failure<Fault>>
    ensures value { Gives (λ _. rows.new.unfinished) result (value_after rows.old.unfinished (outcome_in (R.cells row.now) role.now combination.now item.now)) }
    ensures rows { rows.new.rows ≡ rows.old.rows }
{
    match item.outcome(alloc, combination, row, role) {
        Ok(value) => {
            rows.push(&value)?;
            Ok(())
        }
        Err(failure) => Err(failure),
    }
}

// Pushes the values of items on a combination, or gives the first fault from left to right.
fn push_items<A: Heap, R: Row<A>>(
    alloc: A,
    items: &[Marked<'_, A>],
    combination: &Combo<A>,
    row: &R,
    role: &str,
    rows: &mut AnswerRows<A>,
) -> Result<(), Failure<Fault>>
    ensures values { Gives (λ _. rows.new.unfinished) result (values_after rows.old.unfinished (all_of (map (λ m. outcome_in (R.cells row.now) role.now combination.now m) items.now))) }
    ensures rows { rows.new.rows ≡ rows.old.rows }
{
    for item in items {
        push_item(alloc, item, combination, row, role, rows)?;
    }
    Ok(())
}

/// Takes the items of one more combination, or their fault, by the marks that are made.
pub fn put_items<A: Heap>(
    alloc: A,
    world: &World<'_, A>,
    items: &[Marked<'_, A>],
    rows: &mut TakenRows<A>,
    combination: &Combo<A>,
) -> Result<(), AllocError>
    ensures { let w = world_of world.now in (these : List Combination) → AreMarked w items.now → exprs_of items.now ≡ map (λ i. i.value) w.query.items → HoldsRows w.query.order_by w.query.limit rows.old (map (spec.items_fate w.role w.query) these) →
        OnOk result (HoldsRows w.query.order_by w.query.limit rows.new (map (spec.items_fate w.role w.query) (these ++ combination_at w.tables combination.now ∷ []))) }
{
    let row = JoinedRow::new(world.tables, combination);
    let outcome = push_items(alloc, items, combination, &row, world.role, &mut rows.rows);
    rows.end_row(world.query, outcome)
}
