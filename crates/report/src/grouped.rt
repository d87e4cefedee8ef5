//! The stages of a query with groups.

ghost use Rattle.std.specs.Prelude.{◌≡◌, ◌++◌, [], ◌∷◌, List, OnOk, IfOk, map, option_map, option_to_list};
ghost use Rattle.memory.specs.Gives.{Gives};
ghost use Rattle.expr.specs.View.{aggregate_calls_of, bound_expr_of, bound_query_of};
ghost use Rattle.groups.specs.GroupRow as spec_row;
ghost use Rattle.groups.specs.View.{group_row_of};
ghost use Rattle.tuples.specs.Combinations.{Combination};
ghost use Rattle.tuples.specs.View.{world_of};
ghost use Rattle.tuples.specs.World.{combination_at};
ghost use Rattle.row_marks.specs.Marks.{AreMarkedArguments, arguments_of};
ghost use Rattle.report.specs.Answering.{HoldsGroups, HoldsRows};
ghost use Rattle.report.specs.Ordered.{in_order_of};
ghost use Rattle.report.specs.QueryStages as spec;

use crate::outcomes::{keeps, push_values};
use crate::taken_rows::TakenRows;
use answer_rows::AnswerRows;
use expr::{AggregateCall, BoundExpr, BoundQuery};
use groups::{GroupCells, GroupRow, Groups, Stage, gives_if, key_on};
use memory::{Failure, Heap, Items};
use row_marks::{MarkedArgument, MarkedArguments, query_aggregates};
use std::alloc::AllocError;
use tuples::{Combo, JoinedRow, World};
use value::Fault;

// HAVING as a list of conditions, none without it.
fn having_conditions<'q, A: Heap>(
    alloc: A,
    query: &'q BoundQuery<A>,
) -> Result<Items<&'q BoundExpr<A>, A>, AllocError>
    ensures { IfOk result (λ conditions. map (λ e. bound_expr_of e.now) conditions ≡ option_to_list (bound_query_of query.now).having) }
{
    let mut conditions = Items::new(alloc);
    match &query.having {
        Some(predicate) => {
            let predicate: &BoundExpr<A> = predicate;
            conditions.push(predicate)?;
        }
        None => {}
    }
    Ok(conditions)
}

/// Adds the group key and aggregate arguments of one more combination to the groups, or the first fault of the arguments, by the marks
/// that are made.
pub fn put_combination<A: Heap>(
    alloc: A,
    world: &World<'_, A>,
    calls: &[AggregateCall<'_, A>],
    arguments: &[MarkedArgument<'_, A>],
    groups: &mut Groups<A>,
    combination: &Combo<A>,
) -> Result<(), AllocError>
    ensures { let w = world_of world.now in (these : List Combination) → aggregate_calls_of calls.now ≡ spec.query_aggregates w.query → AreMarkedArguments w arguments.now
        → arguments_of arguments.now ≡ map (λ c. c.argument) (spec.query_aggregates w.query) → HoldsGroups w.query.group_by (spec.query_aggregates w.query) groups.old (map (spec.arguments_fate w.role w.query) these) →
        OnOk result (HoldsGroups w.query.group_by (spec.query_aggregates w.query) groups.new (map (spec.arguments_fate w.role w.query) (these ++ combination_at w.tables combination.now ∷ []))) }
{
    let row = JoinedRow::new(world.tables, combination);
    let marked = MarkedArguments {
        arguments,
        combination,
        row: &row,
        role: world.role,
    };
    let key = key_on(alloc, world.query.group_by.as_slice(), &row)?;
    groups.add(alloc, calls, key, &marked)
}

// The group, where HAVING is true or absent.
fn having_fate<'g, A: Heap>(
    alloc: A,
    world: &World<'_, A>,
    calls: &[AggregateCall<'_, A>],
    having: &[&BoundExpr<A>],
    group: &'g GroupRow<A>,
) -> Result<Option<&'g GroupRow<A>>, Failure<Fault>>
    requires calls { aggregate_calls_of calls.now ≡ spec.query_aggregates (world_of world.now).query }
    requires having { map (λ e. bound_expr_of e.now) having.now ≡ option_to_list (world_of world.now).query.having }
    ensures { Gives (option_map (λ g. group_row_of g.now)) result (spec.having_fate world.now.role.now (world_of world.now).query (group_row_of group.now)) }
{
    let cells = GroupCells {
        columns: world.query.group_by.as_slice(),
        calls,
        row: group,
    };
    gives_if(group, keeps(alloc, having, &cells, world.role))
}

// The groups that HAVING keeps, or the least fault.
fn having_stage<'g, A: Heap>(
    alloc: A,
    world: &World<'_, A>,
    calls: &[AggregateCall<'_, A>],
    having: &[&BoundExpr<A>],
    groups: &'g [GroupRow<A>],
) -> Result<Items<&'g GroupRow<A>, A>, Failure<Fault>>
    requires calls { aggregate_calls_of calls.now ≡ spec.query_aggregates (world_of world.now).query }
    requires having { map (λ e. bound_expr_of e.now) having.now ≡ option_to_list (world_of world.now).query.having }
    ensures { Gives (λ groups. map (λ g. group_row_of g.now) groups) result (spec.having_stage world.now.role.now (world_of world.now).query (map (λ g. group_row_of g) groups.now)) }
{
    let mut stage = Stage::new(alloc);
    for group in groups {
        stage.add(having_fate(alloc, world, calls, having, group))?;
    }
    stage.end()
}

// Takes the items of one more group, or their fault.
fn put_group<A: Heap>(
    alloc: A,
    world: &World<'_, A>,
    calls: &[AggregateCall<'_, A>],
    group: &GroupRow<A>,
    rows: &mut TakenRows<A>,
) -> Result<(), AllocError>
    requires calls { aggregate_calls_of calls.now ≡ spec.query_aggregates (world_of world.now).query }
    ensures { let w = world_of world.now in (these : List spec_row.GroupRow) → HoldsRows w.query.order_by w.query.limit rows.old (map (spec.group_items_fate w.role w.query) these) →
        OnOk result (HoldsRows w.query.order_by w.query.limit rows.new (map (spec.group_items_fate w.role w.query) (these ++ group_row_of group.now ∷ []))) }
{
    let cells = GroupCells {
        columns: world.query.group_by.as_slice(),
        calls,
        row: group,
    };
    let items = world.query.items.as_slice();
    let outcome = push_values(alloc, items, &cells, world.role, &mut rows.rows);
    rows.end_row(world.query, outcome)
}

// The items of each group, in order and cut by the limit, or the least fault.
fn rows_in_order<A: Heap>(
    alloc: A,
    world: &World<'_, A>,
    calls: &[AggregateCall<'_, A>],
    groups: &[&GroupRow<A>],
) -> Result<AnswerRows<A>, Failure<Fault>>
    requires calls { aggregate_calls_of calls.now ≡ spec.query_aggregates (world_of world.now).query }
    ensures { let w = world_of world.now in Gives (λ rows. rows.rows) result (in_order_of w.query.order_by w.query.limit (spec.group_items_stage w.role w.query (map (λ g. group_row_of g.now) groups.now))) }
{
    let mut rows = TakenRows::new(alloc);
    for group in groups {
        put_group(alloc, world, calls, group, &mut rows)?;
    }
    rows.end(world.query)
}

// The items of the groups that HAVING keeps, in order and cut by the limit, or the least fault of the first stage that has one.
fn rows_of_group_rows<A: Heap>(
    alloc: A,
    world: &World<'_, A>,
    calls: &[AggregateCall<'_, A>],
    groups: &[GroupRow<A>],
) -> Result<AnswerRows<A>, Failure<Fault>>
    requires calls { aggregate_calls_of calls.now ≡ spec.query_aggregates (world_of world.now).query }
    ensures { let w = world_of world.now in Gives (λ rows. rows.rows) result (in_order_of w.query.order_by w.query.limit (spec.rows_of_group_rows w.role w.query (map (λ g. group_row_of g) groups.now))) }
{
    let having = having_conditions(alloc, world.query)?;
    let kept = having_stage(alloc, world, calls, having.as_slice(), groups)?;
    rows_in_order(alloc, world, calls, kept.as_slice())
}

/// The rows of the groups of combinations, in order and cut by the limit, or the least fault of the first stage that has one.
pub fn rows_of_groups<A: Heap>(
    alloc: A,
    world: &World<'_, A>,
    groups: Groups<A>,
) -> Result<AnswerRows<A>, Failure<Fault>>
    ensures { let w = world_of world.now in (these : List Combination) → HoldsGroups w.query.group_by (spec.query_aggregates w.query) groups (map (spec.arguments_fate w.role w.query) these) →
        Gives (λ rows. rows.rows) result (in_order_of w.query.order_by w.query.limit (spec.rows_of_groups w.role w.query these)) }
{
    let calls = query_aggregates(alloc, world.query)?;
    let rows = groups.rows(alloc, calls.as_slice())?;
    rows_of_group_rows(alloc, world, calls.as_slice(), rows.as_slice())
}
