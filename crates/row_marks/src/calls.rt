//! The aggregates of a query.

ghost use Rattle.std.specs.Prelude.{◌≡◌, ◌++◌, OnOk, IfOk, option_map, option_to_list};
ghost use Rattle.std.specs.List.{flat_map};
ghost use Rattle.expr.specs.Aggregates.{aggregates};
ghost use Rattle.expr.specs.View.{aggregate_calls_of, bound_expr_of, bound_items_of, bound_query_of};
ghost use Rattle.row_marks.specs.Calls as spec;

use expr::{AggregateCall, BoundCondition, BoundItem, BoundQuery, push_aggregates};
use memory::{Heap, Items};
use std::alloc::AllocError;

// Adds the aggregates of the items.
fn push_item_aggregates<'q, A: Heap>(
    calls: &mut Items<AggregateCall<'q, A>, A>,
    items: &'q [BoundItem<A>],
) -> Result<(), AllocError>
    ensures { OnOk result (aggregate_calls_of calls.new ≡ aggregate_calls_of calls.old ++ flat_map spec.item_aggregates (bound_items_of items.now)) }
{
    for item in items {
        push_aggregates(calls, &item.value)?;
    }
    Ok(())
}

// Adds those of HAVING.
fn push_having_aggregates<'q, A: Heap>(
    calls: &mut Items<AggregateCall<'q, A>, A>,
    having: &'q BoundCondition<A>,
) -> Result<(), AllocError>
    ensures { OnOk result (aggregate_calls_of calls.new ≡ aggregate_calls_of calls.old ++ flat_map aggregates (option_to_list (option_map (λ b. bound_expr_of b.value) having.now))) }
{
    match having {
        Some(predicate) => push_aggregates(calls, predicate),
        None => Ok(()),
    }
}

/// The aggregates of a query, in written order: of its items and then of HAVING.
pub fn query_aggregates<'q, A: Heap>(
    alloc: A,
    query: &'q BoundQuery<A>,
) -> Result<Items<AggregateCall<'q, A>, A>, AllocError>
    ensures { IfOk result (λ calls. aggregate_calls_of calls ≡ spec.query_aggregates (bound_query_of query.now)) }
{
    let mut calls = Items::new(alloc);
    push_item_aggregates(&mut calls, query.items.as_slice())?;
    push_having_aggregates(&mut calls, &query.having)?;
    Ok(calls)
}
