//! The entries and columns of a bound query, in written order.

ghost use Rattle.std.specs.Prelude.{◌≡◌, ◌∷◌, ◌++◌, OnOk, IfOk, map, option_map};
ghost use Rattle.std.specs.List.{flat_map};
ghost use Rattle.expr.specs.View.{bound_expr_of, bound_items_of, bound_query_of};
ghost use Rattle.access.specs.Needed as spec;
ghost use Rattle.access.specs.declared.mentions.Mention.TheVariants as mention;

use expr::{BoundCondition, BoundExpr, BoundItem, BoundQuery, ColumnId, push_columns};
use memory::{Heap, Items};
use std::alloc::AllocError;

// An entry or a column in a query.
#[derive(Clone, Copy)]
pub(crate) enum Mention {
    // An entry of FROM, by its index.
    From { entry: usize },
    // A column.
    Column { id: ColumnId },
}

fn push_ids<A: Heap>(mentions: &mut Items<Mention, A>, ids: &[ColumnId]) -> Result<(), AllocError>
    ensures { OnOk result (mentions.new ≡ mentions.old ++ map mention.Column ids.now) }
{
    for id in ids {
        mentions.push(Mention::Column { id: *id })?;
    }
    Ok(())
}

fn push_expr<A: Heap>(
    alloc: A,
    mentions: &mut Items<Mention, A>,
    expression: &BoundExpr<A>,
) -> Result<(), AllocError>
    ensures { OnOk result (mentions.new ≡ mentions.old ++ spec.in_expr (bound_expr_of expression.now)) }
{
    let mut ids = Items::new(alloc);
    push_columns(&mut ids, expression)?;
    push_ids(mentions, ids.as_slice())
}

fn push_items<A: Heap>(
    alloc: A,
    mentions: &mut Items<Mention, A>,
    items: &[BoundItem<A>],
) -> Result<(), AllocError>
    ensures { OnOk result (mentions.new ≡ mentions.old ++ flat_map spec.in_item (bound_items_of items.now)) }
{
    for item in items {
        push_expr(alloc, mentions, &item.value)?;
    }
    Ok(())
}

fn push_condition<A: Heap>(
    alloc: A,
    mentions: &mut Items<Mention, A>,
    condition: &BoundCondition<A>,
) -> Result<(), AllocError>
    ensures { OnOk result (mentions.new ≡ mentions.old ++ spec.in_condition (option_map (λ b. bound_expr_of b.value) condition.now)) }
{
    match condition {
        Some(predicate) => push_expr(alloc, mentions, predicate),
        None => Ok(()),
    }
}

fn push_entry<A: Heap>(
    alloc: A,
    mentions: &mut Items<Mention, A>,
    entry: usize,
    on: &BoundCondition<A>,
) -> Result<(), AllocError>
    ensures { OnOk result (mentions.new ≡ mentions.old ++ (mention.From entry ∷ spec.in_condition (option_map (λ b. bound_expr_of b.value) on.now))) }
{
    mentions.push(Mention::From { entry })?;
    push_condition(alloc, mentions, on)
}

fn push_from<A: Heap>(
    alloc: A,
    mentions: &mut Items<Mention, A>,
    ons: &[BoundCondition<A>],
) -> Result<(), AllocError>
    ensures { OnOk result (mentions.new ≡ mentions.old ++ spec.in_from 0 (map (λ o. option_map (λ b. bound_expr_of b.value) o) ons.now)) }
{
    for (number, on) in ons.iter().enumerate() {
        push_entry(alloc, mentions, number, on)?;
    }
    Ok(())
}

// The mentions of a query.
pub(crate) fn mentions<A: Heap>(
    alloc: A,
    query: &BoundQuery<A>,
) -> Result<Items<Mention, A>, AllocError>
    ensures { IfOk result (λ mentions. mentions ≡ spec.mentions (bound_query_of query.now)) }
{
    let mut mentions = Items::new(alloc);
    push_items(alloc, &mut mentions, query.items.as_slice())?;
    push_from(alloc, &mut mentions, query.ons.as_slice())?;
    push_condition(alloc, &mut mentions, &query.filter)?;
    push_ids(&mut mentions, query.group_by.as_slice())?;
    push_condition(alloc, &mut mentions, &query.having)?;
    Ok(mentions)
}
