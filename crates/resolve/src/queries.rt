//! Queries with their columns found.

ghost use Rattle.std.specs.Prelude.{◌≡◌, ◌++◌, OnOk, IfOk, map, option_map};
ghost use Rattle.memory.specs.Gives.{Gives};
ghost use Rattle.memory.specs.Results.{on_each};
ghost use Rattle.value.specs.Columns.{column_of, columns_of};
ghost use Rattle.row_ast.specs.View.{column_ref_of, condition_of, expr_of, query_of, select_item_of, select_list_of};
ghost use Rattle.expr.specs.View.{bound_expr_of, bound_item_of, bound_items_of, bound_query_of};
ghost use Rattle.resolve.specs.BoundQueries as spec;
ghost use Rattle.scope.specs.Lookup.{find_column};
ghost use Rattle.scope.specs.View.{entries_of};

use expr::{BoundCondition, BoundExpr, BoundItem, BoundQuery, ColumnId};
use memory::{Failure, Heap, Items, Text, boxed};
use row_ast::{ColumnRef, Condition, Expr, Query, SelectItem, SelectList};
use scope::{BindError, Entry, Scope, bind_expr, everywhere, find_column, on_scope};
use std::alloc::AllocError;
use typing::is_grouped;
use value::{Aggregate, Column};

fn aggregate_heading(aggregate: Aggregate) -> &'static str
    ensures { result.now ≡ spec.aggregate_heading aggregate }
{
    match aggregate {
        Aggregate::Count => "count",
        Aggregate::Sum => "sum",
        Aggregate::Min => "min",
        Aggregate::Max => "max",
    }
}

fn own_heading<A: Heap>(expression: &Expr<A>) -> &str
    ensures { result.now ≡ spec.own_heading (expr_of expression.now) }
{
    match expression {
        Expr::Column(column) => column.name.as_str(),
        Expr::CountStar { .. } => "count",
        Expr::Call { aggregate, .. } => aggregate_heading(*aggregate),
        _ => "?column?",
    }
}

fn heading<A: Heap>(item: &SelectItem<A>) -> &str
    ensures { result.now ≡ spec.heading_or (select_item_of item.now).alias (select_item_of item.now).value }
{
    match &item.alias {
        Some(alias) => alias.as_str(),
        None => own_heading(&item.value),
    }
}

fn bind_item<A: Heap>(
    alloc: A,
    entries: &[Entry<'_, A>],
    scope: Scope,
    item: &SelectItem<A>,
) -> Result<BoundItem<A>, Failure<BindError>>
    ensures { Gives (λ i. bound_item_of i) result (spec.bound_item (entries_of entries.now) scope (select_item_of item.now)) }
{
    let value = bind_expr(alloc, entries, scope, &item.value)?;
    let heading = Text::new(alloc, heading(item))?;
    Ok(BoundItem { heading, value })
}

fn bind_items<A: Heap>(
    alloc: A,
    entries: &[Entry<'_, A>],
    scope: Scope,
    items: &[SelectItem<A>],
) -> Result<Items<BoundItem<A>, A>, Failure<BindError>>
    ensures { Gives (λ items. bound_items_of items) result (on_each (spec.bound_item (entries_of entries.now) scope) (map (λ i. select_item_of i) items.now)) }
{
    let mut all = Items::new(alloc);
    for item in items {
        match bind_item(alloc, entries, scope, item) {
            Ok(item) => all.push(item)?,
            Err(failure) => return Err(failure),
        }
    }
    Ok(all)
}

fn column_item<A: Heap>(
    alloc: A,
    id: ColumnId,
    column: &Column<A>,
) -> Result<BoundItem<A>, AllocError>
    ensures { IfOk result (λ i. bound_item_of i ≡ spec.column_item (column_of column.now) id) }
{
    let heading = Text::new(alloc, column.name.as_str())?;
    let value = boxed(alloc, BoundExpr::Column(id))?;
    Ok(BoundItem { heading, value })
}

fn push_column_items<A: Heap>(
    alloc: A,
    items: &mut Items<BoundItem<A>, A>,
    entry: usize,
    columns: &[Column<A>],
) -> Result<(), AllocError>
    ensures { OnOk result (bound_items_of items.new ≡ bound_items_of items.old ++ spec.column_items entry 0 (columns_of columns.now)) }
{
    for (index, column) in columns.iter().enumerate() {
        let id = ColumnId {
            entry,
            column: index,
        };
        items.push(column_item(alloc, id, column)?)?;
    }
    Ok(())
}

fn push_every_item<A: Heap>(
    alloc: A,
    items: &mut Items<BoundItem<A>, A>,
    entries: &[Entry<'_, A>],
) -> Result<(), AllocError>
    ensures { OnOk result (bound_items_of items.new ≡ bound_items_of items.old ++ spec.every_item 0 (entries_of entries.now)) }
{
    for (number, entry) in entries.iter().enumerate() {
        push_column_items(alloc, items, number, entry.table.columns())?;
    }
    Ok(())
}

fn every_item<A: Heap>(
    alloc: A,
    entries: &[Entry<'_, A>],
) -> Result<Items<BoundItem<A>, A>, AllocError>
    ensures { IfOk result (λ items. bound_items_of items ≡ spec.every_item 0 (entries_of entries.now)) }
{
    let mut items = Items::new(alloc);
    push_every_item(alloc, &mut items, entries)?;
    Ok(items)
}

fn bind_select<A: Heap>(
    alloc: A,
    entries: &[Entry<'_, A>],
    scope: Scope,
    select: &SelectList<A>,
) -> Result<Items<BoundItem<A>, A>, Failure<BindError>>
    ensures { Gives (λ items. bound_items_of items) result (spec.bound_select (entries_of entries.now) scope (select_list_of select.now)) }
{
    match select {
        SelectList::All { .. } => Ok(every_item(alloc, entries)?),
        SelectList::Items(items) => bind_items(alloc, entries, scope, items.as_slice()),
    }
}

/// A condition with its columns found, if there is one.
pub fn bind_condition<A: Heap>(
    alloc: A,
    entries: &[Entry<'_, A>],
    scope: Scope,
    condition: Option<&Condition<A>>,
) -> Result<BoundCondition<A>, Failure<BindError>>
    ensures { Gives (λ o. option_map (λ b. bound_expr_of b.value) o) result (spec.bound_condition (entries_of entries.now) scope (option_map (λ c. condition_of c.now) condition.entry)) }
{
    match condition {
        Some(condition) => match bind_expr(alloc, entries, scope, &condition.predicate) {
            Ok(value) => Ok(Some(value)),
            Err(failure) => Err(failure),
        },
        None => Ok(None),
    }
}

fn bind_ons<A: Heap>(
    alloc: A,
    entries: &[Entry<'_, A>],
) -> Result<Items<BoundCondition<A>, A>, Failure<BindError>>
    ensures { Gives (λ ons. map (λ o. option_map (λ b. bound_expr_of b.value) o) ons) result (spec.bound_ons (entries_of entries.now) 0 (entries_of entries.now)) }
{
    let mut ons = Items::new(alloc);
    for (number, entry) in entries.iter().enumerate() {
        match bind_condition(alloc, entries, on_scope(number, entry), entry.on) {
            Ok(on) => ons.push(on)?,
            Err(failure) => return Err(failure),
        }
    }
    Ok(ons)
}

fn bind_columns<A: Heap>(
    alloc: A,
    entries: &[Entry<'_, A>],
    scope: Scope,
    columns: &[ColumnRef<A>],
) -> Result<Items<ColumnId, A>, Failure<BindError>>
    ensures { Gives (λ ids. ids) result (on_each (find_column (entries_of entries.now) scope) (map (λ c. column_ref_of c) columns.now)) }
{
    let mut ids = Items::new(alloc);
    for column in columns {
        match find_column(entries, scope, column) {
            Ok(id) => ids.push(id)?,
            Err(fault) => return Err(Failure::Error(fault)),
        }
    }
    Ok(ids)
}

fn bind_optional<A: Heap>(
    alloc: A,
    entries: &[Entry<'_, A>],
    scope: Scope,
    condition: &Option<Condition<A>>,
) -> Result<BoundCondition<A>, Failure<BindError>>
    ensures { Gives (λ o. option_map (λ b. bound_expr_of b.value) o) result (spec.bound_condition (entries_of entries.now) scope (option_map condition_of condition.now)) }
{
    match condition {
        Some(condition) => bind_condition(alloc, entries, scope, Some(condition)),
        None => Ok(None),
    }
}

/// The query with its columns found among the entries of its FROM, or the first name that does not resolve. Its ORDER
/// BY, which names output columns, is not bound here.
pub fn bind_query<A: Heap>(
    alloc: A,
    entries: &[Entry<'_, A>],
    query: &Query<A>,
) -> Result<Box<BoundQuery<A>, A>, Failure<BindError>>
    ensures { Gives (λ b. bound_query_of b.value) result (spec.bound_query (entries_of entries.now) (query_of query.now)) }
{
    let scope = everywhere(entries);
    let items = bind_select(alloc, entries, scope, &query.select)?;
    let ons = bind_ons(alloc, entries)?;
    let filter = bind_optional(alloc, entries, scope, &query.filter)?;
    let group_by = match bind_columns(alloc, entries, scope, query.group_by.as_slice()) {
        Ok(group_by) => group_by,
        Err(failure) => return Err(failure),
    };
    let having = match bind_optional(alloc, entries, scope, &query.having) {
        Ok(having) => having,
        Err(failure) => return Err(failure),
    };
    let bound = BoundQuery {
        items,
        ons,
        left_count: query.lefts.len(),
        filter,
        group_by,
        having,
        is_grouped: is_grouped(entries, query),
        order_by: Items::new(alloc),
        limit: query.limit,
    };
    Ok(boxed(alloc, bound)?)
}
