//! The checks of a whole query, and of the condition of a policy.

ghost use Rattle.std.specs.Prelude.{◌≡◌, map, option_map};
ghost use Rattle.value.specs.Columns.{columns_of};
ghost use Rattle.row_ast.specs.View.{condition_of, expr_of, query_of, select_item_of, select_list_of};
ghost use Rattle.scope.specs.View.{entries_of};
ghost use Rattle.scope.specs.Lookup.{everywhere};
ghost use Rattle.typing.specs.Clauses as spec;
ghost use Rattle.typing.specs.Grouping.{misplaced};
ghost use Rattle.expr.specs.Offsets.{least_of_all};
ghost use Rattle.typing.specs.Typing.{typed};

use crate::grouped::{is_among, misplaced};
use crate::types::{Typed, typed, typed_condition};
use expr::{ColumnId, least_of};
use memory::Heap;
use row_ast::{Condition, Expr, Query, SelectItem, SelectList};
use scope::{BindError, Entry, Scope, everywhere, on_scope};
use value::{Column, Refusal};

// ---- aggregates

fn misplaced_items<A: Heap>(
    entries: &[Entry<'_, A>],
    group_by: &[ColumnId],
    of_groups: bool,
    items: &[SelectItem<A>],
) -> Option<u32>
    ensures { result ≡ least_of_all (map (λ i. misplaced (entries_of entries.now) (everywhere (entries_of entries.now)) group_by.now of_groups i.value) (map (λ i. select_item_of i) items.now)) }
{
    let scope = everywhere(entries);
    let mut known = None;
    for item in items {
        known = least_of(
            known,
            misplaced(entries, scope, group_by, of_groups, &item.value),
        );
    }
    known
}

fn are_grouped<A: Heap>(group_by: &[ColumnId], entry: usize, columns: &[Column<A>]) -> bool
    ensures { result ≡ spec.are_grouped group_by.now entry 0 (columns_of columns.now) }
{
    for (column, _) in columns.iter().enumerate() {
        if !is_among(ColumnId { entry, column }, group_by) {
            return false;
        }
    }
    true
}

fn every_grouped<A: Heap>(group_by: &[ColumnId], entries: &[Entry<'_, A>]) -> bool
    ensures { result ≡ spec.every_grouped group_by.now 0 (entries_of entries.now) }
{
    for (number, entry) in entries.iter().enumerate() {
        if !are_grouped(group_by, number, entry.table.columns()) {
            return false;
        }
    }
    true
}

fn misplaced_star(of_groups: bool, grouped: bool, offset: u32) -> Option<u32>
    ensures { result ≡ spec.misplaced_star of_groups grouped offset }
{
    if !of_groups {
        return None;
    }
    if grouped { None } else { Some(offset) }
}

fn misplaced_select<A: Heap>(
    entries: &[Entry<'_, A>],
    group_by: &[ColumnId],
    of_groups: bool,
    select: &SelectList<A>,
) -> Option<u32>
    ensures { result ≡ spec.misplaced_select (entries_of entries.now) group_by.now of_groups (select_list_of select.now) }
{
    match select {
        SelectList::All { offset } => {
            misplaced_star(of_groups, every_grouped(group_by, entries), *offset)
        }
        SelectList::Items(items) => {
            misplaced_items(entries, group_by, of_groups, items.as_slice())
        }
    }
}

fn misplaced_condition<A: Heap>(
    entries: &[Entry<'_, A>],
    group_by: &[ColumnId],
    of_groups: bool,
    condition: Option<&Condition<A>>,
) -> Option<u32>
    ensures { result ≡ spec.misplaced_condition (entries_of entries.now) group_by.now of_groups (option_map (λ c. condition_of c.now) condition.entry) }
{
    match condition {
        None => None,
        Some(condition) => misplaced(
            entries,
            everywhere(entries),
            group_by,
            of_groups,
            &condition.predicate,
        ),
    }
}

fn misplaced_ons<A: Heap>(entries: &[Entry<'_, A>], group_by: &[ColumnId]) -> Option<u32>
    ensures { result ≡ spec.misplaced_ons (entries_of entries.now) group_by.now }
{
    let mut known = None;
    for entry in entries {
        known = least_of(
            known,
            misplaced_condition(entries, group_by, false, entry.on),
        );
    }
    known
}

/// True where a query has GROUP BY, HAVING, or an aggregate in an item.
pub fn is_grouped<A: Heap>(entries: &[Entry<'_, A>], query: &Query<A>) -> bool
    ensures { result ≡ spec.is_grouped (entries_of entries.now) (query_of query.now) }
{
    if !query.group_by.as_slice().is_empty() {
        return true;
    }
    if query.having.is_some() {
        return true;
    }
    misplaced_select(entries, &[], false, &query.select).is_some()
}

fn misplaced_in<A: Heap>(
    entries: &[Entry<'_, A>],
    group_by: &[ColumnId],
    query: &Query<A>,
) -> Option<u32>
    ensures { result ≡ spec.misplaced_in (entries_of entries.now) group_by.now (query_of query.now) }
{
    let grouped = is_grouped(entries, query);
    let select = misplaced_select(entries, group_by, grouped, &query.select);
    let ons = misplaced_ons(entries, group_by);
    let filter = misplaced_condition(entries, group_by, false, query.filter.as_ref());
    let having = misplaced_condition(entries, group_by, grouped, query.having.as_ref());
    least_of(select, least_of(ons, least_of(filter, having)))
}

// ---- types

fn mistyped(typed: Typed) -> Option<u32>
    ensures { result ≡ spec.mistyped typed }
{
    match typed {
        Ok(_) => None,
        Err(offset) => Some(offset),
    }
}

fn mistyped_items<A: Heap>(entries: &[Entry<'_, A>], items: &[SelectItem<A>]) -> Option<u32>
    ensures { result ≡ least_of_all (map (λ i. spec.mistyped (typed (entries_of entries.now) (everywhere (entries_of entries.now)) i.value)) (map (λ i. select_item_of i) items.now)) }
{
    let scope = everywhere(entries);
    let mut known = None;
    for item in items {
        known = least_of(known, mistyped(typed(entries, scope, &item.value)));
    }
    known
}

fn mistyped_select<A: Heap>(entries: &[Entry<'_, A>], select: &SelectList<A>) -> Option<u32>
    ensures { result ≡ spec.mistyped_select (entries_of entries.now) (select_list_of select.now) }
{
    match select {
        SelectList::All { .. } => None,
        SelectList::Items(items) => mistyped_items(entries, items.as_slice()),
    }
}

fn mistyped_condition<A: Heap>(
    entries: &[Entry<'_, A>],
    scope: Scope,
    condition: Option<&Condition<A>>,
) -> Option<u32>
    ensures { result ≡ spec.mistyped_condition (entries_of entries.now) scope (option_map (λ c. condition_of c.now) condition.entry) }
{
    match condition {
        None => None,
        Some(condition) => mistyped(typed_condition(
            entries,
            scope,
            condition.offset,
            &condition.predicate,
        )),
    }
}

fn mistyped_ons<A: Heap>(entries: &[Entry<'_, A>]) -> Option<u32>
    ensures { result ≡ spec.mistyped_ons (entries_of entries.now) 0 (entries_of entries.now) }
{
    let mut known = None;
    for (number, entry) in entries.iter().enumerate() {
        let on = mistyped_condition(entries, on_scope(number, entry), entry.on);
        known = least_of(known, on);
    }
    known
}

fn mistyped_in<A: Heap>(entries: &[Entry<'_, A>], query: &Query<A>) -> Option<u32>
    ensures { result ≡ spec.mistyped_in (entries_of entries.now) (query_of query.now) }
{
    let scope = everywhere(entries);
    let select = mistyped_select(entries, &query.select);
    let ons = mistyped_ons(entries);
    let filter = mistyped_condition(entries, scope, query.filter.as_ref());
    let having = mistyped_condition(entries, scope, query.having.as_ref());
    least_of(select, least_of(ons, least_of(filter, having)))
}

// ---- both checks

fn first_fault(misplaced: Option<u32>, mistyped: Option<u32>) -> Option<BindError>
    ensures { result ≡ spec.first_fault misplaced mistyped }
{
    if let Some(offset) = misplaced {
        return Some(BindError {
            code: Refusal::GroupingError,
            offset,
        });
    }
    match mistyped {
        None => None,
        Some(offset) => Some(BindError {
            code: Refusal::DatatypeMismatch,
            offset,
        }),
    }
}

/// The error of a query with the columns of its GROUP BY: the aggregate or column at the least offset that is not
/// allowed there (42803), or else the least offset of a wrong type (42804).
pub fn clause_error<A: Heap>(
    entries: &[Entry<'_, A>],
    group_by: &[ColumnId],
    query: &Query<A>,
) -> Option<BindError>
    ensures { result ≡ spec.clause_error (entries_of entries.now) group_by.now (query_of query.now) }
{
    let misplaced = misplaced_in(entries, group_by, query);
    first_fault(misplaced, mistyped_in(entries, query))
}

/// The error of the condition of a policy, which starts at an offset: the least offset of an aggregate (42803), or else
/// of a wrong type (42804).
pub fn condition_error<A: Heap>(
    entries: &[Entry<'_, A>],
    offset: u32,
    predicate: &Expr<A>,
) -> Option<BindError>
    ensures { result ≡ spec.condition_error (entries_of entries.now) offset (expr_of predicate.now) }
{
    let scope = everywhere(entries);
    let aggregate = misplaced(entries, scope, &[], false, predicate);
    let typed = typed_condition(entries, scope, offset, predicate);
    first_fault(aggregate, mistyped(typed))
}
