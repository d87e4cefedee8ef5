//! The test that a query is within limits, and its counts.

ghost use Rattle.std.specs.Prelude.{◌≡◌, ◌≤◌, ◌-◌, nat_le, length, map, option_map, SomeIff};
ghost use Rattle.std.specs.List.{sum};
ghost use Rattle.syntax.specs.Limits as sizes;
ghost use Rattle.syntax.specs.Limits.{entries, item_entries, join_members, filter_members, from_members, left_members, on_members, conjuncts, item_count, within_joined, within_lists, within_columns, most_items};
ghost use Rattle.value.specs.Limits.{most_conjuncts, most_entries};
ghost use Rattle.row_ast.specs.Ast as ast;
ghost use Rattle.row_ast.specs.View.{expr_of, condition_of, select_list_of, join_of, from_item_of, left_join_of, query_of};

use memory::Heap;
use row_ast::{Condition, Expr, FromItem, Join, LeftJoin, Query, SelectList};
use value::{MOST_CONJUNCTS, MOST_ENTRIES};

// The most items of SELECT.
const MOST_ITEMS: usize = 64;

// The most columns of GROUP BY.
const MOST_GROUPS: usize = 64;

// The most keys of ORDER BY.
const MOST_KEYS: usize = 64;

// The number of conjuncts of an expression.
fn members<A: Heap>(expr: &Expr<A>) -> usize
    ensures { result ≡ length (ast.and_members (expr_of expr.now)) }
{
    match expr {
        Expr::And { members, .. } => members.len(),
        _ => 1,
    }
}

fn join_members<A: Heap>(join: &Join<A>) -> usize
    ensures { result ≡ join_members (join_of join.now) }
{
    match join {
        Join::Inner { on, .. } => members(&on.predicate),
        Join::Cross { .. } => 0,
    }
}

fn left_join_members<A: Heap>(left_join: &LeftJoin<A>) -> usize
    ensures { result ≡ sizes.members (left_join_of left_join.now).on_ }
{
    members(&left_join.on.predicate)
}

fn filter_members<A: Heap>(filter: &Option<Condition<A>>) -> usize
    ensures { result ≡ filter_members (option_map (λ c. condition_of c) filter.now) }
{
    match filter {
        Some(condition) => members(&condition.predicate),
        None => 0,
    }
}

// The part of this room that is left after the conjuncts of joins; none where they are more.
fn left_by_joins<A: Heap>(joins: &[Join<A>], room: usize) -> Option<usize>
    ensures { SomeIff result (sum (map join_members (map (λ j. join_of j) joins.now)) ≤ room) (room - sum (map join_members (map (λ j. join_of j) joins.now))) }
{
    let mut left = room;
    for join in joins {
        left = left.checked_sub(join_members(join))?;
    }
    Some(left)
}

// The same after those of all joins of comma items.
fn left_by_chains<A: Heap>(chains: &[FromItem<A>], room: usize) -> Option<usize>
    ensures { SomeIff result (from_members (map (λ c. from_item_of c) chains.now) ≤ room) (room - from_members (map (λ c. from_item_of c) chains.now)) }
{
    let mut left = room;
    for from_item in chains {
        left = left_by_joins(from_item.joins.as_slice(), left)?;
    }
    Some(left)
}

// The same after those of left joins.
fn left_by_lefts<A: Heap>(lefts: &[LeftJoin<A>], room: usize) -> Option<usize>
    ensures { SomeIff result (left_members (map (λ l. left_join_of l) lefts.now) ≤ room) (room - left_members (map (λ l. left_join_of l) lefts.now)) }
{
    let mut left = room;
    for left_join in lefts {
        left = left.checked_sub(left_join_members(left_join))?;
    }
    Some(left)
}

// The conjuncts that WHERE may have beside those of ON; none where these are more than a query may have.
fn left_by_ons<A: Heap>(query: &Query<A>) -> Option<usize>
    ensures { SomeIff result (on_members (query_of query.now) ≤ most_conjuncts) (most_conjuncts - on_members (query_of query.now)) }
{
    match left_by_chains(query.from.as_slice(), MOST_CONJUNCTS) {
        Some(left) => left_by_lefts(query.lefts.as_slice(), left),
        None => None,
    }
}

// True where comma items have at most so many tables.
fn items_within<A: Heap>(chains: &[FromItem<A>], room: usize) -> bool
    ensures { result ≡ nat_le (item_entries (map (λ c. from_item_of c) chains.now)) room }
{
    let mut left = room;
    for from_item in chains {
        let joins = from_item.joins.len();
        if joins >= left {
            return false;
        }
        left -= 1 + joins;
    }
    true
}

fn within_entries<A: Heap>(query: &Query<A>) -> bool
    ensures { result ≡ nat_le (entries (query_of query.now)) most_entries }
{
    match MOST_ENTRIES.checked_sub(query.lefts.len()) {
        Some(room) => items_within(query.from.as_slice(), room),
        None => false,
    }
}

fn within_conjuncts<A: Heap>(query: &Query<A>) -> bool
    ensures { result ≡ nat_le (conjuncts (query_of query.now)) most_conjuncts }
{
    match left_by_ons(query) {
        Some(left) => filter_members(&query.filter) <= left,
        None => false,
    }
}

fn within_items<A: Heap>(select_list: &SelectList<A>) -> bool
    ensures { result ≡ nat_le (item_count (select_list_of select_list.now)) most_items }
{
    match select_list {
        SelectList::Items(items) => items.len() <= MOST_ITEMS,
        SelectList::All { .. } => true,
    }
}

fn within_joined<A: Heap>(query: &Query<A>) -> bool
    ensures { result ≡ within_joined (query_of query.now) }
{
    within_entries(query) && within_conjuncts(query)
}

fn within_lists<A: Heap>(query: &Query<A>) -> bool
    ensures { result ≡ within_lists (query_of query.now) }
{
    query.group_by.len() <= MOST_GROUPS && query.order_by.len() <= MOST_KEYS
}

fn within_columns<A: Heap>(query: &Query<A>) -> bool
    ensures { result ≡ within_columns (query_of query.now) }
{
    within_items(&query.select) && within_lists(query)
}

/// True where a query is within limits: at most 8 tables of FROM, 64 conjuncts of ON and WHERE together, 64 items, 64
/// columns of GROUP BY and 64 keys of ORDER BY.
pub fn within_limits<A: Heap>(query: &Query<A>) -> bool
    ensures { result ≡ sizes.within_limits (query_of query.now) }
{
    within_joined(query) && within_columns(query)
}
