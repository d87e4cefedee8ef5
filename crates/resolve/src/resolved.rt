//! Queries whose names are found, and whose aggregates and types are in order.

ghost use Rattle.std.specs.Prelude.{◌≡◌, map, option_map};
ghost use Rattle.memory.specs.Gives.{Gives};
ghost use Rattle.row_ast.specs.View.{query_of};
ghost use Rattle.expr.specs.Offsets.{least_of_all};
ghost use Rattle.expr.specs.View.{bound_expr_of, bound_query_of};
ghost use Rattle.scope.specs.View.{entries_of};
ghost use Rattle.resolve.specs.Resolved as spec;
ghost use Rattle.resolve.specs.View.{bound_of};

use crate::from::entries;
use crate::order_by::output_keys;
use crate::queries::bind_query;
use catalog::Catalog;
use expr::{BoundCondition, BoundQuery, OutputKey, first_fragile, least_of};
use memory::{Failure, Heap, Items};
use row_ast::Query;
use scope::{BindError, Entry};
use typing::clause_error;
use value::Refusal;

/// A query whose names are found, and whose aggregates and types are in order.
#[derive(Drop)]
pub struct Bound<'s, A: Heap> {
    /// The entries of FROM.
    pub entries: Items<Entry<'s, A>, A>,
    /// The query.
    pub query: Box<BoundQuery<A>, A>,
}

fn with_order<A: Heap>(
    bound: Box<BoundQuery<A>, A>,
    order_by: Items<OutputKey, A>,
) -> Box<BoundQuery<A>, A>
    ensures { bound_query_of result.value ≡ spec.with_order (bound_query_of bound.value) order_by }
{
    let mut bound = bound;
    bound.order_by = order_by;
    bound
}

fn ordered<'s, A: Heap>(
    alloc: A,
    entries: Items<Entry<'s, A>, A>,
    query: &Query<A>,
    bound: Box<BoundQuery<A>, A>,
) -> Result<Bound<'s, A>, Failure<BindError>>
    ensures { Gives (λ b. bound_of b) result (spec.ordered (entries_of entries.entry) (query_of query.now) (bound_query_of bound.value)) }
{
    match output_keys(alloc, bound.items.as_slice(), query.order_by.as_slice()) {
        Ok(keys) => Ok(Bound {
            entries,
            query: with_order(bound, keys),
        }),
        Err(failure) => Err(failure),
    }
}

fn checked<'s, A: Heap>(
    alloc: A,
    entries: Items<Entry<'s, A>, A>,
    query: &Query<A>,
    bound: Box<BoundQuery<A>, A>,
) -> Result<Bound<'s, A>, Failure<BindError>>
    ensures { Gives (λ b. bound_of b) result (spec.checked (entries_of entries.entry) (query_of query.now) (bound_query_of bound.value)) }
{
    match clause_error(entries.as_slice(), bound.group_by.as_slice(), query) {
        Some(fault) => Err(Failure::Error(fault)),
        None => ordered(alloc, entries, query, bound),
    }
}

// The query, or the first error after its entries but that of its left joins.
fn bind_checked<'s, A: Heap>(
    alloc: A,
    entries: Items<Entry<'s, A>, A>,
    query: &Query<A>,
) -> Result<Bound<'s, A>, Failure<BindError>>
    ensures { Gives (λ b. bound_of b) result (spec.bound_checked (query_of query.now) (entries_of entries.entry)) }
{
    match bind_query(alloc, entries.as_slice(), query) {
        Ok(bound) => checked(alloc, entries, query, bound),
        Err(failure) => Err(failure),
    }
}

// The first sign, CAST or aggregate in a condition, if there is one.
fn first_in<A: Heap>(condition: &BoundCondition<A>) -> Option<u32>
    ensures { result ≡ spec.first_in (option_map (λ b. bound_expr_of b.value) condition.now) }
{
    match condition {
        Some(condition) => first_fragile(condition),
        None => None,
    }
}

fn first_in_all<A: Heap>(conditions: &[BoundCondition<A>]) -> Option<u32>
    ensures { result ≡ least_of_all (map spec.first_in (map (λ o. option_map (λ b. bound_expr_of b.value) o) conditions.now)) }
{
    let mut known = None;
    for condition in conditions {
        known = least_of(known, first_in(condition));
    }
    known
}

// The first sign, CAST or aggregate in the ONs of left joins, which may not fault.
fn left_fault<A: Heap>(query: &BoundQuery<A>) -> Option<BindError>
    ensures { result ≡ spec.left_fault (bound_query_of query.now) }
{
    let ons = query.ons.as_slice();
    let inner = ons.len().saturating_sub(query.left_count);
    match first_in_all(&ons[inner..]) {
        Some(offset) => Some(BindError {
            code: Refusal::FeatureNotSupported,
            offset,
        }),
        None => None,
    }
}

// The query, unless a left join has an error.
fn lefts_checked<A: Heap>(bound: Bound<'_, A>) -> Result<Bound<'_, A>, Failure<BindError>>
    ensures { Gives (λ b. bound_of b) result (spec.lefts_checked (bound_of bound.entry)) }
{
    match left_fault(&bound.query) {
        Some(fault) => Err(Failure::Error(fault)),
        None => Ok(bound),
    }
}

fn bind_with<'s, A: Heap>(
    alloc: A,
    entries: Items<Entry<'s, A>, A>,
    query: &Query<A>,
) -> Result<Bound<'s, A>, Failure<BindError>>
    ensures { Gives (λ b. bound_of b) result (spec.bound_with (query_of query.now) (entries_of entries.entry)) }
{
    match bind_checked(alloc, entries, query) {
        Ok(bound) => lefts_checked(bound),
        Err(failure) => Err(failure),
    }
}

/// The query bound, or the first error: of the entries of FROM, of its columns as written, of its aggregates (42803),
/// of its types (42804), of the keys of ORDER BY (PostgreSQL: FROM Clause; Column References; Aggregate Expressions;
/// Sorting Rows), of what may fault in the ONs of left joins (0A000).
pub fn bind<'s, A: Heap>(
    alloc: A,
    catalog: &'s Catalog<A>,
    query: &'s Query<A>,
) -> Result<Bound<'s, A>, Failure<BindError>>
    ensures { Gives (λ b. bound_of b) result (spec.bound catalog.now (query_of query.now)) }
{
    match entries(alloc, catalog, query) {
        Ok(entries) => bind_with(alloc, entries, query),
        Err(failure) => Err(failure),
    }
}
