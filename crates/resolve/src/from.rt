//! The entries of FROM.

ghost use Rattle.std.specs.Prelude.{◌≡◌, ◌++◌, OnOk, IfOk, [], Some, length, map};
ghost use Rattle.memory.specs.Gives.{Gives};
ghost use Rattle.row_ast.specs.View.{from_item_of, join_of, left_join_of, query_of, table_ref_of};
ghost use Rattle.row_objects.specs.View.{table_of};
ghost use Rattle.resolve.specs.Entries as spec;
ghost use Rattle.scope.specs.View.{entry_of, entries_of};
ghost use Rattle.resolve.specs.View.{joined_table_of};

use catalog::Catalog;
use memory::{Failure, Heap, Items};
use row_ast::{Condition, FromItem, Join, LeftJoin, Query, TableRef};
use row_objects::Table;
use scope::{BindError, Entry};
use std::alloc::AllocError;
use value::Refusal;

// A table of FROM.
#[derive(Clone, Copy)]
struct JoinedTable<'s, A: Heap> {
    table: &'s TableRef<A>,
    // The index of the first table of its comma item.
    first: usize,
    on: Option<&'s Condition<A>>,
}

fn joined_by<'s, A: Heap>(first: usize, join: &'s Join<A>) -> JoinedTable<'s, A>
    ensures { joined_table_of result ≡ spec.joined_by first (join_of join.now) }
{
    match join {
        Join::Inner { table, on } => JoinedTable {
            table,
            first,
            on: Some(on),
        },
        Join::Cross { table } => JoinedTable {
            table,
            first,
            on: None,
        },
    }
}

fn push_joins<'s, A: Heap>(
    tables: &mut Items<JoinedTable<'s, A>, A>,
    first: usize,
    joins: &'s [Join<A>],
) -> Result<(), AllocError>
    ensures { OnOk result (map (λ j. joined_table_of j) tables.new ≡ map (λ j. joined_table_of j) tables.old ++ map (spec.joined_by first) (map (λ j. join_of j) joins.now)) }
{
    for join in joins {
        tables.push(joined_by(first, join))?;
    }
    Ok(())
}

fn push_item<'s, A: Heap>(
    tables: &mut Items<JoinedTable<'s, A>, A>,
    item: &'s FromItem<A>,
) -> Result<(), AllocError>
    ensures { OnOk result (map (λ j. joined_table_of j) tables.new ≡ map (λ j. joined_table_of j) tables.old ++ spec.item_tables (length tables.old) (from_item_of item.now)) }
{
    let first = tables.len();
    tables.push(JoinedTable {
        table: &item.first,
        first,
        on: None,
    })?;
    push_joins(tables, first, item.joins.as_slice())?;
    Ok(())
}

// The tables of comma items, in written order.
fn joined<'s, A: Heap>(
    alloc: A,
    from: &'s [FromItem<A>],
) -> Result<Items<JoinedTable<'s, A>, A>, AllocError>
    ensures { IfOk result (λ tables. map (λ j. joined_table_of j) tables ≡ spec.joined 0 (map (λ f. from_item_of f) from.now)) }
{
    let mut tables = Items::new(alloc);
    for item in from {
        push_item(&mut tables, item)?;
    }
    Ok(tables)
}

// The index of the first table of the last comma item, of which these are the tables.
fn last_first<A: Heap>(tables: &[JoinedTable<'_, A>]) -> usize
    ensures { result ≡ spec.first_of_last (map (λ j. joined_table_of j) tables.now) }
{
    match tables.last() {
        Some(last) => last.first,
        None => 0,
    }
}

fn left_table<'s, A: Heap>(first: usize, left_join: &'s LeftJoin<A>) -> JoinedTable<'s, A>
    ensures { joined_table_of result ≡ spec.left_table first (left_join_of left_join.now) }
{
    JoinedTable {
        table: &left_join.table,
        first,
        on: Some(&left_join.on),
    }
}

fn push_lefts<'s, A: Heap>(
    tables: &mut Items<JoinedTable<'s, A>, A>,
    first: usize,
    lefts: &'s [LeftJoin<A>],
) -> Result<(), AllocError>
    ensures { OnOk result (map (λ j. joined_table_of j) tables.new ≡ map (λ j. joined_table_of j) tables.old ++ map (spec.left_table first) (map (λ l. left_join_of l) lefts.now)) }
{
    for left_join in lefts {
        tables.push(left_table(first, left_join))?;
    }
    Ok(())
}

// The tables of comma items, and then those of left joins.
fn tables_of<'s, A: Heap>(
    alloc: A,
    query: &'s Query<A>,
) -> Result<Items<JoinedTable<'s, A>, A>, AllocError>
    ensures { IfOk result (λ tables. map (λ j. joined_table_of j) tables ≡ spec.tables_of (query_of query.now)) }
{
    let mut tables = joined(alloc, query.from.as_slice())?;
    let first = last_first(tables.as_slice());
    push_lefts(&mut tables, first, query.lefts.as_slice())?;
    Ok(tables)
}

fn alias_of<A: Heap>(table: &TableRef<A>) -> &str
    ensures { result.now ≡ spec.alias_of (table_ref_of table.now) }
{
    match &table.alias {
        Some(alias) => alias.as_str(),
        None => table.table.as_str(),
    }
}

fn is_used<A: Heap>(entries: &[Entry<'_, A>], alias: &str) -> bool
    ensures { result ≡ spec.is_used alias.now (entries_of entries.now) }
{
    for entry in entries {
        if entry.alias == alias {
            return true;
        }
    }
    false
}

fn found_entry<'s, A: Heap>(
    before: &[Entry<'s, A>],
    joined: &JoinedTable<'s, A>,
    table: Table<'s, A>,
) -> Result<Entry<'s, A>, Failure<BindError>>
    ensures { Gives (λ e. entry_of e) result (spec.found_entry (entries_of before.now) (joined_table_of joined.now) (Some (table_of table.entry))) }
{
    let alias = alias_of(joined.table);
    if is_used(before, alias) {
        return Err(Failure::Error(BindError {
            code: Refusal::DuplicateAlias,
            offset: joined.table.offset,
        }));
    }
    Ok(Entry {
        table,
        alias,
        first: joined.first,
        on: joined.on,
    })
}

fn entry_in<'s, A: Heap>(
    catalog: &'s Catalog<A>,
    before: &[Entry<'s, A>],
    joined: &JoinedTable<'s, A>,
) -> Result<Entry<'s, A>, Failure<BindError>>
    ensures { Gives (λ e. entry_of e) result (spec.entry_in catalog.now (entries_of before.now) (joined_table_of joined.now)) }
{
    match catalog.table(joined.table.table.as_str()) {
        Some(table) => found_entry(before, joined, table),
        None => Err(Failure::Error(BindError {
            code: Refusal::UndefinedTable,
            offset: joined.table.offset,
        })),
    }
}

fn entries_in<'s, A: Heap>(
    alloc: A,
    catalog: &'s Catalog<A>,
    tables: &[JoinedTable<'s, A>],
) -> Result<Items<Entry<'s, A>, A>, Failure<BindError>>
    ensures { Gives (λ entries. entries_of entries) result (spec.entries_in catalog.now [] (map (λ j. joined_table_of j) tables.now)) }
{
    let mut entries = Items::new(alloc);
    for joined in tables {
        match entry_in(catalog, entries.as_slice(), joined) {
            Ok(entry) => entries.push(entry)?,
            Err(failure) => return Err(failure),
        }
    }
    Ok(entries)
}

/// The entries of FROM, or the first error: a table that is not there, or an alias that an earlier entry has.
pub fn entries<'s, A: Heap>(
    alloc: A,
    catalog: &'s Catalog<A>,
    query: &'s Query<A>,
) -> Result<Items<Entry<'s, A>, A>, Failure<BindError>>
    ensures { Gives (λ entries. entries_of entries) result (spec.entries catalog.now (query_of query.now)) }
{
    let tables = tables_of(alloc, query)?;
    entries_in(alloc, catalog, tables.as_slice())
}
