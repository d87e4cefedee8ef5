//! The statistics that plans of a role's query are made with.

ghost use Rattle.std.specs.Prelude.{◌≡◌, ◌++◌, IfOk, OnOk, filter, length, map, option_map};
ghost use Rattle.std.specs.List.{flat_map};
ghost use Rattle.value.specs.Datum as value;
ghost use Rattle.expr.specs.Columns.{columns};
ghost use Rattle.expr.specs.NamedColumns.{condition_columns};
ghost use Rattle.expr.specs.View.{bound_expr_of, bound_query_of};
ghost use Rattle.row_objects.specs.View.{table_of};
ghost use Rattle.access.specs.Access.{sees};
ghost use Rattle.tuples.specs.Guards.{shows};
ghost use Rattle.tuples.specs.View.{guard_of};
ghost use Rattle.stats.specs.Statistics.{seen_stats};
ghost use Rattle.stats.specs.View.{stats_of};
ghost use Rattle.report.specs.Restricted.{columns_at};
ghost use Rattle.resolve.specs.EntryTables.{AreTables};
ghost use Rattle.resolve.specs.View.{bound_of};
ghost use Rattle.seen_tables.specs.Known.{AreKnown, Keeps};
ghost use Rattle.store.specs.Database.{rows_of};
ghost use Rattle.engine.specs.SeenStatistics as spec;
ghost use Rattle.engine.specs.SeenTables.{AreSeenIn};

use expr::{BoundCondition, BoundExpr, BoundQuery, ColumnId, movable_conjuncts, push_columns};
use memory::{Heap, Items};
use resolve::Bound;
use seen_tables::{RoleTable, Seen};
use stats::Stats;
use std::alloc::AllocError;
use store::Store;
use tuples::Guard;

// Adds the columns that conditions name.
fn push_all_columns<A: Heap>(
    known: &mut Items<ColumnId, A>,
    conditions: &[&BoundExpr<A>],
) -> Result<(), AllocError>
    ensures { OnOk result (known.new ≡ known.old ++ flat_map columns (map (λ e. bound_expr_of e.now) conditions.now)) }
{
    for condition in conditions {
        push_columns(known, *condition)?;
    }
    Ok(())
}

// Adds those of an ON, if there is one.
fn push_on_columns<A: Heap>(
    known: &mut Items<ColumnId, A>,
    on: &BoundCondition<A>,
) -> Result<(), AllocError>
    ensures { OnOk result (known.new ≡ known.old ++ condition_columns (option_map (λ b. bound_expr_of b.value) on.now)) }
{
    match on {
        Some(on) => push_columns(known, on),
        None => Ok(()),
    }
}

// Adds those of several ONs.
fn push_ons_columns<A: Heap>(
    known: &mut Items<ColumnId, A>,
    ons: &[BoundCondition<A>],
) -> Result<(), AllocError>
    ensures { OnOk result (known.new ≡ known.old ++ flat_map condition_columns (map (λ o. option_map (λ b. bound_expr_of b.value) o) ons.now)) }
{
    for on in ons {
        push_on_columns(known, on)?;
    }
    Ok(())
}

// The columns that the conditions name which plans of a query are made from.
fn planned_columns<A: Heap>(
    alloc: A,
    query: &BoundQuery<A>,
) -> Result<Items<ColumnId, A>, AllocError>
    ensures { IfOk result (λ planned. planned ≡ spec.planned_columns (bound_query_of query.now)) }
{
    let conjuncts = movable_conjuncts(alloc, query)?;
    let ons = query.ons.as_slice();
    let inner = ons.len().saturating_sub(query.left_count);
    let mut planned = Items::new(alloc);
    push_all_columns(&mut planned, &conjuncts)?;
    push_ons_columns(&mut planned, &ons[inner..])?;
    Ok(planned)
}

// Of some columns those of an entry.
fn columns_at<A: Heap>(
    alloc: A,
    entry: usize,
    ids: &[ColumnId],
) -> Result<Items<usize, A>, AllocError>
    ensures { IfOk result (λ columns. columns ≡ columns_at entry ids.now) }
{
    let mut columns = Items::new(alloc);
    for id in ids {
        if id.entry == entry {
            columns.push(id.column)?;
        }
    }
    Ok(columns)
}

// The statistics of the rows of a table that a guard shows to a role, restricted to some columns. They are kept, unless the guard
// shows no row.
fn guarded_statistics<A: Heap>(
    alloc: A,
    of: &RoleTable<'_, A>,
    columns: &[usize],
    seen: &mut Seen<A>,
) -> Result<Stats<A>, AllocError>
    requires { AreKnown of.now.role.now of.now.name.now (guard_of of.now.guard.now) of.now.rows.now.rows seen.old }
    ensures value { IfOk result (λ s. stats_of s ≡ seen_stats columns.now (length of.now.rows.now.columns) (filter (shows of.now.role.now (guard_of of.now.guard.now)) of.now.rows.now.rows)) }
    ensures kept { Keeps of.now.role.now of.now.name.now (guard_of of.now.guard.now) of.now.rows.now.rows seen.old seen.new }
{
    match of.guard {
        Guard::None => Stats::of_seen(alloc, of.rows, of.guard, of.role, columns),
        Guard::All | Guard::Expr(_) => seen.statistics(of, columns),
    }
}

/// Of each entry the statistics of the rows that the role sees, restricted to the columns that the conditions name which plans are
/// made from. What is not known of these rows is found out, and kept. It fails where memory runs out.
pub(crate) fn seen_statistics<A: Heap>(
    alloc: A,
    store: &Store<A>,
    role: &str,
    bound: &Bound<'_, A>,
    frame: &[Guard<A>],
    seen: &mut Seen<A>,
) -> Result<Items<Stats<A>, A>, AllocError>
    requires tables { AreTables store.now.catalog (bound_of bound.now).entries }
    requires shows { (row : value.Row) → map (λ g. shows role.now (guard_of g) row) frame.now ≡ map (λ e. sees store.now.catalog role.now (table_of e.table) row) bound.now.entries }
    requires seen { AreSeenIn store.now seen.old }
    ensures value { IfOk result (λ all. map (λ s. stats_of s) all ≡ spec.seen_statistics store.now.catalog (rows_of store.now) role.now (bound_of bound.now)) }
    ensures seen { AreSeenIn store.now seen.new }
{
    let planned = planned_columns(alloc, &bound.query)?;
    let ids = planned.as_slice();
    let entries = bound.entries.as_slice();
    let _catalog = store.catalog();
    let mut all = Items::new(alloc);
    for (number, entry) in entries.iter().enumerate() {
        let columns = columns_at(alloc, number, ids)?;
        let kept = columns.as_slice();
        let name = entry.table.name();
        let rows = store.contents_of(name);
        let guard = &frame[number];
        let of = RoleTable {
            role,
            name,
            rows,
            guard,
        };
        let one = guarded_statistics(alloc, &of, kept, seen)?;
        all.push(one)?;
    }
    Ok(all)
}
