//! What plans of a role's query are made from.

ghost use Rattle.std.specs.Prelude.{◌≡◌, ◌+◌, IfOk, map};
ghost use Rattle.value.specs.Datum as value;
ghost use Rattle.row_objects.specs.View.{index_of, table_of};
ghost use Rattle.scope.specs.View.{entries_of};
ghost use Rattle.access.specs.Access.{sees};
ghost use Rattle.tuples.specs.Guards.{shows};
ghost use Rattle.tuples.specs.View.{guard_of};
ghost use Rattle.resolve.specs.View.{bound_of};
ghost use Rattle.algebra.specs.PlanningList.{planning_list, remaining_lefts};
ghost use Rattle.trailcheck.specs.View.{setting_of};
ghost use Rattle.store.specs.Derived.{indexed_columns};
ghost use Rattle.engine.specs.Settings as spec;

use access::frame;
use catalog::Catalog;
use expr::MovableExpr;
use memory::{Heap, Items};
use planning::{Simplified, simplify};
use resolve::Bound;
use row_objects::Index;
use scope::Entry;
use std::alloc::AllocError;
use store::column_number;
use trailcheck::Setting;

// The columns of indexes, by their numbers.
fn indexed_columns<A: Heap>(alloc: A, indexes: &[Index<A>]) -> Result<Items<u64, A>, AllocError>
    ensures { IfOk result (λ columns. columns ≡ indexed_columns (map (λ i. index_of i) indexes.now)) }
{
    let mut columns = Items::new(alloc);
    for index in indexes {
        columns.push(column_number(index.column))?;
    }
    Ok(columns)
}

// Of each entry, the columns that have an index.
fn indexed<A: Heap>(
    alloc: A,
    entries: &[Entry<'_, A>],
) -> Result<Items<Items<u64, A>, A>, AllocError>
    ensures { IfOk result (λ indexed. indexed ≡ spec.indexed (entries_of entries.now)) }
{
    let mut indexed = Items::new(alloc);
    for entry in entries {
        indexed.push(indexed_columns(alloc, entry.table.indexes())?)?;
    }
    Ok(indexed)
}

/// The guards of the entries for the role, which show exactly the rows that it sees, the indexes of their tables, and what the
/// query is planned with, which is given.
pub(crate) fn setting_with<A: Heap>(
    alloc: A,
    catalog: &Catalog<A>,
    role: &str,
    bound: &Bound<'_, A>,
    conditions: Items<MovableExpr<A>, A>,
    lefts: Items<MovableExpr<A>, A>,
) -> Result<Setting<A>, AllocError>
    requires conditions { conditions ≡ planning_list (bound_of bound.now).query }
    requires lefts { lefts ≡ remaining_lefts (bound_of bound.now).query }
    ensures value { IfOk result (λ s. setting_of s ≡ spec.setting catalog.now role.now (bound_of bound.now)) }
    ensures shows { IfOk result (λ s. (row : value.Row) → map (λ g. shows role.now (guard_of g) row) s.frame ≡ map (λ e. sees catalog.now role.now (table_of e.table) row) bound.now.entries) }
{
    let entries = bound.entries.as_slice();
    Ok(Setting {
        frame: frame(alloc, catalog, role, entries)?,
        indexed: indexed(alloc, entries)?,
        conditions,
        lefts,
    })
}

/// The same with what the query is planned with.
pub(crate) fn setting<A: Heap>(
    alloc: A,
    catalog: &Catalog<A>,
    role: &str,
    bound: &Bound<'_, A>,
) -> Result<Setting<A>, AllocError>
    ensures value { IfOk result (λ s. setting_of s ≡ spec.setting catalog.now role.now (bound_of bound.now)) }
    ensures shows { IfOk result (λ s. (row : value.Row) → map (λ g. shows role.now (guard_of g) row) s.frame ≡ map (λ e. sees catalog.now role.now (table_of e.table) row) bound.now.entries) }
{
    let Simplified {
        conditions,
        lefts,
        ..
    } = simplify(alloc, &bound.query)?;
    setting_with(alloc, catalog, role, bound, conditions, lefts)
}
