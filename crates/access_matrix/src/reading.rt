//! What a role reads of a table of a store.

ghost use Rattle.std.specs.Prelude.{◌≡◌, ◌≤◌, ℕ, Some, IfOk, false, filter, get_or, length, map, slice_get, true};
ghost use Rattle.row_objects.specs.View.{table_of};
ghost use Rattle.catalog.specs.Catalog.{is_table};
ghost use Rattle.catalog.specs.Reached.{AreMarksOf};
ghost use Rattle.store.specs.Database.{rows_of};
ghost use Rattle.access_matrix.specs.Reading as spec;

use access::{RequiredPrivilege, guard_with, is_granted_by};
use catalog::{Catalog, RoleMarks};
use columns::Mask;
use lane_filters::seen_rows;
use memory::{Heap, Items};
use row_objects::Table;
use std::alloc::AllocError;
use store::Store;

/// The names of the columns on which a role has SELECT, in order.
pub(crate) fn read_columns<'s, A: Heap>(
    alloc: A,
    catalog: &Catalog<A>,
    marks: &RoleMarks,
    role: &str,
    table: Table<'s, A>,
) -> Result<Items<&'s str, A>, AllocError>
    requires { AreMarksOf catalog.now role.now marks.now }
    ensures { IfOk result (λ names. map (λ n. n.now) names ≡ spec.read_columns catalog.now role.now (table_of table.entry)) }
{
    let mut names = Items::new(alloc);
    let columns = table.columns();
    for column in columns {
        let privilege = RequiredPrivilege {
            table,
            column: Some(&column.name),
        };
        if is_granted_by(catalog, marks, role, privilege) {
            names.push(column.name.as_str())?;
        }
    }
    Ok(names)
}

/// Of each row of a table of the store whether a role reads something of it; no mark where it has SELECT on no part of the table.
pub(crate) fn rows_read<A: Heap>(
    alloc: A,
    store: &Store<A>,
    marks: &RoleMarks,
    role: &str,
    table: Table<'_, A>,
) -> Result<Mask<A>, AllocError>
    requires marks { AreMarksOf store.now.catalog role.now marks.now }
    requires there { is_table store.now.catalog (table_of table).name ≡ true }
    ensures within { IfOk result (λ m. length m ≤ length (rows_of store.now (table_of table.entry).name)) }
    ensures counted { IfOk result (λ m. length (filter (λ b. b) m) ≡ length (filter (spec.reads store.now.catalog role.now (table_of table.entry)) (rows_of store.now (table_of table.entry).name))) }
    ensures each { IfOk result (λ m. (number : ℕ) → get_or m number false ≡ spec.reads_of store.now.catalog role.now (Some (table_of table.entry)) (slice_get (rows_of store.now (table_of table.entry).name) number)) }
{
    let privilege = RequiredPrivilege {
        table,
        column: None,
    };
    let catalog = store.catalog();
    if !is_granted_by(catalog, marks, role, privilege) {
        return Ok(Mask::new(alloc));
    }
    let guard = guard_with(alloc, catalog, marks, role, table)?;
    seen_rows(alloc, store.contents_of(table.name()), &guard, role)
}
