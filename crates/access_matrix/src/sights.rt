//! What a role reads of a table by its name.

ghost use Rattle.std.specs.Prelude.{◌≡◌, [], IfOk};
ghost use Rattle.catalog.specs.Reached.{AreMarksOf};
ghost use Rattle.access_matrix.specs.Sights.{IsSight};

use crate::reading::{read_columns, rows_read};
use catalog::RoleMarks;
use columns::Mask;
use memory::{Heap, Items};
use std::alloc::AllocError;
use store::Store;

/// The rows and columns of a table that a role reads.
#[derive(Drop)]
pub(crate) struct Sight<'s, A: Heap> {
    /// Of each row whether the role reads something of it; no mark where it reads nothing of any.
    pub rows: Mask<A>,
    /// The names of the columns.
    pub columns: Items<&'s str, A>,
}

// No rows and no columns.
fn nothing<'s, A: Heap>(alloc: A) -> Sight<'s, A>
    ensures rows { result.rows ≡ [] }
    ensures columns { result.columns ≡ [] }
{
    Sight {
        rows: Mask::new(alloc),
        columns: Items::new(alloc),
    }
}

/// What a role reads of a table of a store: nothing where the role or the table is not there.
pub(crate) fn sight_of<'s, A: Heap>(
    alloc: A,
    store: &'s Store<A>,
    marks: &RoleMarks,
    role: &str,
    table: &str,
) -> Result<Sight<'s, A>, AllocError>
    requires { AreMarksOf store.now.catalog role.now marks.now }
    ensures { IfOk result (λ s. IsSight store.now role.now table.now s) }
{
    let catalog = store.catalog();
    if !catalog.is_role(role) {
        return Ok(nothing(alloc));
    }
    match catalog.table(table) {
        Some(found) => Ok(Sight {
            rows: rows_read(alloc, store, marks, role, found)?,
            columns: read_columns(alloc, catalog, marks, role, found)?,
        }),
        None => Ok(nothing(alloc)),
    }
}
