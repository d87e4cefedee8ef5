//! New tables.

ghost use Rattle.std.specs.Prelude.{◌≡◌, IfOk, List, ℕ};
ghost use Rattle.value.specs.Columns.{columns_of};
ghost use Rattle.row_objects.specs.TableDefs.{new_table};
ghost use Rattle.row_objects.specs.View.{table_entry};

use crate::objects::TableDef;
use memory::{Heap, Items, Text};
use std::alloc::AllocError;
use value::{Column, copy_columns};

/// A new table, which its creator owns.
pub fn new_table<A: Heap>(
    alloc: A,
    actor: &str,
    columns: &[Column<A>],
) -> Result<TableDef<A>, AllocError>
    ensures { IfOk result (λ t. (name : List ℕ) → table_entry (name, t) ≡ new_table actor.now name (columns_of columns.now)) }
{
    let columns = copy_columns(alloc, columns)?;
    let owner = Text::new(alloc, actor)?;
    Ok(TableDef {
        columns,
        owner,
        row_security: false,
        forced: false,
        policies: Items::new(alloc),
        grants: Items::new(alloc),
        indexes: Items::new(alloc),
    })
}
