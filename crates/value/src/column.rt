//! The columns of tables.

ghost use Rattle.std.specs.Prelude.{◌≡◌, IfOk};
ghost use Rattle.value.specs.Columns.{column_of, columns_of};

use crate::types::ColType;
use memory::{Heap, Items, Text};
use std::alloc::AllocError;

/// A column of a table (PostgreSQL: CREATE TABLE).
#[derive(Drop)]
pub struct Column<A: Heap> {
    /// Its name, as in the header of a CSV text.
    pub name: Text<A>,
    /// The type of its values.
    pub data_type: ColType,
    /// True for `NOT NULL`: no row may be null there.
    pub not_null: bool,
}

fn copy_column<A: Heap>(alloc: A, column: &Column<A>) -> Result<Column<A>, AllocError>
    ensures { IfOk result (λ copy. column_of copy ≡ column_of column.now) }
{
    Ok(Column {
        name: Text::new(alloc, column.name.as_str())?,
        data_type: column.data_type,
        not_null: column.not_null,
    })
}

/// A copy of columns.
pub fn copy_columns<A: Heap>(
    alloc: A,
    columns: &[Column<A>],
) -> Result<Items<Column<A>, A>, AllocError>
    ensures { IfOk result (λ copy. columns_of copy ≡ columns_of columns.now) }
{
    let mut copy = Items::new(alloc);
    for column in columns {
        copy.push(copy_column(alloc, column)?)?;
    }
    Ok(copy)
}
