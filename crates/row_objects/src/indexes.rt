//! The indexes of tables.

ghost use Rattle.std.specs.Prelude.{◌≡◌, IfOk, map, option_map};
ghost use Rattle.value.specs.Columns.{columns_of};
ghost use Rattle.row_objects.specs.Indexes as spec;
ghost use Rattle.row_objects.specs.Indexes.{any_index, has_index, is_indexed};
ghost use Rattle.row_objects.specs.View.{index_of, table_entry};

use crate::by_name::ByName;
use crate::names::column_index;
use crate::objects::{Index, TableDef};
use memory::{Heap, Text};
use std::alloc::AllocError;
use value::Column;

fn has_index<A: Heap>(indexes: &[Index<A>], name: &str) -> bool
    ensures { result ≡ has_index name.now (map (λ i. index_of i) indexes.now) }
{
    for index in indexes {
        if name == index.name.as_str() {
            return true;
        }
    }
    false
}

/// True where one of the tables has an index of that name.
pub fn any_index<A: Heap>(tables: &ByName<TableDef<A>, A>, name: &str) -> bool
    ensures { result ≡ any_index name.now (map (λ t. table_entry t) tables.now) }
{
    for index in 0..tables.len() {
        if has_index(tables.at(index).indexes.as_slice(), name) {
            return true;
        }
    }
    false
}

/// True where the column has an index.
pub fn is_indexed<A: Heap>(indexes: &[Index<A>], column: usize) -> bool
    ensures { result ≡ is_indexed column (map (λ i. index_of i) indexes.now) }
{
    for index in indexes {
        if index.column == column {
            return true;
        }
    }
    false
}

/// The index, if its column is among the columns.
pub fn new_index<A: Heap>(
    alloc: A,
    name: &str,
    column: &str,
    columns: &[Column<A>],
) -> Result<Option<Index<A>>, AllocError>
    ensures { IfOk result (λ made. option_map (λ i. index_of i) made ≡ spec.new_index name.now column.now (columns_of columns.now)) }
{
    let Some(column) = column_index(columns, column) else {
        return Ok(None);
    };
    let name = Text::new(alloc, name)?;
    Ok(Some(Index { name, column }))
}
