//! The columns that names resolve to.

ghost use Rattle.std.specs.Prelude.{◌≡◌, is_some, option_map};
ghost use Rattle.std.specs.List.{list_all};
ghost use Rattle.value.specs.Columns.{column_of, columns_of};
ghost use Rattle.row_objects.specs.ColumnNames.{are_columns, column_named, has_name, has_name_twice, is_qualified, column_index};

use memory::{Heap, Items, Text};
use value::Column;

/// The column of that name.
pub fn column_named<'c, A: Heap>(columns: &'c [Column<A>], name: &str) -> Option<&'c Column<A>>
    ensures { option_map (λ c. column_of c.now) result ≡ column_named name.now (columns_of columns.now) }
{
    for column in columns {
        if name == column.name.as_str() {
            return Some(column);
        }
    }
    None
}

/// The index of the column of that name.
pub fn column_index<A: Heap>(columns: &[Column<A>], name: &str) -> Option<usize>
    ensures { result ≡ column_index (columns_of columns.now) name.now }
{
    for (i, column) in columns.iter().enumerate() {
        if name == column.name.as_str() {
            return Some(i);
        }
    }
    None
}

/// True where the name before the dot, if there is one, is the table's.
pub fn is_qualified<A: Heap>(table: &str, qualifier: &Option<Text<A>>) -> bool
    ensures { result ≡ is_qualified table.now qualifier.now }
{
    match qualifier {
        None => true,
        Some(name) => name.as_str() == table,
    }
}

fn have_names<A: Heap>(columns: &[Column<A>], names: &[Text<A>]) -> bool
    ensures { result ≡ list_all (λ name. is_some (column_named name (columns_of columns.now))) names.now }
{
    for name in names {
        let Some(_) = column_named(columns, name.as_str()) else {
            return false;
        };
    }
    true
}

/// True where there is no list of names, or each is a column's.
pub fn are_columns<A: Heap>(columns: &[Column<A>], names: &Option<Items<Text<A>, A>>) -> bool
    ensures { result ≡ are_columns (columns_of columns.now) names.now }
{
    match names {
        None => true,
        Some(names) => have_names(columns, names.as_slice()),
    }
}

fn has_name<A: Heap>(columns: &[Column<A>], name: &str) -> bool
    ensures { result ≡ has_name name.now (columns_of columns.now) }
{
    for column in columns {
        if name == column.name.as_str() {
            return true;
        }
    }
    false
}

/// True where two of the columns have the same name.
pub fn has_name_twice<A: Heap>(columns: &[Column<A>]) -> bool
    ensures { result ≡ has_name_twice (columns_of columns.now) }
{
    for (i, column) in columns.iter().enumerate() {
        if has_name(&columns[i + 1..], column.name.as_str()) {
            return true;
        }
    }
    false
}
