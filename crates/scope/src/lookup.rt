//! The column that a name resolves to.

ghost use Rattle.std.specs.Prelude.{◌≡◌, ◌+◌, ◌<◌};
ghost use Rattle.row_ast.specs.View.{column_ref_of};
ghost use Rattle.scope.specs.View.{entry_of, entries_of};
ghost use Rattle.scope.specs.Lookup as spec;

use crate::entry::Entry;
use crate::error::BindError;
use expr::ColumnId;
use memory::Heap;
use row_ast::ColumnRef;
use row_objects::{column_index, is_qualified};
use value::Refusal;

/// The entries from one index up to another, without that.
#[derive(Clone, Copy, Debug, PartialEq, Eq)]
pub struct Scope {
    /// The first entry.
    pub from: usize,
    /// One more than the last.
    pub to: usize,
}

/// The scope of items, WHERE, GROUP BY and HAVING: every entry.
pub fn everywhere<A: Heap>(entries: &[Entry<'_, A>]) -> Scope
    ensures { result ≡ spec.everywhere (entries_of entries.now) }
{
    Scope {
        from: 0,
        to: entries.len(),
    }
}

/// The scope of the ON of an entry: from the first entry of its comma item to the entry itself.
pub fn on_scope<A: Heap>(number: usize, entry: &Entry<'_, A>) -> Scope
    requires { number + 1 < 18446744073709551616 }
    ensures { result ≡ spec.on_scope number (entry_of entry.now) }
{
    Scope {
        from: entry.first,
        to: number + 1,
    }
}

fn is_within(scope: Scope, entry: usize) -> bool
    ensures { result ≡ spec.is_within scope entry }
{
    entry >= scope.from && entry < scope.to
}

// True where the entry of a number is in scope, and the name before the dot, if there is one, is its alias.
fn is_meant<A: Heap>(
    scope: Scope,
    column: &ColumnRef<A>,
    number: usize,
    entry: &Entry<'_, A>,
) -> bool
    ensures { result ≡ spec.is_meant scope (column_ref_of column.now) number (entry_of entry.now) }
{
    is_within(scope, number) && is_qualified(entry.alias, &column.table)
}

// The column of that name of an entry that is meant.
fn match_in<A: Heap>(
    scope: Scope,
    column: &ColumnRef<A>,
    number: usize,
    entry: &Entry<'_, A>,
) -> Option<ColumnId>
    ensures { result ≡ spec.match_in scope (column_ref_of column.now) number (entry_of entry.now) }
{
    if !is_meant(scope, column, number, entry) {
        return None;
    }
    match column_index(entry.table.columns(), column.name.as_str()) {
        Some(column) => Some(ColumnId {
            entry: number,
            column,
        }),
        None => None,
    }
}

/// The column that a name resolves to, among the entries in scope: the one that matches. Else 42P01 where no entry is
/// meant, 42703 where none that is meant has such a column, and 42702 where several columns match.
pub fn find_column<A: Heap>(
    entries: &[Entry<'_, A>],
    scope: Scope,
    column: &ColumnRef<A>,
) -> Result<ColumnId, BindError>
    ensures { result ≡ spec.find_column (entries_of entries.now) scope (column_ref_of column.now) }
{
    let offset = column.offset;
    let mut found = None;
    let mut is_named = false;
    for (number, entry) in entries.iter().enumerate() {
        is_named = is_named || is_meant(scope, column, number, entry);
        let next = match_in(scope, column, number, entry);
        if found.is_some() && next.is_some() {
            let code = Refusal::AmbiguousColumn;
            return Err(BindError { code, offset });
        }
        found = found.or(next);
    }
    let code = match found {
        Some(id) => return Ok(id),
        None if is_named => Refusal::UndefinedColumn,
        None => Refusal::UndefinedTable,
    };
    Err(BindError { code, offset })
}
