//! The entries of a query, as its plans name them.

ghost use Rattle.std.specs.Prelude.{◌≡◌, IfOk, map};
ghost use Rattle.value.specs.Columns.{columns_of};
ghost use Rattle.scope.specs.View.{entries_of};
ghost use Rattle.plan_texts.specs.View.{plan_entry_of};
ghost use Rattle.bound_plans.specs.Entries as spec;

use memory::{Heap, Items, Text};
use plan_texts::PlanEntry;
use scope::Entry;
use std::alloc::AllocError;
use value::Column;

fn column_names<A: Heap>(alloc: A, columns: &[Column<A>]) -> Result<Items<Text<A>, A>, AllocError>
    ensures { IfOk result (λ names. names ≡ spec.column_names (columns_of columns.now)) }
{
    let mut names = Items::new(alloc);
    for column in columns {
        names.push(Text::new(alloc, column.name.as_str())?)?;
    }
    Ok(names)
}

/// The entries of a query, as its plans name them: the alias of each, and the names of its table's columns.
pub fn plan_entries<A: Heap>(
    alloc: A,
    entries: &[Entry<'_, A>],
) -> Result<Items<PlanEntry<A>, A>, AllocError>
    ensures { IfOk result (λ named. map plan_entry_of named ≡ spec.plan_entries (entries_of entries.now)) }
{
    let mut named = Items::new(alloc);
    for entry in entries {
        named.push(PlanEntry {
            alias: Text::new(alloc, entry.alias)?,
            columns: column_names(alloc, entry.table.columns())?,
        })?;
    }
    Ok(named)
}
