//! The numbers of entries and columns, by name.

ghost use Rattle.std.specs.Prelude.{◌≡◌, map};
ghost use Rattle.plan_texts.specs.Reading as spec;
ghost use Rattle.plan_texts.specs.View.{plan_entry_of};

use crate::plan::PlanEntry;
use memory::{Heap, Text};

// The number of a name, from 1.
fn number_of<A: Heap>(names: &[Text<A>], name: &str) -> Option<u64>
    ensures { result ≡ spec.number_of names.now name.now }
{
    for (index, other) in names.iter().enumerate() {
        if name == other.as_str() {
            return Some(index as u64 + 1);
        }
    }
    None
}

/// The number of the entry with the alias, from 1.
pub fn entry_number<A: Heap>(entries: &[PlanEntry<A>], alias: &str) -> Option<u64>
    ensures { result ≡ spec.entry_at (map plan_entry_of entries.now) alias.now }
{
    for (index, entry) in entries.iter().enumerate() {
        if alias == entry.alias.as_str() {
            return Some(index as u64 + 1);
        }
    }
    None
}

/// The number of the entry's column of that name, from 1; the entry counts from 1.
pub fn column_number<A: Heap>(entries: &[PlanEntry<A>], entry: u64, name: &str) -> Option<u64>
    ensures { result ≡ spec.column_at (map plan_entry_of entries.now) entry name.now }
{
    if entry == 0 {
        return None;
    }
    match entries.get((entry - 1) as usize) {
        Some(found) => number_of(found.columns.as_slice(), name),
        None => None,
    }
}
