//! Names of entries, columns and tables; the empty text where there is none.

ghost use Rattle.std.specs.Prelude.{◌≡◌, ◌∷◌, map};
ghost use Rattle.plan_texts.specs.PlanTexts.{alias, column_name, item_at, or_nothing};
ghost use Rattle.plan_texts.specs.View.{plan_entry_of};
ghost use Rattle.plan_trees.specs.PlanTrees as spec;

use memory::{Heap, Text};
use plan_texts::{PlanEntry, PlanStep};

// The name of that number, from 1.
fn name<A: Heap>(names: &[Text<A>], number: u64) -> &str
    ensures { result.now ≡ or_nothing (item_at names.now number) }
{
    if number == 0 {
        return "";
    }
    match names.get((number - 1) as usize) {
        Some(name) => name.as_str(),
        None => "",
    }
}

/// The alias of an entry.
pub(crate) fn alias<A: Heap>(entries: &[PlanEntry<A>], entry: u64) -> &str
    ensures { result.now ≡ alias (map plan_entry_of entries.now) entry }
{
    if entry == 0 {
        return "";
    }
    match entries.get((entry - 1) as usize) {
        Some(found) => found.alias.as_str(),
        None => "",
    }
}

/// The name of a column of an entry.
pub(crate) fn column_name<A: Heap>(entries: &[PlanEntry<A>], entry: u64, column: u64) -> &str
    ensures { result.now ≡ column_name (map plan_entry_of entries.now) entry column }
{
    if entry == 0 {
        return "";
    }
    match entries.get((entry - 1) as usize) {
        Some(found) => name(found.columns.as_slice(), column),
        None => "",
    }
}

/// The name of the table of an entry.
pub(crate) fn table_name<'a>(tables: &[&'a str], entry: u64) -> &'a str
    ensures { result.now ≡ or_nothing (item_at (map (λ t. t.now) tables.now) entry) }
{
    if entry == 0 {
        return "";
    }
    match tables.get((entry - 1) as usize) {
        Some(name) => name,
        None => "",
    }
}

/// True where an entry of the steps has the alias.
pub(crate) fn has_alias<A: Heap>(entries: &[PlanEntry<A>], steps: &[PlanStep], name: &str) -> bool
    ensures { result ≡ spec.has_alias (map plan_entry_of entries.now) steps.now name.now }
{
    for step in steps {
        if name == alias(entries, step.step.entry) {
            return true;
        }
    }
    false
}

/// The same of a step and those before it.
pub(crate) fn is_alias_of<A: Heap>(
    entries: &[PlanEntry<A>],
    step: PlanStep,
    before: &[PlanStep],
    name: &str,
) -> bool
    ensures { result ≡ spec.has_alias (map plan_entry_of entries.now) (step ∷ before.now) name.now }
{
    name == alias(entries, step.step.entry) || has_alias(entries, before, name)
}
