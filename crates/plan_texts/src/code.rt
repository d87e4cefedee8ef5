//! The lines of a plan's code.

ghost use Rattle.std.specs.Prelude.{◌≡◌, ◌&&◌, if◌then◌else◌, codes, Some, None, map, option_map, option_and_then};
ghost use Rattle.value.specs.Numbers.{number_at};
ghost use Rattle.plan_texts.specs.Reading as spec;
ghost use Rattle.plan_texts.specs.View.{plan_entry_of, texts_of};

use crate::names::{column_number, entry_number};
use crate::plan::PlanEntry;
use expr::{Access, CodeStep, Method};
use memory::Heap;
use value::read_number;

// All rows of an entry.
fn read_full(word: &str) -> Option<Access>
    ensures { result ≡ if spec.is_word (codes "full") word.now then Some Access.Full else None }
{
    if word == "full" {
        Some(Access::Full)
    } else {
        None
    }
}

// The rows of an entry by the index on a column.
fn read_index<A: Heap>(
    entries: &[PlanEntry<A>],
    entry: u64,
    word: &str,
    name: &str,
) -> Option<Access>
    ensures { result ≡ if spec.is_word (codes "index") word.now then option_map (λ c. Access.Index c) (spec.column_at (map plan_entry_of entries.now) entry name.now) else None }
{
    if word != "index" {
        return None;
    }
    let column = column_number(entries, entry, name)?;
    Some(Access::Index { column })
}

// The rows of an entry by the part of an index that a conjunct bounds.
fn read_range<A: Heap>(
    entries: &[PlanEntry<A>],
    entry: u64,
    name: &str,
    bound: &str,
) -> Option<Access>
    ensures { result ≡ option_and_then (λ c. option_map (λ k. Access.Range c k) (number_at bound.now)) (spec.column_at (map plan_entry_of entries.now) entry name.now) }
{
    let column = column_number(entries, entry, name)?;
    let bound = read_number(bound)?;
    Some(Access::Range { column, bound })
}

// The same with its words.
fn read_bounded<A: Heap>(
    entries: &[PlanEntry<A>],
    entry: u64,
    word: &str,
    name: &str,
    by: &str,
    bound: &str,
) -> Option<Access>
    ensures { result ≡ if spec.is_word (codes "index") word.now && spec.is_word (codes "by") by.now then option_and_then (λ c. option_map (λ k. Access.Range c k) (number_at bound.now)) (spec.column_at (map plan_entry_of entries.now) entry name.now) else None }
{
    if word == "index" && by == "by" {
        read_range(entries, entry, name, bound)
    } else {
        None
    }
}

// The access to an entry.
fn read_access<A: Heap>(entries: &[PlanEntry<A>], entry: u64, parts: &[&str]) -> Option<Access>
    ensures { result ≡ spec.access_at (map plan_entry_of entries.now) entry (texts_of parts.now) }
{
    match parts {
        [word] => read_full(word),
        [word, name] => read_index(entries, entry, word, name),
        [word, name, by, bound] => read_bounded(entries, entry, word, name, by, bound),
        _ => None,
    }
}

/// A step with a method, by its alias and access.
pub fn read_scan<A: Heap>(
    entries: &[PlanEntry<A>],
    method: Method,
    parts: &[&str],
) -> Option<CodeStep>
    ensures { result ≡ spec.scan_at (map plan_entry_of entries.now) method (texts_of parts.now) }
{
    let (alias, access) = parts.split_first()?;
    let entry = entry_number(entries, alias)?;
    let access = read_access(entries, entry, access)?;
    Some(CodeStep {
        entry,
        access,
        method,
    })
}

/// A step that is joined by a hash table.
pub fn read_hash<A: Heap>(entries: &[PlanEntry<A>], parts: &[&str]) -> Option<CodeStep>
    ensures { result ≡ spec.by_conjunct (map plan_entry_of entries.now) (λ k. Method.Hash k) (texts_of parts.now) }
{
    let (conjunct, scan) = parts.split_first()?;
    let conjunct = read_number(conjunct)?;
    read_scan(entries, Method::Hash { conjunct }, scan)
}

/// A step that is joined by merging.
pub fn read_merge<A: Heap>(entries: &[PlanEntry<A>], parts: &[&str]) -> Option<CodeStep>
    ensures { result ≡ spec.by_conjunct (map plan_entry_of entries.now) (λ k. Method.Merge k) (texts_of parts.now) }
{
    let (conjunct, scan) = parts.split_first()?;
    let conjunct = read_number(conjunct)?;
    read_scan(entries, Method::Merge { conjunct }, scan)
}

/// The step of a left join, which is nested or by a hash table.
pub fn read_left<A: Heap>(entries: &[PlanEntry<A>], parts: &[&str]) -> Option<CodeStep>
    ensures { result ≡ spec.left_step (map plan_entry_of entries.now) (texts_of parts.now) }
{
    let (word, more) = parts.split_first()?;
    if *word == "nested" {
        read_scan(entries, Method::Nested, more)
    } else if *word == "hash" {
        read_hash(entries, more)
    } else {
        None
    }
}
