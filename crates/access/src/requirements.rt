//! The privileges that a query needs.

ghost use Rattle.std.specs.Prelude.{◌≡◌, ◌++◌, OnOk, IfOk, option_map, option_to_list, slice_get};
ghost use Rattle.std.specs.List.{list_any};
ghost use Rattle.access.specs.Access.{denial};
ghost use Rattle.access.specs.View.{privilege_of, privileges_of};
ghost use Rattle.expr.specs.View.{bound_query_of};
ghost use Rattle.scope.specs.View.{entry_of, entries_of};
ghost use Rattle.access.specs.Needed as spec;

use crate::mentions::{Mention, mentions};
use crate::once::each_once;
use crate::privileges::{RequiredPrivilege, denied};
use catalog::Catalog;
use expr::BoundQuery;
use memory::{Heap, Items};
use scope::Entry;
use std::alloc::AllocError;

fn is_column_of(mention: Mention, entry: usize) -> bool
    ensures { result ≡ spec.is_column_of entry mention }
{
    match mention {
        Mention::From { .. } => false,
        Mention::Column { id } => id.entry == entry,
    }
}

fn is_named(mentions: &[Mention], entry: usize) -> bool
    ensures { result ≡ list_any (spec.is_column_of entry) mentions.now }
{
    for mention in mentions {
        if is_column_of(*mention, entry) {
            return true;
        }
    }
    false
}

fn on_column<'s, A: Heap>(entry: &Entry<'s, A>, column: usize) -> Option<RequiredPrivilege<'s, A>>
    ensures { option_map (λ p. privilege_of p) result ≡ spec.on_column column (entry_of entry.now) }
{
    match entry.table.columns().get(column) {
        Some(column) => Some(RequiredPrivilege {
            table: entry.table,
            column: Some(&column.name),
        }),
        None => None,
    }
}

fn entry_at<'a, 's, A: Heap>(entries: &'a [Entry<'s, A>], number: usize) -> Option<&'a Entry<'s, A>>
    ensures { option_map (λ e. entry_of e.now) result ≡ slice_get (entries_of entries.now) number }
{
    entries.get(number)
}

fn required_by<'s, A: Heap>(
    entries: &[Entry<'s, A>],
    mentions: &[Mention],
    mention: Mention,
) -> Option<RequiredPrivilege<'s, A>>
    ensures { option_map (λ p. privilege_of p) result ≡ spec.required_by (entries_of entries.now) mentions.now mention }
{
    match mention {
        Mention::From { entry } => {
            if is_named(mentions, entry) {
                return None;
            }
            match entry_at(entries, entry) {
                Some(entry) => Some(RequiredPrivilege {
                    table: entry.table,
                    column: None,
                }),
                None => None,
            }
        }
        Mention::Column { id } => match entry_at(entries, id.entry) {
            Some(entry) => on_column(entry, id.column),
            None => None,
        },
    }
}

fn push_required<'s, A: Heap>(
    required: &mut Items<RequiredPrivilege<'s, A>, A>,
    privilege: Option<RequiredPrivilege<'s, A>>,
) -> Result<(), AllocError>
    ensures { OnOk result (privileges_of required.new ≡ privileges_of required.old ++ option_to_list (option_map (λ p. privilege_of p) privilege.entry)) }
{
    match privilege {
        Some(privilege) => {
            required.push(privilege)?;
            Ok(())
        }
        None => Ok(()),
    }
}

fn required<'s, A: Heap>(
    alloc: A,
    entries: &[Entry<'s, A>],
    mentions: &[Mention],
) -> Result<Items<RequiredPrivilege<'s, A>, A>, AllocError>
    ensures { IfOk result (λ required. privileges_of required ≡ spec.required (entries_of entries.now) mentions.now) }
{
    let mut required = Items::new(alloc);
    for mention in mentions {
        push_required(&mut required, required_by(entries, mentions, *mention))?;
    }
    Ok(required)
}

/// The privileges that a query needs, in written order: of each column that it names SELECT on the column, at a `*` on
/// all columns of all entries, and at an entry of which no column is named on any part of its table.
pub fn needed<'s, A: Heap>(
    alloc: A,
    entries: &[Entry<'s, A>],
    query: &BoundQuery<A>,
) -> Result<Items<RequiredPrivilege<'s, A>, A>, AllocError>
    ensures { IfOk result (λ required. privileges_of required ≡ spec.needed (entries_of entries.now) (bound_query_of query.now)) }
{
    let mentions = mentions(alloc, query)?;
    required(alloc, entries, mentions.as_slice())
}

/// The first privilege that a query needs and the role lacks. A column is looked up once, however often it is named.
pub fn missing<'s, A: Heap>(
    alloc: A,
    catalog: &Catalog<A>,
    role: &str,
    entries: &[Entry<'s, A>],
    query: &BoundQuery<A>,
) -> Result<Option<RequiredPrivilege<'s, A>>, AllocError>
    ensures { IfOk result (λ missing. option_map (λ p. privilege_of p) missing ≡ denial catalog.now role.now (spec.needed (entries_of entries.now) (bound_query_of query.now))) }
{
    let mentions = mentions(alloc, query)?;
    let once = each_once(alloc, mentions.as_slice())?;
    let required = required(alloc, entries, once.as_slice())?;
    Ok(denied(catalog, role, required.as_slice()))
}
