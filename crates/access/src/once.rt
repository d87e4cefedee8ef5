//! Mentions without repetitions.

ghost use Rattle.std.specs.Prelude.{◌≡◌, IfOk, OnOk};
ghost use Rattle.std.specs.List.{list_any};
ghost use Rattle.access.specs.EachOnce as spec;
ghost use Rattle.access.specs.EachOnce.{is_again, is_mention_of, with_mention};

use crate::mentions::Mention;
use expr::{ColumnId, is_column};
use memory::{Heap, Items};
use std::alloc::AllocError;

fn is_mention_of(mention: Mention, id: ColumnId) -> bool
    ensures { result ≡ is_mention_of id mention }
{
    match mention {
        Mention::From { .. } => false,
        Mention::Column { id: other } => is_column(other, id),
    }
}

fn is_mentioned(mentions: &[Mention], id: ColumnId) -> bool
    ensures { result ≡ list_any (is_mention_of id) mentions.now }
{
    for mention in mentions {
        if is_mention_of(*mention, id) {
            return true;
        }
    }
    false
}

fn is_again(mentions: &[Mention], mention: Mention) -> bool
    ensures { result ≡ is_again mentions.now mention }
{
    match mention {
        Mention::From { .. } => false,
        Mention::Column { id } => is_mentioned(mentions, id),
    }
}

fn push_new<A: Heap>(mentions: &mut Items<Mention, A>, mention: Mention) -> Result<(), AllocError>
    ensures { OnOk result (mentions.new ≡ with_mention mentions.old mention) }
{
    if is_again(mentions.as_slice(), mention) {
        return Ok(());
    }
    mentions.push(mention)
}

/// The mentions, a column only where it comes first.
pub(crate) fn each_once<A: Heap>(
    alloc: A,
    mentions: &[Mention],
) -> Result<Items<Mention, A>, AllocError>
    ensures { IfOk result (λ once. once ≡ spec.each_once mentions.now) }
{
    let mut once = Items::new(alloc);
    for mention in mentions {
        push_new(&mut once, *mention)?;
    }
    Ok(once)
}
