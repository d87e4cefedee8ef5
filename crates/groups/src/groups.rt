//! The groups of the members so far, and the row of each.

ghost use Rattle.std.specs.Prelude.{◌≡◌, [], ◌∷◌, map, IfOk, IsOk, None, Ok, OnOk};
ghost use Rattle.memory.specs.Gives.{Gives};
ghost use Rattle.memory.specs.Results.{and_then};
ghost use Rattle.value.specs.Datum.{row_of};
ghost use Rattle.expr.specs.View.{aggregate_calls_of};
ghost use Rattle.groups.specs.Stages.{gives, stage};
ghost use Rattle.groups.specs.Groups.{all_in_one, groups_of};
ghost use Rattle.groups.specs.Members.{all_of, with_key};
ghost use Rattle.groups.specs.Progress.{HasMemory};
ghost use Rattle.groups.specs.Running.{IsMemberInPlace, finished_row, put_running, running_groups};
ghost use Rattle.groups.specs.Taking.{Takes, rows_of, totals_in};
ghost use Rattle.groups.specs.View.{group_row_of, key_of, running_in};

use crate::group_row::{GroupRow, row_of_group};
use crate::keys::Key;
use crate::members::Arguments;
use crate::stage::{Stage, gives};
use crate::totals::{Total, add_arguments, push_fresh};
use expr::{AggregateCall, ColumnId};
use memory::{Failure, Heap, Items};
use std::alloc::AllocError;
use std::collections::BTreeMap;
use value::{Fault, Value};

/// The running totals of the groups, in the order of their keys.
pub type ByKey<A> = BTreeMap<Key<A>, Vec<Total<A>, A>, A>;

/// The groups of the combinations so far, and the least fault of their arguments.
#[derive(Drop)]
pub struct Groups<A: Heap> {
    /// The totals of the members of each key.
    pub(crate) by_key: ByKey<A>,
    /// The least fault; no value is given on.
    pub(crate) stage: Stage<(), A>,
}

// Adds a member to the totals of its key, or gives the first fault of its arguments.
fn put_member<A: Heap, G: Arguments<A>>(
    alloc: A,
    calls: &[AggregateCall<'_, A>],
    groups: &mut ByKey<A>,
    key: Key<A>,
    arguments: &G,
) -> Result<(), Failure<Fault>>
    ensures added { Gives (λ done. running_in groups.new.entries) result (and_then (with_key (key_of key) (all_of (G.outcomes arguments.now))) (λ m. Ok (put_running (aggregate_calls_of calls.now) m (running_in groups.old.entries)))) }
    ensures in_place { G.are_there arguments.now → IsMemberInPlace (key_of key) (G.outcomes arguments.now) (running_in groups.old.entries) → HasMemory result }
{
    let totals = groups.entry(key)?.or_insert(Vec::new(alloc));
    add_arguments(alloc, calls, totals, arguments)?;
    Ok(())
}

// The row of each group, or the least fault.
fn rows_by_key<A: Heap>(
    alloc: A,
    calls: &[AggregateCall<'_, A>],
    groups: ByKey<A>,
) -> Result<Items<GroupRow<A>, A>, Failure<Fault>>
    ensures { Gives (λ rows. map (λ g. group_row_of g) rows) result (stage (map (λ g. gives (finished_row (aggregate_calls_of calls.now) g)) (running_in groups.entries))) }
{
    let mut stage = Stage::new(alloc);
    for (key, totals) in groups {
        stage.add(gives(row_of_group(alloc, calls, key.values, totals.as_slice())))?;
    }
    stage.end()
}

// The one group of a query without GROUP BY, before its first member.
fn only_group<A: Heap>(alloc: A, calls: &[AggregateCall<'_, A>]) -> Result<ByKey<A>, AllocError>
    ensures { IfOk result (λ groups. running_in groups.entries ≡ running_groups (aggregate_calls_of calls.now) (all_in_one [] ∷ [])) }
{
    let mut totals = Vec::new(alloc);
    push_fresh(&mut totals, calls)?;
    let key = Key {
        values: Items::new(alloc),
    };
    let mut groups = BTreeMap::new(alloc);
    groups.insert(key, totals)?;
    Ok(groups)
}

// The groups of no members.
fn start_groups<A: Heap>(
    alloc: A,
    columns: &[ColumnId],
    calls: &[AggregateCall<'_, A>],
) -> Result<ByKey<A>, AllocError>
    ensures { IfOk result (λ groups. running_in groups.entries ≡ running_groups (aggregate_calls_of calls.now) (groups_of columns.now [])) }
{
    if columns.is_empty() {
        only_group(alloc, calls)
    } else {
        Ok(BTreeMap::new(alloc))
    }
}

impl<A: Heap> Groups<A> {
    /// The groups of no combinations: one without GROUP BY, and else none.
    pub fn new(
        alloc: A,
        columns: &[ColumnId],
        calls: &[AggregateCall<'_, A>],
    ) -> Result<Groups<A>, AllocError>
        ensures { IfOk result (λ groups. (groups.stage.least ≡ None) × (totals_in groups ≡ running_groups (aggregate_calls_of calls.now) (groups_of columns.now []))) }
    {
        Ok(Groups {
            by_key: start_groups(alloc, columns, calls)?,
            stage: Stage::new(alloc),
        })
    }

    /// Adds the member of one more combination, or the first fault of its arguments. Where memory ran out, it is reported. Where the
    /// group has totals and the arguments are there already, it takes none, while counts stay within 64 bits and sums within 128, and
    /// there is no least or greatest value.
    pub fn add<G: Arguments<A>>(
        &mut self,
        alloc: A,
        calls: &[AggregateCall<'_, A>],
        key: Items<Value<A>, A>,
        arguments: &G,
    ) -> Result<(), AllocError>
        ensures taken { OnOk result (Takes (aggregate_calls_of calls.now) (with_key (row_of key) (all_of (G.outcomes arguments.now))) self.old self.new) }
        ensures in_place { G.are_there arguments.now → IsMemberInPlace (row_of key) (G.outcomes arguments.now) (totals_in self.old) → IsOk result }
    {
        let key = Key { values: key };
        match put_member(alloc, calls, &mut self.by_key, key, arguments) {
            Ok(()) => Ok(()),
            Err(failure) => self.stage.add(Err(failure)),
        }
    }

    /// The row of each group, or the least fault: that of an argument, and else of an aggregate.
    pub fn rows(
        self,
        alloc: A,
        calls: &[AggregateCall<'_, A>],
    ) -> Result<Items<GroupRow<A>, A>, Failure<Fault>>
        ensures { Gives (λ rows. map (λ g. group_row_of g) rows) result (rows_of (aggregate_calls_of calls.now) self) }
    {
        match self.stage.least {
            None => rows_by_key(alloc, calls, self.by_key),
            Some(fault) => Err(Failure::Error(fault)),
        }
    }
}
