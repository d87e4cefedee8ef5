//! The keys of ORDER BY.

ghost use Rattle.std.specs.Prelude.{◌≡◌, length, map};
ghost use Rattle.memory.specs.Gives.{Gives};
ghost use Rattle.memory.specs.Results.{on_each};
ghost use Rattle.row_ast.specs.View.{sort_key_of, sort_target_of};
ghost use Rattle.expr.specs.View.{bound_items_of};
ghost use Rattle.resolve.specs.OrderBy as spec;

use expr::{BoundItem, OutputKey};
use memory::{Failure, Heap, Items};
use row_ast::{SortKey, SortTarget};
use scope::BindError;
use value::Refusal;

// The index of the one output column that has a heading.
fn index_of_heading<A: Heap>(
    items: &[BoundItem<A>],
    heading: &str,
    offset: u32,
) -> Result<usize, BindError>
    ensures { result ≡ spec.one_index offset (spec.indexes_of heading.now 0 (bound_items_of items.now)) }
{
    let mut found = None;
    for (index, item) in items.iter().enumerate() {
        if item.heading.as_str() == heading {
            if let Some(_) = found {
                return Err(BindError {
                    code: Refusal::AmbiguousColumn,
                    offset,
                });
            }
            found = Some(index);
        }
    }
    match found {
        Some(index) => Ok(index),
        None => Err(BindError {
            code: Refusal::UndefinedColumn,
            offset,
        }),
    }
}

// The index of the output column at a position, counted from 1.
fn index_within(number: u64, count: usize, offset: u32) -> Result<usize, BindError>
    ensures { result ≡ spec.index_within offset count number }
{
    if number == 0 || number > count as u64 {
        return Err(BindError {
            code: Refusal::InvalidColumnReference,
            offset,
        });
    }
    Ok(number as usize - 1)
}

fn target_index<A: Heap>(
    items: &[BoundItem<A>],
    target: &SortTarget<A>,
    offset: u32,
) -> Result<usize, BindError>
    ensures { result ≡ spec.target_index (bound_items_of items.now) offset (sort_target_of target.now) }
{
    match target {
        SortTarget::Heading(heading) => index_of_heading(items, heading.as_str(), offset),
        SortTarget::Position(number) => index_within(*number, items.len(), offset),
    }
}

fn output_key<A: Heap>(items: &[BoundItem<A>], key: &SortKey<A>) -> Result<OutputKey, BindError>
    ensures { result ≡ spec.output_key (bound_items_of items.now) (sort_key_of key.now) }
{
    let index = target_index(items, &key.target, key.offset)?;
    Ok(OutputKey {
        index,
        descending: key.descending,
    })
}

// The keys among the output columns, or the first that resolves to none or to several (PostgreSQL: Sorting Rows).
pub(crate) fn output_keys<A: Heap>(
    alloc: A,
    items: &[BoundItem<A>],
    order_by: &[SortKey<A>],
) -> Result<Items<OutputKey, A>, Failure<BindError>>
    ensures { Gives (λ keys. keys) result (on_each (spec.output_key (bound_items_of items.now)) (map (λ k. sort_key_of k) order_by.now)) }
{
    let mut keys = Items::new(alloc);
    for key in order_by {
        match output_key(items, key) {
            Ok(key) => keys.push(key)?,
            Err(fault) => return Err(Failure::Error(fault)),
        }
    }
    Ok(keys)
}
