//! The search for the least code of a query.

ghost use Rattle.std.specs.Prelude.{◌≤◌, IfSome};
ghost use Rattle.value.specs.Limits.{most_entries};

use crate::numbers::number_of;
use crate::search_problem::{for_each_entry, setting, table_stats};
use crate::shape::Shape;
use crate::stop::Stop;
use code_costs::Problem;
use joindp::search;
use std::alloc::{AllocError, Global};
use value::MOST_ENTRIES;

// The query that is searched for, and how many times.
#[derive(Clone, Copy, Debug)]
struct Arguments {
    // Its shape.
    shape: Shape,
    // How many entries it has.
    entries: usize,
    // How many times it is searched.
    times: u64,
    // How many columns of each table have an index.
    indexes: u64,
}

// The number of entries that a word says, from 1 to the most of a query.
fn entries_of(word: &str) -> Option<usize>
    ensures { IfSome result (λ n. n ≤ most_entries) }
{
    let entries = word.parse::<usize>().ok()?;
    if 0 < entries && entries <= MOST_ENTRIES {
        Some(entries)
    } else {
        None
    }
}

// The arguments that the words say, if they say any.
fn read_arguments(words: &[String]) -> Option<Arguments>
    ensures { IfSome result (λ a. a.entries ≤ most_entries) }
{
    match words {
        [shape, entries, times, indexes] => Some(Arguments {
            shape: Shape::named(shape.as_str())?,
            entries: entries_of(entries.as_str())?,
            times: number_of(times.as_str(), 1, u64::MAX)?,
            indexes: number_of(indexes.as_str(), 1, 64)?,
        }),
        _ => None,
    }
}

// The cost of the least code, after so many searches.
fn least_cost(
    alloc: Global,
    problem: &Problem<'_, Global>,
    times: u64,
) -> Result<u128, AllocError> {
    let mut cost = 0;
    for _ in 0..times {
        let (_, least) = search(alloc, problem)?;
        cost = least;
    }
    Ok(cost)
}

// The cost of the least code of the query that the arguments say, after as many searches as they say.
fn searched(alloc: Global, arguments: Arguments) -> Result<u128, AllocError>
    requires { arguments.entries ≤ most_entries }
{
    let setting = setting(alloc, arguments.shape, arguments.entries, arguments.indexes)?;
    let stats = table_stats(alloc)?;
    let statistics = for_each_entry(alloc, &stats, arguments.entries)?;
    let problem = Problem::new(alloc, &setting, &statistics, None)?;
    least_cost(alloc, &problem, arguments.times)
}

/// Searches as the words say, and returns the least cost.
pub(crate) fn search_line(alloc: Global, words: &[String]) -> Result<String, Stop> {
    let Some(arguments) = read_arguments(words) else {
        return Err(Stop::Usage);
    };
    let cost = searched(alloc, arguments)?;
    Ok(format!(in alloc; "{cost}")?)
}
