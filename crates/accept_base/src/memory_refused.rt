//! Each request for memory refused in turn, where a table is loaded and appended to.

use crate::compared::same;
use crate::deals::{DEAL, DEAL_LINES, DEAL_ROWS, load, loaded, shows};
use memory::{Failure, Heap};
use metered::Metered;
use std::alloc::AllocError;
use std::process::Abort;
use std::test::Fail;
use tables::{LoadError, Table};

// A load gives the rows, or it is out of memory.
fn loads<A: Heap>(rt: &(impl Abort + AllocGlobal), heap: A, nth: u64) -> bool {
    match load(heap, DEAL.as_bytes()) {
        Ok(table) => {
            shows(rt, &table, DEAL_ROWS, "load");
            true
        }
        Err(error) => {
            same(rt, &error, &Failure::OutOfMemory, "load: at", &nth);
            false
        }
    }
}

// A load whose nth request for memory is refused: it is out of memory, or there are fewer requests and it gives the rows.
fn loads_without(rt: &(impl Abort + AllocGlobal), nth: u64) -> bool {
    let heap = Metered::refusing(rt.alloc(), nth);
    let whole = loads(rt, &heap, nth);
    let fewer = heap.requests(nth) < nth;
    assert!(rt; fewer || !whole, "at {nth}");
    whole
}

fn load_or_refusal_of_memory(rt: &(impl Abort + AllocGlobal)) {
    let mut refused = 0u64;
    for nth in 1..1000u64 {
        if loads_without(rt, nth) {
            break;
        }
        refused = nth;
    }
    assert!(rt; refused > 10, "{refused}");
    assert!(rt; refused < 900, "{refused}");
}

// The number of requests of a load.
fn requests_of_load(rt: &(impl Abort + AllocGlobal)) -> u64 {
    let counting = Metered::counting(rt.alloc());
    assert!(rt; loads(rt, &counting, 0));
    counting.requests(0)
}

// A table shows all rows if an append was done, and else the rows as before.
fn is_appended<A: Heap>(
    rt: &(impl Abort + AllocGlobal),
    table: &Table<A>,
    done: Result<(), Failure<LoadError>>,
    fewer: bool,
    n: u64,
    all: &str,
) {
    let (want, rows) = if fewer {
        (Ok(()), all)
    } else {
        (Err(Failure::OutOfMemory), DEAL_ROWS)
    };
    same(rt, &done, &want, "append: at", &n);
    shows(rt, table, rows, "append");
}

// An append whose nth request after the load is refused: it adds no row, or there are fewer requests and it adds them all.
fn appends_without(
    rt: &(impl Abort + AllocGlobal),
    built: u64,
    n: u64,
    more: &str,
    all: &str,
) -> bool {
    let nth = built.saturating_add(n);
    let heap = Metered::refusing(rt.alloc(), nth);
    let mut table = loaded(rt, &heap, DEAL.as_bytes(), "append", DEAL_ROWS);
    let done = table.append(more.as_bytes());
    let fewer = heap.requests(nth) < nth;
    is_appended(rt, &table, done, fewer, n, all);
    fewer
}

fn append_or_refusal_of_memory(rt: &(impl Abort + AllocGlobal), more: &str, all: &str) {
    let built = requests_of_load(rt);
    let mut refused = 0u64;
    for n in 1..1000u64 {
        if appends_without(rt, built, n, more, all) {
            break;
        }
        refused = n;
    }
    assert!(rt; refused > 10, "{refused}");
}

// A text, and another one so many times after it.
fn repeated<A: Heap>(
    alloc: A,
    first: &str,
    next: &str,
    times: usize,
) -> Result<String<A>, AllocError> {
    let mut text = String::new(alloc);
    text.push_str(first)?;
    for _ in 0..times {
        text.push_str(next)?;
    }
    Ok(text)
}

// The append is of 300 rows, for which each part of each column grows.
#[test]
fn refused_memory_of_tables_is_reported(rt: HostRuntime) -> Result<(), Fail> {
    load_or_refusal_of_memory(&rt);
    let more = repeated(rt.alloc(), DEAL, DEAL_LINES, 59)?;
    let all = repeated(rt.alloc(), DEAL_ROWS, DEAL_ROWS, 60)?;
    append_or_refusal_of_memory(&rt, more.as_str(), all.as_str());
    Ok(())
}
