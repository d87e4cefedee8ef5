//! The requests for memory of queries over two tables of 100 rows each, which have 10,000 combinations.

use crate::stores::made;
use engine::ask;
use fixtures::{FixtureError, load, store_of};
use memory::{Failure, Heap};
use metered::Metered;
use replies::Reply;
use std::alloc::AllocError;
use std::process::Abort;
use std::test::Fail;
use store::Store;

const SCHEMA: &str = "CREATE TABLE a (id bigint); CREATE TABLE b (id bigint);";

// Texts that are made of the rows of either table: as arguments of aggregates and in conditions.
static QUERIES: [&str; 5] = [
    "SELECT count(CASE WHEN CAST(a.id AS text) = '5' THEN 1 END) FROM a, b",
    "SELECT count(CASE WHEN CAST(b.id AS text) = '5' THEN 1 END) FROM a, b",
    "SELECT min(CAST(b.id AS text)) FROM a, b",
    "SELECT count(*) FROM a, b WHERE CAST(a.id AS text) <> '0'",
    "SELECT count(*) FROM a, b WHERE a.id / 1 > 0 AND CAST(a.id AS text) <> '0'",
];

fn queries() -> &'static [&'static str] {
    &QUERIES
}

// The numbers from 1 to 100.
fn hundred<A: Heap>(alloc: A) -> Result<String<A>, AllocError> {
    let mut text = String::new(alloc);
    text.push_str("id\n")?;
    for number in 1..101 {
        write!(text, "{number}\n")?;
    }
    Ok(text)
}

// The tables.
fn tables<A: Heap>(alloc: A) -> Result<Box<Store<A>, A>, Failure<FixtureError>> {
    let mut store = store_of(alloc, SCHEMA)?;
    let numbers = hundred(alloc)?;
    load(&mut store, "a", numbers.as_str())?;
    load(&mut store, "b", numbers.as_str())?;
    Ok(store)
}

// The number of requests of each query that makes as many as there are combinations.
fn many_requests(rt: &(impl Abort + AllocGlobal)) -> Result<String, AllocError> {
    let heap = Metered::counting(rt.alloc());
    let store = made(rt, tables(&heap));
    let mut text = String::new(rt.alloc());
    for query in queries() {
        let before = heap.requests(0);
        let reply = ask(&heap, &store, "root", *query);
        let requests = heap.requests(0).wrapping_sub(before);
        assert!(rt; matches!(reply, Reply::Rows { .. }), "{query}");
        if requests >= 10_000 {
            write!(text, "{query}: {requests}\n")?;
        }
    }
    Ok(text)
}

#[test]
fn queries_over_products_make_fewer_requests_than_combinations(
    rt: HostRuntime,
) -> Result<(), Fail> {
    let many = many_requests(&rt)?;
    assert_eq!(rt; many.as_str(), "");
    Ok(())
}
