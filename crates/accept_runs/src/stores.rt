//! The store of the worked rows of sales, with some tables more.

use fixtures::{FixtureError, apply, load, sales};
use memory::Failure;
use std::alloc::Global;
use store::Store;

const TABLES: &str = "CREATE TABLE a (id bigint); CREATE TABLE b (id bigint);
CREATE TABLE x (id bigint, name text); CREATE TABLE bare (id bigint, name text);
CREATE TABLE w (id bigint); CREATE TABLE o (id bigint, name text);
CREATE TABLE t (id bigint, grade bigint, name text, open boolean, same bigint, gone bigint);";

// Numbers that are far apart.
const WIDE: &str = "id\n0\n-9223372036854775808\n9223372036854775807\n";

const OTHERS: &str = "id,name\n2,ann\n4,\\N\n4,bob\n";

const ROWS: &str = "id,grade,name,open,same,gone
1,-10,ann,t,5,\\N
2,-10,bob,f,5,\\N
3,0,cy,t,5,\\N
4,5,dee,\\N,5,\\N
5,20,eve,t,5,\\N
8,\\N,ann,f,\\N,\\N
";

// The rows of a table of the numbers from 1 to 1,000.
fn thousand(alloc: Global) -> Result<String, Failure<FixtureError>> {
    let mut text = String::new(alloc);
    text.push_str("id\n")?;
    for number in 1..1001 {
        write!(text, "{number}\n")?;
    }
    Ok(text)
}

/// The store. Its tables a and b have the numbers from 1 to 1,000, and bare has no row, nor has x, whose statistics the tests
/// do not use.
pub fn made(alloc: Global) -> Result<Box<Store<Global>, Global>, Failure<FixtureError>> {
    let mut store = sales(alloc)?;
    apply(alloc, &mut store, "root", TABLES)?;
    let numbers = thousand(alloc)?;
    load(&mut store, "a", numbers.as_str())?;
    load(&mut store, "b", numbers.as_str())?;
    load(&mut store, "w", WIDE)?;
    load(&mut store, "o", OTHERS)?;
    load(&mut store, "t", ROWS)?;
    Ok(store)
}
