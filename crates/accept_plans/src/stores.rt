//! Stores that several tests ask, and the rows of their tables.

use fixtures::{FixtureError, apply, sales};
use memory::Failure;
use std::alloc::{AllocError, Global};
use store::Store;

/// The store of `sales` with an index on the deals' ids.
pub fn indexed_sales(alloc: Global) -> Result<Box<Store<Global>, Global>, Failure<FixtureError>> {
    let mut store = sales(alloc)?;
    apply(
        alloc,
        &mut store,
        "root",
        "CREATE INDEX deal_id ON deal (id);",
    )?;
    Ok(store)
}

/// The numbers from 1 to the last as the rows of a table of ids.
pub fn ids(alloc: Global, last: u64) -> Result<String, AllocError> {
    let mut rows = String::from_str(alloc, "id\n")?;
    for id in 1..=last {
        write!(rows, "{id}\n")?;
    }
    Ok(rows)
}
