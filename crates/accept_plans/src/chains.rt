//! Queries that only a plan answers in time: the cross product of their entries has 10^24 combinations.

use crate::stores::ids;
use fixtures::{load, served, store_of};
use std::test::Fail;

const SCHEMA: &str = "CREATE TABLE t (id bigint);";

// Twelve entries joined in a chain by their keys; no two of the first six of FROM are neighbours in it.
const CHAIN: &str = "SELECT a.id FROM t a, t c, t e, t g, t i, t k, t b, t d, t f, t h, t j, t l
WHERE a.id = b.id AND b.id = c.id AND c.id = d.id AND d.id = e.id AND e.id = f.id AND f.id = g.id AND g.id = h.id
AND h.id = i.id AND i.id = j.id AND j.id = k.id AND k.id = l.id ORDER BY id";

#[test]
fn plan_is_run_and_no_cross_product_made(rt: HostRuntime) -> Result<(), Fail> {
    let rows = ids(rt.alloc(), 100)?;
    let mut store = store_of(rt.alloc(), SCHEMA)?;
    load(&mut store, "t", rows.as_str())?;
    let (status, out) = served(rt.alloc(), &store, "root", CHAIN);
    assert_eq!(&rt; status, 0);
    assert_eq!(&rt;
        std::str::from_utf8(out.inner.as_slice()).unwrap_or(""),
        rows.as_str()
    );
    Ok(())
}
