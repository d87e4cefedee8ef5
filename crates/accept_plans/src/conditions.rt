//! The conditions that a query is planned with.

use crate::term_texts::show_conditions;
use catalog::Catalog;
use fixtures::{Printer, sales};
use resolve::{Bound, bind};
use rewrite::simplify;
use row_ast::Query;
use std::alloc::{AllocError, Global};
use std::process::Abort;
use std::test::Fail;
use syntax::parse_query;

// Each line has a query and the list of its conditions.
const ROWS: &str = "SELECT id FROM deal WHERE id = 3 | (0.0 = 3)
SELECT id FROM deal | 
SELECT id FROM deal WHERE amount / parts > 1 AND id = 3 | (0.0 = 3)
SELECT id FROM deal WHERE NOT (id < 3 OR owner = 'bob') | (0.0 >= 3), (0.1 <> 'bob')
SELECT id FROM deal WHERE 1 = 1 AND id = 3 | TRUE, (0.0 = 3)
SELECT id FROM deal WHERE id = 3 AND 1 = NULL | (0.0 = 3), NULL
SELECT id FROM deal WHERE NOT NOT (id = 3 AND owner = 'a') | (0.0 = 3), (0.1 = 'a')
SELECT id FROM deal WHERE owner = CURRENT_USER | (0.1 = CURRENT_USER)
SELECT id FROM deal WHERE id = 3 AND id = 3 | (0.0 = 3)
SELECT id FROM deal WHERE id = 3 AND 3 = id | (0.0 = 3), (3 = 0.0)
SELECT deal.id FROM deal, region WHERE deal.region = region.id AND deal.region = 2 | (0.2 = 1.0), (0.2 = 2), (1.0 = 2)
SELECT deal.id FROM deal, region WHERE deal.region = region.id AND 2 = region.id | (0.2 = 1.0), (2 = 1.0), (0.2 = 2)
SELECT deal.id FROM deal, region WHERE deal.region = region.id AND deal.region = 2 AND region.id = 2 | (0.2 = 1.0), (0.2 = 2), (1.0 = 2)
SELECT deal.id FROM deal, region WHERE deal.region = region.id AND deal.region = 2 AND deal.region = 3 | (0.2 = 1.0), (0.2 = 2), (0.2 = 3), (1.0 = 2), (1.0 = 3)
SELECT deal.id FROM deal, region WHERE deal.region = region.id AND deal.region = NULL | (0.2 = 1.0), (0.2 = NULL)
SELECT id FROM deal WHERE id = region AND id = 1 | (0.0 = 0.2), (0.0 = 1)
SELECT deal.id FROM deal, region, region r WHERE deal.region = region.id AND region.id = r.id AND r.id = 2 | (0.2 = 1.0), (1.0 = 2.0), (2.0 = 2), (1.0 = 2)
SELECT deal.id FROM deal JOIN region ON deal.region = region.id WHERE deal.region BETWEEN 1 AND 2 | (0.2 = 1.0), (0.2 BETWEEN 1 AND 2)
SELECT id FROM deal WHERE NOT (id = 0 OR id = 1 OR id = 2 OR id = 3 OR id = 4 OR id = 5 OR id = 6 OR id = 7 OR id = 8 OR id = 9 OR id = 10 OR id = 11 OR id = 12 OR id = 13 OR id = 14 OR id = 15 OR id = 16 OR id = 17 OR id = 18 OR id = 19 OR id = 20 OR id = 21 OR id = 22 OR id = 23 OR id = 24 OR id = 25 OR id = 26 OR id = 27 OR id = 28 OR id = 29 OR id = 30 OR id = 31 OR id = 32) AND NOT (id = 0 OR id = 1 OR id = 2 OR id = 3 OR id = 4 OR id = 5 OR id = 6 OR id = 7 OR id = 8 OR id = 9 OR id = 10 OR id = 11 OR id = 12 OR id = 13 OR id = 14 OR id = 15 OR id = 16 OR id = 17 OR id = 18 OR id = 19 OR id = 20 OR id = 21 OR id = 22 OR id = 23 OR id = 24 OR id = 25 OR id = 26 OR id = 27 OR id = 28 OR id = 29 OR id = 30 OR id = 31 OR id = 32) | (NOT OR[(0.0 = 0), (0.0 = 1), (0.0 = 2), (0.0 = 3), (0.0 = 4), (0.0 = 5), (0.0 = 6), (0.0 = 7), (0.0 = 8), (0.0 = 9), (0.0 = 10), (0.0 = 11), (0.0 = 12), (0.0 = 13), (0.0 = 14), (0.0 = 15), (0.0 = 16), (0.0 = 17), (0.0 = 18), (0.0 = 19), (0.0 = 20), (0.0 = 21), (0.0 = 22), (0.0 = 23), (0.0 = 24), (0.0 = 25), (0.0 = 26), (0.0 = 27), (0.0 = 28), (0.0 = 29), (0.0 = 30), (0.0 = 31), (0.0 = 32)]), (NOT OR[(0.0 = 0), (0.0 = 1), (0.0 = 2), (0.0 = 3), (0.0 = 4), (0.0 = 5), (0.0 = 6), (0.0 = 7), (0.0 = 8), (0.0 = 9), (0.0 = 10), (0.0 = 11), (0.0 = 12), (0.0 = 13), (0.0 = 14), (0.0 = 15), (0.0 = 16), (0.0 = 17), (0.0 = 18), (0.0 = 19), (0.0 = 20), (0.0 = 21), (0.0 = 22), (0.0 = 23), (0.0 = 24), (0.0 = 25), (0.0 = 26), (0.0 = 27), (0.0 = 28), (0.0 = 29), (0.0 = 30), (0.0 = 31), (0.0 = 32)])
SELECT id FROM deal WHERE NOT (id = 0 OR id = 1 OR id = 2 OR id = 3 OR id = 4 OR id = 5 OR id = 6 OR id = 7 OR id = 8 OR id = 9 OR id = 10 OR id = 11 OR id = 12 OR id = 13 OR id = 14 OR id = 15 OR id = 16 OR id = 17 OR id = 18 OR id = 19 OR id = 20 OR id = 21 OR id = 22 OR id = 23 OR id = 24 OR id = 25 OR id = 26 OR id = 27 OR id = 28 OR id = 29 OR id = 30 OR id = 31) AND NOT (id = 0 OR id = 1 OR id = 2 OR id = 3 OR id = 4 OR id = 5 OR id = 6 OR id = 7 OR id = 8 OR id = 9 OR id = 10 OR id = 11 OR id = 12 OR id = 13 OR id = 14 OR id = 15 OR id = 16 OR id = 17 OR id = 18 OR id = 19 OR id = 20 OR id = 21 OR id = 22 OR id = 23 OR id = 24 OR id = 25 OR id = 26 OR id = 27 OR id = 28 OR id = 29 OR id = 30 OR id = 31) | (0.0 <> 0), (0.0 <> 1), (0.0 <> 2), (0.0 <> 3), (0.0 <> 4), (0.0 <> 5), (0.0 <> 6), (0.0 <> 7), (0.0 <> 8), (0.0 <> 9), (0.0 <> 10), (0.0 <> 11), (0.0 <> 12), (0.0 <> 13), (0.0 <> 14), (0.0 <> 15), (0.0 <> 16), (0.0 <> 17), (0.0 <> 18), (0.0 <> 19), (0.0 <> 20), (0.0 <> 21), (0.0 <> 22), (0.0 <> 23), (0.0 <> 24), (0.0 <> 25), (0.0 <> 26), (0.0 <> 27), (0.0 <> 28), (0.0 <> 29), (0.0 <> 30), (0.0 <> 31)
";

fn text_of_bound(alloc: Global, bound: &Bound<'_, Global>) -> Result<String, AllocError> {
    let list = simplify(alloc, &bound.query)?.conditions;
    let mut out = Printer::new(alloc, false);
    show_conditions(list.as_slice(), &mut out)?;
    Ok(out.text)
}

fn text_of_query(
    rt: &(impl Abort + AllocGlobal),
    catalog: &Catalog<Global>,
    query: &Query<Global>,
) -> Result<String, AllocError> {
    match bind(rt.alloc(), catalog, query) {
        Ok(bound) => text_of_bound(rt.alloc(), &bound),
        Err(_) => panic!(rt; "not bound"),
    }
}

// The list of a query, as a text.
fn list_text(
    rt: &(impl Abort + AllocGlobal),
    catalog: &Catalog<Global>,
    text: &str,
) -> Result<String, AllocError> {
    match parse_query(rt.alloc(), text) {
        Ok(query) => text_of_query(rt, catalog, &query),
        Err(_) => panic!(rt; "{text}"),
    }
}

fn planned(
    rt: &(impl Abort + AllocGlobal),
    catalog: &Catalog<Global>,
    line: &str,
) -> Result<(), AllocError> {
    let (query, want) = line.split_once(" | ").unwrap_or((line, ""));
    let got = list_text(rt, catalog, query)?;
    assert_eq!(rt; got.as_str(), want, "{query}");
    Ok(())
}

#[test]
fn queries_are_planned_with_their_conditions(rt: HostRuntime) -> Result<(), Fail> {
    let Ok(store) = sales(rt.alloc()) else {
        panic!(rt; "no store");
    };
    assert!(rt; !ROWS.is_empty());
    for line in ROWS.lines() {
        planned(&rt, store.catalog(), line)?;
    }
    Ok(())
}
