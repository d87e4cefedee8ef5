//! Queries over the tables of `fixtures`, with their columns found, or their first error.

use crate::queries::made;
use catalog::Catalog;
use fixtures::{Printer, catalog, error_text, query, show_bound_query};
use resolve::{bind_query, entries};
use row_ast::Query;
use std::alloc::{AllocError, Global};
use std::process::Abort;
use std::test::Fail;

// A query, and its items by heading, the entries of FROM with their ON, and its other clauses; or its first error.
static BOUND: [(&str, &str); 35] = [
    ("SELECT id, owner FROM deal", "id: 0.0, owner: 0.1 FROM 0"),
    (
        "SELECT deal.amount, Deal.ID FROM DEAL",
        "amount: 0.2, id: 0.0 FROM 0",
    ),
    (
        "SELECT d.amount AS sum, owner FROM region, deal AS d",
        "sum: 1.2, owner: 1.1 FROM 0, 1",
    ),
    // A column that has the name of a table.
    ("SELECT deal FROM deal, note", "deal: 1.0 FROM 0, 1"),
    (
        "SELECT * FROM deal",
        "id: 0.0, owner: 0.1, amount: 0.2 FROM 0",
    ),
    (
        "SELECT * FROM note n, region",
        "deal: 0.0, body: 0.1, id: 1.0, name: 1.1 FROM 0, 1",
    ),
    (
        "SELECT * FROM region a CROSS JOIN region b",
        "id: 0.0, name: 0.1, id: 1.0, name: 1.1 FROM 0, 1",
    ),
    (
        "SELECT name FROM deal d JOIN region r ON d.id = r.id JOIN note n ON n.deal = d.id AND body = name",
        "name: 1.1 FROM 0, 1 ON (0.0 = 1.0), 2 ON AND[(2.0 = 0.0), (2.1 = 1.1)]",
    ),
    // Region has an id too, and is not in scope of the ON.
    (
        "SELECT owner FROM region, deal JOIN note ON id = deal.amount AND note.deal = id",
        "owner: 1.1 FROM 0, 1, 2 ON AND[(1.0 = 1.2), (2.0 = 1.0)]",
    ),
    (
        "SELECT name FROM deal d LEFT JOIN region r ON d.id = r.id",
        "name: 1.1 FROM 0, LEFT 1 ON (0.0 = 1.0)",
    ),
    (
        "SELECT * FROM note JOIN region ON id = deal LEFT OUTER JOIN note n ON body = name",
        "42702 at 70",
    ),
    // The ON of a left join has the last item of FROM in scope, and the left joins before it.
    (
        "SELECT owner FROM region, deal LEFT JOIN note ON id = deal.amount LEFT JOIN region r ON r.id = note.deal AND deal.id = 1",
        "owner: 1.1 FROM 0, 1, LEFT 2 ON (1.0 = 1.2), LEFT 3 ON AND[(3.0 = 2.0), (1.0 = 1)]",
    ),
    (
        "SELECT d.id FROM deal d LEFT JOIN region r ON n.deal = r.id LEFT JOIN note n ON TRUE",
        "42P01 at 46",
    ),
    (
        "SELECT owner FROM region s, deal d LEFT JOIN note n ON s.id = n.deal",
        "42P01 at 55",
    ),
    (
        "SELECT owner, count(*) FROM deal WHERE amount > 0 GROUP BY owner, deal.id HAVING sum(amount) >= 10",
        "owner: 0.1, count: count(*) FROM 0 WHERE (0.2 > 0) GROUP BY 0.1, 0.0 HAVING (sum(0.2) >= 10)",
    ),
    (
        "SELECT CASE WHEN amount < 0 THEN 'low' WHEN owner IS NULL THEN NULL ELSE owner END FROM deal",
        "?column?: CASE[(0.2 < 0) -> 'low', (0.1 IS NULL) -> NULL; 0.1] FROM 0",
    ),
    (
        "SELECT CASE WHEN TRUE THEN name END AS x FROM deal, region",
        "x: CASE[TRUE -> 1.1] FROM 0, 1",
    ),
    (
        "SELECT id IN (1, -2, NULL) FROM deal WHERE owner NOT IN ('a', 'it''s')",
        "?column?: (0.0 IN [1, -2, NULL]) FROM 0 WHERE (0.1 NOT IN ['a', 'it's'])",
    ),
    (
        "SELECT amount BETWEEN id AND id + 5 FROM deal WHERE id NOT BETWEEN -1 AND amount",
        "?column?: (0.2 BETWEEN 0.0 AND (0.0 + 5)) FROM 0 WHERE (0.0 NOT BETWEEN -1 AND 0.2)",
    ),
    (
        "SELECT count(*), count(owner), sum(amount), min(id), max(amount) AS most FROM deal",
        "count: count(*), count: count(0.1), sum: sum(0.2), min: min(0.0), most: max(0.2) FROM 0",
    ),
    (
        "SELECT 1, -9223372036854775808, 'Deal', NULL, TRUE, FALSE, CURRENT_USER FROM deal",
        "?column?: 1, ?column?: -9223372036854775808, ?column?: 'Deal', ?column?: NULL, ?column?: TRUE, ?column?: FALSE, ?column?: CURRENT_USER FROM 0",
    ),
    (
        "SELECT id FROM deal WHERE NOT (owner = 'x' OR NOT amount IS NOT NULL)",
        "id: 0.0 FROM 0 WHERE (NOT OR[(0.1 = 'x'), (NOT (0.2 IS NOT NULL))])",
    ),
    (
        "SELECT CAST(amount AS text), CAST(owner AS bigint) AS n FROM deal",
        "?column?: CAST(0.2 AS text), n: CAST(0.1 AS bigint) FROM 0",
    ),
    (
        "SELECT -amount * 2 + id / 3 - id % 4 FROM deal",
        "?column?: ((((- 0.2) * 2) + (0.0 / 3)) - (0.0 % 4)) FROM 0",
    ),
    (
        "SELECT a.id <> b.id, a.id <= b.amount FROM deal a, deal b",
        "?column?: (0.0 <> 1.0), ?column?: (0.0 <= 1.2) FROM 0, 1",
    ),
    // ORDER BY names headings.
    (
        "SELECT id FROM deal ORDER BY nosuch LIMIT 1",
        "id: 0.0 FROM 0",
    ),
    ("SELECT nosuch FROM deal", "42703 at 7"),
    ("SELECT id FROM deal, region", "42702 at 7"),
    ("SELECT deal.id FROM deal d", "42P01 at 7"),
    (
        "SELECT owner FROM deal JOIN region ON body = name JOIN note ON TRUE",
        "42703 at 38",
    ),
    (
        "SELECT owner FROM deal, region JOIN note ON note.deal = deal.id",
        "42P01 at 56",
    ),
    (
        "SELECT owner FROM deal JOIN region ON x.id = 1 WHERE nosuch = 1",
        "42P01 at 38",
    ),
    (
        "SELECT owner FROM deal d WHERE d.owner IN ('x') OR d.name IS NULL",
        "42703 at 51",
    ),
    (
        "SELECT owner FROM deal WHERE TRUE GROUP BY owner, region.id",
        "42P01 at 50",
    ),
    (
        "SELECT owner FROM deal GROUP BY owner HAVING sum(nosuch) = 1",
        "42703 at 49",
    ),
];

// The same with the offsets of operations.
static PLACED: [(&str, &str); 2] = [
    (
        "SELECT -id + 1, CAST(id AS text) FROM deal WHERE NOT amount = 1 AND owner IS NULL",
        "?column?: ((-@7 0.0) +@11 1), ?column?: CAST@16(0.0 AS text) FROM 0 WHERE AND@64[(NOT@49 (0.2 =@60 1)), (0.1 IS NULL@74)]",
    ),
    (
        "SELECT count(*), sum(id), CASE WHEN id IN (1) OR id BETWEEN 1 AND 2 THEN id END FROM deal HAVING count(*) > 0",
        "count: count@7(*), sum: sum@17(0.0), ?column?: CASE@26[OR@46[(0.0 IN@39 [1]), (0.0 BETWEEN@52 1 AND 2)] -> 0.0] FROM 0 HAVING (count@97(*) >@106 0)",
    ),
];

// The bound query as a text, or its first error.
fn bound_as(
    alloc: Global,
    catalog: &Catalog<Global>,
    query: &Query<Global>,
    placed: bool,
) -> Result<String, AllocError> {
    let entries = match entries(alloc, catalog, query) {
        Ok(entries) => entries,
        Err(failure) => return error_text(alloc, failure),
    };
    let mut out = Printer::new(alloc, placed);
    match bind_query(alloc, entries.as_slice(), query) {
        Ok(bound) => show_bound_query(&bound, &mut out)?,
        Err(failure) => return error_text(alloc, failure),
    }
    Ok(out.text)
}

fn binds(
    rt: &(impl Abort + AllocGlobal),
    catalog: &Catalog<Global>,
    placed: bool,
    row: &(&str, &str),
) -> Result<(), AllocError> {
    let (text, want) = row;
    let query = made(rt, query(rt.alloc(), text));
    let got = bound_as(rt.alloc(), catalog, &query, placed)?;
    assert_eq!(rt; got.as_str(), *want, "{text}");
    Ok(())
}

#[test]
fn queries_are_bound(rt: HostRuntime) -> Result<(), Fail> {
    let catalog = made(&rt, catalog(rt.alloc()));
    for row in &BOUND {
        binds(&rt, &catalog, false, row)?;
    }
    for row in &PLACED {
        binds(&rt, &catalog, true, row)?;
    }
    Ok(())
}
