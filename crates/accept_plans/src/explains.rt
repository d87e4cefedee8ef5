//! The texts of plans.

use crate::rows::fields;
use crate::stores::{ids, indexed_sales};
use fixtures::{FixtureError, SALES, SALES_REGIONS, audited, explained, load, sales, store_of};
use memory::Failure;
use std::alloc::{AllocError, AllocGlobal, Global};
use std::process::Abort;
use std::test::Fail;
use store::Store;

// A role, its query, and the status with the lines that explain it, up to the trail; ` | ` between them, and ` / ` for an LF. The
// costs are worked out by hand from the statistics: five deals with ids 1 to 5, of two owners and two regions, of which alice sees
// three and guest none; three regions, of which one has no id.
const JOINS: &str = "\
audit | SELECT d.id FROM deal d, region r WHERE d.region = r.id | 0 cost 19 / filter 1 (d.region = r.id) / first d full / hash 1 r full / trail
root | SELECT d.id FROM deal d, region r WHERE d.region = r.id | 0 cost 19 / filter 1 (d.region = r.id) / first d full / hash 1 r full / trail
alice | SELECT d.id FROM deal d, region r WHERE d.region = r.id | 0 cost 15 / filter 1 (d.region = r.id) / first d full / nested r full / trail
audit | SELECT d.id FROM deal d JOIN region r ON d.region = r.id | 0 cost 19 / filter 1 (d.region = r.id) / first d full / hash 1 r full / trail
audit | SELECT d.id FROM deal d, region r WHERE d.region = r.id AND r.id = 1 | 0 cost 10 / filter 1 (d.region = r.id) / filter 2 (r.id = 1) / filter 3 (d.region = 1) / first d full / nested r full / trail
audit | SELECT d.id FROM deal d JOIN region r ON d.region = r.id JOIN region s ON r.id = s.id | 0 cost 34 / filter 1 (d.region = r.id) / filter 2 (r.id = s.id) / first r full / nested s full / hash 1 d full / trail
audit | SELECT a.id FROM deal a, deal b WHERE a.id = b.id | 0 cost 25 / filter 1 (a.id = b.id) / first a full / hash 1 b full / trail
alice | SELECT a.id FROM deal a, deal b WHERE a.id = b.id | 0 cost 15 / filter 1 (a.id = b.id) / first a full / nested b full / trail
guest | SELECT a.id FROM deal a, deal b WHERE a.id = b.id | 0 cost 1 / filter 1 (a.id = b.id) / first a full / nested b full / trail
audit | SELECT d.id FROM deal d CROSS JOIN region r | 0 cost 23 / first d full / nested r full / trail
";

const SINGLE: &str = "\
audit | SELECT id FROM deal | 0 cost 5 / first deal full / trail
alice | SELECT id FROM deal | 0 cost 3 / first deal full / trail
guest | SELECT id FROM deal | 0 cost 0 / first deal full / trail
alice | SELECT id FROM region | 0 cost 3 / first region full / trail
audit | SELECT id FROM deal WHERE NOT (id IN (1, 2) OR owner IS NULL) | 0 cost 5 / filter 1 (deal.id NOT IN (1, 2)) / filter 2 (deal.owner IS NOT NULL) / first deal full / trail
audit | SELECT id FROM deal WHERE amount/parts > 1 AND id = 3 | 0 cost 5 / filter 1 (deal.id = 3) / first deal full / trail
audit | SELECT id FROM deal WHERE owner = CURRENT_USER AND owner <> 'it''s' | 0 cost 5 / filter 1 (deal.owner = CURRENT_USER) / filter 2 (deal.owner <> 'it''s') / first deal full / trail
audit | SELECT id FROM deal WHERE FALSE | 0 cost 0 / filter 1 FALSE / empty / trail
audit | SELECT id FROM deal WHERE 1 = 2 | 0 cost 0 / filter 1 FALSE / empty / trail
alice | SELECT id FROM deal WHERE 1 = 2 ORDER BY id | 0 cost 0 / filter 1 FALSE / empty / trail
";

// Left joins.
const LEFT: &str = "\
audit | SELECT d.id, r.name FROM deal d LEFT JOIN region r ON d.region = r.id | 0 cost 19 / on r (d.region = r.id) / first d full / left hash 1 r full / trail
audit | SELECT d.id FROM deal d LEFT JOIN region r ON d.region = r.id WHERE r.name IS NULL | 0 cost 19 / filter 1 (r.name IS NULL) / on r (d.region = r.id) / first d full / left hash 1 r full / trail
audit | SELECT d.id FROM deal d LEFT JOIN region r ON d.region = r.id WHERE r.id NOT IN (1, 2) | 0 cost 19 / filter 1 (r.id NOT IN (1, 2)) / on r (d.region = r.id) / first d full / left hash 1 r full / trail
audit | SELECT d.id FROM deal d LEFT JOIN region r ON d.region = r.id WHERE r.id BETWEEN 1 AND 2 | 0 cost 19 / filter 1 (r.id BETWEEN 1 AND 2) / on r (d.region = r.id) / first d full / left hash 1 r full / trail
audit | SELECT d.id FROM deal d LEFT JOIN region r ON d.region = r.id LEFT JOIN region s ON r.id = s.id WHERE s.id = 1 | 0 cost 35 / filter 1 (s.id = 1) / on r (d.region = r.id) / on s (r.id = s.id) / first d full / left hash 1 r full / left hash 1 s full / trail
audit | SELECT d.id FROM deal d LEFT JOIN region r ON d.region = r.id LEFT JOIN region s ON r.id = s.id WHERE r.id = s.id | 0 cost 35 / filter 1 (r.id = s.id) / on r (d.region = r.id) / on s (r.id = s.id) / first d full / left hash 1 r full / left hash 1 s full / trail
audit | SELECT d.id, r.id AS r FROM deal d LEFT JOIN region r ON d.region = r.id AND d.id > 2 WHERE FALSE | 0 cost 0 / filter 1 FALSE / on r ((d.region = r.id) AND (d.id > 2)) / empty / trail
audit | SELECT d.id FROM deal d LEFT JOIN region r ON TRUE | 0 cost 23 / on r TRUE / first d full / left nested r full / trail
audit | SELECT d.id, r.id AS r FROM deal d LEFT JOIN region r ON FALSE ORDER BY id LIMIT 2 | 0 cost 38 / on r FALSE / first d full / left nested r full / sort d.id / trail
audit | SELECT d.id, r.name FROM deal d LEFT JOIN region r ON d.region = r.id ORDER BY id | 0 cost 40 / on r (d.region = r.id) / first d full / left hash 1 r full / sort d.id / trail
alice | SELECT r.id, d.id AS k FROM region r LEFT JOIN deal d ON r.id = d.region | 0 cost 15 / on d (r.id = d.region) / first r full / left nested d full / trail
";

// Left joins that become inner, by a condition that is true on no null row.
const TURNED: &str = "\
audit | SELECT d.id FROM deal d LEFT JOIN region r ON d.region = r.id WHERE r.name = 'north' | 0 cost 13 / filter 1 (r.name = 'north') / filter 2 (d.region = r.id) / first d full / nested r full / trail
audit | SELECT d.id FROM deal d LEFT JOIN region r ON d.region = r.id WHERE r.id IN (1, 7) | 0 cost 13 / filter 1 (r.id IN (1, 7)) / filter 2 (d.region = r.id) / first d full / nested r full / trail
audit | SELECT d.id FROM deal d LEFT JOIN region r ON d.region = r.id WHERE r.name IS NOT NULL AND NOT (r.id <> 1) | 0 cost 10 / filter 1 (r.name IS NOT NULL) / filter 2 (r.id = 1) / filter 3 (d.region = r.id) / filter 4 (d.region = 1) / first d full / nested r full / trail
audit | SELECT d.id FROM deal d LEFT JOIN region r ON d.region = r.id LEFT JOIN region s ON r.id = s.id WHERE r.id = 1 | 0 cost 16 / filter 1 (r.id = 1) / filter 2 (d.region = r.id) / filter 3 (d.region = 1) / on s (r.id = s.id) / first d full / nested r full / left nested s full / trail
audit | SELECT d.id FROM deal d LEFT JOIN region r ON d.region = r.id LEFT JOIN region s ON r.id = s.id WHERE d.id = r.id AND r.id = s.id | 0 cost 25 / filter 1 (d.id = r.id) / filter 2 (r.id = s.id) / filter 3 (d.region = r.id) / first d full / hash 1 r full / nested s full / trail
audit | SELECT d.id FROM deal d, region s LEFT JOIN region r ON s.id = r.id WHERE d.region = s.id AND d.id = r.id | 0 cost 31 / filter 1 (d.region = s.id) / filter 2 (d.id = r.id) / filter 3 (s.id = r.id) / first d full / hash 2 r full / nested s full / trail
audit | SELECT d.id FROM deal d LEFT JOIN region r ON FALSE WHERE r.id > 0 | 0 cost 0 / filter 1 (r.id > 0) / filter 2 FALSE / empty / trail
audit | SELECT d.id FROM deal d LEFT JOIN region r ON NOT (d.region <> r.id OR d.id < 0) WHERE r.id > 0 | 0 cost 19 / filter 1 (r.id > 0) / filter 2 (d.region = r.id) / filter 3 (d.id >= 0) / first d full / hash 2 r full / trail
";

// Groups and orders, with and without a last sort.
const ORDERS: &str = "\
audit | SELECT owner, count(*) AS n FROM deal GROUP BY owner | 0 cost 20 / first deal full / sort deal.owner / trail
audit | SELECT id FROM deal ORDER BY id | 0 cost 20 / first deal full / sort deal.id / trail
audit | SELECT id FROM deal ORDER BY id DESC | 0 cost 5 / first deal full / trail
audit | SELECT id + 1 AS n FROM deal ORDER BY n | 0 cost 5 / first deal full / trail
audit | SELECT count(*) AS n FROM deal GROUP BY owner, id ORDER BY n | 0 cost 20 / first deal full / sort deal.owner / trail
audit | SELECT r.name, count(*) AS n FROM deal d JOIN region r ON d.region = r.id GROUP BY r.name | 0 cost 40 / filter 1 (d.region = r.id) / first d full / hash 1 r full / sort r.name / trail
";

// Over an index on the deals' id.
const INDEXED: &str = "\
audit | SELECT id FROM deal WHERE id = 3 | 0 cost 3 / filter 1 (deal.id = 3) / first deal index id by 1 / trail
alice | SELECT id FROM deal WHERE id = 3 | 0 cost 3 / filter 1 (deal.id = 3) / first deal full / trail
audit | SELECT id FROM deal WHERE id < 3 | 0 cost 5 / filter 1 (deal.id < 3) / first deal full / trail
audit | SELECT id FROM deal ORDER BY id | 0 cost 10 / first deal index id / trail
audit | SELECT id, count(*) AS n FROM deal GROUP BY id | 0 cost 10 / first deal index id / trail
";

const REPLIES: &str = "\
zed | SELECT id FROM deal | 6 refused 42704
audit | SELECT | 3 refused 42601 at 6
audit | SELECT nosuch FROM deal | 3 refused 42703 at 7
audit | SELECT id FROM nosuch | 3 refused 42P01 at 15
audit | SELECT d.id FROM deal d LEFT JOIN region r ON CAST(d.id AS text) = r.name | 3 refused 0A000 at 46
lone | SELECT d.id FROM deal d LEFT JOIN region r ON d.region = r.id | 4 denied 42501 column id of table deal
lone | SELECT id FROM deal | 4 denied 42501 column id of table deal
guest | SELECT owner FROM deal | 4 denied 42501 column owner of table deal
";

// A policy that shows every row lets a role count them all.
const OPEN_POLICY: &str = "\
root | SELECT id FROM t | 0 cost 2 / first t full / trail
reader | SELECT id FROM t | 0 cost 2 / first t full / trail
";

const OPEN_SCHEMA: &str = "CREATE ROLE reader; CREATE TABLE t (id bigint);
ALTER TABLE t ENABLE ROW LEVEL SECURITY; CREATE POLICY p ON t USING (TRUE); GRANT SELECT ON t TO reader;";

// Tables with the same six rows, each with a policy of its own: one sees two rows of lanes and of cases, and four of the others, three
// of them with a number; of own two sees two rows, and three none.
const GUARDS: &str = "\
one | SELECT id FROM lanes | 0 cost 2 / first lanes full / trail
one | SELECT id FROM texts | 0 cost 4 / first texts full / trail
one | SELECT id FROM cases | 0 cost 2 / first cases full / trail
one | SELECT id FROM own | 0 cost 4 / first own full / trail
two | SELECT id FROM own | 0 cost 2 / first own full / trail
three | SELECT id FROM own | 0 cost 0 / first own full / trail
one | SELECT id FROM own WHERE id = 2 | 0 cost 3 / filter 1 (own.id = 2) / first own index id by 1 / trail
two | SELECT id FROM own WHERE id = 2 | 0 cost 2 / filter 1 (own.id = 2) / first own full / trail
one | SELECT id FROM own ORDER BY id | 0 cost 8 / first own index id / trail
two | SELECT id FROM own ORDER BY id | 0 cost 4 / first own index id / trail
three | SELECT o.id FROM own o, lanes l WHERE o.id = l.id | 0 cost 4 / filter 1 (o.id = l.id) / first o full / nested l full / trail
";

const GUARDS_SCHEMA: &str = "CREATE ROLE one; CREATE ROLE two; CREATE ROLE three;
CREATE TABLE lanes (id bigint, owner text); ALTER TABLE lanes ENABLE ROW LEVEL SECURITY; GRANT SELECT ON lanes TO PUBLIC;
CREATE POLICY p ON lanes USING (id < 3);
CREATE TABLE texts (id bigint, owner text); ALTER TABLE texts ENABLE ROW LEVEL SECURITY; GRANT SELECT ON texts TO PUBLIC;
CREATE POLICY p ON texts USING (owner = 'one');
CREATE TABLE cases (id bigint, owner text); ALTER TABLE cases ENABLE ROW LEVEL SECURITY; GRANT SELECT ON cases TO PUBLIC;
CREATE POLICY p ON cases USING (CASE WHEN owner = CURRENT_USER THEN id > 1 ELSE FALSE END);
CREATE TABLE own (id bigint, owner text); ALTER TABLE own ENABLE ROW LEVEL SECURITY; GRANT SELECT ON own TO PUBLIC;
CREATE POLICY p ON own USING (owner = CURRENT_USER); CREATE INDEX own_id ON own (id);";

const GUARDED_ROWS: &str = "id,owner\n1,one\n2,one\n3,two\n4,one\n5,two\n\\N,one\n";

// The two tables with ids 1 to 1000, and an index on each id.
const THOUSANDS: &str = "\
root | SELECT a.id FROM a, b WHERE a.id = b.id ORDER BY id | 0 cost 6000 / filter 1 (a.id = b.id) / first a index id / hash 1 b full / trail
root | SELECT a.id FROM a, b WHERE a.id = b.id AND a.id < 11 AND b.id < 11 | 0 cost 62 / filter 1 (a.id = b.id) / filter 2 (a.id < 11) / filter 3 (b.id < 11) / first a index id by 2 / merge 1 b index id by 3 / trail
";

const THOUSANDS_SCHEMA: &str = "CREATE TABLE a (id bigint); CREATE TABLE b (id bigint);
CREATE INDEX a_id ON a (id); CREATE INDEX b_id ON b (id);";

// The lines of a text up to `trail`, with ` / ` between them.
fn head_of(alloc: Global, status: u8, text: &str) -> Result<String, AllocError> {
    let mut head = format!(in alloc; "{status} ")?;
    for (i, line) in text.lines().enumerate() {
        if i > 0 {
            head.push_str(" / ")?;
        }
        head.push_str(line)?;
        if line == "trail" {
            return Ok(head);
        }
    }
    Ok(head)
}

// What explains a row's query is what it should be, and a plan is accepted.
fn explain(
    rt: &(impl Abort + AllocGlobal),
    store: &Store<Global>,
    row: &str,
) -> Result<(), AllocError> {
    let alloc = rt.alloc();
    let ([role, text, want, _], _) = fields(row);
    let (status, out) = explained(alloc, store, role, text);
    let written = std::str::from_utf8(out.inner.as_slice()).unwrap_or("no UTF-8");
    let head = head_of(alloc, status, written)?;
    assert_eq!(rt; head.as_str(), want, "{row}");
    if status == 0 {
        let (verdict, line) = audited(alloc, store, role, text, out.inner.as_slice());
        let line = std::str::from_utf8(line.inner.as_slice()).unwrap_or("no UTF-8");
        assert_eq!(rt; verdict, 0, "{row}");
        assert_eq!(rt; line, "accepted\n", "{row}");
    }
    Ok(())
}

fn explain_all(
    rt: &(impl Abort + AllocGlobal),
    store: &Store<Global>,
    rows: &str,
) -> Result<(), AllocError> {
    assert!(rt; !rows.is_empty());
    for row in rows.lines() {
        explain(rt, store, row)?;
    }
    Ok(())
}

// A left join under so many comparisons of `d.id` and one that makes it inner: of the text that explains it, all after the cost is
// the conditions as they are written and then the end.
fn many(
    rt: &(impl Abort + AllocGlobal),
    store: &Store<Global>,
    count: u64,
    end: &str,
) -> Result<(), AllocError> {
    let alloc = rt.alloc();
    let mut text = String::new(alloc);
    text.push_str(
        "SELECT d.id FROM deal d LEFT JOIN region r ON NOT (d.region <> r.id OR d.id < 0) WHERE ",
    )?;
    let mut want = String::new(alloc);
    for i in 0..count {
        write!(text, "d.id > {i} AND ")?;
        write!(want, "/ filter {} (d.id > {i}) ", i.wrapping_add(1))?;
    }
    text.push_str("r.id > 0")?;
    write!(want, "/ filter {} (r.id > 0) {end}", count.wrapping_add(1))?;
    let (status, out) = explained(alloc, store, "audit", text.as_str());
    let written = std::str::from_utf8(out.inner.as_slice()).unwrap_or("no UTF-8");
    let head = head_of(alloc, status, written)?;
    assert!(rt; head.starts_with("0 cost "), "{head}");
    assert!(rt; head.ends_with(want.as_str()), "{head}");
    let (verdict, _) = audited(alloc, store, "audit", text.as_str(), out.inner.as_slice());
    assert_eq!(rt; verdict, 0);
    Ok(())
}

fn thousands(alloc: Global) -> Result<Box<Store<Global>, Global>, Failure<FixtureError>> {
    let mut store = store_of(alloc, THOUSANDS_SCHEMA)?;
    let rows = ids(alloc, 1000)?;
    load(&mut store, "a", rows.as_str())?;
    load(&mut store, "b", rows.as_str())?;
    Ok(store)
}

#[test]
fn joins_are_planned_by_cost(rt: HostRuntime) -> Result<(), Fail> {
    let store = sales(rt.alloc())?;
    Ok(explain_all(&rt, &store, JOINS)?)
}

#[test]
fn left_joins_are_planned_by_cost(rt: HostRuntime) -> Result<(), Fail> {
    let store = sales(rt.alloc())?;
    Ok(explain_all(&rt, &store, LEFT)?)
}

#[test]
fn left_joins_become_inner_by_conditions(rt: HostRuntime) -> Result<(), Fail> {
    let store = sales(rt.alloc())?;
    Ok(explain_all(&rt, &store, TURNED)?)
}

#[test]
fn left_join_stays_where_its_conditions_are_too_many(rt: HostRuntime) -> Result<(), Fail> {
    let store = sales(rt.alloc())?;
    let on =
        "/ on r (NOT ((d.region <> r.id) OR (d.id < 0))) / first d full / left nested r full / trail";
    many(&rt, &store, 62, on)?;
    let inner =
        "/ filter 63 (d.region = r.id) / filter 64 (d.id >= 0) / first d full / nested r full / trail";
    Ok(many(&rt, &store, 61, inner)?)
}

#[test]
fn single_tables_and_empty_plans(rt: HostRuntime) -> Result<(), Fail> {
    let store = sales(rt.alloc())?;
    Ok(explain_all(&rt, &store, SINGLE)?)
}

#[test]
fn wanted_orders_have_a_last_sort_where_nothing_gives_them(rt: HostRuntime) -> Result<(), Fail> {
    let store = sales(rt.alloc())?;
    Ok(explain_all(&rt, &store, ORDERS)?)
}

#[test]
fn indexes_are_used_where_they_cost_less(rt: HostRuntime) -> Result<(), Fail> {
    let store = indexed_sales(rt.alloc())?;
    Ok(explain_all(&rt, &store, INDEXED)?)
}

#[test]
fn refusals_and_denials_come_first(rt: HostRuntime) -> Result<(), Fail> {
    let store = sales(rt.alloc())?;
    Ok(explain_all(&rt, &store, REPLIES)?)
}

#[test]
fn orders_of_indexes_and_merges_are_worth_their_cost(rt: HostRuntime) -> Result<(), Fail> {
    let store = thousands(rt.alloc())?;
    Ok(explain_all(&rt, &store, THOUSANDS)?)
}

#[test]
fn guards_of_each_kind_let_their_rows_be_counted(rt: HostRuntime) -> Result<(), Fail> {
    let mut store = store_of(rt.alloc(), GUARDS_SCHEMA)?;
    load(&mut store, "lanes", GUARDED_ROWS)?;
    load(&mut store, "texts", GUARDED_ROWS)?;
    load(&mut store, "cases", GUARDED_ROWS)?;
    load(&mut store, "own", GUARDED_ROWS)?;
    explain_all(&rt, &store, GUARDS)?;
    let mut open = store_of(rt.alloc(), OPEN_SCHEMA)?;
    load(&mut open, "t", "id\n1\n2\n")?;
    Ok(explain_all(&rt, &open, OPEN_POLICY)?)
}

// A text of alice is explained by the same bytes over these deals as over those of sales.
fn explained_alike(rt: &(impl Abort + AllocGlobal), deals: &str) -> Result<(), Fail> {
    let alloc = rt.alloc();
    let query =
        "SELECT d.id FROM deal d, region r WHERE d.region = r.id AND d.id < 100 ORDER BY id";
    let full = sales(alloc)?;
    let mut other = store_of(alloc, SALES)?;
    load(&mut other, "deal", deals)?;
    load(&mut other, "region", SALES_REGIONS)?;
    let (status, one) = explained(alloc, &full, "alice", query);
    let (same, two) = explained(alloc, &other, "alice", query);
    assert_eq!(rt; status, 0);
    assert_eq!(rt; same, 0);
    assert!(rt; one.inner.len() > 100);
    assert_eq!(rt; one.inner.as_slice(), two.inner.as_slice());
    Ok(())
}

#[test]
fn hidden_rows_and_columns_that_are_not_named_change_no_byte(rt: HostRuntime) -> Result<(), Fail> {
    explained_alike(
        &rt,
        "id,owner,region,amount,parts\n900,bob,7,1,1\n5,alice,\\N,100,5\n2,alice,2,50,0\n1,alice,1,100,4\n",
    )?;
    explained_alike(
        &rt,
        "id,owner,region,amount,parts\n1,alice,1,7,7\n2,alice,2,8,7\n5,alice,\\N,9,\\N\n",
    )
}
