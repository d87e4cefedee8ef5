//! Audits of plans.

use crate::queries::query_text;
use crate::rows::{bytes_of, fields};
use crate::stores::indexed_sales;
use fixtures::{audited, sales};
use std::alloc::{AllocError, AllocGlobal, Global};
use std::process::Abort;
use std::test::Fail;
use store::Store;

// A role, its query or its name, the text of a plan, and the status with the line that is written, with ` | ` between them. In query and
// plan `;` stands for an LF and `~` for a byte that is no UTF-8.
const VERDICTS: &str = "\
audit | ONE | cost 5;filter 1 (deal.id = 3);first deal full;trail;9 0; | 0 accepted
alice | ONE | cost 5;filter 1 (deal.id = 3);first deal full;trail;8 .; | 0 accepted
alice | ONE | cost 5;filter 1 (deal.id = 3);first deal full;trail;9 0; | 3 refused line 1 reason 4
audit | ONE | cost 5;filter 1 (deal.id = 3);first deal full;trail; | 3 refused line 1 reason 6
audit | ONE | cost 5;filter 1 (deal.id = 3);first deal full;trail;9 000; | 3 refused line 1 reason 2
audit | ONE | cost 5;filter 1 (deal.id = 3);first deal full;trail;9 00; | 3 refused line 1 reason 3
audit | ONE | cost 5;filter 1 (deal.id = 3);first deal full;trail;10 .; | 3 refused line 1 reason 4
audit | ONE | cost 5;filter 1 (deal.id = 3);first deal full;trail;9 2; | 3 unreadable line 5
audit | ONE | cost 5;filter 1 (deal.id = 3);first deal index id by 1;trail;9 0; | 3 refused line 0 reason 5
audit | ONE | cost 5;filter 1 (deal.id = 3);first deal full;trail;10- . 0;2 .;10- . 0;2 .;10- . 0;2 .;10- . 0;2 .;10- . 0;2 .;10- . 0;2 .;10- . 0;2 .; | 3 refused line 14 reason 4
audit | ONE | cost 5;filter 1 (deal.id = 3);first deal full;nested deal full;trail;9 0; | 3 refused line 0 reason 5
audit | SELECT id FROM deal WHERE 1 = 2 | cost 0;filter 1 FALSE;empty;trail;14 .;15 .; | 0 accepted
audit | SELECT id FROM deal WHERE 1 = 2 | cost 0;filter 1 FALSE;empty;sort deal.id;trail;14 .;15 .; | 0 accepted
audit | SELECT id FROM deal WHERE 1 = 2 | cost 0;filter 1 (1 = 2);empty;trail;14 .;15 .; | 3 refused line 0 reason 5
audit | SELECT id FROM deal WHERE 1 = 2 | cost 0;filter 1 FALSE;first deal full;trail;14 .;15 .; | 3 refused line 0 reason 5
audit | SELECT id FROM deal | cost 5;first deal full;trail;9 .; | 0 accepted
root | SELECT deal.id FROM deal, region WHERE deal.region = region.id | cost 9;filter 1 (deal.region = region.id);first deal full;nested region full;trail;9 00;9 01; | 0 accepted
root | SELECT deal.id FROM deal, region WHERE deal.region = region.id | cost 9;filter 1 (deal.region = region.id);first region full;hash 1 deal full;sort deal.id;trail;9 00;9 01;6 0; | 0 accepted
root | SELECT deal.id FROM deal, region WHERE deal.region = region.id | cost 9;filter 1 (deal.region = region.id);first region full;hash 2 deal full;trail;9 00;9 01;6 0; | 3 refused line 0 reason 5
alice | SELECT a.id FROM deal a, deal b WHERE a.id = b.id | cost 9;filter 1 (a.id = b.id);first a full;hash 1 b full;trail; | 0 accepted
alice | SELECT a.id FROM deal a, deal b WHERE a.id = b.id | cost 9;filter 1 (b.id = a.id);first a full;hash 1 b full;trail; | 3 refused line 0 reason 5
";

// Filters that are not the planning list, or are it in another spelling.
const FILTERS: &str = "\
audit | ONE | cost 5;filter 1 deal.id = 3;first deal full;trail;9 0; | 0 accepted
audit | ONE | cost 5;filter 1 (DEAL.Id=((3)));first deal full;trail;9 0; | 0 accepted
audit | ONE | cost 5;filter 1 (deal.id = 4);first deal full;trail;9 0; | 3 refused line 0 reason 5
audit | ONE | cost 5;filter 1 (deal.amount = 3);first deal full;trail;9 0; | 3 refused line 0 reason 5
audit | ONE | cost 5;filter 1 (3 = deal.id);first deal full;trail;9 0; | 3 refused line 0 reason 5
audit | ONE | cost 5;filter 1 (deal.id <= 3);first deal full;trail;9 0; | 3 refused line 0 reason 5
audit | ONE | cost 5;filter 1 (deal.id = 'a');first deal full;trail;9 0; | 3 refused line 0 reason 5
audit | ONE | cost 5;filter 1 (deal.id + 0 = 3);first deal full;trail;9 0; | 3 refused line 0 reason 5
audit | ONE | cost 5;filter 1 sum(deal.id) = 3;first deal full;trail;9 0; | 3 refused line 0 reason 5
audit | ONE | cost 5;first deal full;trail;9 0; | 3 refused line 0 reason 5
audit | ONE | cost 5;filter 1 (deal.id = 3);filter 2 (deal.id = 3);first deal full;trail;9 0; | 3 refused line 0 reason 5
audit | SELECT id FROM deal WHERE id = 3 AND owner = 'bob' | cost 5;filter 1 (deal.id = 3);filter 2 (deal.owner = 'bob');first deal full;trail;9 00; | 0 accepted
audit | SELECT id FROM deal WHERE id = 3 AND owner = 'bob' | cost 5;filter 1 (deal.owner = 'bob');filter 2 (deal.id = 3);first deal full;trail;9 00; | 3 refused line 0 reason 5
audit | SELECT id FROM deal WHERE NOT (id IN (1, 2) OR owner IS NULL) | cost 5;filter 1 (deal.id NOT IN (1, 2));filter 2 (deal.owner IS NOT NULL);first deal full;trail;13 .;1 .;9 00; | 0 accepted
audit | SELECT id FROM deal WHERE owner = 'it''s;é' | cost 5;filter 1 (deal.owner = 'it''s;é');first deal full;trail;9 0; | 0 accepted
audit | SELECT id FROM deal WHERE owner = 'it''s;é' | cost 5;filter 1 (deal.owner = 'it''s;é');first x full;trail;9 0; | 3 unreadable line 3
audit | SELECT id FROM deal WHERE owner = 'it''s;é' | cost 5;filter 1 (deal.owner = 'it''s é');first deal full;trail;9 0; | 3 refused line 0 reason 5
";

const UNREADABLE: &str = "\
audit | ONE |  | 3 unreadable line 1
audit | ONE | ; | 3 unreadable line 1
audit | ONE | cost 5;filter 1 (deal.id = 3);first deal full;trail;9 0 | 3 unreadable line 5
audit | ONE | cost 5;filter 1 (deal.id = 3);first deal full; | 3 unreadable line 4
audit | ONE | cost 5;filter 1 (deal.id = 3);first deal full;trail;9 0;; | 3 unreadable line 6
audit | ONE | cost 5;filter 1 (deal.id = 3);first deal full;trail;9 0;sort deal.id; | 3 unreadable line 6
audit | ONE | cost 5;filter 1 (deal.id = 3);first deal full;trail;9 0 x; | 3 unreadable line 5
audit | ONE | cost 5;filter 1 (id = 3);first deal full;trail;9 0; | 3 unreadable line 2
audit | ONE | cost 5;filter 1 (x.id = 3);first deal full;trail;9 0; | 3 unreadable line 2
audit | ONE | cost 5;filter 1 (deal.nosuch = 3);first deal full;trail;9 0; | 3 unreadable line 2
audit | ONE | cost 5;filter 1 (deal.id = 3 OR (NOT CASE WHEN deal.id IN (1) THEN TRUE ELSE id = 1 END));first deal full;trail;9 0; | 3 unreadable line 2
audit | ONE | cost 5;filter 1 (deal.id = 3);first x full;trail;9 0; | 3 unreadable line 3
audit | ONE | cost 5;filter 1 (deal.id = 3);first deal index nosuch;trail;9 0; | 3 unreadable line 3
alice | SELECT a.id FROM deal a, deal b WHERE a.id = b.id | cost 9;filter 1 (deal.id = b.id);first a full;hash 1 b full;trail; | 3 unreadable line 2
audit | ONE | cost 5;filter 2 (deal.id = 3);first deal full;trail;9 0; | 3 unreadable line 2
audit | ONE | cost 5;filter +1 (deal.id = 3);first deal full;trail;9 0; | 3 unreadable line 2
audit | ONE | cost 5;filter 01 (deal.id = 3);first deal full;trail;9 0; | 3 unreadable line 2
audit | ONE | cost 5;filter 1 (deal.id = 3;first deal full;trail;9 0; | 3 unreadable line 2
audit | ONE | cost 05;filter 1 (deal.id = 3);first deal full;trail;9 0; | 3 unreadable line 1
audit | ONE | cost 340282366920938463463374607431768211455;filter 1 (deal.id = 3);first deal full;trail;9 0; | 0 accepted
audit | ONE | cost 340282366920938463463374607431768211456;filter 1 (deal.id = 3);first deal full;trail;9 0; | 3 unreadable line 1
audit | ONE | cost 5;filter 1 (deal.id = 3);first deal full;trail;09 0; | 3 unreadable line 5
audit | ONE | cost 5;filter 1 (deal.id = 3);first deal full;trail;18446744073709551615 .; | 3 refused line 1 reason 3
audit | ONE | cost 5;filter 1 (deal.id = 3);first deal full;trail;18446744073709551616 .; | 3 unreadable line 5
audit | ONE | cost 5;filter 1 (deal.id = 3);first deal full;trail;10 . 18446744073709551616; | 3 unreadable line 5
audit | ONE | cost 5;filter 1 (deal.id = 3);first deal index id by 0;trail;9 0; | 3 refused line 0 reason 5
audit | ONE | cost 5;filter 1 (deal.id = 3);first deal index id by 18446744073709551616;trail;9 0; | 3 unreadable line 3
audit | SELECT id FROM deal WHERE 1 = 2 | cost 0;filter 1 FALSE;empty;nested deal full;trail;14 .;15 .; | 3 unreadable line 4
audit | SELECT id FROM deal WHERE 1 = 2 | cost 0;filter 1 FALSE;empty;sort id;trail;14 .;15 .; | 3 unreadable line 4
audit | ONE | cost 5;filter 1 (deal.owner = '~');first deal full;trail;9 0; | 3 unreadable line 2
audit | ONE | cost 5;filter 1 (deal.id = 3);first deal full;trail;9 ~; | 3 unreadable line 5
";

// Roles, texts and privileges come before the plan.
const REPLIES: &str = "\
zed | ONE | cost 5;filter 1 (deal.id = 3);first deal full;trail;9 0; | 6 refused 42704
zed | ONE |  | 6 refused 42704
audit | SELECT | cost 5; | 3 refused 42601 at 6
audit | SELECT nosuch FROM deal | cost 5; | 3 refused 42703 at 7
lone | SELECT count(*) FROM deal | cost 5;first deal full;trail;9 .; | 4 denied 42501 table deal
lone | ONE |  | 4 denied 42501 column id of table deal
";

// The same over a table with an index.
const INDEXED: &str = "\
audit | ONE | cost 5;filter 1 (deal.id = 3);first deal index id by 1;trail;9 0; | 0 accepted
audit | ONE | cost 5;filter 1 (deal.id = 3);first deal index id;trail;9 0; | 0 accepted
audit | ONE | cost 5;filter 1 (deal.id = 3);first deal index owner;trail;9 0; | 3 refused line 0 reason 5
audit | ONE | cost 5;filter 1 (deal.id = 3);first deal index owner by 1;trail;9 0; | 3 refused line 0 reason 5
audit | SELECT deal.id FROM region, deal WHERE deal.id = 3 | cost 5;filter 1 (deal.id = 3);first region full;nested deal index id by 1;trail;5 .;9 0;9 10; | 0 accepted
audit | SELECT deal.id FROM region, deal WHERE deal.id = 3 | cost 5;filter 1 (deal.id = 3);first region index id;nested deal full;trail;5 .;9 0;9 10; | 3 refused line 0 reason 5
";

// Left joins: their lines, and the rules that fit them.
const LEFT: &str = "\
audit | SELECT d.id FROM deal d LEFT JOIN region r ON d.region = r.id WHERE r.name IS NULL | cost 0;filter 1 (r.name IS NULL);on r (d.region = r.id);first d full;left hash 1 r full;trail;9 00;9 01; | 0 accepted
audit | SELECT d.id FROM deal d LEFT JOIN region r ON d.region = r.id WHERE r.name IS NULL | cost 0;filter 1 (r.name IS NULL);on r (d.region = r.id);first d full;left nested r full;trail;9 00;9 01; | 0 accepted
audit | SELECT d.id FROM deal d LEFT JOIN region r ON d.region = r.id WHERE r.name IS NULL | cost 0;filter 1 (r.name IS NULL);on r (d.region = r.id);first d full;left hash 1 r full;trail;19 .; | 3 refused line 1 reason 4
audit | SELECT d.id FROM deal d LEFT JOIN region r ON d.region = r.id WHERE r.name IS NULL | cost 0;filter 1 (r.name IS NULL);on r (d.region = r.id);first d full;left hash 1 r full;trail;20 .; | 3 refused line 1 reason 4
audit | SELECT d.id FROM deal d LEFT JOIN region r ON d.region = r.id WHERE r.name IS NULL | cost 0;filter 1 (r.name IS NULL);on r (d.region = r.id);first d full;left hash 1 r full;trail;4 .; | 3 refused line 1 reason 3
audit | SELECT d.id FROM deal d LEFT JOIN region r ON d.region = r.id WHERE r.name IS NULL | cost 0;filter 1 (r.name IS NULL);on r (d.region = r.id);first d full;left hash 1 r full;trail;5 .; | 3 refused line 1 reason 3
audit | SELECT d.id FROM deal d LEFT JOIN region r ON d.region = r.id WHERE r.name IS NULL | cost 0;filter 1 (r.name IS NULL);on r (d.region = r.id);first d full;left hash 1 r full;trail;6 0; | 3 refused line 1 reason 3
audit | SELECT d.id FROM deal d LEFT JOIN region r ON d.region = r.id WHERE r.name IS NULL | cost 0;filter 1 (r.name IS NULL);on r (d.region = r.id);first d full;left hash 1 r full;trail;16 .; | 3 refused line 1 reason 3
audit | SELECT d.id FROM deal d LEFT JOIN region r ON d.region = r.id WHERE r.name IS NULL | cost 0;filter 1 (r.name IS NULL);on r (d.region = r.id);first d full;left hash 1 r full;trail;20- 0; | 3 refused line 1 reason 3
audit | SELECT d.id FROM deal d LEFT JOIN region r ON d.region = r.id WHERE r.name IS NULL | cost 0;filter 1 (r.name IS NULL);on r (d.region = r.id);first d full;left hash 1 r full;trail;19- .; | 3 refused line 1 reason 3
audit | SELECT d.id FROM deal d LEFT JOIN region r ON d.region = r.id WHERE r.name IS NULL | cost 0;filter 1 (r.name IS NULL);on r (d.region = r.id);first d full;left hash 1 r full;trail;19 . 1; | 3 refused line 1 reason 3
audit | SELECT d.id FROM deal d LEFT JOIN region r ON d.region = r.id WHERE r.name IS NULL | cost 0;filter 1 (r.name IS NULL);on r (d.region = r.id);first d full;left hash 1 r full;trail;21 .; | 3 refused line 1 reason 3
audit | SELECT d.id FROM deal d LEFT JOIN region r ON d.region = r.id WHERE r.name IS NULL | cost 0;filter 1 (r.name IS NULL);on r (d.region = r.id);first d full;left hash 1 r full;trail;9 010; | 3 refused line 1 reason 3
audit | SELECT d.id FROM deal d LEFT JOIN region r ON d.region = r.id WHERE r.name IS NULL | cost 0;filter 1 (r.name IS NULL);on r (d.region = r.id);first d full;left hash 1 r full;trail;9 0101; | 3 refused line 1 reason 2
audit | SELECT d.id FROM deal d LEFT JOIN region r ON d.region = r.id WHERE r.name IS NULL | cost 0;filter 1 (r.name IS NULL);on r (d.region = r.id);first d full;left hash 1 r full;trail; | 3 refused line 1 reason 6
audit | SELECT d.id FROM deal d LEFT JOIN region r ON d.region = r.id WHERE r.name IS NULL | cost 0;filter 1 (r.name IS NULL);on r (d.region = r.id);first d full;hash 1 r full;trail;9 00;9 01; | 3 refused line 0 reason 5
audit | SELECT d.id FROM deal d LEFT JOIN region r ON d.region = r.id WHERE r.name IS NULL | cost 0;filter 1 (r.name IS NULL);on r (d.region = r.id);first d full;left hash 2 r full;trail;9 00;9 01; | 3 refused line 0 reason 5
audit | SELECT d.id FROM deal d LEFT JOIN region r ON d.region = r.id WHERE r.name IS NULL | cost 0;filter 1 (r.name IS NULL);first d full;left hash 1 r full;trail;9 00;9 01; | 3 refused line 0 reason 5
audit | SELECT d.id FROM deal d LEFT JOIN region r ON d.region = r.id WHERE r.name IS NULL | cost 0;filter 1 (r.name IS NULL);on r (d.region = r.id);on r (d.region = r.id);first d full;left hash 1 r full;trail;9 00;9 01; | 3 refused line 0 reason 5
audit | SELECT d.id FROM deal d LEFT JOIN region r ON d.region = r.id WHERE r.name IS NULL | cost 0;filter 1 (r.name IS NULL);on r (r.id = d.region);first d full;left hash 1 r full;trail;9 00;9 01; | 3 refused line 0 reason 5
audit | SELECT d.id FROM deal d LEFT JOIN region r ON d.region = r.id WHERE r.name IS NULL | cost 0;filter 1 (r.name IS NULL);on d (d.region = r.id);first d full;left hash 1 r full;trail;9 00;9 01; | 3 refused line 0 reason 5
audit | SELECT d.id FROM deal d LEFT JOIN region r ON d.region = r.id WHERE r.name IS NULL | cost 0;filter 1 (r.name IS NULL);on r (d.region = r.id);first r full;left hash 1 d full;trail;9 00;9 01; | 3 refused line 0 reason 5
audit | SELECT d.id FROM deal d LEFT JOIN region r ON d.region = r.id WHERE r.name IS NULL | cost 0;filter 1 (r.name IS NULL);on r (d.region = r.id);first d full;left merge 1 r full;trail;9 00;9 01; | 3 unreadable line 5
audit | SELECT d.id FROM deal d LEFT JOIN region r ON d.region = r.id WHERE r.name IS NULL | cost 0;filter 1 (r.name IS NULL);on r (d.region = r.id);first d full;left nested r index id;trail;9 00;9 01; | 3 unreadable line 5
audit | SELECT d.id FROM deal d LEFT JOIN region r ON d.region = r.id WHERE r.name IS NULL | cost 0;filter 1 (r.name IS NULL);on r (d.region = r.id);first d full;left hash r full;trail;9 00;9 01; | 3 unreadable line 5
audit | SELECT d.id FROM deal d LEFT JOIN region r ON d.region = r.id WHERE r.name IS NULL | cost 0;filter 1 (r.name IS NULL);on r (d.region = r.id);left first d full;left hash 1 r full;trail;9 00;9 01; | 3 unreadable line 4
audit | SELECT d.id FROM deal d LEFT JOIN region r ON d.region = r.id WHERE r.name IS NULL | cost 0;filter 1 (r.name IS NULL);on x (d.region = r.id);first d full;left hash 1 r full;trail;9 00;9 01; | 3 unreadable line 3
audit | SELECT d.id FROM deal d LEFT JOIN region r ON d.region = r.id WHERE r.name IS NULL | cost 0;on r (d.region = r.id);filter 1 (r.name IS NULL);first d full;left hash 1 r full;trail;9 00;9 01; | 3 unreadable line 3
audit | SELECT d.id FROM deal d LEFT JOIN region r ON d.region = r.id WHERE r.name = 'north' | cost 0;filter 1 (r.name = 'north');on r (d.region = r.id);first d full;left hash 1 r full;trail;9 00;9 01; | 3 refused line 0 reason 5
audit | SELECT d.id FROM deal d LEFT JOIN region r ON d.region = r.id WHERE r.name = 'north' | cost 0;filter 1 (r.name = 'north');filter 2 (d.region = r.id);first d full;hash 2 r full;trail;19 .;3 .;9 000;9 001;5 0; | 0 accepted
audit | SELECT d.id FROM deal d LEFT JOIN region r ON d.region = r.id WHERE r.name = 'north' | cost 0;filter 1 (r.name = 'north');filter 2 (d.region = r.id);first d full;hash 2 r full;trail;9 00;9 01; | 3 refused line 3 reason 6
alice | SELECT d.id FROM region s LEFT JOIN deal d ON s.id = d.region | cost 0;on d (s.id = d.region);first s full;left nested d full;trail;9 0; | 0 accepted
alice | SELECT d.id FROM region s LEFT JOIN deal d ON s.id = d.region | cost 0;on d (s.id = d.region);first s full;left nested d full;trail;9 0;9 1; | 3 refused line 2 reason 4
";

// The query of a row.
fn query_of(alloc: Global, text: &str) -> Result<String, AllocError> {
    let mut query = String::new(alloc);
    for part in query_text(text).split(';') {
        if !query.is_empty() {
            query.push_str("\n")?;
        }
        query.push_str(part)?;
    }
    Ok(query)
}

// The status and the text of an audit.
fn audit_text(
    alloc: Global,
    store: &Store<Global>,
    role: &str,
    text: &str,
    plan: &[u8],
) -> Result<String, AllocError> {
    let (status, out) = audited(alloc, store, role, text, plan);
    let written = std::str::from_utf8(out.inner.as_slice()).unwrap_or("no UTF-8\n");
    format!(in alloc; "{status} {written}")
}

fn audit(
    rt: &(impl Abort + AllocGlobal),
    store: &Store<Global>,
    row: &str,
) -> Result<(), AllocError> {
    let ([role, text, plan, want], _) = fields(row);
    let query = query_of(rt.alloc(), text)?;
    let plan = bytes_of(rt.alloc(), plan)?;
    let got = audit_text(rt.alloc(), store, role, query.as_str(), plan.as_slice())?;
    let want = format!(in rt.alloc(); "{want}\n")?;
    assert_eq!(rt; got.as_str(), want.as_str(), "{row}");
    Ok(())
}

fn audit_all(
    rt: &(impl Abort + AllocGlobal),
    store: &Store<Global>,
    rows: &str,
) -> Result<(), AllocError> {
    assert!(rt; !rows.is_empty());
    for row in rows.lines() {
        audit(rt, store, row)?;
    }
    Ok(())
}

#[test]
fn verdicts_name_the_line_and_the_reason(rt: HostRuntime) -> Result<(), Fail> {
    let store = sales(rt.alloc())?;
    Ok(audit_all(&rt, &store, VERDICTS)?)
}

#[test]
fn filters_are_the_planning_list_in_any_spelling(rt: HostRuntime) -> Result<(), Fail> {
    let store = sales(rt.alloc())?;
    Ok(audit_all(&rt, &store, FILTERS)?)
}

#[test]
fn the_first_unreadable_line_is_told(rt: HostRuntime) -> Result<(), Fail> {
    let store = sales(rt.alloc())?;
    Ok(audit_all(&rt, &store, UNREADABLE)?)
}

#[test]
fn left_joins_are_audited(rt: HostRuntime) -> Result<(), Fail> {
    let store = sales(rt.alloc())?;
    Ok(audit_all(&rt, &store, LEFT)?)
}

#[test]
fn role_text_and_privileges_come_first(rt: HostRuntime) -> Result<(), Fail> {
    let store = sales(rt.alloc())?;
    Ok(audit_all(&rt, &store, REPLIES)?)
}

#[test]
fn indexes_of_tables_are_there_for_codes(rt: HostRuntime) -> Result<(), Fail> {
    let store = indexed_sales(rt.alloc())?;
    Ok(audit_all(&rt, &store, INDEXED)?)
}
