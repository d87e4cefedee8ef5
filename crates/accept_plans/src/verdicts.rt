//! Verdicts on trails.

use crate::queries::query_text;
use crate::rows::fields;
use crate::steps::{repeated, steps_of};
use access::frame;
use algebra::Step;
use catalog::Catalog;
use expr::Code;
use fixtures::{code_of, sales};
use memory::{Items, boxed};
use resolve::{Bound, bind};
use rewrite::{Simplified, simplify};
use row_ast::Query;
use row_terms::written;
use std::alloc::{AllocError, Global};
use std::process::Abort;
use std::test::Fail;
use syntax::parse_query;
use trailcheck::{Reason, Setting, Verdict, judge};

// Each line has a role, a query or its name, a code, a trail, and the verdict: accepted, or the line and the number of the
// reason; and, where there is one, the number of a column of each entry that has an index.
const ROWS: &str = "audit | ONE | 1 f n | 9 0 | accepted
alice | ONE | 1 f n | 8 . | accepted
alice | ONE | 1 f n | 9 0 | 1: 4
audit | ONE | 1 f n |  | 1: 6
alice | ONE | 1 f n | 8 ., 8- . | 3: 6
audit | ONE | 1 f n | 9 000 | 1: 2
audit | ONE | 1 f n | 9 00 | 1: 3
audit | ONE | 1 f n | 10 . | 1: 4
audit | ONE | 1 f n | 19 . | 1: 3
audit | ONE | 1 f n | 9 0, 9 0 | 2: 3
audit | ONE | 1 i1 n | 9 0 | 0: 5
audit | ONE | 1 i1 n | 9 0 | accepted | 1
audit | ONE | 1 r1/1 n | 9 0 | accepted | 1
audit | ONE | 1 r1/2 n | 9 0 | 0: 5 | 1
audit | ONE | 1 r1/0 n | 9 0 | 0: 5 | 1
audit | ONE | 1 r3/1 n | 9 0 | 0: 5 | 1
audit | ONE | 1 r2/1 n | 9 0 | 0: 5 | 2
audit | SELECT id FROM deal WHERE 3 >= id | 1 r1/1 n | 9 0 | accepted | 1
audit | SELECT id FROM deal WHERE id <> 3 | 1 r1/1 n | 9 0 | 0: 5 | 1
audit | SELECT id FROM deal WHERE owner = CURRENT_USER | 1 r2/1 n | 9 0 | 0: 5 | 2
audit | SELECT id FROM deal WHERE id = NULL | 1 r1/1 n | 9 0 | accepted | 1
audit | ONE | 1 f n, 1 f n | 9 0 | 0: 5
audit | ONE | 2 f n | 9 0 | 0: 5
audit | ONE | 0 f n | 9 0 | 0: 5
audit | ONE | 1 f h1 | 9 0 | 0: 5
audit | ONE | empty | 9 0 | 0: 5
audit | ONE |  | 9 0 | 0: 5
audit | SELECT id FROM deal WHERE 1 = 2 | empty | 14 ., 15 . | accepted
alice | SELECT id FROM deal WHERE 1 = NULL | empty | 14 ., 15 . | accepted
audit | SELECT id FROM deal WHERE 1 = 2 | 1 f n | 14 ., 15 . | 0: 5
audit | SELECT id FROM deal WHERE 1 = 2 | empty | 14 . | 2: 6
root | NEVER | empty | 14 ., 4 ., 15 0, 16 . | accepted
root | SELECT deal.id FROM deal, region WHERE deal.region = region.id | 1 f n, 2 f n | 9 00, 9 01 | accepted
root | SELECT deal.id FROM deal, region WHERE deal.region = region.id | 2 f n, 1 f n | 9 00, 9 01, 6 0 | accepted
root | SELECT deal.id FROM deal, region WHERE deal.region = region.id | 2 f n, 1 f n | 9 00, 9 01 | 3: 6
root | SELECT deal.id FROM deal, region WHERE deal.region = region.id | 1 f n, 2 f h1 | 9 00, 9 01 | accepted
root | SELECT deal.id FROM deal, region WHERE deal.region = region.id | 1 f n, 2 f m1 | 9 00, 9 01 | accepted
root | SELECT deal.id FROM deal, region WHERE deal.region = region.id | 1 f n, 2 f h2 | 9 00, 9 01 | 0: 5
root | SELECT deal.id FROM deal, region WHERE deal.region = region.id | 1 f n, 2 f h0 | 9 00, 9 01 | 0: 5
root | SELECT deal.id FROM deal, region WHERE deal.region = region.id | 1 f n | 9 00, 9 01 | 0: 5
root | SELECT deal.id FROM deal, region WHERE deal.region = region.id | 1 f n, 3 f n | 9 00, 9 01 | 0: 5
alice | SELECT deal.id FROM deal, region WHERE deal.region = region.id | 1 f n, 2 f n | 9 01 | accepted
guest | SELECT deal.id FROM deal, region WHERE deal.region = region.id | 1 f n, 2 f h1 | 9 01 | accepted
alice | SELECT a.id FROM deal a, deal b WHERE a.id = b.id | 1 f n, 2 f h1 |  | accepted
root | PAIR | 1 f n, 2 f n | 4 ., 9 00, 9 1 | accepted
root | PAIR | 1 f n, 2 f n | 4 ., 9 00 | 3: 6
root | PAIR | 1 f n, 2 f n | 4 ., 9 1, 9 00 | accepted
root | PAIR | 1 f n, 2 f n | 4 ., 8 0, 9 0, 9 1 | accepted
root | PAIR | 1 f n, 2 f h1 | 4 ., 8 0, 9 0, 9 1 | 0: 5
alice | PAIR | 1 f n, 2 f n | 4 ., 8 0, 9 1 | accepted
root | CHAIN | 1 f n, 2 f n, 3 f n | 9 0000, 9 0001, 9 001, 4 0 | accepted
root | CHAIN | 1 f n, 2 f h1, 3 f h2 | 9 0000, 9 0001, 9 001, 4 0 | accepted
root | CHAIN | 1 f n, 3 f n, 2 f n | 9 0000, 9 0001, 9 001, 4 0 | 0: 5
root | CHAIN | 1 f n, 2 f h2, 3 f h1 | 9 0000, 9 0001, 9 001, 4 0 | 0: 5
root | THREE | 3 f n, 1 f n, 2 f n | 9 00, 9 01, 9 1, 7 ., 6 0 | accepted
root | THREE | 3 f n, 1 f n, 2 f n | 9 00, 9 01, 9 1, 7 . | 5: 6
root | SELECT id FROM deal WHERE id = 3 AND 1 = 1 | 1 f n | 14 ., 9 00 | accepted
root | VALUE | 1 f n, 2 f n | 12 . 1 0, 3 0, 4 00, 3 ., 5 0, 8 00, 9 00, 8 01, 9 01 | accepted
root | VALUE | 1 f n, 2 f n | 3 ., 4 0, 9 000, 9 01 | 5: 6
audit | ONE | 1 f n | 10- . 0, 2 ., 10- . 0, 2 ., 10- . 0, 2 ., 10- . 0, 2 ., 10- . 0, 2 ., 10- . 0, 2 ., 10- . 0, 2 . | 14: 4
";

// The same, with the number of times that the step is taken in the last place.
const REPEATED: &str = "audit | BOTH | 1 f n | 3 . | 16385: 6 | 16384
audit | BOTH | 1 f n | 3 . | 16385: 1 | 16385
audit | ONE | 1 f n | 10- . 0 | 4094: 6 | 4093
audit | ONE | 1 f n | 10- . 0 | 4094: 1 | 4094
";

fn reason_number(reason: Reason) -> u8 {
    match reason {
        Reason::Limit => 1,
        Reason::NoNode => 2,
        Reason::Misfit => 3,
        Reason::Unmet => 4,
        Reason::Code => 5,
        Reason::End => 6,
    }
}

// Of each entry the column that is indexed, if one is given.
fn indexed(
    alloc: Global,
    entries: usize,
    column: &str,
) -> Result<Items<Items<u64, Global>, Global>, AllocError> {
    let mut all = Items::new(alloc);
    for _ in 0..entries {
        let mut columns = Items::new(alloc);
        if let Ok(column) = column.parse::<u64>() {
            columns.push(column)?;
        }
        all.push(columns)?;
    }
    Ok(all)
}

/// The code of a text, which has to be one.
pub fn made_code(rt: &(impl Abort + AllocGlobal), text: &str) -> Result<Code<Global>, AllocError> {
    match code_of(rt.alloc(), text)? {
        Some(code) => Ok(code),
        None => panic!(rt; "{text}: no code"),
    }
}

/// A verdict as a text.
pub fn verdict_as(alloc: Global, verdict: Verdict) -> Result<String, AllocError> {
    match verdict {
        Verdict::Accepted => format!(in alloc; "accepted"),
        Verdict::Refused(refusal) => {
            let line = refusal.line;
            let reason = reason_number(refusal.reason);
            format!(in alloc; "{line}: {reason}")
        }
    }
}

/// The guards, the indexes and the conditions of a query.
pub fn made_setting(
    alloc: Global,
    catalog: &Catalog<Global>,
    role: &str,
    bound: &Bound<'_, Global>,
    column: &str,
) -> Result<Box<Setting<Global>, Global>, AllocError> {
    let entries = bound.entries.as_slice();
    let frame = frame(alloc, catalog, role, entries)?.into();
    let indexed = indexed(alloc, entries.len(), column)?;
    let Simplified {
        conditions,
        lefts,
        ..
    } = simplify(alloc, &bound.query)?;
    boxed(
        alloc,
        Setting {
            frame,
            indexed,
            conditions,
            lefts,
        },
    )
}

// A plan that is judged: its code, its trail, and the column of each entry that has an index.
#[derive(Clone, Copy)]
struct Plan<'r> {
    code: &'r str,
    trail: &'r [Step<Global>],
    column: &'r str,
}

fn verdict_on(
    rt: &(impl Abort + AllocGlobal),
    setting: &Setting<Global>,
    bound: &Bound<'_, Global>,
    plan: Plan<'_>,
) -> Result<String, AllocError> {
    let code = made_code(rt, plan.code)?;
    let term = written(rt.alloc(), bound.entries.len(), &bound.query)?;
    let verdict = judge(rt.alloc(), setting, term, plan.trail, &code)?;
    verdict_as(rt.alloc(), verdict)
}

fn verdict_of_bound(
    rt: &(impl Abort + AllocGlobal),
    catalog: &Catalog<Global>,
    role: &str,
    bound: &Bound<'_, Global>,
    plan: Plan<'_>,
) -> Result<String, AllocError> {
    let setting = made_setting(rt.alloc(), catalog, role, bound, plan.column)?;
    verdict_on(rt, &setting, bound, plan)
}

fn verdict_of_query(
    rt: &(impl Abort + AllocGlobal),
    catalog: &Catalog<Global>,
    role: &str,
    query: &Query<Global>,
    plan: Plan<'_>,
) -> Result<String, AllocError> {
    match bind(rt.alloc(), catalog, query) {
        Ok(bound) => verdict_of_bound(rt, catalog, role, &bound, plan),
        Err(_) => panic!(rt; "not bound"),
    }
}

// The verdict on a plan of a role's text, as a text.
fn verdict_text(
    rt: &(impl Abort + AllocGlobal),
    catalog: &Catalog<Global>,
    role: &str,
    query: &str,
    plan: Plan<'_>,
) -> Result<String, AllocError> {
    match parse_query(rt.alloc(), query_text(query)) {
        Ok(query) => verdict_of_query(rt, catalog, role, &query, plan),
        Err(_) => panic!(rt; "{query}"),
    }
}

// A row whose steps are taken once each.
fn judged(
    rt: &(impl Abort + AllocGlobal),
    catalog: &Catalog<Global>,
    line: &str,
) -> Result<(), AllocError> {
    let ([role, query, code, steps], rest) = fields(line);
    let (want, column) = rest.split_once(" | ").unwrap_or((rest, ""));
    let Some(trail) = steps_of(rt.alloc(), steps)? else {
        panic!(rt; "{line}");
    };
    let plan = Plan {
        code,
        trail: trail.as_slice(),
        column,
    };
    let got = verdict_text(rt, catalog, role, query, plan)?;
    assert_eq!(rt; got.as_str(), want, "{line}");
    Ok(())
}

// A row whose step is taken many times.
fn limited(
    rt: &(impl Abort + AllocGlobal),
    catalog: &Catalog<Global>,
    line: &str,
) -> Result<(), AllocError> {
    let ([role, query, code, step], rest) = fields(line);
    let (want, times) = rest.split_once(" | ").unwrap_or((rest, ""));
    let Ok(count) = times.parse::<u64>() else {
        panic!(rt; "{line}");
    };
    let Some(trail) = repeated(rt.alloc(), step, count)? else {
        panic!(rt; "{line}");
    };
    let plan = Plan {
        code,
        trail: trail.as_slice(),
        column: "",
    };
    let got = verdict_text(rt, catalog, role, query, plan)?;
    assert_eq!(rt; got.as_str(), want, "{line}");
    Ok(())
}

#[test]
fn trails_are_judged(rt: HostRuntime) -> Result<(), Fail> {
    let Ok(store) = sales(rt.alloc()) else {
        panic!(rt; "no store");
    };
    assert!(rt; !ROWS.is_empty());
    for line in ROWS.lines() {
        judged(&rt, store.catalog(), line)?;
    }
    Ok(())
}

#[test]
fn trails_and_terms_have_limits(rt: HostRuntime) -> Result<(), Fail> {
    let Ok(store) = sales(rt.alloc()) else {
        panic!(rt; "no store");
    };
    assert!(rt; !REPEATED.is_empty());
    for line in REPEATED.lines() {
        limited(&rt, store.catalog(), line)?;
    }
    Ok(())
}
