//! The trails that a planner makes, which the checker accepts, and the run of codes.

use crate::queries::query_text;
use crate::rows::fields;
use crate::verdicts::{made_code, made_setting, verdict_as};
use algebra::Step;
use expr::Code;
use fixture_plans::{run_over, tables_of};
use fixtures::{contents, sales};
use memory::Items;
use resolve::{Bound, bind};
use rewrite::{place, simplify};
use row_ast::Query;
use row_terms::written;
use std::alloc::{AllocError, Global};
use std::process::Abort;
use std::test::Fail;
use store::Store;
use syntax::parse_query;
use trailcheck::{Setting, judge};
use tuples::{Work, World};

// Each line has a role, a query or its name, the code of a plan, and the number of the combinations that it gives.
const ROWS: &str = "audit | ONE | 1 f n | 1
alice | ONE | 1 f n | 0
bob | ONE | 1 f n | 1
guest | SELECT id FROM deal | 1 f n | 0
audit | BOTH | 1 f n | 1
root | PAIR | 1 f n, 2 f n | 3
root | PAIR | 2 f n, 1 f n | 3
alice | RIGHT | 2 f n, 1 f n | 3
root | CHAIN | 1 f n, 2 f n, 3 f n | 4
root | CHAIN | 3 f n, 2 f n, 1 f n | 4
alice | CHAIN | 2 f n, 1 f n, 3 f n | 2
root | THREE | 2 f n, 1 f n, 3 f n | 45
root | VALUE | 1 f n, 2 f n | 2
root | VALUE | 2 f n, 1 f n | 2
root | NEVER | empty | 0
root | SELECT id FROM deal WHERE 1 = 1 AND parts = 0 | 1 f n | 2
root | SELECT id FROM deal WHERE id = 3 AND id = 3 | 1 f n | 1
root | SELECT id FROM deal WHERE id = 3 AND NULL | empty | 0
alice | SELECT id FROM deal WHERE NOT (id < 3 OR owner = 'bob') | 1 f n | 1
root | SELECT a.id FROM deal a, deal b WHERE a.owner = b.owner AND a.id < b.id | 2 f n, 1 f n | 4
root | SELECT a.id FROM deal a, deal b, deal c WHERE a.id = c.id AND 2 < c.id AND (b.id = c.id AND 1 = 1) | 3 f n, 2 f n, 1 f n | 3
";

// The trail of a planner to the shape of a code.
fn planned(
    alloc: Global,
    setting: &Setting<Global>,
    bound: &Bound<'_, Global>,
    code: &Code<Global>,
) -> Result<Items<Step<Global>, Global>, AllocError> {
    let simplified = simplify(alloc, &bound.query)?;
    place(alloc, setting, simplified.trail, code)
}

// The checker accepts the trail of a planner, which has at most so many steps.
fn accepts(
    rt: &(impl Abort + AllocGlobal),
    setting: &Setting<Global>,
    bound: &Bound<'_, Global>,
    code: &Code<Global>,
    most: usize,
) -> Result<(), AllocError> {
    let trail = planned(rt.alloc(), setting, bound, code)?;
    let term = written(rt.alloc(), bound.entries.len(), &bound.query)?;
    let verdict = judge(rt.alloc(), setting, term, trail.as_slice(), code)?;
    let got = verdict_as(rt.alloc(), verdict)?;
    assert_eq!(rt; got.as_str(), "accepted");
    assert!(rt; trail.len() <= most, "too many steps");
    Ok(())
}

// The number of the combinations that the run of a code gives.
fn count(
    rt: &(impl Abort + AllocGlobal),
    store: &Store<Global>,
    role: &str,
    setting: &Setting<Global>,
    bound: &Bound<'_, Global>,
    code: &Code<Global>,
) -> Result<usize, AllocError> {
    let rows = contents(rt.alloc(), store, bound.entries.as_slice())?;
    let tables = tables_of(rt.alloc(), &rows, setting.frame.as_slice())?;
    let world = World {
        role,
        query: &bound.query,
        tables: &tables,
    };
    let mut work = Work::new();
    match run_over(rt.alloc(), &world, setting, code, None, &mut work)? {
        Some(combinations) => Ok(combinations.len()),
        None => panic!(rt; "not admissible"),
    }
}

fn run_bound(
    rt: &(impl Abort + AllocGlobal),
    store: &Store<Global>,
    bound: &Bound<'_, Global>,
    line: &str,
) -> Result<(), AllocError> {
    let ([role, _, code, want], _) = fields(line);
    let setting = made_setting(rt.alloc(), store.catalog(), role, bound, "")?;
    let code = made_code(rt, code)?;
    accepts(rt, &setting, bound, &code, 5505)?;
    let found = count(rt, store, role, &setting, bound, &code)?;
    assert!(rt; want.parse::<usize>() == Ok(found), "{line}");
    Ok(())
}

fn run_query(
    rt: &(impl Abort + AllocGlobal),
    store: &Store<Global>,
    query: &Query<Global>,
    line: &str,
) -> Result<(), AllocError> {
    match bind(rt.alloc(), store.catalog(), query) {
        Ok(bound) => run_bound(rt, store, &bound, line),
        Err(_) => panic!(rt; "{line}: not bound"),
    }
}

fn run_row(
    rt: &(impl Abort + AllocGlobal),
    store: &Store<Global>,
    line: &str,
) -> Result<(), AllocError> {
    let ([_, query, _, _], _) = fields(line);
    match parse_query(rt.alloc(), query_text(query)) {
        Ok(query) => run_query(rt, store, &query, line),
        Err(_) => panic!(rt; "{line}"),
    }
}

#[test]
fn plans_are_accepted_and_run(rt: HostRuntime) -> Result<(), Fail> {
    let Ok(store) = sales(rt.alloc()) else {
        panic!(rt; "no store");
    };
    assert!(rt; !ROWS.is_empty());
    for line in ROWS.lines() {
        run_row(&rt, &store, line)?;
    }
    Ok(())
}

// A query of twelve entries in a chain, with 64 conjuncts.
fn greatest_query(alloc: Global) -> Result<String, AllocError> {
    let mut text = String::new(alloc);
    text.push_str("SELECT t1.id FROM deal t1")?;
    for entry in 2..13 {
        write!(text, ", deal t{entry}")?;
    }
    text.push_str(" WHERE t1.id = t2.id")?;
    for entry in 2..12 {
        let next = entry + 1;
        write!(text, " AND t{entry}.id = t{next}.id")?;
    }
    for number in 0..53 {
        let entry = number % 12 + 1;
        write!(text, " AND NOT t{entry}.parts < {number}")?;
    }
    Ok(text)
}

fn accepts_greatest(
    rt: &(impl Abort + AllocGlobal),
    store: &Store<Global>,
    query: &Query<Global>,
    code: &str,
) -> Result<(), AllocError> {
    let Ok(bound) = bind(rt.alloc(), store.catalog(), query) else {
        panic!(rt; "not bound");
    };
    let setting = made_setting(rt.alloc(), store.catalog(), "root", &bound, "")?;
    assert!(rt; setting.conditions.len() == 64, "not 64 conditions");
    let code = made_code(rt, code)?;
    accepts(rt, &setting, &bound, &code, 5505)
}

#[test]
fn trails_of_the_greatest_query_are_accepted(rt: HostRuntime) -> Result<(), Fail> {
    let Ok(store) = sales(rt.alloc()) else {
        panic!(rt; "no store");
    };
    let text = greatest_query(rt.alloc())?;
    let Ok(query) = parse_query(rt.alloc(), text.as_str()) else {
        panic!(rt; "no query");
    };
    let written =
        "1 f n, 2 f n, 3 f n, 4 f n, 5 f n, 6 f n, 7 f n, 8 f n, 9 f n, 10 f n, 11 f n, 12 f n";
    accepts_greatest(&rt, &store, &query, written)?;
    let turned =
        "12 f n, 11 f n, 10 f n, 9 f n, 8 f n, 7 f n, 6 f n, 5 f n, 4 f n, 3 f n, 2 f n, 1 f n";
    accepts_greatest(&rt, &store, &query, turned)?;
    Ok(())
}
