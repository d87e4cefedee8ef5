//! Plans of the planner, written as texts, are accepted.

use crate::verdicts::made_setting;
use bound_plans::{inner_count, marked_code, named, named_ons, plan_entries};
use expr::{Code, MovableExpr};
use fixtures::{audited, code_of, sales};
use memory::Items;
use plan_texts::{Plan, write_plan};
use resolve::{Bound, bind};
use rewrite::{place, simplify};
use row_ast::{Expr, Query};
use scope::Entry;
use std::alloc::{AllocError, AllocGlobal, Global};
use std::process::Abort;
use std::test::Fail;
use store::Store;
use syntax::parse_query;

// A role, the code of a plan and a query, with ` | ` between them.
const QUERIES: &str = "\
audit | 1 f n | SELECT id FROM deal WHERE id = 3
alice | 1 f n | SELECT id FROM deal WHERE id = 3
guest | 1 f n | SELECT id FROM deal
root | 1 f n, 2 f n | SELECT deal.id FROM deal, region WHERE deal.id = 1
root | 1 f n, 2 f n | SELECT r.id FROM deal d JOIN region r ON d.region = r.id WHERE d.owner IN ('it''s', 'bob') AND d.region = 2
root | 1 f n, 3 f n, 2 f n | SELECT a.id FROM deal a, deal b, deal c WHERE a.id = c.id AND 2 < c.id AND (b.id = c.id AND 1 = 1)
alice | 1 f n | SELECT id FROM deal WHERE NOT (id < 3 OR owner = 'bob')
bob | 1 f n | SELECT id FROM deal WHERE owner NOT IN ('é', 'x') OR amount NOT BETWEEN -5 AND parts
root | 1 f n | SELECT id FROM deal WHERE CASE WHEN owner = CURRENT_USER THEN id IS NULL WHEN parts > 0 THEN FALSE ELSE region IS NOT NULL END
root | 1 f n | SELECT id FROM deal WHERE CASE WHEN owner = 'x' THEN id END = 1
root | 1 f n | SELECT id FROM deal WHERE NOT CASE WHEN id = 1 THEN NULL END = NULL
root | empty | SELECT deal.id FROM deal, region WHERE 1 = 2
root | 1 f n, 2 f n | SELECT r.id FROM deal d LEFT JOIN region r ON d.region = r.id
root | 1 f n, 2 f h1, 3 f n | SELECT d.id FROM deal d LEFT JOIN region r ON r.id = d.region AND d.parts > 2 LEFT JOIN deal e ON e.id < d.id AND r.name IS NULL WHERE d.id > 1 AND (r.name IS NULL OR e.id = 2)
alice | 1 f n, 2 f h1 | SELECT d.id FROM deal d LEFT JOIN deal e ON d.id = e.id AND e.owner = 'bob'
";

// The conditions as trees, with their columns named.
fn filters(
    alloc: Global,
    entries: &[Entry<'_, Global>],
    conditions: &[MovableExpr<Global>],
) -> Result<Items<Expr<Global>, Global>, AllocError> {
    let mut filters = Items::new(alloc);
    for condition in conditions {
        filters.push(Box::into_inner(named(alloc, entries, condition.expression())?))?;
    }
    Ok(filters)
}

// The text of the plan of a code.
fn plan_text(
    alloc: Global,
    store: &Store<Global>,
    role: &str,
    code: Code<Global>,
    bound: &Bound<'_, Global>,
) -> Result<Vec<u8>, AllocError> {
    let entries = bound.entries.as_slice();
    let setting = made_setting(alloc, store.catalog(), role, bound, "")?;
    let trail = place(alloc, &setting, simplify(alloc, &bound.query)?.trail, &code)?;
    let lefts = setting.lefts.as_slice();
    let plan = Plan {
        cost: 0,
        filters: filters(alloc, entries, setting.conditions.as_slice())?,
        ons: named_ons(alloc, entries, lefts)?,
        code: marked_code(alloc, inner_count(entries, lefts), &code)?,
        sort: None,
        trail,
    };
    write_plan(alloc, plan_entries(alloc, entries)?.as_slice(), &plan)
}

fn is_accepted(
    rt: &(impl Abort + AllocGlobal),
    store: &Store<Global>,
    role: &str,
    code: &str,
    text: &str,
    query: &Query<Global>,
) -> Result<(), AllocError> {
    let Some(code) = code_of(rt.alloc(), code)? else {
        panic!(rt; "{text}: no code");
    };
    let Ok(bound) = bind(rt.alloc(), store.catalog(), query) else {
        panic!(rt; "{text}: not bound");
    };
    let plan = plan_text(rt.alloc(), store, role, code, &bound)?;
    let (status, out) = audited(rt.alloc(), store, role, text, plan.as_slice());
    assert_eq!(rt;
        std::str::from_utf8(out.inner.as_slice()),
        Ok("accepted\n"),
        "{text}"
    );
    assert_eq!(rt; status, 0, "{text}");
    Ok(())
}

#[test]
fn plans_of_the_planner_are_accepted_as_texts(rt: HostRuntime) -> Result<(), Fail> {
    let store = sales(rt.alloc())?;
    assert!(rt; !QUERIES.is_empty());
    for row in QUERIES.lines() {
        let (role, rest) = row.split_once(" | ").unwrap_or(("", row));
        let (code, text) = rest.split_once(" | ").unwrap_or(("", rest));
        match parse_query(rt.alloc(), text) {
            Ok(query) => is_accepted(&rt, &store, role, code, text, &query)?,
            Err(_) => panic!(rt; "{text}: no query"),
        }
    }
    Ok(())
}
