//! Pushes that are turned back, over terms made by hand: a trail that begins at a written term has no filter on a side of a
//! join or a left join that lacks an entry of its condition.

use crate::queries::query_text;
use crate::rewrites::rewritten_text;
use crate::rows::fields;
use catalog::Catalog;
use expr::MovableExpr;
use fixtures::sales;
use memory::boxed;
use resolve::{Bound, bind};
use rewrite::simplify;
use row_ast::Query;
use row_terms::Term;
use std::alloc::{AllocError, Global};
use std::process::Abort;
use std::test::Fail;
use syntax::parse_query;

// Each line has the entry under a filter by `deal.id = 1`, of which deal is the entry 0, the side of the join that the filter
// is on, or that it is on the left of a left join by the same condition, a step, and the term after it, or the reason why there
// is none.
const ROWS: &str = "0 | left | 4- . | [(0.0 = 1)] (R0 * R1)
1 | left | 4- . | 1: 4
0 | right | 5- . | [(0.0 = 1)] (R1 * R0)
1 | right | 5- . | 1: 4
0 | left joined | 20- . | [(0.0 = 1)] (R0 + [(0.0 = 1)] R1)
1 | left joined | 20- . | 1: 4
0 | left | 20- . | 1: 3
0 | left joined | 4- . | 1: 3
0 | left | 5- . | 1: 3
0 | right | 4- . | 1: 3
";

// The rows of an entry under a filter, joined or left joined with those of the other.
fn half_filtered(
    alloc: Global,
    condition: MovableExpr<Global>,
    entry: usize,
    side: &str,
) -> Result<Term<Global>, AllocError> {
    let on = condition.copy(alloc)?;
    let input = boxed(alloc, Term::Raw { entry })?;
    let filtered = boxed(alloc, Term::Filtered { condition, input })?;
    let other = if entry == 0 { 1 } else { 0 };
    let other = boxed(alloc, Term::Raw { entry: other })?;
    Ok(if side == "left joined" {
        Term::LeftJoined {
            on,
            left: filtered,
            right: other,
        }
    } else if side == "left" {
        Term::Joined {
            left: filtered,
            right: other,
        }
    } else {
        Term::Joined {
            left: other,
            right: filtered,
        }
    })
}

fn turned(
    rt: &(impl Abort + AllocGlobal),
    bound: &Bound<'_, Global>,
    line: &str,
) -> Result<(), AllocError> {
    let ([entry, side, step, want], _) = fields(line);
    let conditions = simplify(rt.alloc(), &bound.query)?.conditions;
    let [condition] = conditions.as_slice() else {
        panic!(rt; "not one condition");
    };
    let entry = if entry == "0" { 0 } else { 1 };
    let term = half_filtered(rt.alloc(), condition.copy(rt.alloc())?, entry, side)?;
    let made = rewritten_text(rt, &[], term, step)?;
    assert_eq!(rt; made.as_str(), want, "{line}");
    Ok(())
}

fn all_turned(
    rt: &(impl Abort + AllocGlobal),
    catalog: &Catalog<Global>,
    query: &Query<Global>,
) -> Result<(), AllocError> {
    let Ok(bound) = bind(rt.alloc(), catalog, query) else {
        panic!(rt; "not bound");
    };
    for line in ROWS.lines() {
        turned(rt, &bound, line)?;
    }
    Ok(())
}

#[test]
fn pushes_are_turned_back_from_a_side_with_the_entries(rt: HostRuntime) -> Result<(), Fail> {
    let Ok(store) = sales(rt.alloc()) else {
        panic!(rt; "no store");
    };
    let Ok(query) = parse_query(rt.alloc(), query_text("PAIR")) else {
        panic!(rt; "no query");
    };
    assert!(rt; !ROWS.is_empty());
    all_turned(&rt, store.catalog(), &query)?;
    Ok(())
}
