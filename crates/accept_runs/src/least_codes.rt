//! The codes that the search finds, and their costs.

use crate::planned::{Asked, Planned, column_of, lent, make_planned};
use crate::rows::fields;
use crate::stores::made;
use code_costs::{MAX_ENTRIES, Problem, cost};
use fixtures::show_code;
use joindp::search;
use std::alloc::{AllocError, AllocGlobal, Global};
use std::process::Abort;
use std::test::Fail;
use store::Store;

// A query, the columns that have an index, the entries whose statistics are not known, the column by which its rows are
// wanted in order, the least cost, and the least code of that cost.
const ROWS: &str = "\
PAIR | 1.1 2.1 |  | 1.1 | 6000 | 1 i1 n, 2 f h1
PAIR | 1.1 2.1 |  | 2.1 | 6000 | 2 i1 n, 1 f h1
PAIR | 1.1 2.1 |  |  | 5000 | 1 f n, 2 f h1
PAIR |  |  | 1.1 | 15000 | 1 f n, 2 f h1
BOUNDED | 1.1 2.1 |  |  | 62 | 1 r1/2 n, 2 r1/3 m1
BOUNDED | 1.1 2.1 |  | 1.1 | 62 | 1 r1/2 n, 2 r1/3 m1
BOUNDED | 1.1 2.1 |  | 2.1 | 62 | 2 r1/3 n, 1 r1/2 m1
SALES |  |  |  | 19 | 1 f n, 2 f h1
SALES |  | 1 |  | 2009 | 1 f n, 2 f h1
SALES |  | 2 |  | 2015 | 2 f n, 1 f h1
SELECT id FROM deal WHERE id = 3 | 1.1 |  |  | 3 | 1 r1/1 n
SELECT id FROM deal WHERE id = 3 |  |  |  | 5 | 1 f n
SELECT id FROM region WHERE id = 1 | 1.1 |  |  | 3 | 1 f n
SELECT id FROM region WHERE id = 1 | 1.1 |  | 1.1 | 3 | 1 r1/1 n
SELECT id FROM deal WHERE id = 3 AND id = 4 | 1.1 |  |  | 3 | 1 r1/1 n
SELECT id FROM deal WHERE id < 3 AND id = 4 | 1.1 |  |  | 3 | 1 r1/2 n
SELECT id FROM deal | 1.1 |  | 1.1 | 10 | 1 i1 n
SELECT id FROM deal | 1.1 |  | 1.2 | 20 | 1 f n
SELECT id FROM a | 1.1 |  | 1.1 | 2000 | 1 i1 n
SELECT id FROM a | 1.1 |  |  | 1000 | 1 f n
SELECT id FROM a |  |  | 1.1 | 11000 | 1 f n
SELECT id FROM bare | 1.1 |  |  | 0 | 1 f n
SELECT id FROM bare |  |  | 1.1 | 1 | 1 f n
SELECT id FROM bare | 1.1 |  | 1.1 | 0 | 1 i1 n
SELECT deal.id FROM deal, deal d |  |  |  | 35 | 1 f n, 2 f n
SELECT deal.id FROM deal, bare |  |  |  | 10 | 1 f n, 2 f n
SELECT deal.id FROM deal, region |  |  |  | 23 | 1 f n, 2 f n
SELECT deal.id FROM deal, region, region r |  |  |  | 65 | 2 f n, 3 f n, 1 f n
SELECT deal.id FROM deal, region, region r WHERE deal.region = region.id |  |  |  | 39 | 3 f n, 2 f n, 1 f h1
SELECT deal.id FROM deal, region WHERE deal.region = region.id AND deal.id = 3 | 1.1 |  |  | 9 | 1 r1/2 n, 2 f n
SELECT deal.id FROM deal, region WHERE deal.region = region.id AND deal.region = 2 | 2.1 |  |  | 10 | 1 f n, 2 f n
SELECT id FROM deal WHERE FALSE | 1.1 |  | 1.1 | 0 | empty
SELECT id FROM deal WHERE id = 3 AND 1 = NULL | 1.1 |  |  | 0 | empty
SELECT deal.id FROM deal, region WHERE deal.region = region.id AND 1 = 2 |  | 1 2 | 1.1 | 0 | empty
EIGHT |  | 1 2 3 4 5 6 7 8 |  | 4299535884336000 | 1 f n, 2 f n, 3 f n, 4 f n, 5 f n, 6 f n, 7 f n, 8 f n
CHAIN |  | 1 2 3 4 5 6 7 8 |  | 1132168789 | 1 f n, 2 f h1, 3 f h2, 4 f h3, 5 f h4, 6 f h5, 7 f h6, 8 f h7
CHAIN |  | 1 2 3 4 5 6 7 8 | 1.1 | 1132187789 | 1 f n, 2 f m1, 3 f h2, 4 f h3, 5 f h4, 6 f h5, 7 f h6, 8 f h7
CHAIN |  | 1 2 3 4 5 6 7 8 | 8.1 | 1132187789 | 8 f n, 7 f m7, 6 f h6, 5 f h5, 4 f h4, 3 f h3, 2 f h2, 1 f h1
CHAIN | 1.1 | 1 2 3 4 5 6 7 8 | 1.1 | 1132169789 | 1 i1 n, 2 f h1, 3 f h2, 4 f h3, 5 f h4, 6 f h5, 7 f h6, 8 f h7
STAR |  | 1 2 3 4 5 6 7 8 |  | 1132168789 | 1 f n, 2 f h1, 3 f h2, 4 f h3, 5 f h4, 6 f h5, 7 f h6, 8 f h7
STAR |  | 1 2 3 4 5 6 7 8 | 1.1 | 1132187789 | 1 f n, 2 f m1, 3 f h2, 4 f h3, 5 f h4, 6 f h5, 7 f h6, 8 f h7
CLIQUE |  | 1 2 3 4 5 6 7 8 |  | 2121109 | 1 f n, 2 f h1, 3 f h2, 4 f h3, 5 f h4, 6 f h5, 7 f n, 8 f n
CLIQUE |  | 1 2 3 4 5 6 7 8 | 1.1 | 2121110 | 1 f n, 2 f h1, 3 f h2, 4 f h3, 5 f h4, 6 f h5, 7 f n, 8 f n
";

// The least cost and its code, with ` | ` between them; the code alone has the same cost.
fn found(
    rt: &(impl Abort + AllocGlobal),
    planned: &Planned,
    wanted: &str,
) -> Result<String, AllocError> {
    let statistics = lent(rt.alloc(), planned.statistics.as_slice())?;
    let setting = &planned.setting;
    assert!(rt;
        statistics.len() == setting.frame.len(),
        "not each has statistics"
    );
    assert!(rt; setting.frame.len() <= MAX_ENTRIES, "too many entries");
    assert!(rt;
        setting.lefts.len() <= setting.frame.len(),
        "too many left joins"
    );
    let problem = Problem::new(rt.alloc(), setting, &statistics, column_of(wanted))?;
    let (code, least) = search(rt.alloc(), &problem)?;
    assert!(rt; cost(&problem, &code) == least, "another cost");
    let mut out = format!(in rt.alloc(); "{least} | ")?;
    show_code(&code, &mut out)?;
    Ok(out)
}

fn is_found(
    rt: &(impl Abort + AllocGlobal),
    store: &Store<Global>,
    line: &str,
) -> Result<(), AllocError> {
    let [query, indexes, unknown, wanted, cost, code, _] = fields(line);
    let asked = Asked {
        query,
        indexes,
        unknown,
    };
    let planned = make_planned(rt, store, asked)?;
    let got = found(rt, &planned, wanted)?;
    let want = format!(in rt.alloc(); "{cost} | {code}")?;
    assert_eq!(rt; got.as_str(), want.as_str(), "{line}");
    Ok(())
}

#[test]
fn least_codes_and_their_costs(rt: HostRuntime) -> Result<(), Fail> {
    let store = made(rt.alloc())?;
    assert!(rt; !ROWS.is_empty());
    for line in ROWS.lines() {
        is_found(&rt, &store, line)?;
    }
    Ok(())
}
