//! Costs of codes.

use crate::planned::{Asked, Planned, column_of, lent, make_planned};
use crate::rows::fields;
use crate::stores::made;
use code_costs::{MAX_ENTRIES, Problem, cost};
use expr::Code;
use fixtures::code_of;
use std::alloc::{AllocError, AllocGlobal, Global};
use std::process::Abort;
use std::test::Fail;
use store::Store;
use trailcheck::is_admissible;

// A query, the columns that have an index, the entries whose statistics are not known, the column by which its rows are
// wanted in order, a cost, and the code that has it.
const ROWS: &str = "\
PAIR | 1.1 2.1 |  |  | 1002000 | 1 f n, 2 f n
PAIR | 1.1 2.1 |  |  | 5000 | 1 f n, 2 f h1
PAIR | 1.1 2.1 |  |  | 24000 | 1 f n, 2 f m1
PAIR | 1.1 2.1 |  |  | 15000 | 1 i1 n, 2 f m1
PAIR | 1.1 2.1 |  |  | 15000 | 1 f n, 2 i1 m1
PAIR | 1.1 2.1 |  |  | 6000 | 1 i1 n, 2 i1 m1
PAIR | 1.1 2.1 |  |  | 6000 | 2 i1 n, 1 i1 m1
PAIR | 1.1 2.1 |  | 1.1 | 15000 | 1 f n, 2 i1 m1
PAIR | 1.1 2.1 |  | 2.1 | 25000 | 1 f n, 2 i1 m1
PAIR | 1.1 2.1 |  | 2.1 | 6000 | 2 i1 n, 1 f h1
PAIR | 1.1 2.1 |  | 1.1 | 16000 | 2 i1 n, 1 f h1
PAIR | 1.1 2.1 |  | 1.1 | 1004000 | 1 i1 n, 2 i1 n
PAIR | 1.1 2.1 |  | 2.1 | 1014000 | 1 i1 n, 2 i1 n
BOUNDED | 1.1 2.1 |  |  | 62 | 1 r1/2 n, 2 r1/3 m1
BOUNDED | 1.1 2.1 |  |  | 72 | 1 r1/2 n, 2 r1/3 h1
BOUNDED | 1.1 2.1 |  |  | 142 | 1 r1/2 n, 2 r1/3 n
BOUNDED | 1.1 2.1 |  |  | 1081 | 1 r1/2 n, 2 f m1
BOUNDED | 1.1 2.1 |  | 2.1 | 63 | 1 r1/2 n, 2 r1/3 m1
SALES |  |  |  | 23 | 1 f n, 2 f n
SALES |  |  |  | 19 | 1 f n, 2 f h1
SALES |  |  |  | 37 | 1 f n, 2 f m1
SALES |  |  |  | 21 | 2 f n, 1 f h1
SALES |  |  | 1.3 | 37 | 1 f n, 2 f m1
SALES |  |  | 2.1 | 58 | 1 f n, 2 f m1
SALES | 2.1 |  |  | 34 | 1 f n, 2 i1 m1
SALES | 1.1 |  |  | 42 | 1 i1 n, 2 f m1
SALES | 1.1 |  | 1.1 | 63 | 1 i1 n, 2 f m1
SALES | 1.1 |  | 1.1 | 24 | 1 i1 n, 2 f h1
SALES | 1.1 |  | 1.1 | 28 | 1 i1 n, 2 f n
SALES | 1.1 |  | 1.3 | 45 | 1 i1 n, 2 f h1
SALES | 1.1 1.3 2.1 2.2 |  |  | 24 | 1 i3 n, 2 i1 m1
SALES | 1.1 1.3 2.1 2.2 |  |  | 30 | 1 i3 n, 2 i2 m1
SALES |  | 1 |  | 2009 | 1 f n, 2 f h1
SALES |  | 2 |  | 3010 | 1 f n, 2 f h1
SELECT id FROM deal WHERE id = 3 | 1.1 |  | 1.1 | 6 | 1 f n
SELECT id FROM deal WHERE id = 3 | 1.1 |  | 1.1 | 10 | 1 i1 n
SELECT id FROM deal WHERE id = 3 | 1.1 |  | 1.1 | 3 | 1 r1/1 n
SELECT id FROM deal WHERE id = 3 | 1.1 |  | 1.2 | 4 | 1 r1/1 n
SELECT id FROM deal WHERE id > 1 AND region = 1 | 1.1 1.3 |  |  | 11 | 1 r1/1 n
SELECT id FROM deal WHERE id > 1 AND region = 1 | 1.1 1.3 |  |  | 5 | 1 r3/2 n
SELECT id FROM deal WHERE NULL | 1.1 |  | 1.1 | 0 | empty
SELECT t1.id FROM x t1, x t2, x t3 WHERE t1.id = t2.id AND t2.id = t3.id |  | 1 2 3 |  | 1817000 | 1 f n, 2 f h1, 3 f m2
SELECT t1.id FROM x t1, x t2, x t3 WHERE t1.id = t2.id AND t2.id = t3.id | 2.1 | 1 2 3 | 2.1 | 118000 | 2 i1 n, 1 f m1, 3 f h2
CHAIN |  | 1 2 3 4 5 6 7 8 |  | 1132168789 | 8 f n, 7 f h7, 6 f h6, 5 f h5, 4 f h4, 3 f h3, 2 f h2, 1 f h1
CHAIN |  | 1 2 3 4 5 6 7 8 | 1.1 | 1134037956 | 1 f n, 2 f h1, 3 f h2, 4 f h3, 5 f h4, 6 f h5, 7 f h6, 8 f h7
STAR |  | 1 2 3 4 5 6 7 8 |  | 1132168789 | 8 f n, 1 f h7, 7 f h6, 6 f h5, 5 f h4, 4 f h3, 3 f h2, 2 f h1
";

fn code(rt: &(impl Abort + AllocGlobal), text: &str) -> Result<Code<Global>, AllocError> {
    match code_of(rt.alloc(), text)? {
        Some(code) => Ok(code),
        None => panic!(rt; "{text}: no code"),
    }
}

// The cost of a code, which a plan has to be able to have.
fn cost_of(
    rt: &(impl Abort + AllocGlobal),
    planned: &Planned,
    wanted: &str,
    text: &str,
) -> Result<u128, AllocError> {
    let statistics = lent(rt.alloc(), planned.statistics.as_slice())?;
    let setting = &planned.setting;
    assert!(rt;
        statistics.len() == setting.frame.len(),
        "not each has statistics"
    );
    assert!(rt; setting.frame.len() <= MAX_ENTRIES, "too many entries");
    assert!(rt;
        setting.lefts.len() <= setting.frame.len(),
        "too many left joins"
    );
    let problem = Problem::new(rt.alloc(), setting, &statistics, column_of(wanted))?;
    let code = code(rt, text)?;
    let is_code = is_admissible(rt.alloc(), setting, &code)?;
    assert!(rt; is_code, "{text}: no plan has it");
    Ok(cost(&problem, &code))
}

fn has_cost(
    rt: &(impl Abort + AllocGlobal),
    store: &Store<Global>,
    line: &str,
) -> Result<(), AllocError> {
    let [query, indexes, unknown, wanted, want, code, _] = fields(line);
    let asked = Asked {
        query,
        indexes,
        unknown,
    };
    let planned = make_planned(rt, store, asked)?;
    let cost = cost_of(rt, &planned, wanted, code)?;
    let got = format!(in rt.alloc(); "{cost}")?;
    assert_eq!(rt; got.as_str(), want, "{line}");
    Ok(())
}

#[test]
fn costs_of_codes(rt: HostRuntime) -> Result<(), Fail> {
    let store = made(rt.alloc())?;
    assert!(rt; !ROWS.is_empty());
    for line in ROWS.lines() {
        has_cost(&rt, &store, line)?;
    }
    Ok(())
}
