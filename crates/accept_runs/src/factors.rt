//! Factors of conditions: how many of a million combinations of rows are expected to pass.

use crate::planned::{Asked, lent, make_planned};
use crate::stores::made;
use stats::factor;
use std::alloc::{AllocError, AllocGlobal, Global};
use std::process::Abort;
use std::test::Fail;
use store::Store;

// Of the tables of FROM the distinct values, and their bounds, are:
// t.id 6 (1 to 8), t.grade 4 (-10 to 20), t.name 5, t.open 2, t.same 1 (5 to 5), t.gone 0;
// o.id 2 (2 to 4), o.name 2; bare.id 0, bare.name 0; w.id 3 (the least bigint to the greatest); x.id 10, x.name 10, not known.
const FROM: &str = "t, o, bare, w, x";

// A condition and its factor. An equality with a value meets one of the distinct values.
const EQUALITIES: &str = "t.id = 3 | 166666
3 = t.id | 166666
t.id = -3 | 166666
t.id = 100 | 166666
t.id = NULL | 166666
NULL = t.id | 166666
t.name = 'ann' | 200000
'ann' = t.name | 200000
t.name = CURRENT_USER | 200000
CURRENT_USER = t.name | 200000
t.open = TRUE | 500000
t.same = 5 | 1000000
t.gone = 5 | 100000
bare.id = 5 | 100000
bare.name = CURRENT_USER | 100000
x.id = 5 | 100000
x.name = 'ann' | 100000
t.id <> 3 | 833334
3 <> t.id | 833334
t.name <> CURRENT_USER | 800000
t.open <> FALSE | 500000
t.same <> 5 | 0
t.gone <> 5 | 900000
x.id <> 5 | 900000
t.id <> NULL | 833334
t.id = o.id | 166666
o.id = t.id | 166666
o.id = w.id | 333333
t.name = o.name | 200000
t.gone = o.id | 500000
t.gone = bare.id | 100000
t.same = t.same | 1000000
t.id = t.grade | 166666
t.id = x.id | 100000
x.id = x.id | 100000
t.id <> o.id | 833334
t.gone <> bare.id | 900000
t.id + 1 = 3 | 333333
3 = 3 | 333333
CURRENT_USER = 'ann' | 333333
CURRENT_USER = CURRENT_USER | 333333
t.id + 1 = o.id | 333333
t.id + 1 <> 3 | 666667
CAST(t.id AS text) = '3' | 333333
CASE WHEN t.open THEN 1 END <> 1 | 666667
";

// A comparison with a number passes its part of the numbers between the bounds.
const COMPARISONS: &str = "t.id < 3 | 285714
t.id <= 3 | 285714
t.id > 3 | 714285
t.id >= 3 | 714285
3 > t.id | 285714
3 >= t.id | 285714
3 < t.id | 714285
3 <= t.id | 714285
t.id < 1 | 0
t.id < 0 | 0
t.id < -9223372036854775808 | 0
t.id < 8 | 1000000
t.id < 9 | 1000000
t.id <= 9223372036854775807 | 1000000
t.id > 8 | 0
t.id > 9 | 0
t.id > 9223372036854775807 | 0
t.id > 1 | 1000000
t.id > 0 | 1000000
t.id >= -9223372036854775808 | 1000000
9 > t.id | 1000000
9 < t.id | 0
t.grade < -9 | 33333
t.grade < 4 | 466666
t.grade > 4 | 533333
t.grade > -3 | 766666
w.id < 0 | 500000
w.id > 0 | 499999
w.id < 9223372036854775807 | 1000000
w.id > 9223372036854775807 | 0
t.same < 5 | 333333
t.same < 0 | 333333
t.same > 9 | 333333
t.gone < 5 | 333333
bare.id >= 5 | 333333
x.id < 5 | 333333
t.id < NULL | 333333
t.id >= NULL | 333333
t.name < 'bob' | 333333
t.name < CURRENT_USER | 333333
CURRENT_USER < t.name | 333333
t.open < TRUE | 333333
t.id < o.id | 333333
t.id + 0 < 3 | 333333
- t.id < 3 | 333333
t.id < 3 + 0 | 333333
3 < 4 | 333333
";

// So does a range of two numbers; else it has a factor of its own.
const RANGES: &str = "t.id BETWEEN 2 AND 5 | 428571
t.id NOT BETWEEN 2 AND 5 | 571429
t.id BETWEEN 3 AND 3 | 0
t.id BETWEEN 5 AND 2 | 0
t.id NOT BETWEEN 5 AND 2 | 1000000
t.id BETWEEN 1 AND 8 | 1000000
t.id BETWEEN -100 AND 100 | 1000000
t.id NOT BETWEEN -100 AND 100 | 0
t.id BETWEEN 100 AND 103 | 428571
t.grade BETWEEN -1 AND 0 | 33333
w.id BETWEEN 0 AND 9223372036854775807 | 499999
w.id BETWEEN -9223372036854775808 AND 9223372036854775807 | 1000000
t.same BETWEEN 5 AND 5 | 250000
t.same NOT BETWEEN 5 AND 5 | 750000
t.gone BETWEEN 1 AND 2 | 250000
bare.id BETWEEN 1 AND 2 | 250000
x.id BETWEEN 1 AND 2 | 250000
t.name BETWEEN 'a' AND 'b' | 250000
t.name NOT BETWEEN 'a' AND CURRENT_USER | 750000
t.open BETWEEN FALSE AND TRUE | 250000
t.id BETWEEN NULL AND 5 | 250000
t.id BETWEEN 2 AND NULL | 250000
t.id BETWEEN 2 AND o.id | 250000
t.id BETWEEN 2 AND 4 + 1 | 250000
t.id + 0 BETWEEN 2 AND 5 | 333333
t.id + 0 NOT BETWEEN 2 AND 5 | 666667
3 BETWEEN t.id AND 5 | 333333
NULL NOT BETWEEN t.id AND 5 | 666667
";

// A list has an equality for each of its items as they are written, and at most a half.
const LISTS: &str = "t.id IN (1) | 166666
t.id IN (1, 2) | 333332
t.id IN (1, 1) | 333332
t.id IN (1, NULL) | 333332
t.id IN (NULL) | 166666
t.id IN (1, 2, 3) | 499998
t.id IN (1, 2, 3, 4) | 500000
t.id IN (1, 1, 1, 1) | 500000
t.id NOT IN (1) | 833334
t.id NOT IN (1, 2, 3, 4) | 500000
t.name IN ('ann', 'zoe') | 400000
t.name NOT IN ('ann', 'zoe') | 600000
t.open IN (TRUE) | 500000
t.open IN (TRUE, FALSE) | 500000
t.same IN (5) | 500000
t.gone IN (1, 2) | 200000
bare.id IN (1, 2, 3, 4, 5, 6) | 500000
x.id IN (1, 2, 3) | 300000
x.id NOT IN (1, 2, 3) | 700000
t.id + 0 IN (1) | 333333
t.id + 0 IN (1, 2, 3, 4) | 333333
t.id + 0 NOT IN (1) | 666667
3 IN (1) | 333333
";

// Tests for null, literals, and conditions that no other rule is about.
const OTHERS: &str = "t.id IS NULL | 100000
t.id IS NOT NULL | 900000
t.gone IS NULL | 100000
bare.id IS NOT NULL | 900000
t.id + 1 IS NULL | 100000
NULL IS NOT NULL | 900000
TRUE | 1000000
FALSE | 0
NULL | 0
t.open | 333333
CASE WHEN t.open THEN t.id = 3 ELSE TRUE END | 333333
";

// AND and OR take their members from the left, those of an operand in parentheses too, and round after each product.
const CONNECTIVES: &str = "t.id = 3 AND t.name = 'ann' | 33333
t.id = 3 AND t.id = 3 | 27777
t.id = 3 OR t.id = 4 | 305555
t.id = 3 OR t.id = 4 OR t.name = 'ann' | 444444
t.grade = 0 AND t.id BETWEEN 2 AND 5 AND t.id > 3 | 76529
t.id > 3 AND t.id BETWEEN 2 AND 5 AND t.grade = 0 | 76530
t.grade = 0 OR t.id BETWEEN 2 AND 5 OR t.id > 3 | 877551
t.grade = 0 AND (t.id BETWEEN 2 AND 5 AND t.id > 3) | 76529
t.grade = 0 OR (t.id BETWEEN 2 AND 5 OR t.id > 3) | 877551
t.grade = 0 AND (t.id = 3 OR t.id = 4) | 76388
t.grade = 0 OR t.id = 3 AND t.id = 4 | 270833
TRUE AND t.id = 3 | 166666
FALSE AND t.id = 3 | 0
t.id = 3 AND NULL | 0
TRUE OR t.id = 3 | 1000000
t.id = 3 OR FALSE | 166666
NULL OR NULL | 0
t.same = 5 AND t.same = 5 | 1000000
t.open AND t.id = 3 | 55555
t.open OR t.id = 3 | 444444
t.id = 1 AND t.id = 2 AND t.id = 3 AND t.id = 4 AND t.id = 5 AND t.id = 6 AND t.id = 7 AND t.id = 8 | 0
";

// A negation passes what its operand does not.
const NEGATIONS: &str = "NOT t.id = 3 | 833334
NOT t.id <> 3 | 166666
NOT NOT t.id = 3 | 166666
NOT t.id < 3 | 714286
NOT t.name < 'bob' | 666667
NOT t.id BETWEEN 2 AND 5 | 571429
NOT t.id NOT BETWEEN 2 AND 5 | 428571
NOT t.id IN (1, 2) | 666668
NOT t.id NOT IN (1, 2) | 333332
NOT t.id IS NULL | 900000
NOT t.id IS NOT NULL | 100000
NOT (t.id = 3 AND t.name = 'ann') | 966667
NOT (t.id = 3 OR t.id = 4) | 694445
NOT TRUE | 0
NOT FALSE | 1000000
NOT NULL | 1000000
NOT t.open | 666667
";

fn has_factor(
    rt: &(impl Abort + AllocGlobal),
    store: &Store<Global>,
    line: &str,
) -> Result<(), AllocError> {
    let (condition, want) = line.split_once(" | ").unwrap_or((line, ""));
    let text = format!(in rt.alloc(); "SELECT t.id FROM {FROM} WHERE {condition}")?;
    let asked = Asked {
        query: text.as_str(),
        indexes: "",
        unknown: "5",
    };
    let planned = make_planned(rt, store, asked)?;
    let statistics = lent(rt.alloc(), planned.statistics.as_slice())?;
    let Some(filter) = &planned.filter else {
        panic!(rt; "{line}: no condition");
    };
    let got = format!(in rt.alloc(); "{}", factor(&statistics, filter))?;
    assert_eq!(rt; got.as_str(), want, "{line}");
    Ok(())
}

fn have_factors(
    rt: &(impl Abort + AllocGlobal),
    store: &Store<Global>,
    rows: &str,
) -> Result<(), AllocError> {
    assert!(rt; !rows.is_empty());
    for line in rows.lines() {
        has_factor(rt, store, line)?;
    }
    Ok(())
}

#[test]
fn factors_of_conditions(rt: HostRuntime) -> Result<(), Fail> {
    let store = made(rt.alloc())?;
    have_factors(&rt, &store, EQUALITIES)?;
    have_factors(&rt, &store, COMPARISONS)?;
    have_factors(&rt, &store, RANGES)?;
    have_factors(&rt, &store, LISTS)?;
    have_factors(&rt, &store, OTHERS)?;
    have_factors(&rt, &store, CONNECTIVES)?;
    have_factors(&rt, &store, NEGATIONS)?;
    Ok(())
}
