//! Queries over the tables of `fixtures` whose aggregates and types are in order, or the first error.

use crate::queries::made;
use catalog::Catalog;
use fixtures::{catalog, error_text, query};
use resolve::bind;
use row_ast::Query;
use std::alloc::{AllocError, Global};
use std::process::Abort;
use std::test::Fail;

static ACCEPTED: [(&str, &str); 20] = [
    ("SELECT id FROM deal WHERE amount > 1", "accepted"),
    (
        "SELECT owner, sum(amount) FROM deal WHERE id <> 0 GROUP BY owner",
        "accepted",
    ),
    ("SELECT count(*) FROM deal HAVING count(*) > 1", "accepted"),
    ("SELECT 1 FROM deal HAVING TRUE", "accepted"),
    (
        "SELECT owner FROM deal GROUP BY owner HAVING max(amount) > min(id)",
        "accepted",
    ),
    (
        "SELECT CASE WHEN count(*) > 1 THEN owner ELSE 'one' END FROM deal GROUP BY owner",
        "accepted",
    ),
    ("SELECT * FROM region GROUP BY name, id", "accepted"),
    ("SELECT deal.owner FROM deal GROUP BY owner", "accepted"),
    (
        "SELECT sum(id + amount) + id FROM deal GROUP BY id",
        "accepted",
    ),
    (
        "SELECT CURRENT_USER, 1, sum(amount) + 1 FROM deal",
        "accepted",
    ),
    // NULL fits every type.
    (
        "SELECT amount = NULL, NULL = NULL, owner IN ('a', NULL) FROM deal",
        "accepted",
    ),
    (
        "SELECT id BETWEEN NULL AND 3, NULL + 1, NOT NULL FROM deal",
        "accepted",
    ),
    (
        "SELECT CASE WHEN id = 1 THEN NULL WHEN NULL THEN 'x' END FROM deal WHERE NULL",
        "accepted",
    ),
    (
        "SELECT sum(NULL), min(NULL), count(NULL) FROM deal",
        "accepted",
    ),
    (
        "SELECT min(owner), max(CURRENT_USER), count(owner = 'x') FROM deal",
        "accepted",
    ),
    (
        "SELECT CAST(id AS text) = owner, CAST(owner AS bigint) + 1 FROM deal",
        "accepted",
    ),
    (
        "SELECT owner < 'm', (id = 1) < TRUE FROM deal WHERE CASE WHEN id = 1 THEN TRUE END",
        "accepted",
    ),
    (
        "SELECT d.id FROM deal d JOIN region r ON d.id = r.id AND d.owner = r.name",
        "accepted",
    ),
    // What may fault is in the ON of an inner join, in WHERE and in items.
    (
        "SELECT d.id + 1 FROM deal d JOIN region r ON d.id + 1 = r.id LEFT JOIN note n ON n.deal = d.id WHERE d.id / 2 = 1",
        "accepted",
    ),
    (
        "SELECT count(*) FROM deal d LEFT JOIN region r ON CASE WHEN d.id IN (-1, 2) THEN NULL ELSE r.name <> CURRENT_USER END",
        "accepted",
    ),
];

// An aggregate, or a column beside one, where it may not be.
static MISPLACED: [(&str, &str); 24] = [
    ("SELECT id FROM deal WHERE count(*) > 1", "42803 at 26"),
    (
        "SELECT id FROM deal WHERE amount > 1 OR sum(amount) = 3",
        "42803 at 40",
    ),
    (
        "SELECT d.id FROM deal d JOIN region r ON count(*) = 1",
        "42803 at 41",
    ),
    ("SELECT sum(count(*)) FROM deal", "42803 at 11"),
    ("SELECT sum(1 + max(id)) FROM deal", "42803 at 15"),
    (
        "SELECT owner FROM deal GROUP BY owner HAVING sum(count(*)) > 1",
        "42803 at 49",
    ),
    // A column outside aggregates that is not one of GROUP BY.
    ("SELECT owner, count(*) FROM deal", "42803 at 7"),
    ("SELECT count(*), owner FROM deal", "42803 at 17"),
    ("SELECT id FROM deal GROUP BY owner", "42803 at 7"),
    (
        "SELECT owner, amount + sum(amount) FROM deal GROUP BY owner",
        "42803 at 14",
    ),
    ("SELECT id FROM deal HAVING count(*) > 1", "42803 at 7"),
    ("SELECT count(*) FROM deal HAVING amount > 1", "42803 at 33"),
    (
        "SELECT owner FROM deal GROUP BY owner HAVING amount > 1",
        "42803 at 45",
    ),
    (
        "SELECT CASE WHEN id = 1 THEN count(*) END FROM deal",
        "42803 at 17",
    ),
    (
        "SELECT CASE WHEN TRUE THEN count(*) ELSE id END FROM deal",
        "42803 at 41",
    ),
    ("SELECT id IN (1, 2), count(*) FROM deal", "42803 at 7"),
    (
        "SELECT a.id FROM deal a, deal b GROUP BY b.id",
        "42803 at 7",
    ),
    ("SELECT * FROM deal GROUP BY owner", "42803 at 7"),
    ("SELECT * FROM region GROUP BY id", "42803 at 7"),
    ("SELECT * FROM deal HAVING TRUE", "42803 at 7"),
    // The least offset of several.
    ("SELECT id, owner FROM deal GROUP BY amount", "42803 at 7"),
    (
        "SELECT count(*) FROM deal WHERE sum(id) = 1 HAVING amount = 1",
        "42803 at 32",
    ),
    (
        "SELECT 1 FROM deal d JOIN region r ON max(r.id) = 1 WHERE min(d.id) = 1",
        "42803 at 38",
    ),
    ("SELECT id FROM deal WHERE sum(sum(id)) = 1", "42803 at 26"),
];

// An operation on values of a type that it does not take.
static MISTYPED: [(&str, &str); 26] = [
    ("SELECT id = owner FROM deal", "42804 at 10"),
    ("SELECT id < 'x' FROM deal", "42804 at 10"),
    ("SELECT owner >= 1 FROM deal", "42804 at 13"),
    ("SELECT id = TRUE FROM deal", "42804 at 10"),
    ("SELECT id FROM deal WHERE CURRENT_USER = id", "42804 at 39"),
    ("SELECT id BETWEEN 1 AND 'x' FROM deal", "42804 at 10"),
    ("SELECT id BETWEEN owner AND NULL FROM deal", "42804 at 10"),
    (
        "SELECT owner NOT BETWEEN 'a' AND 3 FROM deal",
        "42804 at 13",
    ),
    ("SELECT id IN (1, 'x') FROM deal", "42804 at 10"),
    ("SELECT owner IN (1, 2) FROM deal", "42804 at 13"),
    ("SELECT id NOT IN (NULL, TRUE) FROM deal", "42804 at 10"),
    ("SELECT NULL IN (1, 'a') FROM deal", "42804 at 12"),
    (
        "SELECT CASE WHEN id = 1 THEN 1 ELSE 'x' END FROM deal",
        "42804 at 7",
    ),
    (
        "SELECT CASE WHEN id = 1 THEN NULL WHEN id = 2 THEN TRUE ELSE owner END FROM deal",
        "42804 at 7",
    ),
    ("SELECT CASE WHEN id THEN 1 END FROM deal", "42804 at 7"),
    ("SELECT NOT id FROM deal", "42804 at 7"),
    ("SELECT id = 1 AND owner FROM deal", "42804 at 14"),
    ("SELECT amount OR id = 1 FROM deal", "42804 at 14"),
    ("SELECT id + owner FROM deal", "42804 at 10"),
    ("SELECT TRUE * 2 FROM deal", "42804 at 12"),
    ("SELECT - owner FROM deal", "42804 at 7"),
    ("SELECT sum(owner) FROM deal", "42804 at 7"),
    ("SELECT min(id = 1) FROM deal", "42804 at 7"),
    ("SELECT max(TRUE) FROM deal", "42804 at 7"),
    ("SELECT CAST(TRUE AS bigint) FROM deal", "42804 at 7"),
    ("SELECT CAST(id = 1 AS text) FROM deal", "42804 at 7"),
];

// What may fault in the ON of a left join: the least offset, over all left joins.
static LEFT_JOINS: [(&str, &str); 7] = [
    (
        "SELECT d.id FROM deal d LEFT JOIN region r ON -d.id = r.id AND CAST(r.name AS bigint) = 1",
        "0A000 at 46",
    ),
    (
        "SELECT d.id FROM deal d LEFT JOIN region r ON d.id = r.id AND CAST(r.name AS bigint) = 1",
        "0A000 at 62",
    ),
    (
        "SELECT d.id FROM deal d LEFT JOIN region r ON d.amount + 1 = r.id",
        "0A000 at 55",
    ),
    (
        "SELECT d.id FROM deal d LEFT JOIN region r ON NOT (d.id BETWEEN 1 AND r.id % 2)",
        "0A000 at 75",
    ),
    (
        "SELECT d.id FROM deal d LEFT JOIN region r ON CASE WHEN d.id = 1 THEN TRUE ELSE r.id * 2 IN (4) END",
        "0A000 at 85",
    ),
    (
        "SELECT d.id FROM deal d LEFT JOIN region r ON d.id = r.id OR r.id IS NULL LEFT JOIN note n ON n.deal - 1 = d.id",
        "0A000 at 101",
    ),
    (
        "SELECT d.id FROM deal d LEFT JOIN region r ON d.id = r.id / 2 LEFT JOIN note n ON - n.deal = d.id",
        "0A000 at 58",
    ),
];

// Conditions that are none, and the first of several errors.
static CONDITIONS: [(&str, &str); 20] = [
    ("SELECT id FROM deal WHERE amount", "42804 at 26"),
    ("SELECT id FROM deal WHERE (owner)", "42804 at 26"),
    ("SELECT id FROM deal WHERE id + 1", "42804 at 26"),
    (
        "SELECT id FROM deal WHERE CASE WHEN TRUE THEN 1 END",
        "42804 at 26",
    ),
    (
        "SELECT d.id FROM deal d JOIN region r ON d.id",
        "42804 at 41",
    ),
    (
        "SELECT count(*) FROM deal HAVING sum(amount)",
        "42804 at 33",
    ),
    // The least offset of several.
    (
        "SELECT id FROM deal WHERE id = 'x' AND owner = 1",
        "42804 at 29",
    ),
    ("SELECT 1 + 'x', - owner FROM deal WHERE id", "42804 at 9"),
    (
        "SELECT d.id FROM deal d JOIN region r ON d.id WHERE amount",
        "42804 at 41",
    ),
    // An operation is looked at once its operands are in order.
    ("SELECT (id = 'x') = 1 FROM deal", "42804 at 11"),
    (
        "SELECT id = 1 AND NOT (id + owner) FROM deal",
        "42804 at 26",
    ),
    (
        "SELECT id BETWEEN owner AND 1 + 'x' FROM deal",
        "42804 at 30",
    ),
    // Names come before aggregates, these before types, and these before the ONs of left joins.
    (
        "SELECT d.id FROM deal d LEFT JOIN region r ON d.id + 1",
        "42804 at 46",
    ),
    (
        "SELECT d.id FROM deal d LEFT JOIN region r ON count(*) = 1",
        "42803 at 46",
    ),
    (
        "SELECT d.id FROM deal d LEFT JOIN region r ON d.id + 1 = r.id WHERE d.owner",
        "42804 at 68",
    ),
    (
        "SELECT d.id FROM deal d LEFT JOIN region r ON d.id + 1 = r.id ORDER BY id, nosuch",
        "42703 at 75",
    ),
    (
        "SELECT id = 'x' FROM deal WHERE count(*) = 1",
        "42803 at 32",
    ),
    ("SELECT owner + 1, count(*) FROM deal", "42803 at 7"),
    (
        "SELECT count(*) FROM deal WHERE sum(nosuch) = 1",
        "42703 at 36",
    ),
    (
        "SELECT id = 'x', owner FROM deal GROUP BY nosuch",
        "42703 at 42",
    ),
];

fn fault_of(
    alloc: Global,
    catalog: &Catalog<Global>,
    query: &Query<Global>,
) -> Result<String, AllocError> {
    match bind(alloc, catalog, query) {
        Ok(_) => format!(in alloc; "accepted"),
        Err(failure) => error_text(alloc, failure),
    }
}

fn is_checked(
    rt: &(impl Abort + AllocGlobal),
    catalog: &Catalog<Global>,
    row: &(&str, &str),
) -> Result<(), AllocError> {
    let (text, want) = row;
    let query = made(rt, query(rt.alloc(), text));
    let got = fault_of(rt.alloc(), catalog, &query)?;
    assert_eq!(rt; got.as_str(), *want, "{text}");
    Ok(())
}

fn are_checked(rt: &(impl Abort + AllocGlobal), rows: &[(&str, &str)]) -> Result<(), AllocError> {
    let catalog = made(rt, catalog(rt.alloc()));
    for row in rows {
        is_checked(rt, &catalog, row)?;
    }
    Ok(())
}

#[test]
fn queries_in_order_are_bound(rt: HostRuntime) -> Result<(), Fail> {
    are_checked(&rt, &ACCEPTED)?;
    Ok(())
}

#[test]
fn misplaced_aggregates_and_columns_are_refused(rt: HostRuntime) -> Result<(), Fail> {
    are_checked(&rt, &MISPLACED)?;
    Ok(())
}

#[test]
fn values_of_the_wrong_type_are_refused(rt: HostRuntime) -> Result<(), Fail> {
    are_checked(&rt, &MISTYPED)?;
    Ok(())
}

#[test]
fn what_may_fault_in_a_left_join_is_refused(rt: HostRuntime) -> Result<(), Fail> {
    are_checked(&rt, &LEFT_JOINS)?;
    Ok(())
}

#[test]
fn the_first_fault_of_clauses_is_reported(rt: HostRuntime) -> Result<(), Fail> {
    are_checked(&rt, &CONDITIONS)?;
    Ok(())
}
