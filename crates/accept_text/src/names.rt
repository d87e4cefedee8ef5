//! Queries over three tables, with the first error of their names, or the privileges that they need.

use crate::queries::made;
use access::{RequiredPrivilege, needed};
use catalog::Catalog;
use fixtures::{catalog, error_text, query};
use memory::Failure;
use resolve::{bind, bind_query, entries};
use row_ast::Query;
use scope::BindError;
use std::alloc::{AllocError, Global};
use std::process::Abort;
use std::test::Fail;
use value::Refusal;

// A query, and the privileges that it needs: on columns, and on tables of which any part will do.
static NEEDED: [(&str, &str); 15] = [
    ("SELECT id, owner FROM deal", "deal.id deal.owner "),
    ("SELECT * FROM deal", "deal.id deal.owner deal.amount "),
    ("SELECT count(*) FROM deal", "deal "),
    ("SELECT deal.id FROM deal, region", "deal.id region "),
    ("SELECT d.id FROM region, deal AS d", "deal.id region "),
    ("SELECT d.id FROM region r, deal d", "deal.id region "),
    (
        "SELECT * FROM region, note",
        "region.id region.name note.deal note.body ",
    ),
    (
        "SELECT id + amount FROM deal WHERE owner = CURRENT_USER",
        "deal.id deal.amount deal.owner ",
    ),
    (
        "SELECT name, count(*) FROM deal d JOIN region r ON d.id = r.id WHERE amount BETWEEN 1 AND d.id GROUP BY name HAVING sum(amount) > 3",
        "region.name deal.id region.id deal.amount deal.id region.name deal.amount ",
    ),
    (
        "SELECT CASE WHEN amount IS NULL THEN owner WHEN deal.id IN (1, 2) THEN name ELSE body END FROM deal, region, note ORDER BY nosuch",
        "deal.amount deal.owner deal.id region.name note.body ",
    ),
    ("SELECT a.id, b.id FROM deal a, deal b", "deal.id deal.id "),
    (
        "SELECT d.id FROM deal d LEFT JOIN region r ON d.amount = r.id WHERE owner = 'x'",
        "deal.id deal.amount region.id deal.owner ",
    ),
    (
        "SELECT d.id FROM deal d LEFT JOIN region r ON TRUE LEFT JOIN note n ON d.id = 1",
        "deal.id region note deal.id ",
    ),
    (
        "SELECT a.id FROM deal a CROSS JOIN deal b, note",
        "deal.id deal note ",
    ),
    (
        "SELECT -CAST(min(amount) AS text) FROM deal WHERE NOT (id = 1 OR id = 2 AND owner = 'x')",
        "deal.amount deal.id deal.id deal.owner ",
    ),
];

// A query, and the first error of its names.
static FAULTS: [(&str, Refusal, u32); 26] = [
    ("SELECT id FROM nosuch", Refusal::UndefinedTable, 15),
    ("SELECT nosuch FROM deal", Refusal::UndefinedColumn, 7),
    ("SELECT id FROM deal, region", Refusal::AmbiguousColumn, 7),
    ("SELECT x.id FROM deal d", Refusal::UndefinedTable, 7),
    ("SELECT deal.id FROM deal d", Refusal::UndefinedTable, 7),
    ("SELECT d.nosuch FROM deal d", Refusal::UndefinedColumn, 7),
    (
        "SELECT d.id FROM deal d, region d",
        Refusal::DuplicateAlias,
        25,
    ),
    (
        "SELECT deal.id FROM deal, region AS deal",
        Refusal::DuplicateAlias,
        26,
    ),
    ("SELECT id FROM deal, deal", Refusal::DuplicateAlias, 21),
    (
        "SELECT nosuch FROM deal d, region d, nosuch",
        Refusal::DuplicateAlias,
        27,
    ),
    (
        "SELECT nosuch FROM deal d, nosuch d",
        Refusal::UndefinedTable,
        27,
    ),
    (
        "SELECT owner FROM deal d JOIN region r ON d.id = n.deal JOIN note n ON TRUE",
        Refusal::UndefinedTable,
        49,
    ),
    (
        "SELECT owner FROM note n, deal d JOIN region r ON d.id = n.deal",
        Refusal::UndefinedTable,
        57,
    ),
    (
        "SELECT d.id FROM deal d LEFT JOIN deal d ON TRUE",
        Refusal::DuplicateAlias,
        34,
    ),
    (
        "SELECT d.id FROM deal d LEFT JOIN nosuch d ON nosuch",
        Refusal::UndefinedTable,
        34,
    ),
    (
        "SELECT d.id FROM deal d LEFT JOIN region r ON s.id = r.id LEFT JOIN region s ON TRUE",
        Refusal::UndefinedTable,
        46,
    ),
    (
        "SELECT d.id FROM deal d LEFT JOIN region r ON CAST(d.id AS text) = r.name ORDER BY nosuch",
        Refusal::UndefinedColumn,
        83,
    ),
    (
        "SELECT d.id FROM deal d LEFT JOIN region r ON -d.id = r.id AND CAST(r.name AS bigint) = 1",
        Refusal::FeatureNotSupported,
        46,
    ),
    (
        "SELECT nosuch FROM deal d JOIN region r ON d.id = x.id",
        Refusal::UndefinedColumn,
        7,
    ),
    (
        "SELECT owner FROM deal d JOIN region r ON d.id = id",
        Refusal::AmbiguousColumn,
        49,
    ),
    (
        "SELECT owner FROM deal WHERE nosuch = 1 GROUP BY other HAVING third = 1",
        Refusal::UndefinedColumn,
        29,
    ),
    (
        "SELECT owner FROM deal GROUP BY other HAVING third = 1",
        Refusal::UndefinedColumn,
        32,
    ),
    (
        "SELECT owner FROM deal GROUP BY owner HAVING third = 1",
        Refusal::UndefinedColumn,
        45,
    ),
    (
        "SELECT count(nosuch) FROM deal",
        Refusal::UndefinedColumn,
        13,
    ),
    (
        "SELECT CASE WHEN TRUE THEN id ELSE x.id END FROM deal",
        Refusal::UndefinedTable,
        35,
    ),
    (
        "SELECT id BETWEEN amount AND nosuch FROM deal",
        Refusal::UndefinedColumn,
        29,
    ),
];

fn shown(alloc: Global, required: &[RequiredPrivilege<'_, Global>]) -> Result<String, AllocError> {
    let mut shown = String::new(alloc);
    for privilege in required {
        shown.push_str(privilege.table.name())?;
        if let Some(column) = privilege.column {
            shown.push_str(".")?;
            shown.push_str(column.as_str())?;
        }
        shown.push_str(" ")?;
    }
    Ok(shown)
}

// The privileges that a query needs as a text, or its first error.
fn needed_as(
    alloc: Global,
    catalog: &Catalog<Global>,
    query: &Query<Global>,
) -> Result<String, AllocError> {
    let entries = match entries(alloc, catalog, query) {
        Ok(entries) => entries,
        Err(failure) => return error_text(alloc, failure),
    };
    let bound = match bind_query(alloc, entries.as_slice(), query) {
        Ok(bound) => bound,
        Err(failure) => return error_text(alloc, failure),
    };
    let required = needed(alloc, entries.as_slice(), &bound)?;
    shown(alloc, required.as_slice())
}

fn needs(
    rt: &(impl Abort + AllocGlobal),
    catalog: &Catalog<Global>,
    row: &(&str, &str),
) -> Result<(), AllocError> {
    let (text, want) = row;
    let query = made(rt, query(rt.alloc(), text));
    let got = needed_as(rt.alloc(), catalog, &query)?;
    assert_eq!(rt; got.as_str(), *want, "{text}");
    Ok(())
}

fn fails(rt: &(impl Abort + AllocGlobal), catalog: &Catalog<Global>, row: &(&str, Refusal, u32)) {
    let (text, code, offset) = row;
    let query = made(rt, query(rt.alloc(), text));
    let want = BindError {
        code: *code,
        offset: *offset,
    };
    match bind(rt.alloc(), catalog, &query) {
        Err(Failure::Error(fault)) => assert_eq!(rt; fault, want, "{text}"),
        _ => panic!(rt; "{text}"),
    }
}

#[test]
fn needs_are_in_written_order(rt: HostRuntime) -> Result<(), Fail> {
    let catalog = made(&rt, catalog(rt.alloc()));
    for row in &NEEDED {
        needs(&rt, &catalog, row)?;
    }
    Ok(())
}

#[test]
fn first_fault_of_names(rt: HostRuntime) {
    let catalog = made(&rt, catalog(rt.alloc()));
    for row in &FAULTS {
        fails(&rt, &catalog, row);
    }
}
