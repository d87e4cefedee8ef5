//! Statements of which each request for memory is refused in turn: a refused one leaves the store as it was.

use crate::turns::{Ended, Run, ended_here, refuse_in_turn};
use fixtures::{FixtureError, SALES, SALES_DEALS, SALES_REGIONS, apply, load, served, store_of};
use memory::{Failure, Heap};
use metered::Metered;
use row_ast::Statement;
use std::alloc::{AllocError, Global};
use std::process::Abort;
use std::test::Fail;
use store::Store;
use syntax::parse_statement;
use value::Refusal;

// Statements over the store of `sales` with its rows, each after those before it.
const MORE: &str = "CREATE INDEX di ON deal (id); CREATE INDEX owners ON deal (owner);
CREATE POLICY near ON deal AS RESTRICTIVE TO sales USING (region = 1 OR region IS NULL);
REVOKE SELECT ON deal FROM audit; GRANT SELECT (id, owner) ON deal TO PUBLIC; DROP POLICY own ON deal;
CREATE POLICY low ON deal TO alice, bob USING (CASE WHEN id IN (1, 2) THEN owner < 'm' ELSE id BETWEEN 3 AND 9 END);
CREATE TABLE note (deal bigint NOT NULL, body text); ALTER TABLE note OWNER TO alice; REVOKE sales FROM bob;";

// A role and a text, whose replies show the store.
static ASKED: [(&str, &str); 8] = [
    ("root", "SELECT * FROM deal"),
    ("boss", "SELECT * FROM deal"),
    ("audit", "SELECT id, amount FROM deal WHERE id = 3"),
    ("alice", "SELECT id, owner FROM deal"),
    ("bob", "SELECT amount/parts FROM deal"),
    ("guest", "SELECT id FROM deal"),
    (
        "lone",
        "SELECT d.id, r.name FROM deal d, region r WHERE d.region = r.id",
    ),
    ("alice", "SELECT * FROM note"),
];

fn asked() -> &'static [(&'static str, &'static str)] {
    &ASKED
}

// The replies of a store.
fn replies<A: Heap>(alloc: A, store: &Store<A>) -> Result<Vec<u8>, AllocError> {
    let mut all = Vec::new(alloc.global());
    for (role, text) in asked() {
        let (_status, out) = served(alloc, store, role, text);
        all.extend_from_slice(out.inner.as_slice())?;
    }
    Ok(all)
}

// The number of rows of a table; one where there is no such table.
fn rows_of<A: Heap>(store: &Store<A>, table: &str) -> u64 {
    match store.contents(table) {
        Some(contents) => contents.rows(),
        None => 1,
    }
}

// Loads the rows of the tables that are there and have none.
fn fill<A: Heap>(store: &mut Store<A>) -> Result<(), Failure<FixtureError>> {
    if rows_of(store, "deal") == 0 {
        load(store, "deal", SALES_DEALS)?;
    }
    if rows_of(store, "region") == 0 {
        load(store, "region", SALES_REGIONS)?;
    }
    Ok(())
}

// The store of statements, with rows.
fn filled<A: Heap>(alloc: A, schema: &str) -> Result<Box<Store<A>, A>, Failure<FixtureError>> {
    let mut store = store_of(alloc, schema)?;
    fill(&mut store)?;
    Ok(store)
}

// A statement of root, those before it, the statement, and those after it.
#[derive(Clone, Copy)]
struct Change<'q> {
    before: &'q str,
    text: &'q str,
    after: &'q str,
}

// Nothing is changed: a statement that was refused left the store as it is without it.
fn is_unchanged<A: Heap>(rt: &impl Abort, alloc: A, store: &Store<A>, change: &Change<'_>) {
    let text = change.text;
    let before = filled(alloc, change.before).expect(rt, text);
    let number = before.catalog().change_number();
    assert_eq!(rt; store.catalog().change_number(), number, "{text}");
    let same = replies(alloc, &before) == replies(alloc, store);
    assert!(rt; same, "{text}");
}

// The replies of the store of all statements.
fn replies_after<A: Heap>(
    alloc: A,
    store: &mut Store<A>,
    change: &Change<'_>,
) -> Result<Vec<u8>, Failure<FixtureError>> {
    apply(alloc, store, "root", change.after)?;
    fill(store)?;
    Ok(replies(alloc, store)?)
}

// A statement, and the replies of the store of all statements.
#[derive(Clone, Copy)]
struct Turn<'q> {
    change: Change<'q>,
    whole: &'q [u8],
}

// True where memory ran out.
fn is_refused<A: Heap>(
    rt: &impl Abort,
    store: &mut Store<A>,
    statement: &Statement<A>,
    text: &str,
) -> bool {
    match store.change("root", statement) {
        Ok(()) => false,
        Err(code) => {
            assert_eq!(rt; code, Refusal::OutOfMemory, "{text}");
            true
        }
    }
}

impl Run for Turn<'_> {
    fn ended(&self, rt: &(impl Abort + AllocGlobal), heap: &Metered<Global>, nth: u64) -> Ended {
        let change = self.change;
        let text = change.text;
        let mut store = filled(heap, change.before).expect(rt, text);
        let statement = parse_statement(heap, text).expect(rt, text);
        let is_refused = is_refused(rt, &mut store, &statement, text);
        let ended = ended_here(rt, heap, nth, is_refused, text);
        if ended == Ended::Refused {
            is_unchanged(rt, heap, &store, &change);
            assert_eq!(rt; store.change("root", &statement), Ok(()), "{text}");
        }
        if ended != Ended::Whole {
            let after = replies_after(heap, &mut store, &change).expect(rt, text);
            assert_eq!(rt; after.as_slice(), self.whole, "{text}");
        }
        ended
    }
}

// The number of requests up to a statement.
fn requests_before(rt: &(impl Abort + AllocGlobal), change: &Change<'_>) -> u64 {
    let text = change.text;
    let counting = Metered::counting(rt.alloc());
    let store = filled(&counting, change.before).expect(rt, text);
    let statement = parse_statement(&counting, text).expect(rt, text);
    let requests = counting.requests(0);
    drop(store);
    drop(statement);
    requests
}

// The replies where all statements are done.
fn whole_replies(
    rt: &(impl Abort + AllocGlobal),
    before: &str,
    texts: &str,
) -> Result<Vec<u8>, Failure<FixtureError>> {
    let mut store = filled(rt.alloc(), before)?;
    apply(rt.alloc(), &mut store, "root", texts)?;
    fill(&mut store)?;
    Ok(replies(rt.alloc(), &store)?)
}

// Each statement of a schema text, after those of another one. It gives the number of statements that were refused some of the times.
fn refuse_each(
    rt: &(impl Abort + AllocGlobal),
    before: &str,
    texts: &str,
) -> Result<u64, Failure<FixtureError>> {
    let whole = whole_replies(rt, before, texts)?;
    let mut done = String::from_str(rt.alloc(), before)?;
    let mut after = texts;
    let mut refused = 0u64;
    for part in texts.split_inclusive(';') {
        after = after.strip_prefix(part).unwrap_or("");
        let change = Change {
            before: done.as_str(),
            text: part.strip_suffix(';').unwrap_or(part),
            after,
        };
        let first = requests_before(rt, &change);
        let turn = Turn {
            change,
            whole: whole.as_slice(),
        };
        if refuse_in_turn(rt, &turn, first, part) > 0 {
            refused = refused.saturating_add(1);
        }
        done.push_str(part)?;
    }
    Ok(refused)
}

// Of the 18 statements of the schema all but the one that enables row security take memory, and of the ten others all but three, which
// take away.
#[test]
fn refused_statements_change_nothing(rt: HostRuntime) -> Result<(), Fail> {
    assert_eq!(&rt; refuse_each(&rt, "", SALES)?, 17);
    assert_eq!(&rt; refuse_each(&rt, SALES, MORE)?, 7);
    Ok(())
}
