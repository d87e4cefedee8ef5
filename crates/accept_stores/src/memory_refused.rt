//! Each request for memory refused in turn.

use crate::stores::made;
use fixtures::{DEALS, FixtureError, SCHEMA, audited, deals, explained, load, served, store_of};
use memory::{Failure, Heap};
use metered::Metered;
use output::Output;
use std::alloc::AllocError;
use std::process::Abort;
use store::Store;
use value::Refusal;

const TEXT: &str = "SELECT id FROM deal WHERE id IN (1, 2) AND NOT owner = 'bob'";

// What is asked of a query: its rows, its plan, or the audit of a plan.
#[derive(Clone, Copy)]
enum Asked {
    Rows,
    Plan,
    Audit(&'static str),
}

// A request of alice: a query, and what is asked of it; what is written, and the status.
#[derive(Clone, Copy)]
struct Request {
    text: &'static str,
    asked: Asked,
    written: &'static str,
    status: u8,
}

// Queries of one table, of a join with a cast and a fragile condition, of a fault, and of groups in an order; two with texts that are
// made once a row, in a condition that drops rows, in an item and in aggregates; a plan, and an audit.
static REQUESTS: [Request; 8] = [
    Request {
        text: TEXT,
        asked: Asked::Rows,
        written: "id\n1\n2\n",
        status: 0,
    },
    Request {
        text: "SELECT CAST(d.id AS text) AS t, e.id + 1 AS n FROM deal d JOIN deal e ON d.id = e.id WHERE e.id * 1 > 0",
        asked: Asked::Rows,
        written: "t,n\n1,2\n2,3\n",
        status: 0,
    },
    Request {
        text: "SELECT 1 / (d.id - 1) FROM deal d, deal e WHERE d.id = e.id",
        asked: Asked::Rows,
        written: "fault 22012 at 9\n",
        status: 5,
    },
    Request {
        text: "SELECT owner, count(*), max(owner), sum(id) + 1 AS n FROM deal GROUP BY owner HAVING min(id) > 0 ORDER BY n DESC LIMIT 2",
        asked: Asked::Rows,
        written: "owner,count,max,n\nalice,2,alice,4\n",
        status: 0,
    },
    Request {
        text: "SELECT CAST(d.id AS text) AS t, e.id AS n FROM deal d, deal e WHERE CAST(d.id AS text) <> '2'",
        asked: Asked::Rows,
        written: "t,n\n1,1\n1,2\n",
        status: 0,
    },
    Request {
        text: "SELECT count(*), min(CAST(d.id AS text)) AS low, max(CAST(e.id AS text)) AS high FROM deal d, deal e WHERE CAST(e.id AS text) <> '1'",
        asked: Asked::Rows,
        written: "count,low,high\n2,1,2\n",
        status: 0,
    },
    Request {
        text: "SELECT id FROM deal WHERE id = 3 ORDER BY id",
        asked: Asked::Plan,
        written: "cost 3\nfilter 1 (deal.id = 3)\nfirst deal full\nsort deal.id\ntrail\n13 .\n14 .\n8 .\n",
        status: 0,
    },
    Request {
        text: "SELECT id FROM deal WHERE id = 3",
        asked: Asked::Audit("cost 5\nfilter 1 (deal.id = 3)\nfirst deal full\ntrail\n8 .\n"),
        written: "accepted\n",
        status: 0,
    },
];

fn requests() -> &'static [Request] {
    &REQUESTS
}

// The number of requests of the store of the worked rows.
fn requests_of_deals(rt: &(impl Abort + AllocGlobal)) -> u64 {
    let counting = Metered::counting(rt.alloc());
    assert!(rt; deals(&counting).is_ok());
    counting.requests(0)
}

// The outcome where one request for memory was refused, or none.
#[derive(Clone, Copy)]
struct Tried {
    none_refused: bool,
    status: u8,
    is_reply: bool,
    is_refusal: bool,
}

// The status and the bytes of a request.
fn answered<A: Heap>(alloc: A, store: &Store<A>, asked: Request) -> (u8, Output<Vec<u8>>) {
    match asked.asked {
        Asked::Rows => served(alloc, store, "alice", asked.text),
        Asked::Plan => explained(alloc, store, "alice", asked.text),
        Asked::Audit(plan) => audited(alloc, store, "alice", asked.text, plan.as_bytes()),
    }
}

// The outcome where the nth request for memory after the store is refused.
fn tried_without(rt: &(impl Abort + AllocGlobal), built: u64, asked: Request, n: u64) -> Tried {
    let nth = built.saturating_add(n);
    let heap = Metered::refusing(rt.alloc(), nth);
    let store = made(rt, deals(&heap));
    let (status, out) = answered(&heap, &store, asked);
    Tried {
        none_refused: heap.requests(nth) < nth,
        status,
        is_reply: out.inner.as_slice() == asked.written.as_bytes(),
        is_refusal: out.inner.as_slice() == b"refused 53200\n".as_slice(),
    }
}

// A reply where the nth request for memory after the store is refused: out of memory, or there are fewer and it is whole.
fn replies_without(rt: &(impl Abort + AllocGlobal), built: u64, asked: Request, n: u64) -> bool {
    let tried = tried_without(rt, built, asked, n);
    let text = asked.text;
    // One of the later requests may be one that the reply can do without.
    if tried.none_refused || (n > 5 && tried.status == asked.status) {
        assert_eq!(rt; tried.status, asked.status, "{text} at {n}");
        assert!(rt; tried.is_reply, "{text} at {n}");
        return tried.none_refused;
    }
    assert_eq!(rt; tried.status, 7, "{text} at {n}");
    assert!(rt; tried.is_refusal, "{text} at {n}");
    false
}

fn reply_or_refusal_of_memory(rt: &(impl Abort + AllocGlobal), asked: Request) {
    let built = requests_of_deals(rt);
    let mut refused = 0u64;
    for n in 1..1000u64 {
        if replies_without(rt, built, asked, n) {
            break;
        }
        refused = n;
    }
    assert!(rt; refused > 5, "{refused}");
    assert!(rt; refused < 400, "{refused}");
}

// The failure of a refused request where a store is made.
fn is_memory(failure: Failure<FixtureError>) -> bool {
    matches!(
        failure,
        Failure::OutOfMemory | Failure::Error(FixtureError::Statement(Refusal::OutOfMemory))
    )
}

// A schema with each statement that takes or gives back memory.
const INDEXED: &str = "CREATE ROLE audit BYPASSRLS; CREATE ROLE sales; CREATE ROLE alice;
GRANT sales TO alice; CREATE TABLE deal (id bigint, owner text); ALTER TABLE deal OWNER TO audit;
ALTER TABLE deal FORCE ROW LEVEL SECURITY; GRANT SELECT (id, owner) ON deal TO sales, PUBLIC;
CREATE INDEX i ON deal (id); CREATE POLICY own ON deal TO sales USING (owner = 'x'); DROP POLICY own ON deal;
CREATE POLICY near ON deal AS RESTRICTIVE USING (CASE WHEN id IN (1, NULL) THEN NOT owner < 'm' ELSE id BETWEEN 1 AND 9 OR owner IS NULL END);
REVOKE SELECT (id) ON deal FROM sales; REVOKE sales FROM alice;";

// The schemas of stores: of the deals, and with every statement that takes memory.
static SCHEMAS: [&str; 2] = [SCHEMA, INDEXED];

fn schemas() -> &'static [&'static str] {
    &SCHEMAS
}

// A store where the nth request is refused: out of memory, or there are fewer requests and it is made.
fn made_without(rt: &(impl Abort + AllocGlobal), schema: &str, nth: u64) -> bool {
    let heap = Metered::refusing(rt.alloc(), nth);
    match store_of(&heap, schema) {
        Ok(_) => {
            assert!(rt; heap.requests(nth) < nth, "at {nth}");
            true
        }
        Err(failure) => {
            assert!(rt; is_memory(failure), "at {nth}: {failure:?}");
            false
        }
    }
}

fn store_or_refusal_of_memory(rt: &(impl Abort + AllocGlobal), schema: &str) {
    let mut refused = 0u64;
    for nth in 1..1000u64 {
        if made_without(rt, schema, nth) {
            break;
        }
        refused = nth;
    }
    assert!(rt; refused > 20, "{refused}");
    assert!(rt; refused < 900, "{refused}");
}

// The numbers of requests of the table with an index before its load, and of the load.
fn requests_of_load(rt: &(impl Abort + AllocGlobal)) -> (u64, u64) {
    let heap = Metered::counting(rt.alloc());
    let mut store = made(rt, store_of(&heap, INDEXED));
    let before = heap.requests(0);
    assert!(rt; load(&mut store, "deal", DEALS).is_ok());
    (before, heap.requests(0).saturating_sub(before))
}

// Whether a load of the deals is done, and the number of bytes that the owner is answered after it.
fn answered_after_load<A: Heap>(alloc: A) -> Result<(bool, usize), AllocError> {
    let Ok(mut store) = store_of(alloc, INDEXED) else {
        return Err(AllocError);
    };
    let is_done = load(&mut store, "deal", DEALS).is_ok();
    let (_status, out) = served(alloc, &store, "audit", TEXT);
    Ok((is_done, out.inner.len()))
}

// A load where the nth request for memory is refused: it adds nothing, or it is done, where it can do without that request.
fn is_done_without(rt: &(impl Abort + AllocGlobal), nth: u64) -> bool {
    let heap = Metered::refusing(rt.alloc(), nth);
    let Ok((is_done, bytes)) = answered_after_load(&heap) else {
        panic!(rt; "at {nth}");
    };
    // The heading alone has three bytes.
    assert_eq!(rt; bytes, if is_done { 7 } else { 3 }, "at {nth}");
    is_done
}

fn refused_load_adds_nothing(rt: &(impl Abort + AllocGlobal)) {
    let (built, requests) = requests_of_load(rt);
    let mut done = 0u64;
    for n in 0..requests {
        if is_done_without(rt, built.saturating_add(n).saturating_add(1)) {
            done = done.saturating_add(1);
        }
    }
    // The numbers, the bytes and the ends of the texts, the nulls of both columns, the index and the list of indexes.
    assert!(rt;
        requests >= 7 && done.saturating_mul(2) < requests,
        "{done} of {requests}"
    );
}

#[test]
fn refused_memory_of_stores_and_answers_is_reported(rt: HostRuntime) {
    for asked in requests() {
        reply_or_refusal_of_memory(&rt, *asked);
    }
    for schema in schemas() {
        store_or_refusal_of_memory(&rt, schema);
    }
    refused_load_adds_nothing(&rt);
}
