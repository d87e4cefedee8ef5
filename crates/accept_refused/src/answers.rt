//! Replies, plans and audits of which each request for memory is refused in turn.

use crate::turns::{Ended, Run, ended_here, refuse_in_turn, requests_of_sales};
use fixtures::{audited, explained, sales, served};
use memory::Heap;
use metered::Metered;
use output::Output;
use std::alloc::Global;
use std::process::Abort;
use store::Store;

// What is asked of a query: its rows, its plan, or the audit of a plan.
#[derive(Clone, Copy)]
enum Asked {
    Rows,
    Plan,
    Audit(&'static str),
}

// A request to the store of `sales`: the role, the query, and what is asked of it; the status, and what is written, of a plan the
// lines up to its trail.
#[derive(Clone, Copy)]
struct Request {
    role: &'static str,
    text: &'static str,
    asked: Asked,
    status: u8,
    written: &'static str,
}

// Rows, faults and groups.
static ROWS: [Request; 7] = [
    Request {
        role: "bob",
        text: "SELECT amount/parts FROM deal",
        asked: Asked::Rows,
        status: 0,
        written: "?column?\n10\n\\N\n",
    },
    Request {
        role: "alice",
        text: "SELECT amount/parts FROM deal",
        asked: Asked::Rows,
        status: 5,
        written: "fault 22012 at 13\n",
    },
    Request {
        role: "alice",
        text: "SELECT id FROM deal WHERE amount/parts > 10 AND parts <> 0",
        asked: Asked::Rows,
        status: 0,
        written: "id\n1\n5\n",
    },
    Request {
        role: "alice",
        text: JOIN,
        asked: Asked::Rows,
        status: 0,
        written: "id,name\n1,north\n2,south\n",
    },
    Request {
        role: "alice",
        text: "SELECT d.amount/d.parts FROM deal d, region r WHERE d.region = r.id AND r.name = 'north'",
        asked: Asked::Rows,
        status: 0,
        written: "?column?\n25\n",
    },
    Request {
        role: "alice",
        text: "SELECT region, count(*), sum(amount) FROM deal GROUP BY region",
        asked: Asked::Rows,
        status: 0,
        written: "region,count,sum\n1,1,100\n2,1,50\n\\N,1,100\n",
    },
    Request {
        role: "alice",
        text: LEFT,
        asked: Asked::Rows,
        status: 0,
        written: "id,name\n1,north\n2,south\n5,\\N\n",
    },
];

const JOIN: &str = "SELECT d.id, r.name FROM deal d, region r WHERE d.region = r.id";

const LEFT: &str = "SELECT d.id, r.name FROM deal d LEFT JOIN region r ON d.region = r.id";

// A refusal, and the denials of rows and of a plan.
static REFUSALS: [Request; 3] = [
    Request {
        role: "alice",
        text: "SELECT id, nosuch FROM deal",
        asked: Asked::Rows,
        status: 3,
        written: "refused 42703 at 11\n",
    },
    Request {
        role: "guest",
        text: "SELECT id, amount FROM deal",
        asked: Asked::Rows,
        status: 4,
        written: "denied 42501 column amount of table deal\n",
    },
    Request {
        role: "lone",
        text: "SELECT count(*) FROM deal",
        asked: Asked::Plan,
        status: 4,
        written: "denied 42501 table deal\n",
    },
];

// Plans of joins. Of the deals alice sees three. With a condition on the region it has one row: 3 steps read the deals, 3 the regions,
// and there are three pairs.
static PLANS: [Request; 4] = [
    Request {
        role: "audit",
        text: JOIN,
        asked: Asked::Plan,
        status: 0,
        written: "cost 19\nfilter 1 (d.region = r.id)\nfirst d full\nhash 1 r full\ntrail\n",
    },
    Request {
        role: "alice",
        text: JOIN,
        asked: Asked::Plan,
        status: 0,
        written: "cost 15\nfilter 1 (d.region = r.id)\nfirst d full\nnested r full\ntrail\n",
    },
    Request {
        role: "alice",
        text: "SELECT d.id FROM deal d, region r WHERE d.region = r.id AND r.name = 'north'",
        asked: Asked::Plan,
        status: 0,
        written: "cost 9\nfilter 1 (d.region = r.id)\nfilter 2 (r.name = 'north')\nfirst d full\nnested r full\ntrail\n",
    },
    Request {
        role: "audit",
        text: LEFT,
        asked: Asked::Plan,
        status: 0,
        written: "cost 19\non r (d.region = r.id)\nfirst d full\nleft hash 1 r full\ntrail\n",
    },
];

// Audits of plans of a join: one that is accepted, one with a step that does not fit, one that does not end at the shape of its
// code, one whose filter is another, and one that cannot be read.
static AUDITS: [Request; 5] = [
    Request {
        role: "audit",
        text: JOIN,
        asked: Asked::Audit(
            "cost 19\nfilter 1 (d.region = r.id)\nfirst d full\nhash 1 r full\ntrail\n9 00\n9 01\n",
        ),
        status: 0,
        written: "accepted\n",
    },
    Request {
        role: "audit",
        text: JOIN,
        asked: Asked::Audit(
            "cost 19\nfilter 1 (d.region = r.id)\nfirst d full\nhash 1 r full\ntrail\n9 00\n9 00\n",
        ),
        status: 3,
        written: "refused line 2 reason 3\n",
    },
    Request {
        role: "audit",
        text: JOIN,
        asked: Asked::Audit(
            "cost 19\nfilter 1 (d.region = r.id)\nfirst r full\nhash 1 d full\ntrail\n9 00\n9 01\n",
        ),
        status: 3,
        written: "refused line 3 reason 6\n",
    },
    Request {
        role: "audit",
        text: JOIN,
        asked: Asked::Audit(
            "cost 19\nfilter 1 (r.id = d.region)\nfirst d full\nhash 1 r full\ntrail\n9 00\n9 01\n",
        ),
        status: 3,
        written: "refused line 0 reason 5\n",
    },
    Request {
        role: "audit",
        text: JOIN,
        asked: Asked::Audit(
            "cost 19\nfilter 1 (d.region = r.id)\nfirst d full\nhash 1 x full\ntrail\n9 00\n9 01\n",
        ),
        status: 3,
        written: "unreadable line 4\n",
    },
];

fn rows() -> &'static [Request] {
    &ROWS
}

fn refusals() -> &'static [Request] {
    &REFUSALS
}

fn plans() -> &'static [Request] {
    &PLANS
}

fn audits() -> &'static [Request] {
    &AUDITS
}

// The status and the bytes of a request.
fn answered<A: Heap>(alloc: A, store: &Store<A>, request: &Request) -> (u8, Output<Vec<u8>>) {
    match request.asked {
        Asked::Rows => served(alloc, store, request.role, request.text),
        Asked::Plan => explained(alloc, store, request.role, request.text),
        Asked::Audit(plan) => audited(alloc, store, request.role, request.text, plan.as_bytes()),
    }
}

// True where a plan begins with the wanted lines and its audit accepts it.
fn is_plan(store: &Store<Global>, alloc: Global, request: &Request, plan: &[u8]) -> bool {
    let (status, out) = audited(alloc, store, request.role, request.text, plan);
    status == 0
        && out.inner.as_slice() == b"accepted\n".as_slice()
        && plan.starts_with(request.written.as_bytes())
}

// What is written where no memory is refused, which is the wanted reply.
fn whole_reply(
    rt: &(impl Abort + AllocGlobal),
    store: &Store<Global>,
    request: &Request,
) -> Vec<u8> {
    let text = request.text;
    let (status, out) = answered(rt.alloc(), store, request);
    let bytes = out.inner.as_slice();
    assert_eq!(rt; status, request.status, "{text}");
    match request.asked {
        Asked::Plan if status == 0 => {
            assert!(rt; is_plan(store, rt.alloc(), request, bytes), "{text}");
        }
        _ => assert_eq!(rt; bytes, request.written.as_bytes(), "{text}"),
    }
    out.inner
}

// A request, and what is written where no memory is refused.
#[derive(Clone, Copy)]
struct Turn<'q> {
    request: &'q Request,
    whole: &'q [u8],
}

// True where memory ran out, and else the whole reply was written.
fn is_refused<A: Heap>(rt: &impl Abort, alloc: A, turn: &Turn<'_>) -> bool {
    let text = turn.request.text;
    let store = sales(alloc).expect(rt, "no store");
    let (status, out) = answered(alloc, &store, turn.request);
    let bytes = out.inner.as_slice();
    if status == 7 {
        assert_eq!(rt; bytes, b"refused 53200\n".as_slice(), "{text}");
        return true;
    }
    assert_eq!(rt; status, turn.request.status, "{text}");
    assert_eq!(rt; bytes, turn.whole, "{text}");
    false
}

impl Run for Turn<'_> {
    fn ended(&self, rt: &(impl Abort + AllocGlobal), heap: &Metered<Global>, nth: u64) -> Ended {
        let is_refused = is_refused(rt, heap, self);
        ended_here(rt, heap, nth, is_refused, self.request.text)
    }
}

fn refuse(rt: &(impl Abort + AllocGlobal), store: &Store<Global>, built: u64, request: &Request) {
    let whole = whole_reply(rt, store, request);
    let turn = Turn {
        request,
        whole: whole.as_slice(),
    };
    let refused = refuse_in_turn(rt, &turn, built, request.text);
    assert!(rt; refused > 5, "{refused}");
}

fn refuse_all(rt: &(impl Abort + AllocGlobal), requests: &[Request]) {
    let built = requests_of_sales(rt);
    let store = sales(rt.alloc()).expect(rt, "no store");
    for request in requests {
        refuse(rt, &store, built, request);
    }
}

#[test]
fn replies_are_whole_or_out_of_memory(rt: HostRuntime) {
    refuse_all(&rt, rows());
    refuse_all(&rt, refusals());
}

#[test]
fn plans_are_whole_or_out_of_memory(rt: HostRuntime) {
    refuse_all(&rt, plans());
}

#[test]
fn audits_are_whole_or_out_of_memory(rt: HostRuntime) {
    refuse_all(&rt, audits());
}
