//! Events of sessions of which each request for memory is refused in turn: a refused one changes nothing.

use crate::turns::{Ended, Run, ended_here, refuse_in_turn, requests_of_sales};
use fixtures::sales;
use memory::{Heap, boxed};
use metered::Metered;
use session::{Core, Event};
use session_scripts::{ScriptLine, read_line, reply_text};
use std::alloc::Global;
use std::process::Abort;

// The line of an event, and the text of its reply.
type Row = (&'static str, &'static str);

// A role that is revoked between two executions of a prepared text.
static REVOKED: [Row; 6] = [
    ("login alice", "session 0\n"),
    ("login root", "session 1\n"),
    ("prepare 0 p SELECT id FROM deal", "ok\n"),
    ("execute 0 p", "id\n1\n2\n5\n"),
    ("change 1 REVOKE sales FROM alice", "ok\n"),
    ("execute 0 p", "denied 42501 column id of table deal\n"),
];

// Sessions of several roles that share plans: three look-ups of alice's text find one, and one of bob's.
static SHARED: [Row; 19] = [
    ("login alice", "session 0\n"),
    ("login bob", "session 1\n"),
    ("login zed", "refused 42704\n"),
    ("login alice", "session 2\n"),
    ("ask 0 SELECT id FROM deal", "id\n1\n2\n5\n"),
    ("ask 2 SELECT id FROM deal", "id\n1\n2\n5\n"),
    ("ask 1 SELECT id FROM deal", "id\n3\n4\n"),
    ("declare 1 c SELECT id FROM deal", "ok\n"),
    ("prepare 2 p SELECT id FROM deal", "ok\n"),
    ("execute 2 p", "id\n1\n2\n5\n"),
    ("fetch 1 c 1", "id\n3\n"),
    ("login root", "session 3\n"),
    ("setrole 3 alice", "ok\n"),
    ("ask 3 SELECT id FROM deal", "id\n1\n2\n5\n"),
    ("resetrole 3", "ok\n"),
    (
        "change 3 CREATE POLICY near ON deal AS RESTRICTIVE USING (region = 1)",
        "ok\n",
    ),
    ("execute 2 p", "id\n1\n"),
    ("fetch 1 c 9", "id\n4\n"),
    (
        "ask 0 SELECT d.id, r.name FROM deal d, region r WHERE d.region = r.id",
        "id,name\n1,north\n",
    ),
];

fn revoked() -> &'static [Row] {
    &REVOKED
}

fn shared() -> &'static [Row] {
    &SHARED
}

// The event of a line, read once more where memory for it was refused.
fn event_of<A: Heap>(rt: &impl Abort, alloc: A, line: &str) -> Event<A> {
    let read = match read_line(alloc, line) {
        Ok(read) => Ok(read),
        Err(_) => read_line(alloc, line),
    };
    match read {
        Ok(Some(ScriptLine::Event { event })) => event,
        _ => panic!(rt; "{line}"),
    }
}

// Takes an event. True where memory ran out; else the reply is the wanted one, or memory for its text was refused.
fn is_refused<A: Heap>(rt: &impl Abort, alloc: A, core: &mut Core<A>, row: &Row) -> bool {
    let (line, want) = row;
    let Ok(text) = reply_text(alloc, core.step(event_of(rt, alloc, line))) else {
        return false;
    };
    let text = text.as_slice();
    if text == b"refused 53200\n".as_slice() {
        return true;
    }
    assert_eq!(rt; text, want.as_bytes(), "{line}");
    false
}

// Takes all events in turn, each that was refused once more: it is then taken as if for the first time. True where memory ran out.
fn take_all<A: Heap>(rt: &impl Abort, alloc: A, core: &mut Core<A>, rows: &[Row]) -> bool {
    let mut was_refused = false;
    for row in rows {
        if is_refused(rt, alloc, core, row) {
            assert!(rt;
                !was_refused && !is_refused(rt, alloc, core, row),
                "{}",
                row.0
            );
            was_refused = true;
        }
    }
    was_refused
}

// No session over the store of sales.
fn sales_core<A: Heap>(rt: &impl Abort, alloc: A) -> Box<Core<A>, A> {
    let store = sales(alloc).expect(rt, "no store");
    match Core::new(alloc, Box::into_inner(store)) {
        Ok(core) => boxed(alloc, core).expect(rt, "no sessions"),
        Err(_) => panic!(rt; "no sessions"),
    }
}

// Events, and how many look-ups find a plan.
#[derive(Clone, Copy)]
struct Script {
    rows: &'static [Row],
    hits: u64,
}

impl Run for Script {
    fn ended(&self, rt: &(impl Abort + AllocGlobal), heap: &Metered<Global>, nth: u64) -> Ended {
        let mut core = sales_core(rt, heap);
        let is_refused = take_all(rt, heap, &mut core, self.rows);
        // A refused event may have made its look-up, or kept its plan.
        let most = if is_refused {
            self.hits.saturating_add(1)
        } else {
            self.hits
        };
        let hits = core.hits();
        assert!(rt; self.hits <= hits && hits <= most, "{hits} at {nth}");
        ended_here(rt, heap, nth, is_refused, "events")
    }
}

// The number of requests of the store and the sessions.
fn requests_of_core(rt: &(impl Abort + AllocGlobal)) -> u64 {
    let counting = Metered::counting(rt.alloc());
    drop(sales_core(rt, &counting));
    counting.requests(0)
}

fn refuse(rt: &(impl Abort + AllocGlobal), script: Script) {
    let first = requests_of_core(rt);
    let refused = refuse_in_turn(rt, &script, first, "events");
    assert!(rt; refused > 50, "{refused}");
}

// Sessions that are made.
#[derive(Clone, Copy)]
struct Start;

// True where memory ran out: then the store is given back, and sessions are made over it.
fn is_start_refused<A: Heap>(rt: &impl Abort, alloc: A) -> bool {
    let store = sales(alloc).expect(rt, "no store");
    let (core, is_refused) = match Core::new(alloc, Box::into_inner(store)) {
        Ok(core) => (Ok(core), false),
        Err(failed) => (Core::new(alloc, failed.value), true),
    };
    let Ok(mut core) = core else {
        panic!(rt; "no sessions");
    };
    if is_refused {
        assert!(rt; !take_all(rt, alloc, &mut core, revoked()));
    }
    is_refused
}

impl Run for Start {
    fn ended(&self, rt: &(impl Abort + AllocGlobal), heap: &Metered<Global>, nth: u64) -> Ended {
        let is_refused = is_start_refused(rt, heap);
        ended_here(rt, heap, nth, is_refused, "start")
    }
}

#[test]
fn refused_sessions_give_the_store_back(rt: HostRuntime) {
    let first = requests_of_sales(&rt);
    let refused = refuse_in_turn(&rt, &Start, first, "start");
    assert!(&rt; refused > 0);
}

#[test]
fn refused_events_change_nothing(rt: HostRuntime) {
    refuse(
        &rt,
        Script {
            rows: revoked(),
            hits: 0,
        },
    );
}

#[test]
fn refused_events_of_shared_plans_change_nothing(rt: HostRuntime) {
    refuse(
        &rt,
        Script {
            rows: shared(),
            hits: 4,
        },
    );
}
