//! Each request for memory of the steps of a script refused in turn.

use crate::scripts::{core_of, event_of, parts_of, shown};
use fixtures::{FixtureError, deals};
use memory::{Failure, Heap};
use metered::Metered;
use session::{Core, Event};
use std::process::Abort;

// Over the store of the deals: each row but those that set a role takes memory.
const SCRIPT: &str = "\
login boss => session 0
ask 0 SELECT id FROM deal => id / 1 / 2 / 3
prepare 0 p SELECT id, owner FROM deal WHERE id > 1 => ok
execute 0 p => id,owner / 2,alice / 3,bob
declare 0 c SELECT id FROM deal ORDER BY id DESC => ok
fetch 0 c 1 => id / 3
change 0 GRANT SELECT (id) ON deal TO lone => ok
change 0 CREATE POLICY some_deals ON deal TO lone USING (id = 2 OR id = 4) => ok
change 0 CREATE POLICY some_deals ON deal TO lone USING (id = 2) => refused 42710
load deal fourth => ok
execute 0 p => id,owner / 2,alice / 3,bob / 4,alice
fetch 0 c 9 => id / 2 / 1
change 0 CREATE TABLE note (id bigint, body text) => ok
ask 0 SELECT id, body FROM note => id,body
load deal nothing => data deal header
declare 0 d SELECT 1 / (id - 4) AS q FROM deal => fault 22012 at 9
declare 0 d SELECT count(*) FROM deal => ok
fetch 0 d 1 => count / 4
describe 0 SELECT id, max(owner) AS last FROM deal GROUP BY id => column,type / id,bigint / last,text
setrole 0 boss => ok
execute 0 p => id,owner / 2,alice / 3,bob / 4,alice
";

fn deals_core<A: Heap>(alloc: A) -> Result<Box<Core<A>, A>, Failure<FixtureError>> {
    let store = deals(alloc)?;
    Ok(core_of(alloc, store)?)
}

// The sessions over the store, which have to be made.
fn made<A: Heap>(rt: &impl Abort, alloc: A) -> Box<Core<A>, A> {
    match deals_core(alloc) {
        Ok(core) => core,
        Err(failure) => panic!(rt; "{failure:?}"),
    }
}

// The event of a line, which is made again where memory for it was refused.
fn made_event<A: Heap>(rt: &impl Abort, alloc: A, line: &str) -> Event<A> {
    let event = match event_of(alloc, line) {
        Ok(event) => Ok(event),
        Err(_) => event_of(alloc, line),
    };
    match event {
        Ok(Some(event)) => event,
        _ => panic!(rt; "{line}"),
    }
}

// True where the reply is the refusal of memory. Else it is the wanted one, or memory for its text was refused.
fn is_refused<A: Heap>(rt: &impl Abort, alloc: A, core: &mut Core<A>, row: &str) -> bool {
    let (line, want) = parts_of(row);
    let event = made_event(rt, alloc, line);
    let Ok(text) = shown(alloc, core.step(event)) else {
        return false;
    };
    if text.as_str() == "refused 53200" {
        return true;
    }
    assert_eq!(rt; text.as_str(), want, "{row}");
    false
}

// Takes a row. Where memory is refused the state is as it was: the same event is then taken as if for the first time.
fn is_refused_once<A: Heap>(rt: &impl Abort, alloc: A, core: &mut Core<A>, row: &str) -> bool {
    let was_refused = is_refused(rt, alloc, core, row);
    if was_refused {
        assert!(rt; !is_refused(rt, alloc, core, row), "{row}");
    }
    was_refused
}

// Takes all rows; the number of the one where memory was refused, from 1, or 0.
fn refused_row<A: Heap>(rt: &impl Abort, alloc: A, core: &mut Core<A>) -> u64 {
    let mut number = 0u64;
    let mut refused = 0u64;
    for row in SCRIPT.lines() {
        number = number.saturating_add(1);
        if is_refused_once(rt, alloc, core, row) {
            assert_eq!(rt; refused, 0, "{row}");
            refused = number;
        }
    }
    refused
}

// The outcome where one request for memory was refused: the number of the row, and whether there are fewer requests.
#[derive(Clone, Copy)]
struct Tried {
    row: u64,
    none_refused: bool,
}

// Takes all rows where the nth request after the store is refused.
fn tried_without(rt: &(impl Abort + AllocGlobal), built: u64, n: u64) -> Tried {
    let nth = built.saturating_add(n);
    let heap = Metered::refusing(rt.alloc(), nth);
    let mut core = made(rt, &heap);
    let row = refused_row(rt, &heap, &mut core);
    Tried {
        row,
        none_refused: heap.requests(nth) < nth,
    }
}

// The number of requests of the store.
fn requests_of_store(rt: &(impl Abort + AllocGlobal)) -> u64 {
    let counting = Metered::counting(rt.alloc());
    drop(made(rt, &counting));
    counting.requests(0)
}

// The number of rows that take memory.
fn rows_with_memory() -> u64 {
    let mut count = 0u64;
    for row in SCRIPT.lines() {
        if !row.starts_with("setrole") {
            count = count.saturating_add(1);
        }
    }
    count
}

#[test]
fn refused_memory_changes_nothing(rt: HostRuntime) {
    let built = requests_of_store(&rt);
    let mut last = 0u64;
    let mut rows = 0u64;
    for n in 1..10_000u64 {
        let tried = tried_without(&rt, built, n);
        if tried.none_refused {
            assert_eq!(&rt; tried.row, 0);
            break;
        }
        if tried.row > last {
            last = tried.row;
            rows = rows.saturating_add(1);
        }
    }
    // Each of them was refused some of the times, since memory ran out.
    assert_eq!(&rt; rows, rows_with_memory());
}
