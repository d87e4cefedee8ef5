//! Plans that sessions share: the replies with the number of hits after them, and the requests for memory of a hit. A row of these
//! tables is the hits after the event, ` | `, and a row of a script.

use crate::scripts::{sales_core, take};
use engine::ask;
use fixtures::{FixtureError, sales};
use memory::{Failure, Text};
use metered::Metered;
use session::{Core, Event};
use std::alloc::{AllocError, Global};
use std::process::Abort;
use std::test::Fail;

// Each role has plans of its own, and sets its role back to them.
const ROLES: &str = "\
0 | login alice => session 0
0 | login bob => session 1
0 | ask 0 SELECT id FROM deal => id / 1 / 2 / 5
0 | ask 1 SELECT id FROM deal => id / 3 / 4
1 | ask 0 SELECT id FROM deal => id / 1 / 2 / 5
2 | ask 1 SELECT id FROM deal => id / 3 / 4
2 | login root => session 2
2 | setrole 2 alice => ok
3 | ask 2 SELECT id FROM deal => id / 1 / 2 / 5
3 | resetrole 2 => ok
3 | ask 2 SELECT id FROM deal => id / 1 / 2 / 3 / 4 / 5
3 | setrole 2 bob => ok
4 | ask 2 SELECT id FROM deal => id / 3 / 4
4 | logout 0 => ok
4 | login alice => session 3
4 | ask 0 SELECT id FROM deal => refused 08003
5 | ask 3 SELECT id FROM deal => id / 1 / 2 / 5
";

// A text that is described has no plan.
const DESCRIBED: &str = "\
0 | login alice => session 0
0 | describe 0 SELECT id FROM deal => column,type / id,bigint
0 | ask 0 SELECT id FROM deal => id / 1 / 2 / 5
0 | describe 0 SELECT id FROM deal => column,type / id,bigint
1 | ask 0 SELECT id FROM deal => id / 1 / 2 / 5
";

// A refused statement leaves the plans, a load of a row takes them.
const KEPT: &str = "\
0 | login alice => session 0
0 | ask 0 SELECT id FROM deal => id / 1 / 2 / 5
1 | ask 0 SELECT id FROM deal => id / 1 / 2 / 5
1 | login bob => session 1
1 | ask 1 SELECT id FROM deal => id / 3 / 4
1 | change 0 CREATE ROLE x => refused 42501
2 | ask 0 SELECT id FROM deal => id / 1 / 2 / 5
2 | load region one_region => ok
2 | ask 0 SELECT id FROM deal => id / 1 / 2 / 5
";

// A policy that is dropped.
const DROPPED: &str = "\
0 | login alice => session 0
0 | login boss => session 1
0 | ask 0 SELECT id FROM deal => id / 1 / 2 / 5
0 | change 1 DROP POLICY own ON deal => ok
0 | ask 0 SELECT id FROM deal => id
1 | ask 0 SELECT id FROM deal => id
";

// A policy that takes rows.
const RESTRICTED: &str = "\
0 | login alice => session 0
0 | login boss => session 1
0 | ask 0 SELECT id FROM deal => id / 1 / 2 / 5
0 | change 1 CREATE POLICY near ON deal AS RESTRICTIVE USING (region = 1) => ok
0 | ask 0 SELECT id FROM deal => id / 1
1 | ask 0 SELECT id FROM deal => id / 1
";

// Row security that is forced on the owner.
const FORCED: &str = "\
0 | login boss => session 0
0 | ask 0 SELECT id FROM deal => id / 1 / 2 / 3 / 4 / 5
0 | change 0 ALTER TABLE deal FORCE ROW LEVEL SECURITY => ok
0 | ask 0 SELECT id FROM deal => id
";

// A membership that is revoked and granted again.
const MEMBERS: &str = "\
0 | login alice => session 0
0 | login root => session 1
0 | ask 0 SELECT id FROM deal => id / 1 / 2 / 5
0 | change 1 REVOKE sales FROM alice => ok
0 | ask 0 SELECT id FROM deal => denied 42501 column id of table deal
0 | change 1 GRANT sales TO alice => ok
0 | ask 0 SELECT id FROM deal => id / 1 / 2 / 5
1 | ask 0 SELECT id FROM deal => id / 1 / 2 / 5
";

// An index.
const INDEXED: &str = "\
0 | login audit => session 0
0 | login boss => session 1
0 | ask 0 SELECT id FROM deal WHERE id = 3 => id / 3
0 | change 1 CREATE INDEX di ON deal (id) => ok
0 | ask 0 SELECT id FROM deal WHERE id = 3 => id / 3
1 | ask 0 SELECT id FROM deal WHERE id = 3 => id / 3
";

// What is refused or denied has no plan.
const REFUSED: &str = "\
0 | login lone => session 0
0 | login boss => session 1
0 | ask 0 SELECT nosuch FROM deal => refused 42703 at 7
0 | ask 0 SELECT nosuch FROM deal => refused 42703 at 7
0 | ask 0 SELECT id FROM deal => denied 42501 column id of table deal
0 | ask 0 SELECT id FROM deal => denied 42501 column id of table deal
0 | change 1 GRANT SELECT ON deal TO lone => ok
0 | ask 0 SELECT id FROM deal => id
1 | ask 0 SELECT id FROM deal => id
1 | ask 5 SELECT id FROM deal => refused 08003
1 | execute 0 nop => refused 26000
2 | ask 0 SELECT id FROM deal => id
";

// Texts that are executed and cursors share the plans of texts that are asked.
const EXECUTED: &str = "\
0 | login alice => session 0
0 | prepare 0 p SELECT id FROM deal => ok
0 | execute 0 p => id / 1 / 2 / 5
1 | ask 0 SELECT id FROM deal => id / 1 / 2 / 5
2 | declare 0 c SELECT id FROM deal => ok
2 | declare 0 c SELECT id FROM deal => refused 42P03
2 | fetch 0 c 2 => id / 1 / 2
3 | execute 0 p => id / 1 / 2 / 5
3 | declare 0 d SELECT amount/parts FROM deal => fault 22012 at 13
4 | ask 0 SELECT amount/parts FROM deal => fault 22012 at 13
4 | close 0 d => refused 34000
";

// Texts are taken byte by byte.
const SPELLINGS: &str = "\
0 | login alice => session 0
0 | ask 0 SELECT id FROM deal => id / 1 / 2 / 5
0 | ask 0 select id from deal => id / 1 / 2 / 5
0 | ask 0 SELECT id FROM deal  => id / 1 / 2 / 5
1 | ask 0 SELECT id FROM deal => id / 1 / 2 / 5
1 | ask 0 SELECT id FROM deal WHERE 1 = 2 => id
2 | ask 0 SELECT id FROM deal WHERE 1 = 2 => id
";

// A load that is refused leaves the plans, one of no row takes them; a cursor keeps its rows.
const LOADED: &str = "\
0 | login alice => session 0
0 | ask 0 SELECT id FROM deal => id / 1 / 2 / 5
0 | load region wrong_region => data region row 1 column id
1 | ask 0 SELECT id FROM deal => id / 1 / 2 / 5
1 | load deal few_fields => data deal row 1
2 | ask 0 SELECT id FROM deal => id / 1 / 2 / 5
2 | load nosuch deals => refused 42P01
3 | ask 0 SELECT id FROM deal => id / 1 / 2 / 5
3 | load region no_region => ok
3 | declare 0 c SELECT id FROM deal => ok
3 | load deal more => ok
3 | fetch 0 c 9 => id / 1 / 2 / 5
3 | ask 0 SELECT id FROM deal => id / 1 / 2 / 5 / 6
4 | ask 0 SELECT id FROM deal => id / 1 / 2 / 5 / 6
";

// Statements that are refused, and one that changes nothing, which counts.
const STATEMENTS: &str = "\
0 | login alice => session 0
0 | login root => session 1
0 | ask 0 SELECT id FROM deal => id / 1 / 2 / 5
0 | change 0 CREATE ROLE x => refused 42501
1 | ask 0 SELECT id FROM deal => id / 1 / 2 / 5
1 | change 1 CREATE ROLE alice => refused 42710
2 | ask 0 SELECT id FROM deal => id / 1 / 2 / 5
2 | change 1 GRANT sales TO alice => ok
2 | ask 0 SELECT id FROM deal => id / 1 / 2 / 5
3 | ask 0 SELECT id FROM deal => id / 1 / 2 / 5
3 | change 1 CREATE ROL => refused 42601 at 7
4 | ask 0 SELECT id FROM deal => id / 1 / 2 / 5
";

// Which rows a role sees is the same for one text after another, and found out anew after a load, a change of a policy and another
// role; what is refused changes nothing.
const SEEN: &str = "\
0 | login alice => session 0
0 | login bob => session 1
0 | login boss => session 2
0 | login root => session 3
0 | ask 0 SELECT id FROM deal WHERE id > 0 => id / 1 / 2 / 5
0 | ask 0 SELECT id FROM deal WHERE region = 1 => id / 1
0 | ask 0 SELECT d.id FROM deal d, region r WHERE d.region = r.id AND r.id > 1 => id / 2
0 | ask 1 SELECT id FROM deal WHERE id > 1 => id / 3 / 4
0 | ask 0 SELECT id FROM deal WHERE owner = 'bob' => id
0 | setrole 3 bob => ok
0 | ask 3 SELECT id FROM deal WHERE id > 3 => id / 4
0 | setrole 3 alice => ok
0 | ask 3 SELECT id FROM deal WHERE id > 3 AND id < 9 => id / 5
0 | load deal few_fields => data deal row 1
0 | ask 0 SELECT id FROM deal WHERE id > 2 => id / 5
0 | load deal more => ok
0 | ask 0 SELECT id FROM deal WHERE id > 4 => id / 5 / 6
0 | ask 1 SELECT id FROM deal WHERE id > 4 => id / 7
0 | change 0 DROP POLICY own ON deal => refused 42501
0 | ask 0 SELECT id FROM deal WHERE id > 5 => id / 6
0 | change 2 CREATE POLICY near ON deal AS RESTRICTIVE USING (region = 1) => ok
0 | ask 0 SELECT id FROM deal WHERE id > 0 => id / 1 / 6
0 | change 2 CREATE INDEX di ON deal (id) => ok
0 | ask 0 SELECT id FROM deal WHERE id = 6 => id / 6
0 | ask 0 SELECT id FROM deal WHERE id = 7 => id
0 | ask 1 SELECT id FROM deal WHERE id = 7 => id / 7
";

// The number of hits is this one, as decimal digits.
fn compare_hits(
    rt: &(impl Abort + AllocGlobal),
    core: &Core<Global>,
    hits: &str,
    row: &str,
) -> Result<(), AllocError> {
    let found = format!(in rt.alloc(); "{}", core.hits())?;
    assert_eq!(rt; found.as_str(), hits, "{row}");
    Ok(())
}

// Takes the events of all rows over the store of sales.
fn run(rt: &(impl Abort + AllocGlobal), rows: &str) -> Result<(), Failure<FixtureError>> {
    let mut core = sales_core(rt.alloc())?;
    for row in rows.lines() {
        let (hits, event) = row.split_once(" | ").unwrap_or(("", row));
        take(rt, &mut core, event)?;
        compare_hits(rt, &core, hits, row)?;
    }
    Ok(())
}

#[test]
fn roles_and_texts_have_plans_of_their_own(rt: HostRuntime) -> Result<(), Fail> {
    run(&rt, ROLES)?;
    run(&rt, EXECUTED)?;
    run(&rt, SPELLINGS)?;
    run(&rt, DESCRIBED)?;
    Ok(run(&rt, REFUSED)?)
}

#[test]
fn accepted_statements_and_loads_take_the_plans(rt: HostRuntime) -> Result<(), Fail> {
    run(&rt, KEPT)?;
    run(&rt, DROPPED)?;
    run(&rt, RESTRICTED)?;
    run(&rt, FORCED)?;
    run(&rt, MEMBERS)?;
    run(&rt, INDEXED)?;
    run(&rt, LOADED)?;
    run(&rt, SEEN)?;
    Ok(run(&rt, STATEMENTS)?)
}

// Session 0 asks the text of a number; there are so many hits after it.
fn ask_numbered(
    rt: &(impl Abort + AllocGlobal),
    core: &mut Core<Global>,
    number: u64,
    hits: u64,
) -> Result<(), AllocError> {
    let text = format!(in rt.alloc(); "SELECT id FROM deal WHERE id > {number}")?;
    drop(core.step(Event::Ask {
        session: 0,
        text: Text::from(text),
    }));
    assert_eq!(rt; core.hits(), hits, "{number}");
    Ok(())
}

// A session of root over the store of sales, which asked the texts of all numbers below a bound.
fn asked_below(
    rt: &(impl Abort + AllocGlobal),
    bound: u64,
) -> Result<Box<Core<Global>>, Failure<FixtureError>> {
    let mut core = sales_core(rt.alloc())?;
    take(rt, &mut core, "login root => session 0")?;
    for number in 0..bound {
        ask_numbered(rt, &mut core, number, 0)?;
    }
    Ok(core)
}

// Each look-up of a text of this number, and the hits after it.
fn ask_all(
    rt: &(impl Abort + AllocGlobal),
    core: &mut Core<Global>,
    look_ups: &[(u64, u64)],
) -> Result<(), AllocError> {
    for (number, hits) in look_ups {
        ask_numbered(rt, core, *number, *hits)?;
    }
    Ok(())
}

#[test]
fn the_least_recently_used_of_65_plans_is_dropped(rt: HostRuntime) -> Result<(), Fail> {
    let mut core = asked_below(&rt, 65)?;
    ask_all(&rt, &mut core, [(0, 0), (64, 1)].as_slice())?;
    let mut core = asked_below(&rt, 64)?;
    let look_ups = [(0, 1), (64, 1), (0, 2), (1, 2), (2, 2), (64, 3)];
    ask_all(&rt, &mut core, look_ups.as_slice())?;
    // Keys of older numbers keep their places.
    let mut core = asked_below(&rt, 63)?;
    take(&rt, &mut core, "change 0 CREATE ROLE y => ok")?;
    let look_ups = [(0, 0), (1, 0), (0, 1), (1, 2)];
    Ok(ask_all(&rt, &mut core, look_ups.as_slice())?)
}

const JOIN: &str = "SELECT d.id, r.name FROM deal d, region r WHERE d.region = r.id";

// Session 0 asks the join; the number of requests for memory.
fn requests_of_step<'h>(
    rt: &impl Abort,
    heap: &'h Metered<Global>,
    core: &mut Core<&'h Metered<Global>>,
) -> Result<u64, AllocError> {
    let text = Text::new(heap, JOIN)?;
    let before = heap.requests(0);
    let reply = core.step(Event::Ask { session: 0, text });
    let requests = heap.requests(0).wrapping_sub(before);
    drop(reply);
    assert!(rt; requests > 0);
    Ok(requests)
}

// The number of requests for memory of the same text, planned by itself.
fn requests_of_ask(rt: &(impl Abort + AllocGlobal)) -> Result<u64, Failure<FixtureError>> {
    let heap = Metered::counting(rt.alloc());
    let store = sales(&heap)?;
    let before = heap.requests(0);
    let reply = ask(&heap, &store, "alice", JOIN);
    let requests = heap.requests(0).wrapping_sub(before);
    drop(reply);
    Ok(requests)
}

// With a plan that is kept nothing is planned: the second time a text takes fewer requests than `ask` of the engine.
#[test]
fn a_kept_plan_is_not_made_again(rt: HostRuntime) -> Result<(), Fail> {
    let alone = requests_of_ask(&rt)?;
    let heap = Metered::counting(rt.alloc());
    let mut core = sales_core(&heap)?;
    let role = Text::new(&heap, "alice")?;
    drop(core.step(Event::Login { role }));
    let first = requests_of_step(&rt, &heap, &mut core)?;
    let second = requests_of_step(&rt, &heap, &mut core)?;
    assert_eq!(&rt; core.hits(), 1);
    assert!(&rt; second < alone, "{second} of {alone}");
    assert!(&rt; second < first, "{second} of {first}");
    Ok(())
}
