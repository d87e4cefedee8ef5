//! Plans that are kept by key: which look-ups find one, and which plan is dropped.

use shared_plans::{PlanKey, Plans};
use std::alloc::{AllocError, Global};
use std::process::Abort;
use std::test::Fail;

// A look-up: its key, and then the plan that it gives, by the number of the look-up that made it, and the hits so far.
#[derive(Clone, Copy, Debug)]
struct LookUp {
    text: &'static str,
    role: &'static str,
    changes: u64,
    loads: u64,
    plan: u64,
    hits: u64,
}

// The look-up of a role's text after so many changes and loads.
const fn wanted(
    text: &'static str,
    role: &'static str,
    numbers: (u64, u64),
    want: (u64, u64),
) -> LookUp {
    LookUp {
        text,
        role,
        changes: numbers.0,
        loads: numbers.1,
        plan: want.0,
        hits: want.1,
    }
}

// Each look-up has the number of its line, from 1.
fn look_ups() -> [LookUp; 9] {
    [
        wanted("SELECT id FROM deal", "alice", (0, 0), (1, 0)),
        wanted("SELECT id FROM deal", "bob", (0, 0), (2, 0)),
        wanted("SELECT id FROM deal", "alice", (0, 0), (1, 1)),
        wanted("SELECT id FROM deal", "bob", (0, 0), (2, 2)),
        wanted("SELECT id FROM deal", "alice", (1, 0), (5, 2)),
        wanted("SELECT id FROM deal", "alice", (0, 0), (1, 3)),
        wanted("SELECT id FROM deal", "alice", (0, 1), (7, 3)),
        wanted("select id FROM deal", "alice", (0, 0), (8, 3)),
        wanted("SELECT id FROM deal", "alice", (1, 0), (5, 4)),
    ]
}

// The plan that is kept for the key, or else that of this number, which then is.
fn asked(
    plans: &mut Plans<u64, Global>,
    key: PlanKey<Global>,
    number: u64,
) -> Result<u64, AllocError> {
    if plans.look_up(&key) {
        return Ok(plans.last_used().copied().unwrap_or(0));
    }
    plans.keep(key, number)?;
    Ok(number)
}

fn gives(
    rt: &(impl Abort + AllocGlobal),
    plans: &mut Plans<u64, Global>,
    look_up: LookUp,
    number: u64,
) -> Result<(), AllocError> {
    let key = PlanKey::new(
        rt.alloc(),
        look_up.text,
        look_up.role,
        look_up.changes,
        look_up.loads,
    )?;
    let plan = asked(plans, key, number)?;
    let hits = plans.hits();
    assert!(rt;
        plan == look_up.plan && hits == look_up.hits,
        "look-up {number}: plan {plan} and {hits} hits"
    );
    Ok(())
}

#[test]
fn plans_are_found_by_their_whole_key(rt: HostRuntime) -> Result<(), Fail> {
    let mut plans = Plans::new(rt.alloc())?;
    let look_ups = look_ups();
    for index in 0..look_ups.len() {
        gives(&rt, &mut plans, look_ups[index], index as u64 + 1)?;
    }
    Ok(())
}

// The plan of a text of that number, and the hits so far.
fn text_gives(
    rt: &(impl Abort + AllocGlobal),
    plans: &mut Plans<u64, Global>,
    text: u64,
    number: u64,
    want: (u64, u64),
) -> Result<(), AllocError> {
    let words = format!(in rt.alloc(); "SELECT id FROM deal WHERE id > {text}")?;
    let key = PlanKey::new(rt.alloc(), &words, "alice", 0, 0)?;
    let plan = asked(plans, key, number)?;
    let hits = plans.hits();
    assert!(rt;
        plan == want.0 && hits == want.1,
        "text {text}: plan {plan} and {hits} hits"
    );
    Ok(())
}

// Of 65 texts the least recently used one is dropped: the second, since the first was asked again; and then the third and the fourth,
// for those that were dropped.
#[test]
fn the_least_recently_used_of_65_plans_is_dropped(rt: HostRuntime) -> Result<(), Fail> {
    let mut plans = Plans::new(rt.alloc())?;
    for text in 0..64 {
        text_gives(&rt, &mut plans, text, text, (text, 0))?;
    }
    text_gives(&rt, &mut plans, 0, 100, (0, 1))?;
    text_gives(&rt, &mut plans, 64, 101, (101, 1))?;
    text_gives(&rt, &mut plans, 0, 102, (0, 2))?;
    text_gives(&rt, &mut plans, 1, 103, (103, 2))?;
    text_gives(&rt, &mut plans, 2, 104, (104, 2))?;
    text_gives(&rt, &mut plans, 64, 105, (101, 3))?;
    text_gives(&rt, &mut plans, 4, 106, (4, 4))?;
    text_gives(&rt, &mut plans, 3, 107, (107, 4))?;
    Ok(())
}
