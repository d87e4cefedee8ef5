//! Lists of events that are played: their replies are those of one step after the other.

use crate::changes::{EXECUTED, FETCHED, REVOKED};
use crate::refusals::{NAMES, NOT_OPEN};
use crate::roles::{APART, NUMBERS, SET};
use crate::scripts::{event_of, parts_of, sales_core, shown};
use crate::texts::{FETCHES, KEPT};
use fixtures::FixtureError;
use memory::{Failure, Heap};
use metered::Metered;
use session::{Core, Event, Reply};
use std::alloc::AllocError;
use std::process::Abort;
use std::test::Fail;

// The events of rows.
fn events_of<A: Heap>(
    rt: &impl Abort,
    alloc: A,
    rows: &str,
) -> Result<Vec<Event<A>, A>, AllocError> {
    let mut events = Vec::new(alloc);
    for row in rows.lines() {
        let (line, _) = parts_of(row);
        match event_of(alloc, line)? {
            Some(event) => events.push(event)?,
            None => panic!(rt; "{row}"),
        }
    }
    Ok(events)
}

// The replies have the wanted texts, and there is one for each row.
fn compare<A: Heap>(
    rt: &impl Abort,
    alloc: A,
    rows: &str,
    replies: Vec<Reply<A>, A>,
) -> Result<(), AllocError> {
    let mut rest = rows.lines();
    for reply in replies {
        let row = rest.next().unwrap_or("no row");
        let (_, want) = parts_of(row);
        let text = shown(alloc, reply)?;
        assert_eq!(rt; text.as_str(), want, "{row}");
    }
    assert!(rt; rest.next().is_none(), "{rows}");
    Ok(())
}

// Plays the first row, and then all others, whose replies come after its own.
fn play(rt: &(impl Abort + AllocGlobal), rows: &str) -> Result<(), Failure<FixtureError>> {
    let (first, others) = rows.split_once('\n').unwrap_or((rows, ""));
    let alloc = rt.alloc();
    let mut core = sales_core(alloc)?;
    let mut replies = Vec::new(alloc);
    core.play(events_of(rt, alloc, first)?, &mut replies)?;
    assert_eq!(rt; replies.len(), 1, "{first}");
    core.play(events_of(rt, alloc, others)?, &mut replies)?;
    Ok(compare(rt, alloc, rows, replies)?)
}

// The number of requests of the store of sales and of the events of rows.
fn requests_before(
    rt: &(impl Abort + AllocGlobal),
    rows: &str,
) -> Result<u64, Failure<FixtureError>> {
    let counting = Metered::counting(rt.alloc());
    drop(sales_core(&counting)?);
    drop(events_of(rt, &counting, rows)?);
    Ok(counting.requests(0))
}

// Plays events where there is no memory for the replies: none is taken, and all are given back. They are then played.
fn play_given_back<A: Heap>(
    rt: &impl Abort,
    alloc: A,
    core: &mut Core<A>,
    rows: &str,
) -> Result<(), AllocError> {
    let events = events_of(rt, alloc, rows)?;
    let count = events.len();
    let mut replies = Vec::new(alloc);
    match core.play(events, &mut replies) {
        Ok(()) => panic!(rt; "{rows}"),
        Err(failed) => {
            assert_eq!(rt; failed.value.len(), count, "{rows}");
            assert!(rt; replies.is_empty(), "{rows}");
            core.play(failed.value, &mut replies)?;
        }
    }
    compare(rt, alloc, rows, replies)
}

#[test]
fn plays_give_the_replies_of_steps(rt: HostRuntime) -> Result<(), Fail> {
    play(&rt, SET)?;
    play(&rt, APART)?;
    play(&rt, NUMBERS)?;
    play(&rt, EXECUTED)?;
    play(&rt, REVOKED)?;
    play(&rt, FETCHED)?;
    play(&rt, KEPT)?;
    play(&rt, FETCHES)?;
    play(&rt, NOT_OPEN)?;
    Ok(play(&rt, NAMES)?)
}

#[test]
fn plays_without_room_give_the_events_back(rt: HostRuntime) -> Result<(), Fail> {
    let before = requests_before(&rt, NUMBERS)?;
    let heap = Metered::refusing(rt.alloc(), before.saturating_add(1));
    let mut core = sales_core(&heap)?;
    Ok(play_given_back(&rt, &heap, &mut core, NUMBERS)?)
}
