//! Texts that are drawn from a seed, most of them with left joins: what explains each is accepted by the audit.

use fixture_plans::Random;
use fixtures::{FixtureError, SALES, SALES_REGIONS, audited, explained, load, sales, store_of};
use memory::Failure;
use std::alloc::{AllocError, AllocGlobal, Global};
use std::process::Abort;
use std::test::Fail;
use store::Store;

// The alias of an entry.
fn alias(entry: usize) -> &'static str {
    match entry {
        0 => "a",
        1 => "b",
        2 => "c",
        3 => "d",
        _ => "e",
    }
}

// That of one of the entries from one to another.
fn drawn_alias(random: &mut Random, first: usize, last: usize) -> &'static str {
    let count = last.wrapping_sub(first).wrapping_add(1);
    let i = random.below(count as u64) as usize;
    alias(first.wrapping_add(i))
}

// Adds a condition on columns of the entries from one to another; some are true on no null row.
fn push_condition(
    text: &mut String,
    random: &mut Random,
    first: usize,
    last: usize,
) -> Result<(), AllocError> {
    let (one, other) = (
        drawn_alias(random, first, last),
        drawn_alias(random, first, last),
    );
    let last = alias(last);
    let number = random.below(4);
    match random.below(11) {
        0 | 1 => write!(text, "{one}.id = {last}.id"),
        2 => write!(text, "{last}.id = {number}"),
        3 => write!(text, "{one}.id < {last}.id"),
        4 => write!(text, "{one}.id IS NULL"),
        5 => write!(text, "{one}.id IS NOT NULL"),
        6 => write!(text, "{one}.id IN ({number}, 2)"),
        7 => write!(text, "NOT ({one}.id <> {other}.id OR {last}.id > {number})"),
        8 => write!(text, "({one}.id = {number} OR {last}.id = 1)"),
        9 => write!(text, "{one}.id NOT IN ({number}, 7)"),
        _ => write!(text, "{number} = 1"),
    }
}

// Adds up to three conditions.
fn push_conditions(
    text: &mut String,
    random: &mut Random,
    first: usize,
    last: usize,
) -> Result<(), AllocError> {
    push_condition(text, random, first, last)?;
    for _ in 0..random.below(3) {
        text.push_str(" AND ")?;
        push_condition(text, random, first, last)?;
    }
    Ok(())
}

// Adds an entry, its table and its alias; `deal` and `region` take turns.
fn push_entry(text: &mut String, entry: usize) -> Result<(), AllocError> {
    let table = if entry & 1 == 0 { "deal" } else { "region" };
    write!(text, "{table} {}", alias(entry))
}

// Adds left joined entries, up to so many in all; their ONs reach the last of the others.
fn push_left_joins(
    text: &mut String,
    random: &mut Random,
    inner: usize,
    count: usize,
) -> Result<(), AllocError> {
    for entry in inner..count {
        text.push_str(" LEFT JOIN ")?;
        push_entry(text, entry)?;
        text.push_str(" ON ")?;
        push_conditions(text, random, inner.wrapping_sub(1), entry)?;
    }
    Ok(())
}

// A text of one or two entries and up to three left joins, and their number.
fn drawn(alloc: Global, random: &mut Random) -> Result<(String, usize), AllocError> {
    let inner = if random.once_in(2) { 1usize } else { 2 };
    let lefts = random.below(4) as usize;
    let count = inner.wrapping_add(lefts);
    let mut text = String::new(alloc);
    text.push_str("SELECT a.id FROM ")?;
    push_entry(&mut text, 0)?;
    if inner == 2 {
        text.push_str(", ")?;
        push_entry(&mut text, 1)?;
    }
    push_left_joins(&mut text, random, inner, count)?;
    if !random.once_in(8) {
        text.push_str(" WHERE ")?;
        push_conditions(&mut text, random, 0, count.wrapping_sub(1))?;
    }
    Ok((text, lefts))
}

// How many entries of a plan are left joined: each has a line with its ON.
fn left_lines(plan: &[u8]) -> usize {
    let text = std::str::from_utf8(plan).unwrap_or("no UTF-8");
    let mut count = 0usize;
    for line in text.lines() {
        if line.starts_with("on ") {
            count = count.wrapping_add(1);
        }
    }
    count
}

// The audit of a plan accepts it.
fn is_accepted(
    rt: &(impl Abort + AllocGlobal),
    store: &Store<Global>,
    role: &str,
    text: &str,
    plan: &[u8],
) -> Result<(), AllocError> {
    let (verdict, line) = audited(rt.alloc(), store, role, text, plan);
    let line = std::str::from_utf8(line.inner.as_slice()).unwrap_or("no UTF-8");
    assert_eq!(rt; verdict, 0, "{text}");
    assert_eq!(rt; line, "accepted\n", "{text}");
    Ok(())
}

// Explains a text and audits what explains it; true where an entry that is left joined in the text is inner in the plan.
fn explain(
    rt: &(impl Abort + AllocGlobal),
    store: &Store<Global>,
    role: &str,
    text: &str,
    lefts: usize,
) -> Result<bool, AllocError> {
    let (status, out) = explained(rt.alloc(), store, role, text);
    assert_eq!(rt; status, 0, "{text}");
    is_accepted(rt, store, role, text, out.inner.as_slice())?;
    let still = left_lines(out.inner.as_slice());
    assert!(rt; still <= lefts, "{text}");
    Ok(still < lefts)
}

// Of so many drawn texts, how many have an entry that becomes inner.
fn explain_all(
    rt: &(impl Abort + AllocGlobal),
    store: &Store<Global>,
    role: &str,
    count: usize,
    seed: u64,
) -> Result<usize, AllocError> {
    let mut random = Random::new(seed);
    let mut turned = 0usize;
    for _ in 0..count {
        let (text, lefts) = drawn(rt.alloc(), &mut random)?;
        if explain(rt, store, role, text.as_str(), lefts)? {
            turned = turned.wrapping_add(1);
        }
    }
    Ok(turned)
}

#[test]
fn what_explains_is_accepted(rt: HostRuntime) -> Result<(), Fail> {
    let store = sales(rt.alloc())?;
    let turned = explain_all(&rt, &store, "audit", 400, 1979)?;
    assert!(&rt; turned >= 50, "{turned}");
    let turned = explain_all(&rt, &store, "alice", 100, 69)?;
    assert!(&rt; turned >= 10, "{turned}");
    Ok(())
}

// The store of sales with alice's deals alone.
fn sales_of_alice(alloc: Global) -> Result<Box<Store<Global>, Global>, Failure<FixtureError>> {
    let mut store = store_of(alloc, SALES)?;
    load(
        &mut store,
        "deal",
        "id,owner,region,amount,parts\n1,alice,1,100,4\n2,alice,2,50,0\n5,alice,\\N,100,5\n",
    )?;
    load(&mut store, "region", SALES_REGIONS)?;
    Ok(store)
}

// The lines of a plan before its trail.
fn before_trail(plan: &[u8]) -> &str {
    let text = std::str::from_utf8(plan).unwrap_or("no UTF-8");
    match text.split_once("\ntrail") {
        Some((lines, _)) => lines,
        None => text,
    }
}

// The plans are the same but for their trails.
fn are_alike(one: &[u8], other: &[u8]) -> bool {
    before_trail(one) == before_trail(other)
}

// The plan of a text of alice is that of a role that sees every row where hers are all there are; its trail has steps for her guards.
#[test]
fn plan_is_that_of_the_rows_that_the_role_sees(rt: HostRuntime) -> Result<(), Fail> {
    let store = sales(rt.alloc())?;
    let own = sales_of_alice(rt.alloc())?;
    let mut random = Random::new(2009);
    for _ in 0..200 {
        let (text, _) = drawn(rt.alloc(), &mut random)?;
        let (status, one) = explained(rt.alloc(), &store, "alice", text.as_str());
        let (same, two) = explained(rt.alloc(), &own, "audit", text.as_str());
        assert_eq!(&rt; status, 0, "{text}");
        assert_eq!(&rt; same, 0, "{text}");
        let alike = are_alike(one.inner.as_slice(), two.inner.as_slice());
        assert!(&rt; alike, "{text}");
    }
    Ok(())
}
