//! As many sessions, prepared texts and cursors as may be, and one more; texts of the greatest length.

use crate::scripts::{sales_core, take, take_all};
use fixtures::FixtureError;
use memory::Failure;
use session::Core;
use std::alloc::{AllocError, Global};
use std::process::Abort;
use std::test::Fail;

// A row with a number in place of each `#`.
fn numbered(alloc: Global, row: &str, number: u64) -> Result<String, AllocError> {
    let digits = format!(in alloc; "{number}")?;
    let mut text = String::new(alloc);
    for (i, part) in row.split('#').enumerate() {
        if i > 0 {
            text.push_str(digits.as_str())?;
        }
        text.push_str(part)?;
    }
    Ok(text)
}

// Takes a row with each number below a bound.
fn take_numbered(
    rt: &(impl Abort + AllocGlobal),
    core: &mut Core<Global>,
    row: &str,
    bound: u64,
) -> Result<(), AllocError> {
    for number in 0..bound {
        let text = numbered(rt.alloc(), row, number)?;
        take(rt, core, text.as_str())?;
    }
    Ok(())
}

const SESSION: &str = "login alice => session #";

// After 256 sessions: one more has room only where one was closed, and a login that is refused uses no number.
const SESSIONS: &str = "\
login bob => refused 54000
login zed => refused 42704
ask 255 SELECT id FROM deal => id / 1 / 2 / 5
logout 3 => ok
login zed => refused 42704
login bob => session 256
login bob => refused 54000
ask 256 SELECT id FROM deal => id / 3 / 4
ask 0 SELECT id FROM deal => id / 1 / 2 / 5
ask 3 SELECT id FROM deal => refused 08003
logout 256 => ok
login alice => session 257
";

const PREPARED: &str = "prepare 0 p# SELECT id FROM region WHERE id = # => ok";

// After 64 prepared texts of a session: the name and the text of one more come before the limit, and other sessions have room.
const PREPARED_TEXTS: &str = "\
prepare 0 p64 SELECT id FROM deal => refused 54000
prepare 0 p63 SELECT id FROM deal => refused 42P05
prepare 0 p64 SELECT => refused 42601 at 6
execute 0 p0 => id
execute 0 p1 => id / 1
execute 0 p63 => id
execute 0 p64 => refused 26000
login bob => session 1
prepare 1 p64 SELECT id FROM deal => ok
execute 1 p64 => id / 3 / 4
logout 0 => ok
login alice => session 2
prepare 2 p64 SELECT id FROM deal => ok
";

const DECLARED: &str = "declare 0 c# SELECT id FROM deal => ok";

// After 16 cursors of a session: the limit comes before the text of one more, and one that is closed makes room.
const CURSORS: &str = "\
declare 0 c16 SELECT id FROM deal => refused 54000
declare 0 c16 SELECT => refused 54000
declare 0 c15 SELECT id FROM deal => refused 42P03
fetch 0 c15 9 => id / 1 / 2 / 5
fetch 0 c15 9 => id
declare 0 c16 SELECT id FROM deal => refused 54000
fetch 0 c16 1 => refused 34000
login bob => session 1
declare 1 c16 SELECT id FROM deal => ok
close 0 c3 => ok
declare 0 c16 SELECT id FROM deal => ok
declare 0 c3 SELECT id FROM deal => refused 54000
fetch 0 c16 1 => id / 1
fetch 0 c3 1 => refused 34000
fetch 1 c16 1 => id / 3
";

const TABLE: &str = "change 0 CREATE TABLE t# (id bigint) => ok";

// After 62 tables beside the two of sales.
const TABLES: &str = "\
change 0 CREATE TABLE t62 (id bigint) => refused 54000
change 0 CREATE TABLE t61 (id bigint) => refused 42P07
load t62 notes => refused 42P01
load t61 notes => ok
ask 0 SELECT id FROM t61 => id / 1 / 2
";

const POLICY: &str = "change 0 CREATE POLICY p# ON region USING (id = #) => ok";

// After 255 policies beside the one of sales: the name and the condition of one more come before the limit.
const POLICIES: &str = "\
change 0 CREATE POLICY p255 ON region USING (TRUE) => refused 54000
change 0 CREATE POLICY p254 ON region USING (TRUE) => refused 42710
change 0 CREATE POLICY p255 ON region USING (1 / id = 1) => refused 42P17
change 0 DROP POLICY p255 ON region => refused 42704
change 0 DROP POLICY own ON deal => ok
change 0 CREATE POLICY p255 ON region USING (TRUE) => ok
change 0 CREATE POLICY own ON deal USING (TRUE) => refused 54000
";

#[test]
fn sessions_are_limited(rt: HostRuntime) -> Result<(), Fail> {
    let mut core = sales_core(rt.alloc())?;
    take_numbered(&rt, &mut core, SESSION, 256)?;
    Ok(take_all(&rt, &mut core, SESSIONS)?)
}

// So many events are taken in a session of alice, and then these rows.
fn are_limited(
    rt: &(impl Abort + AllocGlobal),
    row: &str,
    count: u64,
    rows: &str,
) -> Result<(), Failure<FixtureError>> {
    let mut core = sales_core(rt.alloc())?;
    take(rt, &mut core, "login alice => session 0")?;
    take_numbered(rt, &mut core, row, count)?;
    Ok(take_all(rt, &mut core, rows)?)
}

#[test]
fn prepared_texts_and_cursors_are_limited(rt: HostRuntime) -> Result<(), Fail> {
    are_limited(&rt, PREPARED, 64, PREPARED_TEXTS)?;
    Ok(are_limited(&rt, DECLARED, 16, CURSORS)?)
}

#[test]
fn tables_and_policies_are_limited(rt: HostRuntime) -> Result<(), Fail> {
    let mut core = sales_core(rt.alloc())?;
    take(&rt, &mut core, "login root => session 0")?;
    take_numbered(&rt, &mut core, TABLE, 62)?;
    take_all(&rt, &mut core, TABLES)?;
    take_numbered(&rt, &mut core, POLICY, 255)?;
    Ok(take_all(&rt, &mut core, POLICIES)?)
}

// The line of an event up to its text, the text, and the reply to it with spaces after it, up to 65,536 bytes. With one more it
// is refused (54000).
static LONGEST: [(&str, &str, &str); 4] = [
    ("ask 0 ", "SELECT id FROM region", "id / 1 / 2 / \\N"),
    ("prepare 0 p ", "SELECT id FROM region", "ok"),
    ("declare 0 c ", "SELECT id FROM region", "ok"),
    ("change 0 ", "CREATE ROLE dan", "ok"),
];

fn longest() -> &'static [(&'static str, &'static str, &'static str)] {
    &LONGEST
}

// The row of an event whose text has spaces after it, up to so many bytes.
fn row_of_length(
    alloc: Global,
    row: (&str, &str, &str),
    length: usize,
) -> Result<String, AllocError> {
    let (head, text, want) = row;
    let mut line = String::from_str(alloc, head)?;
    line.push_str(text)?;
    for _ in text.len()..length {
        line.push(' ')?;
    }
    line.push_str(" => ")?;
    line.push_str(want)?;
    Ok(line)
}

#[test]
fn texts_are_limited(rt: HostRuntime) -> Result<(), Fail> {
    let mut core = sales_core(rt.alloc())?;
    take(&rt, &mut core, "login root => session 0")?;
    for (head, text, want) in longest() {
        let row = row_of_length(rt.alloc(), (head, text, "refused 54000"), 65_537)?;
        take(&rt, &mut core, row.as_str())?;
        let row = row_of_length(rt.alloc(), (head, text, want), 65_536)?;
        take(&rt, &mut core, row.as_str())?;
    }
    Ok(())
}
