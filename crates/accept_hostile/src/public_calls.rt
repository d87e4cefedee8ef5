//! The calls below the engine, of which each has bad input of its own: tokens, plans and their trails, and whole scripts.

use crate::malicious_plans::{NODES, PATHS, STEPS, query_of};
use crate::rows::{expanded, fields, number};
use engine::{Bound, admit, check, plain_code, read_query, read_trail, write_trail};
use fixtures::sales;
use memory::Failure;
use row_tokens::TokenError;
use session_scripts::read_script;
use std::alloc::{AllocError, Global};
use std::process::Abort;
use std::test::Fail;
use store::Store;
use syntax::tokens;
use trailcheck::{Reason, Verdict};

// A text, and its number of tokens or the offset of the first bad one.
const TEXTS: &str = "\
SELECT id FROM deal | 4
 | 0
1.5 | 3
'it''s' | 1
id -1 | 3
a$ | bad 1
-- | bad 0
'open | bad 0
'\\N' | bad 0
9223372036854775809 | bad 0
1a | bad 0
";

fn tokens_are(rt: &(impl Abort + AllocGlobal), row: &str) -> Result<(), AllocError> {
    let (text, want) = row.split_once(" | ").unwrap_or((row, ""));
    let mut found = String::new(rt.alloc());
    match tokens(rt.alloc(), text) {
        Ok(all) => write!(found, "{}", all.len())?,
        Err(Failure::Error(TokenError::Bad { offset })) => write!(found, "bad {offset}")?,
        Err(_) => write!(found, "neither")?,
    }
    assert_eq!(rt; found.as_str(), want, "{row}");
    Ok(())
}

#[test]
fn texts_are_tokens_or_have_a_bad_one(rt: HostRuntime) -> Result<(), Fail> {
    for row in TEXTS.lines() {
        tokens_are(&rt, row)?;
    }
    Ok(())
}

fn reason_number(reason: Reason) -> u8 {
    match reason {
        Reason::Limit => 1,
        Reason::NoNode => 2,
        Reason::Misfit => 3,
        Reason::Unmet => 4,
        Reason::Code => 5,
        Reason::End => 6,
    }
}

// The line of the audit of a plan, by its trail read and checked.
fn checked(
    alloc: Global,
    store: &Store<Global>,
    bound: &Bound<'_, Global>,
    plan: &[u8],
) -> Result<String, AllocError> {
    let mut line = String::new(alloc);
    let plan = match read_trail(alloc, bound.entries.as_slice(), plan) {
        Ok(plan) => plan,
        Err(Failure::Error(number)) => {
            write!(line, "unreadable line {number}")?;
            return Ok(line);
        }
        Err(Failure::OutOfMemory) => return Err(AllocError),
    };
    let code = plain_code(alloc, &plan.code)?;
    let trail = plan.trail.as_slice();
    match check(alloc, store.catalog(), "audit", bound, trail, &code)? {
        Verdict::Accepted => line.push_str("accepted")?,
        Verdict::Refused(at) => {
            let reason = reason_number(at.reason);
            write!(line, "refused line {} reason {reason}", at.line)?;
        }
    }
    Ok(line)
}

// The line of a plan; and one that is accepted is written as a text that is read again, and accepted.
fn is_checked(
    rt: &(impl Abort + AllocGlobal),
    store: &Store<Global>,
    row: &str,
) -> Result<(), AllocError> {
    let ([query, many, plan], want) = fields(row);
    let text = expanded(rt.alloc(), plan, number(rt, many))?;
    let Ok(query) = read_query(rt.alloc(), store.catalog(), "audit", query_of(query))? else {
        panic!(rt; "{row}");
    };
    let Ok(bound) = admit(rt.alloc(), store.catalog(), "audit", &query)? else {
        panic!(rt; "{row}");
    };
    let line = checked(rt.alloc(), store, &bound, text.as_bytes())?;
    assert_eq!(rt; line.as_str(), want, "{row}");
    let entries = bound.entries.as_slice();
    if let Ok(plan) = read_trail(rt.alloc(), entries, text.as_bytes()) {
        let written = write_trail(rt.alloc(), entries, &plan)?;
        assert_eq!(rt; written.as_slice(), text.as_bytes(), "{row}");
    }
    Ok(())
}

#[test]
fn trails_are_read_checked_and_written(rt: HostRuntime) -> Result<(), Fail> {
    let store = sales(rt.alloc())?;
    for rows in [PATHS, STEPS, NODES] {
        for row in rows.lines() {
            is_checked(&rt, &store, row)?;
        }
    }
    Ok(())
}

// A script, with ` | ` between it, its number of lines before the first that is none, and the number of that one, or `end`.
const SCRIPTS: &str = "\
login alice | 1 | 1 | end
 | 1 | 0 | end
login alice~ | 1 | 1 | end
login alice~~ | 1 | 1 | 2
~login alice | 1 | 0 | 1
login alice~logout 0~load deal a.csv~nothing~login bob~ | 1 | 3 | 4
{login alice~}logout x | 4096 | 4096 | 4097
ask 0 {x} | 1000000 | 1 | end
{ask} | 1000000 | 0 | 1
login alice\r~logout 0\r~ | 1 | 1 | 2
";

fn is_script(rt: &(impl Abort + AllocGlobal), row: &str) -> Result<(), AllocError> {
    let ([script, many, lines], unread) = fields(row);
    let text = expanded(rt.alloc(), script, number(rt, many))?;
    let script = read_script(rt.alloc(), text.as_str())?;
    assert_eq!(rt; script.lines.len(), number(rt, lines), "{row}");
    match script.unread {
        Some(found) => assert_eq!(rt; found, number(rt, unread), "{row}"),
        None => assert_eq!(rt; unread, "end", "{row}"),
    }
    Ok(())
}

#[test]
fn scripts_end_at_the_first_line_that_is_none(rt: HostRuntime) -> Result<(), Fail> {
    for row in SCRIPTS.lines() {
        is_script(&rt, row)?;
    }
    Ok(())
}
