//! Writers that fail after some bytes, and writers that take few bytes a call.

use crate::rows::{expanded, fields, number};
use engine::{explain, serve, verify};
use fixtures::sales;
use memory::boxed;
use output::Output;
use session::Core;
use session_scripts::{ScriptLine, read_line, write_reply};
use setup::{Arguments, explain_refusal, report, store_of_schema};
use std::alloc::{AllocError, Global};
use std::io;
use std::io::{ErrorKind, Write};
use std::process::Abort;
use std::test::Fail;
use store::Store;

// A write past the room of a writer.
#[derive(Clone, Copy)]
enum Past {
    // It is interrupted.
    Interrupted,
    // It fails for another reason.
    Broken,
    // It takes nothing.
    Nothing,
}

// Takes at most `step` bytes a call, and `room` bytes in all.
#[derive(Drop)]
struct Narrow {
    held: Vec<u8>,
    room: usize,
    step: usize,
    past: Past,
}

impl Write for Narrow {
    fn write(&mut self, buf: &[u8]) -> io::Result<usize> {
        let n = buf.len().min(self.room).min(self.step);
        if n == 0 && !buf.is_empty() {
            return match self.past {
                Past::Interrupted => Err(io::Error::from(ErrorKind::Interrupted)),
                Past::Broken => Err(io::Error::from(ErrorKind::BrokenPipe)),
                Past::Nothing => Ok(0),
            };
        }
        self.held.extend_from_slice(&buf[..n])?;
        self.room -= n;
        Ok(n)
    }

    fn flush(&mut self) -> io::Result<()> {
        Ok(())
    }
}

// What is written, a role, a text, and the status and the whole text that is written; ` | ` between them, and `~` for an LF. It is the
// reply to a query, its plan, the audit of a plan, the reply to an event after a login of alice, the line of a schema that is refused, or
// the diagnostics of a query. A writer that fails is reported by the status, but for the last two.
const REPLIES: &str = "\
reply | alice | SELECT id, owner FROM deal | 0 id,owner~1,alice~2,alice~5,alice~
reply | alice | SELECT amount/parts FROM deal | 5 fault 22012 at 13~
reply | guest | SELECT id, amount FROM deal | 4 denied 42501 column amount of table deal~
reply | lone | SELECT count(*) FROM deal | 4 denied 42501 table deal~
reply | alice | SELECT id FROM | 3 refused 42601 at 14~
reply | zed | SELECT id FROM deal | 6 refused 42704~
";

const PLANS: &str = "\
plan | audit | SELECT id FROM deal | 0 cost 5~first deal full~trail~9 .~
plan | lone | SELECT id FROM deal | 4 denied 42501 column id of table deal~
audit cost 5~filter 1 (deal.id = 3)~first deal full~trail~9 0~ | audit | SELECT id FROM deal WHERE id = 3 | 0 accepted~
audit cost 5~filter 1 (deal.id = 3)~first deal full~trail~9 0~ | alice | SELECT id FROM deal WHERE id = 3 | 3 refused line 1 reason 4~
audit cost five~ | audit | SELECT id FROM deal WHERE id = 3 | 3 unreadable line 1~
";

const OTHERS: &str = "\
event | alice | ask 0 SELECT id FROM deal | 0 id~1~2~5~
event | alice | ask 0 SELECT nosuch FROM deal | 0 refused 42703 at 7~
event | alice | setrole 0 sales | 0 ok~
event | alice | login bob | 0 session 1~
event | alice | execute 7 p | 0 refused 08003~
schema | root | CREATE ROLE a; CREATE ROLE a; | 6 schema statement 2 refused 42710~
schema | root | CREATE ROLE a; ? | 6 schema refused 42601 at 15~
diagnostics | alice | SELECT nosuch FROM deal | 0 42703: no column of this name is in reach here~LINE 1: SELECT nosuch FROM deal~               ^~
";

// A row of these tables, its text and the wanted one with their LFs.
#[derive(Clone, Copy)]
struct Row<'r> {
    written: &'r str,
    role: &'r str,
    text: &'r str,
    status: u8,
    whole: &'r str,
}

// The status of an event whose reply is written: 0, or 8 where the writer fails.
fn event_status(
    rt: &(impl Abort + AllocGlobal),
    core: &mut Core<Global>,
    line: &str,
    out: &mut Output<Narrow>,
) -> u8 {
    let Ok(Some(ScriptLine::Event { event })) = read_line(rt.alloc(), line) else {
        panic!(rt; "{line}");
    };
    match write_reply(rt.alloc(), core.step(event), out) {
        Ok(()) => 0,
        Err(_) => 8,
    }
}

fn write_event(rt: &(impl Abort + AllocGlobal), line: &str, out: &mut Output<Narrow>) -> u8 {
    let store = sales(rt.alloc()).expect(rt, "no store");
    let Ok(core) = Core::new(rt.alloc(), Box::into_inner(store)) else {
        panic!(rt; "no sessions");
    };
    let mut core = boxed(rt.alloc(), core).expect(rt, "no sessions");
    let Ok(Some(ScriptLine::Event { event })) = read_line(rt.alloc(), "login alice") else {
        panic!(rt; "no login");
    };
    drop(core.step(event));
    event_status(rt, &mut core, line, out)
}

fn write_schema(rt: &(impl Abort + AllocGlobal), schema: &str, out: &mut Output<Narrow>) -> u8 {
    match store_of_schema(rt.alloc(), schema) {
        Ok(_) => panic!(rt; "{schema}"),
        Err(failure) => report(rt.alloc(), &failure, out),
    }
}

fn write_diagnostics(
    alloc: Global,
    store: &Store<Global>,
    row: &Row<'_>,
    out: &mut Output<Narrow>,
) -> u8 {
    let arguments = Arguments {
        schema: "schema.sql",
        dir: "tables",
        role: row.role,
        text: row.text,
    };
    explain_refusal(alloc, store, &arguments, out);
    0
}

fn write_audit(
    rt: &(impl Abort + AllocGlobal),
    store: &Store<Global>,
    row: &Row<'_>,
    out: &mut Output<Narrow>,
) -> u8 {
    let plan = row.written.strip_prefix("audit ").unwrap_or("");
    let plan = expanded(rt.alloc(), plan, 0).expect(rt, plan);
    verify(
        rt.alloc(),
        store.catalog(),
        row.role,
        row.text,
        plan.as_bytes(),
        out,
    )
}

// Writes a row, and gives the status.
fn write_row(
    rt: &(impl Abort + AllocGlobal),
    store: &Store<Global>,
    row: &Row<'_>,
    out: &mut Output<Narrow>,
) -> u8 {
    match row.written {
        "reply" => serve(rt.alloc(), store, row.role, row.text, out),
        "plan" => explain(rt.alloc(), store, row.role, row.text, out),
        "event" => write_event(rt, row.text, out),
        "schema" => write_schema(rt, row.text, out),
        "diagnostics" => write_diagnostics(rt.alloc(), store, row, out),
        _ => write_audit(rt, store, row, out),
    }
}

// The status where the writer fails.
fn failed_status(row: &Row<'_>) -> u8 {
    match row.written {
        "schema" | "diagnostics" => row.status,
        _ => 8,
    }
}

// A writer of so much room holds the beginning of the text, and the whole of it where there is room.
fn holds_beginning(
    rt: &(impl Abort + AllocGlobal),
    store: &Store<Global>,
    row: &Row<'_>,
    room: usize,
    step: usize,
    past: Past,
) {
    let text = row.text;
    let mut out = Output {
        inner: Narrow {
            held: Vec::new(rt.alloc()),
            room,
            step,
            past,
        },
        failed: 0,
    };
    let status = write_row(rt, store, row, &mut out);
    let whole = row.whole.as_bytes();
    let fails = room < whole.len();
    let want = if fails {
        failed_status(row)
    } else {
        row.status
    };
    assert_eq!(rt; status, want, "{text}: {room}");
    assert_eq!(rt; out.failed, u64::from(fails), "{text}: {room}");
    let beginning = whole.get(..room).unwrap_or(whole);
    assert_eq!(rt; out.inner.held.as_slice(), beginning, "{text}: {room}");
}

// Each room up to the whole text and one byte more, by one byte a call, by three, and by all at once.
fn fails_at_each(
    rt: &(impl Abort + AllocGlobal),
    store: &Store<Global>,
    row: &Row<'_>,
    past: Past,
) {
    for room in 0..row.whole.len().saturating_add(2) {
        holds_beginning(rt, store, row, room, 1, past);
        holds_beginning(rt, store, row, room, 3, past);
        holds_beginning(rt, store, row, room, 1000, past);
    }
}

fn fails(
    rt: &(impl Abort + AllocGlobal),
    store: &Store<Global>,
    line: &str,
) -> Result<(), AllocError> {
    let ([written, role, text], want) = fields(line);
    let (status, whole) = want.split_once(' ').unwrap_or(("9", want));
    let whole = expanded(rt.alloc(), whole, 0)?;
    let row = Row {
        written,
        role,
        text,
        status: number(rt, status),
        whole: whole.as_str(),
    };
    fails_at_each(rt, store, &row, Past::Interrupted);
    fails_at_each(rt, store, &row, Past::Broken);
    fails_at_each(rt, store, &row, Past::Nothing);
    Ok(())
}

fn fail_all(rt: &(impl Abort + AllocGlobal), rows: &str) -> Result<(), Fail> {
    let store = sales(rt.alloc())?;
    assert!(rt; !rows.is_empty());
    for line in rows.lines() {
        fails(rt, &store, line)?;
    }
    Ok(())
}

#[test]
fn failed_writers_have_the_beginning_of_replies(rt: HostRuntime) -> Result<(), Fail> {
    fail_all(&rt, REPLIES)
}

#[test]
fn failed_writers_have_the_beginning_of_plans_and_audits(rt: HostRuntime) -> Result<(), Fail> {
    fail_all(&rt, PLANS)
}

#[test]
fn failed_writers_have_the_beginning_of_events_and_errors(rt: HostRuntime) -> Result<(), Fail> {
    fail_all(&rt, OTHERS)
}
