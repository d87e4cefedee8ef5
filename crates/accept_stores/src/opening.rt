//! Stores from a schema text and the files of their tables, the lines of the errors that stop them, and the reply to
//! arguments.

use memory::{Failure, Heap, Text};
use metered::Metered;
use output::Output;
use setup::{Arguments, Folder, SetupError, open_store, reply, report};
use std::alloc::Global;
use std::process::Abort;
use store::Store;

/// The files of tables, by the tables' names.
#[derive(Clone, Copy)]
struct Files<'a> {
    files: &'a [(&'a str, &'a str)],
}

impl<'a, A: Heap> Folder<A> for Files<'a> {
    type File = &'a [u8];

    ghost path = { λ _ table. table };

    fn open(&self, alloc: A, table: &str) -> Result<&'a [u8], Failure<SetupError<A>>> {
        for (name, text) in self.files {
            if *name == table {
                return Ok(text.as_bytes());
            }
        }
        let path = Text::new(alloc, table)?;
        Err(Failure::Error(SetupError::Input { path }))
    }
}

const SCHEMA: &str =
    "CREATE ROLE alice; CREATE TABLE deal (id bigint NOT NULL, owner text, open boolean);
CREATE TABLE region (id bigint); GRANT SELECT ON deal TO alice;";

// The files of the tables, and the line and the status of a store that is not opened; an empty line for one that is.
type Opening = (&'static [(&'static str, &'static str)], &'static str, u8);

static SCHEMAS: [(&str, &str); 5] = [
    ("CREATE ROLE a", "schema refused 42601 at 13\n"),
    ("CREATE ROLE a; ?", "schema refused 42601 at 15\n"),
    (
        "CREATE ROLE a; CREATE ROLE a;",
        "schema statement 2 refused 42710\n",
    ),
    (
        "ALTER TABLE t OWNER TO root;",
        "schema statement 1 refused 42P01\n",
    ),
    (
        "CREATE TABLE t (a bigint); CREATE POLICY p ON t USING (1 / a = 1);",
        "schema statement 2 refused 42P17\n",
    ),
];

static ROWS: [Opening; 6] = [
    (
        &[("region", "no header"), ("deal", "")],
        "data deal header\n",
        6,
    ),
    (
        &[("region", "no header"), ("deal", "id,owner\n")],
        "data deal header\n",
        6,
    ),
    (
        &[
            ("region", "no header"),
            ("deal", "id,owner,open\n1,alice\n"),
        ],
        "data deal row 1\n",
        6,
    ),
    (
        &[
            ("region", "no header"),
            ("deal", "id,owner,open\n1,alice,t\nx,alice,t\n"),
        ],
        "data deal row 2 column id\n",
        6,
    ),
    (
        &[
            ("region", "no header"),
            ("deal", "id,owner,open\n1,alice,T\n"),
        ],
        "data deal row 1 column open\n",
        6,
    ),
    (
        &[
            ("region", "no header"),
            ("deal", "id,owner,open\n1,alice,t\n2,bob,f\n\\N,alice,t\n"),
        ],
        "data deal row 3 column id null\n",
        6,
    ),
];

static ORDER: [Opening; 4] = [
    (
        &[
            ("deal", "id,owner,open\n1,alice,t\n"),
            ("region", "id\n7\n"),
        ],
        "",
        0,
    ),
    (
        &[
            ("region", "id\nx\n"),
            ("deal", "id,owner,open\n1,alice,t\n"),
        ],
        "data region row 1 column id\n",
        6,
    ),
    (&[("region", "id\nx\n")], "input deal\n", 8),
    (
        &[("deal", "id,owner,open\n1,alice,t\n")],
        "input region\n",
        8,
    ),
];

fn schemas() -> &'static [(&'static str, &'static str)] {
    &SCHEMAS
}

fn rows() -> &'static [Opening] {
    &ROWS
}

fn order() -> &'static [Opening] {
    &ORDER
}

// The status and the line for a store that is not opened; no status for one that is.
fn stop_of<A: Heap>(
    alloc: A,
    schema: &str,
    files: &[(&str, &str)],
) -> (Option<u8>, Output<Vec<u8>>) {
    let mut out = Output {
        inner: Vec::new(alloc.global()),
        failed: 0,
    };
    let status = match open_store(alloc, schema, &Files { files }) {
        Ok(_) => None,
        Err(failure) => Some(report(alloc, &failure, &mut out)),
    };
    (status, out)
}

// The text that was written is the one wanted.
fn same_bytes(rt: &impl Abort, out: &Output<Vec<u8>>, text: &str, name: &str) {
    assert_eq!(rt; out.inner.as_slice(), text.as_bytes(), "{name}: {text}");
}

fn stopped(
    rt: &(impl Abort + AllocGlobal),
    name: &str,
    schema: &str,
    files: &[(&str, &str)],
    want: (&str, u8),
) {
    let (line, status) = want;
    let (got, out) = stop_of(rt.alloc(), schema, files);
    same_bytes(rt, &out, line, name);
    assert_eq!(rt; got.unwrap_or(0), status, "{name}: {line}");
}

fn by_schema(rt: &(impl Abort + AllocGlobal), name: &str) {
    for (schema, line) in schemas() {
        stopped(rt, name, schema, &[], (line, 6));
    }
}

fn by_files(rt: &(impl Abort + AllocGlobal), name: &str, openings: &[Opening]) {
    for (files, line, status) in openings {
        stopped(rt, name, SCHEMA, files, (line, *status));
    }
}

#[test]
fn refused_openings_are_reported_by_a_line(rt: HostRuntime) {
    by_schema(&rt, "lines_of_refused_schemas");
    by_files(&rt, "lines_of_refused_rows", rows());
    by_files(&rt, "tables_are_loaded_in_order_of_creation", order());
}

// A role, the reply to its query, and the status.
static ANSWERS: [(&str, &str, u8); 3] = [
    ("alice", "a\n4\n", 0),
    ("bob", "denied 42501 column a of table t\n", 4),
    ("carol", "refused 42704\n", 6),
];

fn answers() -> &'static [(&'static str, &'static str, u8)] {
    &ANSWERS
}

// The store of a table that alice may read, with one row.
fn asked_store(rt: &(impl Abort + AllocGlobal)) -> Store<Global> {
    let schema =
        "CREATE ROLE alice; CREATE ROLE bob; CREATE TABLE t (a bigint); GRANT SELECT ON t TO alice;";
    let files = [("t", "a\n4\n")];
    match open_store(rt.alloc(), schema, &Files { files: &files }) {
        Ok(store) => store,
        Err(_) => panic!(rt; "no store"),
    }
}

fn reply_to(rt: &(impl Abort + AllocGlobal), role: &str) -> (u8, Output<Vec<u8>>) {
    let store = asked_store(rt);
    let arguments = Arguments {
        schema: "schema.sql",
        dir: "tables",
        role,
        text: "SELECT a FROM t",
    };
    let mut out = Output {
        inner: Vec::new(rt.alloc()),
        failed: 0,
    };
    let status = reply(rt.alloc(), &store, &arguments, &mut out);
    (status, out)
}

fn asked(rt: &(impl Abort + AllocGlobal), role: &str, answer: &str, status: u8) {
    let (got, out) = reply_to(rt, role);
    same_bytes(rt, &out, answer, role);
    assert_eq!(rt; got, status, "{role}");
}

#[test]
fn arguments_ask_as_their_role(rt: HostRuntime) {
    for (role, answer, status) in answers() {
        asked(&rt, role, answer, *status);
    }
}

// The status of an opening whose nth request for memory is refused, true where there are fewer requests, and true where
// the line says that memory ran out.
fn opened_without(rt: &(impl Abort + AllocGlobal), nth: u64) -> (Option<u8>, bool, bool) {
    let files = [
        ("deal", "id,owner,open\n1,alice,t\n"),
        ("region", "id\n7\n"),
    ];
    let heap = Metered::refusing(rt.alloc(), nth);
    let (status, out) = stop_of(&heap, SCHEMA, &files);
    (
        status,
        heap.requests(nth) < nth,
        out.inner.as_slice() == b"memory\n".as_slice(),
    )
}

// How an opening ends whose nth request for memory is refused.
#[derive(Clone, Copy, PartialEq, Eq)]
enum Opened {
    // There are fewer requests, and the store is opened.
    Whole,
    // The store is opened without that request.
    Without,
    // Out of memory, with its line.
    Refused,
}

fn opens_without(rt: &(impl Abort + AllocGlobal), nth: u64) -> Opened {
    let (status, none_refused, is_memory) = opened_without(rt, nth);
    match status {
        None => {
            if none_refused {
                Opened::Whole
            } else {
                Opened::Without
            }
        }
        Some(status) => {
            assert_eq!(rt; status, 7, "at {nth}");
            assert!(rt; is_memory && !none_refused, "at {nth}");
            Opened::Refused
        }
    }
}

fn opens_or_out_of_memory(rt: &(impl Abort + AllocGlobal)) {
    let mut refused = 0u64;
    let mut without = 0u64;
    for nth in 1..1000u64 {
        match opens_without(rt, nth) {
            Opened::Whole => break,
            Opened::Without => without = without.saturating_add(1),
            Opened::Refused => refused = refused.saturating_add(1),
        }
    }
    assert!(rt; refused > 20, "{refused}");
    assert!(rt; refused < 900, "{refused}");
    assert!(rt; without < 10, "{without}");
}

#[test]
fn refused_memory_of_openings_is_reported(rt: HostRuntime) {
    opens_or_out_of_memory(&rt);
}
