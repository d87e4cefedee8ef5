//! Diagnostics of texts over the store of `sales`, by hand.

use diagnostics::codes_text;
use fixtures::{SALES, sales, store_of};
use output::Output;
use setup::{Arguments, SchemaError, explain_refusal, explain_schema};
use std::alloc::Global;
use std::process::Abort;
use store::Store;
use value::Refusal;

// A role, its text, and its diagnostics: none of an answer, nor of a fault.
static SAID: [(&str, &str, &str); 10] = [
    (
        "alice",
        "SELECT nosuch FROM deal",
        "42703: no column of this name is in reach here\nLINE 1: SELECT nosuch FROM deal\n               ^\n",
    ),
    (
        "alice",
        "SELECT id FROM deal WHERE",
        "42601: syntax error: the text cannot go on like this from here\nLINE 1: SELECT id FROM deal WHERE\n                                 ^\n",
    ),
    (
        "alice",
        "SELECT id FROM deal, region",
        "42702: several columns have this name\nLINE 1: SELECT id FROM deal, region\n               ^\n",
    ),
    (
        "alice",
        "SELECT id FROM deal ORDER BY 2",
        "42P10: the answer has no column of this number\nLINE 1: SELECT id FROM deal ORDER BY 2\n                                     ^\n",
    ),
    (
        "alice",
        "SELECT id\nFROM deal\n\tWHERE 'é' = nosuch\nLIMIT 1",
        "42703: no column of this name is in reach here\nLINE 3: \tWHERE 'é' = nosuch\n        \t            ^\n",
    ),
    (
        "lone",
        "SELECT count(*) FROM deal",
        "42501: the role needs SELECT on table deal or on a column of it, granted to it, to a role that it belongs to, or to PUBLIC\n",
    ),
    (
        "guest",
        "SELECT id, amount FROM deal",
        "42501: the role needs SELECT on column amount of table deal or on the table, granted to it, to a role that it belongs to, or to PUBLIC\n",
    ),
    (
        "zed",
        "SELECT id FROM deal",
        "42704: no role or policy has this name\n",
    ),
    ("alice", "SELECT id FROM deal", ""),
    ("alice", "SELECT amount / parts FROM deal", ""),
];

fn said() -> &'static [(&'static str, &'static str, &'static str)] {
    &SAID
}

fn is_said(rt: &(impl Abort + AllocGlobal), store: &Store<Global>) {
    for (role, text, lines) in said() {
        let arguments = Arguments {
            schema: "schema.sql",
            dir: "tables",
            role,
            text,
        };
        let mut out = Output {
            inner: Vec::new(rt.alloc()),
            failed: 0,
        };
        explain_refusal(rt.alloc(), store, &arguments, &mut out);
        assert_eq!(rt; out.inner.as_slice(), lines.as_bytes(), "{role}: {text}");
    }
}

#[test]
fn refused_and_denied_texts_are_explained(rt: HostRuntime) {
    match sales(rt.alloc()) {
        Ok(store) => is_said(&rt, &store),
        Err(_) => panic!(&rt; "no store"),
    }
}

#[test]
fn texts_are_explained_the_same_without_rows(rt: HostRuntime) {
    match store_of(rt.alloc(), SALES) {
        Ok(store) => is_said(&rt, &store),
        Err(_) => panic!(&rt; "no store"),
    }
}

fn is_said_of_schema(rt: &(impl Abort + AllocGlobal), text: &str, error: SchemaError, lines: &str) {
    let mut out = Output {
        inner: Vec::new(rt.alloc()),
        failed: 0,
    };
    explain_schema(rt.alloc(), text, error, &mut out);
    assert_eq!(rt; out.inner.as_slice(), lines.as_bytes(), "{text}");
}

#[test]
fn refused_schemas_are_explained(rt: HostRuntime) {
    let twice =
        "CREATE ROLE r;\n  CREATE TABLE t\n  (a text); CREATE TABLE t (a text);\nCREATE ROLE s;";
    let code = Refusal::DuplicateTable;
    is_said_of_schema(
        &rt,
        twice,
        SchemaError::Statement { number: 2, code },
        "42P07: a table has this name already\nLINE 2:   CREATE TABLE t\n          ^\n",
    );
    is_said_of_schema(
        &rt,
        twice,
        SchemaError::Statement { number: 3, code },
        "42P07: a table has this name already\nLINE 3:   (a text); CREATE TABLE t (a text);\n                    ^\n",
    );
    is_said_of_schema(
        &rt,
        "CREATE ROLE r;\nCREATE ROLL s;",
        SchemaError::Syntax { offset: 22 },
        "42601: syntax error: the text cannot go on like this from here\nLINE 2: CREATE ROLL s;\n               ^\n",
    );
    is_said_of_schema(
        &rt,
        "CREATE ROLE r;",
        SchemaError::Limit,
        "54000: the text is too long or too deeply nested, or the schema has too many objects\n",
    );
}

const CODES: &str = "0LP01: the grant would make a role belong to itself
22003: the number does not fit in a bigint
22012: division by zero
22P02: the text is no number or no truth value
42501: the role lacks the privilege or does not own the table
42601: syntax error: the text cannot go on like this from here
42701: the table has two columns of this name
42702: several columns have this name
42703: no column of this name is in reach here
42704: no role or policy has this name
42710: the role, the policy or the index is there already
42712: an earlier entry of FROM has this name; give one of them an alias
42803: an aggregate may not be here, or the column is not in GROUP BY and under no aggregate
42804: the value has the wrong type
42P01: no table, or no entry of FROM, has this name
42P07: a table has this name already
42P10: the answer has no column of this number
42P17: the condition of a policy may not be able to fail
53200: out of memory
54000: the text is too long or too deeply nested, or the schema has too many objects
";

#[test]
fn codes_are_listed_with_their_meaning(rt: HostRuntime) {
    match codes_text(rt.alloc()) {
        Ok(text) => assert_eq!(&rt; text.as_slice(), CODES.as_bytes()),
        Err(_) => panic!(&rt; "out of memory"),
    }
}
