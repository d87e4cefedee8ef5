//! A program that embeds the engine; docs/LIBRARY.md goes through it.
#![tactic(auto)]

use engine::{ask, serve};
use memory::{Failure, Heap, Text};
use output::Output;
use replies::{Reply, reply_status};
use setup::{Folder, SetupError, open_store, report};
use std::alloc::Global;
use std::io::{Write, writer};
use std::process::ExitCode;
use store::Store;

// The members of sales may read the deals, and each sees the own alone.
const SCHEMA: &str = "CREATE ROLE sales; CREATE ROLE alice; CREATE ROLE bob; GRANT sales TO alice;
GRANT sales TO bob; CREATE TABLE deal (id bigint, owner text, region bigint);
ALTER TABLE deal ENABLE ROW LEVEL SECURITY; GRANT SELECT ON deal TO sales;
CREATE POLICY own ON deal TO sales USING (owner = CURRENT_USER);
CREATE TABLE region (id bigint, name text); GRANT SELECT ON region TO PUBLIC;";

const QUERY: &str = "SELECT d.id, r.name FROM deal d JOIN region r ON d.region = r.id";

/// The texts of the tables, in memory. A reader of any kind may replace them.
struct Tables;

impl<A: Heap> Folder<A> for Tables {
    type File = &'static [u8];

    ghost path = { λ _ table. table };

    // The text of a table of the schema, or an error with its name.
    fn open(&self, alloc: A, table: &str) -> Result<&'static [u8], Failure<SetupError<A>>> {
        match table {
            "deal" => Ok("id,owner,region\n1,alice,1\n2,alice,2\n3,bob,1\n4,bob,\\N\n".as_bytes()),
            "region" => Ok("id,name\n1,north\n2,south\n".as_bytes()),
            _ => Err(Failure::Error(SetupError::Input {
                path: Text::new(alloc, table)?,
            })),
        }
    }
}

// A writer with the number of its writes that failed.
fn output<W: Write>(inner: W) -> Output<W> {
    Output { inner, failed: 0 }
}

// The program goes on after each reply but for 7, out of memory, and 8, a writer that failed.
fn replied(status: u8) -> Result<(), u8> {
    match status {
        7 | 8 => Err(status),
        _ => Ok(()),
    }
}

// Prints the reply to a role, once it is whole. No byte depends on a row that the role does not see.
fn print_reply(rt: &HostRuntime, store: &Store<Global>, role: &str) -> Result<(), u8> {
    replied(serve(rt.alloc(), store, role, QUERY, &mut output(writer(rt))))
}

// Adds rows to the deals: all of them, or none.
fn add_deals(rt: &HostRuntime, store: &mut Store<Global>) -> Result<(), u8> {
    match store.load("deal", "id,owner,region\n5,bob,2\n".as_bytes()) {
        Ok(()) => Ok(()),
        Err(Failure::OutOfMemory) => Err(7),
        Err(Failure::Error(error)) => match eprintln!(rt; "deal: {error}") {
            Ok(()) => Err(6),
            Err(_) => Err(8),
        },
    }
}

// Prints the kind of a reply; `replies::reply_text` is the text that `serve` writes of it.
fn print_kind(rt: &HostRuntime, reply: &Reply<Global>) -> Result<(), u8> {
    let printed = match reply {
        Reply::Rows { rows, .. } => println!(rt; "{} rows", rows.len()),
        Reply::Denied { table, .. } => println!(rt; "SELECT is missing on {}", table.as_str()),
        Reply::Refused { code, .. } => println!(rt; "refused: {code}"),
        Reply::Faulted { fault } => println!(rt; "a fault at byte {}", fault.offset),
    };
    printed.map_err(|_| 8)?;
    replied(reply_status(reply))
}

// Asks as both roles, adds deals, and asks again.
fn converse(rt: &HostRuntime, store: &mut Store<Global>) -> Result<(), u8> {
    print_reply(rt, store, "alice")?;
    print_reply(rt, store, "bob")?;
    add_deals(rt, store)?;
    print_kind(rt, &ask(rt.alloc(), store, "bob", QUERY))
}

// A refused schema or refused rows end the program, with their line on standard error and its status.
fn main(rt: HostRuntime) -> ExitCode {
    match open_store(rt.alloc(), SCHEMA, &Tables) {
        Ok(mut store) => ExitCode::from(converse(&rt, &mut store).err().unwrap_or(0)),
        Err(failure) => ExitCode::from(report(rt.alloc(), &failure, &mut output(rt.stderr()))),
    }
}
