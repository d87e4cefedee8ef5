//! Runs of scripts. A row is the line of an event, ` => `, and the text of the reply, with ` / ` for each LF but the last, or
//! `no event` where the line is none. A load takes the text that its path names.

use engine::Store;
use fixtures::{FixtureError, OPEN, SALES_DEALS, SALES_REGIONS, sales, store_of};
use memory::{Failure, Heap, boxed};
use session::{Core, Event, Reply};
use session_scripts::{ScriptLine, read_line, reply_text};
use std::alloc::{AllocError, Global};
use std::process::Abort;

// Two more deals, and deals with a wrong cell, with too few fields, and with a last row that was cut.
const MORE_DEALS: &str = "id,owner,region,amount,parts\n6,alice,1,10,1\n7,bob,1,10,1\n";

const WRONG_CELL: &str = "id,owner,region,amount,parts\n6,alice,1,1,1\n7,alice,x,1,1\n";

const FEW_FIELDS: &str = "id,owner,region,amount,parts\n6,alice,1\n";

const CUT_ROW: &str = "id,owner,region,amount,parts\n6,alice,1,1,1\n7,ali";

// Flags with a null where none may be, and with a truth value that is none.
const NO_NOTE: &str = "id,open,note\n1,t,x\n2,f,\\N\n";

const NO_TRUTH: &str = "id,open,note\n1,true,x\n";

// Regions: one more, none, and one whose number is none.
const ONE_REGION: &str = "id,name\n3,east\n";

const NO_REGION: &str = "id,name\n";

const WRONG_REGION: &str = "id,name\nx,y\n";

// Rows of a table with one column, and of the deals of two columns.
const NOTES: &str = "id\n2\n1\n";

const FOURTH_DEAL: &str = "id,owner\n4,alice\n";

// The text that a path names; an empty one for any other.
fn known_text(path: &str) -> &'static str {
    match path {
        "deals" => SALES_DEALS,
        "regions" => SALES_REGIONS,
        "more" => MORE_DEALS,
        "wrong_cell" => WRONG_CELL,
        "few_fields" => FEW_FIELDS,
        "cut_row" => CUT_ROW,
        "one_region" => ONE_REGION,
        "no_region" => NO_REGION,
        "wrong_region" => WRONG_REGION,
        "open" => OPEN,
        "no_note" => NO_NOTE,
        "no_truth" => NO_TRUTH,
        "notes" => NOTES,
        "fourth" => FOURTH_DEAL,
        _ => "",
    }
}

fn bytes_of<A: Heap>(alloc: A, path: &str) -> Result<Vec<u8, A>, AllocError> {
    let mut bytes = Vec::new(alloc);
    bytes.extend_from_slice(known_text(path).as_bytes())?;
    Ok(bytes)
}

/// The event of a line, or nothing where it is none.
pub fn event_of<A: Heap>(alloc: A, line: &str) -> Result<Option<Event<A>>, AllocError> {
    match read_line(alloc, line)? {
        Some(ScriptLine::Event { event }) => Ok(Some(event)),
        Some(ScriptLine::Load { table, path }) => {
            let bytes = bytes_of(alloc, path.as_str())?;
            Ok(Some(Event::Load { table, bytes }))
        }
        None => Ok(None),
    }
}

// A text in one line, with ` / ` for each LF but the last, which has to be there.
fn one_line<A: Heap>(alloc: A, text: &str) -> Result<String<A>, AllocError> {
    let mut line = String::new(alloc);
    for part in text.strip_suffix('\n').unwrap_or("no LF").split('\n') {
        if !line.is_empty() {
            line.push_str(" / ")?;
        }
        line.push_str(part)?;
    }
    Ok(line)
}

/// The text of a reply in one line.
pub fn shown<A: Heap>(alloc: A, reply: Reply<A>) -> Result<String<A>, AllocError> {
    let text = reply_text(alloc, reply)?;
    one_line(
        alloc,
        std::str::from_utf8(text.as_slice()).unwrap_or("no UTF-8\n"),
    )
}

/// The line of a row, and the wanted text.
pub fn parts_of(row: &str) -> (&str, &str) {
    row.split_once(" => ").unwrap_or((row, ""))
}

fn reply_to(alloc: Global, core: &mut Core<Global>, line: &str) -> Result<String, AllocError> {
    match event_of(alloc, line)? {
        Some(event) => shown(alloc, core.step(event)),
        None => String::from_str(alloc, "no event"),
    }
}

/// Takes the event of a row: the reply has the wanted text.
pub fn take(
    rt: &(impl Abort + AllocGlobal),
    core: &mut Core<Global>,
    row: &str,
) -> Result<(), AllocError> {
    let (line, want) = parts_of(row);
    let text = reply_to(rt.alloc(), core, line)?;
    assert_eq!(rt; text.as_str(), want, "{row}");
    Ok(())
}

/// Takes the events of all rows, one after the other.
pub fn take_all(
    rt: &(impl Abort + AllocGlobal),
    core: &mut Core<Global>,
    rows: &str,
) -> Result<(), AllocError> {
    assert!(rt; !rows.is_empty());
    for row in rows.lines() {
        take(rt, core, row)?;
    }
    Ok(())
}

/// No session over a store. It is boxed, since the whole drop of a store is part of the proof of each function that has one.
pub fn core_of<A: Heap>(alloc: A, store: Box<Store<A>, A>) -> Result<Box<Core<A>, A>, AllocError> {
    match Core::new(alloc, Box::into_inner(store)) {
        Ok(core) => boxed(alloc, core),
        Err(_) => Err(AllocError),
    }
}

/// No session over the store of sales.
pub fn sales_core<A: Heap>(alloc: A) -> Result<Box<Core<A>, A>, Failure<FixtureError>> {
    let store = sales(alloc)?;
    Ok(core_of(alloc, store)?)
}

/// Takes the events of all rows over the store of sales.
pub fn run(rt: &(impl Abort + AllocGlobal), rows: &str) -> Result<(), Failure<FixtureError>> {
    let mut core = sales_core(rt.alloc())?;
    Ok(take_all(rt, &mut core, rows)?)
}

/// Takes the events of all rows over the store of a schema.
pub fn run_over(
    rt: &(impl Abort + AllocGlobal),
    schema: &str,
    rows: &str,
) -> Result<(), Failure<FixtureError>> {
    let store = store_of(rt.alloc(), schema)?;
    let mut core = core_of(rt.alloc(), store)?;
    Ok(take_all(rt, &mut core, rows)?)
}
