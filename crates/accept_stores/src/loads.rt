//! Texts of rows for a store, and their first load error.

use crate::stores::made;
use csv_records::Records;
use engine::StoreError::Data;
use fixture_scripts::answered;
use fixtures::{DEALS, FLAGS, FixtureError, SCHEMA, deals, in_pieces, load, store_of};
use memory::Failure;
use std::alloc::Global;
use std::process::Abort;
use store::{Store, StoreError};
use tables::LoadError;

// Texts of rows that a fresh store refuses for a table, and the reply to root after each.
struct RefusedTexts {
    name: &'static str,
    schema: &'static str,
    // The rows that the deals have before.
    held: &'static str,
    table: &'static str,
    query: &'static str,
    shown: &'static str,
    texts: &'static [(&'static str, StoreError)],
}

static FAULTS: [RefusedTexts; 4] = [
    RefusedTexts {
        name: "first_fault_reported_and_nothing_added",
        schema: SCHEMA,
        held: DEALS,
        table: "deal",
        query: "SELECT id FROM deal",
        shown: "id\n1\n2\n3\n",
        texts: &[
            ("", Data(LoadError::Header)),
            ("id\n", Data(LoadError::Header)),
            ("owner,id\n", Data(LoadError::Header)),
            ("ID,owner\n", Data(LoadError::Header)),
            ("id,owner\n4\n", Data(LoadError::Reader { row: 1 })),
            (
                "id,owner\n4,bob\n5,bob,x\n",
                Data(LoadError::Reader { row: 2 }),
            ),
            (
                "id,owner\n-0,bob\n",
                Data(LoadError::Cell { row: 1, column: 0 }),
            ),
            (
                "id,owner\n4,bob\n007,bob\n",
                Data(LoadError::Cell { row: 2, column: 0 }),
            ),
            (
                "id,owner\n+1,bob\n",
                Data(LoadError::Cell { row: 1, column: 0 }),
            ),
            (
                "id,owner\n,bob\n",
                Data(LoadError::Cell { row: 1, column: 0 }),
            ),
            (
                "id,owner\n9223372036854775808,bob\n",
                Data(LoadError::Cell { row: 1, column: 0 }),
            ),
        ],
    },
    RefusedTexts {
        name: "unknown_table_refused",
        schema: SCHEMA,
        held: DEALS,
        table: "nosuch",
        query: "SELECT id FROM deal",
        shown: "id\n1\n2\n3\n",
        texts: &[(DEALS, StoreError::UndefinedTable)],
    },
    // A sixth row with no number for its region, and the rows cut in the third one.
    RefusedTexts {
        name: "row_and_column_of_the_first_fault",
        schema: FIVE_COLUMNS,
        held: "",
        table: "deal",
        query: "SELECT id FROM deal",
        shown: "id\n",
        texts: &[
            (
                "id,owner,region,amount,parts\n1,alice,1,100,4\n2,alice,2,50,0\n3,bob,1,70,7\n4,bob,2,\\N,0\n5,alice,\\N,100,5\n6,alice,x,1,1\n",
                Data(LoadError::Cell { row: 6, column: 2 }),
            ),
            (
                "id,owner,region,amount,parts\n1,alice,1,100,4\n2,alice,2,50,0\n3,bob,1",
                Data(LoadError::Reader { row: 3 }),
            ),
            (
                "id,owner,region,amount,parts\n1,alice,1,100,4\n2,alice,2,50,0\n3,bob,1,70,",
                Data(LoadError::Cell { row: 3, column: 4 }),
            ),
            ("", Data(LoadError::Header)),
        ],
    },
    RefusedTexts {
        name: "null_refused_where_it_may_not_be",
        schema: FLAGS,
        held: "",
        table: "flag",
        query: "SELECT id FROM flag",
        shown: "id\n",
        texts: &[
            (
                "id,open,note\n\\N,t,x\n",
                Data(LoadError::NotNull { row: 1, column: 0 }),
            ),
            (
                "id,open,note\n1,t,x\n2,f,\\N\n",
                Data(LoadError::NotNull { row: 2, column: 2 }),
            ),
            (
                "id,open,note\n1,t,x\n\\N,T,\\N\n",
                Data(LoadError::NotNull { row: 2, column: 0 }),
            ),
            (
                "id,open,note\n1,T,\\N\n",
                Data(LoadError::Cell { row: 1, column: 1 }),
            ),
            (
                "id,open,note\n1,true,x\n",
                Data(LoadError::Cell { row: 1, column: 1 }),
            ),
            (
                "id,open,note\n1,,x\n",
                Data(LoadError::Cell { row: 1, column: 1 }),
            ),
        ],
    },
];

const FIVE_COLUMNS: &str =
    "CREATE TABLE deal (id bigint, owner text, region bigint, amount bigint, parts bigint);";

fn faults() -> &'static [RefusedTexts] {
    &FAULTS
}

// The store before a refused text.
fn store_before(rt: &(impl Abort + AllocGlobal), faults: &RefusedTexts) -> Box<Store<Global>> {
    let mut store = made(rt, store_of(rt.alloc(), faults.schema));
    if !faults.held.is_empty() {
        let done = load(&mut store, "deal", faults.held);
        assert_eq!(rt; done, Ok(()), "{}", faults.name);
    }
    store
}

// The result of a text of rows, and the number of tables after it; the query is answered as before.
fn load_and_ask(
    rt: &(impl Abort + AllocGlobal),
    faults: &RefusedTexts,
    text: &str,
) -> (Result<(), Failure<FixtureError>>, usize) {
    let mut store = store_before(rt, faults);
    let found = load(&mut store, faults.table, text);
    let asked = (faults.name, "root", faults.query, faults.shown, 0);
    answered(rt.alloc(), &store, asked).expect(rt, faults.name);
    (found, store.table_count())
}

// A store that is refused a text of rows has its tables and rows as before.
fn refused(rt: &(impl Abort + AllocGlobal), faults: &RefusedTexts, text: &str, fault: StoreError) {
    let name = faults.name;
    let (found, tables) = load_and_ask(rt, faults, text);
    let want = Err(Failure::Error(FixtureError::Data(fault)));
    assert_eq!(rt; found, want, "{name}: {text}");
    assert_eq!(rt; tables, 1, "{name}: {text}");
}

fn all_refused(rt: &(impl Abort + AllocGlobal), faults: &RefusedTexts) {
    for (text, fault) in faults.texts {
        refused(rt, faults, text, *fault);
    }
}

#[test]
fn first_fault_of_rows_is_reported(rt: HostRuntime) {
    for rows in faults() {
        all_refused(&rt, rows);
    }
}

// A name, the schema of a store, a table of it, and a text of its rows.
type Accepted = (&'static str, &'static str, &'static str, &'static str);

static ACCEPTED: [Accepted; 3] = [
    (
        "null_quoted_or_not",
        "CREATE TABLE t (a bigint, b text);",
        "t",
        "a,b\n\\N,\"\\N\"\n\"\\N\",\\N\n",
    ),
    (
        "cut_at_a_line_is_a_shorter_table",
        FIVE_COLUMNS,
        "deal",
        "id,owner,region,amount,parts\n1,alice,1,100,4\n2,alice,2,50,0\n3,bob,1,70,7\n",
    ),
    (
        "cut_at_a_line_is_a_shorter_table",
        FIVE_COLUMNS,
        "deal",
        "id,owner,region,amount,parts\n1,alice,1,100,4\n",
    ),
];

fn accepted() -> &'static [Accepted] {
    &ACCEPTED
}

// The result of rows of a table of a new store.
fn loaded(
    rt: &(impl Abort + AllocGlobal),
    schema: &str,
    table: &str,
    text: &str,
) -> Result<(), Failure<FixtureError>> {
    let mut store = made(rt, store_of(rt.alloc(), schema));
    load(&mut store, table, text)
}

fn is_accepted(rt: &(impl Abort + AllocGlobal), row: &Accepted) {
    let (name, schema, table, text) = row;
    let done = loaded(rt, schema, table, text);
    assert_eq!(rt; done, Ok(()), "{name}: {text}");
}

// The deals are loaded byte by byte, up to so many reads.
fn loaded_slowly(rt: &(impl Abort + AllocGlobal), left: u64) -> Result<(), Failure<StoreError>> {
    let mut store = made(rt, deals(rt.alloc()));
    store.load("deal", in_pieces(DEALS, 1, left))
}

// The same over records, which keep the failure of a read.
fn records_loaded_slowly(
    rt: &(impl Abort + AllocGlobal),
    left: u64,
) -> Result<(), Failure<StoreError>> {
    let mut store = made(rt, deals(rt.alloc()));
    let mut records = Records::new(rt.alloc(), in_pieces(DEALS, 1, left));
    store.load_records("deal", &mut records)
}

// The number of bytes that are read, and the row that is not: the header has 9 bytes, the rows 8, 8 and 6.
static CUT_RECORDS: [(u64, u64); 7] = [(0, 0), (8, 0), (9, 1), (16, 1), (17, 2), (25, 3), (31, 4)];

fn cut_records() -> &'static [(u64, u64)] {
    &CUT_RECORDS
}

fn records_report_the_row_that_was_not_read(rt: &(impl Abort + AllocGlobal)) {
    for (left, row) in cut_records() {
        let want = Err(Failure::Error(Data(LoadError::Reader { row: *row })));
        assert_eq!(rt; records_loaded_slowly(rt, *left), want, "{left}");
    }
    assert_eq!(rt; records_loaded_slowly(rt, 10_000), Ok(()));
}

fn failed_reader_adds_nothing(rt: &(impl Abort + AllocGlobal)) {
    for left in 0..30u64 {
        match loaded_slowly(rt, left) {
            Err(Failure::Error(Data(LoadError::Reader { row }))) => {
                assert!(rt; row <= 3, "{left}");
            }
            other => panic!(rt; "failed_reader_adds_nothing: {left}: {other:?}"),
        }
    }
}

#[test]
fn whole_rows_are_accepted_and_a_failed_reader_is_reported(rt: HostRuntime) {
    for row in accepted() {
        is_accepted(&rt, row);
    }
    assert_eq!(rt;
        loaded_slowly(&rt, 10_000),
        Ok(()),
        "pieces_make_no_difference"
    );
    failed_reader_adds_nothing(&rt);
    records_report_the_row_that_was_not_read(&rt);
}
