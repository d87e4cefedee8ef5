//! Statistics of tables.

use crate::planned::whole_stats;
use fixtures::{load, store_of};
use stats::{ColumnStats, Stats};
use std::alloc::{AllocError, AllocGlobal, Global};
use std::process::Abort;
use std::test::Fail;
use store::Store;
use tables::Table;

const TABLE: &str = "CREATE TABLE t (n bigint, s text, b boolean);";

// The rows of the table, of which each ends in `;`, and its statistics: the number of rows, and of each column the number of
// distinct values and the bounds of the numbers. An empty field is the empty text, and `\N` is null.
const ROWS: &str = r" | 0 rows, 0, 0, 0
5,x,t; | 1 rows, 1 from 5 to 5, 1, 1
\N,\N,\N; | 1 rows, 0, 0, 0
\N,\N,\N;\N,\N,\N;\N,\N,\N; | 3 rows, 0, 0, 0
0,,f; | 1 rows, 1 from 0 to 0, 1, 1
3,a,t;3,a,f;-7,b,t;\N,a,\N; | 4 rows, 2 from -7 to 3, 2, 2
-2,a,f;-1,b,f;-2,a,f; | 3 rows, 2 from -2 to -1, 2, 1
9223372036854775807,\N,t;-9223372036854775808,\N,t; | 2 rows, 2 from -9223372036854775808 to 9223372036854775807, 0, 1
9223372036854775807,a,\N;9223372036854775807,a,\N; | 2 rows, 1 from 9223372036854775807 to 9223372036854775807, 1, 0
4,a,t;1,b,t;3,c,t;2,d,t;4,e,t;1,f,t;3,g,t;2,h,t; | 8 rows, 4 from 1 to 4, 8, 1
1,a,t;2,A,t;3,,t;4,\N,t;5,aa,t;6,,t; | 6 rows, 6 from 1 to 6, 4, 1
\N,é,t;\N,e,f;\N,É,\N;\N,é,f; | 4 rows, 0, 3, 2
\N,語,\N;1,言語,\N;\N,語,\N; | 3 rows, 1 from 1 to 1, 2, 0
\N,1,\N;\N,01,\N;1,true,\N; | 3 rows, 1 from 1 to 1, 3, 0
";

fn show_column(column: ColumnStats, out: &mut String) -> Result<(), AllocError> {
    write!(out, ", {}", column.distinct)?;
    match column.bounds {
        Some(bounds) => write!(out, " from {} to {}", bounds.least, bounds.greatest),
        None => Ok(()),
    }
}

// The statistics of a table of three columns, as a text.
fn stats_text(alloc: Global, stats: &Stats<Global>) -> Result<String, AllocError> {
    let mut out = format!(in alloc; "{} rows", stats.rows())?;
    for column in 0..3 {
        show_column(stats.column(column), &mut out)?;
    }
    Ok(out)
}

// The rows of a text as records, after their header.
fn records(alloc: Global, rows: &str) -> Result<String, AllocError> {
    let mut text = String::new(alloc);
    text.push_str("n,s,b\n")?;
    for row in rows.split(';') {
        text.push_str(row)?;
        if !row.is_empty() {
            text.push_str("\n")?;
        }
    }
    Ok(text)
}

fn counted(
    rt: &(impl Abort + AllocGlobal),
    table: &Table<Global>,
    want: &str,
) -> Result<(), AllocError> {
    let stats = whole_stats(rt.alloc(), table)?;
    let got = stats_text(rt.alloc(), &stats)?;
    assert_eq!(rt; got.as_str(), want);
    let absent = stats.column(3);
    assert!(rt;
        absent.distinct == 0 && absent.bounds == None,
        "{want}: a fourth column"
    );
    Ok(())
}

fn counted_in(
    rt: &(impl Abort + AllocGlobal),
    store: &Store<Global>,
    want: &str,
) -> Result<(), AllocError> {
    match store.contents("t") {
        Some(table) => counted(rt, table, want),
        None => panic!(rt; "no table"),
    }
}

fn counted_row(rt: &(impl Abort + AllocGlobal), line: &str) -> Result<(), Fail> {
    let (rows, want) = line.split_once(" | ").unwrap_or(("", line));
    let mut store = store_of(rt.alloc(), TABLE)?;
    let text = records(rt.alloc(), rows)?;
    load(&mut store, "t", text.as_str())?;
    counted_in(rt, &store, want)?;
    Ok(())
}

#[test]
fn statistics_of_tables(rt: HostRuntime) -> Result<(), Fail> {
    assert!(rt; !ROWS.is_empty());
    for line in ROWS.lines() {
        counted_row(&rt, line)?;
    }
    let got = stats_text(rt.alloc(), &Stats::unknown())?;
    assert_eq!(rt; got.as_str(), "1000 rows, 10, 10, 10", "not known");
    Ok(())
}
