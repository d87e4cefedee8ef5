//! Plans that are made to stop the checker: long paths, great numbers, many steps, many entries, and deep filters.

use crate::rows::{expanded, fields, number};
use fixtures::{audited, sales};
use std::alloc::{AllocError, Global};
use std::process::Abort;
use std::test::Fail;
use store::Store;

// A query of audit, how many times the parts in braces of a plan stand, the plan, and the line that is written; ` | ` between them, and
// `~` for an LF. The term is a filter over a guard over a table: a path of three digits leads to no node.
pub const PATHS: &str = "\
ONE | 1 | cost 5~filter 1 (deal.id = 3)~first deal full~trail~9 {0}~ | accepted
ONE | 3 | cost 5~filter 1 (deal.id = 3)~first deal full~trail~9 {0}~ | refused line 1 reason 2
ONE | 65536 | cost 5~filter 1 (deal.id = 3)~first deal full~trail~9 {0}~ | refused line 1 reason 2
ONE | 65536 | cost 5~filter 1 (deal.id = 3)~first deal full~trail~9 {1}~ | refused line 1 reason 2
ONE | 32768 | cost 5~filter 1 (deal.id = 3)~first deal full~trail~9 {01}~ | refused line 1 reason 2
ONE | 65536 | cost 5~filter 1 (deal.id = 3)~first deal full~trail~10- {1} 0~ | refused line 1 reason 2
ONE | 65536 | cost 5~filter 1 (deal.id = 3)~first deal full~trail~9 0~9 {0}~ | refused line 2 reason 2
ONE | 65536 | cost 5~filter 1 (deal.id = 3)~first deal full~trail~9 {0}2~ | unreadable line 5
ONE | 65536 | cost 5~filter 1 (deal.id = 3)~first deal full~trail~9 {0} | unreadable line 5
";

// Numbers below 2^64 have at most twenty digits, and costs below 2^128 at most 39.
const NUMBERS: &str = "\
ONE | 19 | cost 5~filter 1 (deal.id = 3)~first deal full~trail~{9} .~ | refused line 1 reason 3
ONE | 20 | cost 5~filter 1 (deal.id = 3)~first deal full~trail~{9} .~ | unreadable line 5
ONE | 65536 | cost 5~filter 1 (deal.id = 3)~first deal full~trail~{9} .~ | unreadable line 5
ONE | 65536 | cost 5~filter 1 (deal.id = 3)~first deal full~trail~{9}- .~ | unreadable line 5
ONE | 19 | cost 5~filter 1 (deal.id = 3)~first deal full~trail~10- . {1}~ | refused line 1 reason 4
ONE | 65536 | cost 5~filter 1 (deal.id = 3)~first deal full~trail~10- . {1}~ | unreadable line 5
ONE | 65536 | cost 5~filter 1 (deal.id = 3)~first deal full~trail~11 . 0 {7}~ | unreadable line 5
ONE | 65536 | cost 5~filter 1 (deal.id = 3)~first deal full~trail~11 . 0{ 0}~ | unreadable line 5
ONE | 39 | cost {1}~filter 1 (deal.id = 3)~first deal full~trail~9 0~ | accepted
ONE | 40 | cost {1}~filter 1 (deal.id = 3)~first deal full~trail~9 0~ | unreadable line 1
ONE | 65536 | cost {1}~filter 1 (deal.id = 3)~first deal full~trail~9 0~ | unreadable line 1
ONE | 65536 | cost 5~filter {1} (deal.id = 3)~first deal full~trail~9 0~ | unreadable line 2
ONE | 65536 | cost 5~filter 1 (deal.id = {3})~first deal full~trail~9 0~ | unreadable line 2
ONE | 65536 | cost 5~filter 1 (deal.i{d} = 3)~first deal full~trail~9 0~ | unreadable line 2
ONE | 65536 | cost 5~filter 1 (deal.id = 3)~first dea{l} full~trail~9 0~ | unreadable line 3
ONE | 65536 | cost 5~filter 1 (deal.id = 3)~first deal index id by {1}~trail~9 0~ | unreadable line 3
ONE | 65536 | cost 5~filter 1 (deal.id = 3)~first deal full~hash {1} deal full~trail~9 0~ | unreadable line 4
";

/// Two filters that are swapped as often as there may be steps, and once more.
pub const STEPS: &str = "\
BOTH | 16382 | cost 5~filter 1 (deal.id = 3)~filter 2 (deal.owner = 'bob')~first deal full~trail~{3 .~}9 00~ | accepted
BOTH | 16383 | cost 5~filter 1 (deal.id = 3)~filter 2 (deal.owner = 'bob')~first deal full~trail~{3 .~}9 00~ | refused line 16385 reason 6
BOTH | 16384 | cost 5~filter 1 (deal.id = 3)~filter 2 (deal.owner = 'bob')~first deal full~trail~{3 .~} | refused line 16385 reason 6
BOTH | 16385 | cost 5~filter 1 (deal.id = 3)~filter 2 (deal.owner = 'bob')~first deal full~trail~{3 .~} | refused line 16385 reason 1
BOTH | 65536 | cost 5~filter 1 (deal.id = 3)~filter 2 (deal.owner = 'bob')~first deal full~trail~{3 .~} | refused line 16385 reason 1
";

/// Copies of a filter up to a term of 4,096 nodes, and one more; and a filter that is doubled up to a list of 64 members, and once more.
pub const NODES: &str = "\
ONE | 4093 | cost 5~filter 1 (deal.id = 3)~first deal full~trail~{10- . 0~} | refused line 4094 reason 6
ONE | 4094 | cost 5~filter 1 (deal.id = 3)~first deal full~trail~{10- . 0~} | refused line 4094 reason 1
ONE | 65536 | cost 5~filter 1 (deal.id = 3)~first deal full~trail~{10- . 0~} | refused line 4094 reason 1
ONE | 6 | cost 5~filter 1 (deal.id = 3)~first deal full~trail~{10- . 0~2 .~} | refused line 13 reason 6
ONE | 7 | cost 5~filter 1 (deal.id = 3)~first deal full~trail~{10- . 0~2 .~} | refused line 14 reason 4
ONE | 32768 | cost 5~filter 1 (deal.id = 3)~first deal full~trail~{10- . 0~2 .~} | refused line 14 reason 4
";

// Codes that have an entry more than once.
const ENTRIES: &str = "\
ONE | 1 | cost 5~filter 1 (deal.id = 3)~first deal full~{nested deal full~}trail~9 0~ | refused line 0 reason 5
ONE | 65536 | cost 5~filter 1 (deal.id = 3)~first deal full~{nested deal full~}trail~9 0~ | refused line 0 reason 5
ONE | 65536 | cost 5~filter 1 (deal.id = 3)~first deal full~{hash 1 deal full~}trail~9 0~ | refused line 0 reason 5
ONE | 65536 | cost 5~filter 1 (deal.id = 3)~first deal full~{merge 1 deal index id~}trail~9 0~ | refused line 0 reason 5
ONE | 2 | cost 5~filter 1 (deal.id = 3)~{first deal full~}trail~9 0~ | unreadable line 4
ONE | 1 | cost 5~filter 1 (deal.id = 3)~first deal full~{sort deal.id~}trail~9 0~ | accepted
ONE | 2 | cost 5~filter 1 (deal.id = 3)~first deal full~{sort deal.id~}trail~9 0~ | unreadable line 5
";

// A condition of a long text that is copied until it takes more memory than an audit may.
const COPIES: &str = "\
SELECT id FROM deal WHERE owner = '{xxxxxxxxxxxxxxxx}' | 2000 | cost 5~filter 1 (deal.owner = '{xxxxxxxxxxxxxxxx}')~first deal full~trail~{10- . 0~} | refused line 2001 reason 6
SELECT id FROM deal WHERE owner = '{xxxxxxxxxxxxxxxx}' | 4000 | cost 5~filter 1 (deal.owner = '{xxxxxxxxxxxxxxxx}')~first deal full~trail~{10- . 0~} | refused 53200
";

// Filters are nested up to 512 deep, and have runs of any length; one of more than 1,024 arithmetic operators takes more stack than an
// audit may. A minus that begins a number is no operator.
const FILTERS: &str = "\
ONE | 256 | cost 5~filter 1 {(NOT }deal.id = 3{)}~first deal full~trail~9 0~ | refused line 0 reason 5
ONE | 257 | cost 5~filter 1 {(NOT }deal.id = 3{)}~first deal full~trail~9 0~ | unreadable line 2
ONE | 512 | cost 5~filter 1 {- }deal.id = 3~first deal full~trail~9 0~ | refused line 0 reason 5
ONE | 513 | cost 5~filter 1 {- }deal.id = 3~first deal full~trail~9 0~ | unreadable line 2
ONE | 65536 | cost 5~filter 1 {- }deal.id = 3~first deal full~trail~9 0~ | unreadable line 2
ONE | 128 | cost 5~filter 1 {(}deal.id = 3{)}~first deal full~trail~9 0~ | accepted
ONE | 128 | cost 5~filter 1 {CASE WHEN TRUE THEN }deal.id = 3{ END}~first deal full~trail~9 0~ | refused line 0 reason 5
ONE | 4096 | cost 5~filter 1 deal.id = 3{ AND deal.id = 3}~first deal full~trail~9 0~ | refused line 0 reason 5
ONE | 4096 | cost 5~filter 1 deal.id = 3{ OR deal.id = 3}~first deal full~trail~9 0~ | refused line 0 reason 5
ONE | 1024 | cost 5~filter 1 deal.id = 3{ + 0}~first deal full~trail~9 0~ | refused line 0 reason 5
ONE | 1024 | cost 5~filter 1 deal.id = 3{ * 1}~first deal full~trail~9 0~ | refused line 0 reason 5
ONE | 1024 | cost 5~filter 1 deal.id = 3{ -1}~first deal full~trail~9 0~ | refused line 0 reason 5
ONE | 1025 | cost 5~filter 1 deal.id = 3{ + 0}~first deal full~trail~9 0~ | refused 53200
ONE | 1025 | cost 5~filter 1 deal.id = 3{ -1}~first deal full~trail~9 0~ | refused 53200
ONE | 500000 | cost 5~filter 1 deal.id = 3{*1}~first deal full~trail~9 0~ | refused 53200
ONE | 20000 | cost 5~filter 1 deal.id IN (-3{, -3})~first deal full~trail~9 0~ | refused line 0 reason 5
ONE | 65536 | cost 5~filter 1 deal.id IN (3{, 3})~first deal full~trail~9 0~ | refused line 0 reason 5
ONE | 65536 | cost 5~filter 1 deal.owner = '{''}'~first deal full~trail~9 0~ | refused line 0 reason 5
";

// Lines that are none: empty ones, one without an end, quotes that are not closed, NUL, CR, and a byte order mark.
const LINES: &str = "\
ONE | 65536 | {~} | unreadable line 1
ONE | 1000000 | {x} | unreadable line 1
ONE | 65537 | {'} | unreadable line 1
ONE | 65536 | {\u{0}} | unreadable line 1
ONE | 1000000 | cost 5~filter 1 (deal.owner = '{x} | unreadable line 2
ONE | 65536 | cost 5~filter 1 (deal.owner = '{~} | unreadable line 2
ONE | 65536 | cost 5~filter 1 (deal.id = 3){ }~first deal full~trail~9 0~ | accepted
ONE | 65536 | cost 5~filter 1 (deal.id = 3)~first deal full{ }~trail~9 0~ | unreadable line 3
ONE | 1 | cost 5~filter 1 (deal.id = 3)~first deal full~trail~9 0{\u{0}}~ | unreadable line 5
ONE | 1 | cost 5~filter 1 (deal.id = 3)~first deal full~trail~9 0{\r}~ | unreadable line 5
ONE | 1 | {\u{feff}}cost 5~filter 1 (deal.id = 3)~first deal full~trail~9 0~ | unreadable line 1
";

/// The query of a name.
pub fn query_of(name: &str) -> &str {
    match name {
        "ONE" => "SELECT id FROM deal WHERE id = 3",
        "BOTH" => "SELECT id FROM deal WHERE id = 3 AND owner = 'bob'",
        _ => name,
    }
}

// The status of a line.
fn status_of(line: &str) -> u8 {
    match line {
        "accepted" => 0,
        "refused 53200" => 7,
        _ => 3,
    }
}

// The line that is written for a plan, with its status.
fn judge(
    rt: &(impl Abort + AllocGlobal),
    store: &Store<Global>,
    row: &str,
) -> Result<(), AllocError> {
    let ([query, many, plan], want) = fields(row);
    let plan = expanded(rt.alloc(), plan, number(rt, many))?;
    let query = expanded(rt.alloc(), query_of(query), number(rt, many))?;
    let (status, out) = audited(rt.alloc(), store, "audit", query.as_str(), plan.as_bytes());
    let written = std::str::from_utf8(out.inner.as_slice()).unwrap_or("no UTF-8");
    assert_eq!(rt;
        written.strip_suffix('\n').unwrap_or("no LF"),
        want,
        "{row}"
    );
    assert_eq!(rt; status, status_of(want), "{row}");
    Ok(())
}

fn judge_all(rt: &(impl Abort + AllocGlobal), rows: &str) -> Result<(), Fail> {
    let store = sales(rt.alloc())?;
    assert!(rt; !rows.is_empty());
    for row in rows.lines() {
        judge(rt, &store, row)?;
    }
    Ok(())
}

#[test]
fn long_paths_and_great_numbers_are_refused(rt: HostRuntime) -> Result<(), Fail> {
    judge_all(&rt, PATHS)?;
    judge_all(&rt, NUMBERS)
}

#[test]
fn steps_and_nodes_are_limited(rt: HostRuntime) -> Result<(), Fail> {
    judge_all(&rt, STEPS)?;
    judge_all(&rt, NODES)
}

#[test]
fn copies_of_conditions_are_limited(rt: HostRuntime) -> Result<(), Fail> {
    judge_all(&rt, COPIES)
}

#[test]
fn entries_come_once_and_filters_are_compared(rt: HostRuntime) -> Result<(), Fail> {
    judge_all(&rt, ENTRIES)?;
    judge_all(&rt, FILTERS)
}

#[test]
fn lines_that_are_none_are_unreadable(rt: HostRuntime) -> Result<(), Fail> {
    judge_all(&rt, LINES)
}
