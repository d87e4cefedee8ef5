//! The steps that joins count: those of their sources, and their own.

use crate::slow_source::SlowSource;
use crate::trivial::{Always, Never};
use expr::Method;
use joins::{JoinBy, JoinKeys, KeyColumns, join_by};
use std::alloc::{AllocError, AllocGlobal, Global};
use std::process::Abort;
use std::test::Fail;
use tuples::{Combo, Work};

// The rows of an entry, of which each takes a thousand steps.
fn rows(alloc: Global, entry: usize, count: u16) -> Result<SlowSource<Global>, AllocError> {
    let mut combinations = Vec::new(alloc);
    let mut lost = Work::new();
    for row in 0..count {
        combinations.push(Combo::read(alloc, entry, u32::from(row), &mut lost)?)?;
    }
    Ok(SlowSource::new(combinations))
}

const TRUE: Always = Always { is_null: false };

const NULL: Always = Always { is_null: true };

// How rows are joined: by a method, nested loops by keys or not, and by one column on both sides or by two.
#[derive(Clone, Copy)]
struct Way {
    method: Method,
    is_keyed: bool,
    first: Always,
    second: Option<Always>,
}

// Nested loops by keys.
fn keyed(first: Always, second: Option<Always>) -> Way {
    Way {
        method: Method::Nested,
        is_keyed: true,
        first,
        second,
    }
}

// A way without keys for nested loops, by one column that is TRUE.
fn by(method: Method) -> Way {
    Way {
        method,
        is_keyed: false,
        first: TRUE,
        second: None,
    }
}

fn columns(way: Way) -> KeyColumns<Always> {
    KeyColumns {
        first: way.first,
        second: way.second,
    }
}

// The steps that a join of so many rows takes, where no pair passes.
fn steps(alloc: Global, way: Way, left: u16, right: u16) -> Result<u128, AllocError> {
    let mut work = Work::new();
    let lefts = rows(alloc, 0, left)?;
    let rights = rows(alloc, 1, right)?;
    let join = JoinBy {
        method: way.method,
        is_keyed: way.is_keyed,
        keys: JoinKeys {
            left: columns(way),
            right: columns(way),
            is_left_sorted: false,
            is_right_sorted: false,
        },
    };
    let found = join_by(alloc, &join, lefts, rights, &Never {}, &mut work)?;
    drop(found);
    Ok(work.count())
}

fn takes(
    rt: &(impl Abort + AllocGlobal),
    way: Way,
    left: u16,
    right: u16,
    want: u128,
) -> Result<(), AllocError> {
    let got = steps(rt.alloc(), way, left, right)?;
    assert!(rt;
        got == want,
        "{left} and {right} rows: {got} steps, and not {want}"
    );
    Ok(())
}

// Each row takes a thousand steps, and all have the same key. Nested loops look at each pair. A hash table takes a step for each
// row of both sides and one for each pair of equal keys; so does a merge, which is less by the right rows here, since none of them
// is less than a left one, but sorts both sides: two rows by one comparison, three by two, four by four.
#[test]
fn joins_count_their_own_steps_and_those_of_their_sources(rt: HostRuntime) -> Result<(), Fail> {
    let nested = by(Method::Nested);
    let hash = by(Method::Hash { conjunct: 1 });
    let merge = by(Method::Merge { conjunct: 1 });
    takes(&rt, nested, 3, 4, 7012)?;
    takes(&rt, nested, 0, 4, 4000)?;
    takes(&rt, nested, 3, 0, 3000)?;
    takes(&rt, hash, 3, 4, 7019)?;
    takes(&rt, hash, 0, 4, 4004)?;
    takes(&rt, hash, 3, 0, 3003)?;
    takes(&rt, merge, 3, 4, 7021)?;
    takes(&rt, merge, 0, 4, 4004)?;
    takes(&rt, merge, 3, 0, 3005)?;
    takes(&rt, merge, 2, 2, 4008)?;
    Ok(())
}

// Nested loops by keys take a step for each row of both sides and one for each pair of equal keys, or one for each pair, if these
// are fewer: with one key of all rows, one for each pair; without keys, one for each row, if both sides have two.
#[test]
fn nested_loops_by_keys_take_no_more_steps_than_pairs(rt: HostRuntime) -> Result<(), Fail> {
    takes(&rt, keyed(TRUE, None), 3, 4, 7012)?;
    takes(&rt, keyed(TRUE, None), 2, 2, 4004)?;
    takes(&rt, keyed(TRUE, None), 0, 4, 4000)?;
    takes(&rt, keyed(TRUE, None), 3, 0, 3000)?;
    takes(&rt, keyed(NULL, None), 3, 4, 7007)?;
    takes(&rt, keyed(NULL, None), 4, 4, 8008)?;
    takes(&rt, keyed(NULL, None), 2, 2, 4004)?;
    takes(&rt, keyed(NULL, None), 1, 4, 5004)?;
    takes(&rt, keyed(NULL, None), 4, 1, 5004)?;
    takes(&rt, keyed(NULL, None), 0, 4, 4000)?;
    takes(&rt, keyed(NULL, None), 3, 0, 3000)?;
    Ok(())
}

// By two columns a pair has equal keys where both are equal: where one is null, no pair has.
#[test]
fn keys_of_two_columns_are_equal_in_both(rt: HostRuntime) -> Result<(), Fail> {
    let hash = by(Method::Hash { conjunct: 1 });
    for second in [TRUE, NULL] {
        let all = second == TRUE;
        let way = Way {
            second: Some(second),
            ..hash
        };
        takes(&rt, way, 3, 4, if all { 7019 } else { 7007 })?;
        takes(
            &rt,
            keyed(TRUE, Some(second)),
            3,
            4,
            if all { 7012 } else { 7007 },
        )?;
        takes(
            &rt,
            keyed(second, Some(TRUE)),
            4,
            4,
            if all { 8016 } else { 8008 },
        )?;
        takes(&rt, keyed(second, Some(second)), 2, 2, 4004)?;
    }
    Ok(())
}
