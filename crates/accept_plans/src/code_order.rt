//! The order of codes.

use expr::{Code, cmp_codes};
use fixtures::code_of;
use std::alloc::Global;
use std::cmp::Ordering;
use std::process::Abort;
use std::test::Fail;

// Each line has two codes, the lesser one first.
const ROWS: &str = "1 f n, 2 f n | 2 f n, 1 f n
2 f n, 1 f n | 10 f n, 1 f n
1 f n, 2 f n | 1 f n, 3 f n
1 f n, 2 f n | 1 f n, 2 f h1
1 f n, 2 f h1 | 1 f n, 2 f h2
1 f n, 2 f h9 | 1 f n, 2 f h10
1 f n, 2 f h9 | 1 f n, 2 f m1
1 f n, 2 f m9 | 1 f n, 2 i1 n
1 f n, 2 f n | 1 i1 n, 2 f n
1 f n, 9 f n | 1 i1 n, 2 f n
1 i1 n | 1 i2 n
1 i9 n | 1 r1/1 n
1 r1/1 n | 1 r1/2 n
1 r1/9 n | 1 r2/1 n
1 r9/9 n | 2 f n
1 f n | 1 f n, 2 f n
1 f n, 2 f n | 2 f n
empty | 1 f n
";

fn code(rt: &(impl Abort + AllocGlobal), text: &str) -> Code<Global> {
    match code_of(rt.alloc(), text) {
        Ok(Some(code)) => code,
        _ => panic!(rt; "{text}: no code"),
    }
}

fn ordered(rt: &(impl Abort + AllocGlobal), line: &str) {
    let (lesser, greater) = line.split_once(" | ").unwrap_or((line, ""));
    let (lesser, greater) = (code(rt, lesser), code(rt, greater));
    assert!(rt; cmp_codes(&lesser, &greater) == Ordering::Less, "{line}");
    assert!(rt; cmp_codes(&greater, &lesser) == Ordering::Greater, "{line}");
    assert!(rt; cmp_codes(&lesser, &lesser) == Ordering::Equal, "{line}");
}

#[test]
fn codes_are_ordered_by_their_numbers(rt: HostRuntime) -> Result<(), Fail> {
    assert!(rt; !ROWS.is_empty());
    for line in ROWS.lines() {
        ordered(&rt, line);
    }
    Ok(())
}
