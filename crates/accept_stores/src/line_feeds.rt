//! Line feeds in the text of a query, which no file of worked rows has.

use fixture_scripts::answered;
use fixtures::sales;
use std::test::Fail;

#[test]
fn line_feeds_are_printed(rt: HostRuntime) -> Result<(), Fail> {
    let store = sales(rt.alloc())?;
    let query = "SELECT 'two\nlines' AS a, 'x\r' AS b FROM region LIMIT 1";
    let answer = "a,b\n\"two\nlines\",\"x\r\"\n";
    Ok(answered(rt.alloc(), &store, ("line_feeds", "lone", query, answer, 0))?)
}
