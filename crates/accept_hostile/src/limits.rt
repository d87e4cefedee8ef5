//! Limits as replies and openings answer them: the last text that is accepted, and the first that is refused.

use crate::rows::{expanded, fields, number};
use fixtures::{sales, served};
use output::Output;
use setup::{report, store_of_schema};
use std::alloc::{AllocError, Global};
use std::process::Abort;
use std::test::Fail;
use store::Store;

// How many times the parts in braces stand, a query of lone, and its reply; ` | ` between them, and `~` for an LF.
const TEXTS: &str = "\
65502 | SELECT id FROM region WHERE id = 1{ } | id~1~
65503 | SELECT id FROM region WHERE id = 1{ } | refused 54000~
65536 | { } | refused 42601 at 65536~
65537 | { } | refused 54000~
62 | SELECT id AS a{b} FROM region WHERE id = 1 | a{b}~1~
63 | SELECT id AS a{b} FROM region WHERE id = 1 | refused 42601 at 13~
18 | SELECT id FROM region WHERE id = 1 AND 1{0} > id | id~1~
19 | SELECT id FROM region WHERE id = 1 AND 1{0} > id | refused 42601 at 39~
";

const LISTS: &str = "\
63 | SELECT id{, id} FROM region WHERE id = 1 | id{,id}~1{,1}~
64 | SELECT id{, id} FROM region WHERE id = 1 | refused 54000~
63 | SELECT count(*) FROM region GROUP BY id{, id} | count~1~1~1~
64 | SELECT count(*) FROM region GROUP BY id{, id} | refused 54000~
63 | SELECT id FROM region ORDER BY id{, id} | id~1~2~\\N~
64 | SELECT id FROM region ORDER BY id{, id} | refused 54000~
11 | SELECT count(*) FROM region a{, region r#} WHERE a.id = 1 AND r0.id = 1 AND r1.id = 2 AND r2.id = 2 | count~6561~
12 | SELECT count(*) FROM region a{, region r#} | refused 54000~
11 | SELECT count(*) FROM region a{ CROSS JOIN region r#} WHERE a.id = 1 AND r0.id = 1 AND r1.id = 2 AND r2.id = 2 | count~6561~
12 | SELECT count(*) FROM region a{ CROSS JOIN region r#} | refused 54000~
11 | SELECT count(*) FROM region a{ JOIN region r# ON a.id = r#.id} | count~2~
12 | SELECT count(*) FROM region a{ JOIN region r# ON a.id = r#.id} | refused 54000~
62 | SELECT r.id FROM region r JOIN region s ON r.id = s.id WHERE r.id = 1{ AND r.id = 1} | id~1~
63 | SELECT r.id FROM region r JOIN region s ON r.id = s.id WHERE r.id = 1{ AND r.id = 1} | refused 54000~
";

const RUNS: &str = "\
63 | SELECT id FROM region WHERE id = 1{ AND id = 1} | id~1~
64 | SELECT id FROM region WHERE id = 1{ AND id = 1} | refused 54000~
63 | SELECT id FROM region WHERE id = 1{ OR id = 1} | id~1~
64 | SELECT id FROM region WHERE id = 1{ OR id = 1} | refused 54000~
63 | SELECT 1{ + 1} AS n FROM region WHERE id = 1 | n~64~
64 | SELECT 1{ + 1} AS n FROM region WHERE id = 1 | refused 54000~
63 | SELECT 1{ * 1} AS n FROM region WHERE id = 1 | n~1~
64 | SELECT 1{ * 1} AS n FROM region WHERE id = 1 | refused 54000~
64 | SELECT {(}1{)} FROM region | ?column?~1~1~1~
65 | SELECT {(}1{)} FROM region | refused 54000~
64 | SELECT {CASE WHEN TRUE THEN }1{ END} AS n FROM region WHERE id = 1 | n~1~
65 | SELECT {CASE WHEN TRUE THEN }1{ END} AS n FROM region WHERE id = 1 | refused 54000~
64 | SELECT {CAST(}id{ AS bigint)} AS n FROM region WHERE id = 1 | n~1~
65 | SELECT {CAST(}id{ AS bigint)} AS n FROM region WHERE id = 1 | refused 54000~
64 | SELECT {- }id AS n FROM region WHERE id = 1 | n~1~
65 | SELECT {- }id AS n FROM region WHERE id = 1 | refused 54000~
64 | SELECT id FROM region WHERE {NOT }id = 1 | id~1~
65 | SELECT id FROM region WHERE {NOT }id = 1 | refused 54000~
";

// A schema text, and its line where it is refused. The roles count with root.
const SCHEMAS: &str = "\
255 | {CREATE ROLE r#;} |
256 | {CREATE ROLE r#;} | schema statement 256 refused 54000~
64 | {CREATE TABLE t# (a text);} |
65 | {CREATE TABLE t# (a text);} | schema statement 65 refused 54000~
63 | CREATE TABLE t (a text{, c# text}); |
64 | CREATE TABLE t (a text{, c# text}); | schema statement 1 refused 54000~
256 | CREATE TABLE t (a bigint);{CREATE POLICY p# ON t USING (a = 1);} |
257 | CREATE TABLE t (a bigint);{CREATE POLICY p# ON t USING (a = 1);} | schema statement 258 refused 54000~
1048562 | CREATE ROLE a;{ } |
1048563 | CREATE ROLE a;{ } | schema refused 54000~
64 | CREATE TABLE t (a bigint); CREATE POLICY p ON t USING ({(}a = 1{)}); | schema refused 54000~
63 | CREATE TABLE t (a bigint); CREATE POLICY p ON t USING ({(}a = 1{)}); |
";

fn written(out: &Output<Vec<u8>>) -> &str {
    std::str::from_utf8(out.inner.as_slice()).unwrap_or("no UTF-8")
}

fn replies(
    rt: &(impl Abort + AllocGlobal),
    store: &Store<Global>,
    row: &str,
) -> Result<(), AllocError> {
    let ([many, text, want], _) = fields(row);
    let many = number(rt, many);
    let text = expanded(rt.alloc(), text, many)?;
    let want = expanded(rt.alloc(), want, many)?;
    let (status, out) = served(rt.alloc(), store, "lone", text.as_str());
    assert_eq!(rt; written(&out), want.as_str(), "{row}");
    let is_refused = want.as_str().starts_with("refused ");
    assert_eq!(rt; status, if is_refused { 3 } else { 0 }, "{row}");
    Ok(())
}

fn reply_all(rt: &(impl Abort + AllocGlobal), rows: &str) -> Result<(), Fail> {
    let store = sales(rt.alloc())?;
    assert!(rt; !rows.is_empty());
    for row in rows.lines() {
        replies(rt, &store, row)?;
    }
    Ok(())
}

#[test]
fn limits_of_queries(rt: HostRuntime) -> Result<(), Fail> {
    reply_all(&rt, TEXTS)?;
    reply_all(&rt, LISTS)?;
    reply_all(&rt, RUNS)
}

// The line of a schema text that is refused; nothing for one that is accepted.
fn line_of(alloc: Global, schema: &str) -> Output<Vec<u8>> {
    let mut out = Output {
        inner: Vec::new(alloc),
        failed: 0,
    };
    if let Err(failure) = store_of_schema(alloc, schema) {
        report(alloc, &failure, &mut out);
    }
    out
}

fn opens(rt: &(impl Abort + AllocGlobal), row: &str) -> Result<(), AllocError> {
    let ([many, schema, want], _) = fields(row);
    let many = number(rt, many);
    let schema = expanded(
        rt.alloc(),
        schema.strip_suffix(" |").unwrap_or(schema),
        many,
    )?;
    let want = expanded(rt.alloc(), want, many)?;
    let out = line_of(rt.alloc(), schema.as_str());
    assert_eq!(rt; written(&out), want.as_str(), "{row}");
    Ok(())
}

#[test]
fn limits_of_schemas(rt: HostRuntime) -> Result<(), Fail> {
    assert!(rt; !SCHEMAS.is_empty());
    for row in SCHEMAS.lines() {
        opens(&rt, row)?;
    }
    Ok(())
}
