//! What roles gain and lose by changes of the schema of sales.

use crate::texts::{is_text, made};
use access_matrix::{Changes, Pair, changes};
use fixtures::{FixtureError, apply, sales};
use memory::Failure;
use std::alloc::{AllocError, AllocGlobal, Global};
use std::process::Abort;
use std::test::Fail;
use store::Store;

const HEADINGS: &str = "role,table,rows_gained,rows_lost,columns_gained,columns_lost\n";

// A name, the statements after the schema of sales in the old store and in the new one, and the lines.
type Row = (&'static str, &'static str, &'static str, &'static str);

static ROWS: [Row; 33] = [
    ("no_statement", "", "", ""),
    (
        "a_role",
        "",
        "CREATE ROLE carl;",
        "carl,region,3,0,\"id, name\",\\N\n",
    ),
    (
        "no_such_role",
        "CREATE ROLE carl;",
        "",
        "carl,region,0,3,\\N,\"id, name\"\n",
    ),
    (
        "a_superuser",
        "",
        "CREATE ROLE dora SUPERUSER;",
        "dora,deal,5,0,\"id, owner, region, amount, parts\",\\N\ndora,region,3,0,\"id, name\",\\N\n",
    ),
    (
        "a_superuser_no_more",
        "CREATE ROLE dora SUPERUSER;",
        "CREATE ROLE dora;",
        "dora,deal,0,5,\\N,\"id, owner, region, amount, parts\"\n",
    ),
    (
        "bypassrls_with_a_grant",
        "CREATE ROLE eve; GRANT SELECT (id) ON deal TO eve;",
        "CREATE ROLE eve BYPASSRLS; GRANT SELECT (id) ON deal TO eve;",
        "eve,deal,5,0,\\N,\\N\n",
    ),
    (
        "bypassrls_without_a_grant",
        "CREATE ROLE eve;",
        "CREATE ROLE eve BYPASSRLS;",
        "",
    ),
    (
        "a_member_of_sales",
        "",
        "GRANT sales TO lone;",
        "lone,deal,0,0,\"id, owner, region, amount, parts\",\\N\n",
    ),
    ("a_member_of_another_group", "", "GRANT alice TO bob;", ""),
    (
        "a_member_of_the_owner",
        "",
        "GRANT boss TO alice;",
        "alice,deal,2,0,\\N,\\N\n",
    ),
    (
        "an_owner_member_no_more",
        "GRANT boss TO alice;",
        "",
        "alice,deal,0,2,\\N,\\N\n",
    ),
    (
        "no_member_of_sales",
        "",
        "REVOKE sales FROM bob;",
        "bob,deal,0,2,\\N,\"id, owner, region, amount, parts\"\n",
    ),
    (
        "a_table",
        "",
        "CREATE TABLE note (id bigint); GRANT SELECT ON note TO guest;",
        "root,note,0,0,id,\\N\nguest,note,0,0,id,\\N\n",
    ),
    (
        "no_such_table",
        "CREATE TABLE note (id bigint); GRANT SELECT ON note TO guest;",
        "",
        "root,note,0,0,\\N,id\nguest,note,0,0,\\N,id\n",
    ),
    (
        "another_owner",
        "",
        "ALTER TABLE deal OWNER TO bob;",
        "boss,deal,0,5,\\N,\"id, owner, region, amount, parts\"\nbob,deal,3,0,\\N,\\N\n",
    ),
    (
        "row_security_off",
        "",
        "ALTER TABLE deal DISABLE ROW LEVEL SECURITY;",
        "sales,deal,5,0,\\N,\\N\nalice,deal,2,0,\\N,\\N\nbob,deal,3,0,\\N,\\N\nguest,deal,5,0,\\N,\\N\n",
    ),
    (
        "row_security_on",
        "",
        "ALTER TABLE region ENABLE ROW LEVEL SECURITY;",
        "boss,region,0,3,\\N,\\N\nsales,region,0,3,\\N,\\N\nalice,region,0,3,\\N,\\N\nbob,region,0,3,\\N,\\N\nguest,region,0,3,\\N,\\N\nlone,region,0,3,\\N,\\N\n",
    ),
    (
        "row_security_forced",
        "",
        "ALTER TABLE deal FORCE ROW LEVEL SECURITY;",
        "boss,deal,0,5,\\N,\\N\n",
    ),
    (
        "row_security_forced_no_more",
        "ALTER TABLE deal FORCE ROW LEVEL SECURITY;",
        "ALTER TABLE deal NO FORCE ROW LEVEL SECURITY;",
        "boss,deal,5,0,\\N,\\N\n",
    ),
    ("an_index", "", "CREATE INDEX by_owner ON deal (owner);", ""),
    (
        "a_grant_on_a_column",
        "",
        "GRANT SELECT (amount) ON deal TO guest;",
        "guest,deal,0,0,amount,\\N\n",
    ),
    (
        "a_grant_on_a_table",
        "",
        "GRANT SELECT ON deal TO lone;",
        "lone,deal,0,0,\"id, owner, region, amount, parts\",\\N\n",
    ),
    (
        "a_grant_to_all",
        "",
        "GRANT SELECT ON deal TO PUBLIC;",
        "guest,deal,0,0,\"owner, region, amount, parts\",\\N\nlone,deal,0,0,\"id, owner, region, amount, parts\",\\N\n",
    ),
    (
        "no_grant_on_a_table",
        "",
        "REVOKE SELECT ON deal FROM sales;",
        "sales,deal,0,0,\\N,\"id, owner, region, amount, parts\"\nalice,deal,0,3,\\N,\"id, owner, region, amount, parts\"\nbob,deal,0,2,\\N,\"id, owner, region, amount, parts\"\n",
    ),
    (
        "no_grant_on_a_column",
        "",
        "REVOKE SELECT (id) ON deal FROM guest;",
        "guest,deal,0,0,\\N,id\n",
    ),
    (
        "columns_of_others",
        "GRANT SELECT (amount) ON deal TO lone;",
        "GRANT SELECT (id, owner) ON deal TO lone;",
        "lone,deal,0,0,\"id, owner\",amount\n",
    ),
    (
        "a_permissive_policy",
        "",
        "CREATE POLICY late ON deal TO guest USING (id > 3);",
        "guest,deal,2,0,\\N,\\N\n",
    ),
    (
        "a_permissive_policy_for_who_has_no_grant",
        "",
        "CREATE POLICY late ON deal TO lone USING (id > 3);",
        "",
    ),
    (
        "a_restrictive_policy",
        "",
        "CREATE POLICY cheap ON deal AS RESTRICTIVE USING (amount < 90);",
        "alice,deal,0,2,\\N,\\N\nbob,deal,0,1,\\N,\\N\n",
    ),
    (
        "a_restrictive_policy_no_more",
        "CREATE POLICY cheap ON deal AS RESTRICTIVE USING (amount < 90);",
        "",
        "alice,deal,2,0,\\N,\\N\nbob,deal,1,0,\\N,\\N\n",
    ),
    (
        "no_policy",
        "",
        "DROP POLICY own ON deal;",
        "alice,deal,0,3,\\N,\\N\nbob,deal,0,2,\\N,\\N\n",
    ),
    (
        "another_policy",
        "",
        "DROP POLICY own ON deal; CREATE POLICY own ON deal TO sales USING (region = 1);",
        "sales,deal,2,0,\\N,\\N\nalice,deal,1,2,\\N,\\N\nbob,deal,1,1,\\N,\\N\n",
    ),
    (
        "two_changes_that_cancel",
        "CREATE POLICY late ON deal TO guest USING (id > 3);",
        "GRANT sales TO guest; CREATE POLICY late ON deal TO guest USING (id >= 4); REVOKE sales FROM guest;",
        "",
    ),
];

fn rows() -> &'static [Row] {
    &ROWS
}

fn with(alloc: Global, extra: &str) -> Result<Box<Store<Global>>, Failure<FixtureError>> {
    let mut store = sales(alloc)?;
    apply(alloc, &mut store, "root", extra)?;
    Ok(store)
}

fn changed(
    rt: &(impl Abort + AllocGlobal),
    old: &str,
    new: &str,
    allowed: &[Pair<'_>],
) -> Result<Changes<Global>, AllocError> {
    let alloc = rt.alloc();
    let old = made(rt, with(alloc, old));
    let new = made(rt, with(alloc, new));
    changes(alloc, &old, &new, allowed)
}

fn is_changed(rt: &(impl Abort + AllocGlobal), row: &Row) -> Result<(), AllocError> {
    let (name, old, new, want) = *row;
    let changes = changed(rt, old, new, &[])?;
    is_text(rt, rt.alloc(), &changes.reply, HEADINGS, want, name)
}

#[test]
fn rows_and_columns_gained_and_lost(rt: HostRuntime) -> Result<(), Fail> {
    for row in rows() {
        is_changed(&rt, row)?;
    }
    Ok(())
}

fn pair(role: &'static str, table: &'static str) -> Pair<'static> {
    Pair { role, table }
}

fn opens(
    rt: &(impl Abort + AllocGlobal),
    new: &str,
    allowed: &[Pair<'_>],
    want: bool,
) -> Result<(), AllocError> {
    let changes = changed(rt, "", new, allowed)?;
    assert_eq!(rt; changes.opens, want, "{new}");
    Ok(())
}

#[test]
fn changes_that_open_something(rt: HostRuntime) -> Result<(), Fail> {
    let off = "ALTER TABLE deal DISABLE ROW LEVEL SECURITY;";
    let three = [
        pair("sales", "deal"),
        pair("alice", "deal"),
        pair("bob", "deal"),
    ];
    opens(&rt, "", &[], false)?;
    opens(&rt, "GRANT boss TO alice;", &[], true)?;
    opens(&rt, "GRANT boss TO alice;", &[pair("alice", "deal")], false)?;
    opens(
        &rt,
        "GRANT boss TO alice;",
        &[pair("alice", "region"), pair("bob", "deal")],
        true,
    )?;
    opens(&rt, "GRANT SELECT (amount) ON deal TO guest;", &[], true)?;
    opens(&rt, "REVOKE sales FROM bob;", &[], false)?;
    opens(&rt, off, &three, true)?;
    opens(
        &rt,
        off,
        &[three[2], pair("guest", "deal"), three[0], three[1]],
        false,
    )?;
    Ok(())
}
