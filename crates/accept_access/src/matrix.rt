//! The matrix of the store of sales.

use crate::compared::is_counted;
use crate::texts::{is_text, made};
use access_matrix::matrix;
use fixtures::{apply, sales};
use std::test::Fail;

pub const HEADINGS: &str = "role,table,columns,rows,of,why\n";

const ALL: &str = "root,deal,all,5,5,superuser
root,region,all,3,3,superuser
boss,deal,all,5,5,owner
boss,region,all,3,3,row security off
audit,deal,all,5,5,BYPASSRLS
audit,region,all,3,3,BYPASSRLS
sales,deal,all,0,5,by own
sales,region,all,3,3,row security off
alice,deal,all,3,5,by own
alice,region,all,3,3,row security off
bob,deal,all,2,5,by own
bob,region,all,3,3,row security off
guest,deal,id,0,5,no policy
guest,region,all,3,3,row security off
lone,deal,none,0,5,no grant
lone,region,all,3,3,row security off
";

const OF_TWO: &str = "lone,deal,none,0,5,no grant
lone,region,all,3,3,row security off
alice,deal,all,3,5,by own
alice,region,all,3,3,row security off
";

#[test]
fn matrix_of_all_roles(rt: HostRuntime) -> Result<(), Fail> {
    let alloc = rt.alloc();
    let store = made(&rt, sales(alloc));
    let reply = matrix(alloc, &store, &[])?;
    is_text(&rt, alloc, &reply, HEADINGS, ALL, "all roles")?;
    is_counted(&rt, alloc, &store, &reply)?;
    Ok(())
}

#[test]
fn matrix_of_some_roles(rt: HostRuntime) -> Result<(), Fail> {
    let alloc = rt.alloc();
    let store = made(&rt, sales(alloc));
    let reply = matrix(alloc, &store, &["lone", "alice"])?;
    is_text(&rt, alloc, &reply, HEADINGS, OF_TWO, "two roles")?;
    let unknown = matrix(alloc, &store, &["lone", "nosuch"])?;
    is_text(
        &rt,
        alloc,
        &unknown,
        "refused 42704\n",
        "",
        "a role that is not there",
    )?;
    let folded = matrix(alloc, &store, &["ALICE"])?;
    is_text(&rt, alloc, &folded, "refused 42704\n", "", "another role")?;
    Ok(())
}

const FORCED: &str =
    "ALTER TABLE deal FORCE ROW LEVEL SECURITY; GRANT alice TO guest; GRANT boss TO lone;
    CREATE POLICY cheap ON deal AS RESTRICTIVE USING (amount < 90); CREATE POLICY north ON deal TO alice USING (region = 1);";

// guest is alice too, but is no owner of a deal: it sees those of region 1, if they are cheap. lone belongs to the owner, on whom
// row security is forced now.
const OF_FORCED: &str = "boss,deal,all,0,5,by cheap (restrictive)
boss,region,all,3,3,row security off
alice,deal,all,2,5,\"by own, cheap (restrictive), north\"
alice,region,all,3,3,row security off
guest,deal,all,1,5,\"by own, cheap (restrictive), north\"
guest,region,all,3,3,row security off
lone,deal,all,0,5,by cheap (restrictive)
lone,region,all,3,3,row security off
";

#[test]
fn matrix_under_policies_and_memberships(rt: HostRuntime) -> Result<(), Fail> {
    let alloc = rt.alloc();
    let mut store = made(&rt, sales(alloc));
    made(&rt, apply(alloc, &mut store, "root", FORCED));
    let reply = matrix(alloc, &store, &["boss", "alice", "guest", "lone"])?;
    is_text(&rt, alloc, &reply, HEADINGS, OF_FORCED, "forced")?;
    is_counted(&rt, alloc, &store, &reply)?;
    Ok(())
}
