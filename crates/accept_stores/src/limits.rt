//! The limits of a store: the number of its roles, tables and policies.

use crate::stores::made;
use fixtures::FixtureError::Statement;
use fixtures::{apply, deals};
use memory::Failure;
use std::alloc::{AllocError, Global};
use std::process::Abort;
use std::test::Fail;
use store::Store;
use value::Refusal;

// Root applies a text with a number in it, so many times.
fn applied_times(
    rt: &(impl Abort + AllocGlobal),
    store: &mut Store<Global>,
    parts: (&str, &str),
    many: u32,
) -> Result<(), AllocError> {
    let (before, after) = parts;
    for i in 0..many {
        let text = format!(in rt.alloc(); "{before}{i}{after}")?;
        assert_eq!(rt;
            apply(rt.alloc(), store, "root", text.as_str()),
            Ok(()),
            "{text}"
        );
    }
    Ok(())
}

fn past_limit(rt: &(impl Abort + AllocGlobal), store: &mut Store<Global>, text: &str) {
    let want = Err(Failure::Error(Statement(Refusal::ProgramLimitExceeded)));
    assert_eq!(rt; apply(rt.alloc(), store, "root", text), want, "{text}");
}

fn reach_limits(
    rt: &(impl Abort + AllocGlobal),
    store: &mut Store<Global>,
) -> Result<(), AllocError> {
    applied_times(rt, store, ("CREATE ROLE r", ";"), 255)?;
    past_limit(rt, store, "CREATE ROLE more;");
    applied_times(rt, store, ("CREATE TABLE t", " (a text);"), 64)?;
    past_limit(rt, store, "CREATE TABLE more (a text);");
    assert_eq!(rt; store.catalog().roles(), 256);
    assert_eq!(rt; store.catalog().tables(), 64);
    Ok(())
}

#[test]
fn limits_of_roles_and_tables(rt: HostRuntime) -> Result<(), Fail> {
    let mut store = Store::new(rt.alloc())?;
    Ok(reach_limits(&rt, &mut store)?)
}

// The store of the deals with 256 policies, on its table and another one.
fn all_policies(rt: &(impl Abort + AllocGlobal)) -> Result<Box<Store<Global>>, AllocError> {
    let mut store = made(rt, deals(rt.alloc()));
    let before = "CREATE TABLE t (a bigint); CREATE POLICY p ON t USING (a = 1);";
    assert_eq!(rt;
        apply(rt.alloc(), &mut store, "root", before),
        Ok(()),
        "{before}"
    );
    applied_times(
        rt,
        &mut store,
        ("CREATE POLICY p", " ON t USING (TRUE);"),
        150,
    )?;
    applied_times(
        rt,
        &mut store,
        ("CREATE POLICY q", " ON deal USING (id = 1);"),
        104,
    )?;
    Ok(store)
}

fn policy_after_a_dropped_one(rt: &(impl Abort + AllocGlobal), store: &mut Store<Global>) {
    let text = "DROP POLICY p7 ON t; CREATE POLICY more ON deal USING (TRUE);";
    assert_eq!(rt; apply(rt.alloc(), store, "root", text), Ok(()), "{text}");
}

#[test]
fn limit_of_policies(rt: HostRuntime) -> Result<(), Fail> {
    let mut store = all_policies(&rt)?;
    past_limit(&rt, &mut store, "CREATE POLICY more ON t USING (TRUE);");
    past_limit(&rt, &mut store, "CREATE POLICY more ON deal USING (TRUE);");
    policy_after_a_dropped_one(&rt, &mut store);
    past_limit(&rt, &mut store, "CREATE POLICY last ON t USING (TRUE);");
    Ok(())
}
