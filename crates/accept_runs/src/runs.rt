//! Codes that are run.

ghost use Rattle.std.specs.Prelude.{◌≡◌, map};
ghost use Rattle.tuples.specs.View.{guard_of};

use crate::cases::{A, C, ROWS, SCHEMA, query_text};
use crate::planned::{column_of, indexed};
use crate::rows::fields;
use crate::texts::shown;
use access::frame;
use expr::Code;
use fixture_plans::{run_into_over, run_over, tables_of};
use fixtures::{FixtureError, code_of, contents, load, store_of};
use memory::{Failure, Items};
use resolve::{Bound, bind};
use rewrite::{Simplified, simplify};
use row_ast::Query;
use std::alloc::{AllocError, AllocGlobal, Global};
use std::process::Abort;
use std::test::Fail;
use store::Store;
use syntax::parse_query;
use trailcheck::Setting;
use tuples::{Combo, Work, World};

// A row of the test.
#[derive(Clone, Copy)]
struct Row<'r> {
    role: &'r str,
    query: &'r str,
    indexes: &'r str,
    wanted: &'r str,
    code: &'r str,
    combinations: &'r str,
    steps: &'r str,
}

fn row_of(line: &str) -> Row<'_> {
    let [role, query, indexes, wanted, code, combinations, steps] = fields(line);
    Row {
        role,
        query,
        indexes,
        wanted,
        code,
        combinations,
        steps,
    }
}

// ---- what plans are made from

fn setting(
    alloc: Global,
    store: &Store<Global>,
    bound: &Bound<'_, Global>,
    row: Row<'_>,
) -> Result<Setting<Global>, AllocError> {
    let entries = bound.entries.as_slice();
    let Simplified {
        conditions,
        lefts,
        ..
    } = simplify(alloc, &bound.query)?;
    Ok(Setting {
        frame: frame(alloc, store.catalog(), row.role, entries)?,
        indexed: indexed(alloc, row.indexes, entries.len())?,
        conditions,
        lefts,
    })
}

// ---- runs

// The combinations of the code, which come to a sink where any order will do; none where no plan may have it.
fn run_code(
    alloc: Global,
    world: &World<'_, Global>,
    setting: &Setting<Global>,
    code: &Code<Global>,
    wanted: &str,
    work: &mut Work,
) -> Result<Option<Items<Combo<Global>, Global>>, AllocError>
    requires { map guard_of setting.now.frame ≡ map (λ t. guard_of t.guard.now) world.now.tables.now }
{
    if wanted != "any" {
        return run_over(alloc, world, setting, code, column_of(wanted), work);
    }
    let mut taken = Items::new(alloc);
    if run_into_over(alloc, world, setting, code, &mut taken, work)? {
        Ok(Some(taken))
    } else {
        Ok(None)
    }
}

fn runs_as(
    rt: &(impl Abort + AllocGlobal),
    world: &World<'_, Global>,
    setting: &Setting<Global>,
    code: &Code<Global>,
    row: Row<'_>,
) -> Result<(), AllocError>
    requires { map guard_of setting.now.frame ≡ map (λ t. guard_of t.guard.now) world.now.tables.now }
{
    let mut work = Work::new();
    let Some(found) = run_code(rt.alloc(), world, setting, code, row.wanted, &mut work)? else {
        panic!(rt; "not admissible");
    };
    let got = shown(
        rt.alloc(),
        found.as_slice(),
        world.tables.len(),
        row.combinations,
    )?;
    assert_eq!(rt;
        got.as_str(),
        row.combinations,
        "{} by {}",
        row.query,
        row.code
    );
    let steps = format!(in rt.alloc(); "{}", work.count())?;
    assert_eq!(rt;
        steps.as_str(),
        row.steps,
        "steps of {} by {}",
        row.query,
        row.code
    );
    Ok(())
}

fn run_bound(
    rt: &(impl Abort + AllocGlobal),
    store: &Store<Global>,
    bound: &Bound<'_, Global>,
    row: Row<'_>,
) -> Result<(), AllocError> {
    let setting = setting(rt.alloc(), store, bound, row)?;
    let rows = contents(rt.alloc(), store, bound.entries.as_slice())?;
    let tables = tables_of(rt.alloc(), &rows, setting.frame.as_slice())?;
    let world = World {
        role: row.role,
        query: &bound.query,
        tables: &tables,
    };
    match code_of(rt.alloc(), row.code)? {
        Some(code) => runs_as(rt, &world, &setting, &code, row),
        None => panic!(rt; "{}: no code", row.code),
    }
}

fn run_query(
    rt: &(impl Abort + AllocGlobal),
    store: &Store<Global>,
    query: &Query<Global>,
    row: Row<'_>,
) -> Result<(), AllocError> {
    match bind(rt.alloc(), store.catalog(), query) {
        Ok(bound) => run_bound(rt, store, &bound, row),
        Err(_) => panic!(rt; "{}: not bound", row.query),
    }
}

fn run_row(
    rt: &(impl Abort + AllocGlobal),
    store: &Store<Global>,
    row: Row<'_>,
) -> Result<(), AllocError> {
    match parse_query(rt.alloc(), query_text(row.query)) {
        Ok(query) => run_query(rt, store, &query, row),
        Err(_) => panic!(rt; "{}: no query", row.query),
    }
}

// The store of the rows.
fn made(alloc: Global) -> Result<Box<Store<Global>, Global>, Failure<FixtureError>> {
    let mut store = store_of(alloc, SCHEMA)?;
    load(&mut store, "a", A)?;
    load(&mut store, "c", C)?;
    Ok(store)
}

#[test]
fn codes_give_their_combinations_in_order_and_count_their_steps(
    rt: HostRuntime,
) -> Result<(), Fail> {
    let Ok(store) = made(rt.alloc()) else {
        panic!(rt; "no store");
    };
    assert!(rt; !ROWS.is_empty());
    for line in ROWS.lines() {
        run_row(&rt, &store, row_of(line))?;
    }
    Ok(())
}
