//! Every code that a plan may have, over small tables that are drawn from a seed.

ghost use Rattle.std.specs.Prelude.{◌≡◌, map};
ghost use Rattle.tuples.specs.View.{guard_of};

use crate::drawn_tables::drawn_tables;
use crate::texts::shown;
use crate::without_thirds::{WithoutThirds, has_no_third};
use expr::Code;
use fixture_plans::{
    Drawn, Random, all_codes, draw, draw_left, nested_loops, no_query, run_into_over, run_over,
    seen_rows, tables_of,
};
use memory::Items;
use std::alloc::{AllocError, AllocGlobal, Global};
use std::process::Abort;
use std::test::Fail;
use tables::Table;
use trailcheck::Setting;
use tuples::{Combo, Work, World};

const SEED: u64 = 1979;

const PROBLEMS: u64 = 40;

// What is tested of each code: that it gives the combinations of nested loops, or that it gives a sink those that it wants.
#[derive(Clone, Copy)]
enum Tested {
    Lists,
    Sinks,
}

// The combinations that nested loops find, in the order of their texts.
fn wanted(
    alloc: Global,
    world: &World<'_, Global>,
    setting: &Setting<Global>,
    tested: Tested,
) -> Result<String, AllocError> {
    let entries = world.tables.len();
    let conditions = setting.conditions.as_slice();
    let lefts = setting.lefts.as_slice();
    let mut found = Vec::new(alloc);
    for combination in nested_loops(alloc, world, conditions, lefts)? {
        if matches!(tested, Tested::Lists) || has_no_third(&combination, entries) {
            found.push(combination)?;
        }
    }
    shown(alloc, &found, entries, "{")
}

// These are the combinations, in any order.
fn are_as(
    rt: &(impl Abort + AllocGlobal),
    found: &[Combo<Global>],
    entries: usize,
    want: &str,
) -> Result<(), AllocError> {
    let got = shown(rt.alloc(), found, entries, "{")?;
    assert_eq!(rt; got.as_str(), want);
    Ok(())
}

// The code gives these combinations in its order, and in any.
fn gives(
    rt: &(impl Abort + AllocGlobal),
    world: &World<'_, Global>,
    setting: &Setting<Global>,
    code: &Code<Global>,
    want: &str,
) -> Result<(), AllocError>
    requires { map guard_of setting.now.frame ≡ map (λ t. guard_of t.guard.now) world.now.tables.now }
{
    let entries = world.tables.len();
    let mut work = Work::new();
    let Some(found) = run_over(rt.alloc(), world, setting, code, None, &mut work)? else {
        panic!(rt; "not admissible");
    };
    are_as(rt, found.as_slice(), entries, want)?;
    let mut taken = Items::new(rt.alloc());
    run_into_over(rt.alloc(), world, setting, code, &mut taken, &mut work)?;
    are_as(rt, taken.as_slice(), entries, want)
}

// Of each entry whose rows come once, as the run said, the role sees at least as many rows as combinations came.
fn comes_once_rightly(
    rt: &(impl Abort + AllocGlobal),
    world: &World<'_, Global>,
    sink: &WithoutThirds,
) -> Result<(), AllocError> {
    for (entry, table) in world.tables.iter().enumerate() {
        let seen = seen_rows(rt.alloc(), world, entry, table)?;
        let is_few = sink.taken().len() <= seen.len();
        assert!(rt;
            is_few || !sink.reads_once(entry),
            "more combinations than rows"
        );
    }
    Ok(())
}

// The code gives these combinations to a sink that wants no others, in no more steps than it takes to give all.
fn gives_wanted(
    rt: &(impl Abort + AllocGlobal),
    world: &World<'_, Global>,
    setting: &Setting<Global>,
    code: &Code<Global>,
    want: &str,
) -> Result<(), AllocError>
    requires { map guard_of setting.now.frame ≡ map (λ t. guard_of t.guard.now) world.now.tables.now }
{
    let mut taken = Items::new(rt.alloc());
    let mut most = Work::new();
    run_into_over(rt.alloc(), world, setting, code, &mut taken, &mut most)?;
    let mut sink = WithoutThirds::new(rt.alloc());
    let mut work = Work::new();
    let is_run = run_into_over(rt.alloc(), world, setting, code, &mut sink, &mut work)?;
    assert!(rt; is_run, "not admissible");
    assert!(rt; work.count() <= most.count(), "more steps");
    comes_once_rightly(rt, world, &sink)?;
    are_as(rt, sink.taken(), world.tables.len(), want)
}

// Each of the codes gives these combinations.
fn all_give(
    rt: &(impl Abort + AllocGlobal),
    world: &World<'_, Global>,
    setting: &Setting<Global>,
    codes: &[Code<Global>],
    tested: Tested,
    want: &str,
) -> Result<(), AllocError>
    requires { map guard_of setting.now.frame ≡ map (λ t. guard_of t.guard.now) world.now.tables.now }
{
    for code in codes {
        match tested {
            Tested::Lists => gives(rt, world, setting, code, want)?,
            Tested::Sinks => gives_wanted(rt, world, setting, code, want)?,
        }
    }
    Ok(())
}

// The tables, lent.
fn lent_tables(
    alloc: Global,
    tables: &Vec<Table<Global>>,
) -> Result<Vec<&Table<Global>, Global>, AllocError> {
    let mut all = Vec::new(alloc);
    for table in tables.iter() {
        all.push(table)?;
    }
    Ok(all)
}

fn gives_the_same(
    rt: &(impl Abort + AllocGlobal),
    random: &mut Random,
    problem: &Drawn,
    tested: Tested,
) -> Result<(), AllocError> {
    let setting = &problem.setting;
    let tables = drawn_tables(rt, random, setting.frame.len() as u64)?;
    let lent = lent_tables(rt.alloc(), &tables)?;
    let guarded = tables_of(rt.alloc(), &lent, setting.frame.as_slice())?;
    let query = no_query(rt.alloc());
    let world = World {
        role: "root",
        query: &query,
        tables: &guarded,
    };
    let codes = all_codes(rt.alloc(), setting)?;
    let want = wanted(rt.alloc(), &world, setting, tested)?;
    assert!(rt; codes.len() > 0, "no code");
    all_give(rt, &world, setting, codes.as_slice(), tested, want.as_str())
}

// 40 problems of one to four entries, whose tables have up to ten rows of small numbers and nulls, or up to six where there are more
// than two.
fn all_give_the_same(rt: &(impl Abort + AllocGlobal), tested: Tested) -> Result<(), AllocError> {
    let mut random = Random::new(SEED);
    for number in 0..PROBLEMS {
        let problem = draw(rt.alloc(), &mut random, number % 4 + 1)?;
        gives_the_same(rt, &mut random, &problem, tested)?;
    }
    Ok(())
}

// The same of one entry or two and up to three that are left joined to them, at most four in all.
fn all_left_give_the_same(rt: &(impl Abort + AllocGlobal)) -> Result<(), AllocError> {
    let mut random = Random::new(SEED);
    for number in 0..PROBLEMS {
        let inner = number % 2 + 1;
        let lefts = (number / 2 % 4).min(4u64.saturating_sub(inner));
        let problem = draw_left(rt.alloc(), &mut random, inner.saturating_add(lefts), lefts)?;
        gives_the_same(rt, &mut random, &problem, Tested::Lists)?;
    }
    Ok(())
}

#[test]
fn every_code_gives_the_combinations_of_nested_loops(rt: HostRuntime) -> Result<(), Fail> {
    Ok(all_give_the_same(&rt, Tested::Lists)?)
}

// The sink does not want each third row of an entry.
#[test]
fn every_code_gives_a_sink_the_rows_that_it_wants(rt: HostRuntime) -> Result<(), Fail> {
    Ok(all_give_the_same(&rt, Tested::Sinks)?)
}

#[test]
fn every_code_gives_the_combinations_of_left_joins(rt: HostRuntime) -> Result<(), Fail> {
    Ok(all_left_give_the_same(&rt)?)
}
