//! Queries that are drawn from a seed, answered as by nested loops.

ghost use Rattle.std.specs.Prelude.{◌≡◌, map};
ghost use Rattle.tuples.specs.View.{guard_of};

use crate::answer_texts::{answer_text, reply_text};
use crate::drawn_texts::{SCHEMA, drawn_query, drawn_rows};
use crate::plain_answers::plain_answer;
use access::frame;
use engine::ask;
use expr::Code;
use fixture_plans::{Random, all_codes, run_into_over, run_marked_over, tables_of};
use fixtures::{FixtureError, contents, load, store_of};
use memory::{Failure, Items};
use report::{Answering, finish_marked};
use resolve::{Bound, bind};
use rewrite::{Simplified, simplify};
use row_marks::Marks;
use std::alloc::{AllocError, AllocGlobal, Global};
use std::process::Abort;
use std::test::Fail;
use store::Store;
use syntax::parse_query;
use trailcheck::Setting;
use tuples::{Work, World};

const SEED: u64 = 2016;

// The role of the queries.
const ROLE: &str = "alice";

// How the answer to a query is found: as it is asked for, or by each code that a plan of it may have, with marks that are made on the way
// or that are all made before.
#[derive(Clone, Copy)]
enum Found {
    Asked,
    ByEachCode,
    ByMarks,
}

// The numbers of faults, and of answers that have rows.
#[derive(Clone, Copy)]
struct Counts {
    faults: u64,
    filled: u64,
}

impl Counts {
    // Counts an answer.
    fn add(&mut self, answer: &str) {
        if answer.starts_with("fault") {
            self.faults = self.faults.wrapping_add(1);
        } else if !answer.is_empty() {
            self.filled = self.filled.wrapping_add(1);
        }
    }
}

// A store with drawn rows.
fn drawn_store(
    alloc: Global,
    random: &mut Random,
) -> Result<Box<Store<Global>, Global>, Failure<FixtureError>> {
    let mut store = store_of(alloc, SCHEMA)?;
    for table in ["t", "u"] {
        let rows = drawn_rows(alloc, random)?;
        load(&mut store, table, rows.as_str())?;
    }
    Ok(store)
}

// Indexes on the first two columns of each entry.
fn indexed(alloc: Global, entries: usize) -> Result<Items<Items<u64, Global>, Global>, AllocError> {
    let mut all = Items::new(alloc);
    for _ in 0..entries {
        let mut columns = Items::new(alloc);
        columns.push(1)?;
        columns.push(2)?;
        all.push(columns)?;
    }
    Ok(all)
}

fn setting(
    alloc: Global,
    store: &Store<Global>,
    bound: &Bound<'_, Global>,
) -> Result<Setting<Global>, AllocError> {
    let entries = bound.entries.as_slice();
    let Simplified {
        conditions,
        lefts,
        ..
    } = simplify(alloc, &bound.query)?;
    Ok(Setting {
        frame: frame(alloc, store.catalog(), ROLE, entries)?,
        indexed: indexed(alloc, entries.len())?,
        conditions,
        lefts,
    })
}

// The answer over the combinations of a code.
fn answer_by(
    rt: &(impl Abort + AllocGlobal),
    world: &World<'_, Global>,
    setting: &Setting<Global>,
    code: &Code<Global>,
) -> Result<String, AllocError>
    requires { map guard_of setting.now.frame ≡ map (λ t. guard_of t.guard.now) world.now.tables.now }
{
    let mut work = Work::new();
    let mut answering = Answering::new(rt.alloc(), world)?;
    let is_run = run_into_over(rt.alloc(), world, setting, code, &mut answering, &mut work)?;
    assert!(rt; is_run, "not admissible");
    answer_text(rt.alloc(), answering.end())
}

// The answer over the combinations of a code, by all marks of the query.
fn answer_by_marks(
    rt: &(impl Abort + AllocGlobal),
    world: &World<'_, Global>,
    setting: &Setting<Global>,
    code: &Code<Global>,
) -> Result<String, AllocError>
    requires { map guard_of setting.now.frame ≡ map (λ t. guard_of t.guard.now) world.now.tables.now }
{
    let mut work = Work::new();
    let marks = Marks::of(rt.alloc(), world)?;
    match run_marked_over(rt.alloc(), world, setting, code, &marks, &mut work)? {
        Some(combinations) => {
            let answer = finish_marked(rt.alloc(), world, combinations.as_slice(), &marks);
            answer_text(rt.alloc(), answer)
        }
        None => panic!(rt; "not admissible"),
    }
}

// The answer by each code that a plan may have is this one.
fn answered_by_each(
    rt: &(impl Abort + AllocGlobal),
    world: &World<'_, Global>,
    setting: &Setting<Global>,
    text: &str,
    want: &str,
    found: Found,
) -> Result<(), AllocError>
    requires { map guard_of setting.now.frame ≡ map (λ t. guard_of t.guard.now) world.now.tables.now }
{
    let codes = all_codes(rt.alloc(), setting)?;
    assert!(rt; codes.len() > 0, "no code: {text}");
    for code in codes.as_slice() {
        let got = match found {
            Found::ByMarks => answer_by_marks(rt, world, setting, code)?,
            Found::Asked | Found::ByEachCode => answer_by(rt, world, setting, code)?,
        };
        assert_eq!(rt; got.as_str(), want, "{text}");
    }
    Ok(())
}

// Tests the answer to a bound query, and gives it.
fn bound_answered(
    rt: &(impl Abort + AllocGlobal),
    store: &Store<Global>,
    bound: &Bound<'_, Global>,
    text: &str,
    found: Found,
) -> Result<String, AllocError> {
    let setting = setting(rt.alloc(), store, bound)?;
    let rows = contents(rt.alloc(), store, bound.entries.as_slice())?;
    let tables = tables_of(rt.alloc(), &rows, setting.frame.as_slice())?;
    let world = World {
        role: ROLE,
        query: &bound.query,
        tables: &tables,
    };
    let want = answer_text(rt.alloc(), plain_answer(rt.alloc(), &world))?;
    match found {
        Found::Asked => {
            let got = reply_text(rt.alloc(), ask(rt.alloc(), store, ROLE, text))?;
            assert_eq!(rt; got.as_str(), want.as_str(), "{text}");
        }
        Found::ByEachCode | Found::ByMarks => {
            answered_by_each(rt, &world, &setting, text, want.as_str(), found)?;
        }
    }
    Ok(want)
}

// Tests the answer to a text, and gives it.
fn answered(
    rt: &(impl Abort + AllocGlobal),
    store: &Store<Global>,
    text: &str,
    found: Found,
) -> Result<String, AllocError> {
    let Ok(query) = parse_query(rt.alloc(), text) else {
        panic!(rt; "no query: {text}");
    };
    match bind(rt.alloc(), store.catalog(), &query) {
        Ok(bound) => bound_answered(rt, store, &bound, text, found),
        Err(_) => panic!(rt; "not bound: {text}"),
    }
}

// The number of entries of a query: mostly two. Of three entries there are too many codes.
fn entries(random: &mut Random, found: Found) -> u64 {
    match (random.below(8), found) {
        (0, _) => 1,
        (1, Found::Asked) => 3,
        _ => 2,
    }
}

// Tests ten queries over one store, and counts their answers.
fn answered_over(
    rt: &(impl Abort + AllocGlobal),
    random: &mut Random,
    found: Found,
    counts: &mut Counts,
) -> Result<(), AllocError> {
    let Ok(store) = drawn_store(rt.alloc(), random) else {
        panic!(rt; "no store");
    };
    for _ in 0..10 {
        let entries = entries(random, found);
        let text = drawn_query(rt.alloc(), random, entries)?;
        let answer = answered(rt, &store, text.as_str(), found)?;
        counts.add(answer.as_str());
    }
    Ok(())
}

// Tests queries over so many stores. Of ten two have faults, and two have rows.
fn all_answered(
    rt: &(impl Abort + AllocGlobal),
    found: Found,
    stores: u64,
) -> Result<(), AllocError> {
    let mut random = Random::new(SEED);
    let mut counts = Counts {
        faults: 0,
        filled: 0,
    };
    for _ in 0..stores {
        answered_over(rt, &mut random, found, &mut counts)?;
    }
    let least = stores.wrapping_mul(2);
    let Counts { faults, filled } = counts;
    assert!(rt;
        faults >= least && filled >= least,
        "{faults} faults, {filled} with rows"
    );
    Ok(())
}

// 300 queries of one to three entries, over tables of two to six rows, of which some are hidden from the role.
#[test]
fn drawn_queries_are_answered_as_by_nested_loops(rt: HostRuntime) -> Result<(), Fail> {
    Ok(all_answered(&rt, Found::Asked, 30)?)
}

// 150 queries of one entry or two.
#[test]
fn each_code_of_drawn_queries_gives_the_answer_of_nested_loops(
    rt: HostRuntime,
) -> Result<(), Fail> {
    Ok(all_answered(&rt, Found::ByEachCode, 15)?)
}

// 50 queries of one entry or two.
#[test]
fn each_code_by_marks_gives_the_answer_of_nested_loops(rt: HostRuntime) -> Result<(), Fail> {
    Ok(all_answered(&rt, Found::ByMarks, 5)?)
}
