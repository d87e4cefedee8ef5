//! The search and an enumeration of all codes find the same, over small problems that are drawn from a seed.

ghost use Rattle.std.specs.Prelude.{◌≡◌};
ghost use Rattle.trailcheck.specs.View.{setting_of};
ghost use Rattle.code_costs.specs.View.{problem_of};

use crate::planned::lent;
use code_costs::{MAX_ENTRIES, Problem, cost};
use expr::{Code, cmp_codes};
use fixture_plans::{Drawn, Random, all_codes, draw};
use fixtures::show_code;
use joindp::search;
use memory::Items;
use std::alloc::{AllocError, AllocGlobal, Global};
use std::cmp::Ordering;
use std::process::Abort;
use std::test::Fail;
use trailcheck::{Setting, is_admissible};

const SEED: u64 = 1979;

const PROBLEMS: u64 = 200;

// A code and its cost.
#[derive(Drop)]
struct Costed {
    code: Code<Global>,
    cost: u128,
}

// The one that comes first by cost and then by code.
fn lesser(best: Option<Costed>, other: Costed) -> Costed {
    let Some(best) = best else {
        return other;
    };
    let order = best.cost.cmp(&other.cost);
    if order.then(cmp_codes(&best.code, &other.code)) == Ordering::Greater {
        other
    } else {
        best
    }
}

// The least of the codes that a plan may have, if there is one.
fn least_of_all(
    alloc: Global,
    setting: &Setting<Global>,
    problem: &Problem<'_, Global>,
    codes: Items<Code<Global>, Global>,
) -> Result<Option<Costed>, AllocError>
    requires { (problem_of problem.now).setting ≡ setting_of setting.now }
{
    let mut best = None;
    for code in codes.into_vec() {
        if is_admissible(alloc, setting, &code)? {
            let cost = cost(problem, &code);
            best = Some(lesser(best, Costed { code, cost }));
        }
    }
    Ok(best)
}

// A cost and its code, as a text.
fn text_of(alloc: Global, found: &Costed) -> Result<String, AllocError> {
    let mut out = format!(in alloc; "{} | ", found.cost)?;
    show_code(&found.code, &mut out)?;
    Ok(out)
}

fn is_least(
    rt: &(impl Abort + AllocGlobal),
    problem: &Drawn,
    number: u64,
) -> Result<(), AllocError> {
    let Drawn {
        setting,
        statistics,
        wanted,
    } = problem;
    let statistics = lent(rt.alloc(), statistics.as_slice())?;
    assert!(rt;
        statistics.len() == setting.frame.len(),
        "not each has statistics"
    );
    assert!(rt; setting.frame.len() <= MAX_ENTRIES, "too many entries");
    assert!(rt;
        setting.lefts.len() <= setting.frame.len(),
        "too many left joins"
    );
    let problem = Problem::new(rt.alloc(), setting, &statistics, *wanted)?;
    let (code, cost) = search(rt.alloc(), &problem)?;
    let got = text_of(rt.alloc(), &Costed { code, cost })?;
    let codes = all_codes(rt.alloc(), setting)?;
    let Some(least) = least_of_all(rt.alloc(), setting, &problem, codes)? else {
        panic!(rt; "problem {number}: no code");
    };
    let want = text_of(rt.alloc(), &least)?;
    assert_eq!(rt; got.as_str(), want.as_str(), "problem {number}");
    Ok(())
}

// 200 problems of one to four entries.
#[test]
fn search_is_the_least_of_all_codes(rt: HostRuntime) -> Result<(), Fail> {
    let mut random = Random::new(SEED);
    for number in 0..PROBLEMS {
        let entries = number % 4 + 1;
        let problem = draw(rt.alloc(), &mut random, entries)?;
        is_least(&rt, &problem, number)?;
    }
    Ok(())
}
