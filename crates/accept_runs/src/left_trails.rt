//! The trails of drawn problems with left joins: of every code that a plan may have the checker accepts the steps that place the
//! conditions.

use fixture_plans::{Random, all_codes, draw_left};
use memory::{Items, boxed};
use rewrite::place;
use row_terms::Term;
use std::alloc::{AllocError, AllocGlobal, Global};
use std::process::Abort;
use std::test::Fail;
use trailcheck::{Setting, Verdict, inner_count, judge};

const SEED: u64 = 1979;

const PROBLEMS: u64 = 40;

// The rows of an entry that its guard shows.
fn guarded(alloc: Global, entry: usize) -> Result<Term<Global>, AllocError> {
    Ok(Term::Guarded {
        entry,
        input: boxed(alloc, Term::Raw { entry })?,
    })
}

// The entries that are not left joined, in the order of FROM.
fn joins(alloc: Global, count: usize) -> Result<Term<Global>, AllocError> {
    let mut term = guarded(alloc, 0)?;
    for entry in 1..count {
        term = Term::Joined {
            left: boxed(alloc, term)?,
            right: boxed(alloc, guarded(alloc, entry)?)?,
        };
    }
    Ok(term)
}

// The left joined ones over them.
fn left_joins(
    alloc: Global,
    setting: &Setting<Global>,
    inner: Term<Global>,
) -> Result<Term<Global>, AllocError> {
    let first = inner_count(setting);
    let mut term = inner;
    for (number, on) in setting.lefts.as_slice().iter().enumerate() {
        term = Term::LeftJoined {
            on: on.copy(alloc)?,
            left: boxed(alloc, term)?,
            right: boxed(alloc, guarded(alloc, first.saturating_add(number))?)?,
        };
    }
    Ok(term)
}

// All under the conditions, the first innermost.
fn written(alloc: Global, setting: &Setting<Global>) -> Result<Term<Global>, AllocError> {
    let mut term = left_joins(alloc, setting, joins(alloc, inner_count(setting))?)?;
    for condition in setting.conditions.as_slice() {
        term = Term::Filtered {
            condition: condition.copy(alloc)?,
            input: boxed(alloc, term)?,
        };
    }
    Ok(term)
}

// The trail of each code is accepted.
fn all_accepted(
    rt: &(impl Abort + AllocGlobal),
    setting: &Setting<Global>,
) -> Result<(), AllocError> {
    let codes = all_codes(rt.alloc(), setting)?;
    assert!(rt; codes.len() > 0, "no code");
    for code in codes.as_slice() {
        let trail = place(rt.alloc(), setting, Items::new(rt.alloc()), code)?;
        let term = written(rt.alloc(), setting)?;
        let verdict = judge(rt.alloc(), setting, term, trail.as_slice(), code)?;
        assert!(rt; verdict == Verdict::Accepted, "refused");
    }
    Ok(())
}

fn all_problems(rt: &(impl Abort + AllocGlobal)) -> Result<(), AllocError> {
    let mut random = Random::new(SEED);
    for number in 0..PROBLEMS {
        let inner = number % 2 + 1;
        let lefts = (number / 2 % 4).min(4u64.saturating_sub(inner));
        let problem = draw_left(rt.alloc(), &mut random, inner.saturating_add(lefts), lefts)?;
        all_accepted(rt, &problem.setting)?;
    }
    Ok(())
}

#[test]
fn every_code_with_left_joins_has_an_accepted_trail(rt: HostRuntime) -> Result<(), Fail> {
    Ok(all_problems(&rt)?)
}
