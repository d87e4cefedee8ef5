//! All codes that a plan may have, one after another.

use expr::{Access, Code, CodeStep, Method};
use memory::Items;
use std::alloc::{AllocError, Global};
use trailcheck::{Setting, is_admissible};

// ---- parts of steps

// So many numbers may name a condition, or a conjunct of an ON, of which none that is drawn has more than two.
fn numbers(setting: &Setting<Global>) -> u64 {
    (setting.conditions.len() as u64).max(2)
}

// Every way to read rows by an index on one of two columns.
fn push_by_index(
    all: &mut Items<Access, Global>,
    column: u64,
    conditions: u64,
) -> Result<(), AllocError> {
    all.push(Access::Index { column })?;
    for bound in 1..=conditions {
        all.push(Access::Range { column, bound })?;
    }
    Ok(())
}

// Every way to read rows, where there are so many conditions.
fn every_access(alloc: Global, conditions: u64) -> Result<Items<Access, Global>, AllocError> {
    let mut all = Items::new(alloc);
    all.push(Access::Full)?;
    push_by_index(&mut all, 1, conditions)?;
    push_by_index(&mut all, 2, conditions)?;
    Ok(all)
}

// Every way to join them.
fn every_method(alloc: Global, conditions: u64) -> Result<Items<Method, Global>, AllocError> {
    let mut all = Items::new(alloc);
    all.push(Method::Nested)?;
    for conjunct in 1..=conditions {
        all.push(Method::Hash { conjunct })?;
        all.push(Method::Merge { conjunct })?;
    }
    Ok(all)
}

// ---- codes

// The code of steps, with another step at a place.
fn with_step(
    alloc: Global,
    steps: &[CodeStep],
    place: usize,
    other: CodeStep,
) -> Result<Code<Global>, AllocError> {
    let mut all = Items::new(alloc);
    for (i, step) in steps.iter().enumerate() {
        all.push(if i == place { other } else { *step })?;
    }
    Ok(Code::Steps(all))
}

// The ways to read the rows of a step that a plan may have, where all else is full scans and nested joins.
fn accesses_at(
    alloc: Global,
    setting: &Setting<Global>,
    plain: &[CodeStep],
    place: usize,
    step: CodeStep,
) -> Result<Items<Access, Global>, AllocError> {
    let mut accesses = Items::new(alloc);
    let every = every_access(alloc, numbers(setting))?;
    for access in every.as_slice() {
        let step = CodeStep {
            access: *access,
            ..step
        };
        if is_admissible(alloc, setting, &with_step(alloc, plain, place, step)?)? {
            accesses.push(*access)?;
        }
    }
    Ok(accesses)
}

// The ways to join them that a plan may have, where all else is full scans and nested joins.
fn methods_at(
    alloc: Global,
    setting: &Setting<Global>,
    plain: &[CodeStep],
    place: usize,
    step: CodeStep,
) -> Result<Items<Method, Global>, AllocError> {
    let mut methods = Items::new(alloc);
    let every = every_method(alloc, numbers(setting))?;
    for method in every.as_slice() {
        let step = CodeStep {
            method: *method,
            ..step
        };
        if is_admissible(alloc, setting, &with_step(alloc, plain, place, step)?)? {
            methods.push(*method)?;
        }
    }
    Ok(methods)
}

// The steps to an entry that read its rows in one of these ways and join them in one of those.
fn combined(
    alloc: Global,
    entry: u64,
    accesses: &[Access],
    methods: &[Method],
) -> Result<Items<CodeStep, Global>, AllocError> {
    let mut steps = Items::new(alloc);
    for access in accesses {
        push_with_each(&mut steps, entry, *access, methods)?;
    }
    Ok(steps)
}

fn push_with_each(
    steps: &mut Items<CodeStep, Global>,
    entry: u64,
    access: Access,
    methods: &[Method],
) -> Result<(), AllocError> {
    for method in methods {
        steps.push(CodeStep {
            entry,
            access,
            method: *method,
        })?;
    }
    Ok(())
}

// For each place the steps that may stand there, where the entries come in the order of the plain steps. How one step reads and
// joins its rows has no part in how another one may.
fn choices(
    alloc: Global,
    setting: &Setting<Global>,
    plain: &[CodeStep],
) -> Result<Items<Items<CodeStep, Global>, Global>, AllocError> {
    let mut choices = Items::new(alloc);
    for (place, step) in plain.iter().enumerate() {
        let accesses = accesses_at(alloc, setting, plain, place, *step)?;
        let methods = methods_at(alloc, setting, plain, place, *step)?;
        let steps = combined(alloc, step.entry, accesses.as_slice(), methods.as_slice())?;
        choices.push(steps)?;
    }
    Ok(choices)
}

// How many codes the choices make.
fn count(choices: &[Items<CodeStep, Global>]) -> u64 {
    let mut count = 1u64;
    for steps in choices {
        count = count.saturating_mul(steps.len() as u64);
    }
    count
}

// The code of that number: for each place the number has a digit, which chooses the step.
fn code_at(
    alloc: Global,
    choices: &[Items<CodeStep, Global>],
    number: u64,
) -> Result<Code<Global>, AllocError> {
    let mut all = Items::new(alloc);
    let mut rest = number;
    for steps in choices {
        let base = steps.len() as u64;
        let digit = rest.checked_rem(base).unwrap_or(0);
        if let Some(step) = steps.get(digit as usize) {
            all.push(*step)?;
        }
        rest = rest.checked_div(base).unwrap_or(0);
    }
    Ok(Code::Steps(all))
}

// ---- all of them

// Adds the code, where a plan may have it.
fn push_code(
    all: &mut Items<Code<Global>, Global>,
    alloc: Global,
    setting: &Setting<Global>,
    code: Code<Global>,
) -> Result<(), AllocError> {
    if is_admissible(alloc, setting, &code)? {
        all.push(code)
    } else {
        Ok(())
    }
}

// Adds those codes that choices make.
fn push_choices(
    all: &mut Items<Code<Global>, Global>,
    alloc: Global,
    setting: &Setting<Global>,
    choices: &[Items<CodeStep, Global>],
) -> Result<(), AllocError> {
    for number in 0..count(choices) {
        push_code(all, alloc, setting, code_at(alloc, choices, number)?)?;
    }
    Ok(())
}

// Full scans and nested joins of the entries that are the digits of a number.
fn plain_steps(
    alloc: Global,
    entries: u64,
    number: u64,
) -> Result<Items<CodeStep, Global>, AllocError> {
    let mut steps = Items::new(alloc);
    let mut rest = number;
    for _ in 0..entries {
        steps.push(CodeStep {
            entry: rest.checked_rem(entries).unwrap_or(0).wrapping_add(1),
            access: Access::Full,
            method: Method::Nested,
        })?;
        rest = rest.checked_div(entries).unwrap_or(0);
    }
    Ok(steps)
}

// The steps as a code.
fn code_of_steps(alloc: Global, steps: &[CodeStep]) -> Result<Code<Global>, AllocError> {
    let mut all = Items::new(alloc);
    for step in steps {
        all.push(*step)?;
    }
    Ok(Code::Steps(all))
}

// Adds those codes that read the entries in the order of the plain steps.
fn push_order(
    all: &mut Items<Code<Global>, Global>,
    alloc: Global,
    setting: &Setting<Global>,
    plain: &[CodeStep],
) -> Result<(), AllocError> {
    if !is_admissible(alloc, setting, &code_of_steps(alloc, plain)?)? {
        return Ok(());
    }
    let choices = choices(alloc, setting, plain)?;
    push_choices(all, alloc, setting, choices.as_slice())
}

/// All codes that a plan may have: those that read at most four entries of two columns each, and the code of no rows.
pub fn all_codes(
    alloc: Global,
    setting: &Setting<Global>,
) -> Result<Items<Code<Global>, Global>, AllocError> {
    let mut all = Items::new(alloc);
    push_code(&mut all, alloc, setting, Code::Empty)?;
    let entries = setting.frame.len() as u64;
    let orders = entries.saturating_pow(entries.min(4) as u32);
    for number in 0..orders {
        let plain = plain_steps(alloc, entries, number)?;
        push_order(&mut all, alloc, setting, plain.as_slice())?;
    }
    Ok(all)
}
