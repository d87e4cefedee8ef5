//! Steps read from texts: the number of a rule, with a minus where it is taken in reverse, its path, and its arguments.

use algebra::Step;
use memory::Items;
use row_terms::Branch;
use std::alloc::{AllocError, Global};

fn branch_of(digit: u8) -> Option<Branch> {
    match digit {
        b'0' => Some(Branch::First),
        b'1' => Some(Branch::Second),
        _ => None,
    }
}

// The path of a text; `.` is the empty one.
fn path_of(alloc: Global, text: &str) -> Result<Option<Items<Branch, Global>>, AllocError> {
    let mut path = Items::new(alloc);
    if text == "." {
        return Ok(Some(path));
    }
    for digit in text.as_bytes() {
        match branch_of(*digit) {
            Some(branch) => path.push(branch)?,
            None => return Ok(None),
        }
    }
    Ok(Some(path))
}

fn arguments_of(alloc: Global, text: &str) -> Result<Option<Items<u64, Global>>, AllocError> {
    let mut arguments = Items::new(alloc);
    if text.is_empty() {
        return Ok(Some(arguments));
    }
    for word in text.split(' ') {
        match word.parse::<u64>() {
            Ok(argument) => arguments.push(argument)?,
            Err(_) => return Ok(None),
        }
    }
    Ok(Some(arguments))
}

/// The step of a text, if it is one.
pub fn step_of(alloc: Global, text: &str) -> Result<Option<Step<Global>>, AllocError> {
    let Some((head, rest)) = text.split_once(' ') else {
        return Ok(None);
    };
    let (number, is_reverse) = match head.strip_suffix('-') {
        Some(number) => (number, true),
        None => (head, false),
    };
    let Ok(rule) = number.parse::<u64>() else {
        return Ok(None);
    };
    let (path, arguments) = rest.split_once(' ').unwrap_or((rest, ""));
    let (Some(path), Some(arguments)) = (path_of(alloc, path)?, arguments_of(alloc, arguments)?)
    else {
        return Ok(None);
    };
    Ok(Some(Step {
        rule,
        is_reverse,
        path,
        arguments,
    }))
}

/// The steps of a text, with a comma between two, if they are some.
pub fn steps_of(
    alloc: Global,
    text: &str,
) -> Result<Option<Vec<Step<Global>, Global>>, AllocError> {
    let mut steps = Vec::new(alloc);
    if text.is_empty() {
        return Ok(Some(steps));
    }
    for word in text.split(", ") {
        match step_of(alloc, word)? {
            Some(step) => steps.push(step)?,
            None => return Ok(None),
        }
    }
    Ok(Some(steps))
}

/// The step of a text, so many times.
pub fn repeated(
    alloc: Global,
    text: &str,
    times: u64,
) -> Result<Option<Vec<Step<Global>, Global>>, AllocError> {
    let mut steps = Vec::new(alloc);
    for _ in 0..times {
        match step_of(alloc, text)? {
            Some(step) => steps.push(step)?,
            None => return Ok(None),
        }
    }
    Ok(Some(steps))
}
