//! Rows of tables as lines, with ` | ` between two fields, and texts with a part that stands many times: `~` stands for an LF, a part in
//! braces for many of it, and `#` in such a part for their numbers, from 0.

use std::alloc::{AllocError, Global};
use std::process::Abort;
use std::str::FromStr;

/// The first three fields of a line, and the rest of it; empty where there are fewer.
pub fn fields(line: &str) -> ([&str; 3], &str) {
    let (first, rest) = line.split_once(" | ").unwrap_or((line, ""));
    let (second, rest) = rest.split_once(" | ").unwrap_or((rest, ""));
    let (third, rest) = rest.split_once(" | ").unwrap_or((rest, ""));
    ([first, second, third], rest)
}

// Adds a text, with an LF for each `~`.
fn push_lines(out: &mut String, text: &str) -> Result<(), AllocError> {
    for (i, line) in text.split('~').enumerate() {
        if i > 0 {
            out.push('\n')?;
        }
        out.push_str(line)?;
    }
    Ok(())
}

// Adds a text many times, with its number, from 0, in place of each `#`.
fn push_numbered(out: &mut String, text: &str, many: usize) -> Result<(), AllocError> {
    for number in 0..many {
        for (i, part) in text.split('#').enumerate() {
            if i > 0 {
                write!(out, "{number}")?;
            }
            out.push_str(part)?;
        }
    }
    Ok(())
}

fn push_times(out: &mut String, text: &str, many: usize) -> Result<(), AllocError> {
    for _ in 0..many {
        out.push_str(text)?;
    }
    Ok(())
}

// Adds a part many times.
fn push_part(alloc: Global, out: &mut String, part: &str, many: usize) -> Result<(), AllocError> {
    let mut text = String::new(alloc);
    push_lines(&mut text, part)?;
    if part.contains('#') {
        push_numbered(out, text.as_str(), many)
    } else {
        push_times(out, text.as_str(), many)
    }
}

/// The text of a field, with its parts in braces so many times.
pub fn expanded(alloc: Global, text: &str, many: usize) -> Result<String, AllocError> {
    let mut out = String::new(alloc);
    let (start, others) = text.split_once('{').unwrap_or((text, ""));
    push_lines(&mut out, start)?;
    for other in others.split('{') {
        let (part, rest) = other.split_once('}').unwrap_or(("", other));
        push_part(alloc, &mut out, part, many)?;
        push_lines(&mut out, rest)?;
    }
    Ok(out)
}

/// The number of a field.
pub fn number<N: FromStr + Drop>(rt: &impl Abort, text: &str) -> N {
    match text.parse::<N>() {
        Ok(number) => number,
        Err(_) => panic!(rt; "{text}: no number"),
    }
}
