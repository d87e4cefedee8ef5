//! Whole scripts.

use crate::line::{ScriptLine, read_line};
use memory::{Heap, Items};
use std::alloc::AllocError;

/// A script: its lines up to the first that is none, and the number of that one.
#[derive(Drop)]
pub struct Script<A: Heap> {
    /// Its lines, in order.
    pub lines: Items<ScriptLine<A>, A>,
    /// The number, from 1, of the first line that is no event and no load; an empty one is neither.
    pub unread: Option<u64>,
}

/// A line without the LF that ends it.
pub fn without_end(line: &str) -> &str {
    line.strip_suffix('\n').unwrap_or(line)
}

/// Reads a script, whose lines end in LF; the last one may end with the script. By tests alone (crates/accept_hostile); the contract
/// of a line is that of `read_line`.
pub fn read_script<A: Heap>(alloc: A, text: &str) -> Result<Script<A>, AllocError> {
    let mut lines = Items::new(alloc);
    let mut number = 0_u64;
    for line in text.split_inclusive('\n') {
        number = number.saturating_add(1);
        match read_line(alloc, without_end(line))? {
            Some(read) => lines.push(read)?,
            None => {
                return Ok(Script {
                    lines,
                    unread: Some(number),
                });
            }
        }
    }
    Ok(Script {
        lines,
        unread: None,
    })
}
