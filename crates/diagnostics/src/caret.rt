//! The line of a text at an offset, and a caret below the offset.

ghost use Rattle.std.specs.Prelude.{◌≡◌, ◌++◌, OnOk, option_to_list};
ghost use Rattle.std.specs.List.{filter_map};
ghost use Rattle.diagnostics.specs.Carets as spec;
ghost use Rattle.diagnostics.specs.Carets.{below, first_line, last_line, caret_lines, up_to};

use memory::{Heap, push_number, push_str};
use std::alloc::AllocError;

// The number of the line after these bytes, from 1.
fn line_number(before: &[u8]) -> usize
    ensures { result ≡ spec.line_number before.now }
{
    let mut number = 1;
    for b in before {
        if *b == b'\n' {
            number += 1;
        }
    }
    number
}

// The bytes after the last end of a line.
#[tactic(auto, using(crate::proofs::LastLine::last_of))]
fn last_line(before: &[u8]) -> &[u8]
    ensures { result.now ≡ last_line before.now }
{
    let mut line = before;
    let mut rest = before;
    while let Some((b, more)) = rest.split_first() {
        rest = more;
        if *b == b'\n' {
            line = more;
        }
    }
    line
}

// Adds the bytes up to the first end of a line.
fn push_first_line<A: Heap>(lines: &mut Vec<u8, A>, rest: &[u8]) -> Result<(), AllocError>
    ensures { OnOk result (lines.new.items ≡ lines.old.items ++ first_line rest.now) }
{
    for b in rest {
        if *b == b'\n' {
            return Ok(());
        }
        lines.push(*b)?;
    }
    Ok(())
}

// Adds the line up to an offset, with its number.
fn push_up_to<A: Heap>(lines: &mut Vec<u8, A>, before: &[u8]) -> Result<(), AllocError>
    ensures { OnOk result (lines.new.items ≡ lines.old.items ++ up_to before.now) }
{
    push_str(lines, "LINE ")?;
    push_number(lines, line_number(before) as u64)?;
    push_str(lines, ": ")?;
    lines.extend_from_slice(last_line(before))
}

fn push_below_byte<A: Heap>(lines: &mut Vec<u8, A>, b: u8) -> Result<(), AllocError>
    ensures { OnOk result (lines.new.items ≡ lines.old.items ++ option_to_list (below b)) }
{
    if b > 127 && b < 192 {
        return Ok(());
    }
    lines.push(if b == b'\t' { b'\t' } else { b' ' })?;
    Ok(())
}

// Adds the white space below bytes.
fn push_below<A: Heap>(lines: &mut Vec<u8, A>, above: &[u8]) -> Result<(), AllocError>
    ensures { OnOk result (lines.new.items ≡ lines.old.items ++ filter_map below above.now) }
{
    for b in above {
        push_below_byte(lines, *b)?;
    }
    Ok(())
}

/// Adds the line of a text at an offset, and a caret below the offset.
pub(crate) fn push_caret<A: Heap>(
    alloc: A,
    lines: &mut Vec<u8, A>,
    text: &[u8],
    offset: usize,
) -> Result<(), AllocError>
    ensures { OnOk result (lines.new.items ≡ lines.old.items ++ caret_lines text.now offset) }
{
    let (before, rest) = text.split_at(offset.min(text.len()));
    let mut above = Vec::new(alloc);
    push_up_to(&mut above, before)?;
    lines.extend_from_slice(&above)?;
    push_first_line(lines, rest)?;
    push_str(lines, "\n")?;
    push_below(lines, &above)?;
    push_str(lines, "^\n")
}
