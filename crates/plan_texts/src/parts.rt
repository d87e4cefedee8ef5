//! The parts of a line.

ghost use Rattle.std.specs.Prelude.{◌≡◌, ◌∷◌, ◌==◌, ◌<◌, length, IfOk, IfSome, option_map};
ghost use Rattle.std.specs.List.{list_all, slice_split};
ghost use Rattle.plan_texts.specs.Reading.{parts, further_parts, cut, path_at, is_branch, branch_of, branches_of};
ghost use Rattle.plan_texts.specs.View.{texts_of, pair_of, two_of};

use memory::{Heap, Items};
use row_terms::Branch;
use std::alloc::AllocError;

// The first part of a line, and the rest after the next space, if there is one.
fn next_part(line: &str) -> (&str, Option<&str>)
    ensures part { parts line.now ≡ result.0.now ∷ further_parts result.1 }
    ensures shorter { IfSome result.1 (λ rest. length rest.now < length line.now) }
{
    match line.split_once(' ') {
        Some((part, rest)) => (part, Some(rest)),
        None => (line, None),
    }
}

/// The parts of a line between its spaces.
pub fn parts_of<'t, A: Heap>(alloc: A, line: &'t str) -> Result<Vec<&'t str, A>, AllocError>
    ensures { IfOk result (λ v. texts_of v.items ≡ parts line.now) }
{
    let mut parts = Vec::new(alloc);
    let mut rest = Some(line);
    while let Some(text) = rest {
        let (part, further) = next_part(text);
        parts.push(part)?;
        rest = further;
    }
    Ok(parts)
}

/// The bytes before the first space, and those after it.
pub fn cut(line: &str) -> Option<(&str, &str)>
    ensures { option_map pair_of result ≡ cut line.now }
{
    line.split_once(' ')
}

/// The two names with a dot between them.
pub fn dotted(name: &str) -> Option<(&str, &str)>
    ensures { option_map pair_of result ≡ two_of (slice_split (λ b. b == 46) name.now) }
{
    match name.split_once('.') {
        Some((alias, column)) => match column.split_once('.') {
            Some(_) => None,
            None => Some((alias, column)),
        },
        None => None,
    }
}

// True for 0 and 1.
fn is_branch(byte: u8) -> bool
    ensures { result ≡ is_branch byte }
{
    byte == b'0' || byte == b'1'
}

// True where every byte is 0 or 1.
fn are_branches(bytes: &[u8]) -> bool
    ensures { result ≡ list_all is_branch bytes.now }
{
    bytes.iter().all(|b| is_branch(*b))
}

// The branch of a digit.
fn branch_of(byte: u8) -> Branch
    ensures { result ≡ branch_of byte }
{
    if byte == b'1' {
        Branch::Second
    } else {
        Branch::First
    }
}

// The branches of digits.
fn branches_of<A: Heap>(alloc: A, bytes: &[u8]) -> Result<Items<Branch, A>, AllocError>
    ensures { IfOk result (λ path. path ≡ branches_of bytes.now) }
{
    let mut path = Items::new(alloc);
    for byte in bytes {
        path.push(branch_of(*byte))?;
    }
    Ok(path)
}

/// The path of a step: a dot for the root, else its digits.
pub fn read_path<A: Heap>(alloc: A, text: &str) -> Result<Option<Items<Branch, A>>, AllocError>
    ensures { IfOk result (λ path. path ≡ path_at text.now) }
{
    let bytes = text.as_bytes();
    if text == "." {
        return Ok(Some(Items::new(alloc)));
    }
    if bytes.is_empty() || !are_branches(bytes) {
        return Ok(None);
    }
    Ok(Some(branches_of(alloc, bytes)?))
}
