//! Combinations as texts.

use std::alloc::{AllocError, Global};
use tuples::{Combo, Slot};

fn push_slot(text: &mut String, slot: Slot) -> Result<(), AllocError> {
    match slot {
        Slot::Row(number) => write!(text, "{number}"),
        Slot::NullRow => text.push_str("null"),
        Slot::Absent => text.push_str("-"),
    }
}

// The numbers of the rows of so many entries.
fn text_of(
    alloc: Global,
    combination: &Combo<Global>,
    entries: usize,
) -> Result<String, AllocError> {
    let mut text = String::new(alloc);
    for entry in 0..entries {
        if entry > 0 {
            text.push_str(".")?;
        }
        push_slot(&mut text, combination.row(entry))?;
    }
    Ok(text)
}

fn texts_of(
    alloc: Global,
    combinations: &[Combo<Global>],
    entries: usize,
) -> Result<Vec<String, Global>, AllocError> {
    let mut texts = Vec::new(alloc);
    for combination in combinations {
        texts.push(text_of(alloc, combination, entries)?)?;
    }
    Ok(texts)
}

fn joined(alloc: Global, texts: &[String]) -> Result<String, AllocError> {
    let mut all = String::new(alloc);
    for (i, text) in texts.iter().enumerate() {
        if i > 0 {
            all.push_str(" ")?;
        }
        all.push_str(text.as_str())?;
    }
    Ok(all)
}

/// The combinations as a row has them: in order, or sorted where it has braces.
pub fn shown(
    alloc: Global,
    combinations: &[Combo<Global>],
    entries: usize,
    want: &str,
) -> Result<String, AllocError> {
    let mut texts = texts_of(alloc, combinations, entries)?;
    if !want.starts_with('{') {
        return joined(alloc, &texts);
    }
    texts.sort_unstable_by(|one, other| one.as_str().cmp(other.as_str()));
    let all = joined(alloc, &texts)?;
    format!(in alloc; "{{{}}}", all.as_str())
}
