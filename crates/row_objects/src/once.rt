//! Names without repetitions.

ghost use Rattle.std.specs.Prelude.{◌≡◌, IfOk, OnOk, option_map};
ghost use Rattle.std.specs.Str.{bytes_eq};
ghost use Rattle.std.specs.List.{list_any};
ghost use Rattle.row_objects.specs.EachOnce.{each_once, with_name};

use memory::{Heap, Items, Text};
use std::alloc::AllocError;

/// True where the name is among the names.
pub fn is_among<A: Heap>(names: &[Text<A>], name: &str) -> bool
    ensures { result ≡ list_any (bytes_eq name.now) names.now }
{
    for other in names {
        if name == other.as_str() {
            return true;
        }
    }
    false
}

fn push_new<A: Heap>(alloc: A, names: &mut Items<Text<A>, A>, name: &str) -> Result<(), AllocError>
    ensures { OnOk result (names.new ≡ with_name names.old name.now) }
{
    if is_among(names.as_slice(), name) {
        return Ok(());
    }
    names.push(Text::new(alloc, name)?)
}

/// A copy of names, each once, in the order in which they come first.
pub fn each_once<A: Heap>(alloc: A, names: &[Text<A>]) -> Result<Items<Text<A>, A>, AllocError>
    ensures { IfOk result (λ once. once ≡ each_once names.now) }
{
    let mut once = Items::new(alloc);
    for name in names {
        push_new(alloc, &mut once, name.as_str())?;
    }
    Ok(once)
}

/// The same of names that may be left out.
pub fn each_once_of<A: Heap>(
    alloc: A,
    names: &Option<Items<Text<A>, A>>,
) -> Result<Option<Items<Text<A>, A>>, AllocError>
    ensures { IfOk result (λ once. once ≡ option_map each_once names.now) }
{
    match names {
        None => Ok(None),
        Some(names) => Ok(Some(each_once(alloc, names.as_slice())?)),
    }
}
