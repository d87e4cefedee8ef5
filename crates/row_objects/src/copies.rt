//! Copies of names that a catalogue keeps.

ghost use Rattle.std.specs.Prelude.{◌≡◌, ◌++◌, IfOk, OnOk};

use memory::{Heap, Items, Text};
use std::alloc::AllocError;

fn push_names<A: Heap>(
    alloc: A,
    list: &mut Items<Text<A>, A>,
    names: &[Text<A>],
) -> Result<(), AllocError>
    ensures { OnOk result (list.new ≡ list.old ++ names.now) }
{
    for name in names {
        list.push(Text::new(alloc, name.as_str())?)?;
    }
    Ok(())
}

/// A copy of names.
pub fn copy_names<A: Heap>(alloc: A, names: &[Text<A>]) -> Result<Items<Text<A>, A>, AllocError>
    ensures { IfOk result (λ copy. copy ≡ names.now) }
{
    let mut copy = Items::new(alloc);
    push_names(alloc, &mut copy, names)?;
    Ok(copy)
}
