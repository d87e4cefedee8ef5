//! Copies of texts.

ghost use Rattle.std.specs.Prelude.{◌≡◌, IfOk};

use memory::{Heap, Items, Text};
use std::alloc::AllocError;

pub(crate) fn copy_texts<A: Heap>(
    alloc: A,
    texts: &[Text<A>],
) -> Result<Items<Text<A>, A>, AllocError>
    ensures { IfOk result (λ copy. copy ≡ texts.now) }
{
    let mut copy = Items::new(alloc);
    for text in texts {
        copy.push(Text::new(alloc, text.as_str())?)?;
    }
    Ok(copy)
}
