//! Parts written at the end of a text.

ghost use Rattle.std.specs.Prelude.{◌≡◌, ◌++◌, OnOk};
ghost use Rattle.std.specs.Fmt.{decimal};

use crate::heap::Heap;
use itoa::Buffer;
use std::alloc::AllocError;

/// Adds a text.
pub fn push_str<A: Heap>(out: &mut Vec<u8, A>, text: &str) -> Result<(), AllocError>
    ensures { OnOk result (out.new.items ≡ out.old.items ++ text.now) }
{
    out.extend_from_slice(text.as_bytes())
}

/// Adds a number in decimal.
pub fn push_number<A: Heap>(out: &mut Vec<u8, A>, n: u64) -> Result<(), AllocError>
    ensures { OnOk result (out.new.items ≡ out.old.items ++ decimal n) }
{
    let mut buffer = Buffer::new();
    push_str(out, buffer.format(n))
}
