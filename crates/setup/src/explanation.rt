//! The diagnostics of a text that is refused or denied.

ghost use Rattle.std.specs.Prelude.{◌≡◌, ◌≢◌, IfOk};
ghost use Rattle.output.specs.Taken.{one_more};
ghost use Rattle.setup.specs.Explanation.{IsBegun, IsExplained, explanation};

use crate::arguments::Arguments;
use diagnostics::hint;
use engine::{Store, refusal};
use memory::Heap;
use output::{Out, write_whole};
use std::alloc::AllocError;

fn hint_for<A: Heap>(
    alloc: A,
    store: &Store<A>,
    arguments: &Arguments<'_>,
) -> Result<Vec<u8, A>, AllocError>
    ensures { IfOk result (λ lines. lines.items ≡ explanation store.now.catalog arguments.now.role.now arguments.now.text.now) }
{
    match refusal(alloc, store.catalog(), arguments.role, arguments.text)? {
        Some(reply) => hint(alloc, arguments.text, &reply),
        None => Ok(Vec::new(alloc)),
    }
}

/// Writes the diagnostics of the refusal or the denial of the arguments' text; nothing for a text that is answered or
/// faults. They depend on catalogue, role and text alone: no row is read. Where memory runs out the line of that is
/// written; a writer that fails is not reported.
pub fn explain_refusal<A: Heap, W: Out>(
    alloc: A,
    store: &Store<A>,
    arguments: &Arguments<'_>,
    out: &mut W,
)
    ensures explained { W.failures out.new ≡ W.failures out.old → IsExplained (W.taken out.old) (W.taken out.new) (explanation store.now.catalog arguments.now.role.now arguments.now.text.now) }
    // The writer failed in this call, and a beginning of it went out.
    ensures failed { W.failures out.new ≢ W.failures out.old → W.failures out.new ≡ one_more (W.failures out.old) }
    ensures beginning { W.failures out.new ≢ W.failures out.old → IsBegun (W.taken out.old) (W.taken out.new) (explanation store.now.catalog arguments.now.role.now arguments.now.text.now) }
{
    let _ = match hint_for(alloc, store, arguments) {
        Ok(lines) => write_whole(out, &lines),
        Err(_) => write_whole(out, b"memory\n".as_slice()),
    };
}
