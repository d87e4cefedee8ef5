//! The diagnostics of a schema text that is refused.

ghost use Rattle.std.specs.Prelude.{◌≡◌, ◌≢◌, IfOk};
ghost use Rattle.output.specs.Taken.{one_more};
ghost use Rattle.setup.specs.Explanation.{IsBegun, IsExplained, schema_explanation};

use crate::error::SchemaError;
use diagnostics::{hint, statement_hint};
use memory::Heap;
use output::{Out, write_whole};
use replies::Reply;
use std::alloc::AllocError;
use value::Refusal;

fn refusal_hint<A: Heap>(alloc: A, text: &str, error: SchemaError) -> Result<Vec<u8, A>, AllocError>
    ensures { IfOk result (λ lines. lines.items ≡ schema_explanation text.now error) }
{
    match error {
        SchemaError::Syntax { offset } => hint(
            alloc,
            text,
            &Reply::Refused {
                code: Refusal::SyntaxError,
                offset: Some(offset),
            },
        ),
        SchemaError::Limit => hint(
            alloc,
            text,
            &Reply::Refused {
                code: Refusal::ProgramLimitExceeded,
                offset: None,
            },
        ),
        SchemaError::Statement { number, code } => statement_hint(alloc, text, number, code),
    }
}

/// Writes the diagnostics of the error of a schema text: the meaning of its code, and where it has one the line of the
/// text and a caret below the byte, which of a refused statement is its first. Where memory runs out the line of that is
/// written; a writer that fails is not reported.
pub fn explain_schema<A: Heap, W: Out>(alloc: A, text: &str, error: SchemaError, out: &mut W)
    ensures explained { W.failures out.new ≡ W.failures out.old → IsExplained (W.taken out.old) (W.taken out.new) (schema_explanation text.now error) }
    // The writer failed in this call, and a beginning of it went out.
    ensures failed { W.failures out.new ≢ W.failures out.old → W.failures out.new ≡ one_more (W.failures out.old) }
    ensures beginning { W.failures out.new ≢ W.failures out.old → IsBegun (W.taken out.old) (W.taken out.new) (schema_explanation text.now error) }
{
    let _ = match refusal_hint(alloc, text, error) {
        Ok(lines) => write_whole(out, &lines),
        Err(_) => write_whole(out, b"memory\n".as_slice()),
    };
}
