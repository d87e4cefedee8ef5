//! The diagnostics of a statement that is refused.

ghost use Rattle.std.specs.Prelude.{◌≡◌, IfOk};
ghost use Rattle.memory.specs.Gives.{Gives};
ghost use Rattle.row_tokens.specs.View.{words_of};
ghost use Rattle.row_tokens.specs.Errors.{tokens_of};
ghost use Rattle.diagnostics.specs.Statements as spec;
ghost use Rattle.diagnostics.specs.Statements.{is_semicolon, offset_among, statement_offset};

use crate::diagnosing::hint;
use memory::{Failure, Heap};
use replies::Reply;
use row_tokens::{Token, TokenKind, tokenize};
use std::alloc::AllocError;
use value::Refusal;

fn is_semicolon(kind: TokenKind) -> bool
    ensures { result ≡ is_semicolon kind }
{
    matches!(kind, TokenKind::Semicolon)
}

// The offset of the statement of a number among those of the tokens.
fn offset_among(tokens: &[Token<'_>], number: usize) -> Option<u32>
    ensures { result ≡ offset_among number (words_of tokens.now) }
{
    let mut left = number;
    for token in tokens {
        if left == 1 {
            return Some(token.offset);
        }
        if is_semicolon(token.kind) {
            left = left.saturating_sub(1);
        }
    }
    None
}

fn statement_offset<A: Heap>(alloc: A, text: &str, number: usize) -> Result<Option<u32>, AllocError>
    ensures { IfOk result (λ offset. offset ≡ statement_offset text.now number) }
{
    match tokenize(alloc, text) {
        Ok(tokens) => Ok(offset_among(&tokens, number)),
        Err(Failure::Error(_)) => Ok(None),
        Err(Failure::OutOfMemory) => Err(AllocError),
    }
}

/// The diagnostics of the statement of a number, from 1, that is refused in a schema text: the meaning of the code, the
/// line on which the statement begins, and a caret below its first byte.
pub fn statement_hint<A: Heap>(
    alloc: A,
    text: &str,
    number: usize,
    code: Refusal,
) -> Result<Vec<u8, A>, AllocError>
    ensures { IfOk result (λ lines. lines.items ≡ spec.statement_hint text.now number code) }
{
    let offset = statement_offset(alloc, text, number)?;
    hint(alloc, text, &Reply::Refused { code, offset })
}
