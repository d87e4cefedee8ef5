//! The tokens of a text.

ghost use Rattle.std.specs.Prelude.{◌≡◌, ◌<◌, ◌≤◌, ◌^◌, length, Err, IfOk};
ghost use Rattle.memory.specs.Gives.{Gives};
ghost use Rattle.row_tokens.specs.Errors.{tokens_of};
ghost use Rattle.row_tokens.specs.View.{words_of};
ghost use Rattle.row_tokens.specs.Tokens.{is_bad, words};
ghost use Rattle.row_tokens.specs.WithoutOffsets.{words_without_offsets};

use crate::error::TokenError;
use crate::lexeme::{first_lexeme, is_space};
use crate::token::{Token, TokenKind};
use memory::{Failure, Heap};
use std::alloc::AllocError;

// The most bytes of which each has an offset of 32 bits.
const LONGEST: usize = u32::MAX as usize;

/// The tokens of a text, in order; a bad token is the last. The one error is out of memory.
pub fn scan<'a, A: Heap>(alloc: A, text: &'a str) -> Result<Vec<Token<'a>, A>, AllocError>
    requires { length text.now < 2 ^ 32 }
    ensures { IfOk result (λ v. words_of v.items ≡ words text.now) }
{
    let mut tokens = Vec::new(alloc);
    let mut rest = text;
    let mut offset = 0;
    while let Some(byte) = rest.as_bytes().first() {
        if is_space(*byte) {
            rest = &rest[1..];
            offset += 1;
            continue;
        }
        let lexeme = first_lexeme(rest);
        let (text, after) = rest.split_at(lexeme.size);
        tokens.push(Token {
            kind: lexeme.kind,
            text,
            number: lexeme.number,
            offset,
        })?;
        if lexeme.size == 0 {
            return Ok(tokens);
        }
        rest = after;
        offset += lexeme.size as u32;
    }
    Ok(tokens)
}

/// The tokens of a text of any length, in order and without their offsets; a bad token is the last. The one error is out of
/// memory.
pub fn scan_without_offsets<'a, A: Heap>(
    alloc: A,
    text: &'a str,
) -> Result<Vec<Token<'a>, A>, AllocError>
    ensures { IfOk result (λ v. words_of v.items ≡ words_without_offsets text.now) }
{
    let mut tokens = Vec::new(alloc);
    let mut rest = text;
    while let Some(byte) = rest.as_bytes().first() {
        if is_space(*byte) {
            rest = &rest[1..];
            continue;
        }
        let lexeme = first_lexeme(rest);
        let (text, after) = rest.split_at(lexeme.size);
        tokens.push(Token {
            kind: lexeme.kind,
            text,
            number: lexeme.number,
            offset: 0,
        })?;
        if lexeme.size == 0 {
            return Ok(tokens);
        }
        rest = after;
    }
    Ok(tokens)
}

// True for the kind of bytes that are no token.
fn is_bad(kind: TokenKind) -> bool
    ensures { result ≡ is_bad kind }
{
    matches!(kind, TokenKind::Bad)
}

/// The tokens of a text, in order, if none is bad; else the offset of the first bad one.
pub fn tokenize<'a, A: Heap>(
    alloc: A,
    text: &'a str,
) -> Result<Vec<Token<'a>, A>, Failure<TokenError>>
    ensures tokens { Gives (λ v. words_of v.items) result (tokens_of text.now) }
    // A text that is too long takes no memory.
    ensures too_long { 2 ^ 32 ≤ length text.now → result ≡ Err (Failure.Error TokenError.TooLong) }
{
    if text.len() > LONGEST {
        return Err(Failure::Error(TokenError::TooLong));
    }
    let tokens = scan(alloc, text)?;
    match tokens.as_slice().last() {
        Some(token) if is_bad(token.kind) => Err(Failure::Error(TokenError::Bad {
            offset: token.offset,
        })),
        _ => Ok(tokens),
    }
}
