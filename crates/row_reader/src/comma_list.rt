//! Lists with commas between their items.

ghost use Rattle.std.specs.Prelude.{map};
ghost use Rattle.row_grammar.specs.Limits.{reads};
ghost use Rattle.row_tokens.specs.declared.token.TokenKind.TheVariants as k;
ghost use Rattle.row_tokens.specs.View.{words_of};
ghost use Rattle.row_reader.specs.Expressions.{grammar};
ghost use Rattle.row_reader.specs.Language.{after, comma_list, is};
ghost use Rattle.row_reader.specs.Reading.{Parses};

use crate::reader::{Parsed, Parser, Reader, expect, sees};
use memory::{Heap, Items};
use row_tokens::{Token, TokenKind};

// `, item`.
fn next_item<'t, A: Heap, I: Parser<A>>(
    reader: Reader<A>,
    tokens: &'t [Token<'t>],
) -> Parsed<'t, I::Tree>
    ensures { Parses I.view (after (is k.Comma) I.rule) reader tokens.now result }
{
    let (_, rest) = expect(TokenKind::Comma, tokens)?;
    I::parse(reader, rest)
}

/// `item {, item}`.
pub fn comma_list<'t, A: Heap, I: Parser<A>>(
    reader: Reader<A>,
    tokens: &'t [Token<'t>],
) -> Parsed<'t, Items<I::Tree, A>>
    ensures { Parses (λ t. map I.view t) (comma_list I.rule) reader tokens.now result }
{
    let (first, mut rest) = I::parse(reader, tokens)?;
    let mut all = Items::new(reader.alloc);
    all.push(first)?;
    let most = rest.len();
    for _ in 0..most {
        if !sees(TokenKind::Comma, rest) {
            return Ok((all, rest));
        }
        let (next, after) = next_item::<A, I>(reader, rest)?;
        all.push(next)?;
        rest = after;
    }
    Ok((all, rest))
}
