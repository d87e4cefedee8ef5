//! Operators, from tokens.

ghost use Rattle.row_grammar.specs.Limits.{reads};
ghost use Rattle.row_tokens.specs.View.{word_of, words_of};
ghost use Rattle.row_reader.specs.Expressions as rules;
ghost use Rattle.row_reader.specs.Expressions.{grammar};
ghost use Rattle.row_reader.specs.Reading.{Parses};

use crate::reader::{Class, Parsed, Reader, expect_any, expect_as, placed, sees};
use memory::Heap;
use row_tokens::{Token, TokenKind};
use value::{Aggregate, Arithmetic, Comparison};

/// `*`, `/` or `%`, and its offset.
#[tactic(auto, unfolding(crate::specs::Expressions::multiplication))]
pub fn multiplication<'t, A: Heap>(
    reader: Reader<A>,
    tokens: &'t [Token<'t>],
) -> Parsed<'t, (u32, Arithmetic)>
    ensures { Parses (λ t. t) rules.multiplication reader tokens.now result }
{
    if sees(TokenKind::Star, tokens) {
        placed(TokenKind::Star, Arithmetic::Multiply, tokens)
    } else if sees(TokenKind::Slash, tokens) {
        placed(TokenKind::Slash, Arithmetic::Divide, tokens)
    } else {
        placed(TokenKind::Percent, Arithmetic::Remainder, tokens)
    }
}

/// `+` or `-`, and its offset.
#[tactic(auto, unfolding(crate::specs::Expressions::addition))]
pub fn addition<'t, A: Heap>(
    reader: Reader<A>,
    tokens: &'t [Token<'t>],
) -> Parsed<'t, (u32, Arithmetic)>
    ensures { Parses (λ t. t) rules.addition reader tokens.now result }
{
    if sees(TokenKind::Plus, tokens) {
        placed(TokenKind::Plus, Arithmetic::Add, tokens)
    } else {
        let (word, rest) = expect_any(Class::Sign, tokens)?;
        Ok(((word.offset, Arithmetic::Subtract), rest))
    }
}

/// `=` or the like, and its offset.
#[tactic(auto, unfolding(crate::specs::Expressions::comparison_sign))]
pub fn comparison_sign<'t, A: Heap>(
    reader: Reader<A>,
    tokens: &'t [Token<'t>],
) -> Parsed<'t, (u32, Comparison)>
    ensures { Parses (λ t. t) rules.comparison_sign reader tokens.now result }
{
    if sees(TokenKind::Equal, tokens) {
        placed(TokenKind::Equal, Comparison::Equal, tokens)
    } else if sees(TokenKind::NotEqual, tokens) {
        placed(TokenKind::NotEqual, Comparison::NotEqual, tokens)
    } else if sees(TokenKind::Less, tokens) {
        placed(TokenKind::Less, Comparison::Less, tokens)
    } else if sees(TokenKind::LessEqual, tokens) {
        placed(TokenKind::LessEqual, Comparison::LessOrEqual, tokens)
    } else if sees(TokenKind::Greater, tokens) {
        placed(TokenKind::Greater, Comparison::Greater, tokens)
    } else {
        placed(TokenKind::GreaterEqual, Comparison::GreaterOrEqual, tokens)
    }
}

/// `sum`, `min` or `max`.
#[tactic(auto, unfolding(crate::specs::Expressions::aggregate_name))]
pub fn aggregate_name<'t, A: Heap>(
    reader: Reader<A>,
    tokens: &'t [Token<'t>],
) -> Parsed<'t, (Token<'t>, Aggregate)>
    ensures { Parses (λ t. (word_of t.0, t.1)) rules.aggregate_name reader tokens.now result }
{
    if sees(TokenKind::Sum, tokens) {
        expect_as(TokenKind::Sum, Aggregate::Sum, tokens)
    } else if sees(TokenKind::Min, tokens) {
        expect_as(TokenKind::Min, Aggregate::Min, tokens)
    } else {
        expect_as(TokenKind::Max, Aggregate::Max, tokens)
    }
}
