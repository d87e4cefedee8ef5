//! Literals, from tokens.

ghost use Rattle.std.specs.Prelude.{◌≡◌, pos, neg_ℤ, map, IfOk};
ghost use Rattle.row_grammar.specs.Limits.{reads};
ghost use Rattle.row_tokens.specs.View.{words_of};
ghost use Rattle.row_tokens.specs.Tokens.{quoted_value};
ghost use Rattle.row_reader.specs.Expressions as rules;
ghost use Rattle.row_reader.specs.Expressions.{grammar, number_of};
ghost use Rattle.row_reader.specs.Reading.{Parses};
ghost use Rattle.value.specs.Datum.{Datum, int, text, datum};

use crate::comma_list::comma_list;
use crate::reader::{
    Class, Parsed, Parser, Reader, expect, expect_any, placed, sees, sees_any, unplaced, with_rest,
};
use memory::{Heap, Items};
use row_tokens::{Token, TokenKind, unquoted};
use std::alloc::AllocError;
use value::Value;

// The number; no token is a greater one.
fn positive(number: u64) -> i64
    ensures { int result ≡ number_of (pos number) }
{
    i64::try_from(number).unwrap_or(0)
}

// The number after a minus; no token is a greater one.
fn negative(number: u64) -> i64
    ensures { int result ≡ number_of (neg_ℤ (pos number)) }
{
    0i64.checked_sub_unsigned(number).unwrap_or(0)
}

// `TRUE`, `FALSE` or `NULL`.
#[tactic(auto, unfolding(crate::specs::Expressions::word_literal))]
fn word_literal<'t, A: Heap>(
    reader: Reader<A>,
    tokens: &'t [Token<'t>],
) -> Parsed<'t, (u32, Value<A>)>
    ensures { Parses (λ t. (t.0, datum t.1)) rules.word_literal reader tokens.now result }
{
    if sees(TokenKind::True, tokens) {
        placed(TokenKind::True, Value::Bool(true), tokens)
    } else if sees(TokenKind::False, tokens) {
        placed(TokenKind::False, Value::Bool(false), tokens)
    } else {
        placed(TokenKind::Null, Value::Null, tokens)
    }
}

// The value of a string literal, and its offset.
fn quoted<A: Heap>(alloc: A, word: &Token<'_>) -> Result<(u32, Value<A>), AllocError>
    ensures { IfOk result (λ t. (t.0 ≡ word.now.offset) × (datum t.1 ≡ text (quoted_value word.now.text.now))) }
{
    let value = unquoted(alloc, word.text)?;
    Ok((word.offset, Value::Text(value)))
}

// A number, a string literal, or one of these words, and its offset.
#[tactic(auto, unfolding(crate::specs::Expressions::unsigned_literal))]
fn unsigned_literal<'t, A: Heap>(
    reader: Reader<A>,
    tokens: &'t [Token<'t>],
) -> Parsed<'t, (u32, Value<A>)>
    ensures { Parses (λ t. (t.0, datum t.1)) rules.unsigned_literal reader tokens.now result }
{
    if sees(TokenKind::Number, tokens) {
        let (word, rest) = expect(TokenKind::Number, tokens)?;
        Ok(((word.offset, Value::Int(positive(word.number))), rest))
    } else if sees(TokenKind::Quoted, tokens) {
        let (word, rest) = expect(TokenKind::Quoted, tokens)?;
        with_rest(quoted(reader.alloc, &word), rest)
    } else {
        word_literal(reader, tokens)
    }
}

/// A literal in an expression, and its offset.
#[tactic(auto, unfolding(crate::specs::Expressions::literal))]
pub fn literal<'t, A: Heap>(
    reader: Reader<A>,
    tokens: &'t [Token<'t>],
) -> Parsed<'t, (u32, Value<A>)>
    ensures { Parses (λ t. (t.0, datum t.1)) rules.literal reader tokens.now result }
{
    if sees(TokenKind::SignedMinus, tokens) {
        let (sign, rest) = expect(TokenKind::SignedMinus, tokens)?;
        let (word, rest) = expect_any(Class::Magnitude, rest)?;
        Ok(((sign.offset, Value::Int(negative(word.number))), rest))
    } else {
        unsigned_literal(reader, tokens)
    }
}

// A literal in a list of literals.
#[tactic(auto, unfolding(crate::specs::Expressions::value))]
fn value<'t, A: Heap>(reader: Reader<A>, tokens: &'t [Token<'t>]) -> Parsed<'t, Value<A>>
    ensures { Parses (λ t. datum t) rules.value reader tokens.now result }
{
    if sees_any(Class::Sign, tokens) {
        let (_, rest) = expect_any(Class::Sign, tokens)?;
        let (word, rest) = expect_any(Class::Magnitude, rest)?;
        Ok((Value::Int(negative(word.number)), rest))
    } else {
        unplaced(unsigned_literal(reader, tokens))
    }
}

// The parser of a literal in a list of literals.
struct ValueParser;

impl<A: Heap> Parser<A> for ValueParser {
    type Tree = Value<A>;

    ghost Spec = { Datum };

    ghost view = { λ v. datum v };

    ghost rule = { rules.value };

    fn parse<'t>(reader: Reader<A>, tokens: &'t [Token<'t>]) -> Parsed<'t, Value<A>>
        ensures { Parses (λ v. datum v) rules.value reader tokens.now result }
    {
        value(reader, tokens)
    }
}

/// `literal {, literal}`.
#[tactic(auto, unfolding(crate::specs::Expressions::value_list))]
pub fn value_list<'t, A: Heap>(
    reader: Reader<A>,
    tokens: &'t [Token<'t>],
) -> Parsed<'t, Items<Value<A>, A>>
    ensures { Parses (λ t. map (λ v. datum v) t) rules.value_list reader tokens.now result }
{
    comma_list::<A, ValueParser>(reader, tokens)
}
