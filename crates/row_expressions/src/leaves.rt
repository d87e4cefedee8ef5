//! The parts that hold no expression of their own: literals, columns, and the ends of IS NULL, IN and CAST.

ghost use Rattle.row_reader.specs.Expressions as rules;
ghost use Rattle.row_grammar.specs.Grammar.{made};
ghost use Rattle.row_tokens.specs.declared.token.TokenKind.TheVariants as k;
ghost use Rattle.row_reader.specs.Language.{after, is};
ghost use Rattle.row_reader.specs.Reading.{Parses};
ghost use Rattle.row_expressions.specs.View.{located, range_of, suffix_of};

use crate::build::{CallSuffix, Located, Range, column_expr};
use memory::{Heap, boxed};
use row_ast::Expr;
use row_reader::literals::{literal, value_list};
use row_reader::names::{dot_name, type_name};
use row_reader::reader::{
    Class, Parsed, Reader, before, closed, expect, expect_any, meant, open, sees, starting_at,
};
use row_tokens::{Token, TokenKind};
use value::ColType;

// `[NOT] NULL`, and true with NOT.
#[tactic(auto, unfolding(row_reader::specs::Expressions::null_word))]
fn null_word<'t, A: Heap>(reader: Reader<A>, tokens: &'t [Token<'t>]) -> Parsed<'t, bool>
    ensures { Parses (λ t. t) rules.null_word reader tokens.now result }
{
    if sees(TokenKind::Not, tokens) {
        let (_, rest) = expect(TokenKind::Not, tokens)?;
        meant(TokenKind::Null, true, rest)
    } else {
        meant(TokenKind::Null, false, tokens)
    }
}

/// `IS [NOT] NULL`, and true with NOT.
#[tactic(auto, unfolding(row_reader::specs::Expressions::is_null))]
pub fn is_null<'t, A: Heap>(reader: Reader<A>, tokens: &'t [Token<'t>]) -> Parsed<'t, (u32, bool)>
    ensures { Parses (λ t. t) rules.is_null reader tokens.now result }
{
    let (word, rest) = expect(TokenKind::Is, tokens)?;
    before(word.offset, null_word(reader, rest))
}

/// `CURRENT_USER` or a literal.
#[tactic(auto, unfolding(row_reader::specs::Expressions::constant))]
pub fn constant<'t, A: Heap>(reader: Reader<A>, tokens: &'t [Token<'t>]) -> Parsed<'t, Located<A>>
    ensures { Parses (λ t. located t) rules.constant reader tokens.now result }
{
    if sees(TokenKind::CurrentUser, tokens) {
        let (word, rest) = expect(TokenKind::CurrentUser, tokens)?;
        let value = boxed(reader.alloc, Expr::CurrentUser);
        starting_at(word.offset, value, rest)
    } else {
        let ((start, value), rest) = literal(reader, tokens)?;
        let value = boxed(reader.alloc, Expr::Literal(value));
        starting_at(start, value, rest)
    }
}

/// A column whose first word is no function's name.
#[tactic(auto, unfolding(row_reader::specs::Expressions::plain_column))]
pub fn plain_column<'t, A: Heap>(
    reader: Reader<A>,
    tokens: &'t [Token<'t>],
) -> Parsed<'t, Located<A>>
    ensures { Parses (λ t. located t) rules.plain_column reader tokens.now result }
{
    let (word, rest) = expect_any(Class::PlainName, tokens)?;
    let (name, rest) = dot_name(reader, rest)?;
    let column = column_expr(reader.alloc, &word, name);
    starting_at(word.offset, column, rest)
}

/// `[. name]` after a word that may be a function's name.
pub fn dotted<'t, A: Heap>(reader: Reader<A>, tokens: &'t [Token<'t>]) -> Parsed<'t, CallSuffix<A>>
    ensures { Parses (λ t. suffix_of t) (made (λ n. rules.Dotted n) rules.dot_name) reader tokens.now result }
{
    let (name, rest) = dot_name(reader, tokens)?;
    Ok((CallSuffix::Dotted(name), rest))
}

/// `AS type`.
pub fn as_type<'t, A: Heap>(reader: Reader<A>, tokens: &'t [Token<'t>]) -> Parsed<'t, ColType>
    ensures { Parses (λ t. t) (after (is k.As) rules.type_name) reader tokens.now result }
{
    let (_, rest) = expect(TokenKind::As, tokens)?;
    type_name(reader, rest)
}

/// `IN ( literal {, literal} )`.
#[tactic(auto, unfolding(row_reader::specs::Expressions::in_list))]
pub fn in_list<'t, A: Heap>(reader: Reader<A>, tokens: &'t [Token<'t>]) -> Parsed<'t, Range<A>>
    ensures { Parses (λ t. range_of t) rules.in_list reader tokens.now result }
{
    let (word, rest) = expect(TokenKind::In, tokens)?;
    let (_, rest) = open(TokenKind::Open, reader.depth_limit, rest)?;
    let (values, rest) = closed(value_list(reader, rest))?;
    let offset = word.offset;
    Ok((Range::Values { offset, values }, rest))
}
