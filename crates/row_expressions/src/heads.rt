//! Heads of operands.

ghost use Rattle.row_grammar.specs.Grammar.{made};
ghost use Rattle.row_grammar.specs.Limits.{reads};
ghost use Rattle.row_reader.specs.Expressions as rules;
ghost use Rattle.row_reader.specs.Expressions.{grammar};
ghost use Rattle.row_reader.specs.Language.{inside};
ghost use Rattle.row_tokens.specs.View.{word_of, words_of};
ghost use Rattle.row_expressions.specs.GoesOn.{GoesOn};
ghost use Rattle.row_expressions.specs.View.{located};
ghost use Rattle.row_expressions.specs.Heads.{HasLevel, LeadsTo, minus_rule, opened_step, operand_rest};

use crate::build::{CallSuffix, Located};
use crate::ends::{argument, called_with, cast_to, counted_call};
use crate::leaves::{constant, dotted, plain_column};
use memory::Heap;
use row_reader::operators::aggregate_name;
use row_reader::reader::{
    Class, Parsed, Reader, before, closed, expect, meant, open, sees, sees_any, unplaced,
};
use row_tokens::{Token, TokenKind};
use value::Aggregate;

/// The start of a parenthesis before an expression, by its offset.
#[derive(Clone, Copy)]
pub enum Opened<'t> {
    /// `(`.
    Parenthesis(u32),
    /// `CAST (`.
    Cast(u32),
    /// `f (`.
    Call(Token<'t>, Aggregate),
}

/// The head of an operand: its tokens up to the first expression in it.
#[derive(Drop)]
pub enum Head<'t, A: Heap> {
    /// An operand that contains no expression, whole.
    Whole(Located<A>),
    /// A minus, by its offset.
    Minus(u32),
    /// `CASE`, by its offset.
    Case(u32),
    /// A parenthesis before an expression.
    Opened(Opened<'t>),
}

// `-`.
fn minus<'t, A: Heap>(reader: Reader<A>, tokens: &'t [Token<'t>]) -> Parsed<'t, Head<'t, A>>
    ensures leads { LeadsTo (operand_rest reader.run_limit reader.depth_limit) result (reads grammar reader.run_limit reader.depth_limit minus_rule (words_of tokens.now)) }
    ensures level { HasLevel reader.depth_limit result }
{
    let (sign, rest) = open(TokenKind::Minus, reader.depth_limit, tokens)?;
    Ok((Head::Minus(sign.offset), rest))
}

// `(`.
#[tactic(auto, unfolding(row_reader::specs::Expressions::parenthesized))]
fn parenthesis<'t, A: Heap>(reader: Reader<A>, tokens: &'t [Token<'t>]) -> Parsed<'t, Head<'t, A>>
    ensures leads { LeadsTo (operand_rest reader.run_limit reader.depth_limit) result (reads grammar reader.run_limit reader.depth_limit rules.parenthesized (words_of tokens.now)) }
    ensures level { HasLevel reader.depth_limit result }
{
    let (sign, rest) = open(TokenKind::Open, reader.depth_limit, tokens)?;
    Ok((Head::Opened(Opened::Parenthesis(sign.offset)), rest))
}

// `CAST (`.
#[tactic(auto, unfolding(row_reader::specs::Expressions::cast))]
fn cast<'t, A: Heap>(reader: Reader<A>, tokens: &'t [Token<'t>]) -> Parsed<'t, Head<'t, A>>
    ensures leads { LeadsTo (operand_rest reader.run_limit reader.depth_limit) result (reads grammar reader.run_limit reader.depth_limit rules.cast (words_of tokens.now)) }
    ensures level { HasLevel reader.depth_limit result }
{
    let (word, rest) = expect(TokenKind::Cast, tokens)?;
    let (_, rest) = open(TokenKind::Open, reader.depth_limit, rest)?;
    Ok((Head::Opened(Opened::Cast(word.offset)), rest))
}

// `CASE`.
#[tactic(auto, unfolding(row_reader::specs::Expressions::case))]
fn case<'t, A: Heap>(reader: Reader<A>, tokens: &'t [Token<'t>]) -> Parsed<'t, Head<'t, A>>
    ensures leads { LeadsTo (operand_rest reader.run_limit reader.depth_limit) result (reads grammar reader.run_limit reader.depth_limit rules.case (words_of tokens.now)) }
    ensures level { HasLevel reader.depth_limit result }
{
    let (word, rest) = open(TokenKind::Case, reader.depth_limit, tokens)?;
    Ok((Head::Case(word.offset), rest))
}

// A column whose first word is no function's name.
fn column<'t, A: Heap>(reader: Reader<A>, tokens: &'t [Token<'t>]) -> Parsed<'t, Head<'t, A>>
    ensures leads { LeadsTo (operand_rest reader.run_limit reader.depth_limit) result (reads grammar reader.run_limit reader.depth_limit rules.plain_column (words_of tokens.now)) }
    ensures level { HasLevel reader.depth_limit result }
{
    let (column, rest) = plain_column(reader, tokens)?;
    Ok((Head::Whole(column), rest))
}

// `CURRENT_USER` or a literal.
fn literal<'t, A: Heap>(reader: Reader<A>, tokens: &'t [Token<'t>]) -> Parsed<'t, Head<'t, A>>
    ensures leads { LeadsTo (operand_rest reader.run_limit reader.depth_limit) result (reads grammar reader.run_limit reader.depth_limit rules.constant (words_of tokens.now)) }
    ensures level { HasLevel reader.depth_limit result }
{
    let (constant, rest) = constant(reader, tokens)?;
    Ok((Head::Whole(constant), rest))
}

// `( * )`, or `(` before an argument.
#[tactic(auto, unfolding(row_reader::specs::Expressions::counted_rows))]
fn counted<'t, A: Heap>(
    reader: Reader<A>,
    word: Token<'t>,
    tokens: &'t [Token<'t>],
) -> Parsed<'t, Head<'t, A>>
    ensures leads { LeadsTo (operand_rest reader.run_limit reader.depth_limit) result (reads grammar reader.run_limit reader.depth_limit (made (λ s. (word.entry.offset, rules.counted (word_of word.entry) s)) (inside rules.counted_rows)) (words_of tokens.now)) }
    ensures level { HasLevel reader.depth_limit result }
{
    let (_, rest) = open(TokenKind::Open, reader.depth_limit, tokens)?;
    if sees(TokenKind::Star, rest) {
        let star = closed(meant(TokenKind::Star, CallSuffix::Star, rest));
        let (rows, rest) = counted_call(reader.alloc, &word, star)?;
        return Ok((Head::Whole(rows), rest));
    }
    Ok((Head::Opened(Opened::Call(word, Aggregate::Count)), rest))
}

// `count` and its suffix, up to an argument.
#[tactic(auto, unfolding(row_reader::specs::Expressions::count, row_reader::specs::Expressions::count_tail))]
fn count<'t, A: Heap>(reader: Reader<A>, tokens: &'t [Token<'t>]) -> Parsed<'t, Head<'t, A>>
    ensures leads { LeadsTo (operand_rest reader.run_limit reader.depth_limit) result (reads grammar reader.run_limit reader.depth_limit rules.count (words_of tokens.now)) }
    ensures level { HasLevel reader.depth_limit result }
{
    let (word, rest) = expect(TokenKind::Count, tokens)?;
    if sees(TokenKind::Open, rest) {
        return counted(reader, word, rest);
    }
    let (column, rest) = counted_call(reader.alloc, &word, dotted(reader, rest))?;
    Ok((Head::Whole(column), rest))
}

// Another function's name and its suffix, up to an argument.
#[tactic(auto, unfolding(row_reader::specs::Expressions::aggregate, row_reader::specs::Expressions::aggregate_tail))]
fn aggregate<'t, A: Heap>(reader: Reader<A>, tokens: &'t [Token<'t>]) -> Parsed<'t, Head<'t, A>>
    ensures leads { LeadsTo (operand_rest reader.run_limit reader.depth_limit) result (reads grammar reader.run_limit reader.depth_limit rules.aggregate (words_of tokens.now)) }
    ensures level { HasLevel reader.depth_limit result }
{
    let ((word, name), rest) = aggregate_name(reader, tokens)?;
    if !sees(TokenKind::Open, rest) {
        let (column, rest) = called_with(reader.alloc, &word, name, dotted(reader, rest))?;
        return Ok((Head::Whole(column), rest));
    }
    let (_, rest) = open(TokenKind::Open, reader.depth_limit, rest)?;
    Ok((Head::Opened(Opened::Call(word, name)), rest))
}

/// The head of an operand, `- unary | primary`: whole where the operand contains no expression.
#[tactic(auto, unfolding(row_reader::specs::Expressions::unary, row_reader::specs::Expressions::primary, row_reader::specs::Expressions::parenthesized, row_reader::specs::Expressions::cast, row_reader::specs::Expressions::case, row_reader::specs::Expressions::plain_column, row_reader::specs::Expressions::count, row_reader::specs::Expressions::aggregate, row_reader::specs::Expressions::aggregate_name, row_reader::specs::Language::of))]
pub fn operand_head<'t, A: Heap>(
    reader: Reader<A>,
    tokens: &'t [Token<'t>],
) -> Parsed<'t, Head<'t, A>>
    ensures leads { LeadsTo (operand_rest reader.run_limit reader.depth_limit) result (reads grammar reader.run_limit reader.depth_limit rules.unary (words_of tokens.now)) }
    ensures level { HasLevel reader.depth_limit result }
{
    if sees(TokenKind::Minus, tokens) {
        minus(reader, tokens)
    } else if sees(TokenKind::Open, tokens) {
        parenthesis(reader, tokens)
    } else if sees(TokenKind::Cast, tokens) {
        cast(reader, tokens)
    } else if sees(TokenKind::Case, tokens) {
        case(reader, tokens)
    } else if sees_any(Class::PlainName, tokens) {
        column(reader, tokens)
    } else if sees(TokenKind::Count, tokens) {
        count(reader, tokens)
    } else if sees_any(Class::Aggregate, tokens) {
        aggregate(reader, tokens)
    } else {
        literal(reader, tokens)
    }
}

/// The rest of an opened parenthesis, after the expression in it.
pub fn enclosed<'t, A: Heap>(
    reader: Reader<A>,
    opened: Opened<'t>,
    read: Parsed<'t, Located<A>>,
) -> Parsed<'t, Located<A>>
    ensures { GoesOn (λ t. located t) (opened_step reader.run_limit reader.depth_limit opened.entry) (λ t. located t) read.entry result }
{
    match opened {
        Opened::Parenthesis(offset) => before(offset, closed(unplaced(read))),
        Opened::Cast(offset) => cast_to(reader, offset, read),
        Opened::Call(word, aggregate) => {
            called_with(reader.alloc, &word, aggregate, argument(closed(read)))
        }
    }
}
