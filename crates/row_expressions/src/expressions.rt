//! Expressions, from tokens.

ghost use Rattle.std.specs.Prelude.{◌≡◌, ◌<◌, map, option_map};
ghost use Rattle.memory.specs.Gives.{Gives};
ghost use Rattle.row_grammar.specs.Limits.{deep_at};
ghost use Rattle.row_tokens.specs.View.{word_of, words_of};
ghost use Rattle.row_reader.specs.Expressions as rules;
ghost use Rattle.row_reader.specs.Expressions.{grammar};
ghost use Rattle.row_grammar.specs.Grammar.{inner};
ghost use Rattle.row_reader.specs.Language.{an_expression, after, is};
ghost use Rattle.row_reader.specs.Reading.{Parses};
ghost use Rattle.row_ast.specs.View.{arm_pair};
ghost use Rattle.row_expressions.specs.Levels.{connected_rule, member_rule, next_member_rule, next_rule, operand_rule, run_rule, sign_class};
ghost use Rattle.row_expressions.specs.View.{located, range_of, signed_of, otherwise_of};
ghost use Rattle.row_expressions.specs.Heads.{bounds_rest, case_rest};

use crate::build::{
    Connective, Located, Otherwise, Range, combined, connective_word, extend, joined, members_of,
};
use crate::ends::{
    arm_of, bounds, case_ended, compared, inverted, negated, null_tested, other, with_range,
};
use crate::heads::{Head, enclosed, operand_head};
use crate::ranges::{RangeHead, low_bound, range_head};
use memory::{Failure, Heap, Items};
use row_ast::Arm;
use row_grammar::ReadError;
use row_reader::operators::{addition, comparison_sign, multiplication};
use row_reader::reader::{
    Class, Parsed, Reader, before, expect, next_offset, open, present, sees, sees_any, with_rest,
};
use row_tokens::{Token, TokenKind};
use value::Arithmetic;

/// An expression a level deeper.
#[cycle(expression)]
#[tactic(auto, using(row_grammar::proofs::Steps::deep_is))]
pub fn inner_expression<'t, A: Heap>(
    reader: Reader<A>,
    tokens: &'t [Token<'t>],
) -> Parsed<'t, Located<A>>
    requires { 0 < reader.depth_limit }
    ensures { Gives (λ x. (located x.0, words_of x.1.now)) result (deep_at grammar reader.run_limit reader.depth_limit an_expression (words_of tokens.now)) }
{
    connected(Connective::Or, reader.deeper(), tokens)
}

// The word of this kind and an expression.
#[cycle(expression)]
fn keyed<'t, A: Heap>(
    kind: TokenKind,
    reader: Reader<A>,
    tokens: &'t [Token<'t>],
) -> Parsed<'t, Located<A>>
    requires { 0 < reader.depth_limit }
    ensures { Parses (λ t. located t) (after (is kind) (inner an_expression)) reader tokens.now result }
{
    let (_, rest) = expect(kind, tokens)?;
    inner_expression(reader, rest)
}

// `WHEN expr THEN expr`.
#[cycle(expression)]
#[tactic(auto, unfolding(row_reader::specs::Expressions::arm))]
fn arm<'t, A: Heap>(reader: Reader<A>, tokens: &'t [Token<'t>]) -> Parsed<'t, Arm<A>>
    requires { 0 < reader.depth_limit }
    ensures { Parses (λ t. arm_pair t) rules.arm reader tokens.now result }
{
    let (when, rest) = keyed(TokenKind::When, reader, tokens)?;
    arm_of(when, keyed(TokenKind::Then, reader, rest))
}

// The arms of a CASE.
#[cycle(expression)]
fn arms<'t, A: Heap>(reader: Reader<A>, tokens: &'t [Token<'t>]) -> Parsed<'t, Items<Arm<A>, A>>
    requires { 0 < reader.depth_limit }
    ensures { Parses (λ t. map (λ a. arm_pair a) t) rules.arms reader tokens.now result }
{
    let (first, mut rest) = arm(reader, tokens)?;
    let mut all = Items::new(reader.alloc);
    all.push(first)?;
    let most = rest.len();
    for _ in 0..most {
        if !sees(TokenKind::When, rest) {
            return Ok((all, rest));
        }
        let (next, after) = arm(reader, rest)?;
        all.push(next)?;
        rest = after;
    }
    Ok((all, rest))
}

// `[ELSE expr]`.
#[cycle(expression)]
#[tactic(auto, unfolding(row_reader::specs::Expressions::otherwise))]
fn otherwise<'t, A: Heap>(reader: Reader<A>, tokens: &'t [Token<'t>]) -> Parsed<'t, Otherwise<A>>
    requires { 0 < reader.depth_limit }
    ensures { Parses (λ t. otherwise_of t) rules.otherwise reader tokens.now result }
{
    if !sees(TokenKind::Else, tokens) {
        return Ok((Otherwise::Nothing, tokens));
    }
    other(keyed(TokenKind::Else, reader, tokens))
}

// The arms of a CASE, `[ELSE expr]` and END, after the word; by its offset.
#[cycle(expression)]
fn case<'t, A: Heap>(
    reader: Reader<A>,
    offset: u32,
    tokens: &'t [Token<'t>],
) -> Parsed<'t, Located<A>>
    requires { 0 < reader.depth_limit }
    ensures { Gives (λ x. (located x.0, words_of x.1.now)) result (case_rest reader.run_limit reader.depth_limit offset (words_of tokens.now)) }
{
    let (arms, rest) = arms(reader, tokens)?;
    case_ended(reader.alloc, offset, arms, otherwise(reader, rest))
}

// `- unary | primary`.
#[cycle(expression)]
#[tactic(auto, using(row_grammar::proofs::Steps::deep_is))]
fn unary<'t, A: Heap>(reader: Reader<A>, tokens: &'t [Token<'t>]) -> Parsed<'t, Located<A>>
    ensures { Parses (λ t. located t) rules.unary reader tokens.now result }
{
    let (head, rest) = operand_head(reader, tokens)?;
    match head {
        Head::Whole(operand) => Ok((operand, rest)),
        Head::Minus(offset) => negated(reader.alloc, offset, unary(reader.deeper(), rest)),
        Head::Case(offset) => case(reader, offset, rest),
        Head::Opened(opened) => enclosed(reader, opened, inner_expression(reader, rest)),
    }
}

/// The operators that bind alike, from the left.
#[derive(Clone, Copy)]
pub enum Level {
    /// `*`, `/`, `%`.
    Product,
    /// `+`, `-`.
    Sum,
}

fn sign_class(level: Level) -> Class
    ensures { result ≡ sign_class level }
{
    match level {
        Level::Product => Class::Multiplication,
        Level::Sum => Class::Addition,
    }
}

// The first operand of a run.
#[cycle(expression)]
fn first_operand<'t, A: Heap>(
    level: Level,
    reader: Reader<A>,
    tokens: &'t [Token<'t>],
) -> Parsed<'t, Located<A>>
    ensures { Parses (λ t. located t) (operand_rule level) reader tokens.now result }
{
    match level {
        Level::Product => unary(reader, tokens),
        Level::Sum => operations(Level::Product, reader, tokens),
    }
}

// `* unary` and the like, or `+ product` and the like.
#[cycle(expression)]
#[tactic(auto, unfolding(row_reader::specs::Expressions::factor, row_reader::specs::Expressions::addend))]
fn next_operand<'t, A: Heap>(
    level: Level,
    reader: Reader<A>,
    tokens: &'t [Token<'t>],
) -> Parsed<'t, ((u32, Arithmetic), Located<A>)>
    ensures { Parses (λ t. (t.0, located t.1)) (next_rule level) reader tokens.now result }
{
    match level {
        Level::Product => {
            let (sign, rest) = multiplication(reader, tokens)?;
            before(sign, unary(reader, rest))
        }
        Level::Sum => {
            let (sign, rest) = addition(reader, tokens)?;
            before(sign, operations(Level::Product, reader, rest))
        }
    }
}

// `unary {(* | / | %) unary}`, or `product {(+ | -) product}`.
#[cycle(expression)]
fn operations<'t, A: Heap>(
    level: Level,
    reader: Reader<A>,
    tokens: &'t [Token<'t>],
) -> Parsed<'t, Located<A>>
    ensures { Parses (λ t. located t) (run_rule level) reader tokens.now result }
{
    let (mut left, mut rest) = first_operand(level, reader, tokens)?;
    let signs = sign_class(level);
    for _ in 0..reader.run_limit {
        if !sees_any(signs, rest) {
            return Ok((left, rest));
        }
        let ((sign, right), after) = next_operand(level, reader, rest)?;
        left = combined(reader.alloc, left, sign, right)?;
        rest = after;
    }
    if sees_any(signs, rest) {
        return Err(Failure::Error(ReadError::Limit { left: rest.len() }));
    }
    Ok((left, rest))
}

// The bounds of a BETWEEN, `sum AND sum`, after the word; by its offset.
#[cycle(expression)]
fn between<'t, A: Heap>(
    reader: Reader<A>,
    offset: u32,
    tokens: &'t [Token<'t>],
) -> Parsed<'t, Range<A>>
    ensures { Gives (λ x. (range_of x.0, words_of x.1.now)) result (bounds_rest reader.run_limit reader.depth_limit offset (words_of tokens.now)) }
{
    let (low, rest) = low_bound(operations(Level::Sum, reader, tokens))?;
    bounds(offset, low, operations(Level::Sum, reader, rest))
}

// A range after its operand, if there is one, and the offset of a NOT before it.
#[cycle(expression)]
fn range_tail<'t, A: Heap>(
    reader: Reader<A>,
    tokens: &'t [Token<'t>],
) -> Parsed<'t, Option<(Option<u32>, Range<A>)>>
    ensures { Parses (λ t. option_map (λ r. signed_of r) t) rules.range_tail reader tokens.now result }
{
    let (head, rest) = range_head(reader, tokens)?;
    match head {
        RangeHead::Whole(range) => Ok((range, rest)),
        RangeHead::Between(not, offset) => present(before(not, between(reader, offset, rest))),
    }
}

// `sum [[NOT] BETWEEN sum AND sum | [NOT] IN (..)]`.
#[cycle(expression)]
#[tactic(auto, unfolding(row_reader::specs::Expressions::ranged_sum))]
fn ranged_sum<'t, A: Heap>(reader: Reader<A>, tokens: &'t [Token<'t>]) -> Parsed<'t, Located<A>>
    ensures { Parses (λ t. located t) rules.ranged_sum reader tokens.now result }
{
    let (operand, rest) = operations(Level::Sum, reader, tokens)?;
    with_range(reader.alloc, operand, range_tail(reader, rest))
}

// A comparison, of which there is at most one.
#[cycle(expression)]
#[tactic(auto, unfolding(row_reader::specs::Expressions::comparison, row_reader::specs::Expressions::compared_with, row_reader::specs::Expressions::comparison_sign, row_reader::specs::Language::of))]
fn comparison<'t, A: Heap>(reader: Reader<A>, tokens: &'t [Token<'t>]) -> Parsed<'t, Located<A>>
    ensures { Parses (λ t. located t) rules.comparison reader tokens.now result }
{
    let (left, rest) = ranged_sum(reader, tokens)?;
    if !sees_any(Class::Comparison, rest) {
        return Ok((left, rest));
    }
    let ((left, sign), rest) = before(left, comparison_sign(reader, rest))?;
    compared(reader.alloc, left, sign, ranged_sum(reader, rest))
}

// `NOT negation | comparison [IS [NOT] NULL]`.
#[cycle(expression)]
#[tactic(auto, using(row_grammar::proofs::Steps::deep_is), unfolding(row_reader::specs::Expressions::negation, row_reader::specs::Expressions::null_test))]
fn negation<'t, A: Heap>(reader: Reader<A>, tokens: &'t [Token<'t>]) -> Parsed<'t, Located<A>>
    ensures { Parses (λ t. located t) rules.negation reader tokens.now result }
{
    if sees(TokenKind::Not, tokens) {
        let (word, rest) = open(TokenKind::Not, reader.depth_limit, tokens)?;
        inverted(reader.alloc, word.offset, negation(reader.deeper(), rest))
    } else {
        null_tested(reader, comparison(reader, tokens))
    }
}

// The first operand of AND or OR.
#[cycle(expression)]
fn first_member<'t, A: Heap>(
    connective: Connective,
    reader: Reader<A>,
    tokens: &'t [Token<'t>],
) -> Parsed<'t, Located<A>>
    ensures { Parses (λ t. located t) (member_rule connective) reader tokens.now result }
{
    match connective {
        Connective::And => negation(reader, tokens),
        Connective::Or => connected(Connective::And, reader, tokens),
    }
}

// `AND negation`, or `OR conjunction`.
#[cycle(expression)]
fn next_member<'t, A: Heap>(
    connective: Connective,
    reader: Reader<A>,
    tokens: &'t [Token<'t>],
) -> Parsed<'t, (Token<'t>, Located<A>)>
    ensures { Parses (λ t. (word_of t.0, located t.1)) (next_member_rule connective) reader tokens.now result }
{
    let (word, rest) = expect(connective_word(connective), tokens)?;
    before(word, first_member(connective, reader, rest))
}

// `negation {AND negation}`, or `conjunction {OR conjunction}`; a member that is itself one of these is merged.
#[cycle(expression)]
fn connected<'t, A: Heap>(
    connective: Connective,
    reader: Reader<A>,
    tokens: &'t [Token<'t>],
) -> Parsed<'t, Located<A>>
    ensures { Parses (λ t. located t) (connected_rule connective) reader tokens.now result }
{
    let ((start, first), mut rest) = first_member(connective, reader, tokens)?;
    let word = connective_word(connective);
    if !sees(word, rest) {
        return Ok(((start, first), rest));
    }
    let offset = next_offset(rest);
    let mut members = members_of(reader.alloc, connective, first)?;
    for _ in 0..reader.run_limit {
        if !sees(word, rest) {
            let whole = joined(reader.alloc, connective, (start, offset), members);
            return with_rest(whole, rest);
        }
        let ((_, (_, next)), after) = next_member(connective, reader, rest)?;
        extend(reader.alloc, connective, &mut members, next)?;
        rest = after;
    }
    if sees(word, rest) {
        return Err(Failure::Error(ReadError::Limit { left: rest.len() }));
    }
    let whole = joined(reader.alloc, connective, (start, offset), members);
    with_rest(whole, rest)
}

/// An expression: `conjunction {OR conjunction}`.
pub fn expression<'t, A: Heap>(reader: Reader<A>, tokens: &'t [Token<'t>]) -> Parsed<'t, Located<A>>
    ensures { Parses (λ t. located t) rules.expression reader tokens.now result }
{
    connected(Connective::Or, reader, tokens)
}
