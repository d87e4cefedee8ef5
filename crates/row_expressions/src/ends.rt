//! The ends of expressions. Each takes the part that was read, or the error of reading, so that no tree is alive at a
//! `?` of the parser.

ghost use Rattle.std.specs.Prelude.{◌≡◌, Ok, map, option_map};
ghost use Rattle.std.specs.Result.{is_ok};
ghost use Rattle.row_ast.specs.Ast as ast;
ghost use Rattle.row_ast.specs.View.{arm_pair, expr_of};
ghost use Rattle.row_reader.specs.Expressions as rules;
ghost use Rattle.row_tokens.specs.View.{word_of};
ghost use Rattle.row_expressions.specs.GoesOn.{GoesOn, case_step, cast_step, null_step};
ghost use Rattle.row_expressions.specs.View.{located, otherwise_of, range_of, signed_of, suffix_of};

use crate::build::{CallSuffix, Located, Otherwise, Range, called, case_of, counted, ranged};
use crate::leaves::{as_type, is_null};
use memory::{Heap, Items, boxed};
use row_ast::{Arm, Expr};
use row_reader::reader::{Parsed, Reader, before, closed, expect, sees, starting_at, with_rest};
use row_tokens::{Token, TokenKind};
use value::{Aggregate, Comparison};

/// The argument of a call. It takes no memory.
pub fn argument<'t, A: Heap>(read: Parsed<'t, Located<A>>) -> Parsed<'t, CallSuffix<A>>
    ensures goes_on { GoesOn (λ t. located t) (λ x us. Ok (rules.Argument x.1, us)) (λ t. suffix_of t) read.entry result }
    ensures no_memory { is_ok result ≡ is_ok read.entry }
{
    let ((_, argument), rest) = read?;
    Ok((CallSuffix::Argument(argument), rest))
}

/// The result after ELSE. It takes no memory.
pub fn other<'t, A: Heap>(read: Parsed<'t, Located<A>>) -> Parsed<'t, Otherwise<A>>
    ensures goes_on { GoesOn (λ t. located t) (λ x us. Ok (ast.Value x.1, us)) (λ t. otherwise_of t) read.entry result }
    ensures no_memory { is_ok result ≡ is_ok read.entry }
{
    let ((_, value), rest) = read?;
    Ok((Otherwise::Value(value), rest))
}

/// An arm of a CASE, of its condition and its result. It takes no memory.
pub fn arm_of<'t, A: Heap>(when: Located<A>, read: Parsed<'t, Located<A>>) -> Parsed<'t, Arm<A>>
    ensures goes_on { GoesOn (λ t. located t) (λ x us. Ok ((expr_of when.1.value, x.1), us)) (λ t. arm_pair t) read.entry result }
    ensures no_memory { is_ok result ≡ is_ok read.entry }
{
    let ((_, result), rest) = read?;
    let (_, when) = when;
    let arm = Arm {
        when: Box::into_inner(when),
        result: Box::into_inner(result),
    };
    Ok((arm, rest))
}

/// `count` and its suffix.
pub fn counted_call<'t, A: Heap>(
    alloc: A,
    word: &Token<'_>,
    read: Parsed<'t, CallSuffix<A>>,
) -> Parsed<'t, Located<A>>
    ensures { GoesOn (λ t. suffix_of t) (λ s us. Ok ((word.now.offset, rules.counted (word_of word.now) s), us)) (λ t. located t) read.entry result }
{
    let (suffix, rest) = read?;
    starting_at(word.offset, counted(alloc, word, suffix), rest)
}

/// Another function's name and its suffix.
pub fn called_with<'t, A: Heap>(
    alloc: A,
    word: &Token<'_>,
    aggregate: Aggregate,
    read: Parsed<'t, CallSuffix<A>>,
) -> Parsed<'t, Located<A>>
    ensures { GoesOn (λ t. suffix_of t) (λ s us. Ok ((word.now.offset, rules.called (word_of word.now, aggregate) s), us)) (λ t. located t) read.entry result }
{
    let (suffix, rest) = read?;
    starting_at(word.offset, called(alloc, word, aggregate, suffix), rest)
}

/// `- unary`, by the offset of the minus.
pub fn negated<'t, A: Heap>(
    alloc: A,
    offset: u32,
    read: Parsed<'t, Located<A>>,
) -> Parsed<'t, Located<A>>
    ensures { GoesOn (λ t. located t) (λ x us. Ok ((offset, ast.Negate offset x.1), us)) (λ t. located t) read.entry result }
{
    let ((_, operand), rest) = read?;
    let value = boxed(alloc, Expr::Negate { offset, operand });
    starting_at(offset, value, rest)
}

/// `NOT negation`, by the offset of NOT.
pub fn inverted<'t, A: Heap>(
    alloc: A,
    offset: u32,
    read: Parsed<'t, Located<A>>,
) -> Parsed<'t, Located<A>>
    ensures { GoesOn (λ t. located t) (λ x us. Ok ((offset, ast.Not offset x.1), us)) (λ t. located t) read.entry result }
{
    let ((_, operand), rest) = read?;
    let value = boxed(alloc, Expr::Not { offset, operand });
    starting_at(offset, value, rest)
}

/// `BETWEEN low AND high`, by the offset of BETWEEN. It takes no memory.
pub fn bounds<'t, A: Heap>(
    offset: u32,
    low: Located<A>,
    read: Parsed<'t, Located<A>>,
) -> Parsed<'t, Range<A>>
    ensures goes_on { GoesOn (λ t. located t) (λ x us. Ok (rules.Bounds offset (expr_of low.1.value) x.1, us)) (λ t. range_of t) read.entry result }
    ensures no_memory { is_ok result ≡ is_ok read.entry }
{
    let ((_, high), rest) = read?;
    let (_, low) = low;
    Ok((Range::Bounds { offset, low, high }, rest))
}

/// An operand and the range that was read after it, if there is one.
pub fn with_range<'t, A: Heap>(
    alloc: A,
    operand: Located<A>,
    read: Parsed<'t, Option<(Option<u32>, Range<A>)>>,
) -> Parsed<'t, Located<A>>
    ensures { GoesOn (λ t. option_map (λ r. signed_of r) t) (λ r us. Ok (rules.ranged (located operand) r, us)) (λ t. located t) read.entry result }
{
    let (range, rest) = read?;
    with_rest(ranged(alloc, operand, range), rest)
}

/// A comparison, by the sign and its offset.
pub fn compared<'t, A: Heap>(
    alloc: A,
    left: Located<A>,
    sign: (u32, Comparison),
    read: Parsed<'t, Located<A>>,
) -> Parsed<'t, Located<A>>
    ensures { GoesOn (λ t. located t) (λ x us. Ok ((left.0, ast.Comparison sign.1 sign.0 (expr_of left.1.value) x.1), us)) (λ t. located t) read.entry result }
{
    let ((_, right), rest) = read?;
    let (start, left) = left;
    let (offset, operator) = sign;
    let whole = Expr::Comparison {
        operator,
        offset,
        left,
        right,
    };
    starting_at(start, boxed(alloc, whole), rest)
}

/// An operand, or its test for null: `[IS [NOT] NULL]`.
#[tactic(auto, unfolding(row_reader::specs::Expressions::is_null))]
pub fn null_tested<'t, A: Heap>(
    reader: Reader<A>,
    read: Parsed<'t, Located<A>>,
) -> Parsed<'t, Located<A>>
    ensures { GoesOn (λ t. located t) (null_step reader.run_limit reader.depth_limit) (λ t. located t) read.entry result }
{
    let ((start, operand), rest) = read?;
    if !sees(TokenKind::Is, rest) {
        return Ok(((start, operand), rest));
    }
    let ((operand, (offset, negated)), rest) = before(operand, is_null(reader, rest))?;
    let test = Expr::IsNull {
        negated,
        offset,
        operand,
    };
    starting_at(start, boxed(reader.alloc, test), rest)
}

/// The operand of a CAST, and the rest of it: `AS type )`; by the offset of CAST.
pub fn cast_to<'t, A: Heap>(
    reader: Reader<A>,
    offset: u32,
    read: Parsed<'t, Located<A>>,
) -> Parsed<'t, Located<A>>
    ensures { GoesOn (λ t. located t) (cast_step reader.run_limit reader.depth_limit offset) (λ t. located t) read.entry result }
{
    let ((_, operand), rest) = read?;
    let ((operand, to), rest) = before(operand, closed(as_type(reader, rest)))?;
    let cast = Expr::Cast {
        offset,
        to,
        operand,
    };
    starting_at(offset, boxed(reader.alloc, cast), rest)
}

/// The arms of a CASE, its ELSE, and END; by the offset of CASE.
pub fn case_ended<'t, A: Heap>(
    alloc: A,
    offset: u32,
    arms: Items<Arm<A>, A>,
    read: Parsed<'t, Otherwise<A>>,
) -> Parsed<'t, Located<A>>
    ensures { GoesOn (λ t. otherwise_of t) (case_step offset (map (λ a. arm_pair a) arms)) (λ t. located t) read.entry result }
{
    let (other, rest) = read?;
    let (_, rest) = expect(TokenKind::End, rest)?;
    starting_at(offset, case_of(alloc, offset, arms, other), rest)
}
