//! Expressions, built of their parts.

ghost use Rattle.std.specs.Prelude.{◌≡◌, ◌∷◌, ◌++◌, [], Some, map, option_map, IfOk, OnOk};
ghost use Rattle.row_tokens.specs.View.{word_of};
ghost use Rattle.row_reader.specs.Expressions as rules;
ghost use Rattle.row_ast.specs.Ast as ast;
ghost use Rattle.row_ast.specs.Ast.{arms_of, exprs_of};
ghost use Rattle.row_ast.specs.View.{expr_of, arm_pair};
ghost use Rattle.row_expressions.specs.Connectives.{connective_word, joined_expr, members_of};
ghost use Rattle.row_expressions.specs.View.{located, signed_of, suffix_of, otherwise_of};

use memory::{Heap, Items, Text, boxed};
use row_ast::{Arm, Expr};
use row_reader::names::column_ref;
use row_tokens::{Token, TokenKind};
use std::alloc::AllocError;
use value::{Aggregate, Arithmetic, Value};

/// An expression, and the offset of its first token. It is boxed, since where a tree is alive at a `?` its whole drop,
/// each variant and field, is part of that function's proof.
pub type Located<A> = (u32, Box<Expr<A>, A>);

/// AND or OR.
#[derive(Clone, Copy)]
pub enum Connective {
    And,
    Or,
}

/// The rest of a BETWEEN or IN.
#[derive(Drop)]
pub enum Range<A: Heap> {
    /// The bounds of BETWEEN.
    Bounds {
        offset: u32,
        low: Box<Expr<A>, A>,
        high: Box<Expr<A>, A>,
    },
    /// The values of IN.
    Values {
        offset: u32,
        values: Items<Value<A>, A>,
    },
}

/// The tokens after a word that is a function's name or a column's.
#[derive(Drop)]
pub enum CallSuffix<A: Heap> {
    /// `( * )`.
    Star,
    /// `( a )`.
    Argument(Box<Expr<A>, A>),
    /// `. name`, or nothing.
    Dotted(Option<Text<A>>),
}

/// The result of ELSE, if it is written.
#[derive(Drop)]
pub enum Otherwise<A: Heap> {
    /// No ELSE.
    Nothing,
    /// A result.
    Value(Box<Expr<A>, A>),
}

/// An operation on two numbers.
pub fn combined<A: Heap>(
    alloc: A,
    left: Located<A>,
    sign: (u32, Arithmetic),
    right: Located<A>,
) -> Result<Located<A>, AllocError>
    ensures { IfOk result (λ p. located p ≡ (left.0, ast.Arithmetic sign.1 sign.0 (expr_of left.1.value) (expr_of right.1.value))) }
{
    let (start, left) = left;
    let (_, right) = right;
    let (offset, operator) = sign;
    let whole = Expr::Arithmetic {
        operator,
        offset,
        left,
        right,
    };
    Ok((start, boxed(alloc, whole)?))
}

// A range after its operand; `not` is the offset of a NOT before it.
fn in_range<A: Heap>(
    alloc: A,
    operand: Located<A>,
    not: Option<u32>,
    range: Range<A>,
) -> Result<Located<A>, AllocError>
    ensures { IfOk result (λ p. located p ≡ rules.ranged (located operand) (Some (signed_of (not, range)))) }
{
    let (start, operand) = operand;
    let negated = not.is_some();
    let whole = match range {
        Range::Bounds { offset, low, high } => Expr::Between {
            negated,
            offset: not.unwrap_or(offset),
            operand,
            low,
            high,
        },
        Range::Values { offset, values } => Expr::In {
            negated,
            offset: not.unwrap_or(offset),
            values,
            operand,
        },
    };
    Ok((start, boxed(alloc, whole)?))
}

/// An operand and the range after it, if there is one, with the offset of a NOT before it.
pub fn ranged<A: Heap>(
    alloc: A,
    operand: Located<A>,
    range: Option<(Option<u32>, Range<A>)>,
) -> Result<Located<A>, AllocError>
    ensures { IfOk result (λ p. located p ≡ rules.ranged (located operand) (option_map (λ r. signed_of r) range)) }
{
    match range {
        Some((not, range)) => in_range(alloc, operand, not, range),
        None => Ok(operand),
    }
}

/// A CASE.
#[tactic(auto, using(row_ast::proofs::Trees::tree_lemmas))]
pub fn case_of<A: Heap>(
    alloc: A,
    offset: u32,
    arms: Items<Arm<A>, A>,
    other: Otherwise<A>,
) -> Result<Box<Expr<A>, A>, AllocError>
    ensures { IfOk result (λ e. expr_of e.value ≡ ast.Case offset (arms_of (map (λ a. arm_pair a) arms)) (otherwise_of other)) }
{
    let arms = arms.into_vec();
    match other {
        Otherwise::Value(value) => {
            let case = Expr::Case {
                offset,
                arms,
                otherwise: Some(value),
            };
            Ok(boxed(alloc, case)?)
        }
        Otherwise::Nothing => {
            let case = Expr::Case {
                offset,
                arms,
                otherwise: None,
            };
            Ok(boxed(alloc, case)?)
        }
    }
}

/// A column.
pub fn column_expr<A: Heap>(
    alloc: A,
    word: &Token<'_>,
    dotted: Option<Text<A>>,
) -> Result<Box<Expr<A>, A>, AllocError>
    ensures { IfOk result (λ e. expr_of e.value ≡ rules.column_expr (word_of word.now) dotted) }
{
    let column = column_ref(alloc, word, dotted)?;
    boxed(alloc, Expr::Column(column))
}

/// `count` and its suffix.
pub fn counted<A: Heap>(
    alloc: A,
    word: &Token<'_>,
    suffix: CallSuffix<A>,
) -> Result<Box<Expr<A>, A>, AllocError>
    ensures { IfOk result (λ e. expr_of e.value ≡ rules.counted (word_of word.now) (suffix_of suffix)) }
{
    let offset = word.offset;
    let aggregate = Aggregate::Count;
    let value = match suffix {
        CallSuffix::Star => Expr::CountStar { offset },
        CallSuffix::Argument(argument) => Expr::Call {
            aggregate,
            offset,
            argument,
        },
        CallSuffix::Dotted(name) => return column_expr(alloc, word, name),
    };
    boxed(alloc, value)
}

/// Another function's name and its suffix.
pub fn called<A: Heap>(
    alloc: A,
    word: &Token<'_>,
    aggregate: Aggregate,
    suffix: CallSuffix<A>,
) -> Result<Box<Expr<A>, A>, AllocError>
    ensures { IfOk result (λ e. expr_of e.value ≡ rules.called (word_of word.now, aggregate) (suffix_of suffix)) }
{
    let offset = word.offset;
    let value = match suffix {
        CallSuffix::Star => Expr::CountStar { offset },
        CallSuffix::Argument(argument) => Expr::Call {
            aggregate,
            offset,
            argument,
        },
        CallSuffix::Dotted(name) => return column_expr(alloc, word, name),
    };
    boxed(alloc, value)
}

fn alone<A: Heap>(alloc: A, member: Expr<A>) -> Result<Vec<Expr<A>, A>, AllocError>
    ensures { IfOk result (λ v. map (λ e. expr_of e) v.items ≡ expr_of member ∷ []) }
{
    let mut members = Items::new(alloc);
    members.push(member)?;
    Ok(members.into_vec())
}

// The members of an expression that is an operand of AND: its own where it is one.
#[tactic(auto, using(row_ast::proofs::Trees::tree_lemmas))]
fn and_members<A: Heap>(alloc: A, member: Box<Expr<A>, A>) -> Result<Vec<Expr<A>, A>, AllocError>
    ensures { IfOk result (λ v. map (λ e. expr_of e) v.items ≡ ast.and_members (expr_of member.value)) }
{
    match Box::into_inner(member) {
        Expr::And { members, .. } => Ok(members),
        member => alone(alloc, member),
    }
}

// The members of an expression that is an operand of OR: its own where it is one.
#[tactic(auto, using(row_ast::proofs::Trees::tree_lemmas))]
fn or_members<A: Heap>(alloc: A, member: Box<Expr<A>, A>) -> Result<Vec<Expr<A>, A>, AllocError>
    ensures { IfOk result (λ v. map (λ e. expr_of e) v.items ≡ ast.or_members (expr_of member.value)) }
{
    match Box::into_inner(member) {
        Expr::Or { members, .. } => Ok(members),
        member => alone(alloc, member),
    }
}

// An AND of several members.
#[tactic(auto, using(row_ast::proofs::Trees::tree_lemmas))]
fn and_of<A: Heap>(
    alloc: A,
    start: u32,
    offset: u32,
    members: Vec<Expr<A>, A>,
) -> Result<Located<A>, AllocError>
    ensures { IfOk result (λ p. located p ≡ (start, ast.And offset (exprs_of (map (λ e. expr_of e) members.items)))) }
{
    Ok((start, boxed(alloc, Expr::And { offset, members })?))
}

// An OR of several members.
#[tactic(auto, using(row_ast::proofs::Trees::tree_lemmas))]
fn or_of<A: Heap>(
    alloc: A,
    start: u32,
    offset: u32,
    members: Vec<Expr<A>, A>,
) -> Result<Located<A>, AllocError>
    ensures { IfOk result (λ p. located p ≡ (start, ast.Or offset (exprs_of (map (λ e. expr_of e) members.items)))) }
{
    Ok((start, boxed(alloc, Expr::Or { offset, members })?))
}

/// The word of a connective.
pub fn connective_word(connective: Connective) -> TokenKind
    ensures { result ≡ connective_word connective }
{
    match connective {
        Connective::And => TokenKind::And,
        Connective::Or => TokenKind::Or,
    }
}

/// The members of an operand of AND or OR: its own where it is itself one of these.
pub fn members_of<A: Heap>(
    alloc: A,
    connective: Connective,
    member: Box<Expr<A>, A>,
) -> Result<Vec<Expr<A>, A>, AllocError>
    ensures { IfOk result (λ v. map (λ e. expr_of e) v.items ≡ members_of connective (expr_of member.value)) }
{
    match connective {
        Connective::And => and_members(alloc, member),
        Connective::Or => or_members(alloc, member),
    }
}

/// The members of one more operand, after those of the operands before it.
pub fn extend<A: Heap>(
    alloc: A,
    connective: Connective,
    members: &mut Vec<Expr<A>, A>,
    next: Box<Expr<A>, A>,
) -> Result<(), AllocError>
    ensures { OnOk result (map (λ e. expr_of e) members.new.items ≡ map (λ e. expr_of e) members.old.items ++ members_of connective (expr_of next.value)) }
{
    let mut more = members_of(alloc, connective, next)?;
    members.append(&mut more)?;
    Ok(())
}

/// An AND or OR of several members, by its offset and that of its first word.
pub fn joined<A: Heap>(
    alloc: A,
    connective: Connective,
    offsets: (u32, u32),
    members: Vec<Expr<A>, A>,
) -> Result<Located<A>, AllocError>
    ensures { IfOk result (λ p. located p ≡ (offsets.0, joined_expr connective offsets.1 (map (λ e. expr_of e) members.items))) }
{
    let (start, offset) = offsets;
    match connective {
        Connective::And => and_of(alloc, start, offset, members),
        Connective::Or => or_of(alloc, start, offset, members),
    }
}
