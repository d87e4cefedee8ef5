//! Reading one token ahead.

ghost use Rattle.std.specs.Prelude.{◌≡◌, ◌<◌, ◌-◌, IfOk};
ghost use Rattle.memory.specs.Gives.{Gives};
ghost use Rattle.row_grammar.specs.Decoder.{head_in, word_at, opened_at};
ghost use Rattle.row_grammar.specs.Limits.{can_open};
ghost use Rattle.row_tokens.specs.View.{word_of, words_of};
ghost use Rattle.row_reader.specs.Reading.{paired, with_rest, starting_at, wrapped, unplaced, worded_as, placed_as, meant_as, Closed};
ghost use Rattle.row_reader.specs.Language.{next_at, is, of, is_plain, is_aggregate, is_name, is_sign, is_comparison, is_addition, is_multiplication, kind_of};

use memory::{Failure, Heap};
use row_grammar::ReadError;
use row_tokens::{Token, TokenKind};
use std::alloc::AllocError;

/// The memory that reading takes, and the limits that are left.
#[derive(Clone, Copy)]
pub struct Reader<A> {
    /// The source of memory.
    pub alloc: A,
    /// The number of operands that may follow the first of a run.
    pub run_limit: usize,
    /// The number of levels that may be opened.
    pub depth_limit: usize,
}

impl<A: Heap> Reader<A> {
    /// The same with one level less.
    pub fn deeper(self) -> Reader<A>
        requires { 0 < self.depth_limit }
        ensures run_limit { result.run_limit ≡ self.run_limit }
        ensures depth_limit { result.depth_limit ≡ self.depth_limit - 1 }
    {
        Reader {
            alloc: self.alloc,
            run_limit: self.run_limit,
            depth_limit: self.depth_limit - 1,
        }
    }
}

/// A value and the tokens after it.
pub type Parsed<'t, T> = Result<(T, &'t [Token<'t>]), Failure<ReadError>>;

/// A parser of the tokens of a rule of the grammar.
pub trait Parser<A: Heap> {
    ghost use Rattle.row_reader.specs.Language.{Rule};
    ghost use Rattle.row_reader.specs.Reading.{Parses};

    /// The tree of the rule.
    type Tree: Drop;

    // The tree in specs, the view of a tree, and the rule.
    ghost Spec: { Type 0 };

    ghost view: { Self.Tree → Spec };

    ghost rule: { Rule Spec };

    /// The tree of the tokens, and those after it.
    fn parse<'t>(reader: Reader<A>, tokens: &'t [Token<'t>]) -> Parsed<'t, Self::Tree>
        ensures { Parses view rule reader tokens.now result };
}

/// A value and the one read after it. Where reading fails, the value is dropped here and not in the caller, whose proof
/// would contain the whole drop of a tree for each `?` at which it is alive.
pub fn before<'t, T: Drop, U: Drop>(value: T, next: Parsed<'t, U>) -> Parsed<'t, (T, U)>
    ensures { result ≡ paired value next.entry }
{
    match next {
        Ok((further, rest)) => Ok(((value, further), rest)),
        Err(error) => Err(error),
    }
}

/// A value that was made of tokens, and those after it.
pub fn with_rest<'t, T: Drop>(made: Result<T, AllocError>, rest: &'t [Token<'t>]) -> Parsed<'t, T>
    ensures { result ≡ with_rest made rest.entry }
{
    match made {
        Ok(value) => Ok((value, rest)),
        Err(_) => Err(Failure::OutOfMemory),
    }
}

/// The same, with its offset.
pub fn starting_at<'t, T: Drop>(
    start: u32,
    made: Result<T, AllocError>,
    rest: &'t [Token<'t>],
) -> Parsed<'t, (u32, T)>
    ensures { result ≡ starting_at start made rest.entry }
{
    match made {
        Ok(value) => Ok(((start, value), rest)),
        Err(_) => Err(Failure::OutOfMemory),
    }
}

/// A value that was read, where it may also be left out.
pub fn present<'t, T: Drop>(read: Parsed<'t, T>) -> Parsed<'t, Option<T>>
    ensures { result ≡ wrapped read.entry }
{
    match read {
        Ok((value, rest)) => Ok((Some(value), rest)),
        Err(error) => Err(error),
    }
}

/// A value that was read, without its offset.
pub fn unplaced<'t, T: Drop>(read: Parsed<'t, (u32, T)>) -> Parsed<'t, T>
    ensures { result ≡ unplaced read.entry }
{
    match read {
        Ok(((_, value), rest)) => Ok((value, rest)),
        Err(error) => Err(error),
    }
}

#[tactic(auto, unfolding(crate::specs::Language::is))]
fn same(a: TokenKind, b: TokenKind) -> bool
    ensures { result ≡ is a b }
{
    b == a
}

/// True where a token of this kind comes next.
pub fn sees(kind: TokenKind, tokens: &[Token<'_>]) -> bool
    ensures { result ≡ head_in kind_of (is kind) (words_of tokens.now) }
{
    match tokens {
        [first, ..] => same(kind, first.kind),
        [] => false,
    }
}

/// The offset of the next token; 0 for none.
pub fn next_offset(tokens: &[Token<'_>]) -> u32
    ensures { result ≡ next_at (words_of tokens.now) }
{
    match tokens {
        [first, ..] => first.offset,
        [] => 0,
    }
}

/// The token of this kind that comes next.
pub fn expect<'t>(kind: TokenKind, tokens: &'t [Token<'t>]) -> Parsed<'t, Token<'t>>
    ensures { Gives (λ x. (word_of x.0, words_of x.1.now)) result (word_at kind_of (is kind) (words_of tokens.now)) }
{
    match tokens {
        [first, rest @ ..] => {
            if same(kind, first.kind) {
                Ok((*first, rest))
            } else {
                Err(Failure::Error(ReadError::Syntax { left: tokens.len() }))
            }
        }
        [] => Err(Failure::Error(ReadError::Syntax { left: 0 })),
    }
}

/// The token of this kind that comes next, and its value.
pub fn expect_as<'t, T: Drop>(
    kind: TokenKind,
    value: T,
    tokens: &'t [Token<'t>],
) -> Parsed<'t, (Token<'t>, T)>
    ensures { Gives (λ x. ((word_of x.0.0, x.0.1), words_of x.1.now)) result (worded_as value (word_at kind_of (is kind) (words_of tokens.now))) }
{
    let (word, rest) = expect(kind, tokens)?;
    Ok(((word, value), rest))
}

/// The value of the token of this kind, and its offset.
pub fn placed<'t, T: Drop>(
    kind: TokenKind,
    value: T,
    tokens: &'t [Token<'t>],
) -> Parsed<'t, (u32, T)>
    ensures { Gives (λ x. (x.0, words_of x.1.now)) result (placed_as value (word_at kind_of (is kind) (words_of tokens.now))) }
{
    let (word, rest) = expect(kind, tokens)?;
    Ok(((word.offset, value), rest))
}

/// The value of the token of this kind.
pub fn meant<'t, T: Drop>(kind: TokenKind, value: T, tokens: &'t [Token<'t>]) -> Parsed<'t, T>
    ensures { Gives (λ x. (x.0, words_of x.1.now)) result (meant_as value (word_at kind_of (is kind) (words_of tokens.now))) }
{
    let (_, rest) = expect(kind, tokens)?;
    Ok((value, rest))
}

/// A value that was read, and a closing parenthesis after it.
pub fn closed<'t, T: Drop>(read: Parsed<'t, T>) -> Parsed<'t, T>
    ensures { Closed read.entry result }
{
    let (value, rest) = read?;
    let (_, rest) = expect(TokenKind::Close, rest)?;
    Ok((value, rest))
}

/// The token of this kind that comes next and opens a level, where one may be opened.
pub fn open<'t>(kind: TokenKind, depth: usize, tokens: &'t [Token<'t>]) -> Parsed<'t, Token<'t>>
    ensures token { Gives (λ x. (word_of x.0, words_of x.1.now)) result (opened_at kind_of (can_open depth) (is kind) (words_of tokens.now)) }
    ensures room { IfOk result (λ x. 0 < depth) }
{
    match tokens {
        [first, rest @ ..] => {
            if !same(kind, first.kind) {
                Err(Failure::Error(ReadError::Syntax { left: tokens.len() }))
            } else if depth == 0 {
                Err(Failure::Error(ReadError::Limit { left: tokens.len() }))
            } else {
                Ok((*first, rest))
            }
        }
        [] => Err(Failure::Error(ReadError::Syntax { left: 0 })),
    }
}

/// Kinds of tokens that are read alike.
#[derive(Clone, Copy, Debug, PartialEq, Eq)]
pub enum Class {
    /// All words but the reserved ones.
    Name,
    /// The names that are no function's.
    PlainName,
    /// `sum`, `min`, `max`.
    Aggregate,
    /// A number after a minus.
    Magnitude,
    /// A minus, before a number or not.
    Sign,
    /// `=` and the like.
    Comparison,
    /// `+`, `-`.
    Addition,
    /// `*`, `/`, `%`.
    Multiplication,
}

fn is_plain(kind: TokenKind) -> bool
    ensures { result ≡ is_plain kind }
{
    matches!(
        kind,
        TokenKind::Name
            | TokenKind::Create
            | TokenKind::Role
            | TokenKind::Superuser
            | TokenKind::Bypassrls
            | TokenKind::Grant
            | TokenKind::Revoke
            | TokenKind::Table
            | TokenKind::Alter
            | TokenKind::Owner
            | TokenKind::Enable
            | TokenKind::Disable
            | TokenKind::Force
            | TokenKind::No
            | TokenKind::Row
            | TokenKind::Level
            | TokenKind::Security
            | TokenKind::Index
            | TokenKind::Policy
            | TokenKind::Permissive
            | TokenKind::Restrictive
            | TokenKind::Drop
            | TokenKind::Bigint
            | TokenKind::Text
            | TokenKind::Boolean
    )
}

fn is_aggregate(kind: TokenKind) -> bool
    ensures { result ≡ is_aggregate kind }
{
    same(TokenKind::Sum, kind) || (same(TokenKind::Min, kind) || same(TokenKind::Max, kind))
}

fn is_name(kind: TokenKind) -> bool
    ensures { result ≡ is_name kind }
{
    match kind {
        TokenKind::Count | TokenKind::Sum | TokenKind::Min | TokenKind::Max => true,
        other => is_plain(other),
    }
}

fn is_sign(kind: TokenKind) -> bool
    ensures { result ≡ is_sign kind }
{
    matches!(kind, TokenKind::Minus | TokenKind::SignedMinus)
}

fn is_comparison(kind: TokenKind) -> bool
    ensures { result ≡ is_comparison kind }
{
    same(TokenKind::Equal, kind)
        || (same(TokenKind::NotEqual, kind)
            || (same(TokenKind::Less, kind)
                || (same(TokenKind::LessEqual, kind)
                    || (same(TokenKind::Greater, kind) || same(TokenKind::GreaterEqual, kind)))))
}

fn is_addition(kind: TokenKind) -> bool
    ensures { result ≡ is_addition kind }
{
    same(TokenKind::Plus, kind) || is_sign(kind)
}

fn is_multiplication(kind: TokenKind) -> bool
    ensures { result ≡ is_multiplication kind }
{
    same(TokenKind::Star, kind) || (same(TokenKind::Slash, kind) || same(TokenKind::Percent, kind))
}

#[tactic(auto, unfolding(crate::specs::Language::of))]
fn belongs(class: Class, kind: TokenKind) -> bool
    ensures { result ≡ of class kind }
{
    match class {
        Class::Name => is_name(kind),
        Class::PlainName => is_plain(kind),
        Class::Aggregate => is_aggregate(kind),
        Class::Magnitude => matches!(kind, TokenKind::Number | TokenKind::MinMagnitude),
        Class::Sign => is_sign(kind),
        Class::Comparison => is_comparison(kind),
        Class::Addition => is_addition(kind),
        Class::Multiplication => is_multiplication(kind),
    }
}

/// True where a token of this class comes next.
pub fn sees_any(class: Class, tokens: &[Token<'_>]) -> bool
    ensures { result ≡ head_in kind_of (of class) (words_of tokens.now) }
{
    match tokens {
        [first, ..] => belongs(class, first.kind),
        [] => false,
    }
}

/// The token of this class that comes next.
pub fn expect_any<'t>(class: Class, tokens: &'t [Token<'t>]) -> Parsed<'t, Token<'t>>
    ensures { Gives (λ x. (word_of x.0, words_of x.1.now)) result (word_at kind_of (of class) (words_of tokens.now)) }
{
    match tokens {
        [first, rest @ ..] => {
            if belongs(class, first.kind) {
                Ok((*first, rest))
            } else {
                Err(Failure::Error(ReadError::Syntax { left: tokens.len() }))
            }
        }
        [] => Err(Failure::Error(ReadError::Syntax { left: 0 })),
    }
}
