//! Trees of the grammar, read from texts of which no offset is reported.

ghost use Rattle.std.specs.Prelude.{◌≡◌, length, option_map, IfOk};
ghost use Rattle.memory.specs.Gives.{Gives};
ghost use Rattle.row_ast.specs.View.{expr_of};
ghost use Rattle.row_expressions.specs.View.{located};
ghost use Rattle.row_grammar.specs.Limits.{whole_at};
ghost use Rattle.row_reader.specs.Expressions as rules;
ghost use Rattle.row_reader.specs.Expressions.{grammar};
ghost use Rattle.row_reader.specs.Reading.{Parses};
ghost use Rattle.row_tokens.specs.View.{words_of};
ghost use Rattle.row_tokens.specs.WithoutOffsets.{words_without_offsets};
ghost use Rattle.expr_texts.specs.Filters.{expr_at, read_of};

use memory::{Failure, Heap};
use row_ast::Expr;
use row_expressions::{Located, expression};
use row_grammar::ReadError;
use row_reader::reader::{Parsed, Parser, Reader};
use row_tokens::{Token, TokenKind, scan_without_offsets};
use std::alloc::AllocError;

/// The most levels of the text of a filter.
const FILTER_LEVELS: usize = 512;

/// The most arithmetic operators of a text. A sum has a level for each, which takes stack wherever its tree is walked or dropped.
const MOST_OPERATORS: usize = 1024;

// True for the arithmetic signs.
fn is_sign(kind: TokenKind) -> bool {
    matches!(
        kind,
        TokenKind::Plus
            | TokenKind::Minus
            | TokenKind::SignedMinus
            | TokenKind::Star
            | TokenKind::Slash
            | TokenKind::Percent
    )
}

// True where an operand comes after a token of that kind, so that a sign there is no operator between two.
fn precedes_operand(kind: TokenKind) -> bool {
    is_sign(kind)
        || matches!(
            kind,
            TokenKind::Open
                | TokenKind::Comma
                | TokenKind::Equal
                | TokenKind::NotEqual
                | TokenKind::Less
                | TokenKind::LessEqual
                | TokenKind::Greater
                | TokenKind::GreaterEqual
                | TokenKind::And
                | TokenKind::Or
                | TokenKind::Not
                | TokenKind::Between
                | TokenKind::When
                | TokenKind::Then
                | TokenKind::Else
        )
}

// True where a token is an arithmetic operator between two operands, by the kind of the token before it.
fn is_operator(before: TokenKind, kind: TokenKind) -> bool {
    is_sign(kind) && !precedes_operand(before)
}

// True where a text has no more arithmetic operators than there is stack for.
fn has_few_operators(tokens: &[Token<'_>]) -> bool {
    let mut before = TokenKind::Open;
    let mut count = 0_usize;
    for token in tokens {
        if is_operator(before, token.kind) {
            count = count.saturating_add(1);
        }
        before = token.kind;
    }
    count <= MOST_OPERATORS
}

// The tree of a rule, of which no token is left over.
#[tactic(auto, unfolding(row_grammar::specs::Limits::whole_at))]
fn whole<A: Heap, P: Parser<A>>(
    reader: Reader<A>,
    tokens: &[Token<'_>],
) -> Result<P::Tree, Failure<ReadError>>
    ensures { Gives P.view result (whole_at grammar reader.run_limit reader.depth_limit P.rule (words_of tokens.now)) }
{
    let (tree, rest) = P::parse(reader, tokens)?;
    match rest {
        [] => Ok(tree),
        [_, ..] => Err(Failure::Error(ReadError::Syntax { left: rest.len() })),
    }
}

/// The tree of a rule, read from the whole text with at most so many levels and runs of any length, without offsets; or
/// nothing for any other text. A text of more than 1,024 arithmetic operators runs out of memory: the stack would not do for its tree.
pub fn read_whole<A: Heap, P: Parser<A>>(
    alloc: A,
    source: &str,
    levels: usize,
) -> Result<Option<P::Tree>, AllocError>
    ensures { IfOk result (λ t. option_map P.view t ≡ read_of (whole_at grammar (length source.now) levels P.rule (words_without_offsets source.now))) }
{
    let tokens = scan_without_offsets(alloc, source)?;
    if !has_few_operators(tokens.as_slice()) {
        return Err(AllocError);
    }
    let reader = Reader {
        alloc,
        run_limit: source.len(),
        depth_limit: levels,
    };
    match whole::<A, P>(reader, tokens.as_slice()) {
        Ok(tree) => Ok(Some(tree)),
        Err(Failure::Error(_)) => Ok(None),
        Err(Failure::OutOfMemory) => Err(AllocError),
    }
}

// An expression.
struct ExpressionParser;

impl<A: Heap> Parser<A> for ExpressionParser {
    type Tree = Located<A>;

    ghost use Rattle.row_reader.specs.Language as language;

    ghost Spec = { language.Located };

    ghost view = { λ t. located t };

    ghost rule = { rules.expression };

    fn parse<'t>(reader: Reader<A>, tokens: &'t [Token<'t>]) -> Parsed<'t, Located<A>>
        ensures { Parses (λ t. located t) rules.expression reader tokens.now result }
    {
        expression(reader, tokens)
    }
}

/// The expression of a text, without offsets; or nothing for a text that is none, or is nested more than 512 deep.
pub fn read_expr<A: Heap>(alloc: A, source: &str) -> Result<Option<Box<Expr<A>, A>>, AllocError>
    ensures { IfOk result (λ t. option_map (λ b. expr_of b.value) t ≡ expr_at source.now) }
{
    match read_whole::<A, ExpressionParser>(alloc, source, FILTER_LEVELS)? {
        Some((_, tree)) => Ok(Some(tree)),
        None => Ok(None),
    }
}
