//! Names, from tokens.

ghost use Rattle.std.specs.Prelude.{◌≡◌, map, IfOk};
ghost use Rattle.row_grammar.specs.Limits.{reads};
ghost use Rattle.row_tokens.specs.View.{words_of, word_of};
ghost use Rattle.row_reader.specs.Expressions as rules;
ghost use Rattle.row_reader.specs.Expressions.{column_ref};
ghost use Rattle.row_reader.specs.Language.{after, is};
ghost use Rattle.row_reader.specs.Reading.{Parses};
ghost use Rattle.value.specs.Names as names;
ghost use Rattle.value.specs.Names.{Name};
ghost use Rattle.row_ast.specs.Ast as ast;
ghost use Rattle.row_ast.specs.View.{column_ref_of};

use crate::comma_list::comma_list;
use crate::reader::{
    Class, Parsed, Parser, Reader, expect, expect_any, meant, present, sees, with_rest,
};
use memory::{Heap, Items, Text};
use row_ast::ColumnRef;
use row_tokens::{Token, TokenKind, folded};
use std::alloc::AllocError;
use value::ColType;

/// A name.
#[tactic(auto, unfolding(crate::specs::Expressions::name))]
pub fn name<'t, A: Heap>(reader: Reader<A>, tokens: &'t [Token<'t>]) -> Parsed<'t, Text<A>>
    ensures { Parses (λ t. t) rules.name reader tokens.now result }
{
    let (token, rest) = expect_any(Class::Name, tokens)?;
    with_rest(folded(reader.alloc, token.text), rest)
}

/// A word of this kind and a name.
pub fn name_after<'t, A: Heap>(
    kind: TokenKind,
    reader: Reader<A>,
    tokens: &'t [Token<'t>],
) -> Parsed<'t, Text<A>>
    ensures { Parses (λ t. t) (after (is kind) rules.name) reader tokens.now result }
{
    let (_, rest) = expect(kind, tokens)?;
    name(reader, rest)
}

/// `[. name]`.
#[tactic(auto, unfolding(crate::specs::Expressions::dot_name))]
pub fn dot_name<'t, A: Heap>(
    reader: Reader<A>,
    tokens: &'t [Token<'t>],
) -> Parsed<'t, Option<Text<A>>>
    ensures { Parses (λ t. t) rules.dot_name reader tokens.now result }
{
    if !sees(TokenKind::Dot, tokens) {
        return Ok((None, tokens));
    }
    present(name_after(TokenKind::Dot, reader, tokens))
}

/// A column of a word and a name after the dot, if there is one.
pub fn column_ref<A: Heap>(
    alloc: A,
    word: &Token<'_>,
    dotted: Option<Text<A>>,
) -> Result<ColumnRef<A>, AllocError>
    ensures { IfOk result (λ c. column_ref_of c ≡ column_ref (word_of word.now) dotted) }
{
    let first = folded(alloc, word.text)?;
    let offset = word.offset;
    match dotted {
        Some(name) => Ok(ColumnRef {
            table: Some(first),
            name,
            offset,
        }),
        None => Ok(ColumnRef {
            table: None,
            name: first,
            offset,
        }),
    }
}

/// `name [. name]`.
#[tactic(auto, unfolding(crate::specs::Expressions::column))]
pub fn column<'t, A: Heap>(reader: Reader<A>, tokens: &'t [Token<'t>]) -> Parsed<'t, ColumnRef<A>>
    ensures { Parses (λ t. column_ref_of t) rules.column reader tokens.now result }
{
    let (word, rest) = expect_any(Class::Name, tokens)?;
    let (dotted, rest) = dot_name(reader, rest)?;
    with_rest(column_ref(reader.alloc, &word, dotted), rest)
}

/// `bigint` or `text`.
#[tactic(auto, unfolding(crate::specs::Expressions::type_name))]
pub fn type_name<'t, A: Heap>(reader: Reader<A>, tokens: &'t [Token<'t>]) -> Parsed<'t, ColType>
    ensures { Parses (λ t. t) rules.type_name reader tokens.now result }
{
    if sees(TokenKind::Bigint, tokens) {
        meant(TokenKind::Bigint, ColType::Bigint, tokens)
    } else {
        meant(TokenKind::Text, ColType::Text, tokens)
    }
}

// The parser of a name.
struct NameParser;

impl<A: Heap> Parser<A> for NameParser {
    type Tree = Text<A>;

    ghost Spec = { names.Name };

    ghost view = { λ t. t };

    ghost rule = { rules.name };

    fn parse<'t>(reader: Reader<A>, tokens: &'t [Token<'t>]) -> Parsed<'t, Text<A>>
        ensures { Parses (λ t. t) rules.name reader tokens.now result }
    {
        name(reader, tokens)
    }
}

/// `name {, name}`.
pub fn names<'t, A: Heap>(
    reader: Reader<A>,
    tokens: &'t [Token<'t>],
) -> Parsed<'t, Items<Text<A>, A>>
    ensures { Parses (λ t. t) rules.names reader tokens.now result }
{
    comma_list::<A, NameParser>(reader, tokens)
}

// The parser of a column.
struct ColumnParser;

impl<A: Heap> Parser<A> for ColumnParser {
    type Tree = ColumnRef<A>;

    ghost Spec = { ast.ColumnRef };

    ghost view = { λ c. column_ref_of c };

    ghost rule = { rules.column };

    fn parse<'t>(reader: Reader<A>, tokens: &'t [Token<'t>]) -> Parsed<'t, ColumnRef<A>>
        ensures { Parses (λ c. column_ref_of c) rules.column reader tokens.now result }
    {
        column(reader, tokens)
    }
}

/// `name [. name] {, name [. name]}`.
#[tactic(auto, unfolding(crate::specs::Expressions::columns))]
pub fn columns<'t, A: Heap>(
    reader: Reader<A>,
    tokens: &'t [Token<'t>],
) -> Parsed<'t, Items<ColumnRef<A>, A>>
    ensures { Parses (λ t. map (λ c. column_ref_of c) t) rules.columns reader tokens.now result }
{
    comma_list::<A, ColumnParser>(reader, tokens)
}
