//! FROM: tables, their joins, and the left joins at its end.

ghost use Rattle.std.specs.Prelude.{◌≡◌, map};
ghost use Rattle.row_grammar.specs.Decoder.{head_in, first};
ghost use Rattle.row_grammar.specs.Limits.{reads};
ghost use Rattle.row_tokens.specs.View.{words_of};
ghost use Rattle.row_reader.specs.Expressions.{grammar, nested_first};
ghost use Rattle.row_reader.specs.Language.{language, kind_of};
ghost use Rattle.row_queries.specs.From as rules;
ghost use Rattle.row_reader.specs.Reading.{Parses};
ghost use Rattle.row_ast.specs.Ast as ast;
ghost use Rattle.row_ast.specs.View.{condition_of, table_ref_of, join_of, from_item_of, left_join_of};

use memory::{Heap, Items, Text};
use row_ast::{Condition, FromItem, Join, LeftJoin, TableRef};
use row_expressions::expression;
use row_reader::comma_list::comma_list;
use row_reader::names::{name, name_after};
use row_reader::reader::{
    Class, Parsed, Parser, Reader, before, expect, expect_any, present, sees, sees_any,
};
use row_tokens::{Token, TokenKind, folded};

/// An expression and its offset.
#[tactic(auto, unfolding(crate::specs::From::condition))]
pub fn condition<'t, A: Heap>(
    reader: Reader<A>,
    tokens: &'t [Token<'t>],
) -> Parsed<'t, Condition<A>>
    ensures { Parses (λ t. condition_of t) rules.condition reader tokens.now result }
{
    let ((offset, predicate), rest) = expression(reader, tokens)?;
    Ok((Condition { predicate, offset }, rest))
}

// `[[AS] name]`.
#[tactic(auto, unfolding(crate::specs::From::table_alias, row_reader::specs::Expressions::name))]
fn table_alias<'t, A: Heap>(
    reader: Reader<A>,
    tokens: &'t [Token<'t>],
) -> Parsed<'t, Option<Text<A>>>
    ensures { Parses (λ t. t) rules.table_alias reader tokens.now result }
{
    if sees(TokenKind::As, tokens) {
        present(name_after(TokenKind::As, reader, tokens))
    } else if sees_any(Class::Name, tokens) {
        present(name(reader, tokens))
    } else {
        Ok((None, tokens))
    }
}

// `name [[AS] name]`.
#[tactic(auto, unfolding(crate::specs::From::table_ref))]
fn table_ref<'t, A: Heap>(reader: Reader<A>, tokens: &'t [Token<'t>]) -> Parsed<'t, TableRef<A>>
    ensures { Parses (λ t. table_ref_of t) rules.table_ref reader tokens.now result }
{
    let (word, rest) = expect_any(Class::Name, tokens)?;
    let (alias, rest) = table_alias(reader, rest)?;
    let table = folded(reader.alloc, word.text)?;
    let offset = word.offset;
    Ok((
        TableRef {
            table,
            alias,
            offset,
        },
        rest,
    ))
}

// `ON expression`.
#[tactic(auto, unfolding(crate::specs::From::on_condition))]
fn on_condition<'t, A: Heap>(reader: Reader<A>, tokens: &'t [Token<'t>]) -> Parsed<'t, Condition<A>>
    ensures { Parses (λ t. condition_of t) rules.on_condition reader tokens.now result }
{
    let (_, rest) = expect(TokenKind::On, tokens)?;
    condition(reader, rest)
}

// `JOIN table_ref ON expression`.
#[tactic(auto, unfolding(crate::specs::From::plain_join))]
fn plain_join<'t, A: Heap>(reader: Reader<A>, tokens: &'t [Token<'t>]) -> Parsed<'t, Join<A>>
    ensures { Parses (λ t. join_of t) rules.plain_join reader tokens.now result }
{
    let (_, rest) = expect(TokenKind::Join, tokens)?;
    let (table, rest) = table_ref(reader, rest)?;
    let ((table, on), rest) = before(table, on_condition(reader, rest))?;
    Ok((Join::Inner { table, on }, rest))
}

// `CROSS JOIN table_ref` or `[INNER] JOIN table_ref ON expression`.
#[tactic(auto, unfolding(crate::specs::From::join))]
fn join<'t, A: Heap>(reader: Reader<A>, tokens: &'t [Token<'t>]) -> Parsed<'t, Join<A>>
    ensures { Parses (λ t. join_of t) rules.join reader tokens.now result }
{
    if sees(TokenKind::Cross, tokens) {
        let (_, rest) = expect(TokenKind::Cross, tokens)?;
        let (_, rest) = expect(TokenKind::Join, rest)?;
        let (table, rest) = table_ref(reader, rest)?;
        Ok((Join::Cross { table }, rest))
    } else if sees(TokenKind::Inner, tokens) {
        let (_, rest) = expect(TokenKind::Inner, tokens)?;
        plain_join(reader, rest)
    } else {
        plain_join(reader, tokens)
    }
}

// True where a join comes next.
#[tactic(auto, unfolding(crate::specs::From::join, crate::specs::From::plain_join))]
fn sees_join(tokens: &[Token<'_>]) -> bool
    ensures { result ≡ head_in kind_of (first language nested_first rules.join) (words_of tokens.now) }
{
    sees(TokenKind::Cross, tokens)
        || sees(TokenKind::Inner, tokens)
        || sees(TokenKind::Join, tokens)
}

// `{join}`.
fn join_list<'t, A: Heap>(
    reader: Reader<A>,
    tokens: &'t [Token<'t>],
) -> Parsed<'t, Items<Join<A>, A>>
    ensures { Parses (λ t. map (λ j. join_of j) t) rules.join_list reader tokens.now result }
{
    let mut all = Items::new(reader.alloc);
    let (_, mut rest) = tokens.split_at(0);
    let most = rest.len();
    for _ in 0..most {
        if !sees_join(rest) {
            return Ok((all, rest));
        }
        let (next, after) = join(reader, rest)?;
        all.push(next)?;
        rest = after;
    }
    Ok((all, rest))
}

// An item of FROM: `table_ref {join}`.
struct FromItemParser;

impl<A: Heap> Parser<A> for FromItemParser {
    type Tree = FromItem<A>;

    ghost Spec = { ast.FromItem };

    ghost view = { λ c. from_item_of c };

    ghost rule = { rules.from_item };

    #[tactic(auto, unfolding(crate::specs::From::from_item))]
    fn parse<'t>(reader: Reader<A>, tokens: &'t [Token<'t>]) -> Parsed<'t, FromItem<A>>
        ensures { Parses (λ c. from_item_of c) rules.from_item reader tokens.now result }
    {
        let (first, rest) = table_ref(reader, tokens)?;
        let (joins, rest) = join_list(reader, rest)?;
        Ok((FromItem { first, joins }, rest))
    }
}

/// `from_item {, from_item}`.
#[tactic(auto, unfolding(crate::specs::From::from))]
pub fn from<'t, A: Heap>(
    reader: Reader<A>,
    tokens: &'t [Token<'t>],
) -> Parsed<'t, Items<FromItem<A>, A>>
    ensures { Parses (λ t. map (λ c. from_item_of c) t) rules.from reader tokens.now result }
{
    comma_list::<A, FromItemParser>(reader, tokens)
}

// `JOIN table_ref ON expression` after `LEFT [OUTER]`.
#[tactic(auto, unfolding(crate::specs::From::joined_left))]
fn joined_left<'t, A: Heap>(reader: Reader<A>, tokens: &'t [Token<'t>]) -> Parsed<'t, LeftJoin<A>>
    ensures { Parses (λ t. left_join_of t) rules.joined_left reader tokens.now result }
{
    let (_, rest) = expect(TokenKind::Join, tokens)?;
    let (table, rest) = table_ref(reader, rest)?;
    let ((table, on), rest) = before(table, on_condition(reader, rest))?;
    Ok((LeftJoin { table, on }, rest))
}

// `LEFT [OUTER] JOIN table_ref ON expression`.
#[tactic(auto, unfolding(crate::specs::From::left_join))]
fn left_join<'t, A: Heap>(reader: Reader<A>, tokens: &'t [Token<'t>]) -> Parsed<'t, LeftJoin<A>>
    ensures { Parses (λ t. left_join_of t) rules.left_join reader tokens.now result }
{
    let (_, rest) = expect(TokenKind::Left, tokens)?;
    if sees(TokenKind::Outer, rest) {
        let (_, rest) = expect(TokenKind::Outer, rest)?;
        joined_left(reader, rest)
    } else {
        joined_left(reader, rest)
    }
}

/// `{left_join}`.
pub fn left_joins<'t, A: Heap>(
    reader: Reader<A>,
    tokens: &'t [Token<'t>],
) -> Parsed<'t, Items<LeftJoin<A>, A>>
    ensures { Parses (λ t. map (λ l. left_join_of l) t) rules.left_joins reader tokens.now result }
{
    let mut all = Items::new(reader.alloc);
    let (_, mut rest) = tokens.split_at(0);
    let most = rest.len();
    for _ in 0..most {
        if !sees(TokenKind::Left, rest) {
            return Ok((all, rest));
        }
        let (next, after) = left_join(reader, rest)?;
        all.push(next)?;
        rest = after;
    }
    Ok((all, rest))
}
