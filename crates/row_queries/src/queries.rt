//! Queries, from tokens.

ghost use Rattle.std.specs.Prelude.{◌≡◌, map, option_map};
ghost use Rattle.row_grammar.specs.Grammar.{both};
ghost use Rattle.row_grammar.specs.Limits.{reads};
ghost use Rattle.row_tokens.specs.View.{words_of};
ghost use Rattle.row_reader.specs.Expressions.{grammar};
ghost use Rattle.row_queries.specs.Queries as rules;
ghost use Rattle.row_queries.specs.From as tables;
ghost use Rattle.row_reader.specs.Reading.{Parses};
ghost use Rattle.row_ast.specs.Ast as ast;
ghost use Rattle.row_ast.specs.View.{column_ref_of, condition_of, select_item_of, select_list_of, from_item_of, left_join_of, sort_target_of, sort_key_of, query_of};
ghost use Rattle.row_queries.specs.View.{clauses_of};

use crate::tables::{condition, from, left_joins};
use memory::{Heap, Items, Text};
use row_ast::{
    ColumnRef, Condition, FromItem, LeftJoin, Query, SelectItem, SelectList, SortKey, SortTarget,
};
use row_expressions::expression;
use row_reader::comma_list::comma_list;
use row_reader::names::{columns, name_after};
use row_reader::reader::{
    Class, Parsed, Parser, Reader, before, expect, expect_any, meant, present, sees, sees_any,
};
use row_tokens::{Token, TokenKind, folded};

// The clauses after FROM.
#[derive(Drop)]
struct Following<A: Heap> {
    filter: Option<Condition<A>>,
    group_by: Items<ColumnRef<A>, A>,
    having: Option<Condition<A>>,
    order_by: Items<SortKey<A>, A>,
    limit: Option<u64>,
}

// `[AS name]`.
#[tactic(auto, unfolding(crate::specs::Queries::select_alias))]
fn select_alias<'t, A: Heap>(
    reader: Reader<A>,
    tokens: &'t [Token<'t>],
) -> Parsed<'t, Option<Text<A>>>
    ensures { Parses (λ t. t) rules.select_alias reader tokens.now result }
{
    if !sees(TokenKind::As, tokens) {
        return Ok((None, tokens));
    }
    present(name_after(TokenKind::As, reader, tokens))
}

// An item of SELECT: `expression [AS name]`.
struct SelectItemParser;

impl<A: Heap> Parser<A> for SelectItemParser {
    type Tree = SelectItem<A>;

    ghost Spec = { ast.SelectItem };

    ghost view = { λ i. select_item_of i };

    ghost rule = { rules.select_item };

    #[tactic(auto, unfolding(crate::specs::Queries::select_item))]
    fn parse<'t>(reader: Reader<A>, tokens: &'t [Token<'t>]) -> Parsed<'t, SelectItem<A>>
        ensures { Parses (λ i. select_item_of i) rules.select_item reader tokens.now result }
    {
        let ((_, value), rest) = expression(reader, tokens)?;
        let (alias, rest) = select_alias(reader, rest)?;
        Ok((SelectItem { value, alias }, rest))
    }
}

// `select_item {, select_item}`.
#[tactic(auto, unfolding(crate::specs::Queries::select_items))]
fn select_items<'t, A: Heap>(
    reader: Reader<A>,
    tokens: &'t [Token<'t>],
) -> Parsed<'t, Items<SelectItem<A>, A>>
    ensures { Parses (λ t. map (λ i. select_item_of i) t) rules.select_items reader tokens.now result }
{
    comma_list::<A, SelectItemParser>(reader, tokens)
}

// `*` or items.
#[tactic(auto, unfolding(crate::specs::Queries::select_list))]
fn select_list<'t, A: Heap>(reader: Reader<A>, tokens: &'t [Token<'t>]) -> Parsed<'t, SelectList<A>>
    ensures { Parses (λ t. select_list_of t) rules.select_list reader tokens.now result }
{
    if sees(TokenKind::Star, tokens) {
        let (word, rest) = expect(TokenKind::Star, tokens)?;
        let offset = word.offset;
        Ok((SelectList::All { offset }, rest))
    } else {
        let (items, rest) = select_items(reader, tokens)?;
        Ok((SelectList::Items(items), rest))
    }
}

// `[WHERE expression]`.
#[tactic(auto, unfolding(crate::specs::Queries::filter))]
fn filter<'t, A: Heap>(
    reader: Reader<A>,
    tokens: &'t [Token<'t>],
) -> Parsed<'t, Option<Condition<A>>>
    ensures { Parses (λ t. option_map (λ c. condition_of c) t) rules.filter reader tokens.now result }
{
    if !sees(TokenKind::Where, tokens) {
        return Ok((None, tokens));
    }
    let (_, rest) = expect(TokenKind::Where, tokens)?;
    present(condition(reader, rest))
}

// `[GROUP BY columns]`.
#[tactic(auto, unfolding(crate::specs::Queries::group_by))]
fn group_by<'t, A: Heap>(
    reader: Reader<A>,
    tokens: &'t [Token<'t>],
) -> Parsed<'t, Items<ColumnRef<A>, A>>
    ensures { Parses (λ t. map (λ c. column_ref_of c) t) rules.group_by reader tokens.now result }
{
    if sees(TokenKind::Group, tokens) {
        let (_, rest) = expect(TokenKind::Group, tokens)?;
        let (_, rest) = expect(TokenKind::By, rest)?;
        columns(reader, rest)
    } else {
        Ok((Items::new(reader.alloc), tokens))
    }
}

// `[HAVING expression]`.
#[tactic(auto, unfolding(crate::specs::Queries::having))]
fn having<'t, A: Heap>(
    reader: Reader<A>,
    tokens: &'t [Token<'t>],
) -> Parsed<'t, Option<Condition<A>>>
    ensures { Parses (λ t. option_map (λ c. condition_of c) t) rules.having reader tokens.now result }
{
    if !sees(TokenKind::Having, tokens) {
        return Ok((None, tokens));
    }
    let (_, rest) = expect(TokenKind::Having, tokens)?;
    present(condition(reader, rest))
}

// A heading or a position, and its offset.
#[tactic(auto, unfolding(crate::specs::Queries::sort_target))]
fn sort_target<'t, A: Heap>(
    reader: Reader<A>,
    tokens: &'t [Token<'t>],
) -> Parsed<'t, (u32, SortTarget<A>)>
    ensures { Parses (λ t. (t.0, sort_target_of t.1)) rules.sort_target reader tokens.now result }
{
    if sees(TokenKind::Number, tokens) {
        let (word, rest) = expect(TokenKind::Number, tokens)?;
        Ok(((word.offset, SortTarget::Position(word.number)), rest))
    } else {
        let (word, rest) = expect_any(Class::Name, tokens)?;
        let heading = folded(reader.alloc, word.text)?;
        Ok(((word.offset, SortTarget::Heading(heading)), rest))
    }
}

// `[ASC | DESC]`: true for `DESC`.
#[tactic(auto, unfolding(crate::specs::Queries::direction))]
fn direction<'t, A: Heap>(reader: Reader<A>, tokens: &'t [Token<'t>]) -> Parsed<'t, bool>
    ensures { Parses (λ t. t) rules.direction reader tokens.now result }
{
    if sees(TokenKind::Desc, tokens) {
        meant(TokenKind::Desc, true, tokens)
    } else if sees(TokenKind::Asc, tokens) {
        meant(TokenKind::Asc, false, tokens)
    } else {
        Ok((false, tokens))
    }
}

// A key of ORDER BY: `sort_target [ASC | DESC]`.
struct SortKeyParser;

impl<A: Heap> Parser<A> for SortKeyParser {
    type Tree = SortKey<A>;

    ghost Spec = { ast.SortKey };

    ghost view = { λ k. sort_key_of k };

    ghost rule = { rules.sort_key };

    #[tactic(auto, unfolding(crate::specs::Queries::sort_key))]
    fn parse<'t>(reader: Reader<A>, tokens: &'t [Token<'t>]) -> Parsed<'t, SortKey<A>>
        ensures { Parses (λ k. sort_key_of k) rules.sort_key reader tokens.now result }
    {
        let ((offset, target), rest) = sort_target(reader, tokens)?;
        let (descending, rest) = direction(reader, rest)?;
        Ok((
            SortKey {
                target,
                descending,
                offset,
            },
            rest,
        ))
    }
}

// `sort_key {, sort_key}`.
#[tactic(auto, unfolding(crate::specs::Queries::sort_keys))]
fn sort_keys<'t, A: Heap>(
    reader: Reader<A>,
    tokens: &'t [Token<'t>],
) -> Parsed<'t, Items<SortKey<A>, A>>
    ensures { Parses (λ t. map (λ k. sort_key_of k) t) rules.sort_keys reader tokens.now result }
{
    comma_list::<A, SortKeyParser>(reader, tokens)
}

// `[ORDER BY sort_keys]`.
#[tactic(auto, unfolding(crate::specs::Queries::order_by))]
fn order_by<'t, A: Heap>(
    reader: Reader<A>,
    tokens: &'t [Token<'t>],
) -> Parsed<'t, Items<SortKey<A>, A>>
    ensures { Parses (λ t. map (λ k. sort_key_of k) t) rules.order_by reader tokens.now result }
{
    if sees(TokenKind::Order, tokens) {
        let (_, rest) = expect(TokenKind::Order, tokens)?;
        let (_, rest) = expect(TokenKind::By, rest)?;
        sort_keys(reader, rest)
    } else {
        Ok((Items::new(reader.alloc), tokens))
    }
}

// `[LIMIT number]`.
#[tactic(auto, unfolding(crate::specs::Queries::limit))]
fn limit<'t, A: Heap>(reader: Reader<A>, tokens: &'t [Token<'t>]) -> Parsed<'t, Option<u64>>
    ensures { Parses (λ t. t) rules.limit reader tokens.now result }
{
    if !sees(TokenKind::Limit, tokens) {
        return Ok((None, tokens));
    }
    let (_, rest) = expect(TokenKind::Limit, tokens)?;
    let (word, rest) = expect(TokenKind::Number, rest)?;
    Ok((Some(word.number), rest))
}

// `[ORDER BY sort_keys] [LIMIT number]`.
fn ordered<'t, A: Heap>(
    reader: Reader<A>,
    tokens: &'t [Token<'t>],
) -> Parsed<'t, (Items<SortKey<A>, A>, Option<u64>)>
    ensures { Parses (λ t. (map (λ k. sort_key_of k) t.0, t.1)) (both rules.order_by rules.limit) reader tokens.now result }
{
    let (order_by, rest) = order_by(reader, tokens)?;
    before(order_by, limit(reader, rest))
}

// `[HAVING expression]` and the clauses after it.
fn from_having<'t, A: Heap>(
    reader: Reader<A>,
    tokens: &'t [Token<'t>],
) -> Parsed<'t, (Option<Condition<A>>, (Items<SortKey<A>, A>, Option<u64>))>
    ensures { Parses (λ t. (option_map (λ c. condition_of c) t.0, (map (λ k. sort_key_of k) t.1.0, t.1.1))) (both rules.having (both rules.order_by rules.limit)) reader tokens.now result }
{
    let (having, rest) = having(reader, tokens)?;
    let ((order_by, limit), rest) = ordered(reader, rest)?;
    Ok(((having, (order_by, limit)), rest))
}

// `[GROUP BY columns]` and the clauses after it.
fn from_group_by<'t, A: Heap>(
    reader: Reader<A>,
    tokens: &'t [Token<'t>],
) -> Parsed<
    't,
    (
        Items<ColumnRef<A>, A>,
        (Option<Condition<A>>, (Items<SortKey<A>, A>, Option<u64>)),
    ),
>
    ensures { Parses (λ t. (map (λ c. column_ref_of c) t.0, (option_map (λ c. condition_of c) t.1.0, (map (λ k. sort_key_of k) t.1.1.0, t.1.1.1)))) (both rules.group_by (both rules.having (both rules.order_by rules.limit))) reader tokens.now result }
{
    let (group_by, rest) = group_by(reader, tokens)?;
    let ((having, (order_by, limit)), rest) = from_having(reader, rest)?;
    Ok(((group_by, (having, (order_by, limit))), rest))
}

// The clauses after FROM.
#[tactic(auto, unfolding(crate::specs::Queries::clauses))]
fn clauses<'t, A: Heap>(reader: Reader<A>, tokens: &'t [Token<'t>]) -> Parsed<'t, Following<A>>
    ensures { Parses (λ t. clauses_of t) rules.clauses reader tokens.now result }
{
    let (filter, rest) = filter(reader, tokens)?;
    let ((group_by, (having, (order_by, limit))), rest) = from_group_by(reader, rest)?;
    let following = Following {
        filter,
        group_by,
        having,
        order_by,
        limit,
    };
    Ok((following, rest))
}

// The left joins of FROM and the clauses after them.
fn left_clauses<'t, A: Heap>(
    reader: Reader<A>,
    tokens: &'t [Token<'t>],
) -> Parsed<'t, (Items<LeftJoin<A>, A>, Following<A>)>
    ensures { Parses (λ t. (map (λ l. left_join_of l) t.0, clauses_of t.1)) (both tables.left_joins rules.clauses) reader tokens.now result }
{
    let (lefts, rest) = left_joins(reader, tokens)?;
    before(lefts, clauses(reader, rest))
}

// The items of FROM, its left joins and the clauses after them.
fn from_clauses<'t, A: Heap>(
    reader: Reader<A>,
    tokens: &'t [Token<'t>],
) -> Parsed<'t, (Items<FromItem<A>, A>, (Items<LeftJoin<A>, A>, Following<A>))>
    ensures { Parses (λ t. (map (λ c. from_item_of c) t.0, (map (λ l. left_join_of l) t.1.0, clauses_of t.1.1))) (both tables.from (both tables.left_joins rules.clauses)) reader tokens.now result }
{
    let (items, rest) = from(reader, tokens)?;
    let ((lefts, following), rest) = left_clauses(reader, rest)?;
    Ok(((items, (lefts, following)), rest))
}

/// `SELECT list FROM items`, its left joins and the clauses after them.
#[tactic(auto, unfolding(crate::specs::Queries::query))]
pub fn query<'t, A: Heap>(reader: Reader<A>, tokens: &'t [Token<'t>]) -> Parsed<'t, Query<A>>
    ensures { Parses (λ t. query_of t) rules.query reader tokens.now result }
{
    let (_, rest) = expect(TokenKind::Select, tokens)?;
    let (select, rest) = select_list(reader, rest)?;
    let (_, rest) = expect(TokenKind::From, rest)?;
    let ((from, (lefts, following)), rest) = from_clauses(reader, rest)?;
    let query = Query {
        select,
        from,
        lefts,
        filter: following.filter,
        group_by: following.group_by,
        having: following.having,
        order_by: following.order_by,
        limit: following.limit,
    };
    Ok((query, rest))
}
