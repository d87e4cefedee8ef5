//! Schema statements, from tokens.

ghost use Rattle.std.specs.Prelude.{◌≡◌, map};
ghost use Rattle.row_grammar.specs.Decoder.{head_in, first};
ghost use Rattle.row_grammar.specs.Grammar.{made};
ghost use Rattle.row_grammar.specs.Limits.{reads};
ghost use Rattle.row_tokens.specs.View.{words_of};
ghost use Rattle.row_reader.specs.Expressions.{grammar, nested_first};
ghost use Rattle.row_reader.specs.Expressions as expressions;
ghost use Rattle.row_reader.specs.Language.{language, kind_of, after, is};
ghost use Rattle.row_reader.specs.Reading.{Parses};
ghost use Rattle.row_statements.specs.Schemas as rules;
ghost use Rattle.row_ast.specs.View.{statement_of};
ghost use Rattle.row_statements.specs.View.{granting_of};

use crate::creating::create;
use memory::{Heap, Items, Text};
use row_ast::{Grant, RowSecurity, Statement};
use row_reader::names::{name, name_after, names};
use row_reader::reader::{Parsed, Reader, before, closed, expect, meant, present, sees};
use row_tokens::{Token, TokenKind};

// `OWNER TO name`.
#[tactic(auto, unfolding(crate::specs::Schemas::owner))]
fn owner<'t, A: Heap>(reader: Reader<A>, tokens: &'t [Token<'t>]) -> Parsed<'t, Text<A>>
    ensures { Parses (λ t. t) rules.owner reader tokens.now result }
{
    let (_, rest) = expect(TokenKind::Owner, tokens)?;
    name_after(TokenKind::To, reader, rest)
}

// `ENABLE`, `DISABLE`, `FORCE` or `NO FORCE`.
#[tactic(auto, unfolding(crate::specs::Schemas::security_setting))]
fn security_setting<'t, A: Heap>(
    reader: Reader<A>,
    tokens: &'t [Token<'t>],
) -> Parsed<'t, RowSecurity>
    ensures { Parses (λ t. t) rules.security_setting reader tokens.now result }
{
    if sees(TokenKind::Enable, tokens) {
        meant(TokenKind::Enable, RowSecurity::Enable, tokens)
    } else if sees(TokenKind::Disable, tokens) {
        meant(TokenKind::Disable, RowSecurity::Disable, tokens)
    } else if sees(TokenKind::Force, tokens) {
        meant(TokenKind::Force, RowSecurity::Force, tokens)
    } else {
        let (_, rest) = expect(TokenKind::No, tokens)?;
        meant(TokenKind::Force, RowSecurity::NoForce, rest)
    }
}

// A setting and `ROW LEVEL SECURITY`.
#[tactic(auto, unfolding(crate::specs::Schemas::security))]
fn security<'t, A: Heap>(reader: Reader<A>, tokens: &'t [Token<'t>]) -> Parsed<'t, RowSecurity>
    ensures { Parses (λ t. t) rules.security reader tokens.now result }
{
    let (setting, rest) = security_setting(reader, tokens)?;
    let (_, rest) = expect(TokenKind::Row, rest)?;
    let (_, rest) = expect(TokenKind::Level, rest)?;
    meant(TokenKind::Security, setting, rest)
}

// `OWNER TO name`, or row security, of this table.
#[tactic(auto, unfolding(crate::specs::Schemas::alteration, crate::specs::Schemas::owner))]
fn altered<'t, A: Heap>(
    table: Text<A>,
    reader: Reader<A>,
    tokens: &'t [Token<'t>],
) -> Parsed<'t, Statement<A>>
    ensures { Parses (λ t. statement_of t) (made (rules.altered table) rules.alteration) reader tokens.now result }
{
    if sees(TokenKind::Owner, tokens) {
        let (owner, rest) = owner(reader, tokens)?;
        Ok((Statement::SetOwner { table, owner }, rest))
    } else {
        let (setting, rest) = security(reader, tokens)?;
        Ok((Statement::SetRowSecurity { table, setting }, rest))
    }
}

// `ALTER TABLE name` and a new owner, or row security.
#[tactic(auto, unfolding(crate::specs::Schemas::alter))]
fn alter<'t, A: Heap>(reader: Reader<A>, tokens: &'t [Token<'t>]) -> Parsed<'t, Statement<A>>
    ensures { Parses (λ t. statement_of t) rules.alter reader tokens.now result }
{
    let (_, rest) = expect(TokenKind::Alter, tokens)?;
    let (_, rest) = expect(TokenKind::Table, rest)?;
    let (table, rest) = name(reader, rest)?;
    altered(table, reader, rest)
}

// `[( columns )]`.
#[tactic(auto, unfolding(crate::specs::Schemas::grant_columns))]
fn grant_columns<'t, A: Heap>(
    reader: Reader<A>,
    tokens: &'t [Token<'t>],
) -> Parsed<'t, Option<Items<Text<A>, A>>>
    ensures { Parses (λ t. t) rules.grant_columns reader tokens.now result }
{
    if !sees(TokenKind::Open, tokens) {
        return Ok((None, tokens));
    }
    let (_, rest) = expect(TokenKind::Open, tokens)?;
    present(closed(names(reader, rest)))
}

// `SELECT [( columns )] ON name`.
#[tactic(auto, unfolding(crate::specs::Schemas::granted))]
fn granted<'t, A: Heap>(
    reader: Reader<A>,
    tokens: &'t [Token<'t>],
) -> Parsed<'t, (Option<Items<Text<A>, A>>, Text<A>)>
    ensures { Parses (λ t. t) rules.granted reader tokens.now result }
{
    let (_, rest) = expect(TokenKind::Select, tokens)?;
    let (columns, rest) = grant_columns(reader, rest)?;
    before(columns, name_after(TokenKind::On, reader, rest))
}

// A word of this kind and names.
fn names_after<'t, A: Heap>(
    kind: TokenKind,
    reader: Reader<A>,
    tokens: &'t [Token<'t>],
) -> Parsed<'t, Items<Text<A>, A>>
    ensures { Parses (λ t. t) (after (is kind) expressions.names) reader tokens.now result }
{
    let (_, rest) = expect(kind, tokens)?;
    names(reader, rest)
}

// The part of a statement after GRANT or REVOKE.
#[derive(Drop)]
enum GrantBody<A: Heap> {
    // SELECT on a table, or on columns of it.
    Select(Grant<A>),
    // A membership.
    Role { group: Text<A>, member: Text<A> },
}

// `SELECT .. TO roles`, or `group TO member`, with this word for TO.
#[tactic(auto, unfolding(crate::specs::Schemas::granting, crate::specs::Schemas::granted))]
fn granting<'t, A: Heap>(
    word: TokenKind,
    reader: Reader<A>,
    tokens: &'t [Token<'t>],
) -> Parsed<'t, GrantBody<A>>
    ensures { Parses (λ t. granting_of t) (rules.granting word) reader tokens.now result }
{
    if sees(TokenKind::Select, tokens) {
        let ((columns, table), rest) = granted(reader, tokens)?;
        let (roles, rest) = names_after(word, reader, rest)?;
        let grant = Grant {
            columns,
            table,
            roles,
        };
        Ok((GrantBody::Select(grant), rest))
    } else {
        let (group, rest) = name(reader, tokens)?;
        let (member, rest) = name_after(word, reader, rest)?;
        Ok((GrantBody::Role { group, member }, rest))
    }
}

// `GRANT SELECT .. TO roles`, or `GRANT group TO member`.
#[tactic(auto, unfolding(crate::specs::Schemas::grant))]
fn grant<'t, A: Heap>(reader: Reader<A>, tokens: &'t [Token<'t>]) -> Parsed<'t, Statement<A>>
    ensures { Parses (λ t. statement_of t) rules.grant reader tokens.now result }
{
    let (_, rest) = expect(TokenKind::Grant, tokens)?;
    let (granting, rest) = granting(TokenKind::To, reader, rest)?;
    let statement = match granting {
        GrantBody::Select(grant) => Statement::GrantSelect(grant),
        GrantBody::Role { group, member } => Statement::GrantRole { group, member },
    };
    Ok((statement, rest))
}

// `REVOKE SELECT .. FROM roles`, or `REVOKE group FROM member`.
#[tactic(auto, unfolding(crate::specs::Schemas::revoke))]
fn revoke<'t, A: Heap>(reader: Reader<A>, tokens: &'t [Token<'t>]) -> Parsed<'t, Statement<A>>
    ensures { Parses (λ t. statement_of t) rules.revoke reader tokens.now result }
{
    let (_, rest) = expect(TokenKind::Revoke, tokens)?;
    let (granting, rest) = granting(TokenKind::From, reader, rest)?;
    let statement = match granting {
        GrantBody::Select(grant) => Statement::RevokeSelect(grant),
        GrantBody::Role { group, member } => Statement::RevokeRole { group, member },
    };
    Ok((statement, rest))
}

// `DROP POLICY name ON table`.
#[tactic(auto, unfolding(crate::specs::Schemas::drop))]
fn drop_policy<'t, A: Heap>(reader: Reader<A>, tokens: &'t [Token<'t>]) -> Parsed<'t, Statement<A>>
    ensures { Parses (λ t. statement_of t) rules.drop reader tokens.now result }
{
    let (_, rest) = expect(TokenKind::Drop, tokens)?;
    let (_, rest) = expect(TokenKind::Policy, rest)?;
    let (policy, rest) = name(reader, rest)?;
    let (table, rest) = name_after(TokenKind::On, reader, rest)?;
    let policy = Statement::DropPolicy {
        name: policy,
        table,
    };
    Ok((policy, rest))
}

/// One of these statements.
#[tactic(auto, unfolding(crate::specs::Schemas::statement, crate::specs::Creates::create, crate::specs::Schemas::alter, crate::specs::Schemas::alteration, crate::specs::Schemas::grant, crate::specs::Schemas::revoke))]
pub fn statement<'t, A: Heap>(
    reader: Reader<A>,
    tokens: &'t [Token<'t>],
) -> Parsed<'t, Statement<A>>
    ensures { Parses (λ t. statement_of t) rules.statement reader tokens.now result }
{
    if sees(TokenKind::Create, tokens) {
        create(reader, tokens)
    } else if sees(TokenKind::Alter, tokens) {
        alter(reader, tokens)
    } else if sees(TokenKind::Grant, tokens) {
        grant(reader, tokens)
    } else if sees(TokenKind::Revoke, tokens) {
        revoke(reader, tokens)
    } else {
        drop_policy(reader, tokens)
    }
}

// `statement ;`.
#[tactic(auto, unfolding(crate::specs::Schemas::ended_statement))]
fn ended_statement<'t, A: Heap>(
    reader: Reader<A>,
    tokens: &'t [Token<'t>],
) -> Parsed<'t, Statement<A>>
    ensures { Parses (λ t. statement_of t) rules.ended_statement reader tokens.now result }
{
    let (statement, rest) = statement(reader, tokens)?;
    meant(TokenKind::Semicolon, statement, rest)
}

// True where a statement comes next.
#[tactic(auto, unfolding(crate::specs::Schemas::ended_statement, crate::specs::Schemas::statement, crate::specs::Creates::create, crate::specs::Schemas::alter, crate::specs::Schemas::alteration, crate::specs::Schemas::grant, crate::specs::Schemas::revoke, crate::specs::Schemas::drop))]
fn sees_statement(tokens: &[Token<'_>]) -> bool
    ensures { result ≡ head_in kind_of (first language nested_first rules.ended_statement) (words_of tokens.now) }
{
    sees(TokenKind::Create, tokens)
        || sees(TokenKind::Alter, tokens)
        || sees(TokenKind::Grant, tokens)
        || sees(TokenKind::Revoke, tokens)
        || sees(TokenKind::Drop, tokens)
}

/// `{statement ;}`.
pub fn schema<'t, A: Heap>(
    reader: Reader<A>,
    tokens: &'t [Token<'t>],
) -> Parsed<'t, Items<Statement<A>, A>>
    ensures { Parses (λ t. map (λ s. statement_of s) t) rules.schema reader tokens.now result }
{
    let mut all = Items::new(reader.alloc);
    let (_, mut rest) = tokens.split_at(0);
    let most = rest.len();
    for _ in 0..most {
        if !sees_statement(rest) {
            return Ok((all, rest));
        }
        let (next, after) = ended_statement(reader, rest)?;
        all.push(next)?;
        rest = after;
    }
    Ok((all, rest))
}
