//! The objects of CREATE, from tokens.

ghost use Rattle.std.specs.Prelude.{◌≡◌, option_map};
ghost use Rattle.row_grammar.specs.Grammar.{both};
ghost use Rattle.row_grammar.specs.Limits.{reads};
ghost use Rattle.row_tokens.specs.declared.token.TokenKind.TheVariants as kinds;
ghost use Rattle.row_tokens.specs.View.{word_of, words_of};
ghost use Rattle.row_reader.specs.Expressions.{grammar};
ghost use Rattle.row_reader.specs.Expressions as expressions;
ghost use Rattle.row_reader.specs.Language.{after, enclosed, is};
ghost use Rattle.row_reader.specs.Reading.{Parses};
ghost use Rattle.row_statements.specs.Creates as rules;
ghost use Rattle.row_ast.specs.Statements as statements;
ghost use Rattle.row_ast.specs.View.{statement_of};
ghost use Rattle.value.specs.Columns as columns;
ghost use Rattle.value.specs.Columns.{column_of, columns_of};
ghost use Rattle.row_expressions.specs.View.{located};

use memory::{Heap, Items, Text};
use row_ast::{CreatePolicy, Statement};
use row_expressions::{Located, inner_expression};
use row_reader::comma_list::comma_list;
use row_reader::names::{name, name_after, names, type_name};
use row_reader::reader::{
    Parsed, Parser, Reader, before, closed, expect, meant, open, present, sees,
};
use row_tokens::{Token, TokenKind};
use value::{ColType, Column};

// `[SUPERUSER]`.
#[tactic(auto, unfolding(crate::specs::Creates::superuser))]
fn superuser<'t, A: Heap>(reader: Reader<A>, tokens: &'t [Token<'t>]) -> Parsed<'t, bool>
    ensures { Parses (λ t. t) rules.superuser reader tokens.now result }
{
    if !sees(TokenKind::Superuser, tokens) {
        return Ok((false, tokens));
    }
    meant(TokenKind::Superuser, true, tokens)
}

// `[BYPASSRLS]`.
#[tactic(auto, unfolding(crate::specs::Creates::bypass_rls))]
fn bypass_rls<'t, A: Heap>(reader: Reader<A>, tokens: &'t [Token<'t>]) -> Parsed<'t, bool>
    ensures { Parses (λ t. t) rules.bypass_rls reader tokens.now result }
{
    if !sees(TokenKind::Bypassrls, tokens) {
        return Ok((false, tokens));
    }
    meant(TokenKind::Bypassrls, true, tokens)
}

// `ROLE name [SUPERUSER] [BYPASSRLS]`.
#[tactic(auto, unfolding(crate::specs::Creates::new_role))]
fn new_role<'t, A: Heap>(reader: Reader<A>, tokens: &'t [Token<'t>]) -> Parsed<'t, Statement<A>>
    ensures { Parses (λ t. statement_of t) rules.new_role reader tokens.now result }
{
    let (_, rest) = expect(TokenKind::Role, tokens)?;
    let (name, rest) = name(reader, rest)?;
    let (superuser, rest) = superuser(reader, rest)?;
    let (bypass_rls, rest) = bypass_rls(reader, rest)?;
    let role = Statement::CreateRole {
        name,
        superuser,
        bypass_rls,
    };
    Ok((role, rest))
}

// `bigint`, `text` or `boolean`.
#[tactic(auto, unfolding(crate::specs::Creates::column_type))]
fn column_type<'t, A: Heap>(reader: Reader<A>, tokens: &'t [Token<'t>]) -> Parsed<'t, ColType>
    ensures { Parses (λ t. t) rules.column_type reader tokens.now result }
{
    if sees(TokenKind::Boolean, tokens) {
        meant(TokenKind::Boolean, ColType::Boolean, tokens)
    } else {
        type_name(reader, tokens)
    }
}

// `[NOT NULL]`.
#[tactic(auto, unfolding(crate::specs::Creates::not_null))]
fn not_null<'t, A: Heap>(reader: Reader<A>, tokens: &'t [Token<'t>]) -> Parsed<'t, bool>
    ensures { Parses (λ t. t) rules.not_null reader tokens.now result }
{
    if !sees(TokenKind::Not, tokens) {
        return Ok((false, tokens));
    }
    let (_, rest) = expect(TokenKind::Not, tokens)?;
    meant(TokenKind::Null, true, rest)
}

// A column of CREATE TABLE: `name type [NOT NULL]`.
struct ColumnDefParser;

impl<A: Heap> Parser<A> for ColumnDefParser {
    type Tree = Column<A>;

    ghost Spec = { columns.Column };

    ghost view = { λ c. column_of c };

    ghost rule = { rules.column_def };

    #[tactic(auto, unfolding(crate::specs::Creates::column_def))]
    fn parse<'t>(reader: Reader<A>, tokens: &'t [Token<'t>]) -> Parsed<'t, Column<A>>
        ensures { Parses (λ c. column_of c) rules.column_def reader tokens.now result }
    {
        let (name, rest) = name(reader, tokens)?;
        let (data_type, rest) = column_type(reader, rest)?;
        let (not_null, rest) = not_null(reader, rest)?;
        Ok((
            Column {
                name,
                data_type,
                not_null,
            },
            rest,
        ))
    }
}

// `name type [NOT NULL] {, name type [NOT NULL]}`.
#[tactic(auto, unfolding(crate::specs::Creates::column_defs))]
fn column_defs<'t, A: Heap>(
    reader: Reader<A>,
    tokens: &'t [Token<'t>],
) -> Parsed<'t, Items<Column<A>, A>>
    ensures { Parses (λ t. columns_of t) rules.column_defs reader tokens.now result }
{
    comma_list::<A, ColumnDefParser>(reader, tokens)
}

// `( columns )`.
fn enclosed_columns<'t, A: Heap>(
    reader: Reader<A>,
    tokens: &'t [Token<'t>],
) -> Parsed<'t, Items<Column<A>, A>>
    ensures { Parses (λ t. columns_of t) (enclosed rules.column_defs) reader tokens.now result }
{
    let (_, rest) = expect(TokenKind::Open, tokens)?;
    closed(column_defs(reader, rest))
}

// `TABLE name ( columns )`.
#[tactic(auto, unfolding(crate::specs::Creates::new_table))]
fn new_table<'t, A: Heap>(reader: Reader<A>, tokens: &'t [Token<'t>]) -> Parsed<'t, Statement<A>>
    ensures { Parses (λ t. statement_of t) rules.new_table reader tokens.now result }
{
    let (name, rest) = name_after(TokenKind::Table, reader, tokens)?;
    let ((name, columns), rest) = before(name, enclosed_columns(reader, rest))?;
    Ok((Statement::CreateTable { name, columns }, rest))
}

// `( name )`.
fn enclosed_name<'t, A: Heap>(reader: Reader<A>, tokens: &'t [Token<'t>]) -> Parsed<'t, Text<A>>
    ensures { Parses (λ t. t) (enclosed expressions.name) reader tokens.now result }
{
    let (_, rest) = expect(TokenKind::Open, tokens)?;
    closed(name(reader, rest))
}

// `ON table ( column )`.
fn on_column<'t, A: Heap>(
    reader: Reader<A>,
    tokens: &'t [Token<'t>],
) -> Parsed<'t, (Text<A>, Text<A>)>
    ensures { Parses (λ t. t) (after (is kinds.On) (both expressions.name (enclosed expressions.name))) reader tokens.now result }
{
    let (table, rest) = name_after(TokenKind::On, reader, tokens)?;
    before(table, enclosed_name(reader, rest))
}

// `INDEX name ON table ( column )`.
#[tactic(auto, unfolding(crate::specs::Creates::new_index))]
fn new_index<'t, A: Heap>(reader: Reader<A>, tokens: &'t [Token<'t>]) -> Parsed<'t, Statement<A>>
    ensures { Parses (λ t. statement_of t) rules.new_index reader tokens.now result }
{
    let (name, rest) = name_after(TokenKind::Index, reader, tokens)?;
    let ((name, (table, column)), rest) = before(name, on_column(reader, rest))?;
    let index = Statement::CreateIndex {
        name,
        table,
        column,
    };
    Ok((index, rest))
}

// `[AS PERMISSIVE | AS RESTRICTIVE]`; true for restrictive.
#[tactic(auto, unfolding(crate::specs::Creates::strength))]
fn strength<'t, A: Heap>(reader: Reader<A>, tokens: &'t [Token<'t>]) -> Parsed<'t, bool>
    ensures { Parses (λ t. t) rules.strength reader tokens.now result }
{
    if !sees(TokenKind::As, tokens) {
        return Ok((false, tokens));
    }
    let (_, rest) = expect(TokenKind::As, tokens)?;
    if sees(TokenKind::Restrictive, rest) {
        meant(TokenKind::Restrictive, true, rest)
    } else {
        meant(TokenKind::Permissive, false, rest)
    }
}

// `[FOR ALL | FOR SELECT]`.
#[tactic(auto, unfolding(crate::specs::Creates::command))]
fn command<'t, A: Heap>(reader: Reader<A>, tokens: &'t [Token<'t>]) -> Parsed<'t, Option<Token<'t>>>
    ensures { Parses (λ t. option_map (λ w. word_of w) t) rules.command reader tokens.now result }
{
    if !sees(TokenKind::For, tokens) {
        return Ok((None, tokens));
    }
    let (_, rest) = expect(TokenKind::For, tokens)?;
    if sees(TokenKind::All, rest) {
        present(expect(TokenKind::All, rest))
    } else {
        present(expect(TokenKind::Select, rest))
    }
}

// `[TO names]`, and everyone where no roles are named.
#[tactic(auto, unfolding(crate::specs::Creates::policy_roles))]
fn policy_roles<'t, A: Heap>(
    reader: Reader<A>,
    tokens: &'t [Token<'t>],
) -> Parsed<'t, Items<Text<A>, A>>
    ensures { Parses (λ t. t) rules.policy_roles reader tokens.now result }
{
    if sees(TokenKind::To, tokens) {
        let (_, rest) = expect(TokenKind::To, tokens)?;
        names(reader, rest)
    } else {
        let mut roles = Items::new(reader.alloc);
        roles.push(Text::new(reader.alloc, "public")?)?;
        Ok((roles, tokens))
    }
}

// `USING ( condition )`.
#[tactic(auto, unfolding(crate::specs::Creates::using))]
fn using<'t, A: Heap>(reader: Reader<A>, tokens: &'t [Token<'t>]) -> Parsed<'t, Located<A>>
    ensures { Parses (λ t. located t) rules.using reader tokens.now result }
{
    let (_, rest) = expect(TokenKind::Using, tokens)?;
    let (_, rest) = open(TokenKind::Open, reader.depth_limit, rest)?;
    closed(inner_expression(reader, rest))
}

// `[TO roles] USING ( condition )`.
fn roles_using<'t, A: Heap>(
    reader: Reader<A>,
    tokens: &'t [Token<'t>],
) -> Parsed<'t, (Items<Text<A>, A>, Located<A>)>
    ensures { Parses (λ t. (t.0, located t.1)) (both rules.policy_roles rules.using) reader tokens.now result }
{
    let (roles, rest) = policy_roles(reader, tokens)?;
    before(roles, using(reader, rest))
}

// The parts of a policy after its table.
type Terms<'t, A> = (bool, (Option<Token<'t>>, (Items<Text<A>, A>, Located<A>)));

// `[AS ..] [FOR ..] [TO roles] USING ( condition )`.
fn policy_terms<'t, A: Heap>(reader: Reader<A>, tokens: &'t [Token<'t>]) -> Parsed<'t, Terms<'t, A>>
    ensures { Parses (λ t. (t.0, (option_map (λ w. word_of w) t.1.0, (t.1.1.0, located t.1.1.1)))) (both rules.strength (both rules.command (both rules.policy_roles rules.using))) reader tokens.now result }
{
    let (restrictive, rest) = strength(reader, tokens)?;
    let (command, rest) = command(reader, rest)?;
    let (further, rest) = roles_using(reader, rest)?;
    Ok(((restrictive, (command, further)), rest))
}

// `ON table [AS ..] [FOR ..] [TO roles] USING ( condition )`.
fn on_table<'t, A: Heap>(
    reader: Reader<A>,
    tokens: &'t [Token<'t>],
) -> Parsed<'t, (Text<A>, Terms<'t, A>)>
    ensures { Parses (λ t. (t.0, (t.1.0, (option_map (λ w. word_of w) t.1.1.0, (t.1.1.1.0, located t.1.1.1.1))))) (after (is kinds.On) (both expressions.name (both rules.strength (both rules.command (both rules.policy_roles rules.using))))) reader tokens.now result }
{
    let (table, rest) = name_after(TokenKind::On, reader, tokens)?;
    before(table, policy_terms(reader, rest))
}

// The policy of its parts.
fn policy_of<A: Heap>(name: Text<A>, table: Text<A>, terms: Terms<'_, A>) -> Statement<A>
    ensures { statement_of result ≡ statements.CreatePolicy record { name = name; table = table; restrictive = terms.entry.0; roles = terms.entry.1.1.0; predicate = (located terms.entry.1.1.1).1 } }
{
    let (restrictive, (_, (roles, (_, predicate)))) = terms;
    Statement::CreatePolicy(CreatePolicy {
        name,
        table,
        restrictive,
        roles,
        predicate,
    })
}

// `POLICY name ON table [AS ..] [FOR ..] [TO roles] USING ( condition )`.
#[tactic(auto, unfolding(crate::specs::Creates::new_policy))]
fn new_policy<'t, A: Heap>(reader: Reader<A>, tokens: &'t [Token<'t>]) -> Parsed<'t, Statement<A>>
    ensures { Parses (λ t. statement_of t) rules.new_policy reader tokens.now result }
{
    let (name, rest) = name_after(TokenKind::Policy, reader, tokens)?;
    let ((name, (table, terms)), rest) = before(name, on_table(reader, rest))?;
    Ok((policy_of(name, table, terms), rest))
}

/// `CREATE` and a role, a table, an index or a policy.
#[tactic(auto, unfolding(crate::specs::Creates::create, crate::specs::Creates::new_role, crate::specs::Creates::new_table, crate::specs::Creates::new_index))]
pub fn create<'t, A: Heap>(reader: Reader<A>, tokens: &'t [Token<'t>]) -> Parsed<'t, Statement<A>>
    ensures { Parses (λ t. statement_of t) rules.create reader tokens.now result }
{
    let (_, rest) = expect(TokenKind::Create, tokens)?;
    if sees(TokenKind::Role, rest) {
        new_role(reader, rest)
    } else if sees(TokenKind::Table, rest) {
        new_table(reader, rest)
    } else if sees(TokenKind::Index, rest) {
        new_index(reader, rest)
    } else {
        new_policy(reader, rest)
    }
}
