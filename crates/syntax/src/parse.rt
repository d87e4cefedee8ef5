//! Texts, whole.

ghost use Rattle.std.specs.Prelude.{◌≡◌, ◌<◌, ◌≤◌, ◌^◌, List, length, map, IfOk, IfErr, IsErrOf, Ok};
ghost use Rattle.memory.specs.Gives.{Gives};
ghost use Rattle.memory.specs.declared.failure.Failure.TheVariants.{Error};
ghost use Rattle.row_ast.specs.Ast as ast;
ghost use Rattle.row_ast.specs.Statements as statement_ast;
ghost use Rattle.row_ast.specs.View.{query_of, statement_of};
ghost use Rattle.row_grammar.specs.Limits.{whole_at};
ghost use Rattle.row_queries.specs.Queries as queries;
ghost use Rattle.row_reader.specs.Expressions.{grammar, run_limit, depth_limit};
ghost use Rattle.row_reader.specs.Reading.{Parses};
ghost use Rattle.row_statements.specs.Schemas as statements;
ghost use Rattle.row_tokens.specs.View.{words_of};
ghost use Rattle.row_tokens.specs.Tokens.{words};
ghost use Rattle.syntax.specs.declared.error.ParseError.TheVariants as errors;
ghost use Rattle.syntax.specs.Parsing.{Derives, RefusesQuery, RefusesSchema, RefusesStatement, IsSmall, IsDetermined, Fits, query_bytes, schema_bytes, statement_bytes, read_within, parsed_query, parsed_schema, parsed_statement, offset_of, fault_of};

use crate::error::ParseError;
use crate::limits::within_limits;
use memory::{Failure, Heap, Items};
use row_ast::{Query, Statement};
use row_grammar::ReadError;
use row_queries::query;
use row_reader::reader::{Parsed, Parser, Reader};
use row_statements::{schema, statement};
use row_tokens::{Token, scan};

/// The most bytes of a query's text.
const QUERY_BYTES: usize = 65_536;

/// The most bytes of the text of a statement alone.
const STATEMENT_BYTES: usize = 65_536;

/// The most bytes of a schema's text.
const SCHEMA_BYTES: usize = 1_048_576;

/// The number of operands that may follow the first of a run.
const RUN_LIMIT: usize = 63;

/// The most levels of a text.
const DEPTH_LIMIT: usize = 64;

// Reads from the start of a text.
#[tactic(auto, unfolding(row_reader::specs::Expressions::run_limit, row_reader::specs::Expressions::depth_limit))]
fn reader<A: Heap>(alloc: A) -> Reader<A>
    ensures run_limit { result.run_limit ≡ run_limit }
    ensures depth_limit { result.depth_limit ≡ depth_limit }
{
    Reader {
        alloc,
        run_limit: RUN_LIMIT,
        depth_limit: DEPTH_LIMIT,
    }
}

// The offset of the token of this number from the end; the end of the text for none.
fn offset_of(text: &str, tokens: &[Token<'_>], left: usize) -> u32
    requires short { length text.now < 2 ^ 32 }
    requires scanned { words_of tokens.now ≡ words text.now }
    ensures { result ≡ offset_of text.now left }
{
    match tokens.get(tokens.len().saturating_sub(left)) {
        Some(token) => token.offset,
        None => text.len() as u32,
    }
}

// The error of reading, at an offset in the text.
fn fault_of(text: &str, tokens: &[Token<'_>], error: ReadError) -> ParseError
    requires short { length text.now < 2 ^ 32 }
    requires scanned { words_of tokens.now ≡ words text.now }
    ensures { result ≡ fault_of text.now error }
{
    match error {
        ReadError::Syntax { left } => ParseError::Syntax {
            offset: offset_of(text, tokens, left),
        },
        ReadError::Limit { .. } => ParseError::Limit,
    }
}

// The parser of a query.
struct QueryParser;

impl<A: Heap> Parser<A> for QueryParser {
    type Tree = Query<A>;

    ghost Spec = { ast.Query };

    ghost view = { λ q. query_of q };

    ghost rule = { queries.query };

    fn parse<'t>(reader: Reader<A>, tokens: &'t [Token<'t>]) -> Parsed<'t, Query<A>>
        ensures { Parses (λ q. query_of q) queries.query reader tokens.now result }
    {
        query(reader, tokens)
    }
}

// The parser of a schema.
struct SchemaParser;

impl<A: Heap> Parser<A> for SchemaParser {
    type Tree = Items<Statement<A>, A>;

    ghost Spec = { List statement_ast.Statement };

    ghost view = { λ l. map (λ s. statement_of s) l };

    ghost rule = { statements.schema };

    fn parse<'t>(reader: Reader<A>, tokens: &'t [Token<'t>]) -> Parsed<'t, Items<Statement<A>, A>>
        ensures { Parses (λ l. map (λ s. statement_of s) l) statements.schema reader tokens.now result }
    {
        schema(reader, tokens)
    }
}

// The parser of a statement.
struct StatementParser;

impl<A: Heap> Parser<A> for StatementParser {
    type Tree = Statement<A>;

    ghost Spec = { statement_ast.Statement };

    ghost view = { λ s. statement_of s };

    ghost rule = { statements.statement };

    fn parse<'t>(reader: Reader<A>, tokens: &'t [Token<'t>]) -> Parsed<'t, Statement<A>>
        ensures { Parses (λ s. statement_of s) statements.statement reader tokens.now result }
    {
        statement(reader, tokens)
    }
}

// The tree of tokens by a rule, of all of them.
#[tactic(auto, unfolding(row_grammar::specs::Limits::whole_at))]
fn whole<A: Heap, P: Parser<A>>(
    alloc: A,
    tokens: &[Token<'_>],
) -> Result<P::Tree, Failure<ReadError>>
    ensures { Gives P.view result (whole_at grammar run_limit depth_limit P.rule (words_of tokens.now)) }
{
    let (tree, rest) = P::parse(reader(alloc), tokens)?;
    match rest {
        [] => Ok(tree),
        [_, ..] => Err(Failure::Error(ReadError::Syntax { left: rest.len() })),
    }
}

// The tree of a text by a rule, with parts of any size, where it has at most so many bytes.
fn read_text<A: Heap, P: Parser<A>>(
    alloc: A,
    text: &str,
    most: usize,
) -> Result<P::Tree, Failure<ParseError>>
    requires { most < 2 ^ 32 }
    ensures reading { Gives P.view result (read_within most P.rule text.now) }
    ensures long { most < length text.now → IsErrOf result (Error errors.Limit) }
{
    if text.len() > most {
        return Err(Failure::Error(ParseError::Limit));
    }
    let tokens = scan(alloc, text)?;
    match whole::<A, P>(alloc, tokens.as_slice()) {
        Ok(tree) => Ok(tree),
        Err(Failure::Error(error)) => {
            Err(Failure::Error(fault_of(text, tokens.as_slice(), error)))
        }
        Err(Failure::OutOfMemory) => Err(Failure::OutOfMemory),
    }
}

// The query of a text, within limits.
#[tactic(auto, unfolding(crate::specs::Parsing::parsed_query))]
fn query_within_limits<A: Heap>(alloc: A, text: &str) -> Result<Query<A>, Failure<ParseError>>
    ensures reading { Gives (λ q. query_of q) result (parsed_query text.now) }
    ensures long { query_bytes < length text.now → IsErrOf result (Error errors.Limit) }
{
    let query = read_text::<A, QueryParser>(alloc, text, QUERY_BYTES)?;
    if within_limits(&query) {
        Ok(query)
    } else {
        drop(query);
        Err(Failure::Error(ParseError::Limit))
    }
}

/// The query of a text. The error is `Syntax` (42601) at the first token that cannot continue it, and `Limit` (54000)
/// for more than 65,536 bytes, for nesting or a run beyond the limit or, in a text of the grammar, for parts that are
/// too many.
pub fn parse_query<A: Heap>(alloc: A, text: &str) -> Result<Query<A>, Failure<ParseError>>
    ensures reading { Gives (λ q. query_of q) result (parsed_query text.now) }
    // The grammar derives what is found.
    ensures found { IfOk result (λ q. Derives queries.query text.now (query_of q)) }
    // A tree that the grammar derives, within limits, is found, unless memory runs out.
    ensures only { (q : ast.Query) → Derives queries.query text.now q → length text.now ≤ query_bytes → IsSmall q → Gives (λ q. query_of q) result (Ok q) }
    // A refusal is at the token after the longest viable prefix, or a limit is passed.
    ensures refused { IfErr result (λ e. RefusesQuery text.now e) }
    // A text that is too long is refused before memory is asked for.
    ensures long { query_bytes < length text.now → IsErrOf result (Error errors.Limit) }
{
    query_within_limits(alloc, text)
}

/// The statements of a schema text, each followed by a semicolon. The error is `Syntax` (42601) at the first token that
/// cannot continue it, and `Limit` (54000) for more than 1,048,576 bytes or for nesting or a run beyond the limit.
#[tactic(auto, unfolding(crate::specs::Parsing::parsed_schema))]
pub fn parse_schema<A: Heap>(
    alloc: A,
    text: &str,
) -> Result<Items<Statement<A>, A>, Failure<ParseError>>
    ensures reading { Gives (λ acts. map (λ s. statement_of s) acts) result (parsed_schema text.now) }
    // The grammar derives what is found.
    ensures found { IfOk result (λ acts. Derives statements.schema text.now (map (λ s. statement_of s) acts)) }
    // A tree that the grammar derives, within limits, is found, unless memory runs out.
    ensures only { (acts : List statement_ast.Statement) → Derives statements.schema text.now acts → length text.now ≤ schema_bytes → Gives (λ found. map (λ s. statement_of s) found) result (Ok acts) }
    // A refusal is at the token after the longest viable prefix, or a limit is passed.
    ensures refused { IfErr result (λ e. RefusesSchema text.now e) }
{
    read_text::<A, SchemaParser>(alloc, text, SCHEMA_BYTES)
}

/// The schema statement of a text, without a semicolon. The error is `Syntax` (42601) at the first token that cannot
/// continue it, and `Limit` (54000) for more than 65,536 bytes or for nesting or a run that goes on beyond the limit.
#[tactic(auto, unfolding(crate::specs::Parsing::parsed_statement))]
pub fn parse_statement<A: Heap>(alloc: A, text: &str) -> Result<Statement<A>, Failure<ParseError>>
    ensures reading { Gives (λ s. statement_of s) result (parsed_statement text.now) }
    // The grammar derives what is found.
    ensures found { IfOk result (λ s. Derives statements.statement text.now (statement_of s)) }
    // A tree that the grammar derives, within limits, is found, unless memory runs out.
    ensures only { (act : statement_ast.Statement) → Derives statements.statement text.now act → length text.now ≤ statement_bytes → Gives (λ s. statement_of s) result (Ok act) }
    // A refusal is at the token after the longest viable prefix, or a limit is passed.
    ensures refused { IfErr result (λ e. RefusesStatement text.now e) }
    // A text that is too long is refused before memory is asked for.
    ensures long { statement_bytes < length text.now → IsErrOf result (Error errors.Limit) }
{
    read_text::<A, StatementParser>(alloc, text, STATEMENT_BYTES)
}

/// The functions `parsed_query`, `parsed_schema` and `parsed_statement` are determined by derivations and viable
/// prefixes.
pub fn law_parsing_is_determined()
    ensures query { IsDetermined queries.query query_bytes IsSmall parsed_query }
    ensures schema { IsDetermined statements.schema schema_bytes Fits parsed_schema }
    ensures statement { IsDetermined statements.statement statement_bytes Fits parsed_statement }
{}
