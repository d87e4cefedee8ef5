//! Schema texts.

ghost use Rattle.std.specs.Prelude.{◌≡◌, ◌+◌, IfErr, map};
ghost use Rattle.memory.specs.Gives.{Gives};
ghost use Rattle.row_ast.specs.View.{statement_of};
ghost use Rattle.syntax.specs.Parsing.{parsed_schema};
ghost use Rattle.setup.specs.Schema.{IsStep, StopsAfter, StopsAfterFront, applied, refused_by, schema_applied};

use crate::error::SchemaError;
use engine::Store;
use memory::{Failure, Heap};
use row_ast::Statement;
use syntax::{ParseError, parse_schema};
use value::Refusal;

// The error of a statement that is refused by a code.
fn refused_by(number: usize, code: Refusal) -> Failure<SchemaError>
    ensures { result ≡ refused_by number code }
{
    match code {
        Refusal::OutOfMemory => Failure::OutOfMemory,
        _ => Failure::Error(SchemaError::Statement { number, code }),
    }
}

// Applies the statement of a number, by root.
fn apply_statement<A: Heap>(
    store: &mut Store<A>,
    number: usize,
    statement: &Statement<A>,
) -> Result<(), Failure<SchemaError>>
    ensures { IsStep number store.old store.new (statement_of statement.now) result }
{
    match store.change("root", statement) {
        Ok(()) => Ok(()),
        Err(code) => Err(refused_by(number, code)),
    }
}

// Applies statements in turn, by root.
fn apply_statements<A: Heap>(
    store: &mut Store<A>,
    statements: &[Statement<A>],
) -> Result<(), Failure<SchemaError>>
    ensures applied { Gives (λ _. store.new) result (applied store.old (map (λ s. statement_of s) statements.now)) }
    ensures stops { IfErr result (λ e. StopsAfter store.old store.new (map (λ s. statement_of s) statements.now) e) }
{
    for (i, statement) in statements.iter().enumerate() {
        match apply_statement(store, i + 1, statement) {
            Ok(()) => {}
            Err(error) => return Err(error),
        }
    }
    Ok(())
}

/// Applies the statements of a schema text in turn, by the superuser `root`. The first refusal ends it and is reported with
/// the number of its statement, from 1; the statements before it stay applied. A text that is no schema changes nothing.
pub fn apply_schema<A: Heap>(
    alloc: A,
    store: &mut Store<A>,
    text: &str,
) -> Result<(), Failure<SchemaError>>
    ensures applied { Gives (λ _. store.new) result (schema_applied store.old text.now) }
    ensures stops { IfErr result (λ e. StopsAfterFront store.old store.new (parsed_schema text.now) e) }
{
    match parse_schema(alloc, text) {
        Ok(statements) => apply_statements(store, statements.as_slice()),
        Err(Failure::Error(ParseError::Syntax { offset })) => {
            Err(Failure::Error(SchemaError::Syntax { offset }))
        }
        Err(Failure::Error(ParseError::Limit)) => Err(Failure::Error(SchemaError::Limit)),
        Err(Failure::OutOfMemory) => Err(Failure::OutOfMemory),
    }
}
