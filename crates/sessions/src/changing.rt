//! Schema statements of roles.

ghost use Rattle.std.specs.Prelude.{◌<◌, IsOk, length};
ghost use Rattle.row_ast.specs.View.{statement_of};
ghost use Rattle.syntax.specs.Parsing.{statement_bytes};
ghost use Rattle.store.specs.Database.{changed_database};
ghost use Rattle.sessions.specs.Events.{database_after, or_refusal};
ghost use Rattle.sessions.specs.Taking.{Changes};

use crate::reply::{Reply, refused_by, refused_text};
use memory::{Failure, Heap};
use row_ast::Statement;
use std::alloc::AllocError;
use store::Store;
use syntax::parse_statement;
use value::Refusal;

fn apply_statement<A: Heap>(
    store: &mut Store<A>,
    role: &str,
    statement: &Statement<A>,
) -> Result<Reply<A>, AllocError>
    ensures { Changes store.old store.new (or_refusal (changed_database store.old role.now (statement_of statement.now))) result }
{
    match store.change(role, statement) {
        Ok(()) => Ok(Reply::Done),
        Err(Refusal::OutOfMemory) => Err(AllocError),
        Err(code) => Ok(refused_by(code)),
    }
}

// Applies the statement of a text, by a role. It is refused by its length or its first syntax error, else by the first
// check of the statement that fails.
pub(crate) fn apply_text<A: Heap>(
    alloc: A,
    store: &mut Store<A>,
    role: &str,
    text: &str,
) -> Result<Reply<A>, AllocError>
    ensures changes { Changes store.old store.new (database_after store.old role.now text.now) result }
    ensures long { statement_bytes < length text.now → IsOk result }
{
    match parse_statement(alloc, text) {
        Ok(statement) => {
            let changed = apply_statement(store, role, &statement);
            drop(statement);
            changed
        }
        Err(Failure::Error(error)) => Ok(refused_text(error)),
        Err(Failure::OutOfMemory) => Err(AllocError),
    }
}
