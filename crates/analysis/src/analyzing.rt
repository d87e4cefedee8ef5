//! The analysis of a text before any row is read.

ghost use Rattle.std.specs.Prelude.{◌≡◌, IfOk, IsOk, option_map, true};
ghost use Rattle.std.specs.Result.{result_err};
ghost use Rattle.row_ast.specs.View.{query_of};
ghost use Rattle.access.specs.Access.{denial};
ghost use Rattle.access.specs.View.{privilege_of};
ghost use Rattle.access.specs.Needed.{needed};
ghost use Rattle.resolve.specs.View.{bound_of};
ghost use Rattle.replies.specs.View.{reply_of};
ghost use Rattle.analysis.specs.Analysis as spec;
ghost use Rattle.analysis.specs.Analysis.{denied_reply, is_refused_at_once, refusal_to};
ghost use Rattle.analysis.specs.View.{admitted_of, read_of};

use access::{RequiredPrivilege, missing};
use catalog::Catalog;
use memory::{Failure, Heap, Text};
use replies::Reply;
use resolve::{Bound, bind};
use row_ast::Query;
use std::alloc::AllocError;
use syntax::{ParseError, parse_query};
use value::Refusal;

fn copy_name<A: Heap>(alloc: A, name: Option<&Text<A>>) -> Result<Option<Text<A>>, AllocError>
    ensures { IfOk result (λ copy. copy ≡ option_map (λ n. n.now) name.entry) }
{
    match name {
        Some(name) => Ok(Some(Text::new(alloc, name.as_str())?)),
        None => Ok(None),
    }
}

fn denied_reply<A: Heap>(
    alloc: A,
    privilege: RequiredPrivilege<'_, A>,
) -> Result<Reply<A>, AllocError>
    ensures { IfOk result (λ reply. reply_of reply ≡ denied_reply (privilege_of privilege.entry)) }
{
    let column = copy_name(alloc, privilege.column)?;
    let table = Text::new(alloc, privilege.table.name())?;
    Ok(Reply::Denied { column, table })
}

// The first privilege that the role needs and lacks.
fn first_missing<'s, A: Heap>(
    alloc: A,
    catalog: &Catalog<A>,
    role: &str,
    bound: &Bound<'s, A>,
) -> Result<Option<RequiredPrivilege<'s, A>>, AllocError>
    ensures { IfOk result (λ missing. option_map (λ p. privilege_of p) missing ≡ denial catalog.now role.now (needed (bound_of bound.now).entries (bound_of bound.now).query)) }
{
    missing(alloc, catalog, role, bound.entries.as_slice(), &bound.query)
}

// The bound query, or its denial.
fn unless_denied<'s, A: Heap>(
    alloc: A,
    catalog: &Catalog<A>,
    role: &str,
    bound: Bound<'s, A>,
) -> Result<Result<Bound<'s, A>, Reply<A>>, AllocError>
    ensures { IfOk result (λ found. admitted_of found ≡ spec.unless_denied (bound_of bound.entry) (denial catalog.now role.now (needed (bound_of bound.entry).entries (bound_of bound.entry).query))) }
{
    match first_missing(alloc, catalog, role, &bound) {
        Ok(None) => Ok(Ok(bound)),
        Ok(Some(privilege)) => Ok(Err(denied_reply(alloc, privilege)?)),
        Err(error) => Err(error),
    }
}

/// The query bound; or the refusal by the first error of its names, aggregates, types or keys, or the denial of the
/// first privilege that is missing. It fails where memory runs out.
pub fn admit<'s, A: Heap>(
    alloc: A,
    catalog: &'s Catalog<A>,
    role: &str,
    query: &'s Query<A>,
) -> Result<Result<Bound<'s, A>, Reply<A>>, AllocError>
    ensures { IfOk result (λ found. admitted_of found ≡ spec.admitted_query catalog.now role.now (query_of query.now)) }
{
    match bind(alloc, catalog, query) {
        Ok(bound) => unless_denied(alloc, catalog, role, bound),
        Err(Failure::Error(fault)) => Ok(Err(Reply::Refused {
            code: fault.code,
            offset: Some(fault.offset),
        })),
        Err(Failure::OutOfMemory) => Err(AllocError),
    }
}

// The reply to a text that is no query.
fn refused_text<A: Heap>(error: ParseError) -> Reply<A>
    ensures { reply_of result ≡ spec.refused_text error }
{
    match error {
        ParseError::Syntax { offset } => Reply::Refused {
            code: Refusal::SyntaxError,
            offset: Some(offset),
        },
        ParseError::Limit => Reply::Refused {
            code: Refusal::ProgramLimitExceeded,
            offset: None,
        },
    }
}

/// The query of a role's text, or the refusal where there is no such role (42704) or the text is no query. It fails where
/// memory runs out.
pub fn read_query<A: Heap>(
    alloc: A,
    catalog: &Catalog<A>,
    role: &str,
    text: &str,
) -> Result<Result<Query<A>, Reply<A>>, AllocError>
    ensures read { IfOk result (λ read. read_of read ≡ spec.query_read catalog.now role.now text.now) }
    ensures at_once { is_refused_at_once catalog.now role.now text.now ≡ true → IsOk result }
{
    if !catalog.is_role(role) {
        return Ok(Err(Reply::Refused {
            code: Refusal::UndefinedObject,
            offset: None,
        }));
    }
    match parse_query(alloc, text) {
        Ok(query) => Ok(Ok(query)),
        Err(Failure::Error(error)) => Ok(Err(refused_text(error))),
        Err(Failure::OutOfMemory) => Err(AllocError),
    }
}

fn refusal_of_query<A: Heap>(
    alloc: A,
    catalog: &Catalog<A>,
    role: &str,
    query: &Query<A>,
) -> Result<Option<Reply<A>>, AllocError>
    ensures { IfOk result (λ refusal. option_map (λ r. reply_of r) refusal ≡ result_err (spec.admitted_query catalog.now role.now (query_of query.now))) }
{
    match admit(alloc, catalog, role, query)? {
        Ok(_) => Ok(None),
        Err(reply) => Ok(Some(reply)),
    }
}

/// The refusal or denial of a role's text, or none where rows decide the reply. No row is read for it. It fails where memory
/// runs out. `refusal(alloc, store.catalog(), "zed", "SELECT id FROM t")` is a refusal by 42704 where no role is zed.
pub fn refusal<A: Heap>(
    alloc: A,
    catalog: &Catalog<A>,
    role: &str,
    text: &str,
) -> Result<Option<Reply<A>>, AllocError>
    ensures { IfOk result (λ refusal. option_map (λ r. reply_of r) refusal ≡ refusal_to catalog.now role.now text.now) }
{
    match read_query(alloc, catalog, role, text)? {
        Ok(query) => {
            let refusal = refusal_of_query(alloc, catalog, role, &query);
            drop(query);
            refusal
        }
        Err(reply) => Ok(Some(reply)),
    }
}
