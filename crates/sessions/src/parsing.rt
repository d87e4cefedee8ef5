//! Texts without their trees.

ghost use Rattle.std.specs.Prelude.{◌<◌, IsErrOf, length};
ghost use Rattle.memory.specs.declared.failure.Failure.TheVariants.{Error};
ghost use Rattle.syntax.specs.Parsing.{parsed_query, query_bytes};
ghost use Rattle.syntax.specs.declared.error.ParseError.TheVariants as errors;
ghost use Rattle.sessions.specs.Taking.{IsParsed};

use memory::{Failure, Heap};
use syntax::{ParseError, parse_query};

// The error of a text that is no query.
pub(crate) fn check_query<A: Heap>(alloc: A, text: &str) -> Result<(), Failure<ParseError>>
    ensures parsed { IsParsed (parsed_query text.now) result }
    ensures long { query_bytes < length text.now → IsErrOf result (Error errors.Limit) }
{
    match parse_query(alloc, text) {
        Ok(_) => Ok(()),
        Err(failure) => Err(failure),
    }
}
