//! Catalogues and queries, which have to be made.

use fixtures::QueryError;
use memory::Failure;
use std::process::Abort;

/// The catalogue or the query, which has to be made.
pub fn made<T: Drop>(rt: &impl Abort, made: Result<T, Failure<QueryError>>) -> T {
    match made {
        Ok(made) => made,
        Err(failure) => panic!(rt; "{failure:?}"),
    }
}
