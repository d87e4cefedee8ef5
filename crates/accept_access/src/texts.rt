//! Stores, and replies as texts.

use fixtures::FixtureError;
use memory::Failure;
use replies::{Reply, reply_text};
use std::alloc::{AllocError, Global};
use std::process::Abort;
use std::str;

/// The store, which has to be made.
pub fn made<T: Drop>(rt: &impl Abort, store: Result<T, Failure<FixtureError>>) -> T {
    match store {
        Ok(store) => store,
        Err(failure) => panic!(rt; "{failure:?}"),
    }
}

/// The reply has this text after a first line.
pub fn is_text(
    rt: &impl Abort,
    alloc: Global,
    reply: &Reply<Global>,
    first: &str,
    want: &str,
    name: &str,
) -> Result<(), AllocError> {
    let text = reply_text(alloc, reply)?;
    let got = str::from_utf8(&text).unwrap_or("no UTF-8");
    let rest = got.strip_prefix(first).unwrap_or("another first line");
    assert_eq!(rt; rest, want, "{name}");
    Ok(())
}
