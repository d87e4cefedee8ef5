//! What roles read, and what they gain and lose by a change of the schema.

use crate::files::{read_text, store_of};
use command_line::{Allowed, ChangesArguments, Format, MatrixArguments};
use memory::Failure;
use output::Output;
use setup::{
    Pair, SetupError, Store, write_changes, write_changes_table, write_matrix, write_matrix_table,
};
use std::alloc::{AllocError, Global};
use std::io;

/// Writes which rows and columns roles read, and why, and returns the status.
pub fn matrix(
    rt: &HostRuntime,
    alloc: Global,
    words: &MatrixArguments<'_>,
) -> Result<u8, Failure<SetupError<Global>>> {
    let schema = read_text(rt, alloc, words.schema)?;
    let store = store_of(rt, alloc, schema.as_str(), words.dir)?;
    let mut out = Output {
        inner: io::writer(rt),
        failed: 0,
    };
    let roles = words.roles.as_slice();
    Ok(match words.format {
        Format::Csv => write_matrix(alloc, &store, roles, &mut out),
        Format::Table => write_matrix_table(alloc, &store, roles, &mut out),
    })
}

// The store of a schema text of a change. Where it is refused, its path is said first, since there are two.
fn store_of_change(
    rt: &HostRuntime,
    alloc: Global,
    path: &str,
    dir: &str,
) -> Result<Store<Global>, Failure<SetupError<Global>>> {
    let schema = read_text(rt, alloc, path)?;
    let store = store_of(rt, alloc, schema.as_str(), dir);
    if store.is_err() {
        let _ = eprintln!(rt; "schema {path}");
    }
    store
}

fn pairs_of<'a>(alloc: Global, allowed: &[Allowed<'a>]) -> Result<Vec<Pair<'a>>, AllocError> {
    let mut pairs = Vec::new(alloc);
    for Allowed { role, table } in allowed {
        pairs.push(Pair { role, table })?;
    }
    Ok(pairs)
}

/// Writes what roles gain and lose by a change of the schema, and returns the status.
pub fn changes(
    rt: &HostRuntime,
    alloc: Global,
    words: &ChangesArguments<'_>,
) -> Result<u8, Failure<SetupError<Global>>> {
    let before = store_of_change(rt, alloc, words.before, words.dir)?;
    let after = store_of_change(rt, alloc, words.after, words.dir)?;
    let allowed = pairs_of(alloc, words.allowed.as_slice())?;
    let mut out = Output {
        inner: io::writer(rt),
        failed: 0,
    };
    Ok(match words.format {
        Format::Csv => write_changes(alloc, &before, &after, allowed.as_slice(), &mut out),
        Format::Table => {
            write_changes_table(alloc, &before, &after, allowed.as_slice(), &mut out)
        }
    })
}
