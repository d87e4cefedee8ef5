//! The run of a script in a test, by itself and over an index.

use fixture_scripts::run_script;
use std::alloc::Global;
use std::test::Fail;

const INDEX: &str = "accept root\nCREATE INDEX deals_by_id ON deal (id);\n\n";

/// Runs a script, and runs it again over the store of `sales` with an index on `deal (id)`. It is a function, since a value that
/// a test drops at a `?` is part of that test's proof.
pub fn passes(alloc: Global, script: &str) -> Result<(), Fail> {
    run_script(alloc, script)?;
    let indexed = format!(in alloc; "{INDEX}{script}")?;
    Ok(run_script(alloc, indexed.as_str())?)
}
