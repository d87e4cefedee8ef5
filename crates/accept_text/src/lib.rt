//! Tests of texts: tokens, the grammar and its limits, names and types, in rows with expected values from outside the program.
//! docs/ACCEPTANCE.md lists them.
#![tactic(auto)]

#[cfg(test)]
mod binding;
#[cfg(test)]
mod clauses;
#[cfg(test)]
mod compared;
#[cfg(test)]
mod grammar;
#[cfg(test)]
mod limits;
#[cfg(test)]
mod names;
#[cfg(test)]
mod queries;
#[cfg(test)]
mod schemas;
#[cfg(test)]
mod tokens;
#[cfg(test)]
mod trees;
