//! Worked rows of the access matrix, of changes of a schema, and of plans as trees. docs/ACCEPTANCE.md lists them.
#![tactic(auto)]

#[cfg(test)]
mod changes;
#[cfg(test)]
mod clinic;
#[cfg(test)]
mod compared;
#[cfg(test)]
mod matrix;
#[cfg(test)]
mod texts;
#[cfg(test)]
mod trees;
