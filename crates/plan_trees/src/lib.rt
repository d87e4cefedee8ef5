//! Plans as trees, indented as PostgreSQL's EXPLAIN indents its own.
#![tactic(auto)]

mod details;
mod named_entries;
mod names;
mod nodes;
mod source;
mod titles;
mod writing;

pub use writing::write_tree;
