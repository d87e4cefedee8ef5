//! Indexes: the numbers of the rows of a table in the order of a column.
#![tactic(auto)]

mod index;

pub use index::{IndexRows, index_of, index_on, indexes_of, remade};
