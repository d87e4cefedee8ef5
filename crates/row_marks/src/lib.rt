//! What is computed once a row: the expressions of a query over one entry of FROM, each with its marks.
#![tactic(auto)]

mod calls;
mod mark_column;
mod marked;
mod marked_arguments;
mod marks;

pub use calls::query_aggregates;
pub use mark_column::MarkColumn;
pub use marked::{Marked, MarkedArgument};
pub use marked_arguments::MarkedArguments;
pub use marks::Marks;
