//! What the names of a text resolve to: entries, their scope, and expressions with their columns found.
#![tactic(auto)]

mod entry;
mod error;
mod expressions;
mod lookup;
mod nodes;

pub use entry::Entry;
pub use error::BindError;
pub use expressions::bind_expr;
pub use lookup::{Scope, everywhere, find_column, on_scope};
pub use nodes::BindResult;
