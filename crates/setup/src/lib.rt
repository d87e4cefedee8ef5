//! A store from a schema text and the files of its tables, the reply to a role's query over it, and what is written where
//! either stops.
#![tactic(auto)]

mod arguments;
mod error;
mod explanation;
mod line;
mod load;
mod open;
mod plan_tree;
mod reply_tables;
mod rights;
mod schema;
mod schema_explanation;

pub use access_matrix::Pair;
pub use arguments::{Arguments, reply};
pub use engine::{Store, explain, verify};
pub use error::{SchemaError, SetupError};
pub use explanation::explain_refusal;
pub use line::{report, status_of};
pub use load::{Folder, load_table, load_tables};
pub use open::{open_store, store_of_schema};
pub use plan_tree::explain_tree;
pub use reply_tables::reply_table;
pub use rights::{write_changes, write_changes_table, write_matrix, write_matrix_table};
pub use schema::apply_schema;
pub use schema_explanation::explain_schema;
