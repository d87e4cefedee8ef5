//! A database: its catalogue and the contents of its tables, changed by statements and loaded from readers.
//!
//! ```text
//! let mut store = Store::new(alloc)?;
//! let statement = syntax::parse_statement(alloc, "CREATE TABLE t (id bigint)")?;
//! store.change("root", &statement)?;
//! store.load("t", "id\n1\n2\n".as_bytes())?;
//! ```
#![tactic(auto)]

mod laws;
mod store;
mod stored;

pub use laws::law_tables_have_contents;
pub use store::{Store, StoreError};
pub use stored::column_number;
