//! A database whose rows are secured: its tables and their rows, and the replies to queries.
//!
//! A store is made, changed by statements, loaded from readers, and asked; crates/embed is a whole program.
//!
//! ```text
//! let mut store = Store::new(alloc)?;
//! let statement = syntax::parse_statement(alloc, "CREATE TABLE t (id bigint)")?;
//! store.change("root", &statement)?;
//! store.load("t", "id\n1\n2\n".as_bytes())?;
//! let mut out = Output { inner: Vec::new(alloc), failed: 0 };
//! let status = serve(alloc, &store, "root", "SELECT id FROM t", &mut out);   // 0, and out.inner is "id\n1\n2\n"
//! ```
#![tactic(auto)]

mod answer;
mod asking;
mod auditing;
mod explaining;
mod plans;
mod preparing;
mod seen_statistics;
mod setting;
mod verifying;
mod writing;

pub use analysis::{admit, read_query, refusal};
pub use asking::{ask, law_each_table_is_held, law_refusals_read_no_row, run_plan};
pub use auditing::check;
pub use bound_plans::{plain_code, read_trail, write_trail};
pub use explaining::{explain, explain_with, law_seen_rows};
pub use plans::Plan;
pub use preparing::{law_nothing_known, plan, plan_with};
pub use resolve::Bound;
pub use row_ast::Query;
pub use seen_tables::Seen;
pub use store::{Store, StoreError};
pub use verifying::verify;
pub use writing::{law_hidden_rows, law_ungranted_columns, serve, write_answer};
